//! The words and the file that the system gives.
use crate::tests::{expect_eq, expect_that};
use records_program::{LoadFault, command_line, read_file};
use std::env::{Env, FillError};

const NOT_UTF8: &str = "\
error: invalid UTF-8 was detected in one or more arguments

Usage: records [OPTIONS] <SCRIPT>

For more information, try '--help'.
";

// A system that gives one word, which is no UTF-8.
#[derive(Drop)]
struct NotUtf8;

impl Env for NotUtf8 {
    fn arg(&self, i: usize, buf: &mut [u8]) -> Result<usize, FillError> {
        match buf.first_mut() {
            Some(byte) if i == 0 => {
                *byte = 0xff;
                Ok(1)
            }
            _ => Err(FillError::NotPresent),
        }
    }

    fn var(&self, _name: &str, _buf: &mut [u8]) -> Result<usize, FillError> {
        Err(FillError::NotPresent)
    }

    fn var_at(&self, _i: usize, _buf: &mut [u8]) -> Result<usize, FillError> {
        Err(FillError::NotPresent)
    }
}

#[test]
fn refuses_words_not_in_utf8(rt: HostRuntime) {
    let fault = command_line(&(NotUtf8, rt.alloc()))
        .err()
        .expect(&rt, "a fault");
    expect_eq(&rt, fault.status(), 2);
    expect_eq(&rt, fault.line(), NOT_UTF8.as_bytes());
}

#[test]
fn reads_files(rt: HostRuntime) {
    for name in &["/no/such/file", "/"] {
        let fault = read_file(&rt, name).err();
        expect_eq(&rt, fault, Some(LoadFault::Unreadable));
    }
    let bytes = read_file(&rt, "/dev/null").expect(&rt, "a file");
    expect_that(&rt, "no bytes", bytes.is_empty());
}
