//! Functions of docs/LIBRARY.md, each with a test. The others stand in `record_tests`.

use super::{expect_bytes, expect_eq, expect_made, owned_of};
use sj_base::{Error, ErrorType, TryTypeError, ValueType};
use sj_keys::{KnownKey, KnownKeyError};
use sj_lazy::Value as LazyValue;
use sj_owned::OwnedValue;
use sj_parse::{Buffers, to_tape, to_tape_with_buffers};
use sj_reads::{ValueAsScalar, ValueGetScalar};
use std::alloc::{AllocError, Global};
use std::process::Abort;
use thiserror::Error as ThisError;

// Whether the member of this name is this text.
fn has_text(
    alloc: Global,
    line: &mut [u8],
    buffers: &mut Buffers,
    name: &str,
    want: &str,
) -> Result<bool, Error> {
    let tape = to_tape_with_buffers(alloc, line, buffers)?;
    Ok(tape.as_value().get_str(name) == Some(want))
}

// Returns the lines whose member of this name is this text.
fn matching_lines(alloc: Global, input: &str, name: &str, want: &str) -> Result<String, Error> {
    let mut buffers = Buffers::new(alloc, 0)?;
    let mut line = Vec::new(alloc);
    let mut found = String::new(alloc);
    for text in input.lines() {
        line.clear();
        line.extend_from_slice(text.as_bytes())?;
        if has_text(alloc, &mut line, &mut buffers, name, want)? {
            found.push_str(text)?;
            found.push('\n')?;
        }
    }
    Ok(found)
}

#[test]
fn filtered_lines(rt: HostRuntime) {
    let input = r#"{"package": "adduser", "section": "admin"}
{"package": "bash", "section": "shells"}
{"section": "\u0061dmin"}"#;
    let found = matching_lines(rt.alloc(), input, "section", "admin");
    let wanted = r#"{"package": "adduser", "section": "admin"}
{"section": "\u0061dmin"}
"#;
    expect_eq(&rt, found.ok().as_deref(), Some(wanted));
}

// What the line of a package says.
#[derive(Debug, PartialEq, Drop)]
struct Package {
    name: String,
    size: u64,
    depends: Vec<String>,
}

// Why a line is no package.
#[derive(Debug, PartialEq, Drop, ThisError)]
enum PackageError {
    #[error("{0}")]
    Json(#[from] Error),
    #[error("{0}")]
    Type(#[from] TryTypeError),
    #[error("no member {0}")]
    Missing(&'static str),
    #[error("no memory")]
    Memory(#[from] AllocError),
}

fn read_package(alloc: Global, line: &mut [u8]) -> Result<Package, PackageError> {
    let tape = to_tape(alloc, line)?;
    let value = tape.as_value();
    let Some(name) = value.try_get_str("package")? else {
        return Err(PackageError::Missing("package"));
    };
    let Some(size) = value.try_get_u64("installed_size")? else {
        return Err(PackageError::Missing("installed_size"));
    };
    let mut depends = Vec::new(alloc);
    if let Some(packages) = value.try_get_array("depends")? {
        for package in &packages {
            let text = String::from_str(alloc, package.try_as_str()?)?;
            depends.push(text).map_err(AllocError::from)?;
        }
    }
    let name = String::from_str(alloc, name)?;
    Ok(Package {
        name,
        size,
        depends,
    })
}

// Reads a line.
fn package_of(rt: &impl Abort, alloc: Global, line: &str) -> Result<Package, PackageError> {
    let mut text = line.as_bytes().to_vec(alloc).expect(rt, "memory");
    read_package(alloc, &mut text)
}

#[test]
fn read_packages(rt: HostRuntime) {
    let alloc = rt.alloc();
    let line = r#"{"package": "adduser", "installed_size": 686, "depends": ["passwd"]}"#;
    let package = package_of(&rt, alloc, line).expect(&rt, "a package");
    expect_eq(&rt, package.name.as_str(), "adduser");
    expect_eq(&rt, package.size, 686);
    expect_eq(
        &rt,
        package.depends.first().map(|name| name.as_str()),
        Some("passwd"),
    );
    drop(package);
    for (line, wanted) in [
        (
            r#"{"package": "adduser"}"#,
            PackageError::Missing("installed_size"),
        ),
        (
            r#"{"package": 7}"#,
            PackageError::Type(TryTypeError {
                expected: ValueType::String,
                got: ValueType::U64,
            }),
        ),
        (
            "{",
            PackageError::Json(Error::at(ErrorType::Syntax, 0, b'{')),
        ),
    ] {
        expect_eq(&rt, package_of(&rt, alloc, line).err(), Some(wanted));
    }
}

// Adds one to the member of this key, or puts a 1 there. A member that isn't a `u64` is left as it is.
fn count_up(
    alloc: Global,
    document: &mut OwnedValue,
    key: &KnownKey<'_>,
) -> Result<(), KnownKeyError> {
    let count = key.lookup_or_insert_mut(alloc, document, || OwnedValue::from(0u64))?;
    if let Some(number) = count.as_u64() {
        *count = OwnedValue::from(number.saturating_add(1));
    }
    Ok(())
}

#[test]
fn counted_up(rt: HostRuntime) {
    let key = KnownKey::from("seen");
    for (text, wanted) in &[
        ("{}", r#"{"seen":1}"#),
        (r#"{"seen":7,"a":[]}"#, r#"{"seen":8,"a":[]}"#),
        (r#"{"seen":"x"}"#, r#"{"seen":"x"}"#),
    ] {
        let mut document = owned_of(&rt, rt.alloc(), text);
        expect_eq(&rt, count_up(rt.alloc(), &mut document, &key), Ok(()));
        expect_made(&rt, rt.alloc(), document, wanted);
    }
}

// Returns the line's compact text without the member of this name. A line that has none is printed from its tape.
fn text_without(alloc: Global, line: &mut [u8], name: &str) -> Result<Vec<u8>, Error> {
    let tape = to_tape(alloc, line)?;
    let mut value = LazyValue::from_tape(tape.as_value());
    if value.contains_key(name) && value.remove(alloc, name).is_err() {
        return Err(AllocError.into());
    }
    let mut out = Vec::new(alloc);
    value.encode(&mut out)?;
    Ok(out)
}

#[test]
fn texts_without(rt: HostRuntime) {
    for (line, wanted) in &[
        (r#"{"a": 1, "b": 2.50, "a": 3}"#, r#"{"b":2.50}"#),
        (r#"{"b": 2.50, "b": 3}"#, r#"{"b":2.50,"b":3}"#),
        ("[1]", "[1]"),
    ] {
        let mut text = line.as_bytes().to_vec(rt.alloc()).expect(&rt, "memory");
        let found = text_without(rt.alloc(), &mut text, "a").expect(&rt, "a text");
        expect_bytes(&rt, found, wanted);
    }
}
