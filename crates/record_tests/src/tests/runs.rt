//! Runs of a script on a stream or on one line, and what they are to write.

use super::readers::{Pieces, run_by};
use super::{LIMIT, expect_at, expect_eq, script_of};
use sj_records::{Form, Repeats};
use std::alloc::Global;
use std::process::Abort;

// A script, a stream that comes in pieces of `step` bytes, the limit of levels, and the rule for repeated keys.
#[derive(Clone, Copy)]
pub(super) struct Run<'a> {
    pub(super) script: &'a str,
    pub(super) stream: &'a [u8],
    pub(super) step: usize,
    pub(super) depth: usize,
    pub(super) repeats: Repeats,
}

impl<'a> Run<'a> {
    // In large pieces, under the usual limit, where keys may repeat.
    pub(super) fn new(script: &'a str, stream: &'a [u8]) -> Run<'a> {
        Run {
            script,
            stream,
            step: 65536,
            depth: LIMIT,
            repeats: Repeats::Keep,
        }
    }

    // What is written in this form.
    pub(super) fn output(self, rt: &impl Abort, alloc: Global, form: Form) -> Vec<u8> {
        let script = script_of(alloc, self.script).expect(rt, "a script");
        let mut output = Vec::new(alloc);
        let input = Pieces::new(self.stream, self.step);
        let ended = run_by(
            alloc,
            input,
            &mut output,
            &script,
            self.depth,
            form,
            self.repeats,
        );
        expect_eq(rt, ended, Ok(()));
        output
    }

    // Looks for the records in each of these forms.
    pub(super) fn expect(self, rt: &impl Abort, alloc: Global, forms: &[Form], records: &str) {
        for form in forms {
            let output = self.output(rt, alloc, *form);
            let written = std::str::from_utf8(&output);
            expect_at(rt, &(self.step, *form), written, Ok(records));
        }
    }

    // The same where the stream comes in pieces of each of these lengths.
    pub(super) fn expect_by(
        self,
        rt: &impl Abort,
        alloc: Global,
        steps: &[usize],
        forms: &[Form],
        records: &str,
    ) {
        for step in steps {
            Run {
                step: *step,
                ..self
            }
            .expect(rt, alloc, forms, records);
        }
    }
}

// A script, a line, the limit of levels, and the line's record.
#[derive(Clone, Copy)]
pub(super) struct Row<'a> {
    pub(super) script: &'a str,
    pub(super) line: &'a str,
    pub(super) depth: usize,
    pub(super) record: &'a str,
}

impl<'a> Row<'a> {
    // Under the usual limit.
    pub(super) fn new(script: &'a str, line: &'a str, record: &'a str) -> Row<'a> {
        Row {
            script,
            line,
            depth: LIMIT,
            record,
        }
    }

    // Looks for the record in each of these forms, by readers that give few bytes a read and many.
    pub(super) fn check(self, rt: &impl Abort, alloc: Global, forms: &[Form]) {
        let stream = format!(in alloc; "{}\n", self.line).expect(rt, "memory");
        let records = format!(in alloc; "{}\n", self.record).expect(rt, "memory");
        let run = Run {
            depth: self.depth,
            ..Run::new(self.script, stream.as_bytes())
        };
        run.expect_by(rt, alloc, &[1, 2, 63, 65536], forms, &records);
    }
}
