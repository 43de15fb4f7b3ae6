//! Runs and writes whose calls are counted, over an output that is only lent.
ghost use Rattle.std.specs.Prelude.{◌≡◌, ℕ, OnErr, OnOk};
ghost use Rattle.std.specs.Io.KnownBytes.{Appends};
ghost use Rattle.sj_base.specs.Output.{AppendsPrefix};
ghost use Rattle.sj_scripts.specs.Steps.{steps_of};
ghost use Rattle.records_program.specs.Program.{run_job};
ghost use Rattle.records_program.specs.inside.Parts.{RunLeaves};

use crate::arguments::RunArguments;
use sj_base::{Counted, Output, WriteFault};
use sj_records::{RunError, Script, run};
use std::alloc::Global;
use std::io;
use std::io::{Read, Write};
use std::marker::{Brand, PhantomData};

/// A type that stands for the ghost name of a `&mut` reference, so that the type of a value can say which reference it holds.
pub(crate) trait Named {
    ghost name: { ℕ };
}

/// The proof at a call picks the name.
impl Named for Brand {
    ghost name = { 0 };
}

/// An output that is lent. Its type says which reference it holds, so that what is written to it stands in the caller's
/// output.
struct Lent<'a, O, N: Named> {
    output: &'a mut O,
    of: PhantomData<N>,
    ghost same: { output.ghost_name ≡ N.name },
}

impl<O: Write, N: Named> Write for Lent<'_, O, N> {
    ghost contents = { λ l. O.contents l.output.now };

    fn write(&mut self, buf: &[u8]) -> io::Result<usize> {
        self.output.write(buf)
    }

    fn flush(&mut self) -> io::Result<()> {
        self.output.flush()
    }
}

/// Runs the script on the input as the arguments ask, and returns the output. Its reads and writes are counted, as `run` needs.
pub(crate) fn run_counted<'a, I: Read + Drop, O: Write, N: Named>(
    alloc: Global,
    input: I,
    output: &'a mut O,
    script: &Script,
    arguments: RunArguments<'_>,
) -> (Result<(), RunError>, &'a mut O)
    requires output { output.ghost_name ≡ N.name }
    ensures same_reference { result.1.ghost_name ≡ output.entry.ghost_name }
    ensures stands { RunLeaves (I.remaining input) (O.contents output.old) (O.contents result.1.now) (run_job arguments.entry (steps_of script.now)) result.0 }
{
    let mut source = Counted::new(input);
    let lent = Lent::<'a, O, N> {
        output,
        of: PhantomData,
    };
    let mut sink = Counted::new(lent);
    let ran = run(
        alloc,
        &mut source,
        &mut sink,
        script,
        arguments.depth,
        arguments.form,
        arguments.repeats,
    );
    let _ = source.into_inner();
    let Lent { output, of: _ } = sink.into_inner();
    (ran, output)
}

/// Writes the bytes, and returns the output. The writes are counted, as `put` needs.
///
/// # Errors
///
/// Returns `WriteFault` if a write failed, was interrupted or took no byte. A prefix of the bytes is written then.
pub(crate) fn put_counted<'a, O: Write, N: Named>(
    output: &'a mut O,
    bytes: &[u8],
) -> (Result<(), WriteFault>, &'a mut O)
    requires output { output.ghost_name ≡ N.name }
    ensures same_reference { result.1.ghost_name ≡ output.entry.ghost_name }
    ensures ok { OnOk result.0 (Appends (O.contents output.old) (O.contents result.1.now) bytes.now) }
    ensures err { OnErr result.0 (AppendsPrefix (O.contents output.old) (O.contents result.1.now) bytes.now) }
{
    let lent = Lent::<'a, O, N> {
        output,
        of: PhantomData,
    };
    let mut sink = Counted::new(lent);
    let put = sink.put(bytes);
    let Lent { output, of: _ } = sink.into_inner();
    (put, output)
}
