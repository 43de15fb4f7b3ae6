//! The program, over the words, the file, the input and the outputs that it is given.
ghost use Rattle.std.specs.Prelude.{◌≡◌, Ok, Err, Result, IfOk, IfErr, OnOk, OnErr, map};
ghost use Rattle.std.specs.Fn.{FnOnceReturnsAt};
ghost use Rattle.std.specs.Io.KnownBytes.{Appends, Keeps};
ghost use Rattle.sj_base.specs.Output.{AppendsPrefix};
ghost use Rattle.sj_scripts.specs.Steps.{steps_of};
ghost use Rattle.sj_scripts.specs.Script.{IsReadAs};
ghost use Rattle.records_program.specs.Fault.{exit_status, refusal_line, status_of};
ghost use Rattle.records_program.specs.Program.{ProgramLeaves, Reports, RunEnds, run_job};
ghost use Rattle.records_program.specs.inside.Parts.{RefusesBytes};
ghost use Rattle.records_program.specs.declared.fault.Fault.{Fault};

use crate::arguments::{Arguments, RunArguments, parse_arguments};
use crate::counted::{put_counted, run_counted};
use crate::fault::Fault;
use crate::load::LoadFault;
use sj_base::{Output, Sink};
use sj_records::{Script, ScriptFault};
use std::alloc::{AllocError, Global};
use std::convert::AsStr;
use std::io::{Read, Write};
use std::marker::Brand;

/// Does what the words ask for: runs the script that `load` returns for the name of its file on the input, or writes the help.
/// The first of the words is the program's name. `load` has to be callable with every name, as a function without `requires` is.
///
/// The output is flushed at the end, also after a run that failed. A flush that fails counts as an output that failed.
///
/// Returns the exit status: 0 if that was done, 1 if memory, the input or the output failed, and 2 if the arguments or the
/// script are refused, or the file can't be read. What [`Fault::line`] has of a fault is written to `faults`. If
/// that fails, the status stays.
pub fn program<S, L, I, O, E>(
    alloc: Global,
    words: &[S],
    load: L,
    input: I,
    output: &mut O,
    faults: &mut E,
) -> u8
where
    S: AsStr,
    L: FnOnce(&str) -> Result<Vec<u8>, LoadFault>,
    I: Read + Drop,
    O: Write,
    E: Sink,
    requires { L.IsAlwaysCallable load }
    // The end of the program: its status, what it leaves on the output, and what it reports.
    ensures { (ended : Result Unit Fault) × (result ≡ exit_status ended)
        × ProgramLeaves (FnOnceReturnsAt L.FnOnce load) (map S.text words.now) (I.remaining input) (O.contents output.old) (O.contents output.new) ended
        × Reports ended (E.contents faults.old) (E.contents faults.new) (E.calls faults.old) (E.calls faults.new) }
{
    match try_program(alloc, words, load, input, output) {
        Ok(()) => 0,
        Err(fault) => report_fault(&fault, faults),
    }
}

/// Writes the line of the fault, and returns its status. A failed write doesn't change the status.
pub fn report_fault<E: Sink>(fault: &Fault, faults: &mut E) -> u8
    ensures status { result ≡ status_of fault.now }
    ensures told { Reports (Err fault.now) (E.contents faults.old) (E.contents faults.new) (E.calls faults.old) (E.calls faults.new) }
{
    let _ = faults.put(fault.line());
    fault.status()
}

/// Does what the words ask for.
fn try_program<S, L, I, O>(
    alloc: Global,
    words: &[S],
    load: L,
    input: I,
    output: &mut O,
) -> Result<(), Fault>
where
    S: AsStr,
    L: FnOnce(&str) -> Result<Vec<u8>, LoadFault>,
    I: Read + Drop,
    O: Write,
    requires { L.IsAlwaysCallable load }
    ensures { ProgramLeaves (FnOnceReturnsAt L.FnOnce load) (map S.text words.now) (I.remaining input) (O.contents output.old) (O.contents output.new) result }
{
    let arguments = match parse_arguments(alloc, words)? {
        Arguments::Run(arguments) => arguments,
        Arguments::Help(help) => return print_help(output, help.as_str()),
    };
    let mut bytes = load(arguments.script)?;
    let script = read_script(alloc, &mut bytes)?;
    run_script(alloc, input, output, &script, arguments)
}

/// Writes the help, and flushes the output. A prefix of the help is written before an error.
fn print_help<O: Write>(output: &mut O, help: &str) -> Result<(), Fault>
    ensures ok { OnOk result (Appends (O.contents output.old) (O.contents output.new) help.now) }
    ensures err { OnErr result (AppendsPrefix (O.contents output.old) (O.contents output.new) help.now) }
    ensures only { IfErr result (λ f. f ≡ Fault.Write) }
{
    let (put, output) = put_counted::<O, Brand>(output, help.as_bytes());
    match put {
        Ok(()) => flush(output),
        Err(_) => Err(Fault::Write),
    }
}

/// Flushes the output. A failed flush is a failed write.
fn flush<O: Write>(output: &mut O) -> Result<(), Fault>
    ensures bytes { Keeps (O.contents output.old) (O.contents output.new) }
    ensures only { IfErr result (λ f. f ≡ Fault.Write) }
{
    match output.flush() {
        Ok(()) => Ok(()),
        Err(_) => Err(Fault::Write),
    }
}

/// Reads the script.
fn read_script(alloc: Global, bytes: &mut [u8]) -> Result<Script, Fault>
    ensures ok { IfOk result (λ script. IsReadAs bytes.old (Ok (steps_of script))) }
    ensures refused { IfErr result (RefusesBytes bytes.old) }
{
    match Script::read(alloc, bytes) {
        Ok(script) => Ok(script),
        Err(ScriptFault::Memory) => Err(Fault::Memory),
        Err(fault) => Err(Fault::Script(refusal(alloc, &fault)?)),
    }
}

/// Returns the line of a script that is refused.
fn refusal(alloc: Global, fault: &ScriptFault) -> Result<Vec<u8>, AllocError>
    ensures { IfOk result (λ line. line.items ≡ refusal_line fault.now) }
{
    let mut line = Vec::from_slice(alloc, b"records: script: ")?;
    fault.put_fault(&mut line)?;
    line.push(b'\n')?;
    Ok(line)
}

/// Runs the script on the input, and flushes the output in any case.
fn run_script<I: Read + Drop, O: Write>(
    alloc: Global,
    input: I,
    output: &mut O,
    script: &Script,
    arguments: RunArguments<'_>,
) -> Result<(), Fault>
    ensures status { IfErr result (λ f. status_of f ≡ 1) }
    ensures stands { RunEnds (I.remaining input) (O.contents output.old) (O.contents output.new) (run_job arguments.entry (steps_of script.now)) result }
{
    let (ran, output) = run_counted::<I, O, Brand>(alloc, input, output, script, arguments);
    let flushed = flush(output);
    ran?;
    flushed
}
