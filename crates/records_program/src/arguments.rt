//! The arguments of the command line.
ghost use Rattle.std.specs.Prelude.{◌≡◌, IfOk, IfSome, List, [], ℕ, None, codes, false, map};
ghost use Rattle.clap.specs.Words.{FailsBy, HasKind, app_of, found_of, new_app, rows_of, rule_of};
ghost use Rattle.records_program.specs.Arguments.{Hold, app, depth_rule, form_named, form_rule, kinds_of, repeats_named, repeats_rule, rows_in, script_rule};
ghost use Rattle.records_program.specs.inside.Parts.{AreParsedAs};

use crate::fault::Fault;
use clap::error::ErrorKind;
use clap::{Arg, ArgAction, ArgMatches, Command, Error, value_parser};
use sj_records::{Form, Repeats};
use std::alloc::{AllocError, Global};
use std::convert::AsStr;
use std::rt::Env;
use std::{env, io};

const ABOUT: &str = "Runs a script on each JSON line of standard input, and writes a record for it";

const AFTER_HELP: &str = "\
Commands of a script:
  [\"get\", PATH]                 [value], or [] where PATH selects nothing
  [\"contains\", PATH, KEY]       whether the object has the key
  [\"type\", PATH]                null, bool, integer, decimal, string, array or object
  [\"len\", PATH]                 the number of items or members
  [\"keys\", PATH]                the keys of the object, in order
  [\"insert\", PATH, KEY, VALUE]  sets a member; [old value], or [] for a new key
  [\"remove\", PATH, KEY]         removes a member; [old value], or []
  [\"push\", PATH, VALUE]         appends an item; []
  [\"pop\", PATH]                 removes the last item; [item], or []
  [\"set\", PATH, VALUE]          replaces the value; [old value]
  [\"undo\"]                      takes back the newest write; true, or false if there is none
  [\"reload\"]                    prints the document and reads that text in its place; true, or false if it is too long
  [\"reload_pp\"]                 the same with the indented text

PATH is an array of keys and of indexes from 0; [] is the whole document.
A command that is refused has a word as its reply, such as \"NoSuchPath\".

Records, one for each line:
  {\"replies\":[REPLY,...],\"document\":VALUE}       a document, as it is after the commands
  {\"error\":KIND,\"index\":BYTE,\"character\":TEXT}   the first fault of a line that is no document
  {\"error\":\"RepeatedKey\",\"path\":PATH,\"key\":KEY}  a repeated key, with --repeats refuse
TEXT is null if the fault is one of the whole line.

Exit status: 0, or 1 if memory, the input or the output failed, or 2 if the arguments or the script are refused,
or SCRIPT can't be read.";

/// What the arguments ask for.
#[derive(Debug, Drop)]
pub(crate) enum Arguments<'a> {
    /// To run a script.
    Run(RunArguments<'a>),
    /// To print this help.
    Help(String),
}

/// The run that the arguments ask for.
#[derive(Clone, Copy, Debug)]
pub(crate) struct RunArguments<'a> {
    /// The name of the script's file.
    pub(crate) script: &'a str,
    /// The form of the documents.
    pub(crate) form: Form,
    /// The most levels that a document may nest.
    pub(crate) depth: usize,
    /// Whether a document that repeats a key is refused.
    pub(crate) repeats: Repeats,
}

/// Parses the words of the command line, of which the first is the program's name.
///
/// # Errors
///
/// Returns `Fault::Arguments` if the words are refused, and `Fault::Memory` if an allocation failed.
pub(crate) fn parse_arguments<'a, S: AsStr>(
    alloc: Global,
    words: &'a [S],
) -> Result<Arguments<'a>, Fault>
    ensures { AreParsedAs (map S.text words.now) result }
{
    match parse_words(alloc, words) {
        Ok(matches) => run_or_fault(alloc, &matches),
        Err(error) => help_or_fault(alloc, &error),
    }
}

fn parse_words<'a, S: AsStr>(alloc: Global, words: &'a [S]) -> Result<ArgMatches<'a>, Error>
    ensures rows { IfOk result (λ matches. rows_of (found_of matches) ≡ rows_in (map S.text words.now)) }
    ensures kinds { FailsBy (kinds_of (map S.text words.now)) result }
{
    command(alloc)?.try_get_matches_from(words)
}

/// Returns the run that the words ask for, from `clap`'s matches, or the fault of a `--form` that names no form or a `--repeats`
/// that names no rule.
fn run_or_fault<'a>(alloc: Global, matches: &ArgMatches<'a>) -> Result<Arguments<'a>, Fault>
    ensures { (words : List (List ℕ)) → kinds_of words ≡ [] → rows_of (found_of matches.now) ≡ rows_in words → AreParsedAs words result }
{
    match run_of(matches) {
        Some(run) => Ok(Arguments::Run(run)),
        None => Err(Fault::Arguments(unknown_name(alloc, matches)?)),
    }
}

/// Returns the run that the matches have the values of.
fn run_of<'a>(matches: &ArgMatches<'a>) -> Option<RunArguments<'a>>
    ensures some { IfSome result (Hold (rows_of (found_of matches.now))) }
    ensures none { (result ≡ None) → (run : RunArguments) → Hold (rows_of (found_of matches.now)) run → ⊥ }
{
    let script = matches.get_str("SCRIPT")?;
    let form = find_form(matches.get_str("form")?)?;
    let repeats = find_repeats(matches.get_str("repeats")?)?;
    let depth = matches.get_str("depth")?.parse().ok()?;
    Some(RunArguments {
        script,
        form,
        depth,
        repeats,
    })
}

fn find_form(name: &str) -> Option<Form>
    ensures { result ≡ form_named name.now }
{
    match name {
        "owned" => Some(Form::Owned),
        "borrowed" => Some(Form::Borrowed),
        "lazy" => Some(Form::Lazy),
        _ => None,
    }
}

fn find_repeats(name: &str) -> Option<Repeats>
    ensures { result ≡ repeats_named name.now }
{
    match name {
        "keep" => Some(Repeats::Keep),
        "refuse" => Some(Repeats::Refuse),
        _ => None,
    }
}

/// The program's command.
fn command<'a>(alloc: Global) -> Result<Command<'a>, AllocError>
    ensures { IfOk result (λ command. app_of command ≡ app) }
{
    let command = texts(alloc)?
        .arg(form_argument(alloc))?
        .arg(depth_argument(alloc))?
        .arg(repeats_argument(alloc))?
        .arg(script_argument(alloc))?;
    Ok(command)
}

/// The command without its arguments. Its texts say `records`, whatever the name of the program's file is.
fn texts<'a>(alloc: Global) -> Result<Command<'a>, AllocError>
    ensures { IfOk result (λ command. app_of command ≡ new_app (codes "records")) }
{
    let command = Command::new(alloc, "records")
        .bin_name("records")?
        .about(ABOUT)
        .after_help(AFTER_HELP);
    Ok(command)
}

fn form_argument<'a>(alloc: Global) -> Arg<'a>
    ensures rule { rule_of result ≡ form_rule }
    ensures local { result.global ≡ false }
{
    Arg::new(alloc, "form")
        .long("form")
        .value_name("FORM")
        .action(ArgAction::Set)
        .default_value("owned")
        // `run_of` tests the names: with a parser for them the command would hold references, and be no constant.
        .help("The form of each document: owned, borrowed or lazy")
}

fn depth_argument<'a>(alloc: Global) -> Arg<'a>
    ensures rule { rule_of result ≡ depth_rule }
    ensures local { result.global ≡ false }
{
    Arg::new(alloc, "depth")
        .long("depth")
        .value_name("LEVELS")
        .action(ArgAction::Set)
        .default_value("1024")
        .value_parser(value_parser!(u64).range(0..=1024))
        .help("The most levels that a document may nest, from 0 to 1024")
}

fn repeats_argument<'a>(alloc: Global) -> Arg<'a>
    ensures rule { rule_of result ≡ repeats_rule }
    ensures local { result.global ≡ false }
{
    Arg::new(alloc, "repeats")
        .long("repeats")
        .value_name("RULE")
        .action(ArgAction::Set)
        .default_value("keep")
        .help("Whether the script runs on a document that repeats a key: keep or refuse")
}

fn script_argument<'a>(alloc: Global) -> Arg<'a>
    ensures rule { rule_of result ≡ script_rule }
    ensures local { result.global ≡ false }
{
    Arg::new(alloc, "SCRIPT")
        .required(true)
        .action(ArgAction::Set)
        .help("The file with the script, an array of commands")
}

/// Returns the help or the fault that the words ask for, from `clap`'s error.
fn help_or_fault<'a>(alloc: Global, error: &Error) -> Result<Arguments<'a>, Fault>
    ensures { (words : List (List ℕ)) → HasKind (kinds_of words) error.now → AreParsedAs words result }
{
    if error.kind() == ErrorKind::OutOfMemory {
        return Err(Fault::Memory);
    }
    let text = error.to_string(alloc)?;
    if error.kind() == ErrorKind::DisplayHelp {
        Ok(Arguments::Help(text))
    } else {
        Err(Fault::Arguments(text))
    }
}

/// The text of `clap` for a `--form` that names no form, or else for a `--repeats` that names no rule.
fn unknown_name(alloc: Global, matches: &ArgMatches<'_>) -> Result<String, AllocError> {
    let form = matches.get_str("form").unwrap_or_default();
    if find_form(form).is_none() {
        return unknown(alloc, form, "--form <FORM>", "owned, borrowed, lazy");
    }
    let rule = matches.get_str("repeats").unwrap_or_default();
    unknown(alloc, rule, "--repeats <RULE>", "keep, refuse")
}

/// The text for a value of an argument that takes only these names.
fn unknown(alloc: Global, value: &str, argument: &str, names: &str) -> Result<String, AllocError> {
    let message = format!(in alloc;
        "invalid value '{value}' for '{argument}'\n  [possible values: {names}]"
    )?;
    refusal(alloc, &message)
}

/// The text of `clap` for values and words that the program refuses itself.
fn refusal(alloc: Global, message: &str) -> Result<String, AllocError> {
    let mut command = command(alloc)?;
    let error = command.error(ErrorKind::InvalidValue, message)?;
    error.to_string(alloc)
}

/// Returns the words that the program was started with.
///
/// # Errors
///
/// `Fault::Memory` if an allocation failed, and `Fault::Arguments` if the words can't be read, for example because one isn't UTF-8.
pub fn command_line<R: Env + AllocGlobal>(rt: &R) -> Result<Vec<String>, Fault> {
    let words = match env::args(rt) {
        Ok(words) => words,
        Err(error) => return Err(unreadable_words(rt.alloc(), &error)),
    };
    Ok(words.collect(rt.alloc())?)
}

/// The fault of words that can't be read: lack of memory, or else a word that isn't UTF-8.
fn unreadable_words(alloc: Global, error: &io::Error) -> Fault {
    if error.kind() == io::ErrorKind::OutOfMemory {
        return Fault::Memory;
    }
    let message = "invalid UTF-8 was detected in one or more arguments";
    match refusal(alloc, message) {
        Ok(text) => Fault::Arguments(text),
        Err(_) => Fault::Memory,
    }
}
