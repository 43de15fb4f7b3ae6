//! The arguments of the command line.
use clap::error::ErrorKind;
use clap::{Arg, ArgAction, ArgMatches, Command, Error, value_parser};
use std::alloc::{AllocError, Global};
use std::str::FromStr;
use std::time::Duration;

const ABOUT: &str =
    "Times the reading or the printing of JSON, and prints the median and the least time of a pass in nanoseconds, and the number of documents refused";

/// The words of the tasks.
const TASKS: [&str; 7] = [
    "tape", "plain", "owned", "borrowed", "scan", "print", "compare",
];

/// What a word asks for.
#[derive(Clone, Copy)]
pub(crate) enum Task {
    /// Passes of this kind are timed.
    Time(Kind),
    /// Each document is cut at many places, and the two scans of what stands before each cut are compared.
    Compare,
}

/// What a pass does with each document.
#[derive(Clone, Copy)]
pub(crate) enum Kind {
    /// Reads it into a tape, with the scan that `sj_parse` uses.
    Tape,
    /// Reads it into a tape, with the scan byte by byte.
    Plain,
    /// Reads it into a tape, and builds a document of it that owns its texts.
    Owned,
    /// Reads it into a tape, and builds a document of it that borrows its texts.
    Borrowed,
    /// Finds its positions, which is stage one of reading, by the scan that `sj_parse` uses.
    Scan,
    /// Prints its tape, which was read before.
    Print,
}

/// A word that names no task.
#[derive(Clone, Copy)]
pub(crate) struct UnknownTask;

impl FromStr for Task {
    type Err = UnknownTask;

    ghost use Rattle.read_bench.specs.Task.{Names};

    ghost from_str_gives = { Names };

    fn from_str(word: &str) -> Result<Task, UnknownTask> {
        match word {
            "tape" => Ok(Task::Time(Kind::Tape)),
            "plain" => Ok(Task::Time(Kind::Plain)),
            "owned" => Ok(Task::Time(Kind::Owned)),
            "borrowed" => Ok(Task::Time(Kind::Borrowed)),
            "scan" => Ok(Task::Time(Kind::Scan)),
            "print" => Ok(Task::Time(Kind::Print)),
            "compare" => Ok(Task::Compare),
            _ => Err(UnknownTask),
        }
    }
}

/// What the arguments ask for.
#[derive(Drop)]
pub(crate) struct Arguments<'a> {
    pub(crate) task: Task,
    /// The name of the file.
    pub(crate) file: &'a str,
    /// For how long new passes are begun.
    pub(crate) duration: Duration,
}

/// Parses the words of the command line, of which the first is the program's name.
///
/// # Errors
///
/// The error of `clap` if the words are refused or ask for the help, or if an allocation failed.
pub(crate) fn parse_arguments<'a>(
    alloc: Global,
    words: &'a [String],
) -> Result<Arguments<'a>, Error> {
    let matches = command(alloc)?.try_get_matches_from(words)?;
    match arguments_of(&matches) {
        Some(arguments) => Ok(arguments),
        None => Err(missing(alloc)?),
    }
}

/// Returns the arguments that the matches have the values of.
fn arguments_of<'a>(matches: &ArgMatches<'a>) -> Option<Arguments<'a>> {
    Some(Arguments {
        task: matches.get_one::<Task>("KIND")?,
        file: matches.get_str("FILE")?,
        duration: Duration::from_millis(matches.get_one::<u64>("MILLISECONDS")?),
    })
}

/// The error of an argument that is missing. It isn't met: `clap` requires all three.
fn missing(alloc: Global) -> Result<Error, AllocError> {
    command(alloc)?.error(ErrorKind::MissingRequiredArgument, "an argument is missing")
}

/// The program's command. Its texts say `read_bench`, whatever the name of the program's file is.
fn command<'a>(alloc: Global) -> Result<Command<'a>, AllocError> {
    Command::new(alloc, "read_bench")
        .bin_name("read_bench")?
        .about(ABOUT)
        .arg(kind_argument(alloc))?
        .arg(file_argument(alloc))?
        .arg(milliseconds_argument(alloc))
}

fn kind_argument<'a>(alloc: Global) -> Arg<'a> {
    Arg::new(alloc, "KIND")
        .required(true)
        .action(ArgAction::Set)
        .value_parser(TASKS.as_slice())
        .help(
            "What a pass does with each document. compare prints one number, that of the cuts at which the two scans differ",
        )
}

fn file_argument<'a>(alloc: Global) -> Arg<'a> {
    Arg::new(alloc, "FILE")
        .required(true)
        .action(ArgAction::Set)
        .help("The documents: one if the name ends in .json, and else one a line")
}

fn milliseconds_argument<'a>(alloc: Global) -> Arg<'a> {
    Arg::new(alloc, "MILLISECONDS")
        .required(true)
        .action(ArgAction::Set)
        .value_parser(value_parser!(u64))
        .help("How long to go on beginning passes")
}
