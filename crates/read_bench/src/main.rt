//! Times the reading of JSON texts, or their printing, again and again, and prints the median and the least time. Or compares the
//! two scans on the beginnings of the texts.
//!
//! The contracts say which documents are refused, what bytes are printed, and what the figures are of the times. They say
//! nothing of how long a pass takes.
#![tactic(auto)]

mod arguments;
mod build;
mod cuts;
mod documents;
mod measure;
mod passes;
mod stats;

use crate::arguments::{Arguments, Task, parse_arguments};
use crate::cuts::count_differences;
use crate::documents::split;
use crate::measure::{Measured, measure};
use anyhow::{Context, Result};
use std::process::ExitCode;
use std::{env, fs};

fn main(rt: HostRuntime) -> Result<ExitCode> {
    let words: Vec<String> = env::args(&rt)?.collect(rt.alloc())?;
    match parse_arguments(rt.alloc(), words.as_slice()) {
        Ok(arguments) => {
            bench(&rt, &arguments)?;
            Ok(ExitCode::SUCCESS)
        }
        Err(error) => {
            error.print(&rt)?;
            Ok(ExitCode::from(if error.use_stderr() { 2 } else { 0 }))
        }
    }
}

/// Times the passes that the arguments ask for, and prints the median and the least time of one, in nanoseconds, and the
/// number of documents that are refused. Where they ask for a comparison, it prints the number of cuts at which the two
/// scans differ.
fn bench(rt: &HostRuntime, arguments: &Arguments<'_>) -> Result<()> {
    let alloc = rt.alloc();
    let bytes = fs::read(rt, arguments.file).context(format_args!("reading {}", arguments.file))?;
    let documents = split(alloc, bytes, arguments.file)?;
    match arguments.task {
        Task::Time(kind) => {
            let Measured { figures, refused } = measure(
                rt,
                alloc,
                kind,
                documents,
                arguments.duration,
            )?;
            println!(rt; "{} {} {refused}", figures.median, figures.least)?;
        }
        Task::Compare => println!(rt; "{}", count_differences(alloc, &documents)?)?,
    }
    Ok(())
}
