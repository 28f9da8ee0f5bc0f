//! `xslu`: plays a script from standard input and writes its transcript to standard output. All that it does is
//! `xs_drive::drive`; this program makes the real ends, and says on standard error why a run ended early.
#![tactic(auto)]

use clap::{Arg, Command};
use std::alloc::{AllocError, Global};
use std::process::ExitCode;
use std::rt::Env;
use std::{env, io};
use xs_base::{StdSink, StdSource, SureVault};
use xs_drive::{Status, drive};

fn main(rt: HostRuntime) -> ExitCode {
    let status = run(&rt);
    if status != Status::Done {
        say(&rt, status);
    }
    ExitCode::from(status.number())
}

/// Drives the program over the real ends.
fn run<R: Env + Input + Print + AllocGlobal>(rt: &R) -> Status {
    let words = match words(rt) {
        Ok(words) => words,
        Err(error) if error.kind() == io::ErrorKind::InvalidData => return Status::Usage,
        Err(_) => return Status::NoMemory,
    };
    let mut src = StdSource::new(rt.reader());
    let mut out = StdSink::new(io::writer(rt));
    let mut vault = SureVault::new(rt.alloc());
    drive(rt.alloc(), words.as_slice(), &mut src, &mut out, &mut vault)
}

/// The words behind the program's name.
fn words<R: Env + AllocGlobal>(rt: &R) -> io::Result<Vec<String>> {
    let words = env::args(rt)?.skip(1).collect(rt.alloc())?;
    Ok(words)
}

/// Says on standard error why a run did not end with Done.
fn say<R: Eprint + AllocGlobal>(rt: &R, status: Status) {
    let _said = match status {
        Status::Usage => say_usage(rt),
        Status::Script { line, kind } => eprintln!(rt; "xslu: line {line}: {kind}"),
        Status::Load { fault } => eprintln!(rt; "xslu: the stream to resume: {fault}"),
        _ => {
            let reason = reason(status);
            eprintln!(rt; "xslu: {reason}")
        }
    };
}

/// Says which forms there are, or in a line that the words are none, where no memory is found for the text.
fn say_usage<R: Eprint + AllocGlobal>(rt: &R) -> io::Result<()> {
    match usage(rt.alloc()) {
        Ok(text) => eprint!(rt; "{text}"),
        Err(_none) => eprintln!(rt; "xslu: {}", reason(Status::Usage)),
    }
}

/// The usage text.
fn usage(alloc: Global) -> Result<String, AllocError> {
    let run = Command::new(alloc, "run").about("Plays the script on standard input");
    let make = numbered(
        alloc,
        "make",
        "Writes the script of a seed with so many operations",
    )?;
    let bulk = numbered(
        alloc,
        "bulk",
        "Plays that script and counts what comes of it",
    )?;
    let mut command = Command::new(alloc, "xslu")
        .about("Plays guests of a Xenstore daemon that may be replaced")
        .override_usage("xslu run < SCRIPT\n       xslu make SEED N\n       xslu bulk SEED N")
        .disable_help_flag(true)
        .disable_help_subcommand(true)
        .subcommand_required(true)
        .subcommand(run)?
        .subcommand(make)?
        .subcommand(bulk)?;
    command.render_help()
}

/// A form with a seed and a number of operations.
fn numbered<'a>(alloc: Global, name: &'a str, about: &'a str) -> Result<Command<'a>, AllocError> {
    Command::new(alloc, name)
        .about(about)
        .arg(Arg::new(alloc, "SEED").required(true))?
        .arg(Arg::new(alloc, "N").required(true))
}

/// What is said of a run that did not end with Done.
fn reason(status: Status) -> &'static str {
    match status {
        Status::Done => "done",
        Status::Usage => "the words are none of its forms",
        Status::Script { .. } => "the script has a faulty line",
        Status::TooLong => "the script has more than 16777216 bytes",
        Status::ReadFault => "standard input failed",
        Status::WriteFault => "standard output failed",
        Status::NoMemory => "out of memory",
        Status::Load { .. } => "the stream to resume tells no state",
    }
}
