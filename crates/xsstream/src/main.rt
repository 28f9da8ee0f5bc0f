//! `xsstream`: reads a migration stream from standard input and writes a line for each of its records to standard
//! output. All that it does is `stream_view::view`; this program makes the real ends, and says on standard error why a
//! view ended early.
#![tactic(auto)]

use std::process::ExitCode;
use std::rt::Env;
use std::{env, io};
use stream_view::{ViewStatus, view};
use xs_base::{StdSink, StdSource};

fn main(rt: HostRuntime) -> ExitCode {
    let status = run(&rt);
    if status != ViewStatus::Done {
        let _ = say(&rt, status);
    }
    ExitCode::from(status.number())
}

/// Views over the real ends.
fn run<R: Env + Input + Print + AllocGlobal>(rt: &R) -> ViewStatus {
    let words = match words(rt) {
        Ok(words) => words,
        Err(error) if error.kind() == io::ErrorKind::InvalidData => return ViewStatus::Usage,
        Err(_) => return ViewStatus::NoMemory,
    };
    let mut src = StdSource::new(rt.reader());
    let mut out = StdSink::new(io::writer(rt));
    view(rt.alloc(), words.as_slice(), &mut src, &mut out)
}

/// The words behind the program's name.
fn words<R: Env + AllocGlobal>(rt: &R) -> io::Result<Vec<String>> {
    let words = env::args(rt)?.skip(1).collect(rt.alloc())?;
    Ok(words)
}

/// Says in one line on standard error why a view did not end with Done.
fn say<R: Eprint>(rt: &R, status: ViewStatus) -> io::Result<()> {
    let reason = match status {
        ViewStatus::Done => "done",
        ViewStatus::Usage => "usage: xsstream raw < STREAM, or xsstream hex < DIGITS",
        ViewStatus::Hex => "the input is not hexadecimal",
        ViewStatus::TooLong => "the input has more than 16777216 bytes",
        ViewStatus::ReadFault => "standard input failed",
        ViewStatus::WriteFault => "standard output failed",
        ViewStatus::NoMemory => "out of memory",
        ViewStatus::Stream(fault) => return eprintln!(rt; "xsstream: {fault}"),
    };
    eprintln!(rt; "xsstream: {reason}")
}
