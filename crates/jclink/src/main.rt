//! The program `jclink`, which passes its arguments and the standard streams to `jc_session::program`.
#![tactic(auto)]

use jc_base::{Output, StdInput, StdOutput, write_all};
use jc_session::program;
use std::env::{self, Env};
use std::io::{self, ErrorKind};
use std::process::ExitCode;

/// Returns the arguments after the name of the program.
fn words(rt: &(impl Env + AllocGlobal)) -> io::Result<Vec<String>> {
    let mut words = Vec::new(rt.alloc());
    for word in env::args(rt)?.skip(1) {
        words.push(word)?;
    }
    Ok(words)
}

/// Runs the program with its arguments, and returns the status.
fn run_words<E: Output>(rt: &HostRuntime, err: &mut E) -> io::Result<u8> {
    let words = words(rt)?;
    let words = words
        .iter()
        .map(|word| word.as_str())
        .collect::<Vec<&str>>(rt.alloc())?;
    let mut input = StdInput::new(rt.stdin());
    let mut out = StdOutput::new(rt.stdout());
    Ok(program(rt, &words, &mut input, &mut out, err))
}

/// Prints why the arguments cannot be read, and returns the status.
fn refuse_words<E: Output>(error: &io::Error, err: &mut E) -> u8 {
    let (status, line) = match error.kind() {
        ErrorKind::OutOfMemory => (4, b"jclink: no memory\n".as_slice()),
        _ => (2, b"jclink: usage\n".as_slice()),
    };
    let _ = write_all(err, line);
    status
}

fn main(rt: HostRuntime) -> ExitCode {
    let mut err = StdOutput::new(rt.stderr());
    match run_words(&rt, &mut err) {
        Ok(status) => ExitCode::from(status),
        Err(error) => ExitCode::from(refuse_words(&error, &mut err)),
    }
}
