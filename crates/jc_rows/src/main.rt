//! A program that judges files of test rows with the public functions of the libraries.
//!
//! The arguments are the names of the files. A line is printed for each file and for each row that is wrong, and the
//! status is 1 if a row is wrong. `docs/ROWS.md` describes the rows.
#![tactic(auto)]

mod assembler;
mod class_answers;
mod code_answers;
mod compare;
mod dialogue;
mod doubles;
mod edits;
mod error_answers;
mod file_answers;
mod judge;
mod outcome;
mod parts;
mod prefix_answers;
mod row;
mod text_answers;
mod tokens;

use anyhow::{Context, Result};
use judge::{Judge, judge_file};
use std::env::Env;
use std::process::ExitCode;
use std::rt::Files;
use std::{env, fs, io};

/// Returns the arguments after the name of the program.
fn words(rt: &(impl Env + AllocGlobal)) -> io::Result<Vec<String>> {
    let mut words = Vec::new(rt.alloc());
    for word in env::args(rt)?.skip(1) {
        words.push(word)?;
    }
    Ok(words)
}

/// Judges the rows of a file, and returns whether all of them are right.
fn judge_path(
    rt: &(impl Files + AllocGlobal + Print),
    judge: &mut Judge,
    path: &str,
) -> Result<bool> {
    let text = fs::read_to_string(rt, path).context(format_args!("reading {path}"))?;
    let tally = judge_file(rt, judge, path, &text)?;
    println!(rt; "{path}: {} rows", tally.rows)?;
    Ok(tally.wrong == 0)
}

/// Judges the rows of files, and returns whether all of them are right.
fn judge_paths(
    rt: &(impl Files + AllocGlobal + Print),
    judge: &mut Judge,
    paths: &[String],
) -> Result<bool> {
    let mut are_right = true;
    for path in paths {
        are_right &= judge_path(rt, judge, path)?;
    }
    Ok(are_right)
}

/// Judges the rows of the files that the arguments name, and returns whether all of them are right.
fn judge_words(rt: &(impl Files + AllocGlobal + Print), words: &[String]) -> Result<bool> {
    let mut judge = Judge::new(rt.alloc())?;
    let are_right = judge_paths(rt, &mut judge, words);
    drop(judge);
    are_right
}

fn main(rt: HostRuntime) -> Result<ExitCode> {
    let words = words(&rt)?;
    Ok(if judge_words(&rt, &words)? {
        ExitCode::SUCCESS
    } else {
        ExitCode::FAILURE
    })
}
