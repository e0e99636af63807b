//! The command line: what the arguments after the program's name ask for.

ghost use Rattle.std.specs.Prelude.{◌≡◌, ◌⊎◌, ◌↔◌, IfErr, IfOk, Some, codes, false, map};
ghost use Rattle.clap.specs.Matches.{found_of};
ghost use Rattle.clap.specs.Simple.{app_of, subcommand_rows_of};
ghost use Rattle.clap.specs.Values.{kind_of};
ghost use Rattle.clap.specs.Walk.{rows_of, rule_of};
ghost use Rattle.jc_session.specs.Statuses.{NamesCommand, NoMemory, Usage};
ghost use Rattle.jc_session.specs.Words as line;
ghost use Rattle.jc_session.specs.Words.{AreRefused, AsksForm, HoldsGiven, IsBadCheck, IsBadForm, IsUsageError, given};
ghost use Rattle.jc_session.specs.inside.LentFaults.{fault_lent};
ghost use Rattle.jc_session.specs.inside.Requests.{AsksAmong, AsksBy, AsksFor, FailsFor, HasFlag, HasLeaf, HasPath, IsComplete, IsLeaf};
ghost use Rattle.jc_session.specs.inside.Requests.{IsRefusedBy, command_of};

use crate::program_error::ProgramError;
use crate::tree_check::CheckForm;
use clap::error::ErrorKind;
use clap::{Arg, ArgAction, ArgMatches, Command};
use jc_link::{Outside, OutsideError};
use std::alloc::{AllocError, Global};

/// What the arguments ask for.
#[derive(Drop)]
pub(crate) enum Request<'w> {
    /// A session with these outside prefixes.
    Session(Outside),
    /// The listing of the file at a path.
    List(&'w str),
    /// A check of the files below a folder, with these outside prefixes and in this form.
    Check(Outside, CheckForm, &'w str),
}

/// Returns what the arguments ask for: `session` and prefixes, `list` and a path, or `check`, its options and a folder.
///
/// # Errors
///
/// `Usage`: `clap` finds an error among the arguments, or the command refuses its options or their values. `NoMemory`:
/// an allocation failed.
pub(crate) fn asked<'w>(
    alloc: Global,
    words: &'w [&'w str],
) -> Result<Request<'w>, ProgramError<'w>>
    ensures command { IfOk result (λ request. NamesCommand (command_of request) (map (λ word. word.now) words.now)) }
    ensures asks { IfOk result (AsksFor (map (λ word. word.now) words.now)) }
    ensures proper { IfOk result (λ _. ¬ (IsUsageError (map (λ word. word.now) words.now))) }
    ensures fault { IfErr result (FailsFor (IsUsageError (map (λ word. word.now) words.now))) }
{
    let matches = match jclink_command(alloc)?.try_get_matches_from(words) {
        Ok(matches) => matches,
        Err(error) => return Err(words_fault(&error)),
    };
    request_of(alloc, &matches)
}

/// Returns what the arguments ask for, from the matches that `clap` found among them.
fn request_of<'w>(alloc: Global, matches: &ArgMatches<'w>) -> Result<Request<'w>, ProgramError<'w>>
    requires complete { IsComplete (subcommand_rows_of matches.now) }
    ensures asks { IfOk result (AsksBy (subcommand_rows_of matches.now)) }
    ensures proper { IfOk result (λ _. ¬ (IsRefusedBy (subcommand_rows_of matches.now))) }
    ensures fault { IfErr result (FailsFor (IsRefusedBy (subcommand_rows_of matches.now))) }
{
    match matches.subcommand() {
        Some(("list", matches)) => Ok(list_request(matches)),
        Some(("check", matches)) => check_request(alloc, matches),
        Some(("session", matches)) => Ok(Request::Session(outside(alloc, matches)?)),
        _ => unreachable!(),
    }
}

/// Returns the request to list a file.
fn list_request<'w>(matches: &ArgMatches<'w>) -> Request<'w>
    requires path { HasPath (codes "FILE") (rows_of (found_of matches.now)) }
    ensures command { command_of result ≡ codes "list" }
    ensures asks { AsksAmong (rows_of (found_of matches.now)) result }
{
    match matches.get_str("FILE") {
        Some(path) => Request::List(path),
        None => unreachable!(),
    }
}

/// Returns the request to check a folder, with the outside prefixes and the form.
fn check_request<'w>(
    alloc: Global,
    matches: &ArgMatches<'w>,
) -> Result<Request<'w>, ProgramError<'w>>
    requires path { HasPath (codes "DIR") (rows_of (found_of matches.now)) }
    requires errors { HasFlag (codes "errors") (rows_of (found_of matches.now)) }
    requires used { HasFlag (codes "used") (rows_of (found_of matches.now)) }
    ensures command { IfOk result (λ request. command_of request ≡ codes "check") }
    ensures asks { IfOk result (AsksAmong (rows_of (found_of matches.now))) }
    ensures proper { IfOk result (λ _. ¬ (IsBadCheck (rows_of (found_of matches.now)))) }
    ensures fault { IfErr result (FailsFor (IsBadCheck (rows_of (found_of matches.now)))) }
{
    match matches.get_str("DIR") {
        Some(folder) => {
            let form = form(alloc, matches)?;
            Ok(Request::Check(outside(alloc, matches)?, form, folder))
        }
        None => unreachable!(),
    }
}

/// Returns the form of a check: the report, or with `--errors` its errors. `--only` selects errors by prefixes, and
/// `--used` leaves out those of unused references. `--only` or `--used` without `--errors` is a usage error.
fn form<'w>(alloc: Global, matches: &ArgMatches<'w>) -> Result<CheckForm, ProgramError<'w>>
    requires errors { HasFlag (codes "errors") (rows_of (found_of matches.now)) }
    requires used { HasFlag (codes "used") (rows_of (found_of matches.now)) }
    ensures asks { IfOk result (AsksForm (rows_of (found_of matches.now))) }
    ensures proper { IfOk result (λ _. ¬ (IsBadForm (rows_of (found_of matches.now)))) }
    ensures fault { IfErr result (FailsFor (IsBadForm (rows_of (found_of matches.now)))) }
{
    let used_only = matches.get_flag("used");
    match (matches.get_flag("errors"), matches.get_strs("only")) {
        (false, None) => {
            if used_only {
                Err(ProgramError::Usage)
            } else {
                Ok(CheckForm::Report)
            }
        }
        (false, Some(_)) => Err(ProgramError::Usage),
        (true, None) => Ok(CheckForm::Errors {
            only: None,
            used_only,
        }),
        (true, Some(prefixes)) => {
            let only = given_prefixes(alloc, prefixes)?;
            Ok(CheckForm::Errors {
                only: Some(only),
                used_only,
            })
        }
    }
}

/// Returns the outside prefixes: the given ones, or the standard ones if none are given.
fn outside<'w>(alloc: Global, matches: &ArgMatches<'w>) -> Result<Outside, ProgramError<'w>>
    ensures held { IfOk result (HoldsGiven (given (codes "outside") (rows_of (found_of matches.now)))) }
    ensures proper { IfOk result (λ _. ¬ (AreRefused (given (codes "outside") (rows_of (found_of matches.now))))) }
    ensures fault { IfErr result (FailsFor (AreRefused (given (codes "outside") (rows_of (found_of matches.now))))) }
{
    match matches.get_strs("outside") {
        Some(prefixes) => given_prefixes(alloc, prefixes),
        None => Ok(Outside::standard()),
    }
}

/// Returns the given prefixes. A list that `Outside::new` refuses is a usage error.
fn given_prefixes<'w>(alloc: Global, prefixes: &[&'w str]) -> Result<Outside, ProgramError<'w>>
    ensures held { IfOk result (HoldsGiven (Some (map (λ prefix. prefix.now) prefixes.now))) }
    ensures proper { IfOk result (λ _. ¬ (AreRefused (Some (map (λ prefix. prefix.now) prefixes.now)))) }
    ensures fault { IfErr result (FailsFor (AreRefused (Some (map (λ prefix. prefix.now) prefixes.now)))) }
{
    let mut texts = Vec::new(alloc);
    for prefix in prefixes {
        if texts.push(prefix.as_bytes()).is_err() {
            return Err(ProgramError::NoMemory);
        }
    }
    match Outside::new(alloc, texts.as_slice()) {
        Ok(outside) => Ok(outside),
        Err(OutsideError::NoMemory) => Err(ProgramError::NoMemory),
        Err(OutsideError::BadPrefix | OutsideError::TooManyPrefixes) => Err(ProgramError::Usage),
    }
}

/// Returns the fault for an error of `clap`: out of memory, or a usage error.
fn words_fault(error: &clap::Error) -> ProgramError<'static>
    ensures memory { (fault_lent result ≡ NoMemory) ↔ (kind_of error.now ≡ ErrorKind.OutOfMemory) }
    ensures usage { (fault_lent result ≡ Usage) ⊎ (fault_lent result ≡ NoMemory) }
{
    match error.kind() {
        ErrorKind::OutOfMemory => ProgramError::NoMemory,
        _ => ProgramError::Usage,
    }
}

/// Returns the command `jclink` with its three subcommands.
fn jclink_command<'a>(alloc: Global) -> Result<Command<'a>, AllocError>
    ensures { IfOk result (λ command. app_of command ≡ line.jclink_command) }
{
    let command = Command::new(alloc, "jclink")
        .no_binary_name(true)
        .subcommand_required(true);
    let command = with_subcommand(command, session_command(alloc))?;
    let command = with_subcommand(command, list_command(alloc))?;
    with_subcommand(command, check_command(alloc))
}

/// Returns the command with one more subcommand. Returns an error only if an allocation failed, also for `subcommand`.
fn with_subcommand<'a>(
    command: Command<'a>,
    subcommand: Result<Command<'a>, AllocError>,
) -> Result<Command<'a>, AllocError>
    ensures { IfOk result (HasLeaf (app_of command.entry) subcommand.entry) }
{
    command.subcommand(subcommand?)
}

fn session_command<'a>(alloc: Global) -> Result<Command<'a>, AllocError>
    ensures { IfOk result (IsLeaf line.session_command) }
{
    Command::new(alloc, "session").arg(prefix_option(alloc, "outside"))
}

fn list_command<'a>(alloc: Global) -> Result<Command<'a>, AllocError>
    ensures { IfOk result (IsLeaf line.list_command) }
{
    let file = Arg::new(alloc, "FILE").required(true);
    Command::new(alloc, "list").arg(file)
}

fn check_command<'a>(alloc: Global) -> Result<Command<'a>, AllocError>
    ensures { IfOk result (IsLeaf line.check_command) }
{
    let folder = Arg::new(alloc, "DIR").required(true);
    Command::new(alloc, "check")
        .arg(flag(alloc, "errors"))?
        .arg(flag(alloc, "used"))?
        .arg(prefix_option(alloc, "only"))?
        .arg(prefix_option(alloc, "outside"))?
        .arg(folder)
}

/// Returns an option that has no value.
fn flag<'a>(alloc: Global, name: &'a str) -> Arg<'a>
    ensures rule { rule_of result ≡ line.flag name.entry.now }
    ensures own { result.global ≡ false }
{
    Arg::new(alloc, name).long(name).action(ArgAction::SetTrue)
}

/// Returns an option that may be given several times, each time with a value.
fn prefix_option<'a>(alloc: Global, name: &'a str) -> Arg<'a>
    ensures rule { rule_of result ≡ line.prefix_option name.entry.now }
    ensures own { result.global ≡ false }
{
    Arg::new(alloc, name).long(name).action(ArgAction::Append)
}
