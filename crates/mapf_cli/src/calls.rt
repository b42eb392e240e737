//! The program's one call: words in, lines and a status out.

ghost use Rattle.std.specs.Prelude.{◌≡◌, ◌<◌, ◌≤◌, IfOk};

use crate::call_fault::{COMMAND_LINE, CallFault, GAVE_UP, NO_MEMORY, NONE, SHOWN};
use crate::checks::check_run;
use crate::command::{Check, Solve, Subcommand, parse};
use crate::first_byte::FirstByte;
use crate::progress_lines::{ProgressLines, say};
use clap::error::ErrorKind;
use mapf_check::Verdict;
use mapf_plan::{Counted, FileName, Sink, write_text};
use mapf_solve::{RunFault, run, run_any, run_any_watched, run_watched};
use std::alloc::{AllocError, Global};
use std::fs;
use std::rt::Files;
use std::thread::Threads;
use std::time::Clock;

/// Does what the words ask for, the program's name being the first, and answers the program's status.
///
/// `mapf solve` prints a plan (status 0), `none` (1) or that it gave up (6) on `out`, and `mapf check` one verdict line:
/// valid (0), or not valid or no plan given (1). With `--any-optimum` the plan is any of those that cost least. Help and the version
/// go to `out` (0). With `--progress`, `mapf solve` says on `err` how far the search has come. A refusal is one line on `err`: of the command line, whose text is `clap`'s (2), of
/// bytes and numbers (3), out of memory (4), a file that couldn't be opened or read, or an output that couldn't be written
/// (5). Faults of `err` itself are ignored.
pub fn call<R: Files + Threads + Clock + Sync, O: Sink, E: Sink>(
    rt: &R,
    alloc: Global,
    words: Vec<String>,
    out: &mut O,
    err: &mut E,
) -> u8
    requires out { O.failures out.old < u64.MAX }
    requires err { E.failures err.old < u64.MAX }
    ensures { result ≤ 6 }
{
    let done = match parse(alloc, words.as_slice()) {
        Ok(Some(Subcommand::Solve(solve))) => solve_files(rt, alloc, &solve, out, err),
        Ok(Some(Subcommand::Check(check))) => check_files(rt, alloc, &check, out),
        Ok(None) => Ok(COMMAND_LINE),
        Err(error) if error.use_stderr() => return refuse_words(alloc, &error, err),
        Err(error) => help(alloc, &error, out),
    };
    match done {
        Ok(status) => status,
        Err(fault) => refuse(alloc, &fault, err),
    }
}

/// Says that there was no memory for the command line's words, and answers that status.
pub fn no_words<E: Sink>(err: &mut E) -> u8
    requires { E.failures err.old < u64.MAX }
    ensures { result ≡ 4 }
{
    say_no_memory(err)
}

/// Says that a word of the command line is not UTF-8, in `clap`'s words for it, and answers that status.
pub fn no_text<E: Sink>(err: &mut E) -> u8
    requires { E.failures err.old < u64.MAX }
    ensures { result ≡ 2 }
{
    say(
        err,
        b"error: invalid UTF-8 was detected in one or more arguments\n",
    );
    COMMAND_LINE
}

/// Opens the two files, runs, and answers the status of the text's first byte.
fn solve_files<R: Files + Threads + Clock + Sync, O: Sink, E: Sink>(
    rt: &R,
    alloc: Global,
    solve: &Solve<'_>,
    out: &mut O,
    err: &mut E,
) -> Result<u8, CallFault>
    requires { O.failures out.old < u64.MAX }
    ensures { IfOk result (λ status. status ≤ 6) }
{
    let mut map = open(rt, solve.map, FileName::Map)?;
    let mut scen = open(rt, solve.scen, FileName::Scenario)?;
    let mut text = FirstByte {
        sink: out,
        first: None,
    };
    if solve.progress {
        let mut lines = ProgressLines::new(rt, alloc, err);
        let ended = if solve.any_optimum {
            run_any_watched(
                rt, alloc, &mut map, &mut scen, &mut text, solve.ask, &mut lines,
            )
        } else {
            run_watched(
                rt, alloc, &mut map, &mut scen, &mut text, solve.ask, &mut lines,
            )
        };
        if !matches!(ended, Err(RunFault::Refusal(_))) {
            lines.end();
        }
        ended?;
    } else if solve.any_optimum {
        run_any(rt, alloc, &mut map, &mut scen, &mut text, solve.ask)?;
    } else {
        run(rt, alloc, &mut map, &mut scen, &mut text, solve.ask)?;
    }
    match text.first {
        Some(b'p') => Ok(SHOWN),
        Some(b'g') => Ok(GAVE_UP),
        _ => Ok(NONE),
    }
}

/// Opens the three files, judges the plan, and answers the verdict's status.
fn check_files<R: Files, O: Sink>(
    rt: &R,
    alloc: Global,
    check: &Check<'_>,
    out: &mut O,
) -> Result<u8, CallFault>
    requires { O.failures out.old < u64.MAX }
    ensures { IfOk result (λ status. status ≤ 5) }
{
    let mut map = open(rt, check.map, FileName::Map)?;
    let mut scen = open(rt, check.scen, FileName::Scenario)?;
    let mut plan = open(rt, check.plan, FileName::Plan)?;
    match check_run(
        alloc,
        &mut map,
        &mut scen,
        &mut plan,
        out,
        check.agents,
        check.rule,
    )? {
        Verdict::Valid { .. } => Ok(SHOWN),
        _ => Ok(NONE),
    }
}

/// Opens a file, as a reader with no failure counted so far.
fn open<R: Files>(rt: &R, path: &str, name: FileName) -> Result<Counted<R::File>, CallFault>
    ensures { IfOk result (λ file. file.1 ≡ 0) }
{
    match fs::open(rt, path) {
        Ok(file) => Ok(Counted::of(file)),
        Err(_) => Err(CallFault::CannotOpen(name)),
    }
}

/// Prints the help, or the version.
fn help<O: Sink>(alloc: Global, error: &clap::Error, out: &mut O) -> Result<u8, CallFault>
    requires { O.failures out.old < u64.MAX }
    ensures { IfOk result (λ status. status ≤ 5) }
{
    let text = format!(in alloc; "{error}")?;
    write_text(out, text.as_bytes())?;
    Ok(SHOWN)
}

/// Prints `clap`'s refusal of the command line, and answers its status.
fn refuse_words<E: Sink>(alloc: Global, error: &clap::Error, err: &mut E) -> u8
    ensures { result ≤ 5 }
{
    match format!(in alloc; "{error}") {
        Ok(text) if !matches!(error.kind(), ErrorKind::OutOfMemory) => {
            say(err, text.as_bytes());
            COMMAND_LINE
        }
        _ => refuse(alloc, &CallFault::from(AllocError), err),
    }
}

/// Says that there was no memory, and answers that status.
fn say_no_memory<E: Sink>(err: &mut E) -> u8
    ensures { result ≡ 4 }
{
    say(err, b"mapf: 43 no memory\n");
    NO_MEMORY
}

/// Prints a fault's line, and answers its status.
fn refuse<E: Sink>(alloc: Global, fault: &CallFault, err: &mut E) -> u8
    ensures { result ≤ 5 }
{
    match format!(in alloc; "mapf: {fault}\n") {
        Ok(line) => {
            say(err, line.as_bytes());
            fault.status()
        }
        Err(_) => say_no_memory(err),
    }
}
