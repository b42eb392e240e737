// The program: it hands its words and streams to the library, and ends with the status.
#![tactic(auto)]

use mapf_cli::{call, no_text, no_words};
use mapf_plan::Counted;
use std::alloc::Global;
use std::process::ExitCode;
use std::{env, io};

fn main(rt: HostRuntime) -> ExitCode {
    let alloc = rt.alloc();
    let mut out = Counted::of(rt.stdout());
    let mut err = Counted::of(rt.stderr());
    ExitCode::from(match words(&rt, alloc) {
        Ok(words) => call(&rt, alloc, words, &mut out, &mut err),
        Err(fault) if fault.kind() == io::ErrorKind::InvalidData => no_text(&mut err),
        Err(_) => no_words(&mut err),
    })
}

/// The command line's words. An error is that one of them is not UTF-8, or that memory ran out.
fn words(rt: &HostRuntime, alloc: Global) -> io::Result<Vec<String>> {
    Ok(env::args(rt)?.collect(alloc)?)
}
