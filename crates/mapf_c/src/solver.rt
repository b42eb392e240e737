//! The solver, for programs in C.

ghost use Rattle.std.specs.Prelude.{◌≡◌, IfOk, IfErr};
ghost use Rattle.mapf_c.specs.Asks.{ask_of};
ghost use Rattle.mapf_c.specs.Solved.{IsStatusOf, IsAnswered, IsAnyAnswered, IsSolveFault, IsAnySolveFault, Solves, SolvesAny};

use crate::fault::Fault;
use crate::files::test_length;
use crate::reply::{put, put_fault};
use crate::rule::rule_of;
use mapf_plan::FileName;
use mapf_solve::{Ask, answer_alone, answer_any_alone};
use std::alloc::Global;

/// The status where the text is a plan.
const PLAN: u8 = 0;
/// The status where it is that there is none.
const NONE: u8 = 1;
/// The status where it is that the search gave up at its limit on nodes.
const GAVE_UP: u8 = 6;

/// Solves the instance of the scenario's first rows on the map, as `mapf solve` does with these numbers and one worker, which is
/// the answer of any number of them. 0 nodes are no limit.
///
/// Leaves the text of the answer, or the line of the first fault.
#[unsafe(no_mangle)]
pub extern "C" fn mapf_solve(
    alloc: Global,
    map: &[u8],
    scen: &[u8],
    agents: u64,
    bound: u64,
    nodes: u64,
    no_following: u8,
    out: &mut [u8],
    needed: &mut u64,
) -> i32
    ensures { Solves map.now scen.now (ask_of agents bound nodes no_following) out.old out.new needed.new result }
{
    match text_and_status(alloc, map, scen, ask_of(agents, bound, nodes, no_following)) {
        Ok((status, text)) => put(status, &text, out, needed),
        Err(fault) => put_fault(alloc, &fault, out, needed),
    }
}

/// Solves the same, where any optimum will do, as `mapf solve --any-optimum` does.
#[unsafe(no_mangle)]
pub extern "C" fn mapf_solve_any(
    alloc: Global,
    map: &[u8],
    scen: &[u8],
    agents: u64,
    bound: u64,
    nodes: u64,
    no_following: u8,
    out: &mut [u8],
    needed: &mut u64,
) -> i32
    ensures { SolvesAny map.now scen.now (ask_of agents bound nodes no_following) out.old out.new needed.new result }
{
    match any_text_and_status(alloc, map, scen, ask_of(agents, bound, nodes, no_following)) {
        Ok((status, text)) => put(status, &text, out, needed),
        Err(fault) => put_fault(alloc, &fault, out, needed),
    }
}

/// What the numbers of a call ask for.
fn ask_of(agents: u64, bound: u64, nodes: u64, no_following: u8) -> Ask
    ensures { result ≡ ask_of agents bound nodes no_following }
{
    Ask {
        agents,
        bound,
        workers: 1,
        nodes: if nodes == 0 { None } else { Some(nodes) },
        rule: rule_of(no_following),
    }
}

/// The text of the answer, and its status.
fn text_and_status(alloc: Global, map: &[u8], scen: &[u8], ask: Ask) -> Result<(u8, Vec<u8>), Fault>
    requires { ask.workers ≡ 1 }
    ensures answered { IfOk result (λ r. IsAnswered map.now scen.now ask r.0 r.1.items) }
    ensures fault { IfErr result (IsSolveFault map.now scen.now ask) }
{
    test_length(map, FileName::Map)?;
    test_length(scen, FileName::Scenario)?;
    let text = answer_alone(alloc, map, scen, ask)?;
    Ok((status_of_text(&text), text))
}

/// The text of any optimum, and its status.
fn any_text_and_status(
    alloc: Global,
    map: &[u8],
    scen: &[u8],
    ask: Ask,
) -> Result<(u8, Vec<u8>), Fault>
    ensures answered { IfOk result (λ r. IsAnyAnswered map.now scen.now ask r.0 r.1.items) }
    ensures fault { IfErr result (IsAnySolveFault map.now scen.now ask) }
{
    test_length(map, FileName::Map)?;
    test_length(scen, FileName::Scenario)?;
    let text = answer_any_alone(alloc, map, scen, ask)?;
    Ok((status_of_text(&text), text))
}

/// The status of an answer's text, by its first byte.
fn status_of_text(text: &[u8]) -> u8
    ensures { IsStatusOf text.now result }
{
    match text.first() {
        Some(b'p') => PLAN,
        Some(b'g') => GAVE_UP,
        _ => NONE,
    }
}
