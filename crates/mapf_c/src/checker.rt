//! The checker, for programs in C.

ghost use Rattle.std.specs.Prelude.{◌≡◌, IfOk, IfErr, string_bytes};
ghost use Rattle.mapf_c.specs.Asks.{rule_of};
ghost use Rattle.mapf_c.specs.Checked.{status_of_verdict, IsReplied, IsCheckFault, Checks};

use crate::fault::Fault;
use crate::files::test_length;
use crate::reply::{put, put_fault};
use crate::rule::rule_of;
use mapf_check::{Verdict, judge};
use mapf_grid::instance_of;
use mapf_plan::{FileName, Rule};
use std::alloc::Global;

/// The status where the plan is valid.
const VALID: u8 = 0;
/// The status where it isn't, or where no plan is given.
const NOT_VALID: u8 = 1;

/// Judges the plan for the instance of the scenario's first rows on the map, as `mapf check` does.
///
/// Leaves the line of the verdict, or the line of the first fault.
#[unsafe(no_mangle)]
pub extern "C" fn mapf_check(
    alloc: Global,
    map: &[u8],
    scen: &[u8],
    plan: &[u8],
    agents: u64,
    no_following: u8,
    out: &mut [u8],
    needed: &mut u64,
) -> i32
    ensures { Checks (rule_of no_following) map.now scen.now plan.now agents out.old out.new needed.new result }
{
    match line_and_status(alloc, map, scen, plan, agents, rule_of(no_following)) {
        Ok((status, line)) => put(status, line.as_bytes(), out, needed),
        Err(fault) => put_fault(alloc, &fault, out, needed),
    }
}

/// The line of the verdict by this rule, and its status, where no file is too long.
fn line_and_status(
    alloc: Global,
    map: &[u8],
    scen: &[u8],
    plan: &[u8],
    agents: u64,
    rule: Rule,
) -> Result<(u8, String), Fault>
    ensures judged { IfOk result (λ r. IsReplied rule map.now scen.now plan.now agents r.0 (string_bytes r.1)) }
    ensures fault { IfErr result (IsCheckFault map.now scen.now plan.now agents) }
{
    test_length(map, FileName::Map)?;
    test_length(scen, FileName::Scenario)?;
    test_length(plan, FileName::Plan)?;
    let instance = instance_of(alloc, map, scen, agents)?;
    let (verdict, line) = judge(alloc, &instance, plan, rule)?;
    Ok((status_of(&verdict), line))
}

/// The status of a verdict.
fn status_of(verdict: &Verdict) -> u8
    ensures { result ≡ status_of_verdict verdict.now }
{
    match verdict {
        Verdict::Valid { .. } => VALID,
        _ => NOT_VALID,
    }
}
