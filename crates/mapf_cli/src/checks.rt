//! A check from three readers to a writer.

ghost use Rattle.std.specs.Prelude.{◌<◌, string_bytes, IfOk, IfErr};
ghost use Rattle.mapf_plan.specs.Device.{Counts};
ghost use Rattle.mapf_plan.specs.Files.{is_read_failure, is_write_failure, AreWithin};
ghost use Rattle.mapf_check.specs.Judged.{AreJudged};
ghost use Rattle.mapf_cli.specs.CheckRun.{IsTextsFault, HasOneMemory, LeavesVerdict, end_of, files};

use crate::CheckFault;
use mapf_check::{Verdict, judge};
use mapf_grid::instance_of;
use mapf_plan::{FileName, Rule, Sink, Source, read_file, write_text};
use std::alloc::Global;

/// Reads map, scenario and plan to their ends, in this order, judges the plan by the rule and writes the verdict's line.
///
/// Then map, scenario, instance and plan text are judged in this order. The verdict is answered after its line was
/// written. The first failed call of a device ends the check; nothing is written before the verdict is known.
#[tactic(auto, using(crate::proofs::CheckEnds::one_memory))]
pub fn check_run<M: Source, S: Source, P: Source, O: Sink>(
    alloc: Global,
    map: &mut M,
    scen: &mut S,
    plan: &mut P,
    out: &mut O,
    agents: u64,
    rule: Rule,
) -> Result<Verdict, CheckFault>
    requires map { M.failures map.old < u64.MAX }
    requires scen { S.failures scen.old < u64.MAX }
    requires plan { P.failures plan.old < u64.MAX }
    requires out { O.failures out.old < u64.MAX }

    // A device's failure is answered exactly where its count rose, and that is by 1.
    ensures map { Counts (is_read_failure FileName.Map (end_of result)) (M.failures map.old) (M.failures map.new) }
    ensures scen { Counts (is_read_failure FileName.Scenario (end_of result))
        (S.failures scen.old) (S.failures scen.new) }
    ensures plan { Counts (is_read_failure FileName.Plan (end_of result)) (P.failures plan.old) (P.failures plan.new) }
    ensures out { Counts (is_write_failure (end_of result)) (O.failures out.old) (O.failures out.new) }

    // A file is too long where it is the first of more than 67,108,864 bytes; else no file that was read is longer.
    ensures within { AreWithin (files (M.remaining map.old) (S.remaining scen.old) (P.remaining plan.old))
        (end_of result) }

    // What was written is the line of the verdict on what the readers gave.
    ensures verdict { LeavesVerdict rule (M.remaining map.old) (S.remaining scen.old) (P.remaining plan.old)
        agents (O.contents out.old) (O.contents out.new) result }

    // Out of memory has one spelling.
    ensures memory { IfErr result HasOneMemory }
{
    let map = read_file(alloc, map, FileName::Map)?;
    let scen = read_file(alloc, scen, FileName::Scenario)?;
    let plan = read_file(alloc, plan, FileName::Plan)?;
    let (verdict, text) = judge_files(alloc, &map, &scen, &plan, agents, rule)?;
    write_text(out, text.as_bytes())?;
    Ok(verdict)
}

/// The verdict by this rule on the bytes of three files, and its line.
fn judge_files(
    alloc: Global,
    map: &[u8],
    scen: &[u8],
    plan: &[u8],
    agents: u64,
    rule: Rule,
) -> Result<(Verdict, String), CheckFault>
    ensures judged { IfOk result (λ r. AreJudged rule map.now scen.now plan.now agents r.0 (string_bytes r.1)) }
    ensures fault { IfErr result (IsTextsFault map.now scen.now plan.now agents) }
{
    let instance = instance_of(alloc, map, scen, agents)?;
    Ok(judge(alloc, &instance, plan, rule)?)
}
