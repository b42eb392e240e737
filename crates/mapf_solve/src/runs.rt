//! Runs from two readers to a writer.

ghost use Rattle.std.specs.Prelude.{◌≡◌, ◌≢◌, ℕ, ◌<◌, IfErr, Some, None};
ghost use Rattle.mapf_plan.specs.Device.{Counts};
ghost use Rattle.mapf_plan.specs.Files.{is_read_failure, is_write_failure, AreWithin};
ghost use Rattle.mapf_solve.specs.Wanted.{IsWanted};
ghost use Rattle.mapf_solve.specs.Run.{end_of, files, LeavesTextBy, LeavesText, LeavesAnyText, LeavesBest, LeavesLimit, LeavesAnyLimit, LeavesOnly};

use crate::asked::text_or_fault;
use crate::means::Means;
use crate::wanted::Wanted;
use crate::{Ask, NoWatch, RunFault, Watch};
use mapf_board::{AlwaysGrants, NoGate};
use mapf_plan::{DeviceFault, FileName, Sink, Source, read_file, write_text};
use std::alloc::Global;
use std::thread::Threads;

/// Reads the map to its end, then the scenario, and writes the answer's text and nothing else.
///
/// The first failed call of a device ends the run; nothing is written before the answer is known.
pub fn run<R: Threads + Sync, M: Source, S: Source, O: Sink>(
    rt: &R,
    alloc: Global,
    map: &mut M,
    scen: &mut S,
    out: &mut O,
    ask: Ask,
) -> Result<(), RunFault>
    requires map { M.failures map.old < u64.MAX }
    requires scen { S.failures scen.old < u64.MAX }
    requires out { O.failures out.old < u64.MAX }

    // A device's failure is answered exactly where its count rose, and that is by 1.
    ensures map { Counts (is_read_failure FileName.Map (end_of result)) (M.failures map.old) (M.failures map.new) }
    ensures scen { Counts (is_read_failure FileName.Scenario (end_of result))
        (S.failures scen.old) (S.failures scen.new) }
    ensures out { Counts (is_write_failure (end_of result)) (O.failures out.old) (O.failures out.new) }

    // A file is too long where it is the first of more than 67,108,864 bytes; else no file that was read is longer.
    ensures within { AreWithin (files (M.remaining map.old) (S.remaining scen.old)) (end_of result) }

    // What was written is the text of what the readers gave.
    ensures text { LeavesText (M.remaining map.old) (S.remaining scen.old) ask
        (O.contents out.old) (O.contents out.new) result }

    // It is the text of a plan without conflict by the ask's rule that costs least of all such plans, or `none` exactly if none
    // costs at most the bound.
    ensures best { ask.nodes ≡ None → LeavesBest (M.remaining map.old) (S.remaining scen.old) ask
        (O.contents out.old) (O.contents out.new) result }

    // With a limit of n nodes the bytes are the same, unless the tree has a node at place n that is in the cut or is the first
    // solution: exactly then they are `gave up`, with a cost that each plan without conflict has at least.
    ensures limit { (n : ℕ) → ask.nodes ≡ Some n
        → LeavesLimit (M.remaining map.old) (S.remaining scen.old) ask n
        (O.contents out.old) (O.contents out.new) result }

    // With any number of workers from 1 to 64 the same text, or the same refusal.
    ensures same { LeavesOnly (M.remaining map.old) (S.remaining scen.old) ask
        (O.contents out.old) (O.contents out.new) result }

    // Out of memory is a refusal.
    ensures memory { IfErr result (λ fault. fault ≢ RunFault.Device DeviceFault.NoMemory) }
{
    run_watched(rt, alloc, map, scen, out, ask, &mut NoWatch)
}

/// What [`run`] does, and a watch is told how far the search has come, as by [`answer_watched`](crate::answer_watched).
pub fn run_watched<R: Threads + Sync, M: Source, S: Source, O: Sink, W: Watch>(
    rt: &R,
    alloc: Global,
    map: &mut M,
    scen: &mut S,
    out: &mut O,
    ask: Ask,
    watch: &mut W,
) -> Result<(), RunFault>
    requires map { M.failures map.old < u64.MAX }
    requires scen { S.failures scen.old < u64.MAX }
    requires out { O.failures out.old < u64.MAX }
    ensures map { Counts (is_read_failure FileName.Map (end_of result)) (M.failures map.old) (M.failures map.new) }
    ensures scen { Counts (is_read_failure FileName.Scenario (end_of result))
        (S.failures scen.old) (S.failures scen.new) }
    ensures out { Counts (is_write_failure (end_of result)) (O.failures out.old) (O.failures out.new) }
    ensures within { AreWithin (files (M.remaining map.old) (S.remaining scen.old)) (end_of result) }
    ensures text { LeavesText (M.remaining map.old) (S.remaining scen.old) ask
        (O.contents out.old) (O.contents out.new) result }
    ensures best { ask.nodes ≡ None → LeavesBest (M.remaining map.old) (S.remaining scen.old) ask
        (O.contents out.old) (O.contents out.new) result }
    ensures limit { (n : ℕ) → ask.nodes ≡ Some n
        → LeavesLimit (M.remaining map.old) (S.remaining scen.old) ask n
        (O.contents out.old) (O.contents out.new) result }
    ensures same { LeavesOnly (M.remaining map.old) (S.remaining scen.old) ask
        (O.contents out.old) (O.contents out.new) result }
    ensures memory { IfErr result (λ fault. fault ≢ RunFault.Device DeviceFault.NoMemory) }
{
    let means = Means::new(rt, alloc, &NoGate);
    write_text_or_fault(means, map, scen, out, ask, Wanted::FirstSolution, watch)
}

/// Does what [`run`] does, and writes the text of any optimum, as [`answer_any`](crate::answer_any) gives it.
pub fn run_any<R: Threads + Sync, M: Source, S: Source, O: Sink>(
    rt: &R,
    alloc: Global,
    map: &mut M,
    scen: &mut S,
    out: &mut O,
    ask: Ask,
) -> Result<(), RunFault>
    requires map { M.failures map.old < u64.MAX }
    requires scen { S.failures scen.old < u64.MAX }
    requires out { O.failures out.old < u64.MAX }

    // Devices, files and memory as by `run`.
    ensures map { Counts (is_read_failure FileName.Map (end_of result)) (M.failures map.old) (M.failures map.new) }
    ensures scen { Counts (is_read_failure FileName.Scenario (end_of result))
        (S.failures scen.old) (S.failures scen.new) }
    ensures out { Counts (is_write_failure (end_of result)) (O.failures out.old) (O.failures out.new) }
    ensures within { AreWithin (files (M.remaining map.old) (S.remaining scen.old)) (end_of result) }
    ensures memory { IfErr result (λ fault. fault ≢ RunFault.Device DeviceFault.NoMemory) }

    // What was written is the text of an optimum of what the readers gave.
    ensures text { LeavesAnyText (M.remaining map.old) (S.remaining scen.old) ask
        (O.contents out.old) (O.contents out.new) result }

    // It is the text of a plan without conflict by the ask's rule that costs least of all such plans, or `none` exactly if none
    // costs at most the bound.
    ensures best { ask.nodes ≡ None → LeavesBest (M.remaining map.old) (S.remaining scen.old) ask
        (O.contents out.old) (O.contents out.new) result }

    // With a limit of n nodes the same, or that the search gave up, with a cost that each plan without conflict has at least.
    ensures limit { (n : ℕ) → ask.nodes ≡ Some n
        → LeavesAnyLimit (M.remaining map.old) (S.remaining scen.old) ask n
        (O.contents out.old) (O.contents out.new) result }
{
    run_any_watched(rt, alloc, map, scen, out, ask, &mut NoWatch)
}

/// What [`run_any`] does, and a watch is told how far the search has come.
pub fn run_any_watched<R: Threads + Sync, M: Source, S: Source, O: Sink, W: Watch>(
    rt: &R,
    alloc: Global,
    map: &mut M,
    scen: &mut S,
    out: &mut O,
    ask: Ask,
    watch: &mut W,
) -> Result<(), RunFault>
    requires map { M.failures map.old < u64.MAX }
    requires scen { S.failures scen.old < u64.MAX }
    requires out { O.failures out.old < u64.MAX }
    ensures map { Counts (is_read_failure FileName.Map (end_of result)) (M.failures map.old) (M.failures map.new) }
    ensures scen { Counts (is_read_failure FileName.Scenario (end_of result))
        (S.failures scen.old) (S.failures scen.new) }
    ensures out { Counts (is_write_failure (end_of result)) (O.failures out.old) (O.failures out.new) }
    ensures within { AreWithin (files (M.remaining map.old) (S.remaining scen.old)) (end_of result) }
    ensures text { LeavesAnyText (M.remaining map.old) (S.remaining scen.old) ask
        (O.contents out.old) (O.contents out.new) result }
    ensures best { ask.nodes ≡ None → LeavesBest (M.remaining map.old) (S.remaining scen.old) ask
        (O.contents out.old) (O.contents out.new) result }
    ensures limit { (n : ℕ) → ask.nodes ≡ Some n
        → LeavesAnyLimit (M.remaining map.old) (S.remaining scen.old) ask n
        (O.contents out.old) (O.contents out.new) result }
    ensures memory { IfErr result (λ fault. fault ≢ RunFault.Device DeviceFault.NoMemory) }
{
    let means = Means::new(rt, alloc, &NoGate);
    write_text_or_fault(means, map, scen, out, ask, Wanted::AnyOptimum, watch)
}

/// The same with the answer that is wanted, where nothing is said of other plans and other numbers of workers.
fn write_text_or_fault<R: Threads + Sync, M: Source, S: Source, O: Sink, W: Watch>(
    means: Means<'_, R, NoGate, AlwaysGrants>,
    map: &mut M,
    scen: &mut S,
    out: &mut O,
    ask: Ask,
    wanted: Wanted,
    watch: &mut W,
) -> Result<(), RunFault>
    requires map { M.failures map.old < u64.MAX }
    requires scen { S.failures scen.old < u64.MAX }
    requires out { O.failures out.old < u64.MAX }
    ensures map { Counts (is_read_failure FileName.Map (end_of result)) (M.failures map.old) (M.failures map.new) }
    ensures scen { Counts (is_read_failure FileName.Scenario (end_of result))
        (S.failures scen.old) (S.failures scen.new) }
    ensures out { Counts (is_write_failure (end_of result)) (O.failures out.old) (O.failures out.new) }
    ensures within { AreWithin (files (M.remaining map.old) (S.remaining scen.old)) (end_of result) }
    ensures text { LeavesTextBy (IsWanted wanted) (M.remaining map.old) (S.remaining scen.old) ask
        (O.contents out.old) (O.contents out.new) result }
    ensures memory { IfErr result (λ fault. fault ≢ RunFault.Device DeviceFault.NoMemory) }
{
    let map = read_file(means.alloc, map, FileName::Map)?;
    let scen = read_file(means.alloc, scen, FileName::Scenario)?;
    let text = text_or_fault(means, &map, &scen, ask, wanted, watch)?;
    Ok(write_text(out, &text)?)
}
