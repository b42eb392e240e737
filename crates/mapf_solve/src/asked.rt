//! What is asked: its numbers are tested, its problem is solved, and the answer that is wanted is spelled.

ghost use Rattle.std.specs.Prelude.{◌≡◌, ◌≢◌, ◌≤◌, ◌↔◌, IfOk, IfErr, OnOk, IsTrue, None, Err};
ghost use Rattle.mapf_grid.specs.Asked.{IsAsked};
ghost use Rattle.mapf_plan.specs.declared.answer.TheConstants.{MOST_BOUND};
ghost use Rattle.mapf_plan.specs.Text.{text};
ghost use Rattle.mapf_tree.specs.Problem.{IsLimit};
ghost use Rattle.mapf_optimum.specs.AnyAnswer.{IsAnyAnswer};
ghost use Rattle.mapf_solve.specs.Wanted.{IsWanted};
ghost use Rattle.mapf_solve.specs.Out.{AreNumbers, IsRefusal, IsProblemOf, IsTextBy, IsOut, problem_of};

use crate::means::Means;
use crate::rounds::tables;
use crate::wanted::{Wanted, solve_wanted, solve_wanted_alone};
use crate::{Ask, Refusal, Watch};
use mapf_board::{AlwaysGrants, Gate, MOST_WORKERS};
use mapf_grid::{Instance, NoMemory, instance_of};
use mapf_plan::{Answer, MOST_BOUND, MOST_NODES, Rule, write};
use mapf_tree::Problem;
use std::alloc::Global;
use std::thread::Threads;

/// The text of the answer that is wanted, by the ask's number of workers, or the first fault, where nothing is said of other plans and
/// other numbers of workers.
pub(crate) fn text_or_fault<R: Threads + Sync, G: Gate, W: Watch>(
    mut means: Means<'_, R, G, AlwaysGrants>,
    map: &[u8],
    scen: &[u8],
    ask: Ask,
    wanted: Wanted,
    watch: &mut W,
) -> Result<Vec<u8>, Refusal>
    ensures text { IfOk result (λ bytes. IsTextBy (IsWanted wanted) map.now scen.now ask bytes.items) }
    ensures fault { IfErr result (λ fault. fault ≢ Refusal.NoMemory → IsRefusal map.now scen.now ask fault) }
{
    let problem = problem_by_rounds(&mut means, map, scen, ask)?;
    let answer = solve_wanted(&means, &problem, wanted, watch)?;
    Ok(spell(means.alloc, &problem, &answer)?)
}

/// The text of the answer that is wanted, or the first fault, where nothing is said of other plans and other numbers of workers.
pub(crate) fn text_or_fault_alone(
    alloc: Global,
    map: &[u8],
    scen: &[u8],
    ask: Ask,
    wanted: Wanted,
) -> Result<Vec<u8>, Refusal>
    ensures text { IfOk result (λ bytes. IsTextBy (IsWanted wanted) map.now scen.now ask bytes.items) }
    ensures fault { IfErr result (λ fault. fault ≢ Refusal.NoMemory → IsRefusal map.now scen.now ask fault) }
{
    let problem = problem_alone(alloc, map, scen, ask)?;
    let answer = solve_wanted_alone(alloc, &problem, wanted)?;
    Ok(spell(alloc, &problem, &answer)?)
}

/// The problem that is asked for, or else the first fault. Its tables are the jobs of a round, and from then on there are as many
/// workers as the ask has.
fn problem_by_rounds<R: Threads + Sync, G: Gate>(
    means: &mut Means<'_, R, G, AlwaysGrants>,
    map: &[u8],
    scen: &[u8],
    ask: Ask,
) -> Result<Problem, Refusal>
    ensures asked { IfOk result (IsProblemOf map.now scen.now ask) }
    ensures fault { IfErr result (λ fault. fault ≢ Refusal.NoMemory → IsOut map.now scen.now ask (Err fault)) }
{
    let instance = asked_instance(means.alloc, map, scen, ask)?;
    means.workers = ask.workers as usize;
    let tables = tables(means, &instance)?;
    let whole = Problem::with(instance, tables, ask.bound as u32);
    Ok(asked_problem(whole, ask))
}

/// The problem that is asked for, or else the first fault, on this thread.
fn problem_alone(alloc: Global, map: &[u8], scen: &[u8], ask: Ask) -> Result<Problem, Refusal>
    ensures asked { IfOk result (IsProblemOf map.now scen.now ask) }
    ensures fault { IfErr result (λ fault. fault ≢ Refusal.NoMemory → IsOut map.now scen.now ask (Err fault)) }
{
    let instance = asked_instance(alloc, map, scen, ask)?;
    match Problem::new(alloc, instance, ask.bound as u32) {
        Ok(whole) => Ok(asked_problem(whole, ask)),
        Err((_instance, refused)) => Err(Refusal::from(refused)),
    }
}

/// The instance that is asked for, where the ask's numbers may be; or else the first fault.
fn asked_instance(alloc: Global, map: &[u8], scen: &[u8], ask: Ask) -> Result<Instance, Refusal>
    ensures numbers { OnOk result (AreNumbers ask) }
    ensures asked { IfOk result (IsAsked map.now scen.now ask.agents) }
    ensures fault { IfErr result (λ fault. fault ≢ Refusal.NoMemory → IsOut map.now scen.now ask (Err fault)) }
{
    if ask.bound > MOST_BOUND {
        return Err(Refusal::Bound);
    }
    if ask.workers < 1 || ask.workers > MOST_WORKERS as u64 {
        return Err(Refusal::Workers);
    }
    if !is_limit(ask.nodes) {
        return Err(Refusal::Nodes);
    }
    Ok(instance_of(alloc, map, scen, ask.agents)?)
}

/// The problem by the ask's rule, with its limit on nodes, if it has one.
fn asked_problem(problem: Problem, ask: Ask) -> Problem
    requires fresh { (problem.nodes ≡ None) × (problem.rule ≡ Rule.Classical) }
    requires bound { problem.bound ≡ ask.bound }
    requires limit { IsLimit ask.nodes }
    ensures { result ≡ problem_of problem.inst ask }
{
    let problem = match ask.rule {
        Rule::Classical => problem,
        Rule::NoFollowing => problem.forbid_following(),
    };
    match ask.nodes {
        Some(nodes) => problem.with_nodes(nodes),
        None => problem,
    }
}

/// Whether a search may be limited so: not at all, or to 1 to 1,000,000 nodes.
fn is_limit(nodes: Option<u64>) -> bool
    ensures { IsTrue result ↔ IsLimit nodes }
{
    match nodes {
        Some(nodes) => 1 <= nodes && nodes <= MOST_NODES,
        None => true,
    }
}

/// The text of a problem's answer.
fn spell(alloc: Global, problem: &Problem, answer: &Answer) -> Result<Vec<u8>, NoMemory>
    requires bound { problem.now.bound ≤ MOST_BOUND }
    requires limit { IsLimit problem.now.nodes }
    requires answer { IsAnyAnswer problem.now answer.now }
    ensures { IfOk result (λ bytes. bytes.items ≡ text problem.now.inst.grid answer.now) }
{
    write(alloc, answer, problem.instance().map())
}
