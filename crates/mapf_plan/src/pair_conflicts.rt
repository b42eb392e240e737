//! Pair conflicts: a short list of pairs of agents and times from which a plan's first conflict is found.

ghost use Rattle.std.specs.Prelude.{◌≡◌, ◌≢◌, ◌<◌, ◌≤◌, min, max, length, Contains, MatchOption, IfOk, ⊤};
ghost use Rattle.mapf_grid.specs.declared.instance.TheConstants.{MOST_AGENTS};
ghost use Rattle.mapf_plan.specs.declared.conflict.Conflict.{Conflict};
ghost use Rattle.mapf_plan.specs.declared.pair_conflicts.PairConflict.{PairConflict};
ghost use Rattle.mapf_plan.specs.Plan.{first_agent, second_agent, IsConflict, IsFirstConflict, HasNoConflict};
ghost use Rattle.mapf_plan.specs.FirstConflict.{HasNoConflictBefore, IsConflictAt, IsEarlier};
ghost use Rattle.mapf_plan.specs.PairConflicts.{HavePairConflicts};

use crate::collisions::{first_conflict_from, pair_at};
use crate::conflict::earlier;
use crate::{AgentPaths, Conflict, Rule};
use mapf_grid::NoMemory;

/// Two agents, and a time step before which they have no conflict.
#[derive(Clone, Copy, Debug, PartialEq, Eq)]
pub struct PairConflict {
    /// The agent with the smaller number.
    pub first: u16,
    /// The agent with the larger number.
    pub second: u16,
    /// The time step.
    pub time: u32,
}

/// The pair conflict of these two agents at a time step.
pub(crate) fn pair_conflict_of(agent: usize, other: usize, time: u32) -> PairConflict
    requires agents { (agent < MOST_AGENTS) × (other < MOST_AGENTS) }
    ensures { result ≡ record { first = min agent other; second = max agent other; time = time } }
{
    PairConflict {
        first: agent.min(other) as u16,
        second: agent.max(other) as u16,
        time,
    }
}

/// Those of these pair conflicts that this agent doesn't have, in the place of what a list had.
pub(crate) fn pair_conflicts_without(
    spare: Vec<PairConflict>,
    conflicts: &[PairConflict],
    agent: usize,
) -> Result<Vec<PairConflict>, NoMemory>
    ensures { IfOk result (λ left. (m : PairConflict) → Contains conflicts.now m → m.first ≢ agent → m.second ≢ agent
        → Contains left.items m) }
{
    let mut left = spare;
    left.clear();
    left.reserve(conflicts.len())?;
    for conflict in conflicts {
        if usize::from(conflict.first) != agent && usize::from(conflict.second) != agent {
            left.push_reserved(*conflict);
        }
    }
    Ok(left)
}

/// The first conflict of a plan, from pair conflicts of all its conflicts. None if no two agents ever collide.
pub(crate) fn first_conflict_of_pair_conflicts<P: AgentPaths>(
    plan: &P,
    rule: Rule,
    conflicts: &[PairConflict],
) -> Option<Conflict>
    requires { HavePairConflicts (IsConflict rule (P.paths plan.now)) conflicts.now }
    ensures { MatchOption result (HasNoConflict rule (P.paths plan.now)) (IsFirstConflict rule (P.paths plan.now)) }
{
    let time = least_time(conflicts)?;
    match first_at_pair_conflicts(plan, rule, conflicts, time) {
        Some(found) => Some(found),
        None => first_conflict_from(plan, rule, time),
    }
}

/// The least time step of these pair conflicts; none where there are no pair conflicts.
fn least_time(conflicts: &[PairConflict]) -> Option<u32>
    ensures { MatchOption result (length conflicts.now ≡ 0)
        (λ t. (m : PairConflict) → Contains conflicts.now m → t ≤ m.time) }
{
    if conflicts.is_empty() {
        return None;
    }
    let mut least = conflicts[0].time;
    for conflict in conflicts {
        least = least.min(conflict.time);
    }
    Some(least)
}

/// The first conflict, where one is at the least time step of these pair conflicts of all conflicts.
fn first_at_pair_conflicts<P: AgentPaths>(
    plan: &P,
    rule: Rule,
    conflicts: &[PairConflict],
    time: u32,
) -> Option<Conflict>
    requires conflicts { HavePairConflicts (IsConflict rule (P.paths plan.now)) conflicts.now }
    requires least { (m : PairConflict) → Contains conflicts.now m → time ≤ m.time }
    requires before { HasNoConflictBefore rule (P.paths plan.now) time }
    ensures { MatchOption result ⊤ (IsFirstConflict rule (P.paths plan.now)) }
{
    let mut known = None;
    for conflict in conflicts {
        if conflict.time == time {
            let (first, second) = (usize::from(conflict.first), usize::from(conflict.second));
            known = earlier_of_two(plan, rule, first, second, time, known);
        }
    }
    known
}

/// The conflict at a time step that is known, or an earlier one at it of these two agents.
fn earlier_of_two<P: AgentPaths>(
    plan: &P,
    rule: Rule,
    first: usize,
    second: usize,
    time: u32,
    known: Option<Conflict>,
) -> Option<Conflict>
    requires before { HasNoConflictBefore rule (P.paths plan.now) time }
    requires conflict { MatchOption known ⊤ (IsConflictAt rule (P.paths plan.now) time) }
    ensures conflict { MatchOption result ⊤ (IsConflictAt rule (P.paths plan.now) time) }
    ensures keeps { (c : Conflict) → IsEarlier c result → IsEarlier c known }
    ensures first { (c : Conflict) → IsConflictAt rule (P.paths plan.now) time c → first_agent c ≡ first
        → second_agent c ≡ second → ¬ IsEarlier c result }
{
    if first >= second || second >= plan.agents() {
        return known;
    }
    earlier(known, pair_at(plan, rule, first, second, time))
}
