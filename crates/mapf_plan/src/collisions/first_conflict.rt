//! The first conflict of a plan: by time steps as far as most plans need it, and by pairs of agents from there on.

ghost use Rattle.std.specs.Prelude.{◌≡◌, ℕ, ◌+◌, ◌<◌, ◌≤◌, [], ◌∷◌, length, MatchOption, ⊤};
ghost use Rattle.mapf_grid.specs.Least.{NoneBefore};
ghost use Rattle.mapf_plan.specs.declared.conflict.Conflict.{Conflict};
ghost use Rattle.mapf_plan.specs.Path.{cost};
ghost use Rattle.mapf_plan.specs.Plan.{conflict_rank, conflict_time, path_of, second_agent, IsConflict};
ghost use Rattle.mapf_plan.specs.declared.answer.TheConstants.{MOST_BOUND};
ghost use Rattle.mapf_plan.specs.Plan.{IsFirstConflict, HasNoConflict};
ghost use Rattle.mapf_plan.specs.FirstConflict.{HasNoConflictBefore, IsConflictAt, IsConflictBefore, IsConflictWithout};
ghost use Rattle.mapf_plan.specs.FirstConflict.{IsEarlier, IsOfAgent};
ghost use Rattle.mapf_plan.specs.declared.collisions.first_conflict.TheConstants.{STEPS};

use super::first_of_pair::{first_of_pair, pair_at};
use super::marks::Marks;
use crate::conflict::earlier;
use crate::{AgentPaths, Conflict, Rule};

/// How many time steps all agents are looked at together, at most. From then on pairs of agents are, as two that are at rest
/// need no time step more.
const STEPS: u32 = 250;

/// The first conflict of all times, where only one agent's path is new, no two agents have a conflict before one time step, and
/// the other agents have none before another. None if no two agents ever collide.
pub fn first_conflict_of_changed<P: AgentPaths>(
    plan: &P,
    rule: Rule,
    changed: usize,
    from: u32,
    time: u32,
) -> Option<Conflict>
    requires agent { changed < length (P.paths plan.now) }
    requires before { NoneBefore conflict_rank (IsConflict rule (P.paths plan.now)) (from ∷ []) }
    requires others { NoneBefore conflict_rank (IsConflictWithout rule (P.paths plan.now) changed) (time ∷ []) }
    ensures { MatchOption result (HasNoConflict rule (P.paths plan.now)) (IsFirstConflict rule (P.paths plan.now)) }
{
    match first_of_agent(plan, rule, changed, 0, from, time) {
        Some(found) => Some(found),
        None => first_conflict_from(plan, rule, time),
    }
}

/// The first conflict of this agent with each other one from a first one on, if there is one before the end; no two agents
/// have one before the first of these time steps.
#[inline(never)]
fn first_of_agent<P: AgentPaths>(
    plan: &P,
    rule: Rule,
    agent: usize,
    others: usize,
    from: u32,
    end: u32,
) -> Option<Conflict>
    requires agent { agent < length (P.paths plan.now) }
    requires before { HasNoConflictBefore rule (P.paths plan.now) from }
    ensures conflict { MatchOption result ⊤ (IsConflictBefore rule (P.paths plan.now) end) }
    ensures first { (c : Conflict) → IsConflictBefore rule (P.paths plan.now) end c → IsOfAgent agent others c
        → ¬ IsEarlier c result }
{
    let mut known = None;
    for other in others..plan.agents() {
        if other == agent {
            continue;
        }
        let until = end_by(&known, end);
        let (first, second) = (agent.min(other), agent.max(other));
        known = earlier(known, first_of_pair(plan, rule, first, second, from, until));
    }
    known
}

/// The first conflict of all times, where no two agents have one before a time step. None if no two agents ever collide.
pub(crate) fn first_conflict_from<P: AgentPaths>(
    plan: &P,
    rule: Rule,
    time: u32,
) -> Option<Conflict>
    requires { HasNoConflictBefore rule (P.paths plan.now) time }
    ensures { MatchOption result (HasNoConflict rule (P.paths plan.now)) (IsFirstConflict rule (P.paths plan.now)) }
{
    let mut marks = Marks::new();
    let steps = longest(plan).saturating_add(1).saturating_sub(time);
    let end = time.saturating_add(steps.min(STEPS));
    for step in time..end {
        let round = (step - time) as u8 + 1;
        if let Some(found) = first_at(plan, rule, step, round, &mut marks) {
            return Some(found);
        }
    }
    first_by_pairs(plan, rule, end)
}

/// The first conflict at a time step, where no two agents have one before it. Two agents are compared only where their marks
/// meet.
#[inline(never)]
fn first_at<P: AgentPaths>(
    plan: &P,
    rule: Rule,
    time: u32,
    round: u8,
    marks: &mut Marks,
) -> Option<Conflict>
    requires before { HasNoConflictBefore rule (P.paths plan.now) time }
    ensures { MatchOption result (HasNoConflictBefore rule (P.paths plan.now) (time + 1))
        (IsFirstConflict rule (P.paths plan.now)) }
{
    let mut known = None;
    for agent in 0..plan.agents() {
        let path = plan.path(agent);
        let from = path.at(time.saturating_sub(1));
        if marks.meets(rule, round, from, path.at(time)) {
            known = earlier_at(plan, rule, agent, time, known);
        }
    }
    known
}

/// The conflict at a time step that is known, or an earlier one at it of this agent with one of a smaller number.
fn earlier_at<P: AgentPaths>(
    plan: &P,
    rule: Rule,
    agent: usize,
    time: u32,
    known: Option<Conflict>,
) -> Option<Conflict>
    requires agent { agent < length (P.paths plan.now) }
    requires before { HasNoConflictBefore rule (P.paths plan.now) time }
    requires conflict { MatchOption known ⊤ (IsConflictAt rule (P.paths plan.now) time) }
    ensures conflict { MatchOption result ⊤ (IsConflictAt rule (P.paths plan.now) time) }
    ensures keeps { (c : Conflict) → IsEarlier c result → IsEarlier c known }
    ensures first { (c : Conflict) → IsConflictAt rule (P.paths plan.now) time c → second_agent c ≡ agent
        → ¬ IsEarlier c result }
{
    let mut earliest = known;
    for other in 0..agent {
        earliest = earlier(earliest, pair_at(plan, rule, other, agent, time));
    }
    earliest
}

/// The cost of the longest path: then all agents are at rest.
fn longest<P: AgentPaths>(plan: &P) -> u32
    ensures small { result ≤ MOST_BOUND }
    ensures costs { (i : ℕ) → i < length (P.paths plan.now) → cost (path_of (P.paths plan.now) i) ≤ result }
{
    let mut longest = 0;
    for agent in 0..plan.agents() {
        longest = plan.path(agent).cost().max(longest);
    }
    longest
}

/// The same as [`first_conflict_from`], pair by pair of agents.
fn first_by_pairs<P: AgentPaths>(plan: &P, rule: Rule, time: u32) -> Option<Conflict>
    requires { HasNoConflictBefore rule (P.paths plan.now) time }
    ensures { MatchOption result (HasNoConflict rule (P.paths plan.now)) (IsFirstConflict rule (P.paths plan.now)) }
{
    let end = longest(plan) + 1;
    let mut known = None;
    for agent in 0..plan.agents() {
        let until = end_by(&known, end);
        let found = first_of_agent(plan, rule, agent, agent + 1, time, until);
        known = earlier(known, found);
    }
    known
}

/// The time step from which on no conflict comes before the one that is known; the end, where none is known.
fn end_by(known: &Option<Conflict>, end: u32) -> u32
    requires { MatchOption known.now ⊤ (λ c. conflict_time c < end) }
    ensures within { result ≤ end }
    ensures later { (c : Conflict) → conflict_time c < end → result ≤ conflict_time c → ¬ IsEarlier c known.now }
{
    match known {
        Some(conflict) => conflict.time() + 1,
        None => end,
    }
}
