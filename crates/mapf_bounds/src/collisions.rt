//! Pairs of agents that collide in a node's plan: each of disjoint ones takes another turn.

ghost use Rattle.std.specs.Prelude.{◌≡◌, ◌<◌, ℕ, false, length, slice_index_or, IfOk, IsFalse, IsTrue};
ghost use Rattle.mapf_plan.specs.Collisions.{DoCollide};
ghost use Rattle.mapf_bounds.specs.Pairs.{AreChosenBy, HaveCollisions, IsCollidingPair, Takes};

use mapf_grid::NoMemory;
use mapf_plan::{AgentPaths, PairConflict, Path, Rule, do_steps_collide};
use std::alloc::Global;

/// Two agents.
#[derive(Clone, Copy)]
pub(crate) struct AgentPair {
    /// The lower number.
    pub(crate) first: usize,
    /// The higher number.
    pub(crate) second: usize,
}

/// How many disjoint pairs collide, of those that may.
pub(crate) fn disjoint_collisions<P: AgentPaths>(
    alloc: Global,
    rule: Rule,
    paths: &P,
    conflicts: &[PairConflict],
) -> Result<usize, NoMemory>
    ensures { IfOk result (HaveCollisions rule (P.paths paths.now)) }
{
    let mut taken = vec![in alloc; false; paths.agents()]?;
    let mut count = 0_usize;
    for conflict in conflicts {
        count = count_one(rule, paths, conflict, &mut taken, count);
    }
    Ok(count)
}

/// Counts a pair, if its agents collide and are in no pair that was counted.
fn count_one<P: AgentPaths>(
    rule: Rule,
    paths: &P,
    conflict: &PairConflict,
    taken: &mut Vec<bool>,
    count: usize,
) -> usize
    requires { AreChosenBy (length (P.paths paths.now)) (IsCollidingPair rule (P.paths paths.now))
        taken.old.items count }
    ensures { AreChosenBy (length (P.paths paths.now)) (IsCollidingPair rule (P.paths paths.now))
        taken.new.items result }
{
    let pair = AgentPair {
        first: usize::from(conflict.first),
        second: usize::from(conflict.second),
    };
    if count == usize::MAX || !is_collision(rule, paths, &pair, conflict.time) {
        return count;
    }
    if !take(taken, &pair) {
        return count;
    }
    count + 1
}

/// Whether it is known of the agent that it is in none of the pairs that were chosen.
fn is_free(taken: &[bool], agent: usize) -> bool
    ensures inside { IsTrue result → agent < length taken.now }
    ensures free { IsTrue result → slice_index_or taken.now agent false ≡ false }
{
    matches!(taken.get(agent), Some(false))
}

/// Marks the two agents of a pair, if they have no mark, and says whether it did.
fn take(taken: &mut Vec<bool>, pair: &AgentPair) -> bool
    ensures takes { IsTrue result → Takes pair.now taken.old.items taken.new.items }
    ensures stands { IsFalse result → taken.new.items ≡ taken.old.items }
{
    let (first, second) = (pair.first, pair.second);
    if first < second && is_free(taken, first) && is_free(taken, second) {
        taken[first] = true;
        taken[second] = true;
        true
    } else {
        false
    }
}

/// Whether the two agents collide at that time step.
fn is_collision<P: AgentPaths>(rule: Rule, paths: &P, pair: &AgentPair, time: u32) -> bool
    ensures { IsTrue result → IsCollidingPair rule (P.paths paths.now) pair.now }
{
    let agents = paths.agents();
    if pair.first >= agents || pair.second >= agents {
        return false;
    }
    do_collide(rule, paths.path(pair.first), paths.path(pair.second), time)
}

/// Whether two agents on these paths collide at this time step.
fn do_collide(rule: Rule, one: &Path, other: &Path, time: u32) -> bool
    ensures { IsTrue result → DoCollide rule one.now other.now time }
{
    let before = time.saturating_sub(1);
    do_steps_collide(
        rule,
        one.at(before),
        one.at(time),
        other.at(before),
        other.at(time),
    )
}
