//! When two agents collide for the first time, by their paths alone.

ghost use Rattle.std.specs.Prelude.{◌≡◌, ◌≢◌, ℕ, ◌+◌, ◌<◌, ◌≤◌, min, max, IsFalse, IsTrue};
ghost use Rattle.mapf_plan.specs.Path.{at, cost, AreApart, IsFirstTime};
ghost use Rattle.mapf_plan.specs.Collisions.{DoStepsCollide, DontCollideBefore, HaveNoneBefore, IsFirstCollision};

use crate::{Path, Rule};
use mapf_grid::Cell;

/// How many time steps are looked at together, without an early end among them: a processor can do so with several at once.
const BLOCK: u32 = 64;

/// A time step before which two agents on these paths don't collide; none where they never do.
pub(crate) fn first_time_of_two(rule: Rule, one: &Path, other: &Path) -> Option<u32>
    ensures { HaveNoneBefore rule one.now other.now result }
{
    let longer = one.cost().max(other.cost());
    first_collision(rule, one, other, 0, longer + 1)
}

/// The first time step at which two agents on these paths collide, if they do before the end; they don't before the first of
/// these time steps.
#[inline(never)]
pub(super) fn first_collision(
    rule: Rule,
    one: &Path,
    other: &Path,
    from: u32,
    end: u32,
) -> Option<u32>
    requires { DontCollideBefore rule one.now other.now from }
    ensures { IsFirstCollision rule one.now other.now end result }
{
    let one_rests = end.min(one.cost().min(other.cost()) + 1);
    let both_rest = end.min(one.cost().max(other.cost()) + 1);
    match first_while_both_move(rule, one, other, from, one_rests) {
        Some(time) => Some(time),
        None => first_together(one, other, from.max(one_rests), both_rest),
    }
}

/// The same, where both paths go on to the end of these time steps: block by block, and step by step only in one in which they
/// are close.
fn first_while_both_move(rule: Rule, one: &Path, other: &Path, from: u32, end: u32) -> Option<u32>
    requires before { DontCollideBefore rule one.now other.now from }
    requires within { end ≤ min (cost one.now) (cost other.now) + 1 }
    ensures { IsFirstCollision rule one.now other.now end result }
{
    let mut start = from;
    while start < end {
        let next = start + BLOCK.min(end - start);
        if are_close_within(one, other, start as usize, next as usize) {
            if let Some(time) = first_step_by_step(rule, one, other, start, next) {
                return Some(time);
            }
        }
        start = next;
    }
    None
}

/// The same, one time step after another.
fn first_step_by_step(rule: Rule, one: &Path, other: &Path, from: u32, end: u32) -> Option<u32>
    requires { DontCollideBefore rule one.now other.now from }
    ensures { IsFirstCollision rule one.now other.now end result }
{
    let before = from.saturating_sub(1);
    let mut one_was = one.at(before);
    let mut other_was = other.at(before);
    for time in from..end {
        let (one_is, other_is) = (one.at(time), other.at(time));
        if do_steps_collide(rule, one_was, one_is, other_was, other_is) {
            return Some(time);
        }
        one_was = one_is;
        other_was = other_is;
    }
    None
}

/// Whether at one of these time steps one of two agents is where the other is or was one time step before.
fn are_close_within(one: &Path, other: &Path, from: usize, end: usize) -> bool
    requires block { from < end }
    requires within { end ≤ min (cost one.now) (cost other.now) + 1 }
    ensures { IsFalse result → (t : ℕ) → from ≤ t → t < end → AreApart one.now other.now t }
{
    let (one_cells, other_cells) = (one.cells(), other.cells());
    let mut met = one_cells[from] == other_cells[from];
    for time in from.max(1)..end {
        let before = time - 1;
        met |= are_close(
            one_cells[before],
            one_cells[time],
            other_cells[before],
            other_cells[time],
        );
    }
    met
}

/// Whether one of two agents is where the other is or was one time step before.
fn are_close(one_was: Cell, one_is: Cell, other_was: Cell, other_is: Cell) -> bool
    ensures same { IsFalse result → one_is ≢ other_is }
    ensures one { IsFalse result → one_is ≢ other_was }
    ensures other { IsFalse result → other_is ≢ one_was }
{
    one_is == other_is || one_is == other_was || other_is == one_was
}

/// Whether agents that go from the cells where they were to those where they are collide: on one cell, by changing places or, where
/// that is forbidden, by following.
pub fn do_steps_collide(
    rule: Rule,
    one_was: Cell,
    one_is: Cell,
    other_was: Cell,
    other_is: Cell,
) -> bool
    ensures collide { IsTrue result → DoStepsCollide rule one_was one_is other_was other_is }
    ensures apart { IsFalse result → ¬ DoStepsCollide rule one_was one_is other_was other_is }
{
    if one_is == other_is {
        return true;
    }
    match rule {
        Rule::Classical => one_is == other_was && other_is == one_was,
        Rule::NoFollowing => one_is == other_was || other_is == one_was,
    }
}

/// The first of these time steps at which two agents are on one cell, where one of them has ended its path before them: the
/// cell on which it rests is looked for on the other's path.
fn first_together(one: &Path, other: &Path, from: u32, end: u32) -> Option<u32>
    requires rests { from < end → min (cost one.now) (cost other.now) < from }
    requires within { end ≤ max (cost one.now) (cost other.now) + 1 }
    ensures { IsFirstTime (λ t. at one.now t ≡ at other.now t) from end result }
{
    if one.cost() < other.cost() {
        other.first_time_on(one.at(from), from, end)
    } else {
        one.first_time_on(other.at(from), from, end)
    }
}
