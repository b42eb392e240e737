//! Whether agents and their sets are the same, or under fewer constraints.

ghost use Rattle.std.specs.Prelude.{◌≡◌, Contains, IsTrue};
ghost use Rattle.std.specs.List.{AllByRecursion};
ghost use Rattle.mapf_optimum.specs.Groups.{AreWithin};

use mapf_low::{Constraint, Constraints};

/// Whether the constraints of each of these sets are among those of the other ones.
pub(super) fn are_within(few: &[Constraints], more: &[Constraints]) -> bool
    ensures { IsTrue result → AreWithin few.now more.now }
{
    if few.len() != more.len() {
        return false;
    }
    for place in 0..few.len() {
        if !is_within(few[place].as_slice(), more[place].as_slice()) {
            return false;
        }
    }
    true
}

/// Whether these constraints are among the other ones.
fn is_within(few: &[Constraint], more: &[Constraint]) -> bool
    ensures { IsTrue result → AllByRecursion (Contains more.now) few.now }
{
    if few.len() > more.len() {
        return false;
    }
    for constraint in few {
        if !more.contains(constraint) {
            return false;
        }
    }
    true
}

/// Whether two lists of agents are one.
pub(super) fn are_same_agents(one: &[usize], other: &[usize]) -> bool
    ensures { IsTrue result → one.now ≡ other.now }
{
    one == other
}

/// Whether two lists of sets are one.
pub(super) fn are_same_sets(one: &[Constraints], other: &[Constraints]) -> bool
    ensures { IsTrue result → one.now ≡ other.now }
{
    if one.len() != other.len() {
        return false;
    }
    for place in 0..one.len() {
        if !one[place].is_same(&other[place]) {
            return false;
        }
    }
    true
}
