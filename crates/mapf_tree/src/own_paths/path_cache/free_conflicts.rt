//! The conflicts of a free plan.

ghost use Rattle.std.specs.Prelude.{◌≡◌, ℕ, ◌<◌, List, length, IfSome};
ghost use Rattle.mapf_tree.specs.Prelude.{IsConflict, IsPlanOf, path_of, plan_of};

use crate::own_paths::path_cache::PathCache;
use mapf_plan::{Conflict, KnownPlan, PairConflict, Path, Rule};

impl<'p> PathCache<'p> {
    /// The conflict that two agents of a plan have at a time step, where they have one.
    pub(super) fn conflict_at(&self, plan: &KnownPlan, pair: &PairConflict) -> Option<Conflict>
        requires { IsPlanOf self.now plan.now }
        ensures { IfSome result (IsConflict self.now.problem.rule (plan_of self.now.paths plan.now.numbers.items)) }
    {
        let (first, second) = (usize::from(pair.first), usize::from(pair.second));
        if first >= second || second >= plan.numbers.len() {
            return None;
        }
        let one = self.paths.path(plan.numbers[first])?;
        let other = self.paths.path(plan.numbers[second])?;
        conflict_of_two(self.problem.rule(), first, second, one, other, pair.time)
    }
}

/// The conflict of two agents on these paths at a time step, if they have one.
fn conflict_of_two(
    rule: Rule,
    first: usize,
    second: usize,
    one: &Path,
    other: &Path,
    time: u32,
) -> Option<Conflict>
    requires { first < second }
    ensures { IfSome result (λ c. (plan : List (List ℕ)) → second < length plan → path_of plan first ≡ one.now → path_of plan second ≡ other.now
        → IsConflict rule plan c) }
{
    let (to, cell) = (one.at(time), other.at(time));
    if to == cell {
        return Some(Conflict::Vertex {
            time,
            first,
            second,
            cell,
        });
    }
    if time == 0 {
        return None;
    }
    let (from, left) = (one.at(time - 1), other.at(time - 1));
    if from == cell && to == left {
        return Some(Conflict::Swapping {
            time,
            first,
            second,
            from,
            to,
        });
    }
    if rule == Rule::Classical {
        return None;
    }
    if to == left {
        return Some(Conflict::Following {
            time,
            follower: first,
            leader: second,
            cell: to,
        });
    }
    if cell == from {
        return Some(Conflict::Following {
            time,
            follower: second,
            leader: first,
            cell,
        });
    }
    None
}
