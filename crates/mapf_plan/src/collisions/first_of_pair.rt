//! Conflicts of two agents.

ghost use Rattle.std.specs.Prelude.{◌≡◌, ◌+◌, ◌<◌, [], ◌∷◌, length, MatchOption, ⊤};
ghost use Rattle.mapf_grid.specs.Least.{NoneBefore};
ghost use Rattle.mapf_plan.specs.declared.rule.Rule.{Rule};
ghost use Rattle.mapf_plan.specs.Plan.{conflict_rank, conflict_time};
ghost use Rattle.mapf_plan.specs.FirstConflict.{IsConflictOfPair, IsFirstOfPair, PairHasNoneBefore};

use super::first_collision::first_collision;
use crate::{AgentPaths, Conflict, Rule};

/// The first conflict of these two agents, if there is one before the end; they have none before the first of these time
/// steps.
pub(super) fn first_of_pair<P: AgentPaths>(
    plan: &P,
    rule: Rule,
    first: usize,
    second: usize,
    from: u32,
    end: u32,
) -> Option<Conflict>
    requires agents { (first < second) × (second < length (P.paths plan.now)) }
    requires before { PairHasNoneBefore rule (P.paths plan.now) first second from }
    ensures time { MatchOption result ⊤ (λ c. conflict_time c < end) }
    ensures conflict { IsFirstOfPair rule (P.paths plan.now) first second end result }
{
    let time = first_collision(rule, plan.path(first), plan.path(second), from, end)?;
    pair_at(plan, rule, first, second, time)
}

/// The conflict of these two agents at a time step, where they have none before it.
pub(crate) fn pair_at<P: AgentPaths>(
    plan: &P,
    rule: Rule,
    first: usize,
    second: usize,
    time: u32,
) -> Option<Conflict>
    requires agents { first < second }
    requires plan { second < length (P.paths plan.now) }
    requires before { PairHasNoneBefore rule (P.paths plan.now) first second time }
    ensures time { MatchOption result ⊤ (λ c. conflict_time c ≡ time) }
    ensures conflict { IsFirstOfPair rule (P.paths plan.now) first second (time + 1) result }
{
    let (to, cell) = (plan.path(first).at(time), plan.path(second).at(time));
    if to == cell {
        return Some(Conflict::Vertex {
            first,
            second,
            cell,
            time,
        });
    }
    if time == 0 {
        return None;
    }
    if plan.path(first).at(time - 1) != cell || plan.path(second).at(time - 1) != to {
        return match rule {
            Rule::Classical => None,
            Rule::NoFollowing => following_at(plan, first, second, time),
        };
    }
    Some(Conflict::Swapping {
        first,
        second,
        from: cell,
        to,
        time,
    })
}

/// The following conflict of these two agents at a time step after the first one, where they have no conflict before it and
/// neither a vertex nor a swapping conflict at it.
fn following_at<P: AgentPaths>(plan: &P, first: usize, second: usize, time: u32) -> Option<Conflict>
    requires agents { first < second }
    requires plan { second < length (P.paths plan.now) }
    requires later { 0 < time }
    requires before { NoneBefore conflict_rank (IsConflictOfPair Rule.NoFollowing (P.paths plan.now) first second)
        (time ∷ 2 ∷ []) }
    ensures time { MatchOption result ⊤ (λ c. conflict_time c ≡ time) }
    ensures conflict { IsFirstOfPair Rule.NoFollowing (P.paths plan.now) first second (time + 1) result }
{
    let (to, cell) = (plan.path(first).at(time), plan.path(second).at(time));
    if to == plan.path(second).at(time - 1) {
        return Some(Conflict::Following {
            follower: first,
            leader: second,
            cell: to,
            time,
        });
    }
    if cell == plan.path(first).at(time - 1) {
        return Some(Conflict::Following {
            follower: second,
            leader: first,
            cell,
            time,
        });
    }
    None
}
