//! The two sides of a conflict: each forbids one of the two agents its part in it.

ghost use Rattle.std.specs.Prelude.{◌≡◌, IsFalse};
ghost use Rattle.mapf_tree.specs.Prelude.{Breaks, agent_on, constraint_on};

use crate::Side;
use mapf_low::Constraint;
use mapf_plan::{Conflict, Path};

/// The agent of this side.
pub fn agent_of(conflict: &Conflict, side: Side) -> usize
    ensures { result ≡ agent_on conflict.now side }
{
    let (first, second) = match *conflict {
        Conflict::Vertex { first, second, .. } | Conflict::Swapping { first, second, .. } => {
            (first, second)
        }
        Conflict::Following {
            follower,
            leader,
            ..
        } => (follower.min(leader), follower.max(leader)),
    };
    match side {
        Side::Left => first,
        Side::Right => second,
    }
}

/// What this side forbids its agent: the cell at that time, or the step that the agent takes then. A follower may not be on
/// the cell then, and its leader not one time step before.
pub fn constraint_of(conflict: &Conflict, side: Side) -> Constraint
    ensures { result ≡ constraint_on conflict.now side }
{
    match *conflict {
        Conflict::Vertex { cell, time, .. } => Constraint::Vertex { cell, time },
        Conflict::Swapping { from, to, time, .. } => match side {
            Side::Left => Constraint::Edge { from, to, time },
            Side::Right => Constraint::Edge {
                from: to,
                to: from,
                time,
            },
        },
        Conflict::Following {
            follower,
            cell,
            time,
            ..
        } => {
            let follows = agent_of(conflict, side) == follower;
            let time = if follows {
                time
            } else {
                time.saturating_sub(1)
            };
            Constraint::Vertex { cell, time }
        }
    }
}

/// Whether the path breaks the constraint.
pub fn breaks(path: &Path, constraint: &Constraint) -> bool
    ensures { IsFalse result → ¬ Breaks path.now constraint.now }
{
    match *constraint {
        Constraint::Vertex { cell, time } => path.at(time) == cell,
        Constraint::Edge { from, to, time } => {
            time > 0 && path.at(time - 1) == from && path.at(time) == to
        }
    }
}
