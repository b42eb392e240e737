//! The conflict to branch on.

ghost use Rattle.std.specs.Prelude.{IfOk, MatchOption, ⊤};
ghost use Rattle.mapf_optimum.specs.FreeTree.{IsChoice};
ghost use Rattle.mapf_optimum.specs.Groups.{alone};

use crate::allowed::is_choice;
use crate::guesses::KnownCosts;
use crate::part::Part;
use mapf_grid::NoMemory;
use mapf_low::Constraints;
use mapf_plan::{Conflict, Plan};
use mapf_tree::{Side, agent_of, constraint_of};
use std::alloc::Global;

/// How many conflicts are tried, at most.
const MOST_TRIED: usize = 200;

/// A conflict of the plan up to the bound, if one is found among these: that whose sides cost most, by the lesser of the two first, and
/// of equals the first one.
pub(crate) fn branching_conflict(
    alloc: Global,
    part: &Part<'_, '_>,
    sets: &[Constraints],
    least: &[u32],
    plan: &Plan,
    conflicts: &[Conflict],
    costs: &mut KnownCosts,
) -> Result<Option<Conflict>, NoMemory>
    ensures { IfOk result (λ found. MatchOption found ⊤ (IsChoice (alone part.now) plan.now)) }
{
    let mut best = None;
    let mut greatest = (0, 0);
    for conflict in conflicts.iter().take(MOST_TRIED) {
        if is_choice(part, plan, conflict) {
            let rises = rises(alloc, part, sets, least, plan, conflict, costs)?;
            if best.is_none() || rises > greatest {
                greatest = rises;
                best = Some(*conflict);
            }
        }
    }
    Ok(best)
}

/// How much more the agents of both sides pay there, the lesser number first.
fn rises(
    alloc: Global,
    part: &Part<'_, '_>,
    sets: &[Constraints],
    least: &[u32],
    plan: &Plan,
    conflict: &Conflict,
    costs: &mut KnownCosts,
) -> Result<(u32, u32), NoMemory>
    requires { IsChoice (alone part.now) plan.now conflict.now }
{
    let one = rise(alloc, part, sets, least, plan, conflict, Side::Left, costs)?;
    let other = rise(alloc, part, sets, least, plan, conflict, Side::Right, costs)?;
    Ok((one.min(other), one.max(other)))
}

/// How much more the side's agent pays there; the greatest number where it has no path.
fn rise(
    alloc: Global,
    part: &Part<'_, '_>,
    sets: &[Constraints],
    least: &[u32],
    plan: &Plan,
    conflict: &Conflict,
    side: Side,
    costs: &mut KnownCosts,
) -> Result<u32, NoMemory>
    requires { IsChoice (alone part.now) plan.now conflict.now }
{
    let agent = agent_of(conflict, side);
    let (Some(set), Some(least)) = (sets.get(agent), least.get(agent)) else {
        return Ok(0);
    };
    let more = set.with(constraint_of(conflict, side))?;
    let found = costs.cost_under(alloc, part, agent, &more)?;
    Ok(found.map_or(u32::MAX, |cost| cost.saturating_sub(*least)))
}
