//! Which answer of a problem is wanted: that of the first solution, or any optimum.

ghost use Rattle.std.specs.Prelude.{IfOk};
ghost use Rattle.mapf_optimum.specs.AnyAnswer.{IsAnyAnswer};
ghost use Rattle.mapf_solve.specs.Wanted.{IsWanted};

use crate::means::Means;
use crate::rounds::root_paths;
use crate::solving::solve_in_sessions;
use crate::{NoWatch, Watch};
use mapf_board::{AlwaysGrants, Gate};
use mapf_bounds::solve_by_bounds;
use mapf_grid::NoMemory;
use mapf_optimum::{solve_any, solve_any_from};
use mapf_plan::Answer;
use mapf_tree::Problem;
use std::alloc::Global;
use std::marker::Brand;
use std::thread::Threads;

/// Which answer of a problem is wanted.
#[derive(Clone, Copy)]
pub(crate) enum Wanted {
    /// The plan of the constraint tree's first solution.
    FirstSolution,
    /// A plan that costs least, whichever of several.
    AnyOptimum,
}

/// The answer that is wanted, where the jobs before had the agents' numbers. For any optimum the root's paths are the jobs of a round,
/// and the search goes on alone.
pub(crate) fn solve_wanted<R: Threads + Sync, G: Gate, W: Watch>(
    means: &Means<'_, R, G, AlwaysGrants>,
    problem: &Problem,
    wanted: Wanted,
    watch: &mut W,
) -> Result<Answer, NoMemory>
    ensures wanted { IfOk result (IsWanted wanted problem.now) }
    ensures any { IfOk result (IsAnyAnswer problem.now) }
{
    let next = problem.instance().agents() as u64;
    match wanted {
        Wanted::FirstSolution => solve_in_sessions::<Brand, R, G, AlwaysGrants, W>(
            means, problem, next, watch,
        ),
        Wanted::AnyOptimum => {
            let paths = root_paths(means, problem, next)?;
            solve_any_from(means.alloc, problem, paths, watch)
        }
    }
}

/// The same on this thread alone, where no watch is told.
pub(crate) fn solve_wanted_alone(
    alloc: Global,
    problem: &Problem,
    wanted: Wanted,
) -> Result<Answer, NoMemory>
    ensures wanted { IfOk result (IsWanted wanted problem.now) }
    ensures any { IfOk result (IsAnyAnswer problem.now) }
{
    match wanted {
        Wanted::FirstSolution => solve_by_bounds(alloc, problem),
        Wanted::AnyOptimum => solve_any(alloc, problem, &mut NoWatch),
    }
}
