//! The answer of a problem, by keys alone.

ghost use Rattle.mapf_tree.specs.Prelude.{IfOk, IsAnswerOf, IsBestAnswer};

use crate::{OwnPaths, Problem, Search};
use mapf_grid::NoMemory;
use mapf_plan::Answer;
use std::alloc::Global;

/// Solves a problem on this thread: it takes the nodes of the constraint tree in the order of their keys, up to the answer.
///
/// The answer is the plan of the tree's first solution, which has no conflict by the problem's rule and costs least of all such plans;
/// or none, exactly where no plan without conflict costs at most the bound. With a limit on nodes it may be that the search gave up.
/// An error is that memory ran out.
pub fn solve_alone(alloc: Global, problem: &Problem) -> Result<Answer, NoMemory>
    ensures answer { IfOk result (IsAnswerOf problem.now) }
    ensures best { IfOk result (IsBestAnswer problem.now) }
{
    let mut paths = OwnPaths::new(alloc, problem)?;
    Search::new(alloc, problem)?.finish(&mut paths)
}
