//! What a search knows of the cost of all plans, and what it answers where it may take no more nodes.

ghost use Rattle.std.specs.Prelude.{◌≡◌, [], IsErr, IfSome, MatchOption};
ghost use Rattle.mapf_tree.specs.Prelude.{Problem, IsLimit, AllStand, IsLeastCost, IsLeastWaiting, least_stated, IsGivenUp, GoesUpTo};

use crate::{OpenList, Problem, Search};
use mapf_plan::Answer;

impl<'p> Search<'p> {
    ghost use Rattle.mapf_tree.specs.Prelude.{IsLowerBound, IsBelowAll};

    /// What each plan without conflict costs at least: what the least waiting node costs, or more than the bound where none
    /// waits; with an answer, what that states. None after memory ran out.
    pub fn lower_bound(&self) -> Option<u64>
        ensures is { MatchOption result (IsErr self.now.outcome)
            (IsLowerBound self.now.problem self.now.waiting self.now.outcome) }
        ensures below { IfSome result (IsBelowAll self.now.problem) }
    {
        match &self.outcome {
            Ok(None) => Some(least_waiting(self.problem, &self.waiting)),
            Ok(Some(answer)) => Some(least_stated(answer)),
            Err(_) => None,
        }
    }
}

/// What a search answers that has taken so many nodes: that it gives up, where it may take no more and a node waits.
/// None where it goes on.
pub(crate) fn answer_at_limit(problem: &Problem, waiting: &OpenList, taken: u64) -> Option<Answer>
    requires { AllStand problem.now waiting.now }
    ensures limit { IsLimit problem.now.nodes }
    ensures goes_on { MatchOption result (GoesUpTo problem.now waiting.now taken)
        (IsGivenUp problem.now waiting.now taken) }
{
    let nodes = problem.nodes()?;
    if taken < nodes {
        return None;
    }
    let least = least_cost(waiting)?;
    Some(Answer::GaveUp { nodes, least })
}

/// The cost of the least node that waits; none where none waits.
fn least_cost(waiting: &OpenList) -> Option<u64>
    ensures { MatchOption result (waiting.now ≡ []) (λ least.
        (p : Problem) → AllStand p waiting.now → IsLeastCost p waiting.now least) }
{
    match waiting.first(1).next() {
        Some(node) => Some(node.key().cost),
        None => None,
    }
}

/// The cost of the least node that waits, or more than the bound where none waits.
fn least_waiting(problem: &Problem, waiting: &OpenList) -> u64
    requires { AllStand problem.now waiting.now }
    ensures { IsLeastWaiting problem.now waiting.now result }
{
    match least_cost(waiting) {
        Some(least) => least,
        None => u64::from(problem.bound()) + 1,
    }
}

/// What an answer states that each plan without conflict costs at least: what its plan costs, more than its bound, or what waited.
pub fn least_stated(answer: &Answer) -> u64
    ensures { result ≡ least_stated answer.now }
{
    match answer {
        Answer::Plan { stated, .. } => *stated,
        Answer::None { bound } => u64::from(*bound) + 1,
        Answer::GaveUp { least, .. } => *least,
    }
}
