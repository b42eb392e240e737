ghost use Rattle.std.specs.Prelude.{◌≡◌, IfOk, OnOk};
ghost use Rattle.mapf_tree.specs.Prelude.{IsAddedIfSome, TakesLeast, AllStand};

use crate::{Children, Node, OpenList, Problem};
use mapf_grid::NoMemory;
use mapf_plan::Plan;

/// What came of the least waiting node.
#[derive(Drop)]
pub(crate) enum Expansion {
    /// No node waits.
    Empty,
    /// The taken node's plan has no conflict.
    Solved { node: Node, plan: Plan },
    /// The taken node's children wait now.
    Branched(Node),
}

/// Takes the least waiting node, and puts its children in if its plan has a conflict.
pub(crate) fn expand_least<C: Children>(
    problem: &Problem,
    waiting: &mut OpenList,
    children: &mut C,
) -> Result<Expansion, NoMemory>
    requires serves { C.serves children.old problem.now }
    requires nodes { AllStand problem.now waiting.old }
    ensures serves { C.serves children.new problem.now }
    ensures expanded { IfOk result (TakesLeast problem.now waiting.old waiting.new) }
{
    children.ahead(problem, waiting);
    let Some(node) = waiting.take_least() else {
        return Ok(Expansion::Empty);
    };
    if node.conflict().is_none() {
        let plan = node.plan(node.allocator())?;
        return Ok(Expansion::Solved { node, plan });
    }
    let node = node.share_changes();
    let (left, right) = children.both(problem, &node)?;
    add_if_some(waiting, left)?;
    add_if_some(waiting, right)?;
    Ok(Expansion::Branched(node))
}

/// Adds a node, if there is one.
pub(crate) fn add_if_some(waiting: &mut OpenList, node: Option<Node>) -> Result<(), NoMemory>
    ensures { OnOk result (IsAddedIfSome waiting.old node waiting.new) }
{
    if let Some(node) = node {
        waiting.put(node).map_err(|_refused| NoMemory)?;
    }
    Ok(())
}
