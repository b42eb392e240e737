//! How a node is expanded.

ghost use Rattle.std.specs.Prelude.{OnOk};
ghost use Rattle.mapf_optimum.specs.FreeTree.{IsFreeNode, IsChoice};
ghost use Rattle.mapf_optimum.specs.FreeSearch.{PutsSides};
ghost use Rattle.mapf_optimum.specs.Groups.{alone};

use crate::FreeNode;
use crate::part::Part;
use crate::waiting::Waiting;
use mapf_grid::NoMemory;
use mapf_plan::Conflict;
use mapf_tree::Side;
use std::alloc::Global;

/// Puts the sides of a node in, on a conflict of its plan.
pub(crate) fn expand(
    alloc: Global,
    part: &Part<'_, '_>,
    node: &FreeNode,
    conflict: &Conflict,
    waiting: &mut Waiting,
) -> Result<(), NoMemory>
    requires node { IsFreeNode (alone part.now) node.now }
    requires choice { IsChoice (alone part.now) node.now.plan conflict.now }
    ensures { OnOk result (PutsSides (alone part.now) node.now conflict.now waiting.old waiting.new) }
{
    waiting.put(node.side(alloc, part, conflict, Side::Left)?)?;
    waiting.put(node.side(alloc, part, conflict, Side::Right)?)?;
    Ok(())
}
