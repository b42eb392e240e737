//! The nodes that wait, each under a key of a bound.

ghost use Rattle.std.specs.Prelude.{◌≡◌, OnOk, IsTrue, IfOk};
ghost use Rattle.mapf_bounds.specs.Waiting.{IsAdmitted, IsAdmittedOwn, IsAdmittedChild, IsByGroups, is_own};

use crate::LowerBound;
use mapf_grid::NoMemory;
use mapf_optimum::GroupBound;
use mapf_tree::{Key, Node};
use std::alloc::Global;
use std::collections::BTreeMap;
use std::marker::Model;
use std::sync::Arc;

/// How far a node's bound is known.
#[derive(Clone, Copy)]
pub(crate) enum Stage {
    /// By its plan alone.
    Handed,
    /// By its plan and what is known of its parent.
    Inherited,
    /// By its own groups.
    Own,
}

impl Stage {
    /// Whether it is known by the node's own groups.
    pub(crate) fn is_own(self) -> bool
        ensures { result ≡ is_own self }
    {
        matches!(self, Stage::Own)
    }
}

/// A node that waits.
#[derive(Drop)]
pub(crate) struct WaitingNode {
    pub(crate) node: Node,
    pub(crate) stage: Stage,
    /// What groups of its agents cost together at least, of which it is known.
    pub(crate) groups: Arc<Vec<GroupBound>>,
}

impl Model for WaitingNode {
    ghost use Rattle.mapf_bounds.specs.Waiting.{WaitingNode};

    ghost Value = { WaitingNode };

    ghost view = { λ w. record { node = w.node; stage = w.stage; groups = w.groups.value.items } };
}

impl WaitingNode {
    /// The same node, whose bound is known by these groups of its own.
    pub(crate) fn by_groups(self, groups: Arc<Vec<GroupBound>>) -> WaitingNode
        ensures { IsByGroups self groups.value.items result }
    {
        let WaitingNode {
            node,
            stage: _stage,
            groups: _groups,
        } = self;
        WaitingNode {
            node,
            stage: Stage::Own,
            groups,
        }
    }
}

/// Puts a node in under the key of a bound, unless that costs more than `most`.
pub(crate) fn admit(
    alloc: Global,
    most: u64,
    waiting: &mut BTreeMap<Key, WaitingNode>,
    bound: LowerBound,
    entry: WaitingNode,
) -> Result<(), NoMemory>
    ensures { OnOk result (IsAdmitted most waiting.old.entries bound entry waiting.new.entries) }
{
    if bound.cost > most {
        return Ok(());
    }
    let key = Key {
        cost: bound.cost,
        depth: bound.depth,
        name: entry.node.key().name.copy(alloc)?,
    };
    match waiting.insert(key, entry) {
        Ok(_replaced) => Ok(()),
        Err(_refused) => Err(NoMemory),
    }
}

/// Puts a node in by its own cost and depth, where each solution costs at least so much.
pub(crate) fn admit_own(
    alloc: Global,
    least: u64,
    most: u64,
    waiting: &mut BTreeMap<Key, WaitingNode>,
    node: Node,
) -> Result<(), NoMemory>
    ensures { OnOk result (IsAdmittedOwn most least waiting.old.entries node waiting.new.entries) }
{
    let own = LowerBound::own(&node);
    let bound = LowerBound {
        cost: own.cost.max(least),
        depth: own.depth,
    };
    let entry = WaitingNode {
        node,
        stage: Stage::Handed,
        groups: Arc::new(alloc, Vec::new(alloc))?,
    };
    admit(alloc, most, waiting, bound, entry)
}

/// Puts a child in, if there is one, by its own cost and depth, or by what is known of its parent where that is above these.
pub(crate) fn admit_child(
    alloc: Global,
    most: u64,
    waiting: &mut BTreeMap<Key, WaitingNode>,
    known: LowerBound,
    groups: &Arc<Vec<GroupBound>>,
    child: Option<Node>,
) -> Result<(), NoMemory>
    ensures { OnOk result (IsAdmittedChild most waiting.old.entries known groups.now.value.items child waiting.new.entries) }
{
    let Some(node) = child else {
        return Ok(());
    };
    let bound = LowerBound::own(&node).raised(known);
    let entry = WaitingNode {
        node,
        stage: Stage::Inherited,
        groups: Arc::try_clone(groups)?,
    };
    admit(alloc, most, waiting, bound, entry)?;
    Ok(())
}
