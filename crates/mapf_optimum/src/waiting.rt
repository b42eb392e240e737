//! The nodes that wait, the least label first.

ghost use Rattle.std.specs.Prelude.{◌≡◌, [], ◌++◌, OnOk, IsPermutation};
ghost use Rattle.std.specs.Option.{option_to_list};
ghost use Rattle.mapf_optimum.specs.FreeSearch.{IsTaken};

use crate::FreeNode;
use mapf_grid::NoMemory;
use std::alloc::Global;
use std::collections::BinaryHeap;
use std::marker::Model;

/// The nodes that wait.
pub(crate) struct Waiting {
    heap: BinaryHeap<FreeNode>,
}

// By hand, so that a proof about what holds one sees a call where it is dropped, and not its fields.
impl Drop for Waiting {
    fn drop(self) {
        let Waiting { heap: _ } = self;
    }
}

impl Model for Waiting {
    ghost use Rattle.std.specs.Prelude.{List};
    ghost use Rattle.std.specs.BinaryHeap.{heap_items, IsHeap};
    ghost use Rattle.mapf_optimum.specs.FreeTree.{FreeNode};
    ghost use Rattle.mapf_optimum.specs.FreeSearch.{by_label};

    ghost Value = { List FreeNode };

    ghost view = { λ w. heap_items w.heap };

    ghost invariant = { λ w. IsHeap by_label (heap_items w.heap) };
}

impl Waiting {
    /// No node waits.
    pub(crate) fn new(alloc: Global) -> Waiting
        ensures { result ≡ [] }
    {
        Waiting {
            heap: BinaryHeap::new(alloc),
        }
    }

    /// Puts a node in, if there is one.
    pub(crate) fn put(&mut self, node: Option<FreeNode>) -> Result<(), NoMemory>
        ensures { OnOk result (IsPermutation (option_to_list node ++ self.old) self.new) }
    {
        if let Some(node) = node {
            self.heap.push(node)?;
        }
        Ok(())
    }

    /// Takes a node of the least label out; none where no node waits.
    pub(crate) fn take_least(&mut self) -> Option<FreeNode>
        ensures { IsTaken self.old result self.new }
    {
        self.heap.pop()
    }
}
