ghost use Rattle.std.specs.Prelude.{◌≡◌, IfOk};

use crate::Name;
use mapf_grid::NoMemory;
use std::alloc::Global;

/// Where a node stands in the order of a search: by cost, then by depth, then by name, left before right.
#[derive(Debug, Drop, PartialEq, Eq, PartialOrd, Ord)]
pub struct Key {
    /// The sum of costs of the node's plan.
    pub cost: u64,
    /// How many turns lead from the root to the node.
    pub depth: usize,
    /// These turns, the root's first.
    pub name: Name,
}

impl Key {
    /// An equal key. An error is that memory ran out.
    pub fn copy(&self, alloc: Global) -> Result<Key, NoMemory>
        ensures { IfOk result (λ other. other ≡ self.now) }
    {
        Ok(Key {
            cost: self.cost,
            depth: self.depth,
            name: self.name.copy(alloc)?,
        })
    }
}
