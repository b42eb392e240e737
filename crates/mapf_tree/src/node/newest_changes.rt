//! The newest changes of a chain, which a node has by itself.

ghost use Rattle.std.specs.Prelude.{◌≡◌, ◌<◌, ◌≤◌, ◌↔◌, [], ◌∷◌, ◌++◌, length, map, IfOk, IsTrue};
ghost use Rattle.std.specs.Arc.{arc_value};

use crate::node::change::Change;
use mapf_grid::NoMemory;
use std::marker::Model;
use std::sync::Arc;

/// Up to three changes, in their order.
#[derive(Drop)]
enum Held {
    Nothing,
    One([Arc<Change>; 1]),
    Two([Arc<Change>; 2]),
    Three([Arc<Change>; 3]),
}

/// The newest changes of a chain, which a node has by itself, at most three.
///
/// They stand in the node, so a node that waits takes no memory apart for them.
#[derive(Drop)]
pub(crate) struct NewestChanges {
    held: Held,
}

impl Model for NewestChanges {
    ghost use Rattle.std.specs.Prelude.{List};
    ghost use Rattle.mapf_tree.specs.Nodes.{Changed};
    ghost use Rattle.mapf_tree.specs.NewestChanges.{held_in};

    ghost Value = { List Changed };

    ghost view = { λ o. held_in o.held };
}

impl NewestChanges {
    /// No change.
    pub(crate) fn none() -> NewestChanges
        ensures { result ≡ [] }
    {
        NewestChanges {
            held: Held::Nothing,
        }
    }

    /// The changes.
    pub(crate) fn as_slice(&self) -> &[Arc<Change>]
        ensures { map arc_value result.now ≡ self.now }
    {
        match &self.held {
            Held::Nothing => &[],
            Held::One(changes) => changes,
            Held::Two(changes) => changes,
            Held::Three(changes) => changes,
        }
    }

    /// Whether there are as many as may be.
    pub(crate) fn is_full(&self) -> bool
        ensures { IsTrue result ↔ (3 ≤ length self.now) }
    {
        self.as_slice().len() >= 3
    }

    /// The same changes, shared once more, and another one, for which there is room.
    pub(crate) fn with(&self, change: Arc<Change>) -> Result<NewestChanges, NoMemory>
        requires { length self.now < 3 }
        ensures { IfOk result (λ newest. newest ≡ self.now ++ change.value ∷ []) }
    {
        let held = match self.as_slice() {
            [] => Held::One([change]),
            [a] => Held::Two([Arc::try_clone(a)?, change]),
            [a, b] => Held::Three([Arc::try_clone(a)?, Arc::try_clone(b)?, change]),
            _ => unreachable!(),
        };
        Ok(NewestChanges { held })
    }
}
