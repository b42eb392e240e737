use mapf_low::Constraint;
use mapf_plan::Path;
use std::marker::Model;
use std::sync::Arc;

/// What one turn of a node's name changed: an agent is forbidden something more, and has another path from then on.
#[derive(Drop)]
pub(crate) struct Change {
    pub(crate) agent: usize,
    pub(crate) constraint: Constraint,
    pub(crate) path: Arc<Path>,
    /// A guess of the number of the agent's extension.
    pub(crate) extension: usize,
}

impl Model for Change {
    ghost use Rattle.mapf_low.specs.Kept.{HasTwoEnds};
    ghost use Rattle.mapf_tree.specs.Nodes.{Changed};

    ghost Value = { Changed };

    ghost view = { λ c. record { agent = c.agent; constraint = c.constraint; path = c.path.value } };

    ghost invariant = { λ c. HasTwoEnds c.constraint };
}
