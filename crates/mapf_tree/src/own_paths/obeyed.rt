//! What is found of a node.

use mapf_plan::Path;
use std::sync::Arc;

/// Whether any plan without conflict that costs at most so much obeys a node.
#[derive(Drop)]
pub enum Obeyed {
    /// No such plan does.
    ByNone,
    /// This one does: each agent's path, agent 0's first. It is a guess, of which nothing is proved.
    ByPlan(Vec<Arc<Path>>),
    /// Neither is known.
    Unknown,
}
