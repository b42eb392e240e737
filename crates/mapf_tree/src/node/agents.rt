//! What the agents have at a node: their paths, and what they are forbidden.

ghost use Rattle.std.specs.Prelude.{◌≡◌, ◌↔◌, ◌<◌, ◌≤◌, [], length, slice_index_or, IfOk, IfSome, Contains};
ghost use Rattle.mapf_tree.specs.Prelude.{arc_value, MOST_AGENTS, path_of};

use crate::Node;
use crate::node::current_paths::CurrentPaths;
use mapf_grid::NoMemory;
use mapf_low::Constraints;
use mapf_plan::{AgentPaths, Path, Plan};
use std::alloc::Global;
use std::sync::Arc;

impl Node {
    /// How many agents there are.
    pub(crate) fn agents(&self) -> usize
        ensures agents { result ≡ length self.now.plan }
        ensures some { 0 < result }
        ensures few { result ≤ MOST_AGENTS }
    {
        self.body.chain.root().plan.agents()
    }

    /// An agent's path: that of its last change, or the root's.
    pub(crate) fn path(&self, agent: usize) -> &Path
        requires { agent < length self.now.plan }
        ensures { result.now ≡ path_of self.now.plan agent }
    {
        self.body.chain.path(agent)
    }

    /// An agent's path where the last turn of the name gave it; else none.
    pub(crate) fn last_path(&self, agent: usize) -> Option<&Arc<Path>>
        requires { agent < length self.now.plan }
        ensures { IfSome result (λ path. arc_value path.now ≡ path_of self.now.plan agent) }
    {
        let chain = &self.body.chain;
        let change = chain.at(chain.len().checked_sub(1)?);
        if change.agent == agent {
            Some(&change.path)
        } else {
            None
        }
    }

    /// The agents' paths.
    pub fn paths(&self, alloc: Global) -> Result<CurrentPaths<'_>, NoMemory>
        ensures { IfOk result (λ paths. paths ≡ self.now.plan) }
    {
        self.body.chain.paths(alloc)
    }

    /// What an agent is forbidden.
    pub fn constraints(&self, alloc: Global, agent: usize) -> Result<Constraints, NoMemory>
        requires { agent < length self.now.plan }
        ensures { IfOk result (λ set. (c : _)
            → Contains set c ↔ Contains (slice_index_or self.now.constraints agent []) c) }
    {
        self.body.chain.constraints(alloc, agent)
    }

    /// A copy of the node's plan.
    pub fn plan(&self, alloc: Global) -> Result<Plan, NoMemory>
        ensures { IfOk result (λ plan. plan ≡ self.now.plan) }
    {
        self.paths(alloc)?.plan(alloc)
    }
}
