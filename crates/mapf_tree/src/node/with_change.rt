//! A node with one change more.

ghost use Rattle.std.specs.Prelude.{◌≡◌, ◌+◌, ◌<◌, ◌≤◌, [], ◌∷◌, ◌++◌, length, slice_set, slice_index_or, IfOk, IsSome};
ghost use Rattle.mapf_tree.specs.Prelude.{cost, path_of, plan_cost, MOST_BOUND, IsConflictOf};

use crate::node::Body;
use crate::node::change::Change;
use crate::node::current_paths::CurrentPaths;
use crate::{Key, Node, Side};
use mapf_grid::NoMemory;
use mapf_plan::{AgentPaths, Conflict, Path, first_conflict_of_changed};
use std::alloc::Global;
use std::sync::Arc;

impl Node {
    /// The node one turn further, whose plan has this first conflict. The changed agent's path costs so much at this node.
    pub(crate) fn with_change(
        &self,
        alloc: Global,
        side: Side,
        change: Arc<Change>,
        old: u32,
        conflict: Option<Conflict>,
    ) -> Result<Node, NoMemory>
        requires agent { change.value.agent < length self.now.plan }
        requires old { old ≡ cost (path_of self.now.plan change.value.agent) }
        requires small { plan_cost (slice_set self.now.plan change.value.agent change.value.path) ≤ MOST_BOUND }
        requires conflict { IsConflictOf self.now.rule
            (slice_set self.now.plan change.value.agent change.value.path) conflict }
        ensures name { IfOk result (λ n. n.name ≡ self.now.name ++ side ∷ []) }
        ensures changes { IfOk result (λ n. n.changes ≡ self.now.changes ++ change.value ∷ []) }
        ensures constraints { IfOk result
            (λ n. n.constraints ≡ slice_set self.now.constraints change.value.agent
            (change.value.constraint ∷ slice_index_or self.now.constraints change.value.agent [])) }
        ensures plan { IfOk result (λ n. n.plan ≡ slice_set self.now.plan change.value.agent change.value.path) }
        ensures rule { IfOk result (λ n. n.rule ≡ self.now.rule) }
        ensures conflict { IfOk result
            (λ n. IsConflictOf self.now.rule (slice_set self.now.plan change.value.agent change.value.path)
            n.conflict) }
    {
        let key = self.key_with(alloc, side, change.agent, old, &change.path)?;
        let body = Body {
            key,
            chain: self.body.chain.with(alloc, change)?,
            conflict,
        };
        Ok(Node {
            body: Arc::new(alloc, body)?,
        })
    }

    /// The key one turn further, where an agent has another path; the old one's cost is given.
    fn key_with(
        &self,
        alloc: Global,
        side: Side,
        agent: usize,
        old: u32,
        path: &Path,
    ) -> Result<Key, NoMemory>
        requires agent { agent < length self.now.plan }
        requires old { old ≡ cost (path_of self.now.plan agent) }
        requires small { plan_cost (slice_set self.now.plan agent path.now) ≤ MOST_BOUND }
        ensures cost { IfOk result (λ key. key.cost ≡ plan_cost (slice_set self.now.plan agent path.now)) }
        ensures depth { IfOk result (λ key. key.depth ≡ length self.now.name + 1) }
        ensures name { IfOk result (λ key. key.name ≡ self.now.name ++ side ∷ []) }
    {
        let name = self.body.key.name.with(alloc, side)?;
        let others = self.body.key.cost - u64::from(old);
        Ok(Key {
            cost: others + u64::from(path.cost()),
            depth: name.len(),
            name,
        })
    }

    /// The first conflict of the node's plan where an agent has another path.
    pub(crate) fn conflict_with(
        &self,
        alloc: Global,
        agent: usize,
        path: &Path,
    ) -> Result<Option<Conflict>, NoMemory>
        requires agent { agent < length self.now.plan }
        requires conflict { IsSome self.now.conflict }
        ensures { IfOk result (IsConflictOf self.now.rule (slice_set self.now.plan agent path.now)) }
    {
        Ok(self.first_conflict_with(self.paths(alloc)?, agent, path))
    }

    /// The first conflict where an agent's path is another: no two agents have one before the time of this node's as long as
    /// that path is the old one, and the others have none before it at all.
    #[tactic(auto, using(mapf_plan::proofs::Conflicts::none_before_change))]
    fn first_conflict_with<'a>(
        &'a self,
        mut paths: CurrentPaths<'a>,
        agent: usize,
        path: &'a Path,
    ) -> Option<Conflict>
        requires paths { paths ≡ self.now.plan }
        requires agent { agent < length self.now.plan }
        requires conflict { IsSome self.now.conflict }
        ensures { IsConflictOf self.now.rule (slice_set self.now.plan agent path.now) result }
    {
        let time = self.body.conflict.unwrap().time();
        let from = path.shared_steps(paths.path(agent)).min(time);
        paths.set(agent, path);
        first_conflict_of_changed(&paths, self.body.chain.root().rule, agent, from, time)
    }
}
