//! Own paths by the sets of constraints under which they were searched.

ghost use Rattle.std.specs.Prelude.{◌≡◌, []};

mod children;
mod choice;
mod finding;
mod free_conflicts;
mod free_plans;
mod free_search;
mod free_sides;
mod learning;
mod node_numbers;

use crate::Problem;
use crate::own_paths::constraint_sets::ConstraintSets;
use crate::own_paths::path_cache::node_numbers::NodeNumbers;
use mapf_plan::KnownPaths;
use std::alloc::Global;
use std::marker::Model;

/// Own paths that were searched before, by the sets of constraints of their agents.
#[derive(Drop)]
pub(crate) struct PathCache<'p> {
    alloc: Global,
    problem: &'p Problem,
    sets: ConstraintSets,
    paths: KnownPaths,
    /// The number of each agent's empty set, once the root was met.
    firsts: Vec<usize>,
    /// The numbers at the node that was looked at last: the next one has the same paths but for a few.
    latest: Option<NodeNumbers>,
}

impl<'p> Model for PathCache<'p> {
    ghost use Rattle.mapf_tree.specs.Prelude.{PathCache, IsRemembered};

    ghost Value = { PathCache };

    ghost view = { λ b. record { problem = b.problem.now; sets = b.sets; paths = b.paths.paths } };

    ghost invariant = { λ b. IsRemembered b.problem.now b.firsts.items b.latest b.sets b.paths };
}

impl<'p> PathCache<'p> {
    /// Nothing was searched yet.
    pub(crate) fn new(alloc: Global, problem: &'p Problem) -> PathCache<'p>
        ensures { result ≡ record { problem = problem.now; sets = []; paths = [] } }
    {
        PathCache {
            alloc,
            problem,
            sets: ConstraintSets::new(alloc),
            paths: KnownPaths::new(alloc, problem.rule()),
            firsts: Vec::new(alloc),
            latest: None,
        }
    }
}
