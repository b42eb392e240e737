//! What is known of own paths.

ghost use Rattle.std.specs.Prelude.{◌≤◌, IfSome};
ghost use Rattle.mapf_tree.specs.Prelude.{IfKnown, HasSet, IsNumberOf, IsOwnIn, TellsUpTo};

use crate::SideQuery;
use crate::own_paths::constraint_sets::CachedPath;
use crate::own_paths::path_cache::PathCache;
use mapf_low::Lookup;

impl<'p> PathCache<'p> {
    /// The number of a query's set, where the own path that it asks for is known.
    pub(crate) fn find_set(&self, query: &SideQuery<'p>) -> Option<usize>
        requires { query.now.bound ≤ self.now.problem.bound }
        ensures set { IfSome result (λ set. HasSet self.now.sets set query.now.agent query.now.constraints) }
        ensures told { IfSome result (λ set. TellsUpTo self.now.sets set query.now.bound) }
    {
        let set = self.sets.find(query.agent(), query.constraints())?;
        match self.find_own_path(set, query.bound()) {
            Lookup::Known(_) => Some(set),
            Lookup::Unknown => None,
        }
    }

    /// The number of the own path under a set, at a cost of at most the bound; none where there is no such path.
    pub(crate) fn find_own_path(&self, set: usize, bound: u32) -> Lookup<Option<usize>>
        requires { bound ≤ self.now.problem.bound }
        ensures own { IfKnown result (IsOwnIn self.now set bound) }
        ensures number { IfKnown result (λ found. IfSome found (IsNumberOf self.now.sets set)) }
        ensures told { IfKnown result (λ _. TellsUpTo self.now.sets set bound) }
    {
        let Some(known) = self.sets.get(set) else {
            return Lookup::Unknown;
        };
        match &known.own {
            CachedPath::Path(number, path) if path.cost() <= bound => Lookup::Known(Some(*number)),
            CachedPath::Path(..) => Lookup::Known(None),
            CachedPath::NoneWithin(least) if bound <= *least => Lookup::Known(None),
            CachedPath::NoneWithin(_) => Lookup::Unknown,
        }
    }
}
