//! The low-level search for the own path that a side asks for: forwards, or backwards by distances from its agent's start.

ghost use Rattle.std.specs.Prelude.{IfOk, option_map};
ghost use Rattle.mapf_tree.specs.Prelude.{arc_value, IfKnown};

use crate::tree::family::own_path;
use crate::tree::side_query::SideQuery;
use mapf_grid::NoMemory;
use mapf_low::{Backwards, Lookup, cheapest_backwards};
use mapf_plan::Path;
use std::alloc::Global;
use std::sync::Arc;

/// So many dead ends a search backwards may meet before it is given up.
const MOST_DEAD_ENDS: usize = 1_000;

impl<'p> SideQuery<'p> {
    ghost use Rattle.mapf_tree.specs.Prelude.{IsFoundBy};

    /// The own path that it asks for; none where there is none. It is looked for backwards first if there is a table of distances
    /// from the agent's start, until too many dead ends were met.
    pub fn own_path(&self, alloc: Global) -> Result<Option<Arc<Path>>, NoMemory>
        ensures { IfOk result (λ found. IsFoundBy self.now (option_map arc_value found)) }
    {
        let found = match self.backwards(alloc)? {
            Lookup::Known(found) => found,
            Lookup::Unknown => {
                let agent = self.agent;
                own_path(alloc, self.problem, agent, &self.constraints, self.bound)?
            }
        };
        match found {
            Some(path) => Ok(Some(Arc::new(alloc, path)?)),
            None => Ok(None),
        }
    }

    /// The same, looked for backwards. Unknown where there is no table, or too many dead ends were met.
    fn backwards(&self, alloc: Global) -> Result<Lookup<Option<Path>>, NoMemory>
        ensures { IfOk result (λ answer. IfKnown answer (IsFoundBy self.now)) }
    {
        let Some(from_start) = self.from_start.as_deref() else {
            return Ok(Lookup::Unknown);
        };
        let instance = self.problem.instance();
        cheapest_backwards(
            alloc,
            instance.map(),
            instance.start(self.agent),
            instance.goal(self.agent),
            &self.constraints,
            self.bound,
            &Backwards {
                from_start,
                least: self.least,
                budget: MOST_DEAD_ENDS,
            },
        )
    }
}
