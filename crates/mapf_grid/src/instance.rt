ghost use Rattle.std.specs.Prelude.{◌≡◌, ◌≢◌, ◌<◌, ◌≤◌, length, slice_index, IfOk, IfErr, MatchResult};

mod agents;
mod taken;

use crate::{Cell, InstanceFault, Map, Scenario};
use agents::places_of;
use std::alloc::Global;
use std::marker::Model;

/// The greatest number of agents of an instance.
pub const MOST_AGENTS: u64 = 1_000;

/// What is to be solved: a map, and each agent's start and goal.
///
/// Agent i is row i of a scenario. All starts are free and distinct, and so are all goals.
pub struct Instance {
    map: Map,
    starts: Vec<Cell>,
    goals: Vec<Cell>,
}

// By hand, so that a proof about what holds one sees a call where it is dropped, and not its fields.
impl Drop for Instance {
    fn drop(self) {
        let Instance {
            map: _,
            starts: _,
            goals: _,
        } = self;
    }
}

impl Model for Instance {
    ghost use Rattle.mapf_grid.specs.Instance.{Instance as Places};
    ghost use Rattle.mapf_grid.specs.InstanceLaws.{IsSound};

    ghost Value = { Places };

    ghost view = { λ i. record { grid = i.map; starts = i.starts.items; goals = i.goals.items } };

    ghost invariant = { λ i. IsSound (record { grid = i.map; starts = i.starts.items; goals = i.goals.items }) };
}

impl Instance {
    ghost use Rattle.mapf_grid.specs.Grid.{IsFree, cells};
    ghost use Rattle.mapf_grid.specs.Instance.{Instance as Places, IsInstance, IsInstanceFault};
    ghost use Rattle.mapf_grid.specs.InstanceLaws.{IsSound};

    /// The instance of the first rows of a scenario, one for each agent. Later rows are not looked at.
    ///
    /// An error gives the map back. It is `AgentCount` for no agent or over 1,000, `TooFewRows`, or the first fault
    /// of the first faulty row; and `NoMemory` when memory runs out.
    pub fn new(
        alloc: Global,
        map: Map,
        scenario: &Scenario,
        agents: u64,
    ) -> Result<Instance, (Map, InstanceFault)>
        ensures found { IfOk result (IsInstance map scenario.now agents) }
        ensures back { IfErr result (λ e. e.0 ≡ map) }
        ensures fault { IfErr result (λ e. e.1 ≢ InstanceFault.NoMemory → IsInstanceFault map scenario.now agents e.1) }
        ensures only { (inst : Places) → IsInstance map scenario.now agents inst
            → MatchResult result (λ i. i ≡ inst) (λ e. e.1 ≡ InstanceFault.NoMemory) }
    {
        match places_of(alloc, &map, scenario.rows(), agents) {
            Ok((starts, goals)) => Ok(Instance { map, starts, goals }),
            Err(fault) => Err((map, fault)),
        }
    }

    /// The map.
    pub fn map(&self) -> &Map
        ensures map { result.now ≡ self.now.grid }
        ensures sound { IsSound self.now }
    {
        &self.map
    }

    /// How many agents there are: 1 to 1,000.
    pub fn agents(&self) -> usize
        ensures agents { result ≡ length self.now.starts }
        ensures sound { IsSound self.now }
    {
        self.starts.len()
    }

    /// Where agent `i` starts: a free cell of the map.
    pub fn start(&self, i: usize) -> Cell
        requires { i < length self.now.starts }
        ensures start { result ≡ slice_index self.now.starts i }
        ensures free { IsFree self.now.grid result }
        ensures inside { result < cells self.now.grid }
    {
        self.starts[i]
    }

    /// Where agent `i` is to go: a free cell of the map.
    pub fn goal(&self, i: usize) -> Cell
        requires { i < length self.now.starts }
        ensures goal { result ≡ slice_index self.now.goals i }
        ensures free { IsFree self.now.grid result }
        ensures inside { result < cells self.now.grid }
    {
        self.goals[i]
    }
}
