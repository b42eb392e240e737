ghost use Rattle.std.specs.Prelude.{◌≡◌, ◌<◌, ◌≤◌, IfOk, IfErr, Some, None, length, slice_index};
ghost use Rattle.mapf_tree.specs.Prelude.{AreDistances, HasDistances, IsLimit, MOST_BOUND, MOST_NODES};
ghost use Rattle.mapf_plan.specs.declared.rule.Rule.TheVariants.{Classical, NoFollowing};

use mapf_grid::{Instance, NoMemory};
use mapf_low::Distances;
use mapf_plan::Rule;
use std::alloc::Global;
use std::marker::Model;

/// What a search solves: an instance, each goal's distances, a bound on the sum of costs, a limit on how many nodes are
/// taken, if there is one, and the rule by which plans have conflicts.
pub struct Problem {
    instance: Instance,
    distances: Vec<Distances>,
    bound: u32,
    nodes: Option<u64>,
    rule: Rule,
}

// By hand, so that a proof about what holds one sees a call where it is dropped, and not its fields.
impl Drop for Problem {
    fn drop(self) {
        let Problem {
            instance: _,
            distances: _,
            bound: _,
            nodes: _,
            rule: _,
        } = self;
    }
}

impl Model for Problem {
    ghost use Rattle.mapf_tree.specs.Prelude.{Problem, IsReady};

    ghost Value = { Problem };

    ghost view = { λ p. record { inst = p.instance; bound = p.bound; nodes = p.nodes; rule = p.rule } };

    ghost invariant = { λ p.
        IsReady (record { inst = p.instance; bound = p.bound; nodes = p.nodes; rule = p.rule }) p.distances.items };
}

impl Problem {
    ghost use Rattle.mapf_grid.specs.InstanceLaws.{IsSound};

    /// The problem of this instance under this bound, by the classical rule; the distances are made.
    pub fn new(
        alloc: Global,
        instance: Instance,
        bound: u32,
    ) -> Result<Problem, (Instance, NoMemory)>
        requires { bound ≤ MOST_BOUND }
        ensures made { IfOk result (λ p.
            p ≡ record { inst = instance; bound = bound; nodes = None; rule = Classical }) }
        ensures err { IfErr result (λ e. e.0 ≡ instance) }
    {
        match distances_to_goals(alloc, &instance) {
            Ok(distances) => Ok(Problem::with(instance, distances, bound)),
            Err(fault) => Err((instance, fault)),
        }
    }

    /// The problem of this instance under this bound, by the classical rule, with the distances to each agent's goal.
    pub fn with(instance: Instance, distances: Vec<Distances>, bound: u32) -> Problem
        requires bound { bound ≤ MOST_BOUND }
        requires distances { HasDistances instance distances.items }
        ensures { result ≡ record { inst = instance; bound = bound; nodes = None; rule = Classical } }
    {
        prove_eq!(distances.len(), instance.agents());
        Problem {
            instance,
            distances,
            bound,
            nodes: None,
            rule: Rule::Classical,
        }
    }

    /// The same problem, where a search takes at most so many nodes. It gives up where it would take one more: the answer
    /// is then [`Answer::GaveUp`](mapf_plan::Answer::GaveUp), with a lower bound on the cost of every plan without conflict.
    pub fn with_nodes(self, nodes: u64) -> Problem
        requires some { 0 < nodes }
        requires few { nodes ≤ MOST_NODES }
        ensures { result ≡ record { inst = self.inst; bound = self.bound; nodes = Some nodes; rule = self.rule } }
    {
        let mut problem = self;
        problem.nodes = Some(nodes);
        problem
    }

    /// The same problem, where besides no agent may enter a cell at the time step at which another leaves it.
    pub fn forbid_following(self) -> Problem
        ensures { result ≡ record { inst = self.inst; bound = self.bound; nodes = self.nodes; rule = NoFollowing } }
    {
        let mut problem = self;
        problem.rule = Rule::NoFollowing;
        problem
    }

    /// What is to be solved.
    pub fn instance(&self) -> &Instance
        ensures instance { result.now ≡ self.now.inst }
        ensures sound { IsSound self.now.inst }
    {
        &self.instance
    }

    /// The distances to an agent's goal.
    pub fn distances(&self, agent: usize) -> &Distances
        requires { agent < length self.now.inst.starts }
        ensures { AreDistances self.now.inst.grid (slice_index self.now.inst.goals agent) result.now }
    {
        &self.distances[agent]
    }

    /// What a plan may cost at most.
    pub fn bound(&self) -> u32
        ensures bound { result ≡ self.now.bound }
        ensures small { result ≤ MOST_BOUND }
    {
        self.bound
    }

    /// How many nodes a search may take, from 1 to 1,000,000; none where there is no limit.
    pub fn nodes(&self) -> Option<u64>
        ensures nodes { result ≡ self.now.nodes }
        ensures limit { IsLimit self.now.nodes }
    {
        self.nodes
    }

    /// By which rule plans have conflicts.
    pub fn rule(&self) -> Rule
        ensures { result ≡ self.now.rule }
    {
        self.rule
    }
}

/// The distances to each agent's goal, agent 0 first.
fn distances_to_goals(alloc: Global, instance: &Instance) -> Result<Vec<Distances>, NoMemory>
    ensures { IfOk result (λ distances. HasDistances instance.now distances.items) }
{
    let mut distances = Vec::with_capacity(alloc, instance.agents())?;
    for agent in 0..instance.agents() {
        distances.push_reserved(Distances::to(alloc, instance.map(), instance.goal(agent))?);
    }
    Ok(distances)
}
