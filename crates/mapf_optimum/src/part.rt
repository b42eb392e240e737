//! Some agents of a problem by themselves.

ghost use Rattle.std.specs.Prelude.{◌≡◌, ℕ, ◌<◌, ◌≤◌, List, length, map, slice_index, IfOk};
ghost use Rattle.mapf_plan.specs.Path.{cost};
ghost use Rattle.mapf_plan.specs.declared.answer.TheConstants.{MOST_BOUND};
ghost use Rattle.mapf_tree.specs.Problem.{Problem};
ghost use Rattle.mapf_tree.specs.Tree.{IsAllowedFor};
ghost use Rattle.mapf_optimum.specs.Together.{agent_of};
ghost use Rattle.mapf_optimum.specs.FreeSearch.{IsLeastWithin};
ghost use Rattle.mapf_optimum.specs.FreeTree.{IsGroup};
ghost use Rattle.mapf_optimum.specs.Groups.{alone, part_of};

use crate::low_level::LowLevel;
use crate::together::Agent;
use mapf_grid::{Cell, Map, NoMemory};
use mapf_low::Constraints;
use mapf_plan::{Path, Rule};
use std::alloc::Global;
use std::marker::Model;

/// Some agents of a problem, each once: agents 0, 1 and so on of a problem of their own, with the same bound.
pub struct Part<'a, 'p> {
    low: &'a LowLevel<'p>,
    agents: Vec<usize>,
}

// By hand, so that a proof about what holds one sees a call where it is dropped, and not its fields.
impl<'a, 'p> Drop for Part<'a, 'p> {
    fn drop(self) {
        let Part { low: _, agents: _ } = self;
    }
}

impl<'a, 'p> Model for Part<'a, 'p> {
    ghost use Rattle.std.specs.Prelude.{length};
    ghost use Rattle.mapf_optimum.specs.FreeTree.{IsGroup};
    ghost use Rattle.mapf_optimum.specs.Groups.{Part};

    ghost Value = { Part };

    ghost view = { λ p. record { problem = p.low.now; agents = p.agents.items } };

    ghost invariant = { λ p. IsGroup (length p.low.now.inst.starts) p.agents.items };
}

impl<'a, 'p> Part<'a, 'p> {
    /// All agents of the problem.
    pub(crate) fn whole(alloc: Global, low: &'a LowLevel<'p>) -> Result<Part<'a, 'p>, NoMemory>
        ensures problem { IfOk result (λ part. part.problem ≡ low.now) }
        ensures all { IfOk result (λ part. alone part ≡ low.now) }
    {
        let agents = all_below(alloc, low.problem().instance().agents())?;
        Ok(Part { low, agents })
    }

    /// These agents of the problem.
    pub(crate) fn of(low: &'a LowLevel<'p>, agents: Vec<usize>) -> Part<'a, 'p>
        requires { IsGroup (length low.now.inst.starts) agents.items }
        ensures { result ≡ record { problem = low.now; agents = agents.items } }
    {
        Part { low, agents }
    }

    /// Some of the part's agents by themselves.
    pub(crate) fn part(&self, alloc: Global, agents: &[usize]) -> Result<Part<'a, 'p>, NoMemory>
        requires { IsGroup (length self.now.agents) agents.now }
        ensures problem { IfOk result (λ part. part.problem ≡ self.now.problem) }
        ensures few { IfOk result (λ part. length part.agents ≡ length agents.now) }
        ensures alone { IfOk result (λ part. alone part ≡ part_of (alone self.now) agents.now) }
    {
        let members = members_of(alloc, &self.agents, agents)?;
        Ok(Part {
            low: self.low,
            agents: members,
        })
    }

    /// The problem, with what its paths are searched by.
    pub(crate) fn low(&self) -> &'a LowLevel<'p>
        ensures { result.now ≡ self.now.problem }
    {
        self.low
    }

    /// The agents' numbers in the problem.
    pub(crate) fn agents(&self) -> &[usize]
        ensures numbers { result.now ≡ self.now.agents }
        ensures inside { IsGroup (length self.now.problem.inst.starts) self.now.agents }
    {
        &self.agents
    }

    /// By which rule plans have conflicts.
    pub(crate) fn rule(&self) -> Rule
        ensures { result ≡ (alone self.now).rule }
    {
        self.low.rule()
    }

    /// What a plan of them may cost at most.
    pub(crate) fn bound(&self) -> u32
        ensures bound { result ≡ (alone self.now).bound }
        ensures small { result ≤ MOST_BOUND }
    {
        self.low.bound()
    }

    /// The map.
    pub(crate) fn map(&self) -> &Map
        ensures { result.now ≡ (alone self.now).inst.grid }
    {
        self.low.problem().instance().map()
    }

    /// Where one of its agents begins.
    pub(crate) fn start(&self, agent: usize) -> Cell
        requires { agent < length self.now.agents }
        ensures { result ≡ slice_index (alone self.now).inst.starts agent }
    {
        self.low.problem().instance().start(self.agents[agent])
    }

    /// Where it goes.
    pub(crate) fn goal(&self, agent: usize) -> Cell
        requires { agent < length self.now.agents }
        ensures { result ≡ slice_index (alone self.now).inst.goals agent }
    {
        self.low.problem().instance().goal(self.agents[agent])
    }

    /// Whether it is all agents.
    pub(crate) fn is_whole(&self) -> bool {
        self.agents.len() == self.low.problem().instance().agents()
    }

    /// One of its agents under these constraints, whose path costs so much at least.
    pub(crate) fn agent<'s>(
        &self,
        agent: usize,
        constraints: &'s Constraints,
        least: u32,
    ) -> Agent<'a, 's>
        requires agent { agent < length self.now.agents }
        ensures { result ≡ agent_of (alone self.now).inst.grid constraints.now (slice_index (alone self.now).inst.starts agent)
            (slice_index (alone self.now).inst.goals agent) least }
    {
        let problem = self.low.problem();
        let instance = problem.instance();
        let number = self.agents[agent];
        Agent::new(
            instance.map(),
            problem.distances(number),
            constraints,
            instance.start(number),
            instance.goal(number),
            least,
        )
    }

    /// A least path of the agent under these constraints, at a cost within the bound, where none that it may take costs less than
    /// `least`.
    pub(crate) fn least_path(
        &self,
        alloc: Global,
        agent: usize,
        constraints: &Constraints,
        bound: u32,
        least: u32,
    ) -> Result<Option<Path>, NoMemory>
        requires agent { agent < length self.now.agents }
        requires small { bound ≤ MOST_BOUND }
        requires least { (path : List ℕ)
            → IsAllowedFor (record (alone self.now) { bound = bound }) agent constraints.now path → least ≤ cost path }
        ensures { IfOk result (IsLeastWithin (alone self.now) bound agent constraints.now) }
    {
        self.low
            .least_path(alloc, self.agents[agent], constraints, bound, least)
    }
}

/// All of so many agents.
pub(crate) fn all_below(alloc: Global, agents: usize) -> Result<Vec<usize>, NoMemory>
    ensures long { IfOk result (λ all. length all.items ≡ agents) }
    ensures each { IfOk result (λ all. (i : ℕ) → i < agents → slice_index all.items i ≡ i) }
{
    let mut all = Vec::new(alloc);
    for agent in 0..agents {
        all.push(agent)?;
    }
    Ok(all)
}

/// The members at these places.
fn members_of(alloc: Global, all: &[usize], places: &[usize]) -> Result<Vec<usize>, NoMemory>
    requires { (k : ℕ) → k < length places.now → slice_index places.now k < length all.now }
    ensures { IfOk result (λ members. members.items ≡ map (λ k. slice_index all.now k) places.now) }
{
    let mut members = Vec::new(alloc);
    for place in places {
        members.push(all[*place])?;
    }
    Ok(members)
}
