//! What groups of agents cost together at least.

ghost use Rattle.std.specs.Prelude.{◌≡◌, ℕ, ◌<◌, ◌^◌, ◌-◌, false, List, length, min, slice_index, slice_index_or, sum_by, Contains, IfOk, IsFalse, IsTrue};
ghost use Rattle.mapf_optimum.specs.FreeTree.{IsGroup};
ghost use Rattle.mapf_optimum.specs.Groups.{AreChosen, AreGroups, AreOf, IsBoundBy, Takes, costs_in, surplus};
ghost use Rattle.mapf_optimum.specs.declared.group_bound.GroupBound.{GroupBound};

use mapf_grid::NoMemory;
use std::alloc::Global;

/// Some agents, and what their paths cost together at least.
#[derive(Drop)]
pub struct GroupBound {
    /// Their numbers, each once.
    pub agents: Vec<usize>,
    /// What their paths cost, added up, at least.
    pub least: u64,
    /// Whether the plan that is shown has paths of theirs without a conflict.
    pub is_solved: bool,
}

impl GroupBound {
    /// These agents, of rising numbers, and what they cost at least.
    pub fn of(
        alloc: Global,
        agents: &[usize],
        least: u64,
        is_solved: bool,
    ) -> Result<GroupBound, NoMemory>
        ensures agents { IfOk result (λ group. group.agents.items ≡ agents.now) }
        ensures least { IfOk result (λ group. group.least ≡ least) }
    {
        Ok(GroupBound {
            agents: Vec::from_slice(alloc, agents)?,
            least,
            is_solved,
        })
    }

    /// How much more they cost at least than each alone, where each agent costs so much alone.
    pub fn surplus(&self, costs: &[u32]) -> u64
        ensures { result ≡ surplus costs.now self.now }
    {
        self.least.saturating_sub(sum_alone(&self.agents, costs))
    }
}

/// What agents cost together at least, of which each costs so much alone: groups without a common agent are chosen that cost more than
/// their agents alone, the last ones first.
///
/// An error is that memory ran out.
pub fn least_of_groups(alloc: Global, costs: &[u32], groups: &[GroupBound]) -> Result<u64, NoMemory>
    requires { (g : GroupBound) → Contains groups.now g → IsGroup (length costs.now) g.agents.items }
    ensures { IfOk result (IsBoundBy costs.now groups.now) }
{
    let mut taken = vec![in alloc; false; costs.len()]?;
    let sum = add_groups(costs, groups, &mut taken);
    Ok(add_alone(costs, &mut taken, sum))
}

/// Marks the agents of dear groups, and answers what these cost.
fn add_groups(costs: &[u32], groups: &[GroupBound], taken: &mut Vec<bool>) -> u64
    requires groups { AreGroups (length costs.now) groups.now }
    requires taken { AreChosen costs.now groups.now taken.old.items 0 }
    ensures { AreChosen costs.now groups.now taken.new.items result }
{
    let mut sum = 0_u64;
    for place in 0..groups.len() {
        let group = &groups[groups.len() - 1 - place];
        if group.surplus(costs) > 0 && take(taken, &group.agents) {
            sum = sum.saturating_add(group.least);
        }
    }
    sum
}

/// Adds what each agent without a mark costs alone.
fn add_alone(costs: &[u32], taken: &mut Vec<bool>, before: u64) -> u64
    requires { length taken.old.items ≡ length costs.now }
    ensures { (groups : List GroupBound) → AreChosen costs.now groups taken.old.items before
        → AreChosen costs.now groups taken.new.items result }
{
    let mut sum = before;
    for agent in 0..costs.len() {
        if !taken[agent] {
            taken[agent] = true;
            sum = sum.saturating_add(u64::from(costs[agent]));
        }
    }
    sum
}

/// What these agents cost alone, added up, or the greatest number, where that is less.
fn sum_alone(agents: &[usize], costs: &[u32]) -> u64
    ensures { result ≡ min (sum_by (λ c. c) (costs_in costs.now agents.now)) (2 ^ 64 - 1) }
{
    let mut sum = 0_u64;
    for agent in agents {
        if let Some(cost) = costs.get(*agent) {
            sum = sum.saturating_add(u64::from(*cost));
        }
    }
    sum
}

/// Marks these agents if none has a mark, and says whether it did.
fn take(taken: &mut Vec<bool>, agents: &[usize]) -> bool
    requires { (k : ℕ) → k < length agents.now → slice_index agents.now k < length taken.old.items }
    ensures takes { IsTrue result → Takes agents.now taken.old.items taken.new.items }
    ensures stands { IsFalse result → taken.new.items ≡ taken.old.items }
{
    if !are_free(taken, agents) {
        return false;
    }
    for agent in agents {
        taken[*agent] = true;
    }
    true
}

/// Whether none of these agents has a mark.
fn are_free(taken: &[bool], agents: &[usize]) -> bool
    requires { (k : ℕ) → k < length agents.now → slice_index agents.now k < length taken.now }
    ensures { IsTrue result → (i : ℕ) → Contains agents.now i → slice_index_or taken.now i false ≡ false }
{
    for agent in agents {
        if taken[*agent] {
            return false;
        }
    }
    true
}

/// Whether these agents rise, and are below so many.
pub(crate) fn are_group(agents: &[usize], count: usize) -> bool
    ensures { IsTrue result → IsGroup count agents.now }
{
    let mut next = 0;
    for agent in agents {
        if *agent < next || *agent >= count {
            return false;
        }
        next = *agent + 1;
    }
    true
}

/// The groups, of which those that this agent is in aren't solved.
pub(crate) fn unsolved_with(
    alloc: Global,
    groups: &[GroupBound],
    agent: usize,
) -> Result<Vec<GroupBound>, NoMemory>
    ensures { IfOk result (λ kept. AreOf groups.now kept.items) }
{
    let mut kept = Vec::new(alloc);
    for group in groups {
        let is_solved = group.is_solved && !group.agents.contains(&agent);
        kept.push(GroupBound::of(alloc, &group.agents, group.least, is_solved)?)?;
    }
    Ok(kept)
}

/// Those of the groups that have an agent that isn't one of these; or all but that of these, where their plan isn't shown.
pub(crate) fn groups_without(
    alloc: Global,
    groups: &[GroupBound],
    agents: &[usize],
    is_shown: bool,
) -> Result<Vec<GroupBound>, NoMemory>
    ensures { IfOk result (λ kept. AreOf groups.now kept.items) }
{
    let mut kept = Vec::new(alloc);
    for group in groups {
        let is_within = group.agents.iter().all(|agent| agents.contains(agent));
        if !is_within || !is_shown && group.agents.len() < agents.len() {
            let is_solved = group.is_solved;
            kept.push(GroupBound::of(alloc, &group.agents, group.least, is_solved)?)?;
        }
    }
    Ok(kept)
}

/// The agents of the solved groups that this agent is in.
pub(crate) fn solved_with(
    alloc: Global,
    groups: &[GroupBound],
    agent: usize,
) -> Result<Vec<Vec<usize>>, NoMemory> {
    let mut found = Vec::new(alloc);
    for group in groups {
        if group.is_solved && group.agents.contains(&agent) {
            found.push(Vec::from_slice(alloc, &group.agents)?)?;
        }
    }
    Ok(found)
}
