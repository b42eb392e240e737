//! What groups of agents cost together, by what they are forbidden: each is searched once, as long as it is remembered.

ghost use Rattle.std.specs.Prelude.{◌≡◌, [], Contains, IfOk, IfSome};
ghost use Rattle.mapf_optimum.specs.FreeTree.{IsLowerBoundOf};
ghost use Rattle.mapf_optimum.specs.Groups.{AreKnown, alone, part_of};
ghost use Rattle.mapf_optimum.specs.declared.group_costs.KnownGroup.{KnownGroup};

mod comparing;

use crate::agents::{copy_paths, copy_sets};
use crate::part::Part;
use comparing::{are_same_agents, are_same_sets, are_within};
use mapf_grid::NoMemory;
use mapf_low::Constraints;
use mapf_plan::Path;
use std::alloc::Global;
use std::collections::HashMap;
use std::marker::Model;

/// How many groups are remembered, at most: then all are forgotten.
const MOST_KNOWN: usize = 50_000;

/// How much of what is known of some agents is looked at, at most, the last first.
const MOST_TRIED: usize = 16;

/// What a search among the plans of some agents found.
#[derive(Drop)]
pub(crate) struct Found {
    /// Each costs at least so much.
    pub(crate) least: u64,
    /// One that costs so much, if it was found: a guess, which is looked at again.
    pub(crate) plan: Option<Vec<Path>>,
}

/// What is known of a group.
#[derive(Drop)]
pub struct KnownGroup {
    agents: Vec<usize>,
    /// What they are forbidden.
    sets: Vec<Constraints>,
    /// What they cost together at least.
    least: u64,
    plan: Option<Vec<Path>>,
    /// With how much effort a plan was looked for.
    effort: usize,
    /// Where what was known last of the same agents stands.
    before: Option<usize>,
}

/// What is known of groups of a problem's agents.
pub struct GroupCosts {
    known: Vec<KnownGroup>,
    /// Where a group is looked for: what is found there is compared.
    places: HashMap<u64, usize>,
    /// Where what is known last of some agents stands.
    lasts: HashMap<u64, usize>,
}

// By hand, so that a proof about what holds one sees a call where it is dropped, and not its fields.
impl Drop for GroupCosts {
    fn drop(self) {
        let GroupCosts {
            known: _,
            places: _,
            lasts: _,
        } = self;
    }
}

impl Model for GroupCosts {
    ghost use Rattle.std.specs.Prelude.{List};
    ghost use Rattle.mapf_optimum.specs.declared.group_costs.KnownGroup.{KnownGroup};

    ghost Value = { List KnownGroup };

    ghost view = { λ c. c.known.items };
}

impl GroupCosts {
    /// Nothing is known.
    pub fn new(alloc: Global) -> GroupCosts
        ensures { result ≡ [] }
    {
        GroupCosts {
            known: Vec::new(alloc),
            places: HashMap::new(alloc),
            lasts: HashMap::new(alloc),
        }
    }

    /// What is known of the part's agents under these sets, if as much effort was made.
    pub(crate) fn find(
        &self,
        alloc: Global,
        part: &Part<'_, '_>,
        sets: &[Constraints],
        effort: usize,
    ) -> Result<Option<Found>, NoMemory>
        requires { AreKnown part.now.problem self.now }
        ensures { IfOk result (λ known. IfSome known (λ found. IsLowerBoundOf (alone part.now) sets.now found.least)) }
    {
        let Some(known) = self.known_of(part, sets, effort) else {
            return Ok(None);
        };
        Ok(Some(Found {
            least: known.least,
            plan: copy_plan(alloc, &known.plan)?,
        }))
    }

    /// What they cost together at least, if that is known.
    pub(crate) fn least(
        &self,
        part: &Part<'_, '_>,
        sets: &[Constraints],
        effort: usize,
    ) -> Option<u64>
        requires { AreKnown part.now.problem self.now }
        ensures { IfSome result (IsLowerBoundOf (alone part.now) sets.now) }
    {
        Some(self.known_of(part, sets, effort)?.least)
    }

    /// What is known of the part's agents under these sets, if as much effort was made.
    fn known_of(
        &self,
        part: &Part<'_, '_>,
        sets: &[Constraints],
        effort: usize,
    ) -> Option<&KnownGroup>
        requires { AreKnown part.now.problem self.now }
        ensures { IfSome result (λ known. IsLowerBoundOf (alone part.now) sets.now known.now.least) }
    {
        let place = self.places.get(&key_of(part.agents(), sets))?;
        let known = self.known.get(*place)?;
        if known.plan.is_none() && known.effort < effort {
            return None;
        }
        if !are_same_agents(&known.agents, part.agents()) || !are_same_sets(&known.sets, sets) {
            return None;
        }
        Some(known)
    }

    /// What the part's agents cost together at least, by what is known of them under fewer constraints.
    pub(crate) fn least_under_fewer(&self, part: &Part<'_, '_>, sets: &[Constraints]) -> u64
        requires { AreKnown part.now.problem self.now }
        ensures { IsLowerBoundOf (alone part.now) sets.now result }
    {
        let mut least = 0;
        let mut place = self.lasts.get(&agents_key(part.agents())).copied();
        for _tried in 0..MOST_TRIED {
            let Some(known) = place.and_then(|place| self.known.get(place)) else {
                return least;
            };
            least = least.max(least_if_fewer(known, part, sets));
            place = known.before;
        }
        least
    }

    /// Remembers what was found of the part's agents under these sets, with so much effort.
    pub(crate) fn learn(
        &mut self,
        alloc: Global,
        part: &Part<'_, '_>,
        sets: &[Constraints],
        found: &Found,
        effort: usize,
    ) -> Result<(), NoMemory>
        requires known { AreKnown part.now.problem self.old }
        requires least { IsLowerBoundOf (alone part.now) sets.now found.now.least }
        ensures { AreKnown part.now.problem self.new }
    {
        let key = key_of(part.agents(), sets);
        self.make_room();
        let number = self.known.len();
        let before = self.lasts.insert(agents_key(part.agents()), number)?;
        self.known.push(KnownGroup {
            agents: Vec::from_slice(alloc, part.agents())?,
            sets: copy_sets(alloc, sets)?,
            least: found.least,
            plan: copy_plan(alloc, &found.plan)?,
            effort,
            before,
        })?;
        self.places.insert(key, number)?;
        Ok(())
    }

    /// Forgets all where so many are known.
    fn make_room(&mut self)
        ensures { (k : KnownGroup) → Contains self.new k → Contains self.old k }
    {
        if self.known.len() >= MOST_KNOWN {
            self.known.clear();
            self.places.clear();
            self.lasts.clear();
        }
    }
}

/// What is known of a group, where that is the part's agents under fewer constraints, or else 0.
fn least_if_fewer(known: &KnownGroup, part: &Part<'_, '_>, sets: &[Constraints]) -> u64
    requires { IsLowerBoundOf (part_of part.now.problem known.now.agents.items) known.now.sets.items known.now.least }
    ensures { IsLowerBoundOf (alone part.now) sets.now result }
{
    if !are_same_agents(&known.agents, part.agents()) || !are_within(&known.sets, sets) {
        return 0;
    }
    known.least
}

/// Equal paths, if there are some.
fn copy_plan(alloc: Global, plan: &Option<Vec<Path>>) -> Result<Option<Vec<Path>>, NoMemory> {
    match plan {
        Some(paths) => Ok(Some(copy_paths(alloc, paths)?)),
        None => Ok(None),
    }
}

/// A number for agents under sets. Others seldom have the same.
fn key_of(agents: &[usize], sets: &[Constraints]) -> u64 {
    let mut key = agents_key(agents);
    for set in sets {
        key = set.mixed_into(key.rotate_left(7));
    }
    key
}

/// A number for agents. Others seldom have the same.
pub(crate) fn agents_key(agents: &[usize]) -> u64 {
    let mut key = 0_u64;
    for agent in agents {
        key = (key.rotate_left(9) ^ *agent as u64).wrapping_mul(0xff51_afd7_ed55_8ccd);
    }
    key
}
