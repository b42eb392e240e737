//! Paths by number, and when agents on two of them have their first conflict.

ghost use Rattle.std.specs.Prelude.{◌≡◌, ℕ, ◌<◌, ◌≤◌, List, [], length, slice_get, slice_set, Some};
ghost use Rattle.std.specs.Prelude.{IfOk, IfSome, MatchOption, OnOk};
ghost use Rattle.std.specs.Arc.{arc_value};
ghost use Rattle.mapf_grid.specs.declared.instance.TheConstants.{MOST_AGENTS};
ghost use Rattle.mapf_plan.specs.Plan.{IsFirstConflict, HasNoConflict};
ghost use Rattle.mapf_plan.specs.KnownPaths.{KnownPaths, AreNumbers, IsKnownPlan, changed_plan};

mod pairs;

use super::first_times::FirstTimes;
use super::known_plan::Numbered;
use crate::pair_conflicts::first_conflict_of_pair_conflicts;
use crate::{Conflict, KnownPlan, PairConflict, Path, Rule};
use mapf_grid::{Cell, NoMemory};
use std::alloc::Global;
use std::collections::HashMap;
use std::marker::Model;
use std::mem::replace;
use std::sync::Arc;

/// 2^64 by the golden ratio.
const MIXER: u64 = 11_400_714_819_323_198_485;

/// Paths by number, and for each two of them when agents on them have their first conflict, which is looked for once.
pub struct KnownPaths {
    alloc: Global,
    rule: Rule,
    paths: Vec<Arc<Path>>,
    /// Where a path is looked for; nothing rests on it.
    places: HashMap<u64, usize>,
    times: FirstTimes,
    /// Room for the next list of pair conflicts.
    spare: Vec<PairConflict>,
}

// By hand, so that a proof about what holds one sees a call where it is dropped, and not its fields.
impl Drop for KnownPaths {
    fn drop(self) {
        let KnownPaths {
            alloc: _,
            rule: _,
            paths: _,
            places: _,
            times: _,
            spare: _,
        } = self;
    }
}

impl Model for KnownPaths {
    ghost use Rattle.std.specs.Prelude.{map};
    ghost use Rattle.std.specs.Arc.{arc_value};
    ghost use Rattle.mapf_plan.specs.KnownPaths.{KnownPaths, AreRight};

    ghost Value = { KnownPaths };

    ghost view = { λ k. record { rule = k.rule; paths = map arc_value k.paths.items } };

    ghost invariant = { λ k. AreRight k.rule (map arc_value k.paths.items) k.times };
}

impl KnownPaths {
    /// No path is known yet. Agents collide by this rule.
    pub fn new(alloc: Global, rule: Rule) -> KnownPaths
        ensures { result ≡ record { rule = rule; paths = [] } }
    {
        KnownPaths {
            alloc,
            rule,
            paths: Vec::new(alloc),
            places: HashMap::new(alloc),
            times: FirstTimes::new(alloc),
            spare: Vec::new(alloc),
        }
    }

    /// The number of a path, which is added where it is not known. Each path that was known keeps its number.
    pub fn number(&mut self, path: Arc<Path>) -> Result<usize, NoMemory>
        ensures rule { self.new.rule ≡ self.old.rule }
        ensures keeps { (n : ℕ) (known : List ℕ) → slice_get self.old.paths n ≡ Some known
            → slice_get self.new.paths n ≡ Some known }
        ensures number { IfOk result (λ n. slice_get self.new.paths n ≡ Some (arc_value path)) }
    {
        if let Some(number) = self.find_number(&path) {
            return Ok(number);
        }
        let key = key_of(path.cells());
        let number = self.paths.len();
        self.paths.push(path)?;
        let _ = self.places.insert(key, number);
        Ok(number)
    }

    /// The number of an equal path, where one is found.
    fn find_number(&self, path: &Path) -> Option<usize>
        ensures { IfSome result (λ n. slice_get self.now.paths n ≡ Some path.now) }
    {
        let number = *self.places.get(&key_of(path.cells()))?;
        if self.paths.get(number)?.is_same(path) {
            return Some(number);
        }
        None
    }

    /// The path of this number. None where there is none.
    pub fn path(&self, number: usize) -> Option<&Arc<Path>>
        ensures { MatchOption result (length self.now.paths ≤ number)
            (λ path. slice_get self.now.paths number ≡ Some (arc_value path.now)) }
    {
        self.paths.get(number)
    }

    /// The plan of agents whose paths have these numbers, agent 0's first.
    pub fn plan(&mut self, numbers: &[usize]) -> Result<KnownPlan, NoMemory>
        requires numbers { AreNumbers self.old.paths numbers.now }
        requires agents { length numbers.now ≤ MOST_AGENTS }
        ensures known { self.new ≡ self.old }
        ensures plan { IfOk result (λ plan. IsKnownPlan self.old plan.numbers.items plan.conflicts.items) }
        ensures numbers { IfOk result (λ plan. plan.numbers.items ≡ numbers.now) }
    {
        let mut conflicts = Vec::new(self.alloc);
        for agent in 0..numbers.len() {
            self.add_pair_conflicts(numbers, agent, numbers[agent], agent + 1, &mut conflicts)?;
        }
        let numbers = Vec::from_slice(self.alloc, numbers)?;
        Ok(KnownPlan { numbers, conflicts })
    }

    /// Gives one agent of a plan another path: the one of this number. Only the pairs of that agent are gone through. Where
    /// memory runs out the plan is of no more use.
    pub fn set_path(
        &mut self,
        plan: &mut KnownPlan,
        agent: usize,
        number: usize,
    ) -> Result<(), NoMemory>
        requires plan { IsKnownPlan self.old plan.old.numbers.items plan.old.conflicts.items }
        requires agent { agent < length plan.old.numbers.items }
        requires number { number < length self.old.paths }
        ensures known { self.new ≡ self.old }
        ensures plan { OnOk result (IsKnownPlan self.old plan.new.numbers.items plan.new.conflicts.items) }
        ensures numbers { OnOk result (plan.new.numbers.items ≡ slice_set plan.old.numbers.items agent number) }
    {
        let conflicts = self.pair_conflicts_of_changed(plan, agent, number)?;
        self.spare = replace(&mut plan.conflicts, conflicts);
        plan.numbers[agent] = number;
        Ok(())
    }

    /// The first conflict of a plan where one agent has another path: the one of this number. None if no two agents ever
    /// collide.
    pub fn first_conflict_of_changed(
        &mut self,
        plan: &KnownPlan,
        changed: usize,
        number: usize,
    ) -> Result<Option<Conflict>, NoMemory>
        requires plan { IsKnownPlan self.old plan.now.numbers.items plan.now.conflicts.items }
        requires agent { changed < length plan.now.numbers.items }
        requires number { number < length self.old.paths }
        ensures known { self.new ≡ self.old }
        ensures conflict { IfOk result (λ found. MatchOption found
            (HasNoConflict self.old.rule (changed_plan self.old.paths plan.now.numbers.items changed number))
            (IsFirstConflict self.old.rule (changed_plan self.old.paths plan.now.numbers.items changed number))) }
    {
        let conflicts = self.pair_conflicts_of_changed(plan, changed, number)?;
        let changed_plan = Numbered {
            paths: &self.paths,
            numbers: &plan.numbers,
            changed,
            number,
        };
        let found = first_conflict_of_pair_conflicts(&changed_plan, self.rule, &conflicts);
        self.spare = conflicts;
        Ok(found)
    }
}

/// A number for the cells of a path. Others seldom have the same, and nothing rests on it.
fn key_of(cells: &[Cell]) -> u64 {
    let mut key = cells.len() as u64;
    for cell in cells {
        key = (key.rotate_left(5) ^ u64::from(cell.number())).wrapping_mul(MIXER);
    }
    key
}
