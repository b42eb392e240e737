//! The pair conflicts of an agent with each other one, from what is known of their paths.

ghost use Rattle.std.specs.Prelude.{◌≡◌, ◌≢◌, ℕ, ◌<◌, ◌≤◌, length, slice_index, IfOk, OnOk};
ghost use Rattle.mapf_grid.specs.declared.instance.TheConstants.{MOST_AGENTS};
ghost use Rattle.mapf_plan.specs.Plan.{path_of, IsConflict};
ghost use Rattle.mapf_plan.specs.Collisions.{HaveNoneBefore};
ghost use Rattle.mapf_plan.specs.PairConflicts.{HavePairConflicts, HasAllOf};
ghost use Rattle.mapf_plan.specs.KnownPaths.{AreNumbers, AreMet, IsKnownPlan, changed_plan};

use super::KnownPaths;
use crate::cache::first_times::{FirstTime, add_known, time_of};
use crate::collisions::first_time_of_two;
use crate::pair_conflicts::{pair_conflict_of, pair_conflicts_without};
use crate::{KnownPlan, PairConflict};
use mapf_grid::NoMemory;
use std::mem::replace;

impl KnownPaths {
    /// Pair conflicts of all conflicts, from those of a plan, where one agent has another path: the one of this number.
    pub(super) fn pair_conflicts_of_changed(
        &mut self,
        plan: &KnownPlan,
        changed: usize,
        number: usize,
    ) -> Result<Vec<PairConflict>, NoMemory>
        requires plan { IsKnownPlan self.old plan.now.numbers.items plan.now.conflicts.items }
        requires agent { changed < length plan.now.numbers.items }
        requires number { number < length self.old.paths }
        ensures known { self.new ≡ self.old }
        ensures conflicts { IfOk result (λ ms. HavePairConflicts
            (IsConflict self.old.rule (changed_plan self.old.paths plan.now.numbers.items changed number)) ms.items) }
    {
        let spare = replace(&mut self.spare, Vec::new(self.alloc));
        let mut conflicts = pair_conflicts_without(spare, &plan.conflicts, changed)?;
        self.add_pair_conflicts(&plan.numbers, changed, number, 0, &mut conflicts)?;
        Ok(conflicts)
    }

    /// Adds the pair conflicts of an agent, whose path is the one of this number, with each other agent from a first one on.
    pub(super) fn add_pair_conflicts(
        &mut self,
        numbers: &[usize],
        agent: usize,
        number: usize,
        from: usize,
        conflicts: &mut Vec<PairConflict>,
    ) -> Result<(), NoMemory>
        requires numbers { AreNumbers self.old.paths numbers.now }
        requires agents { length numbers.now ≤ MOST_AGENTS }
        requires agent { agent < length numbers.now }
        requires number { number < length self.old.paths }
        ensures known { self.new ≡ self.old }
        ensures keeps { OnOk result (HasAllOf conflicts.new.items conflicts.old.items) }
        ensures pairs { OnOk result ((k : ℕ) → from ≤ k → k < length numbers.now → k ≢ agent
            → AreMet self.old agent number k (slice_index numbers.now k) conflicts.new.items) }
    {
        let row = self.times.row(number);
        let known = add_known(row, numbers, agent, from, conflicts)?;
        for other in known..numbers.len() {
            if other == agent {
                continue;
            }
            if let Some(time) = self.first_time(number, numbers[other]) {
                conflicts.push(pair_conflict_of(agent, other, time))?;
            }
        }
        Ok(())
    }

    /// When agents on the paths of these numbers have their first conflict; none where they never have one.
    fn first_time(&mut self, one: usize, other: usize) -> Option<u32>
        requires one { one < length self.old.paths }
        requires other { other < length self.old.paths }
        ensures known { self.new ≡ self.old }
        ensures time { HaveNoneBefore self.old.rule (path_of self.old.paths one) (path_of self.old.paths other) result }
    {
        match time_of(self.times.row(one), other) {
            FirstTime::Never => None,
            FirstTime::At(time) => Some(time),
            FirstTime::Unknown => self.find_time(one, other),
        }
    }

    /// The same, looked for along the paths, and kept.
    #[inline(never)]
    fn find_time(&mut self, one: usize, other: usize) -> Option<u32>
        requires one { one < length self.old.paths }
        requires other { other < length self.old.paths }
        ensures known { self.new ≡ self.old }
        ensures time { HaveNoneBefore self.old.rule (path_of self.old.paths one) (path_of self.old.paths other) result }
    {
        let found = first_time_of_two(self.rule, &self.paths[one], &self.paths[other]);
        self.times.keep(one, other, FirstTime::of(found));
        found
    }
}
