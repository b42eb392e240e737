//! Whether any plan without conflict obeys a node, and costs at most so much: a search of free plans.

ghost use Rattle.std.specs.Prelude.{◌≡◌, ◌≤◌, ◌++◌, IfOk, OnOk, IsTrue, Contains};
ghost use Rattle.mapf_tree.specs.Prelude.{IsBranching, Branches, Grows, IsFreePlan, AreObeyed, IsObeyed, one_or_none};

use crate::own_paths::obeyed::Obeyed;
use crate::own_paths::path_cache::PathCache;
use crate::own_paths::path_cache::free_plans::FreePlan;
use crate::own_paths::start_tables::StartTables;
use crate::{Node, Side};
use mapf_grid::NoMemory;
use mapf_low::Lookup;

/// How many steps a search takes, at most.
const MOST_STEPS: u64 = 60;

/// What a step is counted as.
const OF_STEP: u64 = 7;

/// What a search for a path is counted as.
const OF_SEARCH: u64 = 60;

impl<'p> PathCache<'p> {
    /// Whether any plan without conflict that costs at most so much obeys a node, as far as that is found by so much work.
    pub(crate) fn obeyed_within(
        &mut self,
        tables: &mut StartTables<'p>,
        node: &Node,
        most: u32,
        work: &mut u64,
    ) -> Result<Obeyed, NoMemory>
        requires tables { tables.old ≡ self.old.problem }
        requires node { IsBranching self.old.problem node.now }
        requires most { most ≤ self.old.problem.bound }
        ensures tables { tables.new ≡ tables.old }
        ensures problem { self.new.problem ≡ self.old.problem }
        ensures obeyed { IfOk result (IsObeyed self.old.problem node.now most) }
    {
        let Some(free) = self.free_plan(node)? else {
            return Ok(Obeyed::Unknown);
        };
        let mut waiting = Vec::new(self.alloc);
        waiting.push(free)?;
        self.search(tables, waiting, most, work)
    }

    /// The same of the free plans that wait.
    fn search(
        &mut self,
        tables: &mut StartTables<'p>,
        waiting: Vec<FreePlan>,
        most: u32,
        work: &mut u64,
    ) -> Result<Obeyed, NoMemory>
        requires tables { tables.old ≡ self.old.problem }
        requires waiting { (f : FreePlan) → Contains waiting.items f → IsFreePlan self.old f }
        requires most { most ≤ self.old.problem.bound }
        ensures tables { tables.new ≡ tables.old }
        ensures grows { Grows self.old self.new }
        ensures obeyed { IfOk result (AreObeyed self.old waiting.items most) }
    {
        let mut waiting = waiting;
        for _step in 0..MOST_STEPS {
            let Some(mut free) = waiting.pop() else {
                return Ok(Obeyed::ByNone);
            };
            if free.plan.conflicts.is_empty() {
                return Ok(Obeyed::ByPlan(self.paths_in(&free)?));
            }
            let known = self.sets.count();
            if *work < OF_STEP || !self.branch(tables, &mut free, most, &mut waiting)? {
                return Ok(Obeyed::Unknown);
            }
            let searched = self.sets.count().saturating_sub(known) as u64;
            *work = work.saturating_sub(searched.saturating_mul(OF_SEARCH).saturating_add(OF_STEP));
        }
        Ok(Obeyed::Unknown)
    }

    /// Puts in what a free plan becomes on the sides of one of its conflicts. False where that isn't found.
    fn branch(
        &mut self,
        tables: &mut StartTables<'p>,
        free: &mut FreePlan,
        most: u32,
        waiting: &mut Vec<FreePlan>,
    ) -> Result<bool, NoMemory>
        requires tables { tables.old ≡ self.old.problem }
        requires free { IsFreePlan self.old free.old }
        requires most { most ≤ self.old.problem.bound }
        ensures tables { tables.new ≡ tables.old }
        ensures grows { Grows self.old self.new }
        ensures branches { IfOk result (λ done. IsTrue done → Branches most self.old free.old self.new waiting.old.items waiting.new.items) }
    {
        self.add_rises(tables, free, most)?;
        let Some(pair) = free.best_pair() else {
            return Ok(false);
        };
        let Some(conflict) = self.conflict_at(&free.plan, &pair) else {
            return Ok(false);
        };
        let Lookup::Known(left) = self.side_plan(tables, free, &conflict, Side::Left, most)? else {
            return Ok(false);
        };
        let Lookup::Known(right) = self.side_plan(tables, free, &conflict, Side::Right, most)?
        else {
            return Ok(false);
        };
        if conflicts_in(&left) < conflicts_in(&right) {
            put(waiting, right)?;
            put(waiting, left)?;
        } else {
            put(waiting, left)?;
            put(waiting, right)?;
        }
        Ok(true)
    }
}

/// How many pairs of agents collide on a side, if there is a plan.
fn conflicts_in(side: &Option<FreePlan>) -> usize {
    match side {
        Some(free) => free.plan.conflicts.len(),
        None => 0,
    }
}

/// Puts a plan in, if there is one.
fn put(waiting: &mut Vec<FreePlan>, free: Option<FreePlan>) -> Result<(), NoMemory>
    ensures { OnOk result (waiting.new.items ≡ waiting.old.items ++ one_or_none free) }
{
    if let Some(free) = free {
        waiting.push(free)?;
    }
    Ok(())
}
