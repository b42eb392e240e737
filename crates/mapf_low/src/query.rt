ghost use Rattle.std.specs.Prelude.{◌≡◌, ◌↔◌, ℕ, ◌+◌, ◌<◌, ◌≤◌, IsTrue, IfOk, Contains, length};
ghost use Rattle.mapf_grid.specs.Grid.{IsFree};
ghost use Rattle.mapf_low.specs.declared.constraint.Constraint.{Constraint};
ghost use Rattle.mapf_low.specs.Walk.{distance_at};
ghost use Rattle.mapf_plan.specs.declared.answer.TheConstants.{MOST_BOUND};

mod backwards;

use crate::Constraints;
use crate::cell_set::CellSet;
use crate::constraints::times::{busy_times, is_busy, is_past};
use crate::distances::table::Table;
use mapf_grid::{Cell, Map, NoMemory};
use smallvec::SmallVec;
use std::alloc::Global;
use std::marker::Model;

/// What the low-level search is asked: one agent's own path from its start to its goal on a map, under constraints, at a
/// cost of at most a bound. It goes by a table of a number for each cell: the search forwards by the distances to the goal, the
/// search backwards by a time step before which the agent can't be there.
#[derive(Drop)]
pub(crate) struct Query<'a> {
    map: &'a Map,
    table: &'a Table,
    constraints: &'a Constraints,
    start: Cell,
    goal: Cell,
    bound: u32,
    /// Of which time steps, up to the one after the bound, there is a constraint.
    busy_times: Vec<bool>,
    /// The last time step at which the goal is forbidden.
    last: Option<u32>,
}

impl<'a> Model for Query<'a> {
    ghost use Rattle.mapf_low.specs.Query.{Query, IsPrepared, query_of};

    ghost Value = { Query };

    ghost view = { λ q. query_of q.map.now q.table.now q.constraints.now q.start q.goal q.bound };

    ghost invariant = { λ q. IsPrepared (query_of q.map.now q.table.now q.constraints.now q.start q.goal q.bound)
        q.last q.busy_times.items };
}

impl<'a> Query<'a> {
    ghost use Rattle.mapf_low.specs.Query.{IsPosed, MayEnd, query_of};
    ghost use Rattle.mapf_low.specs.Reached.{IsUsable};
    ghost use Rattle.mapf_low.specs.Forwards.FLevels.{IsAllowedStep};
    ghost use Rattle.mapf_low.specs.Distances.Levels.{IsFreeNeighbour};
    ghost use Rattle.mapf_low.specs.Times.{IsQuiet};

    /// Asks for the own path between two cells.
    pub(crate) fn new(
        alloc: Global,
        map: &'a Map,
        table: &'a Table,
        start: Cell,
        goal: Cell,
        constraints: &'a Constraints,
        bound: u32,
    ) -> Result<Query<'a>, NoMemory>
        requires start { IsFree map.now start }
        requires goal { IsFree map.now goal }
        requires bound { bound ≤ MOST_BOUND }
        ensures { IfOk result
            (λ q. q ≡ query_of map.now table.now constraints.now start goal bound) }
    {
        // A map's sizes are known from a call alone.
        let _width = map.width();
        let last = constraints.last_time_at(goal);
        let busy_times = busy_times(alloc, constraints, bound + 1)?;
        Ok(Query {
            map,
            table,
            constraints,
            start,
            goal,
            bound,
            busy_times,
            last,
        })
    }

    /// Where the agent begins.
    pub(crate) fn start(&self) -> Cell
        ensures start { result ≡ self.now.start }
        ensures posed { IsPosed self.now }
    {
        self.start
    }

    /// Where it ends.
    pub(crate) fn goal(&self) -> Cell
        ensures goal { result ≡ self.now.goal }
        ensures posed { IsPosed self.now }
    {
        self.goal
    }

    /// What its path may cost at most.
    pub(crate) fn bound(&self) -> u32
        ensures bound { result ≡ self.now.bound }
        ensures posed { IsPosed self.now }
    {
        self.bound
    }

    /// How many cells the map has.
    pub(crate) fn cells(&self) -> u32
        ensures { result ≡ length self.now.grid.free }
    {
        self.map.height() * self.map.width()
    }

    /// What the table has of a cell.
    #[inline]
    pub(crate) fn entry(&self, cell: Cell) -> Option<u32>
        ensures { result ≡ distance_at self.now.table cell }
    {
        self.table.get(cell)
    }

    /// The free neighbours of a free cell.
    #[inline]
    pub(crate) fn neighbours(&self, cell: Cell) -> SmallVec<Cell, 4>
        requires { IsFree self.now.grid cell }
        ensures { (v : ℕ) → Contains result.items v ↔ IsFreeNeighbour self.now.grid cell v }
    {
        self.map.neighbours(cell)
    }

    /// Whether the agent may arrive on `to` from `from` at this time step.
    #[inline]
    pub(crate) fn allows(&self, from: Cell, to: Cell, time: u32) -> bool
        requires { time ≤ self.now.bound + 1 }
        ensures { IsTrue result ↔ IsAllowedStep self.now time from to }
    {
        !is_busy(&self.busy_times, time)
            || (self.allows_at(to, time) && self.allows_step(from, to, time))
    }

    /// Whether no constraint forbids to be on the cell at this time step.
    #[inline]
    pub(crate) fn allows_at(&self, cell: Cell, time: u32) -> bool
        ensures { IsTrue result ↔ (¬ Contains self.now.constraints (Constraint.Vertex cell time)) }
    {
        self.constraints.allows_at(cell, time)
    }

    /// Whether no constraint forbids the step from `from` to `to` at this time step.
    #[inline]
    pub(crate) fn allows_step(&self, from: Cell, to: Cell, time: u32) -> bool
        ensures { IsTrue result ↔ (¬ Contains self.now.constraints (Constraint.Edge from to time)) }
    {
        self.constraints.allows_step(from, to, time)
    }

    /// Whether the marks tell that no constraint is of this time step or the next.
    pub(crate) fn is_quiet(&self, time: u32) -> bool
        ensures { IsTrue result → IsQuiet self.now.constraints time }
    {
        time < self.bound
            && !is_busy(&self.busy_times, time)
            && !is_busy(&self.busy_times, time + 1)
    }

    /// Whether the agent may be on the cell at this time step, and its entry in the table can still be added by the bound.
    pub(crate) fn is_usable(&self, cell: Cell, time: u32) -> bool
        ensures { IsTrue result ↔ IsUsable self.now self.now.bound time cell }
    {
        matches!(self.table.get(cell), Some(entry) if u64::from(time) + u64::from(entry) <= u64::from(self.bound))
            && self.allows_at(cell, time)
    }

    /// Whether nothing forbids the goal from this time step on.
    pub(crate) fn may_end(&self, time: u32) -> bool
        ensures { IsTrue result ↔ MayEnd self.now time }
    {
        is_past(self.last, time)
    }

    /// Whether a path can end at this time step, when the agent may be on these cells.
    pub(crate) fn can_end(&self, cells: &CellSet, time: u32) -> bool
        ensures { IsTrue result ↔ (Contains cells.now self.now.goal × MayEnd self.now time) }
    {
        self.may_end(time) && cells.contains(self.goal)
    }
}
