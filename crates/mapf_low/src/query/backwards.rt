ghost use Rattle.std.specs.Prelude.{◌≡◌, ◌↔◌, ℕ, ◌+◌, ◌<◌, ◌≤◌, IsTrue, MatchOption, Contains, Some};
ghost use Rattle.mapf_grid.specs.Grid.{cells, IsFree};
ghost use Rattle.mapf_low.specs.declared.constraint.Constraint.{Constraint};
ghost use Rattle.mapf_low.specs.Walk.{distance_at};
ghost use Rattle.mapf_low.specs.Best.{IsSmallest};
ghost use Rattle.mapf_low.specs.Reached.{ComesFrom};
ghost use Rattle.mapf_low.specs.Backwards.Tracing.{IsLeft, MayLead};
ghost use Rattle.mapf_low.specs.Backwards.Earliest.{MayGo};
ghost use Rattle.mapf_low.specs.Times.{IsQuiet};
ghost use Rattle.mapf_plan.specs.declared.answer.TheConstants.{MOST_BOUND};

use super::Query;
use crate::backwards::dead_ends::DeadEnds;
use mapf_grid::Cell;

// What the search backwards asks: its table tells of each cell a time step before which the agent can't be there.
impl Query<'_> {
    /// Whether the agent may be on the cell at this time step, by the table.
    #[inline]
    fn is_late_enough(&self, cell: Cell, time: u32) -> bool
        ensures { IsTrue result ↔ MatchOption (distance_at self.now.table cell) ⊥ (λ n. n ≤ time) }
    {
        matches!(self.entry(cell), Some(earliest) if earliest <= time)
    }

    /// Whether nothing rules out so far that the agent is on the cell at this time step: it is late enough, the cell is not
    /// forbidden, and the state is no dead end.
    pub(crate) fn is_left(&self, dead: &DeadEnds, cell: Cell, time: u32) -> bool
        ensures { IsTrue result ↔ IsLeft self.now dead.now.states time cell }
    {
        self.is_late_enough(cell, time) && self.allows_at(cell, time) && !dead.contains(cell, time)
    }

    /// Whether no constraint forbids to be on `from` at this time step, and to be on `to` at the next by a step from there.
    pub(crate) fn may_go(&self, from: Cell, to: Cell, time: u32) -> bool
        requires { time < MOST_BOUND }
        ensures { IsTrue result ↔ MayGo self.now time from to }
    {
        self.is_quiet(time)
            || (self.allows_leaving(from, to, time, false) && self.allows_at(to, time + 1))
    }

    /// Whether no constraint forbids to be on `from` at this time step and to step from there to `to`. `quiet` says that none is
    /// of this time step or the next, and then none is looked up.
    #[inline]
    fn allows_leaving(&self, from: Cell, to: Cell, time: u32, quiet: bool) -> bool
        requires early { time < MOST_BOUND }
        requires quiet { IsTrue quiet → IsQuiet self.now.constraints time }
        ensures { IsTrue result
            ↔ ((¬ Contains self.now.constraints (Constraint.Vertex from time))
            × (¬ Contains self.now.constraints (Constraint.Edge from to (time + 1)))) }
    {
        quiet || (self.allows_at(from, time) && self.allows_step(from, to, time + 1))
    }

    /// The cell `from`, where there is one, if nothing rules out so far that the agent is there at this time step, and nothing
    /// forbids the step from there to `to`.
    #[inline]
    fn if_left(
        &self,
        dead: &DeadEnds,
        from: Option<Cell>,
        to: Cell,
        time: u32,
        quiet: bool,
    ) -> Option<Cell>
        requires early { time < MOST_BOUND }
        requires quiet { IsTrue quiet → IsQuiet self.now.constraints time }
        ensures { (v : ℕ) → (result ≡ Some v) ↔ ((from ≡ Some v) × MayLead self.now dead.now.states time v to) }
    {
        match from {
            Some(cell)
                if self.is_late_enough(cell, time)
                    && self.allows_leaving(cell, to, time, quiet)
                    && !dead.contains(cell, time) => { Some(cell) }
            _ => None,
        }
    }

    /// The smallest cell from which a step leads to `to`, of those where nothing rules out so far that the agent is there at
    /// this time step; none, if all are ruled out.
    pub(crate) fn smallest_before(&self, dead: &DeadEnds, to: Cell, time: u32) -> Option<Cell>
        requires free { IsFree self.now.grid to }
        requires inside { to < cells self.now.grid }
        requires early { time < MOST_BOUND }
        ensures { IsSmallest (ComesFrom self.now (time + 1) (IsLeft self.now dead.now.states time) to) result }
    {
        let quiet = self.is_quiet(time);
        // The neighbours in ascending order of their numbers, with the cell itself in the middle.
        let above = self.if_left(dead, self.map.free_above(to), to, time, quiet);
        if above.is_some() {
            return above;
        }
        let at_left = self.if_left(dead, self.map.free_at_left(to), to, time, quiet);
        if at_left.is_some() {
            return at_left;
        }
        let stays = self.if_left(dead, Some(to), to, time, quiet);
        if stays.is_some() {
            return stays;
        }
        let at_right = self.if_left(dead, self.map.free_at_right(to), to, time, quiet);
        if at_right.is_some() {
            return at_right;
        }
        self.if_left(dead, self.map.free_below(to), to, time, quiet)
    }
}
