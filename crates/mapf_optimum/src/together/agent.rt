//! An agent as the search over joint places sees it.

ghost use Rattle.std.specs.Prelude.{◌≡◌, ℕ, ◌+◌, ◌<◌, ◌≤◌, List, Contains, IsTrue, OnOk};
ghost use Rattle.mapf_grid.specs.Grid.{IsFree};
ghost use Rattle.mapf_low.specs.Walk.{AreDistances};
ghost use Rattle.mapf_plan.specs.Path.{at, cost};

use super::place::Place;
use mapf_grid::{Cell, Map, NoMemory};
use mapf_low::{Constraints, Distances};
use std::marker::Model;

/// An agent as it stands in a node: where it goes on a map, what it is forbidden, and what a path of it costs at least.
#[derive(Drop)]
pub struct Agent<'m, 's> {
    map: &'m Map,
    distances: &'m Distances,
    constraints: &'s Constraints,
    start: Cell,
    goal: Cell,
    least: u32,
}

impl<'m, 's> Model for Agent<'m, 's> {
    ghost use Rattle.mapf_optimum.specs.Together.{Agent, IsPosed, agent_of};

    ghost Value = { Agent };

    ghost view = { λ a. agent_of a.map.now a.constraints.now a.start a.goal a.least };

    ghost invariant = { λ a. IsPosed (agent_of a.map.now a.constraints.now a.start a.goal a.least) a.distances.now };
}

impl<'m, 's> Agent<'m, 's> {
    ghost use Rattle.mapf_optimum.specs.Together.{HasPlace, IsPathOf, StandsAt, Steps, agent_of};
    ghost use Rattle.mapf_optimum.specs.declared.together.place.Place.{Place};

    /// The agent that goes from one cell to another by steps of the map, under constraints, by a path that costs so much at least.
    pub(crate) fn new(
        map: &'m Map,
        distances: &'m Distances,
        constraints: &'s Constraints,
        start: Cell,
        goal: Cell,
        least: u32,
    ) -> Agent<'m, 's>
        requires goal { IsFree map.now goal }
        requires distances { AreDistances map.now goal distances.now }
        ensures { result ≡ agent_of map.now constraints.now start goal least }
    {
        // A map's sizes are known from a call alone.
        let _width = map.width();
        Agent {
            map,
            distances,
            constraints,
            start,
            goal,
            least,
        }
    }

    /// Where it begins.
    pub(crate) fn start(&self) -> Cell {
        self.start
    }

    /// What its path costs at least.
    pub(crate) fn least(&self) -> u32
        ensures { result ≡ self.now.least }
    {
        self.least
    }

    /// Adds where it may be at time 0: on its start, for good or on its way, by a path that costs no more than `most`.
    pub(crate) fn add_first_places(
        &self,
        most: u32,
        places: &mut Vec<Place>,
    ) -> Result<(), NoMemory>
        ensures keeps { OnOk result ((x : Place) → Contains places.old.items x → Contains places.new.items x) }
        ensures adds { OnOk result ((p : List ℕ) → IsPathOf self.now p → cost p ≤ most → HasPlace p 0 places.new.items) }
    {
        if self.least == 0 {
            places.push(Place {
                cell: self.start,
                cost: 0,
                is_home: true,
            })?;
        }
        self.add_underway(self.start, 0, most, places)
    }

    /// Adds where it may be at this time step, if it was at this place one time step before, by a path that costs no more than `most`.
    pub(crate) fn add_next_places(
        &self,
        from: Place,
        time: u32,
        most: u32,
        places: &mut Vec<Place>,
    ) -> Result<(), NoMemory>
        ensures keeps { OnOk result ((x : Place) → Contains places.old.items x → Contains places.new.items x) }
        ensures adds { OnOk result ((p : List ℕ) (before : ℕ) → before + 1 ≡ time → IsPathOf self.now p → cost p ≤ most
            → StandsAt p before from → HasPlace p time places.new.items) }
    {
        if from.is_home {
            places.push(from)?;
            return Ok(());
        }
        self.add_moves(from.cell, time, self.is_forbidden_at(time), most, places)
    }

    /// Adds where it may be at this time step, where it may be forbidden something then, if it was on its way on this cell one time step
    /// before, by a path that costs no more than `most`.
    pub(crate) fn add_moves(
        &self,
        from: Cell,
        time: u32,
        is_forbidden: bool,
        most: u32,
        places: &mut Vec<Place>,
    ) -> Result<(), NoMemory>
        ensures keeps { OnOk result ((x : Place) → Contains places.old.items x → Contains places.new.items x) }
        ensures adds { OnOk result ((p : List ℕ) (to : ℕ) → Steps self.now p time from to → cost p ≤ most → HasPlace p time places.new.items) }
    {
        if self.map.is_free(from) {
            self.add_move(from, from, time, is_forbidden, most, places)?;
            for to in self.map.neighbours(from).as_slice() {
                self.add_move(from, *to, time, is_forbidden, most, places)?;
            }
        }
        Ok(())
    }

    /// Whether one of the agent's constraints is for this time step.
    pub(crate) fn is_forbidden_at(&self, time: u32) -> bool {
        self.constraints
            .as_slice()
            .iter()
            .any(|constraint| constraint.time() == time)
    }

    /// Whether no constraint forbids the move.
    fn may_go(&self, from: Cell, to: Cell, time: u32) -> bool
        ensures { (p : List ℕ) → Steps self.now p time from to → IsTrue result }
    {
        self.constraints.allows_at(to, time) && self.constraints.allows_step(from, to, time)
    }

    /// Adds the places of a move by this time step, where it may be forbidden something then, if the agent may make it, and its path
    /// costs no more than `most`.
    fn add_move(
        &self,
        from: Cell,
        to: Cell,
        time: u32,
        is_forbidden: bool,
        most: u32,
        places: &mut Vec<Place>,
    ) -> Result<(), NoMemory>
        ensures keeps { OnOk result ((x : Place) → Contains places.old.items x → Contains places.new.items x) }
        ensures adds { OnOk result ((p : List ℕ) → Steps self.now p time from to → cost p ≤ most → HasPlace p time places.new.items) }
    {
        if is_forbidden && !self.may_go(from, to, time) {
            return Ok(());
        }
        if to == self.goal && from != self.goal && self.least <= time && time <= most {
            places.push(Place {
                cell: to,
                cost: time,
                is_home: true,
            })?;
        }
        self.add_underway(to, time, most, places)
    }

    /// Adds the cell on the agent's way, from which it goes on, if its path costs no more than `most`.
    fn add_underway(
        &self,
        cell: Cell,
        time: u32,
        most: u32,
        places: &mut Vec<Place>,
    ) -> Result<(), NoMemory>
        ensures keeps { OnOk result ((x : Place) → Contains places.old.items x → Contains places.new.items x) }
        ensures adds { OnOk result ((p : List ℕ) → IsPathOf self.now p → at p time ≡ cell → time < cost p → cost p ≤ most
            → HasPlace p time places.new.items) }
    {
        if let Some(distance) = self.distances.get(cell) {
            // One that is on its goal and goes on has to leave it and come back.
            let rest = if distance == 0 { 2 } else { distance };
            let cost = self.least.max(time.saturating_add(rest));
            if cost <= most {
                places.push(Place {
                    cell,
                    cost,
                    is_home: false,
                })?;
            }
        }
        Ok(())
    }
}
