//! The places of an agent, time step by time step, each looked for once or a few times.

ghost use Rattle.std.specs.Prelude.{◌≡◌, ℕ, ◌+◌, ◌<◌, ◌≤◌, List, length, slice_get, Contains, IfOk, IfSome, OnOk};
ghost use Rattle.mapf_optimum.specs.PlaceNumbers.{AreAdded, AreLookedOn, BeginsWithin, GetsMore, GetsPlaces, HasNumber, IsLookedOn, IsMoveFrom};

use super::agent::Agent;
use super::place::{Look, Move, Place, PlaceAt};
use super::place_table::{PlaceTable, mixed};
use mapf_grid::NoMemory;
use std::alloc::Global;
use std::marker::Model;

/// Numbered places of an agent at time steps, each once or a few times, and for each to which of them it leads at the next time step.
#[derive(Drop)]
pub(crate) struct AgentPlaces {
    all: Vec<PlaceAt>,
    /// What was looked for from each.
    looks: Vec<Look>,
    /// To which they lead.
    moves: Vec<Move>,
    /// How many are of time 0.
    first: usize,
    /// Where a place may stand in the list: what is found there is compared.
    table: PlaceTable,
}

impl Model for AgentPlaces {
    ghost use Rattle.std.specs.Prelude.{◌≡◌, length};
    ghost use Rattle.mapf_optimum.specs.PlaceNumbers.{AgentKnown};

    ghost Value = { AgentKnown };

    ghost view = { λ k. record { all = k.all.items; looks = k.looks.items; moves = k.moves.items; first = k.first } };

    ghost invariant = { λ k. length k.looks.items ≡ length k.all.items };
}

impl AgentPlaces {
    /// Those of time 0, by paths that cost no more than `most`.
    pub(crate) fn new(alloc: Global, agent: &Agent, most: u32) -> Result<AgentPlaces, NoMemory>
        ensures begins { IfOk result (BeginsWithin agent.now most) }
        ensures looked { IfOk result (AreLookedOn agent.now) }
    {
        let mut places = AgentPlaces {
            all: Vec::new(alloc),
            looks: Vec::new(alloc),
            moves: Vec::new(alloc),
            first: 0,
            table: PlaceTable::new(alloc)?,
        };
        let mut firsts = Vec::new(alloc);
        agent.add_first_places(most, &mut firsts)?;
        places.add_moves(alloc, &firsts, 0)?;
        places.first = places.all.len();
        Ok(places)
    }

    /// How many are of time 0: their numbers are those below.
    pub(crate) fn first(&self) -> usize
        ensures { result ≡ self.now.first }
    {
        self.first
    }

    /// That with this number, and its time step.
    pub(crate) fn at(&self, number: usize) -> Option<PlaceAt>
        ensures { result ≡ slice_get self.now.all number }
    {
        self.all.get(number).copied()
    }

    /// What was looked for from there.
    fn look(&self, number: usize) -> Option<Look>
        ensures { result ≡ slice_get self.now.looks number }
    {
        self.looks.get(number).copied()
    }

    /// Those to which it leads.
    pub(crate) fn moves(&self, number: usize) -> &[Move]
        ensures { (move : Move) → IsMoveFrom self.now number move → Contains result.now move }
    {
        let Some(look) = self.look(number) else {
            return &[];
        };
        if look.first <= look.end && look.end <= self.moves.len() {
            &self.moves[look.first..look.end]
        } else {
            &[]
        }
    }

    /// Looks for those to which it leads by paths that cost no more than `most`, if that wasn't done.
    pub(crate) fn look_on(
        &mut self,
        alloc: Global,
        agent: &Agent,
        number: usize,
        most: u32,
        next: &mut Vec<Place>,
    ) -> Result<(), NoMemory>
        requires { AreLookedOn agent.now self.old }
        ensures more { OnOk result (GetsMore self.old self.new) }
        ensures looked { OnOk result (AreLookedOn agent.now self.new) }
        ensures there { OnOk result (IsLookedOn agent.now self.new number (most + 1)) }
    {
        let Some(from) = self.at(number) else {
            return Ok(());
        };
        let Some(look) = self.look(number) else {
            return Ok(());
        };
        if look.below > u64::from(most) {
            return Ok(());
        }
        let time = from.time.saturating_add(1);
        next.clear();
        agent.add_next_places(from.place, time, most, next)?;
        let first = self.moves.len();
        self.add_moves(alloc, next, time)?;
        self.looks[number] = Look {
            below: u64::from(most) + 1,
            first,
            end: self.moves.len(),
        };
        Ok(())
    }

    /// Adds moves to these places at a time step.
    fn add_moves(&mut self, alloc: Global, places: &[Place], time: u32) -> Result<(), NoMemory>
        ensures { OnOk result (AreAdded self.old self.new places.now time) }
    {
        for place in places {
            let number = self.number_of(alloc, place, time)?;
            self.moves.push(Move {
                number,
                place: *place,
            })?;
        }
        Ok(())
    }

    /// The number of a place at a time step, which is added if it isn't known.
    fn number_of(&mut self, alloc: Global, place: &Place, time: u32) -> Result<usize, NoMemory>
        ensures gets { OnOk result (GetsPlaces self.old self.new) }
        ensures moves { OnOk result (self.new.moves ≡ self.old.moves) }
        ensures has { IfOk result (λ number. HasNumber self.new number place.now time) }
    {
        let key = key_of(place, time);
        if let Some(number) = self.find(key, place, time) {
            return Ok(number);
        }
        let number = self.all.len();
        self.table.add(alloc, key)?;
        self.all.reserve(1)?;
        self.looks.reserve(1)?;
        self.all.push_reserved(PlaceAt {
            place: *place,
            time,
        });
        self.looks.push_reserved(Look {
            below: 0,
            first: 0,
            end: 0,
        });
        Ok(number)
    }

    /// The number of a place at a time step, if it is found.
    fn find(&self, key: u64, place: &Place, time: u32) -> Option<usize>
        ensures { IfSome result (λ number. HasNumber self.now number place.now time) }
    {
        let number = self.table.find(key)?;
        let known = self.at(number)?;
        if known.time == time && known.place.is(place) {
            return Some(number);
        }
        None
    }
}

/// A number for a place at a time step. Others seldom have the same.
fn key_of(place: &Place, time: u32) -> u64 {
    let costs = u64::from(time) << 32 | u64::from(place.cost);
    let is = u64::from(place.cell.number()) * 2 + u64::from(place.is_home);
    mixed(costs, is)
}
