//! The joint places that are known.

ghost use Rattle.std.specs.Prelude.{◌≡◌, ℕ, [], Some, slice_get, IfOk, IsTrue, OnOk};
ghost use Rattle.mapf_optimum.specs.PlaceNumbers.{Grows, IsTakenFrom};

use super::place::Numbers;
use super::place_table::{PlaceTable, mixed};
use mapf_grid::NoMemory;
use std::alloc::Global;
use std::marker::Model;

/// Joint places, each once or a few times, of which some wait to be gone on from.
#[derive(Drop)]
pub(crate) struct JointPlaces {
    /// Of each the numbers of the agents' places.
    all: Vec<Numbers>,
    /// From which each came, if from one.
    befores: Vec<Option<usize>>,
    /// The numbers of those that wait.
    waiting: Vec<usize>,
    /// Where in the list one may stand: what is found there is compared.
    table: PlaceTable,
}

impl Model for JointPlaces {
    ghost use Rattle.mapf_optimum.specs.PlaceNumbers.{Known};

    ghost Value = { Known };

    ghost view = { λ k. record { all = k.all.items; waiting = k.waiting.items } };
}

impl JointPlaces {
    /// None.
    pub(crate) fn new(alloc: Global) -> Result<JointPlaces, NoMemory>
        ensures { IfOk result (λ known. known ≡ record { all = []; waiting = [] }) }
    {
        Ok(JointPlaces {
            all: Vec::new(alloc),
            befores: Vec::new(alloc),
            waiting: Vec::new(alloc),
            table: PlaceTable::new(alloc)?,
        })
    }

    /// The numbers of the agents' places.
    pub(crate) fn at(&self, number: usize) -> Option<Numbers>
        ensures { result ≡ slice_get self.now.all number }
    {
        self.all.get(number).copied()
    }

    /// From which it came, if from one.
    pub(crate) fn before(&self, number: usize) -> Option<usize> {
        *self.befores.get(number)?
    }

    /// Takes the number of the one out that waits last.
    pub(crate) fn take(&mut self) -> Option<usize>
        ensures { IsTakenFrom self.old result self.new }
    {
        self.waiting.pop()
    }

    /// Adds one, which came from that one or from none, if it isn't found.
    pub(crate) fn add(
        &mut self,
        alloc: Global,
        joint: &Numbers,
        before: Option<usize>,
    ) -> Result<(), NoMemory>
        ensures grows { OnOk result (Grows self.old self.new) }
        ensures has { OnOk result ((n : ℕ) × (slice_get self.new.all n ≡ Some joint.now)) }
    {
        let key = key_of(joint);
        if self.has(key, joint) {
            return Ok(());
        }
        let number = self.all.len();
        self.waiting.push(number)?;
        self.befores.push(before)?;
        self.all.push(*joint)?;
        self.table.add(alloc, key)?;
        Ok(())
    }

    /// Whether that joint place is found.
    fn has(&self, key: u64, joint: &Numbers) -> bool
        ensures { IsTrue result → (n : ℕ) × (slice_get self.now.all n ≡ Some joint.now) }
    {
        match self.table.find(key).and_then(|number| self.at(number)) {
            Some(known) => known == *joint,
            None => false,
        }
    }
}

/// A number for a joint place. Others seldom have the same.
fn key_of(joint: &Numbers) -> u64 {
    let mut key = 0_u64;
    for number in joint {
        key = mixed(key, *number as u64);
    }
    key
}
