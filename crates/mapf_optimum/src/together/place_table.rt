//! A table by which places are found.

use mapf_grid::NoMemory;
use std::alloc::Global;
use std::mem::replace;

/// How many slots the first table has.
const SLOTS: usize = 256;

/// No number.
const NONE: usize = usize::MAX;

/// The numbers 0, 1, 2, ... as they were added, each with a key. Nothing rests on it: what is found by it is compared.
#[derive(Drop)]
pub(crate) struct PlaceTable {
    /// Each number's entry.
    entries: Vec<Entry>,
    /// In each slot the number that was added last.
    lasts: Vec<usize>,
}

/// A number's key, and which number was in its slot before.
#[derive(Clone, Copy)]
struct Entry {
    key: u64,
    before: usize,
}

impl PlaceTable {
    /// No numbers.
    pub(crate) fn new(alloc: Global) -> Result<PlaceTable, NoMemory> {
        Ok(PlaceTable {
            entries: Vec::new(alloc),
            lasts: vec![in alloc; NONE; SLOTS]?,
        })
    }

    /// The number that was added last with this key.
    pub(crate) fn find(&self, key: u64) -> Option<usize> {
        let mut number = *self.lasts.get(slot_of(key, self.lasts.len()))?;
        for _step in 0..self.entries.len() {
            let entry = self.entries.get(number)?;
            if entry.key == key {
                return Some(number);
            }
            number = entry.before;
        }
        None
    }

    /// Adds the next number with this key.
    pub(crate) fn add(&mut self, alloc: Global, key: u64) -> Result<(), NoMemory> {
        let number = self.entries.len();
        if number.saturating_mul(2) > self.lasts.len() {
            self.grow(alloc)?;
        }
        let before = put(&mut self.lasts, key, number);
        self.entries.push(Entry { key, before })?;
        Ok(())
    }

    /// Makes more slots.
    fn grow(&mut self, alloc: Global) -> Result<(), NoMemory> {
        let size = self.lasts.len().saturating_mul(4);
        self.lasts = vec![in alloc; NONE; size]?;
        for number in 0..self.entries.len() {
            if let Some(entry) = self.entries.get_mut(number) {
                entry.before = put(&mut self.lasts, entry.key, number);
            }
        }
        Ok(())
    }
}

/// The key's slot, of so many.
fn slot_of(key: u64, slots: usize) -> usize {
    (key >> 32) as usize & slots.saturating_sub(1)
}

/// Writes a number into its key's slot, and gives the one that stood there.
fn put(lasts: &mut [usize], key: u64, number: usize) -> usize {
    let slot = slot_of(key, lasts.len());
    match lasts.get_mut(slot) {
        Some(last) => replace(last, number),
        None => NONE,
    }
}

/// A key into which a number is mixed. Others seldom make the same.
pub(crate) fn mixed(key: u64, number: u64) -> u64 {
    (key.rotate_left(23) ^ number).wrapping_mul(0x9e37_79b9_7f4a_7c15)
}
