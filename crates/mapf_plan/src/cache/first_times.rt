//! When agents on two paths have their first conflict, as far as that is known: a table by the paths' numbers.

ghost use Rattle.std.specs.Prelude.{◌≡◌, ◌≢◌, ℕ, ◌<◌, ◌≤◌, [], length, slice_index, OnOk, IfOk, IsTrue};
ghost use Rattle.mapf_grid.specs.declared.instance.TheConstants.{MOST_AGENTS};
ghost use Rattle.mapf_plan.specs.KnownPaths.{row_in, time_in, known_time, AreKept, IsAdded, IsKept, IsSetTime};
ghost use Rattle.mapf_plan.specs.PairConflicts.{HasAllOf};

use crate::PairConflict;
use crate::pair_conflicts::pair_conflict_of;
use mapf_grid::NoMemory;
use std::alloc::Global;
use std::marker::Model;

/// Of paths of this number or a larger one no times are kept, so that a table has a bound.
const MOST_KEPT: usize = 2_048;

/// What is known of when agents on two paths have their first conflict.
#[derive(Clone, Copy)]
pub(crate) enum FirstTime {
    /// Nothing.
    Unknown,
    /// They never have one.
    Never,
    /// They have none before this time step.
    At(u32),
}

impl FirstTime {
    /// What is known once the time was looked for.
    pub(crate) fn of(found: Option<u32>) -> FirstTime
        ensures { result ≡ known_time found }
    {
        match found {
            Some(time) => FirstTime::At(time),
            None => FirstTime::Never,
        }
    }
}

/// What is known of each two paths. It is kept in either order, so that a path's row tells of all others.
#[derive(Drop)]
pub(crate) struct FirstTimes {
    alloc: Global,
    rows: Vec<Vec<FirstTime>>,
}

impl Model for FirstTimes {
    ghost use Rattle.std.specs.Prelude.{List, map};
    ghost use Rattle.mapf_plan.specs.declared.cache.first_times.FirstTime.{FirstTime};

    ghost Value = { List (List FirstTime) };

    ghost view = { λ t. map (λ row. row.items) t.rows.items };
}

impl FirstTimes {
    /// Nothing is known yet.
    pub(crate) fn new(alloc: Global) -> FirstTimes
        ensures { result ≡ [] }
    {
        FirstTimes {
            alloc,
            rows: Vec::new(alloc),
        }
    }

    /// What is known of one path, by the number of the other.
    pub(crate) fn row(&self, one: usize) -> &[FirstTime]
        ensures { result.now ≡ row_in self.now one }
    {
        match self.rows.get(one) {
            Some(row) => row,
            None => &[],
        }
    }

    /// Keeps what is known of two paths in either order, unless a number is too large or memory runs out.
    pub(crate) fn keep(&mut self, one: usize, other: usize, time: FirstTime)
        ensures { AreKept self.old self.new one other time }
    {
        self.keep_at(one, other, time);
        self.keep_at(other, one, time);
    }

    /// The same in one order.
    fn keep_at(&mut self, one: usize, other: usize, time: FirstTime)
        ensures { IsKept self.old self.new one other time }
    {
        if one >= MOST_KEPT || other >= MOST_KEPT {
            return;
        }
        if self.reach_row(one).is_ok() {
            let _ = keep_in_row(&mut self.rows[one], other, time);
        }
    }

    /// Adds rows of which nothing is known, until there is one of this number.
    fn reach_row(&mut self, one: usize) -> Result<(), NoMemory>
        requires { one < MOST_KEPT }
        ensures row { OnOk result (one < length self.new) }
        ensures same { (i : ℕ) → row_in self.new i ≡ row_in self.old i }
    {
        for _row in self.rows.len()..one + 1 {
            self.rows.push(Vec::new(self.alloc))?;
        }
        Ok(())
    }
}

/// Keeps what is known of a row's path and another, unless memory runs out. Of those before it that are new nothing is known.
fn keep_in_row(row: &mut Vec<FirstTime>, other: usize, time: FirstTime) -> Result<(), NoMemory>
    requires { other < MOST_KEPT }
    ensures { IsSetTime row.old.items row.new.items other time }
{
    for _entry in row.len()..other + 1 {
        row.push(FirstTime::Unknown)?;
    }
    row[other] = time;
    Ok(())
}

/// What a row knows of the path of this number.
pub(crate) fn time_of(row: &[FirstTime], other: usize) -> FirstTime
    ensures { result ≡ time_in row.now other }
{
    row.get(other).copied().unwrap_or(FirstTime::Unknown)
}

/// Adds the pair conflicts of an agent with each other one from a first one on, as far as they are known of its path's row: up to
/// the agent that is returned.
pub(crate) fn add_known(
    row: &[FirstTime],
    numbers: &[usize],
    agent: usize,
    from: usize,
    conflicts: &mut Vec<PairConflict>,
) -> Result<usize, NoMemory>
    requires agents { length numbers.now ≤ MOST_AGENTS }
    requires agent { agent < length numbers.now }
    ensures keeps { OnOk result (HasAllOf conflicts.new.items conflicts.old.items) }
    ensures added { IfOk result (λ end. (k : ℕ) → from ≤ k → k < end → k ≢ agent
        → IsAdded agent k (time_in row.now (slice_index numbers.now k)) conflicts.new.items) }
{
    for other in from..numbers.len() {
        if other == agent {
            continue;
        }
        if !add_time(time_of(row, numbers[other]), agent, other, conflicts)? {
            return Ok(other);
        }
    }
    Ok(numbers.len())
}

/// Adds the pair conflict of two agents, if it is known whether there is one; answers whether it is.
fn add_time(
    time: FirstTime,
    agent: usize,
    other: usize,
    conflicts: &mut Vec<PairConflict>,
) -> Result<bool, NoMemory>
    requires agents { (agent < MOST_AGENTS) × (other < MOST_AGENTS) }
    ensures keeps { OnOk result (HasAllOf conflicts.new.items conflicts.old.items) }
    ensures added { IfOk result (λ known. IsTrue known → IsAdded agent other time conflicts.new.items) }
{
    match time {
        FirstTime::Unknown => Ok(false),
        FirstTime::Never => Ok(true),
        FirstTime::At(time) => {
            conflicts.push(pair_conflict_of(agent, other, time))?;
            Ok(true)
        }
    }
}
