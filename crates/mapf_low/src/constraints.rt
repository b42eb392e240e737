ghost use Rattle.std.specs.Prelude.{◌≡◌, IsTrue};

pub(crate) mod times;

use crate::Constraint;
use crate::constraints::times::{later_of, time_at};
use mapf_grid::{Cell, NoMemory};
use std::alloc::Global;
use std::marker::Model;

/// What one agent is forbidden: a set of constraints.
#[derive(Drop)]
pub struct Constraints {
    sorted: Vec<Constraint>,
}

impl Model for Constraints {
    ghost use Rattle.std.specs.Prelude.{List};
    ghost use Rattle.mapf_low.specs.declared.constraint.Constraint.{Constraint};
    ghost use Rattle.mapf_low.specs.Kept.{IsKept};

    ghost Value = { List Constraint };

    ghost view = { λ c. c.sorted.items };

    ghost invariant = { λ c. IsKept c.sorted.items };
}

impl Constraints {
    ghost use Rattle.std.specs.Prelude.{◌≡◌, ◌⊎◌, ◌↔◌, [], All, IfOk, IsTrue, Contains};
    ghost use Rattle.mapf_low.specs.declared.constraint.Constraint.{Constraint};
    ghost use Rattle.mapf_low.specs.Kept.{HasTwoEnds};
    ghost use Rattle.mapf_low.specs.Best.{IsGreatest};

    /// The empty set.
    pub fn new(alloc: Global) -> Self
        ensures { result ≡ [] }
    {
        Constraints {
            sorted: Vec::new(alloc),
        }
    }

    /// The set with one constraint more, of which an edge has two ends; this set stands.
    pub fn with(&self, constraint: Constraint) -> Result<Constraints, NoMemory>
        requires { HasTwoEnds constraint }
        ensures { IfOk result (λ more. (c : Constraint) → Contains more c ↔ ((c ≡ constraint) ⊎ Contains self.now c)) }
    {
        self.copy()?.and(constraint)
    }

    /// This set with one constraint more, of which an edge has two ends.
    pub fn and(self, constraint: Constraint) -> Result<Constraints, NoMemory>
        requires { HasTwoEnds constraint }
        ensures { IfOk result (λ more. (c : Constraint) → Contains more c ↔ ((c ≡ constraint) ⊎ Contains self c)) }
    {
        let Constraints { mut sorted } = self;
        if let Err(place) = sorted.binary_search(&constraint) {
            sorted.insert(place, constraint)?;
        }
        Ok(Constraints { sorted })
    }

    /// An equal set.
    pub fn copy(&self) -> Result<Constraints, NoMemory>
        ensures { IfOk result (λ other. other ≡ self.now) }
    {
        Ok(Constraints {
            sorted: Vec::from_slice(*self.sorted.allocator(), self.sorted.as_slice())?,
        })
    }

    /// The constraints, in an order of their own.
    pub fn as_slice(&self) -> &[Constraint]
        ensures { result.now ≡ self.now }
    {
        self.sorted.as_slice()
    }

    /// Whether it is equal to another set.
    pub fn is_same(&self, other: &Constraints) -> bool
        ensures { IsTrue result → self.now ≡ other.now }
    {
        is_same_list(self.as_slice(), other.as_slice())
    }

    /// A number that another one and this set give, by which both are looked for. Others seldom give the same.
    pub fn mixed_into(&self, number: u64) -> u64 {
        let mut mixed = number;
        for constraint in &self.sorted {
            mixed = constraint.mixed_into(mixed);
        }
        mixed
    }

    /// Whether the agent may be on the cell at this time step.
    pub fn allows_at(&self, cell: Cell, time: u32) -> bool
        ensures { IsTrue result ↔ (¬ Contains self.now (Constraint.Vertex cell time)) }
    {
        !self.contains(Constraint::Vertex { cell, time })
    }

    /// Whether the agent may arrive on `to` from `from` at this time step.
    pub fn allows_step(&self, from: Cell, to: Cell, time: u32) -> bool
        ensures { IsTrue result ↔ (¬ Contains self.now (Constraint.Edge from to time)) }
    {
        !self.contains(Constraint::Edge { from, to, time })
    }

    /// The last time step at which the agent may not be on the cell, where there is one.
    pub fn last_time_at(&self, cell: Cell) -> Option<u32>
        ensures last { IsGreatest (λ t. Contains self.now (Constraint.Vertex cell t)) result }
        ensures ends { All HasTwoEnds self.now }
    {
        let mut last = None;
        for constraint in &self.sorted {
            last = later_of(last, time_at(*constraint, cell));
        }
        last
    }

    /// Whether the constraint is in the set.
    fn contains(&self, constraint: Constraint) -> bool
        ensures { IsTrue result ↔ Contains self.now constraint }
    {
        self.sorted.binary_search(&constraint).is_ok()
    }
}

/// Whether two lists of constraints are one.
fn is_same_list(one: &[Constraint], other: &[Constraint]) -> bool
    ensures { IsTrue result → one.now ≡ other.now }
{
    one == other
}
