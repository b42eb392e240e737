//! Which cells were taken by the agents that were looked at in a round.

ghost use Rattle.std.specs.Prelude.{ℕ, IsFalse};
ghost use Rattle.mapf_plan.specs.declared.rule.Rule.{Rule};
ghost use Rattle.mapf_plan.specs.Marks.{IsMarked, beside};

use crate::Rule;
use mapf_grid::Cell;
use std::marker::Model;

/// How many places there are for marks. Numbers that differ by a multiple of it share a place.
const PLACES: usize = 4096;

/// What is added to a sum of two cells, so that it is marked apart from cells: on a map of at most 1,024 cells no sum then
/// shares a place with a cell, and on one of less than 2,048 fewer do, so fewer agents are compared in vain.
const SWAPS: u64 = 2048;

/// Numbers that were marked in a round; the marks of an earlier round don't count. A number that wasn't marked may look as
/// if it was, but not the other way round.
#[derive(Drop)]
pub(crate) struct Marks {
    rounds: [u8; PLACES],
}

impl Model for Marks {
    ghost use Rattle.std.specs.Prelude.{ℕ, List, ◌≡◌, length};

    ghost Value = { List ℕ };

    ghost view = { λ m. m.rounds };
}

impl Marks {
    /// No marks but those of round 0.
    pub(crate) fn new() -> Marks {
        Marks {
            rounds: [0; PLACES],
        }
    }

    /// Marks an agent's step from a cell to another or the same. Answers whether it may have a conflict with a step that was
    /// marked in this round; not if not.
    pub(crate) fn meets(&mut self, rule: Rule, round: u8, from: Cell, to: Cell) -> bool
        ensures apart { IsFalse result
            → (¬ IsMarked self.old round to) × (¬ IsMarked self.old round (beside rule from to)) }
        ensures marked { IsMarked self.new round to × IsMarked self.new round (beside rule from to) }
        ensures keeps { (number : ℕ) → IsMarked self.old round number → IsMarked self.new round number }
    {
        let to_number = u64::from(to.number());
        let from_number = u64::from(from.number());
        let other = match rule {
            Rule::Classical => from_number + to_number + SWAPS,
            Rule::NoFollowing => from_number,
        };
        let met = self.is_marked(round, to_number) || self.is_marked(round, other);
        self.mark(round, to_number);
        self.mark(round, other);
        met
    }

    /// Whether a number looks as if it was marked in a round.
    fn is_marked(&self, round: u8, number: u64) -> bool
        ensures { IsFalse result → ¬ IsMarked self.now round number }
    {
        self.rounds[(number % PLACES as u64) as usize] == round
    }

    /// Marks a number.
    fn mark(&mut self, round: u8, number: u64)
        ensures marked { IsMarked self.new round number }
        ensures keeps { (other : ℕ) → IsMarked self.old round other → IsMarked self.new round other }
    {
        self.rounds[(number % PLACES as u64) as usize] = round;
    }
}
