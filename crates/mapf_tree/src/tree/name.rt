//! The names of nodes.

ghost use Rattle.std.specs.Prelude.{◌≡◌, ◌-◌, ◌^◌, ◌<◌, ◌≤◌, [], ◌∷◌, ◌++◌, length, map, IfOk, IsOk};
ghost use Rattle.std.specs.Cmp.{eq_by_cmp_equiv, on_total, partial_equiv_from_equiv, partial_order_from_total, nat_cmp_total};
ghost use Rattle.std.specs.Cmp.Lexicographic.{slice_cmp, lists_total};
ghost use Rattle.std.specs.Ordering.{eq_by_cmp, as_partial_cmp, nat_cmp, on};
ghost use Rattle.std.proofs.Common.{rules};
ghost use Rattle.std.specs.Cmp.Rules.{comparing};
ghost use Rattle.mapf_tree.specs.Names.{turn, number_of, turns_of};

mod suffix;

use crate::Side;
use crate::tree::name::suffix::Suffix;
use mapf_grid::NoMemory;
use std::alloc::Global;
use std::cmp::Ordering;
use std::marker::Model;

/// How many turns a name keeps in its number.
const KEPT: usize = 64;

/// The turns that lead from the root to a node, the root's first.
///
/// The first 64 are kept as bits of a number, 1 where it is a turn to the right, so a name up to there has no memory of its
/// own, and two of them are compared as numbers.
#[derive(Debug)]
pub struct Name {
    /// The first turns, the root's in the highest bit; the bits behind the last turn are 0.
    first: u64,
    /// How many turns these are.
    few: usize,
    /// The turns behind the first 64.
    suffix: Suffix,
}

// By hand, so that a proof about what holds one sees a call where it is dropped, and not its fields.
impl Drop for Name {
    fn drop(self) {
        let Name {
            first: _,
            few: _,
            suffix: _,
        } = self;
    }
}

impl Model for Name {
    ghost use Rattle.std.specs.Prelude.{List, ◌++◌};
    ghost use Rattle.mapf_tree.specs.declared.tree.side.Side.{Side};
    ghost use Rattle.mapf_tree.specs.Names.{turns_of, IsKept};

    ghost Value = { List Side };

    ghost view = { λ n. turns_of n.few 64 n.first ++ n.suffix };

    ghost invariant = { λ n. IsKept n.first n.few n.suffix };
}

impl Name {
    /// The name of the root: no turn.
    pub fn root() -> Name
        ensures { result ≡ [] }
    {
        Name {
            first: 0,
            few: 0,
            suffix: Suffix::none(),
        }
    }

    /// How many turns it has.
    pub fn len(&self) -> usize
        ensures { result ≡ length self.now }
    {
        self.few + self.suffix.as_slice().len()
    }

    /// The name one turn further. Up to 64 turns it takes no memory.
    pub fn with(&self, alloc: Global, side: Side) -> Result<Name, NoMemory>
        ensures name { IfOk result (λ name. name ≡ self.now ++ side ∷ []) }
        ensures small { length self.now < 64 → IsOk result }
    {
        if self.few < KEPT {
            return Ok(Name {
                first: number_with(self.first, self.few, side),
                few: self.few + 1,
                suffix: Suffix::none(),
            });
        }
        Ok(Name {
            first: self.first,
            few: self.few,
            suffix: self.suffix.with(alloc, side)?,
        })
    }

    /// An equal name.
    pub fn copy(&self, alloc: Global) -> Result<Name, NoMemory>
        ensures { IfOk result (λ other. other ≡ self.now) }
    {
        Ok(Name {
            first: self.first,
            few: self.few,
            suffix: self.suffix.copy(alloc)?,
        })
    }

    /// The turns, the root's first.
    pub fn to_vec(&self, alloc: Global) -> Result<Vec<Side>, NoMemory>
        ensures { IfOk result (λ turns. turns.items ≡ self.now) }
    {
        let mut turns = first_turns(alloc, self.first, self.few)?;
        turns.extend_from_slice(self.suffix.as_slice())?;
        Ok(turns)
    }
}

/// The bit that this turn has in a name's number, turns from 0.
fn bit_of(turn: usize) -> u64
    requires { turn < 64 }
    ensures { result ≡ 2 ^ (63 - turn) }
{
    1 << (63 - turn)
}

/// The number of so many turns and this one behind them.
fn number_with(first: u64, few: usize, side: Side) -> u64
    requires room { few < 64 }
    requires number { number_of (turns_of few 64 first) 64 ≡ first }
    ensures { result ≡ number_of (turns_of few 64 first ++ side ∷ []) 64 }
{
    match side {
        Side::Left => first,
        Side::Right => first + bit_of(few),
    }
}

/// So many turns of a number.
fn first_turns(alloc: Global, number: u64, few: usize) -> Result<Vec<Side>, NoMemory>
    requires { few ≤ 64 }
    ensures { IfOk result (λ turns. turns.items ≡ turns_of few 64 number) }
{
    let mut turns = Vec::new(alloc);
    let mut left = number;
    for turn in 0..few {
        let bit = bit_of(turn);
        if left < bit {
            turns.push(Side::Left)?;
        } else {
            turns.push(Side::Right)?;
            left -= bit;
        }
    }
    Ok(turns)
}

impl PartialEq for Name {
    ghost eq = { eq_by_cmp (on (map turn) (slice_cmp nat_cmp)) };

    ghost laws = { partial_equiv_from_equiv (eq_by_cmp_equiv (on_total (map turn) (lists_total nat_cmp_total))) };

    fn eq(&self, other: &Name) -> bool {
        self.cmp(other).is_eq()
    }
}

impl Eq for Name {
    ghost laws = { eq_by_cmp_equiv (on_total (map turn) (lists_total nat_cmp_total)) };
}

impl PartialOrd for Name {
    ghost partial_cmp = { as_partial_cmp (on (map turn) (slice_cmp nat_cmp)) };

    ghost laws = { partial_order_from_total (on_total (map turn) (lists_total nat_cmp_total)) };

    fn partial_cmp(&self, other: &Name) -> Option<Ordering> {
        Some(self.cmp(other))
    }
}

/// Turn by turn, left before right, and a name before those that it begins.
impl Ord for Name {
    ghost cmp = { on (map turn) (slice_cmp nat_cmp) };

    ghost total = { on_total (map turn) (lists_total nat_cmp_total) };

    ghost matches_partial_cmp = { Prim.search (comparing, rules) };

    ghost matches_eq = { Prim.search (comparing, rules) };

    #[inline(always)]
    fn cmp(&self, other: &Name) -> Ordering {
        match self.first.cmp(&other.first) {
            Ordering::Equal => match self.few.cmp(&other.few) {
                Ordering::Equal => self.suffix.as_slice().cmp(other.suffix.as_slice()),
                decided => decided,
            },
            decided => decided,
        }
    }
}
