ghost use Rattle.std.specs.Prelude.{◌≡◌, ◌<◌, ◌+◌, ◌^◌, ◌↔◌, IsTrue};
ghost use Rattle.mapf_low.specs.Distances.Mark.{unseen, seen, first_mark, distance_of};

use std::marker::Model;

/// What is known of a cell while distances are looked for, in 4 bytes: that it is blocked, that it is free and unseen, or its
/// distance.
#[derive(Clone, Copy)]
pub(crate) struct Mark {
    number: u32,
}

impl Model for Mark {
    ghost use Rattle.mapf_low.specs.Distances.Mark.{Mark, mark_of, number_of, number_of-mark_of};

    ghost Value = { Mark };

    ghost view = { λ m. mark_of m.number };

    ghost inverse = { λ m. record { number = number_of m } };

    ghost inverse_ok = { λ m h i. record { number = number_of-mark_of m.number i } };
}

impl Mark {
    /// Of a cell before a search, free or blocked.
    pub(crate) fn first(is_free: bool) -> Self
        ensures { result ≡ first_mark is_free }
    {
        Mark {
            number: u32::from(is_free),
        }
    }

    /// Of a cell that was seen at this distance.
    pub(crate) fn of_distance(distance: u32) -> Self
        requires { distance + 2 < 2 ^ 32 }
        ensures { result ≡ seen distance }
    {
        Mark {
            number: distance + 2,
        }
    }

    /// Whether the cell is free and unseen.
    pub(crate) fn is_unseen(self) -> bool
        ensures { IsTrue result ↔ (self ≡ unseen) }
    {
        self.number == 1
    }

    /// The distance, if the cell was seen.
    pub(crate) fn distance(self) -> Option<u32>
        ensures { result ≡ distance_of self }
    {
        self.number.checked_sub(2)
    }
}
