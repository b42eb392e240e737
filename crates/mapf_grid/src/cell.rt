ghost use Rattle.std.specs.Prelude.{◌≡◌};

use std::marker::Model;

/// A cell of a map, by its number: the cell in column x of row y is `y * width + x`.
#[derive(Clone, Copy, Debug, Default, PartialEq, Eq, PartialOrd, Ord, Hash)]
pub struct Cell {
    number: u32,
}

impl Model for Cell {
    ghost use Rattle.std.specs.Prelude.{ℕ};

    ghost Value = { ℕ };

    ghost view = { λ c. c.number };

    ghost inverse = { λ n. record { number = n } };
}

impl Cell {
    /// The cell of this number.
    pub fn of(number: u32) -> Self
        ensures { result ≡ number }
    {
        Cell { number }
    }

    /// The cell's number.
    pub fn number(self) -> u32
        ensures { result ≡ self }
    {
        self.number
    }
}
