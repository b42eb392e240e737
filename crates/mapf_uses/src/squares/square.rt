//! What is asked and answered: a number, and its square.
ghost use Rattle.std.specs.Prelude.{◌≡◌, ◌*◌};

use mapf_board::{Pair, Task, Work};

/// What is the square of a number?
pub struct Squares;

impl Task for Squares {
    type Job = u32;

    type Answer = u64;

    ghost fits = { λ number square. square ≡ number * number };
}

impl Work for Squares {
    fn number(&self, number: &u32) -> u64 {
        u64::from(*number)
    }

    fn perform(&self, number: u32) -> Result<Pair<Squares>, u32> {
        Ok(Pair::of(number, square_of(number)))
    }
}

/// The square, which a `u64` holds.
pub fn square_of(number: u32) -> u64
    ensures { result ≡ number * number }
{
    u64::from(number) * u64::from(number)
}
