//! A use of `mapf_board`: two threads draw tickets, the numbers below ten, each of which is drawn once.

ghost use Rattle.mapf_board.specs.Seats.{IsSeatOf, IsSpent};

use anyhow::Result;
use mapf_board::{TicketSeat, Tickets};
use std::alloc::{AllocError, Global};
use std::thread::{Threads, join};

/// How many numbers there are.
const COUNT: usize = 10;

/// Prints how many tickets two threads drew, and the sum of their numbers.
pub(crate) fn show<R: Print + Threads + Sync>(rt: &R, alloc: Global) -> Result<()> {
    let (tickets, mut seats) = Tickets::new(alloc, COUNT, 2).map_err(|_| AllocError)?;
    let (second, first) = (seats.pop().unwrap(), seats.pop().unwrap());
    let ((first, one), (second, other)) = join(
        rt,
        || draw_all(&tickets, first),
        || draw_all(&tickets, second),
    );
    let drawn = tickets.close(vec![in alloc; first, second]?);
    println!(rt;
        "{drawn} numbers were drawn, and their sum is {}",
        one.saturating_add(other)
    )?;
    Ok(())
}

/// Draws until no number is left, and adds up what was drawn.
fn draw_all(tickets: &Tickets, mut seat: TicketSeat) -> (TicketSeat, u64)
    requires { IsSeatOf tickets.now seat }
    ensures own { IsSeatOf tickets.now result.0 }
    ensures spent { IsSpent result.0 }
{
    let mut sum: u64 = 0;
    while let Some(number) = tickets.draw(&mut seat) {
        sum = sum.saturating_add(number as u64);
    }
    (seat, sum)
}
