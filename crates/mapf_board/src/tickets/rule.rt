//! The rule of the tickets' table, and the names of its steps.
ghost use Rattle.std.specs.Prelude.{[]};
ghost use Rattle.mapf_board.specs.Tickets.{IsTicketState, ticket_view, draws, left, right, joined, gone};

use super::view::{Sizes, TicketView};
use atomic_table::{Join, Play, Split, TableRule};

/// The counter, the count and what all seats drew fit together.
pub struct TicketRule;

impl TableRule<u8, TicketView, Sizes> for TicketRule {
    ghost holds = { IsTicketState };

    ghost first = { λ key. ticket_view [] 0 key.seats key.count };
}

/// A number is drawn, or the seat is spent.
pub struct Draw;

impl Play<u8, TicketView> for Draw {
    ghost then = { draws };
}

/// A seat is cut off.
pub struct Cut;

impl Split<TicketView> for Cut {
    ghost left = { left };

    ghost right = { right };
}

/// A seat is taken in.
pub struct Both;

impl Join<TicketView> for Both {
    ghost both = { joined };

    ghost spent = { gone };
}
