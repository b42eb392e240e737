//! What a seat of the tickets knows, and how large the tickets are.
use std::collections::LinkedList;

/// How many numbers there are, and how many seats.
#[derive(Clone, Copy)]
pub struct Sizes {
    pub count: u64,
    pub seats: u64,
}

/// What was drawn, how many of the seats that it stands for are spent and how many aren't, and the count of all numbers.
/// No value of it is made.
pub struct TicketView {
    pub drawn: LinkedList<u64>,
    pub spent: u64,
    pub rest: u64,
    pub count: u64,
}
