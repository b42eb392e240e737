//! How many of each there are at most.

/// The numbers of tickets, and so the orders of a round.
pub const MOST_TICKETS: usize = 1000;

/// The seats of tickets, the workers of a round, and the workers of a board.
pub const MOST_WORKERS: usize = 64;

/// The slots of a board.
pub const MOST_SLOTS: usize = 64;
