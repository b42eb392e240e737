//! Each limit as a number. What is proved of the libraries is proved of their constants, whichever numbers these are.

use mapf_board::{MOST_SLOTS, MOST_TICKETS, MOST_WORKERS};
use mapf_grid::{MOST_AGENTS, MOST_SIDE};
use mapf_plan::{MOST_BOUND, MOST_BYTES, MOST_CELLS, MOST_COORDINATE, MOST_NODES, MOST_STATED};
use mapf_solve::{MOST_SESSION_NODES, MOST_WORKER_TURNS};

/// The rows and the columns of a map.
const _: () = prove!(MOST_SIDE == 2_048);

/// The agents of an instance.
const _: () = prove!(MOST_AGENTS == 1_000);

/// The bound on the cost.
const _: () = prove!(MOST_BOUND == 1_000_000);

/// The limit on nodes.
const _: () = prove!(MOST_NODES == 1_000_000);

/// The workers of a round and of a board.
const _: () = prove!(MOST_WORKERS == 64);

/// The jobs of a round.
const _: () = prove!(MOST_TICKETS == 1_000);

/// The slots of a board.
const _: () = prove!(MOST_SLOTS == 64);

/// The nodes of a session.
const _: () = prove!(MOST_SESSION_NODES == 4_096);

/// The turns of a worker in a session.
const _: () = prove!(MOST_WORKER_TURNS == 1_000_000);

/// The bytes of a file.
const _: () = prove!(MOST_BYTES == 67_108_864);

/// The cost that a plan's text states.
const _: () = prove!(MOST_STATED == 1_000_000_000);

/// The positions of a path.
const _: () = prove!(MOST_CELLS == 1_000_001);

/// The column and the row of a position in a plan's text, which have at most nine digits.
const _: () = prove!(MOST_COORDINATE == 999_999_999);
