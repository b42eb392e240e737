//! How long a session goes on.

/// The most turns that a worker takes in a session.
pub const MOST_WORKER_TURNS: u64 = 1_000_000;

/// The most nodes that are taken in a session.
pub const MOST_SESSION_NODES: u64 = 4096;

/// The most nodes that are taken in a session of an answer from files, whether it is watched or not: most searches that end by keys do
/// so within a session, others go on by bounds sooner, and a watch hears often.
const USUAL_NODES: u64 = 256;

/// How long a session goes on. No answer depends on it.
#[derive(Clone, Copy, Debug, PartialEq, Eq)]
pub struct Pace {
    /// How many turns a worker takes at most: 0 to 1,000,000. With 0 turns it ends at once.
    pub worker_turns: u64,
    /// How many nodes are taken at most: 1 to 4,096. Then a new session begins.
    pub session_nodes: u64,
}

impl Pace {
    /// The longest sessions.
    pub const LONGEST: Pace = Pace {
        worker_turns: MOST_WORKER_TURNS,
        session_nodes: MOST_SESSION_NODES,
    };

    /// The sessions of an answer from files.
    pub(crate) const USUAL: Pace = Pace {
        worker_turns: MOST_WORKER_TURNS,
        session_nodes: USUAL_NODES,
    };
}
