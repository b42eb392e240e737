//! Sessions without workers.

ghost use Rattle.std.specs.Prelude.{◌≡◌, ◌+◌, ◌/◌, ◌<◌, ◌≤◌, ◌↔◌, IsTrue};
ghost use Rattle.mapf_solve.specs.declared.sessions_alone.TheConstants.{LONGEST, NODES_A_CHILD};

/// Workers found too little to do where they worked out fewer children than one for so many nodes.
const NODES_A_CHILD: u64 = 4;

/// How many sessions go on without workers at first, and by what that grows.
const FIRST: u64 = 4;

/// The most sessions in a row without workers.
const LONGEST: u64 = 64;

/// How many sessions go on without workers, where these found too little to do: 4, and each further time 4 times as many, up to 64.
///
/// A thread that looks for jobs slows the one that searches, on a machine whose processors share a core. No answer depends on who
/// works a child out.
#[derive(Drop)]
pub(crate) struct SessionsAlone {
    /// How many sessions without workers are left.
    sessions: u64,
    /// How many there are to be next.
    next: u64,
    /// How many children workers worked out in this session.
    children: u64,
    ghost few: { (sessions ≤ LONGEST) × (next ≤ LONGEST) },
}

impl SessionsAlone {
    /// There are workers in the first session.
    pub(crate) fn new() -> SessionsAlone {
        SessionsAlone {
            sessions: 0,
            next: FIRST,
            children: 0,
        }
    }

    /// A worker worked a child out.
    pub(crate) fn count(&mut self)
        ensures { self.old.children < u64.MAX → self.new.children ≡ self.old.children + 1 }
    {
        self.children = self.children.saturating_add(1);
    }

    /// Whether the session that begins goes on without workers.
    pub(crate) fn is_due(&self) -> bool
        ensures { IsTrue result ↔ 0 < self.now.sessions }
    {
        self.sessions > 0
    }

    /// A session of so many nodes ended.
    pub(crate) fn judge(&mut self, nodes: u64)
        ensures back { 0 < self.old.sessions → self.new.sessions + 1 ≡ self.old.sessions }
        ensures with_workers { self.old.sessions ≡ 0 → nodes / NODES_A_CHILD ≤ self.old.children
            → self.new.sessions ≡ 0 }
    {
        if self.sessions > 0 {
            self.sessions -= 1;
        } else if self.children < nodes / NODES_A_CHILD {
            self.sessions = self.next;
            self.next = self.next.saturating_mul(FIRST).min(LONGEST);
        } else {
            self.next = FIRST;
        }
        self.children = 0;
    }
}
