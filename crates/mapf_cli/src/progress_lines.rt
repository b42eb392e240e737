//! The lines that say how far a search has come.

use mapf_plan::{Sink, write_whole};
use mapf_solve::Watch;
use std::alloc::Global;
use std::time::{Clock, Duration, Instant};

/// The time from a line to the next, at least.
const SECONDS: u64 = 1;

/// How far a search has come: how many nodes were taken, and what each plan without conflict costs at least.
#[derive(Clone, Copy)]
struct Standing {
    nodes: u64,
    least: u64,
}

/// Writes how far a search has come: at first, then where a second has passed and a node was taken since the last line, and at
/// the end. Faults of the sink and of the clock are ignored.
#[derive(Drop)]
pub(crate) struct ProgressLines<'a, R, E> {
    clock: &'a R,
    alloc: Global,
    err: &'a mut E,
    /// What the search told last.
    told: Option<Standing>,
    /// After how many nodes the last line was written.
    written: Option<u64>,
    /// When that was, if the clock told it.
    at: Option<Instant>,
}

impl<'a, R: Clock, E: Sink> ProgressLines<'a, R, E> {
    /// No line is written yet.
    pub(crate) fn new(clock: &'a R, alloc: Global, err: &'a mut E) -> ProgressLines<'a, R, E> {
        ProgressLines {
            clock,
            alloc,
            err,
            told: None,
            written: None,
            at: None,
        }
    }

    /// Writes the line for the end of the search, if there was anything to tell.
    pub(crate) fn end(&mut self) {
        if let Some(standing) = self.told {
            self.write(standing);
        }
    }

    fn is_due(&self, nodes: u64) -> bool {
        let Some(written) = self.written else {
            return true;
        };
        let Some(at) = self.at else {
            return false;
        };
        let time = Duration::from_secs(SECONDS);
        written < nodes && at.elapsed(self.clock).is_ok_and(|passed| passed >= time)
    }

    fn write(&mut self, standing: Standing) {
        let Standing { nodes, least } = standing;
        if let Ok(line) = format!(in self.alloc;
            "mapf: {nodes} nodes, no plan costs less than {least}\n"
        ) {
            say(self.err, line.as_bytes());
        }
        self.written = Some(nodes);
        self.at = Instant::now(self.clock).ok();
    }
}

impl<R: Clock, E: Sink> Watch for ProgressLines<'_, R, E> {
    fn nodes_expanded(&mut self, nodes: u64, least: u64) {
        let standing = Standing { nodes, least };
        self.told = Some(standing);
        if self.is_due(nodes) {
            self.write(standing);
        }
    }
}

/// Writes to a sink whose faults are ignored. One that can't count another failure is left alone.
pub(crate) fn say<E: Sink>(err: &mut E, line: &[u8]) {
    if err.failures() < u64::MAX {
        let _ = write_whole(err, line);
    }
}
