//! How a worker spends the time in which there is nothing to claim.

use std::sync::atomic::{AtomicU64, Ordering};
use std::thread;

/// The longest count before the processor is offered, in steps of a counter of its own: some microseconds.
const LONGEST: u64 = 1024;

/// How many turns in a row find nothing before the processor is offered to other threads after each.
const PATIENCE: u64 = 64;

/// Pauses that grow, so that one who finds nothing looks more and more seldom at words that others need, and lets others
/// have the processor.
#[derive(Drop)]
pub(crate) struct Pause {
    /// How many turns found nothing since the last job.
    fruitless: u64,
    counter: AtomicU64,
}

impl Pause {
    /// No pause yet.
    pub(crate) fn new() -> Pause {
        Pause {
            fruitless: 0,
            counter: AtomicU64::new(0),
        }
    }

    /// There was something to do: pauses are short again.
    pub(crate) fn shorten(&mut self) {
        self.fruitless = 0;
    }

    /// Pauses, for a step more with each eight turns that found nothing, and after many such turns lets other threads go
    /// first.
    pub(crate) fn take(&mut self) {
        self.fruitless = self.fruitless.saturating_add(1);
        for _step in 0..(self.fruitless / 8).min(LONGEST) {
            self.counter.fetch_add(1, Ordering::Relaxed);
        }
        if self.fruitless > PATIENCE {
            thread::yield_now();
        }
    }
}
