//! Jobs that pass a gate.
ghost use Rattle.std.specs.Prelude.{◌≡◌, IfOk, IfErr};

use crate::gate::Gate;
use crate::supply::Supply;
use crate::work::{Pair, Work};

/// Performs a job as a worker does it: between the two calls of the gate, and only where the supply grants memory for it.
/// The job comes back where there is no memory, or none was granted.
pub(crate) fn perform_granted<W: Work, G: Gate, S: Supply>(
    work: &W,
    gate: &G,
    supply: &S,
    job: W::Job,
) -> Result<Pair<W>, W::Job>
    ensures ok { IfOk result (λ p. p.0 ≡ job) }
    ensures err { IfErr result (λ back. back ≡ job) }
{
    let number = work.number(&job);
    gate.enter(number);
    let done = if supply.grants(number) {
        work.perform(job)
    } else {
        Err(job)
    };
    gate.leave(number);
    done
}
