//! The text of an answer, from the bytes of two files.

ghost use Rattle.std.specs.Prelude.{◌≡◌, ◌≢◌, ℕ, IfOk, IfErr, Some, None, Ok, Err};
ghost use Rattle.mapf_solve.specs.Out.{IsRefusal, IsOut, IsBest, KeepsLimit, IsOnlyOut, IsWorkers};
ghost use Rattle.mapf_solve.specs.AnyOut.{IsAnyText, KeepsAnyLimit};

use crate::asked::{text_or_fault, text_or_fault_alone};
use crate::means::Means;
use crate::wanted::Wanted;
use crate::{Ask, NoWatch, Refusal, Watch};
use mapf_board::Gate;
use std::alloc::Global;
use std::thread::Threads;

/// The text of the answer, or the first fault.
///
/// The text is that of the one answer of conflict-based search: a plan without conflict by the ask's rule that costs least
/// of all such plans, or `none` exactly if no plan without conflict costs at most the bound. It is the same for each number of
/// workers. With a limit on nodes the text is the same, or that the search gave up, with a lower bound on the cost of
/// every plan without conflict. Faults come in the order bound, workers, nodes, map, scenario, instance; `NoMemory` may
/// come in place of anything.
pub fn answer<R: Threads + Sync, G: Gate>(
    rt: &R,
    alloc: Global,
    map: &[u8],
    scen: &[u8],
    ask: Ask,
    gate: &G,
) -> Result<Vec<u8>, Refusal>
    // The text of conflict-based search's answer, or else the first fault.
    ensures text { IfOk result (λ bytes. IsOut map.now scen.now ask (Ok bytes.items)) }
    ensures fault { IfErr result (λ fault. fault ≢ Refusal.NoMemory → IsOut map.now scen.now ask (Err fault)) }

    // By the ask's rule no plan without conflict costs less; `none` exactly if none costs at most the bound.
    ensures best { IfOk result (λ bytes. ask.nodes ≡ None → IsBest map.now scen.now ask bytes.items) }

    // With a limit of n nodes the bytes are the same, unless the tree has a node at place n that is in the cut or is the first
    // solution: exactly then they are `gave up`, with a cost that each plan without conflict has at least.
    ensures limit { IfOk result (λ bytes. (n : ℕ) → ask.nodes ≡ Some n
        → KeepsLimit map.now scen.now ask n bytes.items) }

    // The same bytes, or the same fault, with any number of workers.
    ensures same { IfOk result (λ bytes. IsOnlyOut map.now scen.now ask (Ok bytes.items)) }
    ensures same_fault { IfErr result
        (λ fault. fault ≢ Refusal.NoMemory → IsWorkers ask → IsOnlyOut map.now scen.now ask (Err fault)) }
{
    answer_watched(rt, alloc, map, scen, ask, gate, &mut NoWatch)
}

/// What [`answer`] gives, and a watch is told how far the search has come: first of the root, if that is in the tree, then after each
/// 256 nodes or fewer, by bounds before each node, and last of the end. What is given doesn't depend on the watch.
pub fn answer_watched<R: Threads + Sync, G: Gate, W: Watch>(
    rt: &R,
    alloc: Global,
    map: &[u8],
    scen: &[u8],
    ask: Ask,
    gate: &G,
    watch: &mut W,
) -> Result<Vec<u8>, Refusal>
    ensures text { IfOk result (λ bytes. IsOut map.now scen.now ask (Ok bytes.items)) }
    ensures fault { IfErr result (λ fault. fault ≢ Refusal.NoMemory → IsOut map.now scen.now ask (Err fault)) }
    ensures best { IfOk result (λ bytes. ask.nodes ≡ None → IsBest map.now scen.now ask bytes.items) }
    ensures limit { IfOk result (λ bytes. (n : ℕ) → ask.nodes ≡ Some n
        → KeepsLimit map.now scen.now ask n bytes.items) }
    ensures same { IfOk result (λ bytes. IsOnlyOut map.now scen.now ask (Ok bytes.items)) }
    ensures same_fault { IfErr result
        (λ fault. fault ≢ Refusal.NoMemory → IsWorkers ask → IsOnlyOut map.now scen.now ask (Err fault)) }
{
    let means = Means::new(rt, alloc, gate);
    text_or_fault(means, map, scen, ask, Wanted::FirstSolution, watch)
}

/// The text of the answer, or the first fault, as [`answer`] gives it: no thread is started, whatever number of
/// workers is asked for. That number is tested as ever, and else not used.
pub fn answer_alone(alloc: Global, map: &[u8], scen: &[u8], ask: Ask) -> Result<Vec<u8>, Refusal>
    ensures text { IfOk result (λ bytes. IsOut map.now scen.now ask (Ok bytes.items)) }
    ensures fault { IfErr result (λ fault. fault ≢ Refusal.NoMemory → IsOut map.now scen.now ask (Err fault)) }
    ensures best { IfOk result (λ bytes. ask.nodes ≡ None → IsBest map.now scen.now ask bytes.items) }
    ensures limit { IfOk result (λ bytes. (n : ℕ) → ask.nodes ≡ Some n
        → KeepsLimit map.now scen.now ask n bytes.items) }
    ensures same { IfOk result (λ bytes. IsOnlyOut map.now scen.now ask (Ok bytes.items)) }
    ensures same_fault { IfErr result
        (λ fault. fault ≢ Refusal.NoMemory → IsWorkers ask → IsOnlyOut map.now scen.now ask (Err fault)) }
{
    text_or_fault_alone(alloc, map, scen, ask, Wanted::FirstSolution)
}

/// The text of any optimum, or the first fault.
///
/// The text is a plan without conflict by the ask's rule that costs least of all such plans, whichever of several, or `none` exactly
/// if no plan without conflict costs at most the bound. With a limit on nodes it is that, or that the search gave up, with a lower
/// bound on the cost of every plan without conflict. Faults are those of [`answer`].
pub fn answer_any<R: Threads + Sync, G: Gate>(
    rt: &R,
    alloc: Global,
    map: &[u8],
    scen: &[u8],
    ask: Ask,
    gate: &G,
) -> Result<Vec<u8>, Refusal>
    // The text of an optimum, or else the first fault.
    ensures text { IfOk result (λ bytes. IsAnyText map.now scen.now ask bytes.items) }
    ensures fault { IfErr result (λ fault. fault ≢ Refusal.NoMemory → IsRefusal map.now scen.now ask fault) }

    // By the ask's rule no plan without conflict costs less; `none` exactly if none costs at most the bound.
    ensures best { IfOk result (λ bytes. ask.nodes ≡ None → IsBest map.now scen.now ask bytes.items) }

    // With a limit of n nodes the same, or that the search gave up, with a cost that each plan without conflict has at least.
    ensures limit { IfOk result (λ bytes. (n : ℕ) → ask.nodes ≡ Some n
        → KeepsAnyLimit map.now scen.now ask n bytes.items) }
{
    answer_any_watched(rt, alloc, map, scen, ask, gate, &mut NoWatch)
}

/// What [`answer_any`] gives, and a watch is told how far the search has come.
pub fn answer_any_watched<R: Threads + Sync, G: Gate, W: Watch>(
    rt: &R,
    alloc: Global,
    map: &[u8],
    scen: &[u8],
    ask: Ask,
    gate: &G,
    watch: &mut W,
) -> Result<Vec<u8>, Refusal>
    ensures text { IfOk result (λ bytes. IsAnyText map.now scen.now ask bytes.items) }
    ensures fault { IfErr result (λ fault. fault ≢ Refusal.NoMemory → IsRefusal map.now scen.now ask fault) }
    ensures best { IfOk result (λ bytes. ask.nodes ≡ None → IsBest map.now scen.now ask bytes.items) }
    ensures limit { IfOk result (λ bytes. (n : ℕ) → ask.nodes ≡ Some n
        → KeepsAnyLimit map.now scen.now ask n bytes.items) }
{
    let means = Means::new(rt, alloc, gate);
    text_or_fault(means, map, scen, ask, Wanted::AnyOptimum, watch)
}

/// The text of any optimum, or the first fault, as [`answer_any`] gives it: no thread is started, whatever number of workers is asked
/// for. That number is tested as ever, and else not used.
pub fn answer_any_alone(
    alloc: Global,
    map: &[u8],
    scen: &[u8],
    ask: Ask,
) -> Result<Vec<u8>, Refusal>
    ensures text { IfOk result (λ bytes. IsAnyText map.now scen.now ask bytes.items) }
    ensures fault { IfErr result (λ fault. fault ≢ Refusal.NoMemory → IsRefusal map.now scen.now ask fault) }
    ensures best { IfOk result (λ bytes. ask.nodes ≡ None → IsBest map.now scen.now ask bytes.items) }
    ensures limit { IfOk result (λ bytes. (n : ℕ) → ask.nodes ≡ Some n
        → KeepsAnyLimit map.now scen.now ask n bytes.items) }
{
    text_or_fault_alone(alloc, map, scen, ask, Wanted::AnyOptimum)
}
