//! A round: workers in threads draw the numbers of orders, do the jobs that are ordered, and are joined.

ghost use Rattle.std.specs.Prelude.{◌≡◌, ◌<◌, ◌≤◌, All, IfOk, None, length, map};
ghost use Rattle.std.specs.List.{AllZip};
ghost use Rattle.mapf_board.specs.Rounds.{ArePlacesOf, IsNumbered};
ghost use Rattle.mapf_board.specs.Seats.{IsSeatOf, count_of};
ghost use Rattle.mapf_board.specs.declared.limits.TheConstants.{MOST_TICKETS, MOST_WORKERS};

use crate::gate::Gate;
use crate::no_memory::NoMemory;
use crate::passing::perform_granted;
use crate::supply::Supply;
use crate::tickets::{TicketSeat, Tickets};
use crate::work::{Pair, Task, Work};
use std::alloc::Global;
use std::thread;
use std::thread::Threads;

/// What a job is made from. The workers of a round share its orders, and the one that draws an order's number makes the
/// job: so an order may refer to what a job, which outlives the round, has to copy.
pub trait Order<W: Task> {
    // the job that is ordered
    ghost ordered: { Self → W.Job };

    /// The job that is ordered. An error is that memory ran out.
    fn job(&self, alloc: Global) -> Result<W::Job, NoMemory>
        ensures { IfOk result (λ job. job ≡ ordered self.now) };
}

/// The answers to at most 1,000 orders, in their order: the jobs are done in a round by 1 to 64 workers. What the round
/// left undone, for want of memory, is done alone by the caller, through no gate. An error is that memory ran out there
/// too, or for the round as a whole.
pub fn answer_all<R: Threads + Sync, W: Work, O: Order<W> + Sync, G: Gate, S: Supply>(
    rt: &R,
    alloc: Global,
    work: &W,
    orders: &[O],
    gate: &G,
    supply: &S,
    workers: usize,
) -> Result<Vec<W::Answer>, NoMemory>
    requires orders { length orders.now ≤ MOST_TICKETS }
    requires workers { (0 < workers) × (workers ≤ MOST_WORKERS) }
    ensures { IfOk result (λ answers. AllZip W.fits (map O.ordered orders.now) answers.items) }
{
    let places = run_round(rt, alloc, work, orders, gate, supply, workers)?;
    let mut answers = Vec::with_capacity(alloc, orders.len())?;
    for (order, place) in orders.iter().zip(places) {
        let pair = match place {
            Some(pair) => pair,
            None => do_alone(alloc, work, order)?,
        };
        answers.push(pair.parts().1)?;
    }
    Ok(answers)
}

/// Does the jobs of at most 1,000 orders by 1 to 64 workers, and no more than there are orders, and returns when all of
/// them have ended.
///
/// There is a place for each order, in the orders' order, which holds the pair of its job. It is empty where there was no
/// memory for the job, when it was made, done or kept. An error is that memory ran out for the round as a whole (its
/// tickets, its threads or the list of places); the pairs that were made are lost then, and the orders stand as they were.
pub fn run_round<'r, R: Threads + Sync, W: Work, O: Order<W> + Sync, G: Gate, S: Supply>(
    rt: &R,
    alloc: Global,
    work: &'r W,
    orders: &'r [O],
    gate: &'r G,
    supply: &'r S,
    workers: usize,
) -> Result<Vec<Option<Pair<W>>>, NoMemory>
    requires orders { length orders.now ≤ MOST_TICKETS }
    requires workers { (0 < workers) × (workers ≤ MOST_WORKERS) }
    ensures { IfOk result (λ places. ArePlacesOf (map O.ordered orders.now) places.items) }
{
    let mut places = empty_places(alloc, orders.len())?;
    if orders.is_empty() {
        return Ok(places);
    }
    let (tickets, seats) = Tickets::new(alloc, orders.len(), workers.min(orders.len()))?;
    let round = Round {
        alloc,
        tickets,
        work,
        orders,
        gate,
        supply,
    };
    for pairs in round.run(rt, seats)? {
        put_all(orders, pairs, &mut places);
    }
    Ok(places)
}

/// A pair, and the number that a worker drew for its order.
type Numbered<W> = (usize, Pair<W>);

/// What the workers of a round share.
#[derive(Drop)]
struct Round<'r, W: Work, O: Order<W> + Sync, G: Gate, S: Supply> {
    alloc: Global,
    tickets: Tickets,
    work: &'r W,
    orders: &'r [O],
    gate: &'r G,
    supply: &'r S,
    ghost count: { count_of tickets ≡ length orders.now },
}

impl<'r, W: Work, O: Order<W> + Sync, G: Gate, S: Supply> Round<'r, W, O, G, S> {
    /// The lists of all workers, one for each seat.
    fn run<R: Threads + Sync>(
        self,
        rt: &R,
        seats: Vec<TicketSeat>,
    ) -> Result<Vec<Vec<Numbered<W>>>, NoMemory>
        requires { All (IsSeatOf self.tickets) seats.items }
        ensures { IfOk result (λ made. All (λ pairs. All (IsNumbered (map O.ordered self.entry.orders.now)) pairs.items) made.items) }
    {
        let made = thread::map_vec(
            rt,
            seats,
            &|seat|
                requires { IsSeatOf self.tickets seat }
                ensures { All (IsNumbered (map O.ordered self.entry.orders.now)) result.items }
            { self.do_orders(seat) },
        )?;
        Ok(made)
    }

    /// A worker's part: it draws until no number is left, or none where it has no memory for a list of its pairs.
    fn do_orders(&self, mut seat: TicketSeat) -> Vec<Numbered<W>>
        requires { IsSeatOf self.now.tickets seat }
        ensures { All (IsNumbered (map O.ordered self.now.orders.now)) result.items }
    {
        let Ok(mut pairs) = Vec::with_capacity(self.alloc, self.orders.len()) else {
            return Vec::new(self.alloc);
        };
        while let Some(n) = self.tickets.draw(&mut seat) {
            if let Ok(pair) = self.do_order(&self.orders[n]) {
                let _ = pairs.push((n, pair));
            }
        }
        pairs
    }

    /// One job made and done by a worker.
    fn do_order(&self, order: &O) -> Result<Pair<W>, NoMemory>
        ensures { IfOk result (λ p. p.0 ≡ O.ordered order.now) }
    {
        let job = order.job(self.alloc)?;
        perform_granted(self.work, self.gate, self.supply, job).map_err(|_| NoMemory)
    }
}

/// One job made and done by the caller.
fn do_alone<W: Work, O: Order<W>>(alloc: Global, work: &W, order: &O) -> Result<Pair<W>, NoMemory>
    ensures { IfOk result (λ p. p.0 ≡ O.ordered order.now) }
{
    let job = order.job(alloc)?;
    work.perform(job).map_err(|_| NoMemory)
}

/// So many places, all empty.
fn empty_places<T: Drop>(alloc: Global, count: usize) -> Result<Vec<Option<T>>, NoMemory>
    ensures all { IfOk result (λ places. length places.items ≡ count) }
    ensures empty { IfOk result (λ places. All (λ place. place ≡ None) places.items) }
{
    let mut places = Vec::with_capacity(alloc, count)?;
    for i in 0..count {
        places.push_reserved(None);
    }
    Ok(places)
}

/// Puts each pair in the place of its order.
fn put_all<W: Work, O: Order<W>>(
    orders: &[O],
    pairs: Vec<Numbered<W>>,
    places: &mut Vec<Option<Pair<W>>>,
)
    requires pairs { All (IsNumbered (map O.ordered orders.now)) pairs.items }
    requires places { ArePlacesOf (map O.ordered orders.now) places.old.items }
    ensures { ArePlacesOf (map O.ordered orders.now) places.new.items }
{
    for (n, pair) in pairs {
        places[n] = Some(pair);
    }
}
