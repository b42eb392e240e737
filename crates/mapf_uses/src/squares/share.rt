//! Numbers shared by workers and the owner of a board.
ghost use Rattle.std.specs.Prelude.{◌≡◌, ◌*◌, ◌<◌, ◌≤◌, All, IfOk, length, map, vec_len};
ghost use Rattle.mapf_board.specs.Workers.{IsWorkerOf, IsIdle};
ghost use Rattle.mapf_board.specs.declared.limits.TheConstants.{MOST_SLOTS};

use super::owner::{post_all, square_all};
use super::square::Squares;
use mapf_board::{AlwaysGrants, Live, NoGate, NoMemory, WorkerSeat};
use std::alloc::{AllocError, Global};
use std::thread::{Threads, join, map_vec};

const WORKERS: usize = 2;

/// More turns than a worker takes before the board is shut.
const TURNS: u64 = 1_000_000_000;

/// Each worker in a thread of its own.
fn work_all<R: Threads + Sync>(
    rt: &R,
    live: &Live<Squares>,
    seats: Vec<WorkerSeat<Squares>>,
) -> Result<Vec<WorkerSeat<Squares>>, AllocError>
    requires workers { All (IsWorkerOf live.now) seats.items }
    requires idle { All IsIdle seats.items }
    ensures all { IfOk result (λ back. vec_len back ≡ vec_len seats) }
    ensures workers { IfOk result (λ back. All (IsWorkerOf live.now) back.items) }
    ensures idle { IfOk result (λ back. All IsIdle back.items) }
{
    map_vec(
        rt,
        seats,
        &|mut seat| {
            live.take_turns(&Squares, &NoGate, &AlwaysGrants, &mut seat, TURNS);
            seat
        },
    )
}

/// The squares of 1 to 64 numbers, in their order, by two workers and the owner of a board.
pub fn squares<R: Threads + Sync>(
    rt: &R,
    alloc: Global,
    numbers: &[u32],
) -> Result<Vec<u64>, NoMemory>
    requires { (1 ≤ length numbers.now) × (length numbers.now ≤ MOST_SLOTS) }
    ensures { IfOk result (λ all. all.items ≡ map (λ n. n * n) numbers.now) }
{
    let room = Vec::with_capacity(alloc, numbers.len())?;
    let (live, mut owner, seats) = Live::<Squares>::new(alloc, numbers.len(), WORKERS)?;
    post_all(&live, &mut owner, numbers);
    let board = &live;
    let ((owner, all), seats) = join(
        rt,
        || square_all(board, owner, numbers, room),
        || -> Result<Vec<WorkerSeat<Squares>>, AllocError>
            requires workers { All (IsWorkerOf board.now) seats.items }
            requires idle { All IsIdle seats.items }
            ensures all { IfOk result (λ back. vec_len back ≡ vec_len seats) }
            ensures workers { IfOk result (λ back. All (IsWorkerOf board.entry.now) back.items) }
            ensures idle { IfOk result (λ back. All IsIdle back.items) }
        { work_all(rt, board, seats) },
    );
    // what a worker was still at when the owner came by is dropped
    live.close(alloc, owner, seats?).ok();
    Ok(all)
}
