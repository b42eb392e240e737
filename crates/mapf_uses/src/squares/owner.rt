//! The owner's share.
ghost use Rattle.std.specs.Prelude.{◌≡◌, ◌*◌, ◌<◌, ◌≤◌, [], length, map, slice_index, vec_len};
ghost use Rattle.std.specs.Vec.{vec_capacity};
ghost use Rattle.mapf_board.specs.Owners.{IsOwnerOf, currents};
ghost use Rattle.mapf_board.specs.Workers.{size_of};
ghost use Rattle.mapf_uses.specs.Posted.{AreAmong};

use super::square::{Squares, square_of};
use mapf_board::{Left, Live, Owner};

/// Posts each number in the slot of its place.
pub fn post_all(live: &Live<Squares>, owner: &mut Owner<Squares>, numbers: &[u32])
    requires slots { size_of live.now ≡ length numbers.now }
    requires owner { IsOwnerOf live.now owner.old }
    requires jobs { AreAmong (currents owner.old) numbers.now }
    ensures owner { IsOwnerOf live.now owner.new }
    ensures jobs { AreAmong (currents owner.new) numbers.now }
{
    for slot in 0..numbers.len() {
        // a number whose slot isn't free is the owner's to square
        live.post(owner, slot, numbers[slot]).ok();
    }
}

/// The square of the number at the slot's place: a worker's, or the owner's where no worker has finished it.
fn square_at(live: &Live<Squares>, owner: &mut Owner<Squares>, numbers: &[u32], slot: usize) -> u64
    requires slots { size_of live.now ≡ length numbers.now }
    requires slot { slot < length numbers.now }
    requires owner { IsOwnerOf live.now owner.old }
    requires jobs { AreAmong (currents owner.old) numbers.now }
    ensures square { result ≡ slice_index numbers.now slot * slice_index numbers.now slot }
    ensures owner { IsOwnerOf live.now owner.new }
    ensures jobs { AreAmong (currents owner.new) numbers.now }
{
    match live.collect(owner, slot) {
        Ok(Left::Answer(pair)) => pair.parts().1,
        Ok(Left::Job(number)) => square_of(number),
        Err(_) => match live.withdraw(owner, slot) {
            Ok(number) => square_of(number),
            Err(_) => square_of(numbers[slot]),
        },
    }
}

/// The squares of all numbers, in their order; then the board is shut.
pub fn square_all(
    live: &Live<Squares>,
    mut owner: Owner<Squares>,
    numbers: &[u32],
    mut squares: Vec<u64>,
) -> (Owner<Squares>, Vec<u64>)
    requires slots { size_of live.now ≡ length numbers.now }
    requires owner { IsOwnerOf live.now owner }
    requires jobs { AreAmong (currents owner) numbers.now }
    requires room { (squares.items ≡ []) × (length numbers.now ≤ vec_capacity squares) }
    ensures owner { IsOwnerOf live.now result.0 }
    ensures squares { result.1.items ≡ map (λ n. n * n) numbers.now }
{
    for slot in 0..numbers.len() {
        squares.push_reserved(square_at(live, &mut owner, numbers, slot));
    }
    live.shut(&mut owner);
    (owner, squares)
}
