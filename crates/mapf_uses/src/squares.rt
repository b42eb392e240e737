//! A use of the live board of `mapf_board`: two workers in threads and the owner share the squaring of numbers.

mod owner;
mod share;
mod square;

use anyhow::Result;
use share::squares;
use std::alloc::{AllocError, Global};
use std::thread::Threads;

/// What is squared.
const NUMBERS: [u32; 12] = [2, 3, 5, 7, 11, 13, 17, 19, 23, 29, 31, 4_294_967_295];

/// Prints the square of each number, in their order.
pub(crate) fn show<R: Print + Threads + Sync>(rt: &R, alloc: Global) -> Result<()> {
    for square in squares(rt, alloc, &NUMBERS).map_err(|_| AllocError)? {
        println!(rt; "{square}")?;
    }
    Ok(())
}
