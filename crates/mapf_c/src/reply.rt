//! How a reply is left for C.

ghost use Rattle.std.specs.Prelude.{ℕ, List};
ghost use Rattle.mapf_c.specs.Reply.{IsPut};
ghost use Rattle.mapf_c.specs.Faults.{IsStatusFor};

use crate::fault::{Fault, NO_MEMORY};
use std::alloc::Global;

/// The status where the caller's room is shorter than what there is to say.
const TOO_SHORT: i32 = 7;
/// The line where there was no memory for a fault's.
const NO_MEMORY_LINE: &str = concat!("43 no memory", "\n");

/// Puts the bytes into the front of the caller's room, if they have room there, and tells how many they are. Answers the
/// status.
pub(crate) fn put(status: u8, bytes: &[u8], out: &mut [u8], needed: &mut u64) -> i32
    ensures { IsPut status bytes.now out.old out.new needed.new result }
{
    *needed = bytes.len() as u64;
    if out.len() < bytes.len() {
        return TOO_SHORT;
    }
    out[..bytes.len()].copy_from_slice(bytes);
    status as i32
}

/// Puts a fault's line, or that there was no memory for it.
pub(crate) fn put_fault(alloc: Global, fault: &Fault, out: &mut [u8], needed: &mut u64) -> i32
    ensures { (status : ℕ) × (line : List ℕ) × IsStatusFor fault.now status line
        × IsPut status line out.old out.new needed.new result }
{
    match format!(in alloc; "{fault}\n") {
        Ok(line) => put(fault.status(), line.as_bytes(), out, needed),
        Err(_) => put(NO_MEMORY, NO_MEMORY_LINE.as_bytes(), out, needed),
    }
}
