//! The version, for programs in C.

ghost use Rattle.std.specs.Prelude.{codes};
ghost use Rattle.mapf_c.specs.Reply.{IsPut};

use crate::reply::put;

/// Leaves the version and a line feed, with status 0.
#[unsafe(no_mangle)]
pub extern "C" fn mapf_version(out: &mut [u8], needed: &mut u64) -> i32
    ensures { IsPut 0 (codes "0.1.0-dev\n") out.old out.new needed.new result }
{
    put(0, b"0.1.0-dev\n", out, needed)
}
