ghost use Rattle.std.specs.Prelude.{◌≡◌, ◌<◌, ◌≤◌, length, take, vec_len, is_err, IfOk, IfErr, IfSome, OnOk, IsErrOf};
ghost use Rattle.std.specs.Io.KnownBytes.{Appends, IsAtEnd};
ghost use Rattle.mapf_plan.specs.Device.{Counts, is_failed};

use super::{Sink, Source};
use std::alloc::Global;
use thiserror::Error;

/// How many bytes one call of `read` may give: few enough for a small stack.
const BLOCK: usize = 8_192;

/// Why a source couldn't be read to its end.
#[derive(Clone, Copy, Debug, PartialEq, Eq, Error)]
pub enum ReadFault {
    /// A call of `read` failed.
    #[error("read failed")]
    Failed,
    /// The source gave more bytes than the limit.
    #[error("too long")]
    TooLong,
    /// Out of memory.
    #[error("no memory")]
    NoMemory,
}

/// A call of `write` or `flush` failed.
#[derive(Clone, Copy, Debug, PartialEq, Eq, Error)]
#[error("write failed after {taken} bytes")]
pub struct WriteFailed {
    /// How many bytes the sink had taken by then: these are the first ones.
    pub taken: usize,
}

/// Reads a source to its end, which is the first `read` with room that gives no byte.
///
/// The first call that fails ends it, an interruption too. So does the first byte past the limit; what
/// was read is then dropped.
pub fn read_whole<S: Source>(
    alloc: Global,
    source: &mut S,
    limit: usize,
) -> Result<Vec<u8>, ReadFault>
    requires { S.failures source.old < u64.MAX }

    // The count of failures rose exactly where the answer is `Failed`, and by 1.
    ensures failed { Counts (is_failed result) (S.failures source.old) (S.failures source.new) }
    ensures whole { IfOk result (λ bytes. IfSome (S.remaining source.old) (λ all. bytes.items ≡ all)) }
    ensures end { OnOk result (IsAtEnd (S.remaining source.new)) }
    ensures within { IfOk result (λ bytes. vec_len bytes ≤ limit) }
    ensures too_long { IsErrOf result ReadFault.TooLong
        → IfSome (S.remaining source.old) (λ all. limit < length all) }
{
    let mut block = [0u8; BLOCK];
    let mut bytes = Vec::new(alloc);
    loop {
        let given = source.read(&mut block).map_err(|_| ReadFault::Failed)?;
        if given == 0 {
            return Ok(bytes);
        }
        if given > limit - bytes.len() {
            return Err(ReadFault::TooLong);
        }
        bytes
            .extend_from_slice(&block[..given])
            .map_err(|_| ReadFault::NoMemory)?;
    }
}

/// Writes bytes to a sink, all of them, and flushes it.
///
/// The first call that fails ends it: one that answers an error, an interruption too, or a `write` that
/// takes none of some bytes.
pub fn write_whole<S: Sink>(sink: &mut S, bytes: &[u8]) -> Result<(), WriteFailed>
    requires { S.failures sink.old < u64.MAX }

    // The count of failures rose exactly where the answer is an error, and by 1.
    ensures failed { Counts (is_err result) (S.failures sink.old) (S.failures sink.new) }
    ensures written { OnOk result (Appends (S.contents sink.old) (S.contents sink.new) bytes.now) }
    ensures taken { IfErr result (λ fault. fault.taken ≤ length bytes.now) }
    ensures part { IfErr result (λ fault.
        Appends (S.contents sink.old) (S.contents sink.new) (take fault.taken bytes.now)) }
{
    let mut taken = 0;
    while taken < bytes.len() {
        match sink.write(&bytes[taken..]) {
            Ok(count) if count > 0 => taken += count,
            _ => return Err(WriteFailed { taken }),
        }
    }
    sink.flush().map_err(|_| WriteFailed { taken })
}
