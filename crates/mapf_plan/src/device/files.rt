//! What a command does with its devices: it reads files to their ends, and writes one text.

ghost use Rattle.std.specs.Prelude.{◌≡◌, ◌<◌, is_err, IfOk, IfErr, IfSome, OnOk};
ghost use Rattle.std.specs.Io.KnownBytes.{Appends};
ghost use Rattle.mapf_plan.specs.Device.{Counts};
ghost use Rattle.mapf_plan.specs.Files.{is_file_failure, IsReadFaultOf, IsWriteFaultOf, IsWithin};

use super::{DeviceFault, FileName, ReadFault, Sink, Source, read_whole, write_whole};
use std::alloc::Global;

/// How many bytes of one file are read at most.
pub const MOST_BYTES: usize = 67_108_864;

/// Reads a file's bytes, all of them: 67,108,864 at most.
///
/// An error is `ReadFailed` exactly where the reader's count of failures rose, `TooLong`, or out of memory.
pub fn read_file<S: Source>(
    alloc: Global,
    source: &mut S,
    name: FileName,
) -> Result<Vec<u8>, DeviceFault>
    requires { S.failures source.old < u64.MAX }
    ensures failed { Counts (is_file_failure result) (S.failures source.old) (S.failures source.new) }
    ensures whole { IfOk result (λ bytes. IfSome (S.remaining source.old) (λ all. bytes.items ≡ all)) }
    ensures within { OnOk result (IsWithin (S.remaining source.old)) }
    ensures fault { IfErr result (IsReadFaultOf name (S.remaining source.old)) }
{
    match read_whole(alloc, source, MOST_BYTES) {
        Ok(bytes) => Ok(bytes),
        Err(ReadFault::Failed) => Err(DeviceFault::ReadFailed(name)),
        Err(ReadFault::TooLong) => Err(DeviceFault::TooLong(name)),
        Err(ReadFault::NoMemory) => Err(DeviceFault::NoMemory),
    }
}

/// Writes a text to a sink, all of it, and flushes it.
///
/// An error is `WriteFailed`, exactly where the sink's count of failures rose.
pub fn write_text<S: Sink>(sink: &mut S, text: &[u8]) -> Result<(), DeviceFault>
    requires { S.failures sink.old < u64.MAX }
    ensures failed { Counts (is_err result) (S.failures sink.old) (S.failures sink.new) }
    ensures written { OnOk result (Appends (S.contents sink.old) (S.contents sink.new) text.now) }
    ensures fault { IfErr result (IsWriteFaultOf text.now (S.contents sink.old) (S.contents sink.new)) }
{
    write_whole(sink, text).map_err(|failed| DeviceFault::WriteFailed {
        taken: failed.taken,
    })
}
