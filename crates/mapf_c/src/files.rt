//! How long a file may be.

ghost use Rattle.std.specs.Prelude.{◌≡◌, IfErr, OnOk, Some};
ghost use Rattle.mapf_plan.specs.Files.{IsTooLong};
ghost use Rattle.mapf_c.specs.Faults.{IsRead};

use mapf_plan::{DeviceFault, FileName, MOST_BYTES};

/// Whether the bytes of this file are as many as are read: the program refuses longer files too.
pub(crate) fn test_length(bytes: &[u8], name: FileName) -> Result<(), DeviceFault>
    ensures read { OnOk result (IsRead bytes.now) }
    ensures too_long { IfErr result (λ fault. (fault ≡ DeviceFault.TooLong name) × IsTooLong (Some bytes.now)) }
{
    if bytes.len() > MOST_BYTES {
        return Err(DeviceFault::TooLong(name));
    }
    Ok(())
}
