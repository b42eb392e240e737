use mapf_grid::FilesFault;
use mapf_plan::{DeviceFault, TextFault};
use thiserror::Error;

/// Why a check over devices wrote no whole verdict.
///
/// Out of memory is a device's `NoMemory`, wherever it came, and never another layer's.
#[derive(Clone, Copy, Debug, PartialEq, Eq, Error)]
pub enum CheckFault {
    /// The map and the scenario ask for no instance.
    #[error(transparent)]
    Files(FilesFault),
    /// The plan's bytes are no text of an answer on the map.
    #[error(transparent)]
    Text(TextFault),
    /// A device failed, a file is too long, or memory ran out.
    #[error(transparent)]
    Device(DeviceFault),
}

impl From<FilesFault> for CheckFault {
    ghost use Rattle.std.specs.Prelude.{◌≡◌};
    ghost use Rattle.mapf_cli.specs.CheckRun.{of_files};

    ghost from_gives = { λ fault r. r ≡ of_files fault };

    fn from(fault: FilesFault) -> CheckFault {
        match fault {
            FilesFault::NoMemory => CheckFault::Device(DeviceFault::NoMemory),
            _ => CheckFault::Files(fault),
        }
    }
}

impl From<TextFault> for CheckFault {
    ghost use Rattle.std.specs.Prelude.{◌≡◌};
    ghost use Rattle.mapf_cli.specs.CheckRun.{of_text};

    ghost from_gives = { λ fault r. r ≡ of_text fault };

    fn from(fault: TextFault) -> CheckFault {
        match fault {
            TextFault::NoMemory => CheckFault::Device(DeviceFault::NoMemory),
            _ => CheckFault::Text(fault),
        }
    }
}

impl From<DeviceFault> for CheckFault {
    ghost use Rattle.std.specs.Prelude.{◌≡◌};
    ghost use Rattle.mapf_cli.specs.declared.check_fault.CheckFault.TheVariants as check;

    ghost from_gives = { λ fault r. r ≡ check.Device fault };

    fn from(fault: DeviceFault) -> CheckFault {
        CheckFault::Device(fault)
    }
}
