ghost use Rattle.std.specs.Prelude.{◌≡◌};
ghost use Rattle.mapf_c.specs.Faults.{status_of};

use mapf_grid::FilesFault;
use mapf_plan::{DeviceFault, TextFault};
use mapf_solve::Refusal;
use thiserror::Error;

/// The status where bytes or numbers are refused.
const REFUSED: u8 = 3;
/// The status for want of memory.
pub(crate) const NO_MEMORY: u8 = 4;

/// Why a call has no answer.
#[derive(Clone, Copy, Debug, PartialEq, Eq, Error)]
pub enum Fault {
    /// The ask or its files have no answer; or memory ran out.
    #[error(transparent)]
    Refusal(Refusal),
    /// The plan's bytes are no text of an answer on the map.
    #[error(transparent)]
    Text(TextFault),
    /// The bytes are more than a file may have.
    #[error(transparent)]
    Device(DeviceFault),
}

impl Fault {
    /// The status for this fault.
    pub(crate) fn status(&self) -> u8
        ensures { result ≡ status_of self.now }
    {
        match self {
            Fault::Refusal(Refusal::NoMemory)
            | Fault::Text(TextFault::NoMemory)
            | Fault::Device(DeviceFault::NoMemory) => NO_MEMORY,
            _ => REFUSED,
        }
    }
}

impl From<Refusal> for Fault {
    ghost use Rattle.std.specs.Prelude.{◌≡◌};
    ghost use Rattle.mapf_c.specs.declared.fault.Fault.TheVariants as fault;

    ghost from_gives = { λ refusal r. r ≡ fault.Refusal refusal };

    fn from(refusal: Refusal) -> Fault {
        Fault::Refusal(refusal)
    }
}

impl From<FilesFault> for Fault {
    ghost use Rattle.std.specs.Prelude.{◌≡◌};
    ghost use Rattle.mapf_solve.specs.Out.{of_files};
    ghost use Rattle.mapf_c.specs.declared.fault.Fault.TheVariants as fault;

    ghost from_gives = { λ named r. r ≡ fault.Refusal (of_files named) };

    fn from(named: FilesFault) -> Fault {
        Fault::Refusal(Refusal::from(named))
    }
}

impl From<TextFault> for Fault {
    ghost use Rattle.std.specs.Prelude.{◌≡◌};
    ghost use Rattle.mapf_c.specs.declared.fault.Fault.TheVariants as fault;

    ghost from_gives = { λ named r. r ≡ fault.Text named };

    fn from(named: TextFault) -> Fault {
        Fault::Text(named)
    }
}

impl From<DeviceFault> for Fault {
    ghost use Rattle.std.specs.Prelude.{◌≡◌};
    ghost use Rattle.mapf_c.specs.declared.fault.Fault.TheVariants as fault;

    ghost from_gives = { λ named r. r ≡ fault.Device named };

    fn from(named: DeviceFault) -> Fault {
        Fault::Device(named)
    }
}
