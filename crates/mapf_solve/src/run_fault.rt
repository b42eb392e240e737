use crate::Refusal;
use mapf_plan::DeviceFault;
use thiserror::Error;

/// Why a run over devices wrote no whole answer.
#[derive(Clone, Copy, Debug, PartialEq, Eq, Error)]
pub enum RunFault {
    /// The ask has no answer; or memory ran out, wherever that was.
    #[error(transparent)]
    Refusal(Refusal),
    /// A device failed, or a file is too long.
    #[error(transparent)]
    Device(DeviceFault),
}

impl From<Refusal> for RunFault {
    ghost use Rattle.std.specs.Prelude.{◌≡◌};
    ghost use Rattle.mapf_solve.specs.declared.run_fault.RunFault.TheVariants as run;

    ghost from_gives = { λ refusal r. r ≡ run.Refusal refusal };

    fn from(refusal: Refusal) -> RunFault {
        RunFault::Refusal(refusal)
    }
}

impl From<DeviceFault> for RunFault {
    ghost use Rattle.std.specs.Prelude.{◌≡◌};
    ghost use Rattle.mapf_solve.specs.Run.{of_device};

    ghost from_gives = { λ fault r. r ≡ of_device fault };

    fn from(fault: DeviceFault) -> RunFault {
        match fault {
            DeviceFault::NoMemory => RunFault::Refusal(Refusal::NoMemory),
            _ => RunFault::Device(fault),
        }
    }
}
