ghost use Rattle.std.specs.Prelude.{◌≤◌};

use crate::CheckFault;
use mapf_plan::{DeviceFault, FileName};
use mapf_solve::{Refusal, RunFault};
use std::alloc::AllocError;
use thiserror::Error;

/// A status that the program ends with.
pub(crate) const SHOWN: u8 = 0;
/// No plan was printed, since there is none, or the plan that was judged is not valid.
pub(crate) const NONE: u8 = 1;
/// The command line was refused.
pub(crate) const COMMAND_LINE: u8 = 2;
/// The bytes or the numbers were refused.
pub(crate) const FAULT: u8 = 3;
/// Out of memory.
pub(crate) const NO_MEMORY: u8 = 4;
/// A file couldn't be opened or read, or the output couldn't be written.
pub(crate) const DEVICE: u8 = 5;
/// The search gave up at its limit on nodes.
pub(crate) const GAVE_UP: u8 = 6;

/// Why the program printed no whole answer.
#[derive(Clone, Copy, Debug, PartialEq, Eq, Error)]
pub(crate) enum CallFault {
    /// A file couldn't be opened.
    #[error("50 cannot open {0}")]
    CannotOpen(FileName),
    /// The run of the solver ended with a fault.
    #[error(transparent)]
    Run(#[from] RunFault),
    /// The check ended with a fault.
    #[error(transparent)]
    Check(#[from] CheckFault),
}

impl CallFault {
    /// The program's status after this fault.
    pub(crate) fn status(&self) -> u8
        ensures { result ≤ 5 }
    {
        match self {
            CallFault::Run(RunFault::Refusal(Refusal::NoMemory)) => NO_MEMORY,
            CallFault::Run(RunFault::Refusal(_))
            | CallFault::Check(CheckFault::Files(_) | CheckFault::Text(_)) => FAULT,
            CallFault::Run(RunFault::Device(fault)) | CallFault::Check(CheckFault::Device(fault)) =>
                match fault {
                    DeviceFault::TooLong(_) => FAULT,
                    DeviceFault::NoMemory => NO_MEMORY,
                    DeviceFault::ReadFailed(_) | DeviceFault::WriteFailed { .. } => DEVICE,
                },
            CallFault::CannotOpen(_) => DEVICE,
        }
    }
}

impl From<AllocError> for CallFault {
    fn from(_refused: AllocError) -> CallFault {
        CallFault::from(DeviceFault::NoMemory)
    }
}

impl From<DeviceFault> for CallFault {
    fn from(fault: DeviceFault) -> CallFault {
        CallFault::Run(RunFault::from(fault))
    }
}
