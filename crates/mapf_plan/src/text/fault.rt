ghost use Rattle.std.specs.Prelude.{◌≡◌};
ghost use Rattle.mapf_plan.specs.declared.text.fault.TextFault.TheVariants.{NoMemory};

use std::alloc::{AllocError, AllocFailed};
use thiserror::Error;

/// Why bytes are no text of an answer on a map: the fault of the first faulty line.
///
/// Lines are numbered from 1, the places of a line from 0.
#[derive(Clone, Copy, Debug, PartialEq, Eq, Error)]
pub enum TextFault {
    /// The first line, with its LF, is no head: neither `plan` with a number of agents and a cost nor
    /// `none` with a bound nor `gave up` with a number of nodes and a cost, within their limits.
    #[error("31 head line")]
    Head,
    /// The line is missing, has no LF or isn't positions parted by single spaces; or it stands behind
    /// the last line that the head asks for.
    #[error("32 bad line {line}")]
    Line { line: usize },
    /// The position at this place of the line is outside the map, and none before it in that line is.
    #[error("33 outside at line {line} place {place}")]
    Outside { line: usize, place: usize },
    /// Out of memory.
    #[error("43 no memory")]
    NoMemory,
}

impl From<AllocError> for TextFault {
    ghost from_gives = { λ _ e. e ≡ NoMemory };

    fn from(_refused: AllocError) -> TextFault {
        TextFault::NoMemory
    }
}

impl<T: Drop> From<AllocFailed<T>> for TextFault {
    ghost from_gives = { λ _ e. e ≡ NoMemory };

    fn from(_refused: AllocFailed<T>) -> TextFault {
        TextFault::NoMemory
    }
}
