use std::fmt;
use thiserror::Error;

/// A file that a command reads.
#[derive(Clone, Copy, Debug, PartialEq, Eq)]
pub enum FileName {
    Map,
    Scenario,
    Plan,
}

impl fmt::Display for FileName {
    fn fmt<W: fmt::Write>(&self, f: &mut fmt::Formatter<W>) -> fmt::Result {
        match self {
            FileName::Map => write!(f, "map"),
            FileName::Scenario => write!(f, "scenario"),
            FileName::Plan => write!(f, "plan"),
        }
    }
}

/// Why files weren't read to their ends, or a text wasn't written whole.
#[derive(Clone, Copy, Debug, PartialEq, Eq, Error)]
pub enum DeviceFault {
    /// A read failed: the reader's count of failures rose.
    #[error("51 read failed {0}")]
    ReadFailed(FileName),
    /// A write or the flush failed: the writer's count of failures rose. It had taken so many first bytes of the text.
    #[error("52 write failed after {taken} bytes")]
    WriteFailed { taken: usize },
    /// The reader gave more than 67,108,864 bytes.
    #[error("53 too long {0}")]
    TooLong(FileName),
    /// Out of memory.
    #[error("43 no memory")]
    NoMemory,
}
