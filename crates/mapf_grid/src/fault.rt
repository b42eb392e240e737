use std::alloc::{AllocError, AllocFailed};
use thiserror::Error;

/// Why bytes are no map file: the fault of the first faulty line.
///
/// Lines and columns are numbered from 1. The format is MovingAI's, type octile.
#[derive(Clone, Copy, Debug, PartialEq, Eq, Error)]
pub enum MapFault {
    /// Line 1 isn't `type octile`.
    #[error("1 type line")]
    TypeLine,
    /// Line 2 isn't `height` and a number of 1 to 9 digits above 0.
    #[error("2 height line")]
    Height,
    /// Line 3 isn't `width` and a number of 1 to 9 digits above 0.
    #[error("3 width line")]
    Width,
    /// Line 4 isn't `map`.
    #[error("4 map line")]
    MapLine,
    /// The file ends before this line, which is to be a row.
    #[error("5 missing row at line {line}")]
    MissingRow {
        line: usize,
    },
    /// The row has another number of bytes than the width, and no bad byte among its first ones.
    #[error("6 row length at line {line}")]
    RowLength {
        line: usize,
    },
    /// The row's byte in this column is none of `.`, `G`, `@`, `O` and `T`.
    #[error("7 bad cell at line {line} column {column} byte {byte}")]
    BadCell {
        line: usize,
        column: usize,
        byte: u8,
    },
    /// The line stands behind the last row and has other bytes than blanks.
    #[error("8 text after rows at line {line}")]
    TextAfterRows {
        line: usize,
    },
    /// The height or the width is over 2,048.
    #[error("9 too large at line {line}")]
    TooLarge {
        line: usize,
    },
    /// Out of memory.
    #[error("43 no memory")]
    NoMemory,
}

/// Why bytes are no scenario file: the fault of the first faulty line.
///
/// Lines and fields are numbered from 1. The format is MovingAI's, version 1.
#[derive(Clone, Copy, Debug, PartialEq, Eq, Error)]
pub enum ScenFault {
    /// Line 1 isn't `version 1` or `version 1.0`.
    #[error("11 version line")]
    Version,
    /// The line has fewer than nine words.
    #[error("12 field count at line {line}")]
    FieldCount { line: usize },
    /// The field, one of 1 and 3 to 8, is no number of 1 to 9 digits.
    #[error("13 bad number at line {line} field {field}")]
    Number { line: usize, field: usize },
    /// Out of memory.
    #[error("43 no memory")]
    NoMemory,
}

/// Why the first rows of a scenario make no instance on a map.
///
/// Rows are numbered from 0.
#[derive(Clone, Copy, Debug, PartialEq, Eq, Error)]
pub enum InstanceFault {
    /// The number of agents isn't 1 to 1,000.
    #[error("21 agent count")]
    AgentCount,
    /// The scenario has fewer rows than there are agents.
    #[error("22 too few rows: {rows}")]
    TooFewRows { rows: usize },
    /// The row is for a map of another width or height.
    #[error("23 wrong size in row {row}")]
    WrongSize { row: usize },
    /// The row's start is blocked or outside the map.
    #[error("24 start not free in row {row}")]
    StartNotFree { row: usize },
    /// The row's goal is blocked or outside the map.
    #[error("25 goal not free in row {row}")]
    GoalNotFree { row: usize },
    /// The two rows have one start; the earlier is the first row with it.
    #[error("26 shared start in rows {earlier} and {row}")]
    SharedStart { earlier: usize, row: usize },
    /// The two rows have one goal; the earlier is the first row with it.
    #[error("27 shared goal in rows {earlier} and {row}")]
    SharedGoal { earlier: usize, row: usize },
    /// Out of memory.
    #[error("43 no memory")]
    NoMemory,
}

/// Out of memory: an allocation was refused.
#[derive(Clone, Copy, Debug, PartialEq, Eq, Error)]
#[error("43 no memory")]
pub struct NoMemory;

impl From<AllocError> for NoMemory {
    fn from(_refused: AllocError) -> NoMemory {
        NoMemory
    }
}

impl<T: Drop> From<AllocFailed<T>> for NoMemory {
    fn from(_refused: AllocFailed<T>) -> NoMemory {
        NoMemory
    }
}
