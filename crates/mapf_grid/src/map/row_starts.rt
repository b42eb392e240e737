//! Which cells of a map begin a row.

ghost use Rattle.std.specs.Prelude.{◌≡◌, ◌+◌, ◌%◌, ◌<◌, ◌↔◌, length, IfOk, IsTrue, OnOk};
ghost use Rattle.mapf_grid.specs.RowStarts.{AreRowStarts};

use std::alloc::{AllocError, Global};
use std::marker::Model;

/// The most cells of a map of which it is kept where rows begin. On a larger one the look would reach for memory that isn't near
/// the processor, and a division takes less time.
const MOST_KEPT: usize = 262_144;

/// Which cells of a map begin a row, of which all have so many cells. It is looked up where that is kept, since a division takes
/// several times as long.
#[derive(Drop)]
pub(crate) struct RowStarts {
    width: u32,
    starts: Vec<bool>,
}

impl Model for RowStarts {
    ghost use Rattle.std.specs.Prelude.{ℕ, ◌<◌};
    ghost use Rattle.mapf_grid.specs.RowStarts.{AreRowStarts};

    ghost Value = { ℕ };

    ghost view = { λ r. r.width };

    ghost invariant = { λ r. (0 < r.width) × AreRowStarts r.width r.starts.items };
}

impl RowStarts {
    /// The cells that begin so many rows of this width; they are kept on maps of at most 262,144 cells.
    pub(crate) fn of(alloc: Global, width: u32, height: u32) -> Result<RowStarts, AllocError>
        requires { 0 < width }
        ensures { IfOk result (λ r. r ≡ width) }
    {
        let cells = width as usize * height as usize;
        let rows = if cells <= MOST_KEPT { height } else { 0 };
        let mut starts = Vec::with_capacity(alloc, width as usize * rows as usize)?;
        for _row in 0..rows {
            add_row(width, &mut starts)?;
        }
        Ok(RowStarts { width, starts })
    }

    /// Whether the cell of this number begins a row; behind the last row, too, where rows would go on. Where it isn't kept, a
    /// division tells.
    #[inline]
    pub(crate) fn has(&self, number: u32) -> bool
        ensures { IsTrue result ↔ (number % self.now ≡ 0) }
    {
        match self.starts.get(number as usize) {
            Some(is_start) => *is_start,
            None => number % self.width == 0,
        }
    }
}

/// Adds a row's cells to those of whole rows.
fn add_row(width: u32, starts: &mut Vec<bool>) -> Result<(), AllocError>
    requires some { 0 < width }
    requires whole { length starts.old.items % width ≡ 0 }
    requires starts { AreRowStarts width starts.old.items }
    ensures whole { OnOk result (length starts.new.items % width ≡ 0) }
    ensures starts { OnOk result (AreRowStarts width starts.new.items) }
{
    let count = starts.len() + width as usize;
    starts.push(true)?;
    starts.resize(count, false)?;
    Ok(())
}
