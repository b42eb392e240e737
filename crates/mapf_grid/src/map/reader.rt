//! Map files: bytes as a map, or the fault of the first faulty line.

ghost use Rattle.std.specs.Prelude.{◌≡◌, ◌≢◌, ℕ, ◌+◌, ◌*◌, ◌<◌, ◌++◌, length, map, OnOk, IfOk, IfErr, MatchResult, SomeIff, true};
ghost use Rattle.mapf_grid.specs.Lines.{lines_of, line_at};
ghost use Rattle.mapf_grid.specs.Grid.{Grid};
ghost use Rattle.mapf_grid.specs.MapFile.{IsRow, IsMap, IsMapFault, is_ground, is_cell};
ghost use Rattle.mapf_grid.specs.MapReading.{IsHeader, HasRead, AreCellBytes, IsMapRowFault};

use super::Map;
use super::header::read_header;
use super::row_starts::RowStarts;
use crate::MapFault;
use crate::lines::{first_line, is_blank_line};
use std::alloc::Global;

/// How many lines stand before the first row.
const HEADER_LINES: usize = 4;

impl Map {
    /// The map that the bytes of a file spell, in MovingAI's format of type octile.
    ///
    /// Line 1 is `type octile`, line 2 `height` and a number, line 3 `width` and a number, line 4 `map`;
    /// blanks may stand around the words, and both numbers are 1 to 2,048. Then come the rows, one byte a
    /// cell: `.` and `G` are free; `@`, `O` and `T` are blocked. Behind them stand blank lines alone. A
    /// line ends with LF or CR LF.
    ///
    /// The fault is that of the first faulty line, or [`MapFault::NoMemory`] where memory runs out first.
    pub fn read(alloc: Global, bytes: &[u8]) -> Result<Map, MapFault>
        ensures read { IfOk result (IsMap (lines_of bytes.now)) }
        ensures only { (g : Grid) → IsMap (lines_of bytes.now) g
            → MatchResult result (λ m. m ≡ g) (λ e. e ≡ MapFault.NoMemory) }
        ensures fault { IfErr result
            (λ e. e ≢ MapFault.NoMemory → IsMapFault (lines_of bytes.now) e) }
    {
        let rows = read_rows(alloc, bytes)?;
        let mut rest = rows.rest;
        let mut line = HEADER_LINES + rows.height as usize;
        while let Some((text, after)) = first_line(rest) {
            line += 1;
            if !is_blank_line(text) {
                return Err(MapFault::TextAfterRows { line });
            }
            rest = after;
        }
        let row_starts = RowStarts::of(alloc, rows.width, rows.height).map_err(
            |_| MapFault::NoMemory,
        )?;
        Ok(Map {
            width: rows.width,
            height: rows.height,
            free: rows.free,
            row_starts,
        })
    }
}

/// A map file up to its last row, and the bytes behind that.
#[derive(Drop)]
struct Rows<'a> {
    height: u32,
    width: u32,
    /// Of each cell, in order of number, whether it is free.
    free: Vec<bool>,
    rest: &'a [u8],
}

/// Reads the header and the rows.
fn read_rows(alloc: Global, bytes: &[u8]) -> Result<Rows<'_>, MapFault>
    ensures header { IfOk result (λ r. IsHeader (lines_of bytes.now) r.height r.width) }
    ensures cells { IfOk result (λ r. length r.free.items ≡ r.height * r.width) }
    ensures rows { IfOk result (λ r. (y : ℕ) → y < r.height
        → IsRow (record { width = r.width; height = r.height; free = r.free.items }) y
        (line_at (lines_of bytes.now) (y + 5))) }
    ensures behind { IfOk result (λ r. HasRead (lines_of bytes.now) (4 + r.height) r.rest.now) }
    ensures fault { IfErr result
        (λ e. e ≢ MapFault.NoMemory → IsMapFault (lines_of bytes.now) e) }
{
    let header = read_header(bytes)?;
    let cells = header.height as usize * header.width as usize;
    let mut free = Vec::with_capacity(alloc, cells).map_err(|_| MapFault::NoMemory)?;
    let mut rest = header.rest;
    for y in 0..header.height {
        let line = HEADER_LINES + 1 + y as usize;
        let Some((row, after)) = first_line(rest) else {
            return Err(MapFault::MissingRow { line });
        };
        read_row(row, line, header.width as usize, &mut free)?;
        rest = after;
    }
    Ok(Rows {
        height: header.height,
        width: header.width,
        free,
        rest,
    })
}

/// Reads the row in this line of the file, and adds its cells.
fn read_row(row: &[u8], line: usize, width: usize, free: &mut Vec<bool>) -> Result<(), MapFault>
    ensures cells { OnOk result (AreCellBytes row.now width) }
    ensures exact { OnOk result (length row.now ≡ width) }
    ensures added { OnOk result (free.new.items ≡ free.old.items ++ map is_ground row.now) }
    ensures fault { IfErr result (IsMapRowFault row.now line width) }
{
    let cells = &row[..width.min(row.len())];
    for (x, byte) in cells.iter().enumerate() {
        let Some(is_ground) = ground(*byte) else {
            return Err(MapFault::BadCell {
                line,
                column: x + 1,
                byte: *byte,
            });
        };
        free.push(is_ground).map_err(|_| MapFault::NoMemory)?;
    }
    if row.len() != width {
        return Err(MapFault::RowLength { line });
    }
    Ok(())
}

/// Whether a cell is free; none where the byte is no cell.
fn ground(byte: u8) -> Option<bool>
    ensures { SomeIff result (is_cell byte ≡ true) (is_ground byte) }
{
    match byte {
        b'.' | b'G' => Some(true),
        b'@' | b'O' | b'T' => Some(false),
        _ => None,
    }
}
