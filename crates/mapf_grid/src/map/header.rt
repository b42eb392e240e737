//! The first four lines of a map file: its type, its height, its width and the word `map`.

ghost use Rattle.std.specs.Prelude.{◌≡◌, ◌≢◌, ℕ, ◌<◌, ◌↔◌, List, ◌∷◌, [], codes, slice_index_or, drop, IsTrue, IfOk, IfErr, MatchOption};
ghost use Rattle.mapf_grid.specs.Lines.{lines_of, line_at, words};
ghost use Rattle.mapf_grid.specs.MapFile.{HasSize, IsMapFault};
ghost use Rattle.mapf_grid.specs.MapReading.{IsHeader, HasRead};

use crate::MapFault;
use crate::lines::{first_line, number};
use crate::words::first_word;

/// The greatest height and width of a map.
pub const MOST_SIDE: u32 = 2_048;

/// What the header states, and the bytes behind it.
#[derive(Drop)]
pub(super) struct Header<'a> {
    /// How many rows follow.
    pub height: u32,
    /// How many bytes each row has.
    pub width: u32,
    /// The bytes behind line 4.
    pub rest: &'a [u8],
}

/// Reads lines 1 to 4.
pub(super) fn read_header(bytes: &[u8]) -> Result<Header<'_>, MapFault>
    ensures header { IfOk result (λ h. IsHeader (lines_of bytes.now) h.height h.width) }
    ensures read { IfOk result (λ h. HasRead (lines_of bytes.now) 4 h.rest.now) }
    ensures fault { IfErr result (IsMapFault (lines_of bytes.now)) }
{
    let lines = header_lines(bytes);
    if !is_type_line(lines.type_line) {
        return Err(MapFault::TypeLine);
    }
    let Some(height) = positive_size(lines.height_line, b"height") else {
        return Err(MapFault::Height);
    };
    if height > MOST_SIDE {
        return Err(MapFault::TooLarge { line: 2 });
    }
    let Some(width) = positive_size(lines.width_line, b"width") else {
        return Err(MapFault::Width);
    };
    if width > MOST_SIDE {
        return Err(MapFault::TooLarge { line: 3 });
    }
    if !is_map_line(lines.map_line) {
        return Err(MapFault::MapLine);
    }
    Ok(Header {
        height,
        width,
        rest: lines.rest,
    })
}

/// Lines 1 to 4, and the bytes behind them.
#[derive(Drop)]
struct HeaderLines<'a> {
    type_line: &'a [u8],
    height_line: &'a [u8],
    width_line: &'a [u8],
    map_line: &'a [u8],
    rest: &'a [u8],
}

/// Cuts off lines 1 to 4. A line that isn't there is an empty one.
fn header_lines(bytes: &[u8]) -> HeaderLines<'_>
    ensures type_line { result.type_line.now ≡ line_at (lines_of bytes.now) 1 }
    ensures height_line { result.height_line.now ≡ line_at (lines_of bytes.now) 2 }
    ensures width_line { result.width_line.now ≡ line_at (lines_of bytes.now) 3 }
    ensures map_line { result.map_line.now ≡ line_at (lines_of bytes.now) 4 }
    ensures rest { lines_of result.rest.now ≡ drop 4 (lines_of bytes.now) }
{
    let (type_line, rest) = line_or_empty(bytes);
    let (height_line, rest) = line_or_empty(rest);
    let (width_line, rest) = line_or_empty(rest);
    let (map_line, rest) = line_or_empty(rest);
    HeaderLines {
        type_line,
        height_line,
        width_line,
        map_line,
        rest,
    }
}

/// The first line, empty where there is none, and the bytes behind it.
fn line_or_empty(bytes: &[u8]) -> (&[u8], &[u8])
    ensures line { result.0.now ≡ slice_index_or (lines_of bytes.now) 0 [] }
    ensures rest { lines_of result.1.now ≡ drop 1 (lines_of bytes.now) }
{
    first_line(bytes).unwrap_or((bytes, bytes))
}

/// Whether the line has the words `type` and `octile`.
fn is_type_line(line: &[u8]) -> bool
    ensures { IsTrue result ↔ (words line.now ≡ codes "type" ∷ codes "octile" ∷ []) }
{
    match two_words(line) {
        Some((name, kind)) => name == b"type".as_slice() && kind == b"octile".as_slice(),
        None => false,
    }
}

/// Whether the line has the word `map`.
fn is_map_line(line: &[u8]) -> bool
    ensures { IsTrue result ↔ (words line.now ≡ codes "map" ∷ []) }
{
    match first_word(line) {
        Some((word, rest)) => word == b"map".as_slice() && first_word(rest).is_none(),
        None => false,
    }
}

/// The number above 0 of a line that has this name and a number.
fn positive_size(line: &[u8], name: &[u8]) -> Option<u32>
    ensures { MatchOption result
        (¬ ((n : ℕ) × HasSize name.now line.now n × (0 < n)))
        (λ n. HasSize name.now line.now n × (0 < n)) }
{
    let (first, digits) = two_words(line)?;
    if first != name {
        return None;
    }
    let size = number(digits)?;
    if size > 0 { Some(size) } else { None }
}

/// The two words of a line that has two.
fn two_words(line: &[u8]) -> Option<(&[u8], &[u8])>
    ensures { MatchOption result
        ((first second : List ℕ) → words line.now ≢ first ∷ second ∷ [])
        (λ pair. words line.now ≡ pair.0.now ∷ pair.1.now ∷ []) }
{
    let (first, rest) = first_word(line)?;
    let (second, rest) = first_word(rest)?;
    if first_word(rest).is_none() {
        Some((first, second))
    } else {
        None
    }
}
