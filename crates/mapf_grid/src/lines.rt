//! Files as lines: the bytes are cut at LF, and one CR at a line's end is dropped.

ghost use Rattle.std.specs.Prelude.{◌≡◌, ◌==◌, ◌∷◌, [], ◌<◌, length, position, MatchOption};
ghost use Rattle.mapf_grid.specs.Lines.{lines_of, is_blank, is_blank_line, number_of, without_cr};

use crate::digits::decimal_value;

/// The greatest number of digits that a number has.
const MOST_DIGITS: usize = 9;

/// Cuts off the first line, without its line end: the line, and the bytes behind it; none where no line is left.
pub(crate) fn first_line(bytes: &[u8]) -> Option<(&[u8], &[u8])>
    ensures line { MatchOption result (lines_of bytes.now ≡ [])
        (λ cut. lines_of bytes.now ≡ cut.0.now ∷ lines_of cut.1.now) }
    ensures shorter { MatchOption result (bytes.now ≡ []) (λ cut. length cut.1.now < length bytes.now) }
{
    if bytes.is_empty() {
        return None;
    }
    match position_of_lf(bytes) {
        Some(end) => Some((trim_cr(&bytes[..end]), &bytes[end + 1..])),
        None => Some((trim_cr(bytes), &[])),
    }
}

/// The place of the first LF.
fn position_of_lf(bytes: &[u8]) -> Option<usize>
    ensures { result ≡ position (λ b. b == 10) bytes.now }
{
    bytes.iter().position(|byte| *byte == b'\n')
}

/// The line without one CR at its end.
fn trim_cr(line: &[u8]) -> &[u8]
    ensures { result.now ≡ without_cr line.now }
{
    match line {
        [rest @ .., b'\r'] => rest,
        _ => line,
    }
}

/// Whether a byte is a blank: a space or a tab.
pub(crate) fn is_blank(byte: u8) -> bool
    ensures { result ≡ is_blank byte }
{
    byte == b' ' || byte == b'\t'
}

/// Whether a line has no other bytes than blanks.
pub(crate) fn is_blank_line(line: &[u8]) -> bool
    ensures { result ≡ is_blank_line line.now }
{
    line.iter().all(|byte| is_blank(*byte))
}

/// The number that a word spells, in 1 to 9 digits; none where it spells none.
pub(crate) fn number(word: &[u8]) -> Option<u32>
    ensures { result ≡ number_of word.now }
{
    let value = decimal_value(word, MOST_DIGITS)?;
    Some(value as u32)
}
