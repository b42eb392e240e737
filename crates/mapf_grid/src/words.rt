//! Lines as words, which are parted by blanks: spaces and tabs.

ghost use Rattle.std.specs.Prelude.{◌≡◌, ℕ, ◌∷◌, ◌++◌, [], ◌-◌, ◌<◌, ◌≤◌, true, false, length, slice_index, MatchOption, IfSome};
ghost use Rattle.mapf_grid.specs.Lines.{words, is_blank};
ghost use Rattle.mapf_grid.specs.Cuts.{IsBehindBlanks, IsBeforeBlanks, IsPartedFront, IsPartedBack, IsTrimmed};

use crate::lines::is_blank;

fn trim_start(mut line: &[u8]) -> &[u8]
    ensures cut { IsBehindBlanks line.now result.now }
    ensures begins { 0 < length result.now → is_blank (slice_index result.now 0) ≡ false }
{
    while let [first, rest @ ..] = line
        && is_blank(*first)
    {
        line = rest;
    }
    line
}

fn trim_end(mut line: &[u8]) -> &[u8]
    ensures cut { IsBeforeBlanks line.now result.now }
    ensures ends { 0 < length result.now → is_blank (slice_index result.now (length result.now - 1)) ≡ false }
{
    while let [rest @ .., last] = line
        && is_blank(*last)
    {
        line = rest;
    }
    line
}

/// The line without the blanks at both ends.
pub(crate) fn trim(line: &[u8]) -> &[u8]
    ensures { IsTrimmed line.now result.now }
{
    trim_end(trim_start(line))
}

/// How many bytes stand before the first blank.
fn first_word_end(line: &[u8]) -> usize
    ensures within { result ≤ length line.now }
    ensures word { (k : ℕ) → k < result → is_blank (slice_index line.now k) ≡ false }
    ensures blank { result < length line.now → is_blank (slice_index line.now result) ≡ true }
{
    line.iter()
        .position(|byte| is_blank(*byte))
        .unwrap_or(line.len())
}

/// How many bytes there are up to the last blank.
fn last_word_start(line: &[u8]) -> usize
    ensures within { result ≤ length line.now }
    ensures blank { 0 < result → is_blank (slice_index line.now (result - 1)) ≡ true }
    ensures word { (k : ℕ) → result ≤ k → k < length line.now → is_blank (slice_index line.now k) ≡ false }
{
    line.iter()
        .rposition(|byte| is_blank(*byte))
        .map_or(0, |at| at + 1)
}

/// Cuts off the first word: the word, and the bytes behind it; none where there is no word.
pub(crate) fn first_word(line: &[u8]) -> Option<(&[u8], &[u8])>
    ensures words { MatchOption result (words line.now ≡ []) (λ cut. words line.now ≡ cut.0.now ∷ words cut.1.now) }
    ensures parted { IfSome result (λ cut. IsPartedBack line.now cut.1.now) }
{
    let line = trim_start(line);
    if line.is_empty() {
        return None;
    }
    Some(line.split_at(first_word_end(line)))
}

/// Cuts off the last word: the bytes before it, and the word; none where there is no word.
pub(crate) fn last_word(line: &[u8]) -> Option<(&[u8], &[u8])>
    ensures words { MatchOption result (words line.now ≡ [])
        (λ cut. words line.now ≡ words cut.0.now ++ cut.1.now ∷ []) }
    ensures parted { IfSome result (λ cut. IsPartedFront line.now cut.0.now) }
{
    let line = trim_end(line);
    if line.is_empty() {
        return None;
    }
    Some(line.split_at(last_word_start(line)))
}
