ghost use Rattle.std.specs.Prelude.{◌≡◌, ◌≢◌, ℕ, ◌<◌, ◌≤◌, ◌↔◌, IsTrue, slice_index, length, MatchOption, decimal};
ghost use Rattle.mapf_plan.specs.declared.answer.TheConstants.{MOST_STATED};

use mapf_grid::decimal_value;

/// The digits of 1,000,000,000, the greatest number that a text has.
const MOST_DIGITS: usize = 10;

/// The number up to `most` that a word spells without leading zeros; none where it spells none.
pub(super) fn number(word: &[u8], most: u64) -> Option<u64>
    requires { most ≤ MOST_STATED }
    ensures { MatchOption result ((n : ℕ) → n ≤ most → word.now ≢ decimal n)
        (λ n. (n ≤ most) × (word.now ≡ decimal n)) }
{
    let value = decimal_value(word, MOST_DIGITS)?;
    if has_leading_zero(word) || value > most {
        return None;
    }
    Some(value)
}

/// Whether the word is longer than the `0` that it begins with.
fn has_leading_zero(word: &[u8]) -> bool
    ensures { IsTrue result ↔ ((slice_index word.now 0 ≡ 48) × (1 < length word.now)) }
{
    word.len() > 1 && word[0] == b'0'
}
