//! Words of decimal digits.

ghost use Rattle.std.specs.Prelude.{◌<◌, ◌≤◌, length, SomeIff};
ghost use Rattle.std.specs.Str.Parse.{AllDigits, digits_value};

/// The number that a word of decimal digits stands for, one digit at least and so many at most; none for another word.
/// Leading zeros are digits as others are.
pub fn decimal_value(word: &[u8], most_digits: usize) -> Option<u64>
    requires { most_digits ≤ 10 }
    ensures some { SomeIff result
        ((0 < length word.now) × (length word.now ≤ most_digits) × AllDigits 10 word.now) (digits_value 10 word.now) }
{
    if word.is_empty() || word.len() > most_digits {
        return None;
    }
    let mut value = 0;
    for byte in word {
        if !byte.is_ascii_digit() {
            return None;
        }
        value = value * 10 + u64::from(*byte - b'0');
    }
    Some(value)
}
