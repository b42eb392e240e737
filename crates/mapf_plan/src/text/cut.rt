ghost use Rattle.std.specs.Prelude.{◌≡◌, ◌==◌, ◌++◌, ◌∷◌, false, All, MatchOption};

/// What stands before the first such byte, and what behind it; none where there is no such byte.
pub(super) fn cut_at(bytes: &[u8], byte: u8) -> Option<(&[u8], &[u8])>
    ensures { MatchOption result (All (λ b. (b == byte) ≡ false) bytes.now)
        (λ cut. (bytes.now ≡ cut.0.now ++ byte ∷ cut.1.now) × All (λ b. (b == byte) ≡ false) cut.0.now) }
{
    let end = bytes.iter().position(|b| *b == byte)?;
    Some((&bytes[..end], &bytes[end + 1..]))
}
