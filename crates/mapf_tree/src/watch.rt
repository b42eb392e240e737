//! Who is told how far a search has come.

ghost use Rattle.std.specs.Prelude.{ℕ};

/// Is told how far a search has come, again and again, on the thread that asked for the answer. No answer depends on it.
///
/// What a search tells is said by the contract of the call that searches.
pub trait Watch {
    ghost told: { Self → ℕ → ℕ → Self → Type 0 } = { λ _ _ _ _. Unit {0} };

    /// So many nodes were expanded, where a number that has reached `u64::MAX` stays there, and each plan without conflict by the
    /// problem's rule costs at least `least`.
    fn nodes_expanded(&mut self, nodes: u64, least: u64)
        ensures { told self.old nodes least self.new };
}

/// Watches nothing.
#[derive(Clone, Copy, Debug)]
pub struct NoWatch;

impl Watch for NoWatch {
    fn nodes_expanded(&mut self, _nodes: u64, _least: u64) {}
}
