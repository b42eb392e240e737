/// The rule by which two agents collide.
#[derive(Clone, Copy, Debug, PartialEq, Eq)]
pub enum Rule {
    /// Two agents may not be on one cell at one time step, nor change places between two time steps.
    Classical,
    /// Besides, no agent may enter a cell at the time step at which another leaves it.
    NoFollowing,
}
