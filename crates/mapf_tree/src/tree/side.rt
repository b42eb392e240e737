/// Which of the two agents of a conflict a child of a node forbids something.
#[derive(Clone, Copy, Debug, PartialEq, Eq, PartialOrd, Ord)]
pub enum Side {
    /// The agent with the smaller number.
    Left,
    /// The agent with the larger number.
    Right,
}
