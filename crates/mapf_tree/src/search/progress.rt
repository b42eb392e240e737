/// How far a search has come.
#[derive(Clone, Copy, Debug, PartialEq, Eq)]
pub enum Progress {
    /// There is no answer yet.
    Working,
    /// There is an answer.
    Finished,
}
