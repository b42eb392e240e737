//! What a cache or a search with a budget answers.

/// What is known of something that is asked for.
#[derive(Drop)]
pub enum Lookup<T> {
    /// Nothing.
    Unknown,
    /// It is this.
    Known(T),
}
