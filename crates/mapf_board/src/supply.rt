//! What grants memory to the workers.

/// Asked by a worker before each job whether there is memory for it; it never touches the work.
pub trait Supply: Sync {
    /// Whether the worker may do the job number `n`; if not, the worker hands the job back undone, as one that found no
    /// memory.
    fn grants(&self, n: u64) -> bool;
}

/// Grants memory for each job.
#[derive(Clone, Copy)]
pub struct AlwaysGrants;

impl Supply for AlwaysGrants {
    fn grants(&self, _n: u64) -> bool {
        true
    }
}
