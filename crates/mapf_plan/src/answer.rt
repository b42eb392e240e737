use crate::Plan;

/// The greatest bound on what a plan may cost.
pub const MOST_BOUND: u64 = 1_000_000;

/// The greatest cost that may be stated with a plan.
pub const MOST_STATED: u64 = 1_000_000_000;

/// The greatest limit on how many nodes a search takes.
pub const MOST_NODES: u64 = 1_000_000;

/// What a planner answers.
#[derive(Debug, Drop)]
pub enum Answer {
    /// A plan, and the sum of costs that is stated with it: at most 1,000,000,000.
    Plan { plan: Plan, stated: u64 },
    /// There is no plan that costs at most this bound, which is at most 1,000,000.
    None { bound: u32 },
    /// The search took as many nodes as it may, 1 to 1,000,000, and found no plan. `least`, which is at most 1,000,000,
    /// is a lower bound on the cost of every plan without conflict.
    GaveUp { nodes: u64, least: u64 },
}
