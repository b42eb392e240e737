use mapf_plan::Rule;

/// What is asked of the solver beside the two files.
#[derive(Clone, Copy, Debug, PartialEq, Eq)]
pub struct Ask {
    /// How many agents there are, agent 0 being the scenario's first row: 1 to 1,000.
    pub agents: u64,
    /// What a plan may cost at most, as a sum of costs: 0 to 1,000,000.
    pub bound: u64,
    /// How many workers may work at once: 1 to 64.
    pub workers: u64,
    /// How many nodes a search may take before it gives up: 1 to 1,000,000; none where there is no limit.
    pub nodes: Option<u64>,
    /// By which rule plans have conflicts.
    pub rule: Rule,
}
