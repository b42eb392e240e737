ghost use Rattle.std.specs.Prelude.{◌≡◌, ◌<◌, ◌≤◌, length};
ghost use Rattle.mapf_grid.specs.declared.instance.TheConstants.{MOST_AGENTS};
ghost use Rattle.mapf_plan.specs.Plan.{path_of};

use crate::Path;

/// One path for each agent, agent 0 first, wherever the paths are kept: at least one, at most 1,000.
pub trait AgentPaths {
    ghost use Rattle.std.specs.Prelude.{ℕ, List};

    ghost paths: { Self → List (List ℕ) };

    /// How many agents there are.
    fn agents(&self) -> usize
        ensures agents { result ≡ length (paths self.now) }
        ensures some { 0 < length (paths self.now) }
        ensures few { length (paths self.now) ≤ MOST_AGENTS };

    /// The path of an agent.
    fn path(&self, agent: usize) -> &Path
        requires { agent < length (paths self.now) }
        ensures { result.now ≡ path_of (paths self.now) agent };
}
