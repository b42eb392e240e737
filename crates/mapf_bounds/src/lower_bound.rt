ghost use Rattle.std.specs.Prelude.{◌≡◌};
ghost use Rattle.mapf_bounds.specs.Bounds.{IsRaised, node_bound};

use mapf_tree::Node;

/// What no solution at or below a node comes before, by cost and then by depth.
#[derive(Clone, Copy, PartialEq)]
pub struct LowerBound {
    /// Each such solution costs at least so much.
    pub cost: u64,
    /// Each that costs no more is so many turns from the root, at least.
    pub depth: usize,
}

impl LowerBound {
    /// The cost and the depth of a node itself.
    pub fn own(node: &Node) -> LowerBound
        ensures { result ≡ node_bound node.now }
    {
        let key = node.key();
        LowerBound {
            cost: key.cost,
            depth: key.depth,
        }
    }

    /// The other bound where that is above this one, else this one.
    pub fn raised(self, other: LowerBound) -> LowerBound
        ensures { IsRaised self other result }
    {
        if self.cost < other.cost {
            return other;
        }
        if self.cost == other.cost && self.depth < other.depth {
            return other;
        }
        self
    }
}
