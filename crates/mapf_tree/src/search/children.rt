ghost use Rattle.std.specs.Prelude.{IfOk};
ghost use Rattle.mapf_tree.specs.Prelude.{Problem, AllStand, IsBranching, IsChildOf};

use crate::{Node, OpenList, Problem, Side};
use mapf_grid::NoMemory;

/// Where a search has the children of nodes from.
pub trait Children {
    ghost serves: { Self → Problem → Type 0 };

    /// The children of a node of the tree on both sides of its conflict, each none exactly where it isn't in the tree.
    fn both(
        &mut self,
        problem: &Problem,
        node: &Node,
    ) -> Result<(Option<Node>, Option<Node>), NoMemory>
        requires serves { serves self.old problem.now }
        requires branching { IsBranching problem.now node.now }
        ensures serves { serves self.new problem.now }
        ensures left { IfOk result (λ sides. IsChildOf problem.now node.now Side.Left sides.0) }
        ensures right { IfOk result (λ sides. IsChildOf problem.now node.now Side.Right sides.1) };

    /// Is told which nodes wait, before one of them is taken; it may work ahead.
    fn ahead(&mut self, problem: &Problem, waiting: &OpenList)
        requires serves { serves self.old problem.now }
        requires nodes { AllStand problem.now waiting.now }
        ensures serves { serves self.new problem.now };
}
