//! The order of nodes: that of their keys, the greatest first.

ghost use Rattle.mapf_tree.specs.Prelude.{eq_by_cmp_equiv, partial_equiv_from_equiv, partial_order_from_total, eq_by_cmp, as_partial_cmp, by_key, by_key_total};
ghost use Rattle.std.proofs.Common.{rules};
ghost use Rattle.std.specs.Cmp.Rules.{comparing};

use crate::Node;
use std::cmp::Ordering;

impl PartialEq for Node {
    ghost eq = { eq_by_cmp by_key };

    ghost laws = { partial_equiv_from_equiv (eq_by_cmp_equiv by_key_total) };

    fn eq(&self, other: &Node) -> bool {
        self.cmp(other).is_eq()
    }
}

impl Eq for Node {
    ghost laws = { eq_by_cmp_equiv by_key_total };
}

impl PartialOrd for Node {
    ghost partial_cmp = { as_partial_cmp by_key };

    ghost laws = { partial_order_from_total by_key_total };

    fn partial_cmp(&self, other: &Node) -> Option<Ordering> {
        Some(self.cmp(other))
    }
}

/// Nodes are compared by their keys, by which each is told from all others of its tree, the greatest first: std looks through a row of
/// nodes from the front, and a child's key is greater than most.
impl Ord for Node {
    ghost cmp = { by_key };

    ghost total = { by_key_total };

    ghost matches_partial_cmp = { Prim.search (comparing, rules) };

    ghost matches_eq = { Prim.search (comparing, rules) };

    fn cmp(&self, other: &Node) -> Ordering {
        other.key().cmp(self.key())
    }
}
