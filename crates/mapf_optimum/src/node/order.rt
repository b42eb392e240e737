//! The order of nodes: by label, and then by collisions.

ghost use Rattle.std.specs.Ordering.{eq_by_cmp, as_partial_cmp};
ghost use Rattle.std.specs.Cmp.{eq_by_cmp_equiv, partial_equiv_from_equiv, partial_order_from_total};
ghost use Rattle.std.proofs.Common.{rules};
ghost use Rattle.std.specs.Cmp.Rules.{comparing};
ghost use Rattle.mapf_optimum.specs.FreeSearch.{by_label, by_label_total};

use crate::FreeNode;
use std::cmp::Ordering;

impl PartialEq for FreeNode {
    ghost eq = { eq_by_cmp by_label };

    ghost laws = { partial_equiv_from_equiv (eq_by_cmp_equiv by_label_total) };

    fn eq(&self, other: &FreeNode) -> bool {
        self.cmp(other).is_eq()
    }
}

impl Eq for FreeNode {
    ghost laws = { eq_by_cmp_equiv by_label_total };
}

impl PartialOrd for FreeNode {
    ghost partial_cmp = { as_partial_cmp by_label };

    ghost laws = { partial_order_from_total by_label_total };

    fn partial_cmp(&self, other: &FreeNode) -> Option<Ordering> {
        Some(self.cmp(other))
    }
}

/// The node of the least label is the greatest, and of equal labels that with the fewest colliding pairs.
impl Ord for FreeNode {
    ghost cmp = { by_label };

    ghost total = { by_label_total };

    ghost matches_partial_cmp = { Prim.search (comparing, rules) };

    ghost matches_eq = { Prim.search (comparing, rules) };

    fn cmp(&self, other: &FreeNode) -> Ordering {
        other
            .label
            .cmp(&self.label)
            .then(other.collisions.cmp(&self.collisions))
    }
}
