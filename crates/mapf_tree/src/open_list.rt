ghost use Rattle.std.specs.Prelude.{◌≡◌, ◌↔◌, [], length, take, OnOk, IfErr, IsTrue};
ghost use Rattle.std.specs.Iterator.{at_most};
ghost use Rattle.mapf_tree.specs.Prelude.{IsTaken, GivesFirst};

use crate::Node;
use std::alloc::Global;
use std::collections::{BTreeSet, btree_set};
use std::marker::Model;

/// The nodes that wait, in the order of their keys; no two have one key.
#[derive(Drop)]
pub struct OpenList {
    /// The greatest first.
    nodes: BTreeSet<Node>,
}

impl Model for OpenList {
    ghost use Rattle.std.specs.Prelude.{List, reverse};
    ghost use Rattle.mapf_tree.specs.Prelude.{Node, by_key};
    ghost use Rattle.std.specs.List.Sorted.{IsStrictlySortedBy};

    ghost Value = { List Node };

    ghost view = { λ l. reverse l.nodes.keys };

    ghost invariant = { λ l. IsStrictlySortedBy by_key l.nodes.keys };
}

impl OpenList {
    ghost use Rattle.mapf_tree.specs.Prelude.{IsRising, IsPut};

    /// No node waits.
    pub fn new(alloc: Global) -> OpenList
        ensures { result ≡ [] }
    {
        OpenList {
            nodes: BTreeSet::new(alloc),
        }
    }

    /// Whether no node waits.
    pub fn is_empty(&self) -> bool
        ensures { IsTrue result ↔ (self.now ≡ []) }
    {
        self.nodes.is_empty()
    }

    /// Puts a node in at its place. One with the same key that waits there leaves.
    pub fn put(&mut self, node: Node) -> Result<(), Node>
        ensures ok { OnOk result (IsPut self.old node self.new) }

        // When memory runs out the node comes back, and the list is unchanged.
        ensures back { IfErr result (λ n. n ≡ node) }
        ensures err { IfErr result (λ _. self.new ≡ self.old) }
        ensures rising { IsRising self.new }
    {
        // A copy goes in first, since to replace is to look for the key twice.
        let Ok(copy) = node.copy() else {
            return self.replace(node);
        };
        match self.nodes.insert(copy) {
            Ok(true) => Ok(()),
            Ok(false) => self.replace(node),
            Err(_refused) => Err(node),
        }
    }

    /// Puts a node in at its place, in that of one with the same key.
    fn replace(&mut self, node: Node) -> Result<(), Node>
        ensures ok { OnOk result (IsPut self.old node self.new) }
        ensures back { IfErr result (λ n. n ≡ node) }
        ensures err { IfErr result (λ _. self.new ≡ self.old) }
        ensures rising { IsRising self.new }
    {
        match self.nodes.replace(node) {
            Ok(_old) => Ok(()),
            Err(refused) => Err(refused.value),
        }
    }

    /// Takes the first node by key out; none where no node waits.
    pub fn take_least(&mut self) -> Option<Node>
        ensures taken { IsTaken self.old result self.new }
        ensures rising { IsRising self.old }
    {
        self.nodes.pop_last()
    }

    /// The first so many of the nodes, in the order of their keys.
    pub fn first(&self, count: usize) -> First<'_>
        ensures first { result ≡ take count self.now }
        ensures rising { IsRising self.now }
    {
        First {
            nodes: self.nodes.iter(),
            left: count,
        }
    }
}

/// The first waiting nodes, in the order of their keys.
#[derive(Drop)]
pub struct First<'a> {
    nodes: btree_set::Iter<'a, Node>,
    left: usize,
}

impl<'a> Model for First<'a> {
    ghost use Rattle.std.specs.Prelude.{List, reverse, take};
    ghost use Rattle.mapf_tree.specs.Prelude.{Node};

    ghost Value = { List Node };

    ghost view = { λ f. take f.left (reverse f.nodes) };
}

impl<'a> Iterator for First<'a> {
    type Item = &'a Node;

    ghost next_gives = { GivesFirst };

    ghost remaining = { λ s. at_most (length s) };

    fn next(&mut self) -> Option<&'a Node> {
        if self.left == 0 {
            return None;
        }
        self.left -= 1;
        self.nodes.next_back()
    }
}
