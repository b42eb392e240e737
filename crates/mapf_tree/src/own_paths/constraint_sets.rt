//! The sets of constraints that agents have met, by number.

ghost use Rattle.std.specs.Prelude.{◌≡◌, ◌≤◌, [], ◌∷◌, ◌++◌, length, slice_get, Some, option_map, IfSome, IfOk, IfErr, MatchOption};
ghost use Rattle.mapf_tree.specs.Prelude.{HasTwoEnds, HasSet, IsExtension, Extends, GivesOwn};

use crate::node::change::Change;
use mapf_grid::NoMemory;
use mapf_low::{Constraint, Constraints};
use mapf_plan::Path;
use std::alloc::Global;
use std::collections::HashMap;
use std::marker::Model;
use std::sync::Arc;

/// What is known of an agent's own path under a set of constraints.
#[derive(Drop)]
pub(crate) enum CachedPath {
    /// It is this path, whose number stands before it.
    Path(usize, Arc<Path>),
    /// There is none that costs at most so much.
    NoneWithin(u32),
}

/// A set of constraints that an agent has met.
#[derive(Drop)]
pub(crate) struct ConstraintSet {
    pub(crate) agent: usize,
    pub(crate) constraints: Constraints,
    pub(crate) own: CachedPath,
}

/// Two sets of one agent by number: the second is the first with one constraint more.
///
/// Changes keep a guess of their extension's number, by which it is found without a search. A guess may be any number, since
/// what is found there is compared.
#[derive(Drop)]
pub(crate) struct Extension {
    pub(crate) before: usize,
    pub(crate) constraint: Constraint,
    pub(crate) after: usize,
    /// The change by which nodes have the second set and its path; none where that has no path.
    pub(crate) change: Option<Arc<Change>>,
}

/// The sets of constraints that agents have met, by number, and which of them is which other one with one constraint more. Two
/// numbers may be those of one set.
#[derive(Drop)]
pub(crate) struct ConstraintSets {
    sets: Vec<ConstraintSet>,
    extensions: Vec<Extension>,
    /// By a number for an agent's set, where it is looked for.
    set_places: HashMap<u64, usize>,
    /// By a number for a set with one constraint more, where its extension is looked for.
    extension_places: HashMap<u64, usize>,
}

impl Model for ConstraintSets {
    ghost use Rattle.std.specs.Prelude.{List};
    ghost use Rattle.mapf_tree.specs.Prelude.{ConstraintSet, AreExtensions};

    ghost Value = { List ConstraintSet };

    ghost view = { λ k. k.sets.items };

    ghost invariant = { λ k. AreExtensions k.sets.items k.extensions.items };
}

impl ConstraintSets {
    /// No set was met.
    pub(crate) fn new(alloc: Global) -> ConstraintSets
        ensures { result ≡ [] }
    {
        ConstraintSets {
            sets: Vec::new(alloc),
            extensions: Vec::new(alloc),
            set_places: HashMap::new(alloc),
            extension_places: HashMap::new(alloc),
        }
    }

    /// The set of a number. None where there is none.
    pub(crate) fn get(&self, set: usize) -> Option<&ConstraintSet>
        ensures { MatchOption result (length self.now ≤ set) (λ s. slice_get self.now set ≡ Some s.now) }
    {
        self.sets.get(set)
    }

    /// How many there are.
    pub(crate) fn count(&self) -> usize {
        self.sets.len()
    }

    /// The number of an agent's set of these constraints, where one is found.
    pub(crate) fn find(&self, agent: usize, constraints: &Constraints) -> Option<usize>
        ensures { IfSome result (λ n. HasSet self.now n agent constraints.now) }
    {
        let place = *self.set_places.get(&constraints.mixed_into(agent as u64))?;
        let known = self.sets.get(place)?;
        if known.agent == agent && known.constraints.is_same(constraints) {
            return Some(place);
        }
        None
    }

    /// Adds a set. Answers its number.
    pub(crate) fn push(&mut self, set: ConstraintSet) -> Result<usize, NoMemory>
        ensures added { IfOk result (λ n. (self.new ≡ self.old ++ set ∷ []) × (n ≡ length self.old)) }
        ensures none { IfErr result (λ _. self.new ≡ self.old) }
    {
        let key = set.constraints.mixed_into(set.agent as u64);
        let number = self.sets.len();
        self.sets.push(set)?;
        let _before = self.set_places.insert(key, number);
        Ok(number)
    }

    /// Remembers that a set has this constraint more than another one. Answers the extension's number.
    pub(crate) fn extend(
        &mut self,
        alloc: Global,
        before: usize,
        constraint: Constraint,
        after: usize,
    ) -> Result<usize, NoMemory>
        requires extended { IsExtension self.old before constraint after }
        requires ends { HasTwoEnds constraint }
        ensures { self.new ≡ self.old }
    {
        let number = self.extensions.len();
        let change = self.change_to(alloc, after, constraint, number)?;
        self.extensions.push(Extension {
            before,
            constraint,
            after,
            change,
        })?;
        let key = extension_key(before, &constraint);
        let _before = self.extension_places.insert(key, number);
        Ok(number)
    }

    /// The change that forbids a set's agent this, the newest of the set, and gives it the set's path. None where that has none.
    fn change_to(
        &self,
        alloc: Global,
        set: usize,
        constraint: Constraint,
        extension: usize,
    ) -> Result<Option<Arc<Change>>, NoMemory>
        requires { HasTwoEnds constraint }
        ensures { IfOk result (λ change. GivesOwn self.now set constraint (option_map (λ c. c.value) change)) }
    {
        let Some(set) = self.sets.get(set) else {
            return Ok(None);
        };
        let CachedPath::Path(_, path) = &set.own else {
            return Ok(None);
        };
        let change = Change {
            agent: set.agent,
            constraint,
            path: Arc::try_clone(path)?,
            extension,
        };
        Ok(Some(Arc::new(alloc, change)?))
    }

    /// The extension of this number, if it is one of this set by this constraint.
    #[inline(always)]
    fn extension(&self, number: usize, before: usize, constraint: &Constraint) -> Option<&Extension>
        ensures { IfSome result (λ e. Extends self.now before constraint.now e.now) }
    {
        let extension = self.extensions.get(number)?;
        if extension.before == before && extension.constraint.is_same(constraint) {
            return Some(extension);
        }
        None
    }

    /// The extension of a set by this constraint, where it is known. It is looked for at a guess of its number first.
    #[inline(always)]
    pub(crate) fn find_extension(
        &self,
        guess: usize,
        before: usize,
        constraint: &Constraint,
    ) -> Option<&Extension>
        ensures { IfSome result (λ e. Extends self.now before constraint.now e.now) }
    {
        if let Some(found) = self.extension(guess, before, constraint) {
            return Some(found);
        }
        let number = *self
            .extension_places
            .get(&extension_key(before, constraint))?;
        self.extension(number, before, constraint)
    }
}

/// A number for a set with one constraint more. Others seldom have the same.
fn extension_key(set: usize, constraint: &Constraint) -> u64 {
    constraint.mixed_into((set as u64).rotate_left(32))
}
