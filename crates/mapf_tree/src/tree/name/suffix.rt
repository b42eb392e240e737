ghost use Rattle.std.specs.Prelude.{◌≡◌, [], ◌∷◌, ◌++◌, IfOk};

use crate::Side;
use mapf_grid::NoMemory;
use std::alloc::Global;
use std::marker::Model;

/// The turns of a name behind its first 64. Few names have any, so they lie apart, and a name is small.
#[derive(Debug, Drop)]
pub(crate) struct Suffix {
    turns: Option<Box<Vec<Side>>>,
}

impl Model for Suffix {
    ghost use Rattle.std.specs.Prelude.{List, option_map};
    ghost use Rattle.mapf_tree.specs.declared.tree.side.Side.{Side};
    ghost use Rattle.mapf_tree.specs.Names.{turns_in};

    ghost Value = { List Side };

    ghost view = { λ l. turns_in (option_map (λ turns. turns.value.items) l.turns) };
}

impl Suffix {
    /// No turn.
    pub(crate) fn none() -> Suffix
        ensures { result ≡ [] }
    {
        Suffix { turns: None }
    }

    /// These turns.
    fn of(alloc: Global, turns: Vec<Side>) -> Result<Suffix, NoMemory>
        ensures { IfOk result (λ l. l ≡ turns.items) }
    {
        match Box::new(alloc, turns) {
            Ok(turns) => Ok(Suffix { turns: Some(turns) }),
            Err(_refused) => Err(NoMemory),
        }
    }

    /// The turns.
    pub(crate) fn as_slice(&self) -> &[Side]
        ensures { result.now ≡ self.now }
    {
        match &self.turns {
            Some(turns) => turns.as_slice(),
            None => &[],
        }
    }

    /// The turns and one more.
    pub(crate) fn with(&self, alloc: Global, side: Side) -> Result<Suffix, NoMemory>
        ensures { IfOk result (λ l. l ≡ self.now ++ side ∷ []) }
    {
        let mut turns = self.as_slice().to_vec(alloc)?;
        turns.push(side)?;
        Suffix::of(alloc, turns)
    }

    /// The same turns.
    pub(crate) fn copy(&self, alloc: Global) -> Result<Suffix, NoMemory>
        ensures { IfOk result (λ l. l ≡ self.now) }
    {
        match &self.turns {
            Some(turns) => Suffix::of(alloc, turns.as_slice().to_vec(alloc)?),
            None => Ok(Suffix::none()),
        }
    }
}
