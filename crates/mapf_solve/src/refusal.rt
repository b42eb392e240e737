use mapf_grid::{FilesFault, InstanceFault, MapFault, NoMemory, ScenFault};
use thiserror::Error;

/// Why an ask has no answer.
#[derive(Clone, Copy, Debug, PartialEq, Eq, Error)]
pub enum Refusal {
    /// The bound is over 1,000,000.
    #[error("41 bound")]
    Bound,
    /// The number of workers isn't 1 to 64.
    #[error("42 workers")]
    Workers,
    /// The limit on nodes isn't 1 to 1,000,000.
    #[error("44 nodes")]
    Nodes,
    /// The first bytes are no map file.
    #[error(transparent)]
    Map(MapFault),
    /// The second bytes are no scenario file.
    #[error(transparent)]
    Scenario(ScenFault),
    /// The scenario's first rows make no instance on the map.
    #[error(transparent)]
    Instance(InstanceFault),
    /// Out of memory, wherever it came.
    #[error("43 no memory")]
    NoMemory,
}

impl From<NoMemory> for Refusal {
    ghost use Rattle.std.specs.Prelude.{◌≡◌};
    ghost use Rattle.mapf_solve.specs.declared.refusal.Refusal.TheVariants as refusal;

    ghost from_gives = { λ _ r. r ≡ refusal.NoMemory };

    fn from(_refused: NoMemory) -> Refusal {
        Refusal::NoMemory
    }
}

impl From<FilesFault> for Refusal {
    ghost use Rattle.std.specs.Prelude.{◌≡◌};
    ghost use Rattle.mapf_solve.specs.Out.{of_files};

    ghost from_gives = { λ fault r. r ≡ of_files fault };

    fn from(fault: FilesFault) -> Refusal {
        match fault {
            FilesFault::Map(fault) => Refusal::Map(fault),
            FilesFault::Scenario(fault) => Refusal::Scenario(fault),
            FilesFault::Instance(fault) => Refusal::Instance(fault),
            FilesFault::NoMemory => Refusal::NoMemory,
        }
    }
}
