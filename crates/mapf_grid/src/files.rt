//! The instance that the bytes of two files ask for.

ghost use Rattle.std.specs.Prelude.{◌≢◌, IfOk, IfErr};
ghost use Rattle.mapf_grid.specs.Asked.{IsAsked, IsFilesFault};

use crate::{Instance, InstanceFault, Map, MapFault, ScenFault, Scenario};
use std::alloc::Global;
use thiserror::Error;

/// Why the bytes of two files ask for no instance.
#[derive(Clone, Copy, Debug, PartialEq, Eq, Error)]
pub enum FilesFault {
    /// The first bytes are no map file.
    #[error(transparent)]
    Map(MapFault),
    /// The second bytes are no scenario file.
    #[error(transparent)]
    Scenario(ScenFault),
    /// The scenario's first rows make no instance on the map.
    #[error(transparent)]
    Instance(InstanceFault),
    /// Out of memory, wherever it came.
    #[error("43 no memory")]
    NoMemory,
}

/// The instance of the scenario's first rows on the map, or the first fault of map, scenario and instance.
pub fn instance_of(
    alloc: Global,
    map: &[u8],
    scen: &[u8],
    agents: u64,
) -> Result<Instance, FilesFault>
    ensures asked { IfOk result (IsAsked map.now scen.now agents) }
    ensures fault { IfErr result (λ fault. fault ≢ FilesFault.NoMemory → IsFilesFault map.now scen.now agents fault) }
{
    let map = Map::read(alloc, map)?;
    let scenario = Scenario::read(alloc, scen)?;
    match Instance::new(alloc, map, &scenario, agents) {
        Ok(instance) => Ok(instance),
        Err((_map, fault)) => Err(FilesFault::from(fault)),
    }
}

impl From<MapFault> for FilesFault {
    ghost use Rattle.std.specs.Prelude.{◌≡◌};
    ghost use Rattle.mapf_grid.specs.Asked.{of_map};

    ghost from_gives = { λ fault r. r ≡ of_map fault };

    fn from(fault: MapFault) -> FilesFault {
        match fault {
            MapFault::NoMemory => FilesFault::NoMemory,
            _ => FilesFault::Map(fault),
        }
    }
}

impl From<ScenFault> for FilesFault {
    ghost use Rattle.std.specs.Prelude.{◌≡◌};
    ghost use Rattle.mapf_grid.specs.Asked.{of_scenario};

    ghost from_gives = { λ fault r. r ≡ of_scenario fault };

    fn from(fault: ScenFault) -> FilesFault {
        match fault {
            ScenFault::NoMemory => FilesFault::NoMemory,
            _ => FilesFault::Scenario(fault),
        }
    }
}

impl From<InstanceFault> for FilesFault {
    ghost use Rattle.std.specs.Prelude.{◌≡◌};
    ghost use Rattle.mapf_grid.specs.Asked.{of_instance};

    ghost from_gives = { λ fault r. r ≡ of_instance fault };

    fn from(fault: InstanceFault) -> FilesFault {
        match fault {
            InstanceFault::NoMemory => FilesFault::NoMemory,
            _ => FilesFault::Instance(fault),
        }
    }
}
