//! A file means one thing: functions that do nothing, each with one law as its contract.

ghost use Rattle.mapf_grid.specs.Unique.{OneMap, OneScenario, OneInstance, MapOrFault, ScenarioOrFault, InstanceOrFault, OneMapFault, OneScenFault, OneInstanceFault};

/// A map file is of one grid.
pub fn one_map()
    ensures { OneMap }
{}

/// A scenario file is of one list of rows.
pub fn one_scenario()
    ensures { OneScenario }
{}

/// The first rows of a scenario make one instance on a map.
pub fn one_instance()
    ensures { OneInstance }
{}

/// A map file has a grid or a fault, never both.
pub fn map_or_fault()
    ensures { MapOrFault }
{}

/// A scenario file has rows or a fault, never both.
pub fn scenario_or_fault()
    ensures { ScenarioOrFault }
{}

/// The first rows of a scenario make an instance on a map or have a fault, never both.
pub fn instance_or_fault()
    ensures { InstanceOrFault }
{}

/// A map file has one first fault.
pub fn one_map_fault()
    ensures { OneMapFault }
{}

/// A scenario file has one first fault.
pub fn one_scen_fault()
    ensures { OneScenFault }
{}

/// The first rows of a scenario have one first fault.
pub fn one_instance_fault()
    ensures { OneInstanceFault }
{}
