//! Where agents are at a joint place.

ghost use Rattle.std.specs.Prelude.{◌≤◌, length, take, IfSome, IsTrue};
ghost use Rattle.mapf_optimum.specs.PlaceNumbers.{AreHome, AreNumbered, cost_in};

use super::agent_places::AgentPlaces;
use super::place::{Joint, MOST_TOGETHER, Numbers, Place};

/// The places with these numbers, if each is known.
pub(crate) fn joint_of(places: &[AgentPlaces], numbers: &Numbers) -> Option<Joint>
    requires { length places.now ≤ MOST_TOGETHER }
    ensures { IfSome result (AreNumbered places.now numbers.now) }
{
    let mut joint = [Place::default(); MOST_TOGETHER];
    for agent in 0..places.len() {
        joint[agent] = places[agent].at(numbers[agent])?.place;
    }
    Some(joint)
}

/// Whether all of so many agents have arrived.
pub(crate) fn are_home(joint: &Joint, agents: usize) -> bool
    requires { agents ≤ MOST_TOGETHER }
    ensures { AreHome agents joint.now → IsTrue result }
{
    for agent in 0..agents {
        if !joint[agent].is_home {
            return false;
        }
    }
    true
}

/// What a plan costs at least in which so many agents are there at a time step.
pub(crate) fn cost_of(joint: &Joint, agents: usize) -> u64
    requires { agents ≤ MOST_TOGETHER }
    ensures { result ≤ cost_in (take agents joint.now) }
{
    let mut sum = 0_u64;
    for agent in 0..agents {
        sum = sum.saturating_add(u64::from(joint[agent].cost));
    }
    sum
}
