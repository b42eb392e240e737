//! Which rule a byte of C asks for.

ghost use Rattle.std.specs.Prelude.{◌≡◌};
ghost use Rattle.mapf_c.specs.Asks.{rule_of};

use mapf_plan::Rule;

/// The classical rule by 0, and by any other byte that which forbids following too.
pub(crate) fn rule_of(no_following: u8) -> Rule
    ensures { result ≡ rule_of no_following }
{
    if no_following == 0 {
        Rule::Classical
    } else {
        Rule::NoFollowing
    }
}
