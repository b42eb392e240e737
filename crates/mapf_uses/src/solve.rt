//! A use of `mapf_solve`: an instance of two agents is solved by both rules, and under a bound that is too low.

use anyhow::Result;
use mapf_board::NoGate;
use mapf_plan::Rule;
use mapf_solve::{Ask, answer};
use std::alloc::Global;
use std::thread::Threads;

/// Two rows of three cells. The two corners below are blocked.
const MAP: &[u8] = b"type octile\nheight 2\nwidth 3\nmap\n...\n@.@\n";

/// Agent 0 is on its goal, the cell 1,0 between the start and the goal of agent 1.
const SCENARIO: &[u8] = b"version 1\n0 bay.map 3 2 1 0 1 0 0\n0 bay.map 3 2 0 0 2 0 2\n";

/// How many workers may work at once. The answer is the same with any number of them.
const WORKERS: u64 = 2;

/// Prints the answer by both rules, and under a bound that is too low.
pub(crate) fn show<R: Print + Threads + Sync>(rt: &R, alloc: Global) -> Result<()> {
    for (rule, bound) in [
        (Rule::Classical, 10),
        (Rule::NoFollowing, 10),
        (Rule::Classical, 3),
    ] {
        let ask = Ask {
            agents: 2,
            bound,
            workers: WORKERS,
            nodes: None,
            rule,
        };
        let text = answer(rt, alloc, MAP, SCENARIO, ask, &NoGate)?;
        print!(rt; "{}", str::from_utf8(&text)?)?;
    }
    Ok(())
}
