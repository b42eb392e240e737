//! A use of each library: what it gives is printed.
#![tactic(auto)]

mod board;
mod check;
mod grid;
mod low;
mod numbers;
mod plan;
mod solve;
mod squares;

use anyhow::Result;

fn main(rt: HostRuntime) -> Result<()> {
    let alloc = rt.alloc();
    grid::show(&rt, alloc)?;
    plan::show(&rt, alloc)?;
    low::show(&rt, alloc)?;
    check::show(&rt, alloc)?;
    board::show(&rt, alloc)?;
    solve::show(&rt, alloc)?;
    squares::show(&rt, alloc)
}
