//! The command line, as `clap` reads it.

mod option;

use crate::command::option::{Kind, option};
use clap::{ArgMatches, Command, Error};
use mapf_plan::Rule;
use mapf_solve::Ask;
use std::alloc::{AllocError, Global};

const NODES: &str =
    "How many nodes the search may take before it gives up, 1 to 1000000; no limit without it";

const ANY_OPTIMUM: &str =
    "Print any plan that costs least, whichever of several: for many agents it is found sooner";

const PROGRESS: &str =
    "Say on standard error how many nodes were taken and what no plan costs less than, once a second at most";

const NO_FOLLOWING: &str = "No agent may enter a cell that another leaves in the same step";

/// What `mapf solve` was asked.
#[derive(Clone, Copy)]
pub(crate) struct Solve<'a> {
    /// The map's file.
    pub(crate) map: &'a str,
    /// The scenario's file.
    pub(crate) scen: &'a str,
    /// The numbers.
    pub(crate) ask: Ask,
    /// Whether any optimum will do.
    pub(crate) any_optimum: bool,
    /// Whether lines say how far the search has come.
    pub(crate) progress: bool,
}

/// What `mapf check` was asked.
#[derive(Clone, Copy)]
pub(crate) struct Check<'a> {
    /// The map's file.
    pub(crate) map: &'a str,
    /// The scenario's file.
    pub(crate) scen: &'a str,
    /// The plan's file.
    pub(crate) plan: &'a str,
    /// How many agents there are.
    pub(crate) agents: u64,
    /// By which rule agents collide.
    pub(crate) rule: Rule,
}

/// What the words ask for.
#[derive(Clone, Copy)]
pub(crate) enum Subcommand<'a> {
    Solve(Solve<'a>),
    Check(Check<'a>),
}

/// What the words ask for; none only where `clap` lets a word pass that no command has.
pub(crate) fn parse<'a>(
    alloc: Global,
    words: &'a [String],
) -> Result<Option<Subcommand<'a>>, Error> {
    let matches = program(alloc)?.try_get_matches_from(words)?;
    if let Some(solve) = matches.subcommand_matches("solve") {
        return Ok(solve_of(solve).map(|solve| Subcommand::Solve(solve)));
    }
    if let Some(check) = matches.subcommand_matches("check") {
        return Ok(check_of(check).map(|check| Subcommand::Check(check)));
    }
    Ok(None)
}

fn solve_of<'a>(matches: &ArgMatches<'a>) -> Option<Solve<'a>> {
    Some(Solve {
        map: matches.get_str("map")?,
        scen: matches.get_str("scen")?,
        ask: Ask {
            agents: matches.get_one::<u64>("agents")?,
            bound: matches.get_one::<u64>("bound")?,
            workers: matches.get_one::<u64>("workers")?,
            nodes: matches.get_one::<u64>("nodes"),
            rule: rule_of(matches),
        },
        any_optimum: matches.get_flag("any-optimum"),
        progress: matches.get_flag("progress"),
    })
}

fn check_of<'a>(matches: &ArgMatches<'a>) -> Option<Check<'a>> {
    Some(Check {
        map: matches.get_str("map")?,
        scen: matches.get_str("scen")?,
        plan: matches.get_str("plan")?,
        agents: matches.get_one::<u64>("agents")?,
        rule: rule_of(matches),
    })
}

fn rule_of(matches: &ArgMatches<'_>) -> Rule {
    if matches.get_flag("no-following") {
        Rule::NoFollowing
    } else {
        Rule::Classical
    }
}

fn program<'a>(alloc: Global) -> Result<Command<'a>, AllocError> {
    Command::new(alloc, "mapf")
        .version("0.1.0-dev")
        .about("Optimal multi-agent path finding by conflict-based search")
        .subcommand_required(true)
        .subcommand(solve_command(alloc)?)?
        .subcommand(check_command(alloc)?)
}

fn solve_command<'a>(alloc: Global) -> Result<Command<'a>, AllocError> {
    let about = "Plans paths that cost least and have no conflict";
    let options = [
        (
            Kind::Number,
            "bound",
            "What a plan may cost at most, 0 to 1000000",
        ),
        (
            Kind::Number,
            "workers",
            "How many workers may work at once, 1 to 64",
        ),
        (Kind::Limit, "nodes", NODES),
        (Kind::Flag, "any-optimum", ANY_OPTIMUM),
        (Kind::Flag, "progress", PROGRESS),
    ];
    with_options(alloc, instance_command(alloc, "solve", about)?, &options)
}

fn check_command<'a>(alloc: Global) -> Result<Command<'a>, AllocError> {
    let about = "Judges a plan of any planner";
    let options = [(
        Kind::File,
        "plan",
        "The plan, in the text that solve prints",
    )];
    with_options(alloc, instance_command(alloc, "check", about)?, &options)
}

/// A command that reads an instance, with the options that each such one has.
fn instance_command<'a>(
    alloc: Global,
    name: &'a str,
    about: &'a str,
) -> Result<Command<'a>, AllocError> {
    let options = [
        (Kind::File, "map", "The map, in the MovingAI format"),
        (Kind::File, "scen", "The scenario, in the MovingAI format"),
        (Kind::Number, "agents", "How many agents, 1 to 1000"),
        (Kind::Flag, "no-following", NO_FOLLOWING),
    ];
    with_options(alloc, Command::new(alloc, name).about(about), &options)
}

/// The command with these options more, each of a kind, with its name and what `--help` says of it.
fn with_options<'a>(
    alloc: Global,
    command: Command<'a>,
    options: &[(Kind, &'a str, &'a str)],
) -> Result<Command<'a>, AllocError> {
    let mut command = command;
    for &(kind, name, help) in options {
        command = command.arg(option(alloc, kind, name).help(help))?;
    }
    Ok(command)
}
