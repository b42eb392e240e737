//! The options of a command.

use clap::{Arg, ArgAction, value_parser};
use std::alloc::Global;

/// What an option takes.
#[derive(Clone, Copy)]
pub(super) enum Kind {
    /// A file's name, which has to be given.
    File,
    /// A number, which has to be given.
    Number,
    /// A number, if it is given.
    Limit,
    /// Nothing: it is given or not.
    Flag,
}

/// An option of this kind, as `clap` has it.
pub(super) fn option<'a>(alloc: Global, kind: Kind, name: &'a str) -> Arg<'a> {
    let arg = Arg::new(alloc, name).long(name);
    match kind {
        Kind::File => arg.value_name("FILE").required(true).action(ArgAction::Set),
        Kind::Number => number(arg).required(true),
        Kind::Limit => number(arg),
        Kind::Flag => arg.action(ArgAction::SetTrue),
    }
}

fn number<'a>(arg: Arg<'a>) -> Arg<'a> {
    arg.value_name("NUMBER")
        .action(ArgAction::Set)
        .value_parser(value_parser!(u64))
}
