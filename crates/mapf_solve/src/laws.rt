//! What holds of the answers to two files and an ask: functions that do nothing, each with one law as its contract.

ghost use Rattle.mapf_solve.specs.Out.{OneOut};

/// Two files and an ask have one text or one fault, the same with any number of workers from 1 to 64.
pub fn one_out()
    ensures { OneOut }
{}
