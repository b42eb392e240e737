//! What holds of every verdict: a function that does nothing, with the law as its contract.

ghost use Rattle.mapf_check.specs.Verdict.{HasOneVerdict};

/// By a rule an answer has one verdict on an instance, and no second one.
pub fn one_verdict()
    ensures { HasOneVerdict }
{}
