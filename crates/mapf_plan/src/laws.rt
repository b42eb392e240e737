//! What holds of every plan and of every text: functions that do nothing, each with one law as its contract.

ghost use Rattle.mapf_plan.specs.FirstConflict.{FirstConflictExists};
ghost use Rattle.mapf_plan.specs.TextLaws.{TextIsOne};

/// A plan has a first conflict, or no conflict at any time.
pub fn first_conflict_exists()
    ensures { FirstConflictExists }
{}

/// No text begins another, and no text is the text of two answers.
pub fn one_text()
    ensures { TextIsOne }
{}
