ghost use Rattle.std.specs.Prelude.{◌≡◌, ◌⊎◌, string_bytes, IfOk, IfErr};
ghost use Rattle.mapf_plan.specs.ReadText.{IsTextFault};
ghost use Rattle.mapf_check.specs.Judged.{IsJudged};

use crate::{Verdict, check_by, line};
use mapf_grid::Instance;
use mapf_plan::{Rule, TextFault, read_answer};
use std::alloc::Global;

/// Reads the bytes of a plan's file, and judges their answer by the rule that is given: the verdict, and its line.
///
/// An error is the first fault of the bytes, or that memory ran out.
pub fn judge(
    alloc: Global,
    instance: &Instance,
    plan: &[u8],
    rule: Rule,
) -> Result<(Verdict, String), TextFault>
    ensures judged { IfOk result (λ r. IsJudged rule instance.now plan.now r.0 (string_bytes r.1)) }
    ensures fault { IfErr result
        (λ fault. (fault ≡ TextFault.NoMemory) ⊎ IsTextFault instance.now.grid plan.now fault) }
{
    let answer = read_answer(alloc, plan, instance.map())?;
    let verdict = check_by(instance, &answer, rule);
    let text = line(alloc, &verdict, instance.map()).map_err(|_refused| TextFault::NoMemory)?;
    Ok((verdict, text))
}
