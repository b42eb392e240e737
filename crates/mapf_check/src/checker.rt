ghost use Rattle.std.specs.Prelude.{◌≡◌, ℕ, ◌+◌, ◌<◌, [], ◌∷◌, ◌↔◌, length, MatchOption};
ghost use Rattle.mapf_plan.specs.Text.{CanWrite};
ghost use Rattle.mapf_check.specs.Positions.{HasPositions};
ghost use Rattle.mapf_check.specs.Verdict.{IsVerdict, IsPlanVerdict, IsValidAnswer, IsNoPlan, NoFaultBefore, IsFirstFault};

use crate::Verdict;
use crate::paths::{ends_on, is_early_on, starts_on};
use mapf_grid::Instance;
use mapf_plan::{Answer, Plan, Rule};

/// Judges an answer by the classical rule: whether its plan is a valid plan of the instance and costs what is stated
/// with it, and if not, what its first fault is. No memory is taken.
pub fn check(instance: &Instance, answer: &Answer) -> Verdict
    ensures verdict { IsVerdict Rule.Classical instance.now answer.now result }
    ensures valid { (c : ℕ) → (result ≡ Verdict.Valid c) ↔ IsValidAnswer Rule.Classical instance.now answer.now c }
    ensures none { (result ≡ Verdict.NoPlanGiven) ↔ IsNoPlan answer.now }
    // so that the verdict's line can be written
    ensures positions { CanWrite instance.now.grid answer.now → HasPositions instance.now.grid result }
{
    check_by(instance, answer, Rule::Classical)
}

/// Judges an answer as `check` does, by the rule that is given. No memory is taken.
pub fn check_by(instance: &Instance, answer: &Answer, rule: Rule) -> Verdict
    ensures verdict { IsVerdict rule instance.now answer.now result }
    ensures valid { (c : ℕ) → (result ≡ Verdict.Valid c) ↔ IsValidAnswer rule instance.now answer.now c }
    ensures none { (result ≡ Verdict.NoPlanGiven) ↔ IsNoPlan answer.now }
    ensures positions { CanWrite instance.now.grid answer.now → HasPositions instance.now.grid result }
{
    match answer {
        Answer::Plan { plan, stated } => check_plan(instance, plan, *stated, rule),
        Answer::None { .. } | Answer::GaveUp { .. } => Verdict::NoPlanGiven,
    }
}

/// The verdict by this rule on a plan that is stated to cost so much.
fn check_plan(instance: &Instance, plan: &Plan, stated: u64, rule: Rule) -> Verdict
    ensures { IsPlanVerdict rule instance.now plan.now stated result }
{
    let paths = plan.paths().len();
    if paths != instance.agents() {
        return Verdict::AgentCount { paths };
    }
    if let Some(fault) = fault_of_paths(instance, plan) {
        return fault;
    }
    if let Some(conflict) = plan.first_conflict_by(rule) {
        return Verdict::Conflict(conflict);
    }
    let found = plan.cost();
    if found != stated {
        return Verdict::WrongCost { stated, found };
    }
    Verdict::Valid { cost: stated }
}

/// The first fault that one of the paths has by itself.
fn fault_of_paths(instance: &Instance, plan: &Plan) -> Option<Verdict>
    requires { length plan.now ≡ length instance.now.starts }
    ensures { MatchOption result (NoFaultBefore instance.now plan.now (66 ∷ []))
        (λ fault. IsFirstFault instance.now plan.now fault) }
{
    if let Some(fault) = wrong_start(instance, plan) {
        return Some(fault);
    }
    if let Some(fault) = bad_step(instance, plan) {
        return Some(fault);
    }
    if let Some(fault) = wrong_end(instance, plan) {
        return Some(fault);
    }
    ends_late(instance, plan)
}

/// The first agent whose path doesn't begin on its start.
fn wrong_start(instance: &Instance, plan: &Plan) -> Option<Verdict>
    requires { length plan.now ≡ length instance.now.starts }
    ensures { MatchOption result (NoFaultBefore instance.now plan.now (63 ∷ []))
        (λ fault. IsFirstFault instance.now plan.now fault) }
{
    for (agent, path) in plan.paths().iter().enumerate() {
        if !starts_on(path, instance.start(agent)) {
            return Some(Verdict::WrongStart { agent });
        }
    }
    None
}

/// The first step of an agent that isn't one of the map.
fn bad_step(instance: &Instance, plan: &Plan) -> Option<Verdict>
    requires paths { length plan.now ≡ length instance.now.starts }
    requires before { NoFaultBefore instance.now plan.now (63 ∷ []) }
    ensures { MatchOption result (NoFaultBefore instance.now plan.now (64 ∷ []))
        (λ fault. IsFirstFault instance.now plan.now fault) }
{
    for agent in 0..plan.paths().len() {
        if let Some(fault) = bad_step_of(instance, plan, agent) {
            return Some(fault);
        }
    }
    None
}

/// The first step of this agent that isn't one of the map.
fn bad_step_of(instance: &Instance, plan: &Plan, agent: usize) -> Option<Verdict>
    requires agent { agent < length plan.now }
    requires paths { length plan.now ≡ length instance.now.starts }
    requires before { NoFaultBefore instance.now plan.now (63 ∷ agent ∷ []) }
    ensures { MatchOption result (NoFaultBefore instance.now plan.now (63 ∷ (agent + 1) ∷ []))
        (λ fault. IsFirstFault instance.now plan.now fault) }
{
    for time in 1..plan.paths()[agent].cost() + 1 {
        let (from, to) = (plan.at(agent, time - 1), plan.at(agent, time));
        if !instance.map().is_step(from, to) {
            return Some(Verdict::BadStep { agent, time });
        }
    }
    None
}

/// The first agent whose path doesn't end on its goal.
fn wrong_end(instance: &Instance, plan: &Plan) -> Option<Verdict>
    requires paths { length plan.now ≡ length instance.now.starts }
    requires before { NoFaultBefore instance.now plan.now (64 ∷ []) }
    ensures { MatchOption result (NoFaultBefore instance.now plan.now (65 ∷ []))
        (λ fault. IsFirstFault instance.now plan.now fault) }
{
    for (agent, path) in plan.paths().iter().enumerate() {
        if !ends_on(path, instance.goal(agent)) {
            return Some(Verdict::WrongEnd { agent });
        }
    }
    None
}

/// The first agent that is on its goal one step before its path ends.
fn ends_late(instance: &Instance, plan: &Plan) -> Option<Verdict>
    requires paths { length plan.now ≡ length instance.now.starts }
    requires before { NoFaultBefore instance.now plan.now (65 ∷ []) }
    ensures { MatchOption result (NoFaultBefore instance.now plan.now (66 ∷ []))
        (λ fault. IsFirstFault instance.now plan.now fault) }
{
    for (agent, path) in plan.paths().iter().enumerate() {
        if is_early_on(path, instance.goal(agent)) {
            return Some(Verdict::EndsLate { agent });
        }
    }
    None
}
