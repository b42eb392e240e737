ghost use Rattle.std.specs.Prelude.{◌≡◌, ◌<◌, ◌≤◌, ℕ, Ok, Err, Some, None, IfOk, OnErr, IsErr, IsSome};
ghost use Rattle.std.specs.Option.{option_copied, option_map};
ghost use Rattle.mapf_tree.specs.Prelude.{Answer, key_rank};

mod children;
mod expansion;
mod lower_bound;
mod progress;

use crate::search::expansion::{Expansion, add_if_some, expand_least};
use crate::search::lower_bound::answer_at_limit;
use crate::{Key, Node, OpenList, Problem, root};
pub use children::Children;
pub use lower_bound::least_stated;
use mapf_grid::NoMemory;
use mapf_plan::Answer;
pub use progress::Progress;
use std::alloc::Global;
use std::marker::Model;

/// A search of the constraint tree, best first: it takes the nodes of the tree by cost, depth and name.
pub struct Search<'p> {
    problem: &'p Problem,
    waiting: OpenList,
    /// The last node that was taken.
    last: Option<Node>,
    /// How many nodes were taken, up to `u64::MAX`.
    taken: u64,
    outcome: Result<Option<Answer>, NoMemory>,
}

// By hand, so that a proof about what holds one sees a call where it is dropped, and not its fields.
impl<'p> Drop for Search<'p> {
    fn drop(self) {
        let Search {
            problem: _,
            waiting: _,
            last: _,
            taken: _,
            outcome: _,
        } = self;
    }
}

impl<'p> Model for Search<'p> {
    ghost use Rattle.std.specs.Option.{option_map};
    ghost use Rattle.mapf_tree.specs.Prelude.{node_key, Searched, IsLawful, IsCounted};

    ghost Value = { Searched };

    ghost view = { λ s. record {
      problem = s.problem.now;
      waiting = s.waiting;
      last = option_map node_key s.last;
      taken = s.taken;
      outcome = s.outcome;
    } };

    ghost invariant = { λ s. IsLawful s.problem.now s.waiting (option_map node_key s.last) s.outcome
        × IsCounted s.problem.now (option_map node_key s.last) s.taken };
}

impl<'p> Search<'p> {
    ghost use Rattle.mapf_tree.specs.Prelude.{Problem, IsRoot, IsAnswerOf, IsBestAnswer, IsSearch, IsEnded, TakesBetween, CountsTaken, answer_of, IsStep};

    /// A search that has taken no node yet.
    pub fn new(alloc: Global, problem: &'p Problem) -> Result<Search<'p>, NoMemory>
        ensures problem { IfOk result (λ s. s.problem ≡ problem.now) }
        ensures search { IfOk result IsSearch }
        ensures fresh { IfOk result (λ s. (s.last ≡ None) × (s.outcome ≡ Ok None)) }
    {
        let first = root(alloc, problem)?;
        Search::from_root(alloc, problem, first)
    }

    /// A search from the root of the tree, which is none where the tree is empty.
    pub fn from_root(
        alloc: Global,
        problem: &'p Problem,
        first: Option<Node>,
    ) -> Result<Search<'p>, NoMemory>
        requires { IsRoot problem.now first }
        ensures problem { IfOk result (λ s. s.problem ≡ problem.now) }
        ensures search { IfOk result IsSearch }
        ensures fresh { IfOk result (λ s. (s.last ≡ None) × (s.outcome ≡ Ok None)) }
    {
        let mut waiting = OpenList::new(alloc);
        add_if_some(&mut waiting, first)?;
        Ok(Search {
            problem,
            waiting,
            last: None,
            taken: 0,
            outcome: Ok(None),
        })
    }

    /// Takes up to so many nodes, and fewer only if that gives the answer; what has its answer takes no more. Where the
    /// problem has a limit on nodes, the turn after that many nodes takes none if a node waits, and the answer is that
    /// the search gave up.
    pub fn go<C: Children>(&mut self, children: &mut C, turns: u64) -> Result<Progress, NoMemory>
        requires { C.serves children.old self.old.problem }

        // The source serves the same problem.
        ensures problem { self.new.problem ≡ self.old.problem }
        ensures serves { C.serves children.new self.new.problem }

        // What is taken and what waits; exactly so many nodes were taken, or there is the answer.
        ensures search { IsSearch self.new }
        ensures working { result ≡ Ok Progress.Working → (self.new.outcome ≡ Ok None)
            × TakesBetween self.new.problem self.old.last self.new.last turns }
        ensures finished { result ≡ Ok Progress.Finished → (given : Answer)
            × (self.new.outcome ≡ Ok (Some given)) × IsAnswerOf self.new.problem given }
        ensures no_memory { OnErr result (IsErr self.new.outcome) }

        // The number of taken nodes never falls.
        ensures counted { self.old.taken ≤ self.new.taken }

        // With the answer no more were taken than it needs: the last one is the solution, nothing waits, or no more may be taken.
        ensures within { result ≡ Ok Progress.Finished → (n : ℕ)
            × (n ≤ turns) × TakesBetween self.new.problem self.old.last self.new.last n }
        ensures ended { (given : Answer) → self.new.outcome ≡ Ok (Some given)
            → IsEnded self.new.problem self.new.waiting self.new.last given }

        // A search that has ended does nothing, and neither does one of no turns.
        ensures answered { (given : Answer) → self.old.outcome ≡ Ok (Some given)
            → (result ≡ Ok Progress.Finished) × (self.new ≡ self.old) × (children.new ≡ children.old) }
        ensures failed { IsErr self.old.outcome
            → IsErr result × (self.new ≡ self.old) × (children.new ≡ children.old) }
        ensures none { turns ≡ 0 → self.old.outcome ≡ Ok None
            → (result ≡ Ok Progress.Working) × (self.new ≡ self.old) × (children.new ≡ children.old) }
    {
        match &self.outcome {
            Ok(Some(_answer)) => return Ok(Progress::Finished),
            Ok(None) => {}
            Err(refused) => return Err(*refused),
        }
        for _taken in 0..turns {
            if let Progress::Finished = self.step(children)? {
                return Ok(Progress::Finished);
            }
        }
        Ok(Progress::Working)
    }

    /// Goes on until there is the answer. It returns, since the tree is finite.
    pub fn finish<C: Children>(self, children: &mut C) -> Result<Answer, NoMemory>
        requires { C.serves children.old self.problem }
        ensures answer { IfOk result (IsAnswerOf self.entry.problem) }
        ensures best { IfOk result (IsBestAnswer self.entry.problem) }
    {
        let mut search = self;
        while let Progress::Working = search.go(children, 1)? {}
        search.into_answer().ok_or(NoMemory)
    }

    /// Takes one node, or gives up where the problem's limit says so.
    fn step<C: Children>(&mut self, children: &mut C) -> Result<Progress, NoMemory>
        requires serves { C.serves children.old self.old.problem }
        requires open_yet { self.old.outcome ≡ Ok None }
        ensures problem { self.new.problem ≡ self.old.problem }
        ensures serves { C.serves children.new self.new.problem }
        ensures search { IsSearch self.new }
        ensures step { IsStep self.old self.new result }
        ensures counted { self.old.taken ≤ self.new.taken }
    {
        if let Some(given) = answer_at_limit(self.problem, &self.waiting, self.taken) {
            self.outcome = Ok(Some(given));
            return Ok(Progress::Finished);
        }
        match expand_least(self.problem, &mut self.waiting, children) {
            Ok(Expansion::Branched(node)) => {
                self.last = Some(node);
                self.taken = self.taken.saturating_add(1);
                Ok(Progress::Working)
            }
            Ok(Expansion::Solved { node, plan }) => {
                let stated = plan.cost();
                self.last = Some(node);
                self.taken = self.taken.saturating_add(1);
                self.outcome = Ok(Some(Answer::Plan { plan, stated }));
                Ok(Progress::Finished)
            }
            Ok(Expansion::Empty) => {
                let bound = self.problem.bound();
                self.outcome = Ok(Some(Answer::None { bound }));
                Ok(Progress::Finished)
            }
            Err(refused) => {
                self.outcome = Err(refused);
                Err(refused)
            }
        }
    }

    /// The answer; none before there is one, and none after memory ran out.
    pub fn answer(&self) -> Option<&Answer>
        ensures answer { option_copied result ≡ answer_of self.now.outcome }
        ensures search { IsSearch self.now }
    {
        match &self.outcome {
            Ok(Some(answer)) => Some(answer),
            _ => None,
        }
    }

    /// The answer, taken out of the search.
    pub fn into_answer(self) -> Option<Answer>
        ensures answer { result ≡ answer_of self.entry.outcome }
        ensures search { IsSearch self.entry }
    {
        let Search {
            problem: _problem,
            waiting: _waiting,
            last: _last,
            taken: _taken,
            outcome,
        } = self;
        outcome.ok().flatten()
    }

    /// The nodes that wait.
    pub fn waiting(&self) -> &OpenList
        ensures waiting { result.now ≡ self.now.waiting }
        ensures search { IsSearch self.now }
    {
        &self.waiting
    }

    /// The problem, and the nodes that wait, taken out of the search.
    pub fn into_waiting(self) -> (&'p Problem, OpenList)
        ensures problem { result.0.now ≡ self.entry.problem }
        ensures waiting { result.1 ≡ self.entry.waiting }
        ensures search { IsSearch self.entry }
    {
        let Search {
            problem,
            waiting,
            last: _last,
            taken: _taken,
            outcome: _outcome,
        } = self;
        (problem, waiting)
    }

    /// The key of the last node that was taken; none where no node was.
    pub fn last(&self) -> Option<&Key>
        ensures last { option_map (λ k. key_rank k.now) result ≡ self.now.last }
        ensures search { IsSearch self.now }
    {
        match &self.last {
            Some(node) => Some(node.key()),
            None => None,
        }
    }

    /// How many nodes were taken, the solution among them. A number that has reached `u64::MAX` stays there.
    pub fn taken_nodes(&self) -> u64
        ensures is { result ≡ self.now.taken }
        ensures taken { CountsTaken self.now.problem self.now.last result }
        ensures search { IsSearch self.now }
    {
        self.taken
    }
}
