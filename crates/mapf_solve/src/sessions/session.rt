//! A session: a search goes on with a source whose owner works ahead, and workers beside it.

ghost use Rattle.std.specs.Prelude.{◌≡◌, None, Ok, replicate};
ghost use Rattle.mapf_board.specs.Owners.{IsOwnerOf, board_of, currents};
ghost use Rattle.mapf_board.specs.Workers.{IsCrewOf, size_of};
ghost use Rattle.mapf_board.specs.declared.limits.TheConstants.{MOST_SLOTS};
ghost use Rattle.mapf_solve.specs.Sessions.{HasTaken};

use crate::means::Means;
use crate::sessions::brands::{OneBoard, OneProblem};
use crate::sessions::desk::Desk;
use crate::sessions::lookahead::Lookahead;
use crate::sessions::side_job::SideWork;
use crate::sessions::source::SessionSource;
use mapf_board::{
    Crew, Gate, Lead, Live, MOST_SLOTS, Owner, Supply, WorkerSeat, close_behind, work_beside,
};
use mapf_grid::NoMemory;
use mapf_tree::{Progress, Search};
use std::marker::Brand;
use std::thread::Threads;

/// A search, and what each of its sessions hands on to the next.
#[derive(Drop)]
pub(crate) struct SessionSearch<'p, P: OneProblem> {
    pub(crate) search: Search<'p>,
    pub(crate) lookahead: Lookahead<'p, P>,
    ghost of_problem: { search.problem ≡ P.problem },
}

/// A search and its source of children, for so many nodes.
#[derive(Drop)]
struct Led<'p, 's, P: OneProblem, B: OneBoard, G> {
    search: Search<'p>,
    source: SessionSource<'p, 's, P, B, G>,
    nodes: u64,
    ghost of_problem: { search.problem ≡ P.problem },
}

/// The owner's part of a session: its nodes are taken, then the board is shut.
impl<'p, 's, P: OneProblem, B: OneBoard, G: Gate> Lead for Led<'p, 's, P, B, G> {
    ghost use Rattle.std.specs.Prelude.{◌≡◌, None, Ok};
    ghost use Rattle.mapf_solve.specs.Sessions.{HasTaken};

    type Outcome = Result<Progress, NoMemory>;

    ghost may_lead = { λ l. l.search.outcome ≡ Ok None };

    ghost leads = { λ l progress m. HasTaken P.problem l.nodes l.search m.search progress };

    fn has_jobs(&self) -> bool {
        self.source.desk.has_jobs()
    }

    fn lead(&mut self) -> Result<Progress, NoMemory> {
        let progress = self.search.go(&mut self.source, self.nodes);
        self.source.desk.shut();
        progress
    }
}

/// A session at its board, which is closed behind it.
fn session_at<'p, P: OneProblem, B: OneBoard, R: Threads + Sync, G: Gate, S: Supply>(
    means: &Means<'_, R, G, S>,
    live: Live<SideWork<'p>>,
    owner: Owner<SideWork<'p>>,
    seats: Vec<WorkerSeat<SideWork<'p>>>,
    sessions: SessionSearch<'p, P>,
) -> (SessionSearch<'p, P>, Result<Progress, NoMemory>)
    requires board { board_of live ≡ B.board }
    requires slots { size_of live ≡ MOST_SLOTS }
    requires owns { IsOwnerOf live owner }
    requires no_job { currents owner ≡ replicate MOST_SLOTS None }
    requires crew { IsCrewOf live seats.items }
    requires open_yet { sessions.search.outcome ≡ Ok None }
    ensures { HasTaken P.problem means.now.pace.session_nodes sessions.entry.search
        result.0.search result.1 }
{
    let nodes = means.pace.session_nodes;
    let mut crew = Crew::of(&live, seats, means.pace.worker_turns);
    let work = SideWork::new(means.alloc);
    let desk = Desk::<P, B>::new(&live, owner);
    let SessionSearch { search, lookahead } = sessions;
    let source = SessionSource::begin(lookahead, desk, means.gate, search.waiting());
    let mut led = Led {
        search,
        source,
        nodes,
    };
    let progress = work_beside(
        means.rt,
        &mut crew,
        &work,
        means.gate,
        means.supply,
        &mut led,
    );
    let seats = crew.into_seats();
    let Led { search, source, .. } = led;
    let SessionSource {
        mut lookahead,
        desk,
        ..
    } = source;
    let owner = desk.into_owner();
    let Ok(left) = close_behind(means.alloc, live, owner, seats) else {
        return (SessionSearch { search, lookahead }, Err(NoMemory));
    };
    lookahead.end_session(left, nodes);
    (SessionSearch { search, lookahead }, progress)
}

/// One session: nodes are taken, and workers beside work out children of those that wait, unless it goes on alone. How the search went
/// on, for as many nodes as a session takes.
pub(crate) fn session<'p, P: OneProblem, R: Threads + Sync, G: Gate, S: Supply>(
    means: &Means<'_, R, G, S>,
    sessions: SessionSearch<'p, P>,
) -> (SessionSearch<'p, P>, Result<Progress, NoMemory>)
    requires { sessions.search.outcome ≡ Ok None }
    ensures { HasTaken P.problem means.now.pace.session_nodes sessions.entry.search
        result.0.search result.1 }
{
    let Ok((live, owner, seats)) = Live::<SideWork<'p>>::new(means.alloc, MOST_SLOTS, means.workers)
    else {
        return (sessions, Err(NoMemory));
    };
    session_at::<P, Brand, R, G, S>(means, live, owner, seats, sessions)
}
