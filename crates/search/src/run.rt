// From the beginning of a search to its answer, step after step.
ghost use Rattle.std.specs.Prelude.{◌≡◌, ◌≤◌, length};
ghost use Rattle.boxes.specs.Boxes.{InBox};
ghost use Rattle.points.specs.Points.{points_of};
ghost use Rattle.residuals.specs.Cost.{cost, bound};
ghost use Rattle.branching.specs.Branching.{Evaluable};
ghost use Rattle.list_rows.specs.Rows.{row_count};
ghost use Rattle.replacing.specs.Replacing.{memory};
ghost use Rattle.search.specs.Inside.{Begun, Ended, answer_with, Ran};
ghost use Rattle.search.specs.Search.{searched};

use crate::step::{State, step};
use crate::{Answer, Kind};
use costs::NO_CAP;
use eval_lanes::Chunk;
use incumbent::{Mark, is_solved};
use jobs::Job;
use list_blocks::Blocks;
use list_running::{LateBoxes, Listing};

// The best vector is the start vector. The given box is open if it is kept: it is late, and the table is not written.
fn begin(store: &[u8], lanes: &[Chunk], job: Job, late: &mut LateBoxes) -> State
    requires { Evaluable store.now lanes.now job.model × (length late.old.rows ≡ 2048) × (length late.old.bounds ≡ 128) }
    ensures { Begun (cost job.model (points_of store.now)) (bound job.model (points_of store.now)) job.t job.start
        job.domain result late.new.rows late.new.bounds }
{
    let m = job.model;
    let domain = job.domain;
    let start = job.start;
    let c = costs::cost_in(store, lanes, m, start, NO_CAP);
    let mark = Mark {
        t: job.t,
        cost: c,
        best: start,
    };
    let given = branching::tested(store, lanes, m, domain, mark);
    let list = replacing::add(&mut late.rows, &mut late.bounds, Listing::of_rows(0), given);
    State {
        mark,
        list,
        count: 0,
        peak: list.number,
    }
}

fn answer(kind: Kind, s: State, low: u64) -> Answer
    ensures { result ≡ answer_with kind s low }
{
    let mark = s.mark;
    let vector = mark.best;
    let list = s.list;
    Answer {
        kind,
        vector,
        cost: mark.cost,
        bound: low,
        count: s.count,
        open: list.number,
        peak: s.peak,
    }
}

// What the steps come to: the answer's kind, L, and the state.
#[derive(Clone, Copy)]
pub struct End {
    pub kind: Kind,
    pub low: u64,
    pub state: State,
}

fn ended(kind: Kind, low: u64, state: State) -> End
    ensures { result ≡ record { kind = kind; low = low; state = state } }
{
    End { kind, low, state }
}

// Step after step, from the beginning: solved is the paper's (a), spent its (b), and `step` its (c).
fn steps(
    store: &[u8],
    lanes: &[Chunk],
    job: Job,
    table: &mut [i16],
    bounds: &mut [u64],
    leasts: &mut Blocks,
    late: &mut LateBoxes,
    first: State,
) -> End
    requires evaluable { Evaluable store.now lanes.now job.model × (1 ≤ row_count table.old) × (row_count table.old ≤ length bounds.old)
        × InBox job.start job.domain
        × (leasts.old.count ≡ 0) × (length leasts.old.leasts ≡ 64) × (length leasts.old.places ≡ 64) }
    requires begun { Begun (cost job.model (points_of store.now)) (bound job.model (points_of store.now)) job.t job.start job.domain
        first late.old.rows late.old.bounds }
    ensures { Ended (bound job.model (points_of store.now)) (searched store.now job (row_count table.old))
        (memory table.old bounds.old leasts.old late.old.rows late.old.bounds) result
        (memory table.new bounds.new leasts.new late.new.rows late.new.bounds) }
{
    let m = job.model;
    let mut s = first;
    // It ends by one of three answers, not by a count.
    loop {
        let mark = s.mark;
        let found = s.list.lowest(leasts, mark.cost);
        let low = found.bound();
        let solved = is_solved(job.t, mark.cost - low, s.list.number);
        let spent = s.count == job.budget;
        if solved {
            return ended(Kind::Solved, low, s);
        }
        if spent {
            return ended(Kind::Spent, low, s);
        }
        match step(store, lanes, m, table, bounds, leasts, late, s, found) {
            Some(after) => s = after,
            None => return ended(Kind::Full, low, s),
        }
    }
}

// From the beginning to the answer. In the end the open boxes are the first rows of the table.
pub fn run(store: &[u8], lanes: &[Chunk], job: Job, table: &mut [i16], bounds: &mut [u64]) -> Answer
    requires { Evaluable store.now lanes.now job.model × (1 ≤ row_count table.old) × (row_count table.old ≤ length bounds.old)
        × InBox job.start job.domain }
    ensures { Ran (bound job.model (points_of store.now)) (searched store.now job (row_count table.old))
        table.old bounds.old result table.new bounds.new }
{
    let mut leasts = Blocks {
        count: 0,
        leasts: [0; 64],
        places: [0; 64],
    };
    let mut late = LateBoxes {
        rows: [0; 2048],
        bounds: [0; 128],
    };
    let first = begin(store, lanes, job, &mut late);
    let end = steps(
        store,
        lanes,
        job,
        table,
        bounds,
        &mut leasts,
        &mut late,
        first,
    );
    let s = end.state;
    s.list.settle(table, bounds, &mut leasts, &late.rows, &late.bounds, s.mark);
    answer(end.kind, s, end.low)
}
