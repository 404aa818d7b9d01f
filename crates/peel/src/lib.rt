// Peeling: one line after another, each solved on the points that the lines before it left.
#![tactic(auto)]

mod round;

ghost use Rattle.std.specs.Prelude.{◌≡◌, cond, eqb};
ghost use Rattle.codes.specs.Codes.{pass};
ghost use Rattle.peel_rounds.specs.Going.{RoundsDone};
ghost use Rattle.peel.specs.Peel.{check_lent, peel_answer, labels_after, TablePeeled, BoundsPeeled, PeelingLent};

use crate::round::one_round;
use codes::Refusal;
use jobs::Job;
use search::Answer;

// "the answers of all rounds run are given": so many of the slots hold them, in order.
#[derive(Clone, Copy, Debug, PartialEq, Eq)]
pub struct Peeled {
    pub rounds: usize,
    pub answers: [Answer; 4],
}

// How many rounds may be run: none on no point.
fn first_rounds(left: usize, limit: usize) -> usize
    ensures { result ≡ cond (eqb left 0) 0 limit }
{
    if left == 0 { 0 } else { limit }
}

// Round after round, each on the points left.
fn each_round(
    store: &[u8],
    job: Job,
    limit: usize,
    table: &mut [i16],
    bounds: &mut [u64],
    labels: &mut [u8],
) -> Peeled
    requires { check_lent store.now job limit table.old bounds.old labels.old ≡ pass }
    ensures { RoundsDone store.now job limit table.old bounds.old labels.old result.rounds result.answers
        labels.new table.new bounds.new }
{
    let mut more = first_rounds(points_left::set_aside(store, labels), limit);
    let mut answers = [Answer::refused(Refusal::Rounds); 4];
    let mut rounds = 0;
    // The rounds that are still allowed end it, not a count.
    while 0 < more {
        let r = one_round(store, job, rounds, more, table, bounds, labels);
        answers[rounds] = r.answer;
        more = r.more;
        rounds += 1;
    }
    Peeled { rounds, answers }
}

// Peels one line after another, `limit` of them at most: solves, removes the points that the line fits, and solves again on those left.
pub fn peel(
    store: &[u8],
    job: Job,
    limit: u8,
    table: &mut [i16],
    bounds: &mut [u64],
    labels: &mut [u8],
) -> Result<Peeled, Refusal>
    ensures answer { result
        ≡ peel_answer store.now job limit table.old bounds.old labels.old }
    ensures labels { labels.new
        ≡ labels_after store.now job limit table.old bounds.old labels.old }
    ensures table { TablePeeled store.now job limit table.old bounds.old labels.old table.new }
    ensures bounds { BoundsPeeled store.now job limit table.old bounds.old labels.old
        bounds.new }
    ensures peeling { PeelingLent store.now job limit table.old bounds.old labels.old }
{
    peel_checks::check_peel(store, job, limit, table.len(), bounds.len(), labels.len())?;
    Ok(each_round(store, job, limit as usize, table, bounds, labels))
}
