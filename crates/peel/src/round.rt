// A round: a search on the points left, and the removal of those that its line fits.
ghost use Rattle.std.specs.Prelude.{◌≡◌, ◌/◌, ◌≤◌, length};
ghost use Rattle.codes.specs.Codes.{pass};
ghost use Rattle.model_checks.specs.Checks.{check_threshold};
ghost use Rattle.points_left.specs.Left.{relabelled, relabels};
ghost use Rattle.peel_rounds.specs.Going.{if_solved, marks_of, rounds_after, Ready, RoundDone};

use jobs::{Job, Model};
use search::{Answer, Kind};

// What a round comes to: its answer, and how many rounds may follow.
#[derive(Clone, Copy, Debug, PartialEq, Eq)]
pub struct Ran {
    pub answer: Answer,
    pub more: usize,
}

// Labels the points left that the line of a vector fits with a number, if the search is solved: how many. The labels of the whole store
// under the one line tell which these are.
fn remove(
    kind: Kind,
    store: &[u8],
    m: Model,
    vector: [i16; 8],
    number: u8,
    labels: &mut [u8],
) -> usize
    requires { check_threshold store.now m vector ≡ pass }
    ensures removed { result ≡ if_solved kind (relabels labels.old (marks_of store.now m vector)) 0 }
    ensures labels { labels.new
        ≡ if_solved kind (relabelled number labels.old (marks_of store.now m vector)) labels.old }
{
    match kind {
        Kind::Solved => {
            let mut marks = [0u8; 4096];
            let _ = labels::labels(store, m, vector, &mut marks);
            points_left::mark(labels, &marks[..store.len() / 12], number)
        }
        Kind::Spent | Kind::Full | Kind::Refused(_) => 0,
    }
}

// How many rounds may follow one that removed so many of the points left.
fn rounds_after(removed: usize, left: usize, more: usize) -> usize
    requires { 1 ≤ more }
    ensures { result ≡ rounds_after removed left more }
{
    if removed == 0 || removed == left {
        0
    } else {
        more - 1
    }
}

// Round i, counted from 0, where `more` rounds may be run. It searches a copy of the records left, by the job as it is.
pub fn one_round(
    store: &[u8],
    job: Job,
    i: usize,
    more: usize,
    table: &mut [i16],
    bounds: &mut [u64],
    labels: &mut [u8],
) -> Ran
    requires { Ready store.now job i more labels.old table.old bounds.old }
    ensures { RoundDone store.now job i more labels.old table.old bounds.old result.answer result.more
        labels.new table.new bounds.new }
{
    let mut left = [0u8; 49152];
    let n = points_left::gather(store, labels, &mut left);
    let answer = search::search(&left[..n], job, table, bounds);
    let number = (i + 1) as u8;
    let removed = remove(answer.kind, store, job.model, answer.vector, number, labels);
    Ran {
        answer,
        more: rounds_after(removed, n / 12, more),
    }
}
