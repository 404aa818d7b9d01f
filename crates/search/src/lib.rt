// The search: branch and bound over the boxes of a lent table, with the certificate of its answer.
#![tactic(auto)]

mod run;
mod step;

ghost use Rattle.std.specs.Prelude.{◌≡◌};
ghost use Rattle.search.specs.Search.{kind_number, check_of, refused, search_answer, TableSearched, BoundsSearched, Certified};

use crate::run::run;
use codes::Refusal;
use eval_lanes::chunk_of;
use jobs::Job;
use search_checks::check_search;

// What a search comes to.
#[derive(Clone, Copy, Debug, PartialEq, Eq)]
pub enum Kind {
    Solved,
    Spent,
    Full,
    Refused(Refusal),
}

// "kind (1 solved, 2 spent, 3 full)"; a refusal has no kind, and 0 is no kind's number.
impl From<Kind> for u8 {
    ghost from_gives = { λ k n. n ≡ kind_number k };

    fn from(k: Kind) -> u8 {
        match k {
            Kind::Solved => 1,
            Kind::Spent => 2,
            Kind::Full => 3,
            Kind::Refused(_) => 0,
        }
    }
}

impl Kind {
    // Whether the job was accepted.
    pub fn check(self) -> Result<(), Refusal>
        ensures { result ≡ check_of self }
    {
        match self {
            Kind::Refused(why) => Err(why),
            Kind::Solved | Kind::Spent | Kind::Full => Ok(()),
        }
    }
}

// "The answer carries vector, C, L, count, open boxes and peak." At a refusal they are all 0.
#[derive(Clone, Copy, Debug, PartialEq, Eq)]
pub struct Answer {
    pub kind: Kind,
    pub vector: [i16; 8],
    pub cost: u64,
    pub bound: u64,
    pub count: u32,
    pub open: usize,
    pub peak: usize,
}

impl Answer {
    // The answer to a job that is refused.
    pub fn refused(why: Refusal) -> Answer
        ensures { result ≡ refused why }
    {
        Answer {
            kind: Kind::Refused(why),
            vector: [0; 8],
            cost: 0,
            bound: 0,
            count: 0,
            open: 0,
            peak: 0,
        }
    }
}

// Searches the box of a job for the cheapest vector, within a split budget and the rows of a lent table, with the bound of each open box
// at the end in a lent list.
pub fn search(store: &[u8], job: Job, table: &mut [i16], bounds: &mut [u64]) -> Answer
    ensures answer { result ≡ search_answer store.now job table.old bounds.old }
    ensures table { TableSearched store.now job table.old bounds.old table.new }
    ensures bounds { BoundsSearched store.now job table.old bounds.old bounds.new }
    ensures certificate { Certified store.now job table.old bounds.old result }
{
    match check_search(store, job, table.len(), bounds.len()) {
        Ok(()) => {
            let m = job.model;
            let mut lanes = [chunk_of(0.0); 54];
            eval_stores::decode(&mut lanes, store, m.d, scale::power(m.scale));
            run(store, &lanes, job, table, bounds)
        }
        Err(why) => Answer::refused(why),
    }
}
