// The range of every coefficient: the least and the greatest value that each used coordinate has among all vectors of a job's box that cost
// at most a ceiling.
#![tactic(auto)]

mod run;
mod step;

ghost use Rattle.std.specs.Prelude.{◌≡◌, ◌*◌};
ghost use Rattle.residuals.specs.Laws.{Small};
ghost use Rattle.range_hulls.specs.Hulls.{found_of};
ghost use Rattle.ranges.specs.Ranges.{check_ranges, given_by, refused, ranges_answer, TableRanged, RangesCertified};
ghost use Rattle.ranges.specs.Inside.{told_of};

use crate::run::{End, begin, steps};
use boxes::Box;
use codes::Refusal;
use eval_lanes::chunk_of;
use jobs::{Job, Model};
use range_hulls::{Range, slots};

// What the search comes to. "The search is finished when no box is open"; "a search that isn't finished answers spent or full".
#[derive(Clone, Copy, Debug, PartialEq, Eq)]
pub enum Kind {
    Finished,
    Spent,
    Full,
    Refused(Refusal),
}

// The range of each coordinate, with the splits counted, the open boxes and the peak of their number. Only a finished search tells ranges;
// at a refusal the numbers are 0.
#[derive(Clone, Copy, Debug, PartialEq)]
pub struct Answer {
    pub kind: Kind,
    pub slots: [Range; 8],
    pub count: u32,
    pub open: usize,
    pub peak: usize,
}

// Checks 1 to 8, with a table of so many numbers.
#[tactic(auto, unfolding(crate::specs::Ranges::check_ranges, codes::specs::Codes::in_order))]
pub fn check_ranges(store: &[u8], job: Job, numbers: usize) -> Result<(), Refusal>
    ensures { result ≡ check_ranges store.now job numbers }
{
    search_checks::check_job(store, job)?;
    search_checks::check_table(numbers)
}

fn refusal(why: Refusal) -> Answer
    ensures { result ≡ refused why }
{
    Answer {
        kind: Kind::Refused(why),
        slots: [Range::Nothing; 8],
        count: 0,
        open: 0,
        peak: 0,
    }
}

// What is told of what was found: all, if the search is finished.
fn given_by(kind: Kind, hull: Option<Box>) -> Option<Box>
    ensures { found_of result ≡ given_by kind (found_of hull) }
{
    match kind {
        Kind::Finished => hull,
        _ => None,
    }
}

// How many coordinates are used.
fn used_by(n: u8, d: u8) -> usize
    ensures { result ≡ n * d }
{
    usize::from(n) * usize::from(d)
}

// An answer with a kind and a state.
fn tell(m: Model, end: End) -> Answer
    ensures { result ≡ told_of m end }
{
    let s = end.state;
    Answer {
        kind: end.kind,
        slots: slots(m.scale, used_by(m.n, m.d), given_by(end.kind, s.hull)),
        count: s.count,
        open: s.open,
        peak: s.peak,
    }
}

// Every coordinate has the size of a signed 16-bit number. That is for the proof's sake alone: it knows
// so of a signed number only where the number is read (of an unsigned one its type tells).
fn sixteen_bits(v: &[i16])
    ensures { Small v.now }
{
    for k in 0..v.len() {
        let _size = v[k];
    }
}

// Finds the range of every coefficient among the vectors of a job's box that cost at most the ceiling, within a split budget and the rows
// of a lent table.
pub fn ranges(store: &[u8], job: Job, ceiling: u64, table: &mut [i16]) -> Answer
    ensures answer { result ≡ ranges_answer store.now job ceiling table.old }
    ensures table { TableRanged store.now job ceiling table.old table.new }
    ensures ranges { RangesCertified store.now job ceiling table.old result }
{
    if let Err(why) = check_ranges(store, job, table.len()) {
        return refusal(why);
    }
    sixteen_bits(&job.domain.low);
    sixteen_bits(&job.domain.high);
    let m = job.model;
    let mut lanes = [chunk_of(0.0); 54];
    eval_stores::decode(&mut lanes, store, m.d, scale::power(m.scale));
    let first = begin(store, &lanes, m, ceiling, table, job.domain);
    tell(m, steps(store, &lanes, job, ceiling, table, first))
}
