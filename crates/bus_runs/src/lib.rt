// A run of the fitter on the data bus: the search of a job record, and what the registers show of it.
#![tactic(auto)]

ghost use Rattle.std.specs.Prelude.{◌≡◌, length, IfOk};
ghost use Rattle.job_records.specs.Jobs.{job_or_zeros};
ghost use Rattle.bus_runs.specs.Lent.{shown_of, TableRun, BoundsRun, RunCertified};
ghost use Rattle.bus_runs.specs.Inside.{numbers_for, RunSearched, shown_for};

use codes::Refusal;
use jobs::{Job, Model};
use search::Answer;

// How many numbers of a table the search of a job with so many rows is lent.
#[tactic(auto, unfolding(crate::specs::Inside::numbers_for))]
fn numbers_for(rows: u32, numbers: usize) -> usize
    ensures { result ≡ numbers_for rows numbers }
{
    if numbers / 16 == (rows as usize) {
        numbers
    } else {
        0
    }
}

// The search of a job in a table of its r rows. Where the rows are others it is lent none of them, so that check 8 refuses it.
fn search_rows(store: &[u8], job: Job, table: &mut [i16], bounds: &mut [u64]) -> Answer
    ensures { RunSearched store.now job table.old bounds.old result table.new bounds.new }
{
    let n = numbers_for(job.rows, table.len());
    search::search(store, job, &mut table[..n], bounds)
}

// The record of an answer. Check 9 would refuse that of a refusal, and leave the zeros.
#[tactic(auto, unfolding(crate::specs::Inside::shown_for))]
fn shown_for(m: Model, answer: Answer) -> [u8; 40]
    ensures { result ≡ shown_for m answer }
{
    let mut out = [0u8; 40];
    let _ = answer_records::write_answer(answers::record_of(m, answer), &mut out);
    out
}

// The run of the job record in the first 72 bytes: its answer record, or the refusal. Fewer are a job of zeros, which is refused.
pub fn run(
    bytes: &[u8],
    store: &[u8],
    table: &mut [i16],
    bounds: &mut [u64],
) -> Result<[u8; 40], Refusal>
    ensures run { result
        ≡ shown_of store.now (job_or_zeros bytes.now) (length table.old) (length bounds.old) }
    ensures table { TableRun store.now (job_or_zeros bytes.now) table.old bounds.old table.new }
    ensures bounds { BoundsRun store.now (job_or_zeros bytes.now) table.old bounds.old bounds.new }
    ensures certificate { IfOk result
        (λ shown. RunCertified store.now (job_or_zeros bytes.now) table.old bounds.old shown) }
{
    let job = job_records::job_or_zeros(bytes);
    let found = search_rows(store, job, table, bounds);
    found.kind.check()?;
    Ok(shown_for(job.model, found))
}
