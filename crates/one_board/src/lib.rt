// One of several jobs: under the budget that it gets, and its search in the table of all.
#![tactic(auto)]

ghost use Rattle.std.specs.Prelude.{◌≡◌, ◌/◌, min};
ghost use Rattle.job_records.specs.Jobs.{job_or_zeros};
ghost use Rattle.one_board.specs.Board.{under, board_answer, BoardTable, BoardBounds};

use codes::Refusal;
use jobs::Job;
use search::Answer;

// The job of a record, under the smaller of its own budget and an equal part of the splits left, for each of the jobs left.
pub fn allotted(bytes: &[u8], left: u32, waiting: u32) -> Job
    ensures { result
        ≡ under (job_or_zeros bytes.now) (min (job_or_zeros bytes.now).budget (left / waiting)) }
{
    let job = job_records::job_or_zeros(bytes);
    let share = left.checked_div(waiting).unwrap_or(0);
    Job {
        budget: job.budget.min(share),
        ..job
    }
}

// The search of the store of so many bytes from one on, unless it reaches past the buffer.
pub fn search_part(
    stores: &[u8],
    from: usize,
    size: usize,
    job: Job,
    table: &mut [i16],
    bounds: &mut [u64],
) -> Answer
    ensures answer { result ≡ board_answer stores.now from size job table.old bounds.old }
    ensures table { BoardTable stores.now from size job table.old bounds.old table.new }
    ensures bounds { BoardBounds stores.now from size job table.old bounds.old bounds.new }
{
    if stores.len() < from || stores.len() - from < size {
        return Answer::refused(Refusal::Length);
    }
    search::search(&stores[from..from + size], job, table, bounds)
}
