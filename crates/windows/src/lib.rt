// A whole pass through the fitter: a search for each window of a store, and the record of its answer.
#![tactic(auto)]

ghost use Rattle.std.specs.Prelude.{◌≡◌, ◌/◌, length};
ghost use Rattle.codes.specs.Codes.{pass};
ghost use Rattle.search.specs.Search.{check_lent};
ghost use Rattle.sharing.specs.Sharing.{SharedTable, SharedBounds};
ghost use Rattle.window_checks.specs.Checks.{window_count, check_windows};
ghost use Rattle.window_runs.specs.Windows.{windows_answer, windows_out, searches_made, WindowsCertified};
ghost use Rattle.window_runs.specs.Inside.{Searched, Passed};

use codes::Refusal;
use jobs::Job;

// One window: its search, and the record of its answer. Answers the job of the next window, which starts at the vector found.
fn window(store: &[u8], job: Job, table: &mut [i16], bounds: &mut [u64], place: &mut [u8]) -> Job
    requires { (check_lent store.now job table.old bounds.old ≡ pass) × (length place.old ≡ 40) }
    ensures { Searched store.now job table.old bounds.old result
        table.new bounds.new place.new }
{
    let answer = search::search(store, job, table, bounds);
    let _ = answer_records::write_answer(answers::record_of(job.model, answer), place);
    // By a local: an array of one struct can't be given straight to another's field.
    let start = answer.vector;
    Job { start, ..job }
}

// Window after window, in one table, each from the vector before it.
fn each_window(
    store: &[u8],
    job: Job,
    k: usize,
    h: usize,
    count: usize,
    table: &mut [i16],
    bounds: &mut [u64],
    out: &mut [u8],
)
    requires { (check_windows store.now job k h (length table.old) (length bounds.old) (length out.old) ≡ pass)
        × (count ≡ window_count (length store.now / 12) k h) }
    ensures { Passed store.now job k h table.old bounds.old out.old count
        table.new bounds.new out.new }
{
    let mut current = job;
    // By places: windows overlap, so they are no chunks of the store.
    for i in 0..count {
        let from = 12 * (i * h);
        let place = &mut out[40 * i..40 * i + 40];
        current = window(&store[from..from + 12 * k], current, table, bounds, place);
    }
}

// Searches each window of k records, h records apart, in order, the first from the job's start vector and each later one from the vector
// found before it; writes an answer record for each, and answers how many there are.
pub fn windows(
    store: &[u8],
    job: Job,
    k: usize,
    h: usize,
    table: &mut [i16],
    bounds: &mut [u64],
    out: &mut [u8],
) -> Result<u64, Refusal>
    ensures answer { result ≡ windows_answer store.now job k h table.old bounds.old out.old }
    ensures out { out.new
        ≡ windows_out store.now job k h table.old bounds.old out.old }
    ensures table { SharedTable (searches_made store.now job k h table.old bounds.old out.old)
        table.old table.new }
    ensures bounds { SharedBounds (searches_made store.now job k h table.old bounds.old out.old)
        bounds.old bounds.new }
    ensures certificate { WindowsCertified store.now job k h table.old bounds.old out.old out.new }
{
    let count = window_checks::count_windows(
        store,
        job,
        k,
        h,
        table.len(),
        bounds.len(),
        out.len(),
    )?;
    each_window(store, job, k, h, count as usize, table, bounds, out);
    Ok(count)
}
