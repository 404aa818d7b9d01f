// All of the program fit on slices: the line of a job record and a store.
#![tactic(auto)]

ghost use Rattle.std.specs.Prelude.{◌≡◌, true, ◌≤◌, length, take};
ghost use Rattle.integers.specs.Lists.{over};
ghost use Rattle.fit_line.specs.Inside.{Searched, numbers_lent};
ghost use Rattle.fit_line.specs.Report.{FitTable, FitBounds, FitCertified, TableLent, BoundsLent, enough, fit_line, report_line};

use jobs::Job;
use search::Answer;

// How many numbers of the table a search in r rows is lent: none if r is over 2,048, so that check 8 refuses it, as it does for 0 rows.
#[tactic(auto, unfolding(crate::specs::Inside::numbers_lent))]
fn numbers_lent(rows: u32) -> usize
    ensures { result ≡ numbers_lent rows }
{
    if rows <= 2048 {
        16 * (rows as usize)
    } else {
        0
    }
}

// The search of a job in its r rows of the table.
fn search_rows(store: &[u8], job: Job, table: &mut [i16], bounds: &mut [u64]) -> Answer
    requires { 32768 ≤ length table.old }
    ensures { Searched store.now job table.old bounds.old result table.new bounds.new }
{
    let n = numbers_lent(job.rows);
    search::search(store, job, &mut table[..n], bounds)
}

// The line, where there are 2,048 rows and entries, and every line fits.
fn write_line(input: &[u8], table: &mut [i16], bounds: &mut [u64], out: &mut [u8]) -> usize
    requires { (32768 ≤ length table.old) × (2048 ≤ length bounds.old) × (200 ≤ length out.old) }
    ensures length { result ≡ length (fit_line input.now) }
    ensures line { out.new ≡ over (fit_line input.now) out.old }
    ensures table { FitTable input.now table.old table.new }
    ensures bounds { FitBounds input.now bounds.old bounds.new }
    ensures certificate { FitCertified input.now (take result out.new) }
{
    let job = job_records::job_or_zeros(input);
    // What follows a shorter input is an empty store, which the search refuses by 1.
    let answer = search_rows(&input[input.len().min(72)..], job, table, bounds);
    answer_line::line(job.model, answer, out)
}

// The line of a job record and a store, at the front of a buffer: answers how long it is. With a table of fewer than 2,048 rows, a list of
// fewer than 2,048 bounds, or a buffer that some line does not fit into, it does nothing and answers 0.
#[tactic(auto, using(crate::proofs::Fitting::nothing_lent, crate::proofs::Fitting::all_lent), unfolding(crate::specs::Report::report_line, integers::specs::Lists::over))]
pub fn report(input: &[u8], table: &mut [i16], bounds: &mut [u64], out: &mut [u8]) -> usize
    ensures length { result
        ≡ length (report_line input.now table.old bounds.old out.old) }
    ensures line { out.new
        ≡ over (report_line input.now table.old bounds.old out.old) out.old }
    ensures table { TableLent input.now table.old bounds.old out.old table.new }
    ensures bounds { BoundsLent input.now table.old bounds.old out.old bounds.new }
    ensures certificate { enough table.old bounds.old out.old ≡ true →
        FitCertified input.now (take result out.new) }
{
    if table.len() < 32768 || bounds.len() < 2048 || out.len() < 200 {
        return 0;
    }
    write_line(input, table, bounds, out)
}
