// One split budget for several boards: job after job, each with its store and its share of the splits, in one table.
#![tactic(auto)]

ghost use Rattle.std.specs.Prelude.{◌≡◌, ◌*◌, ◌≤◌, IfOk, length};
ghost use Rattle.sharing.specs.Sharing.{SharedTable, SharedBounds};
ghost use Rattle.boards.specs.Boards.{check_jobs, boards_answer, searches_run, BoardsShared, BoardsCertified};
ghost use Rattle.boards.specs.Inside.{Answered};

use codes::Refusal;
use search::Answer;

// What an accepted call comes to: each job's answer or refusal, and the budget that it got. Slots without a job are refused by 18.
#[derive(Clone, Copy, Debug, PartialEq, Eq)]
pub struct BoardAnswers {
    pub answers: [Answer; 8],
    pub budgets: [u32; 8],
}

// Check 18, of so many jobs in so many bytes, with so many lengths.
#[tactic(auto, unfolding(crate::specs::Boards::check_jobs))]
fn check_jobs(count: u8, bytes: usize, entries: usize) -> Result<(), Refusal>
    ensures { result ≡ check_jobs count bytes entries }
{
    let jobs = count as usize;
    if 1 <= jobs && jobs <= 8 && 72 * jobs <= bytes && jobs <= entries {
        Ok(())
    } else {
        Err(Refusal::Jobs)
    }
}

// Job after job, in one table: what a job does not spend is left for those behind it.
fn each_board(
    count: usize,
    total: u32,
    jobs: &[u8],
    stores: &[u8],
    lengths: &[u32],
    table: &mut [i16],
    bounds: &mut [u64],
) -> BoardAnswers
    requires { (count ≤ 8) × (72 * count ≤ length jobs.now) × (count ≤ length lengths.now) }
    ensures { Answered count total jobs.now stores.now lengths.now table.old bounds.old
        count result.answers result.budgets table.new bounds.new }
{
    let mut answers = [Answer::refused(Refusal::Jobs); 8];
    let mut budgets = [0; 8];
    let mut left = total;
    let mut from: usize = 0;
    // By places: how many jobs are left stands beside record and length.
    for i in 0..count {
        let size = lengths[i] as usize;
        let job = one_board::allotted(&jobs[72 * i..72 * i + 72], left, (count - i) as u32);
        let answer = one_board::search_part(stores, from, size, job, table, bounds);
        answers[i] = answer;
        budgets[i] = job.budget;
        left -= answer.count;
        from += size;
    }
    BoardAnswers { answers, budgets }
}

// Searches the stores of 1 to 8 jobs in order, in one table, within one split budget.
pub fn boards(
    count: u8,
    total: u32,
    jobs: &[u8],
    stores: &[u8],
    lengths: &[u32],
    table: &mut [i16],
    bounds: &mut [u64],
) -> Result<BoardAnswers, Refusal>
    ensures answer { result
        ≡ boards_answer count total jobs.now stores.now lengths.now table.old
        bounds.old }
    ensures table { SharedTable (searches_run count total jobs.now stores.now lengths.now table.old
        bounds.old) table.old table.new }
    ensures bounds { SharedBounds (searches_run count total jobs.now stores.now lengths.now table.old
        bounds.old) bounds.old bounds.new }
    ensures shares { IfOk result
        (BoardsShared count total jobs.now stores.now lengths.now table.old bounds.old) }
    ensures certificate { IfOk result
        (BoardsCertified count total jobs.now stores.now lengths.now table.old bounds.old) }
{
    check_jobs(count, jobs.len(), lengths.len())?;
    Ok(each_board(count as usize, total, jobs, stores, lengths, table, bounds))
}
