// The checks of a search.
#![tactic(auto)]

ghost use Rattle.std.specs.Prelude.{◌≡◌, ◌/◌, leb};
ghost use Rattle.codes.specs.Codes.{pass_if};
ghost use Rattle.codes.specs.declared.Refusal.{Refusal};
ghost use Rattle.search_checks.specs.Checks.{check_job, check_search};

use codes::Refusal;
use jobs::Job;

// Check 8, of the numbers that the table has.
pub fn check_table(numbers: usize) -> Result<(), Refusal>
    ensures { result ≡ pass_if (leb 16 numbers) Refusal.Table }
{
    if 16 <= numbers {
        Ok(())
    } else {
        Err(Refusal::Table)
    }
}

// Check 14, of the entries beside a table of so many numbers.
pub fn check_bounds(numbers: usize, entries: usize) -> Result<(), Refusal>
    ensures { result ≡ pass_if (leb (numbers / 16) entries) Refusal.Bounds }
{
    if numbers / 16 <= entries {
        Ok(())
    } else {
        Err(Refusal::Bounds)
    }
}

// Checks 1 to 7. Only where checks 1 to 6 pass is the store looked through for stray fields.
#[tactic(auto, unfolding(crate::specs::Checks::check_job, codes::specs::Codes::in_order))]
pub fn check_job(store: &[u8], job: Job) -> Result<(), Refusal>
    ensures { result ≡ check_job store.now job }
{
    let m = job.model;
    model_checks::check_model(store, m)?;
    boxes::check_box(m.n, m.d, job.domain)?;
    boxes::check_start(job.domain, job.start)?;
    points::check_stray(store, m.d)
}

// Checks 1 to 8 and 14, with a table of so many numbers and a list of so many entries.
#[tactic(auto, unfolding(crate::specs::Checks::check_search, codes::specs::Codes::in_order))]
pub fn check_search(store: &[u8], job: Job, numbers: usize, entries: usize) -> Result<(), Refusal>
    ensures { result ≡ check_search store.now job numbers entries }
{
    check_job(store, job)?;
    check_table(numbers)?;
    check_bounds(numbers, entries)
}
