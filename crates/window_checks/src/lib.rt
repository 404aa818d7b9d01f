// The checks of a pass through the windows of a store, and how many windows it has.
#![tactic(auto)]

ghost use Rattle.std.specs.Prelude.{◌≡◌, ◌*◌, ◌/◌, ◌≤◌, leb, length};
ghost use Rattle.codes.specs.Codes.{pass_if, unless_refused};
ghost use Rattle.codes.specs.declared.Refusal.{Refusal};
ghost use Rattle.window_checks.specs.Checks.{window_count, check_given, check_window, check_windows};

use codes::Refusal;
use jobs::Job;

// Checks 1 to 7, with check 4 for k records. Only where checks 1 to 6 pass is the store looked through for stray fields.
#[tactic(auto, unfolding(crate::specs::Checks::check_given, codes::specs::Codes::in_order))]
fn check_given(store: &[u8], job: Job, k: usize) -> Result<(), Refusal>
    ensures { result ≡ check_given store.now job k }
{
    let m = job.model;
    points::check_store(store.len())?;
    boxes::check_shape(m.n, m.d)?;
    scale::check_scale(m.scale)?;
    loss::check_loss_for(k, m.p, m.eps)?;
    boxes::check_box(m.n, m.d, job.domain)?;
    boxes::check_start(job.domain, job.start)?;
    points::check_stray(store, m.d)
}

// Check 17.
#[tactic(auto, unfolding(crate::specs::Checks::check_window))]
fn check_window(records: usize, k: usize, h: usize) -> Result<(), Refusal>
    ensures { result ≡ check_window records k h }
{
    if 1 <= k && 1 <= h && k <= records {
        Ok(())
    } else {
        Err(Refusal::Window)
    }
}

// How many windows lie wholly in so many records.
#[tactic(auto, using(crate::proofs::Counting::quotient_few), unfolding(crate::specs::Checks::window_count))]
fn window_count(records: usize, k: usize, h: usize) -> usize
    requires { (k ≤ records) × (1 ≤ h) × (records ≤ 4096) }
    ensures { result ≡ window_count records k h }
{
    (records - k) / h + 1
}

// Check 10.
fn check_room(count: usize, room: usize) -> Result<(), Refusal>
    requires { count ≤ 4097 }
    ensures { result ≡ pass_if (leb (40 * count) room) Refusal.Short }
{
    if 40 * count <= room {
        Ok(())
    } else {
        Err(Refusal::Short)
    }
}

// The number of windows, where all checks pass. Windows are counted only where check 17 passes: before, k and h are any numbers.
#[tactic(auto, using(crate::proofs::Passed::counted), unfolding(crate::specs::Checks::check_windows, crate::specs::Checks::check_lent_for, codes::specs::Codes::in_order))]
pub fn count_windows(
    store: &[u8],
    job: Job,
    k: usize,
    h: usize,
    numbers: usize,
    entries: usize,
    room: usize,
) -> Result<u64, Refusal>
    ensures { result
        ≡ unless_refused (check_windows store.now job k h numbers entries room)
        (window_count (length store.now / 12) k h) }
{
    let records = store.len() / 12;
    check_given(store, job, k)?;
    check_window(records, k, h)?;
    let count = window_count(records, k, h);
    search_checks::check_table(numbers)?;
    search_checks::check_bounds(numbers, entries)?;
    check_room(count, room)?;
    Ok(count as u64)
}
