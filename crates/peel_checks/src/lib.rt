// The checks of peeling.
#![tactic(auto)]

ghost use Rattle.std.specs.Prelude.{◌≡◌, ◌/◌, leb, eqb};
ghost use Rattle.codes.specs.Codes.{pass_if, within, in_order};
ghost use Rattle.codes.specs.declared.Refusal.{Refusal};
ghost use Rattle.peel_checks.specs.Checks.{model_checks, check_peel};

use codes::Refusal;
use jobs::{Job, Model};

// "Other n .. get 2".
fn check_line(n: u8) -> Result<(), Refusal>
    ensures { result ≡ pass_if (eqb n 1) Refusal.Shape }
{
    if n == 1 { Ok(()) } else { Err(Refusal::Shape) }
}

// "Other .. p get .. 4".
fn check_counting(p: u8) -> Result<(), Refusal>
    ensures { result ≡ pass_if (eqb p 0) Refusal.Loss }
{
    if p == 0 { Ok(()) } else { Err(Refusal::Loss) }
}

// Check 13.
fn check_limit(limit: u8) -> Result<(), Refusal>
    ensures { result ≡ pass_if (within 1 limit 4) Refusal.Rounds }
{
    if 1 <= limit && limit <= 4 {
        Ok(())
    } else {
        Err(Refusal::Rounds)
    }
}

// Check 10, of a store's bytes and the labels that there is room for.
fn check_labels(bytes: usize, labels: usize) -> Result<(), Refusal>
    ensures { result ≡ pass_if (leb (bytes / 12) labels) Refusal.Short }
{
    if bytes / 12 <= labels {
        Ok(())
    } else {
        Err(Refusal::Short)
    }
}

// Checks 1 to 4 and 13, of a store's bytes.
#[tactic(auto, unfolding(codes::specs::Codes::in_order))]
fn check_given(bytes: usize, m: Model, limit: u8) -> Result<(), Refusal>
    ensures { result ≡ in_order (model_checks bytes m limit) }
{
    points::check_store(bytes)?;
    boxes::check_shape(m.n, m.d)?;
    check_line(m.n)?;
    scale::check_scale(m.scale)?;
    loss::check_loss(m.p, m.eps)?;
    check_counting(m.p)?;
    check_limit(limit)
}

// Checks 1 to 4, 13, 5 to 8, 14 and 10, with a table of so many numbers, a list of so many entries and so many labels. The checks of a
// search come behind 1 to 4 and 13: of its own 1 to 4 none refuses there.
#[tactic(auto, using(crate::proofs::Passed::search_decides), unfolding(codes::specs::Codes::in_order))]
pub fn check_peel(
    store: &[u8],
    job: Job,
    limit: u8,
    numbers: usize,
    entries: usize,
    labels: usize,
) -> Result<(), Refusal>
    ensures { result ≡ check_peel store.now job limit numbers entries labels }
{
    check_given(store.len(), job.model, limit)?;
    search_checks::check_search(store, job, numbers, entries)?;
    check_labels(store.len(), labels)
}
