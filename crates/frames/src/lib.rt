// Records by their frame numbers: whether a store's rise, whether those of two stores clash, and how long their union is.
#![tactic(auto)]

mod count;
mod order;

ghost use Rattle.std.specs.Prelude.{◌≡◌, ◌%◌, OnOk};
ghost use Rattle.frames.specs.Frames.{check_either, union_answer};
ghost use Rattle.frames.specs.Walk.{from, stride};

use codes::Refusal;

// Check 1 of one of two stores, by its length in bytes: it may be empty.
#[tactic(auto, using(crate::proofs::Checks::either_passed), unfolding(crate::specs::Frames::check_either))]
fn check_either(len: usize) -> Result<(), Refusal>
    ensures check { result ≡ check_either len }
    ensures whole { OnOk result (len % 12 ≡ 0) }
{
    if len == 0 {
        return Ok(());
    }
    points::check_store(len)
}

// Checks 1, 15 and 16 of two stores, and again 1 of their union: its length in bytes.
#[tactic(auto, using(crate::proofs::Checks::union_over, crate::proofs::Checks::union_counted), unfolding(crate::specs::Frames::union_answer, crate::specs::Frames::check_both, crate::specs::Frames::check_order, codes::specs::Codes::in_order))]
pub fn check_both(first: &[u8], second: &[u8]) -> Result<u64, Refusal>
    ensures { result ≡ union_answer first.now second.now }
{
    check_either(first.len())?;
    check_either(second.len())?;
    if !order::rising(first) || !order::rising(second) {
        return Err(Refusal::Order);
    }
    let bytes = count::count(first, second)?;
    if 49152 < bytes {
        return Err(Refusal::Length);
    }
    Ok(bytes)
}

// How far a walk through both goes on in a store at byte i, where it is at byte j of the other: past the record there, unless the other's
// comes before it.
#[tactic(auto, using(crate::proofs::Records::records_next, crate::proofs::Records::records_end), unfolding(crate::specs::Walk::stride))]
pub fn stride(store: &[u8], i: usize, other: &[u8], j: usize) -> usize
    ensures { result ≡ stride (from store.now i) (from other.now j) }
{
    if store.len() <= i || store.len() - i < 12 {
        return 0;
    }
    if other.len() <= j || other.len() - j < 12 {
        return 12;
    }
    let here = order::frame(store, i);
    let there = order::frame(other, j);
    if there < here { 0 } else { 12 }
}
