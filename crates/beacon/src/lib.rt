// Taking in a beacon: its point records are copied behind the filled part of a lent store.
#![tactic(auto)]

ghost use Rattle.std.specs.Prelude.{◌≡◌, ◌+◌, ◌≤◌, length, OnOk};
ghost use Rattle.beacon.specs.Beacon.{check_take_in, take_in_answer, store_after};

use codes::Refusal;

// Checks 1, 10 and 11, of how many bytes the store has, the fill mark and how many the beacon has. Differences stand for the sum of mark
// and size, which could wrap. One test for each `if`: those joined by `||` are all made, also where the first decides.
#[tactic(auto, unfolding(crate::specs::Beacon::check_take_in, codes::specs::Codes::in_order, crate::specs::Beacon::check_mark, crate::specs::Beacon::check_space, crate::specs::Beacon::check_body))]
fn check_take_in(room: usize, mark: usize, size: usize) -> Result<(), Refusal>
    ensures check { result ≡ check_take_in room mark size }
    ensures room { OnOk result ((mark + size ≤ room) × (mark + size ≤ 49152)) }
{
    points::check_store(size)?;
    if room < mark {
        return Err(Refusal::Length);
    }
    if mark % 12 != 0 {
        return Err(Refusal::Length);
    }
    if room - mark < size {
        return Err(Refusal::Short);
    }
    if 49152 < mark {
        return Err(Refusal::Short);
    }
    if 49152 - mark < size {
        return Err(Refusal::Short);
    }
    if 236 < size {
        return Err(Refusal::Beacon);
    }
    Ok(())
}

// The beacon behind the filled part of the store, from the fill mark on, and the new mark. The store's rest is kept.
#[tactic(auto, using(crate::proofs::Laws::new_mark), unfolding(crate::specs::Beacon::take_in_answer, crate::specs::Beacon::store_after, crate::specs::Beacon::behind))]
pub fn take_in(store: &mut [u8], mark: usize, beacon: &[u8]) -> Result<u64, Refusal>
    ensures outcome { result ≡ take_in_answer (length store.old) mark (length beacon.now) }
    ensures stored { store.new ≡ store_after store.old mark beacon.now }
{
    check_take_in(store.len(), mark, beacon.len())?;
    let next = mark + beacon.len();
    store[mark..next].copy_from_slice(beacon);
    Ok(next as u64)
}
