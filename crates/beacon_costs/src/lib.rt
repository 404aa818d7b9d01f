// "Cost shown beacon by beacon": the cost of a vector by groups of 19 records, as a full beacon holds, and then of all groups.
#![tactic(auto)]

ghost use Rattle.std.specs.Prelude.{◌≡◌, ◌+◌, ◌/◌, ◌%◌, ◌^◌, ◌≤◌, ◌<◌, leb, length};
ghost use Rattle.codes.specs.declared.Refusal.TheVariants.{Short};
ghost use Rattle.codes.specs.Codes.{pass_if};
ghost use Rattle.integers.specs.Lists.{over};
ghost use Rattle.points.specs.Points.{points_of};
ghost use Rattle.residuals.specs.Inside.{Ready};
ghost use Rattle.beacon_costs.specs.BeaconCosts.{groups, partial_sums, total, check_by_beacon, cost_by_beacon, sums_after};
ghost use Rattle.beacon_costs.specs.Inside.{ChunkSums};

use codes::Refusal;
use eval_kernel::Coordinates;
use eval_lanes::{Chunk, chunk_of};
use jobs::Model;

// How many groups the records of a store make.
fn group_count(bytes: usize) -> usize
    ensures { result ≡ (bytes / 12 + 18) / 19 }
{
    (bytes / 12 + 18) / 19
}

// The sums of the four groups of a chunk, of which g is one: they are found where g is the first, and are else those from before.
#[tactic(auto, using(crate::proofs::Chunks::chunk_sums))]
fn chunk_sums(
    chunk: &mut Chunk,
    store: &[u8],
    m: Model,
    w: &Coordinates,
    power: u16,
    g: usize,
    before: [u64; 4],
) -> [u64; 4]
    requires ready { Ready (length store.now) m × (power ≡ 2 ^ m.scale) × (g < 1024) × (m.p ≤ 2) }
    requires chunk_sums { 1 ≤ g % 4 → ChunkSums m store.now w.now (g / 4) before }
    ensures { ChunkSums m store.now w.now (g / 4) result }
{
    if 0 < g % 4 {
        return before;
    }
    eval_columns::decode_chunk(chunk, store, (g / 4) as u8, m.d, power);
    eval_kernel::group_losses::<false>(chunk, w, w, m)
}

// The sums into the front of the list, and their total.
fn write_sums(store: &[u8], m: Model, v: [i16; 8], sums: &mut [u64]) -> u64
    requires { Ready (length store.now) m × (groups (points_of store.now) ≤ length sums.old) × (m.p ≤ 2) }
    ensures total { result ≡ total m (points_of store.now) v }
    ensures sums { sums.new
        ≡ over (partial_sums m (points_of store.now) v (groups (points_of store.now))) sums.old }
{
    let power = scale::power(m.scale);
    let w = eval_kernel::coordinates(v);
    // Not 0, so that the compiler lays the chunk at a multiple of 16 bytes.
    let mut chunk = chunk_of(1.0);
    let mut four: [u64; 4] = [0; 4];
    let count = group_count(store.len());
    let mut total = 0;
    for g in 0..count {
        four = chunk_sums(&mut chunk, store, m, &w, power, g, four);
        let sum = four[g % 4];
        sums[g] = sum;
        total += sum;
    }
    total
}

// Check 10: an entry for each group.
fn check_room(bytes: usize, entries: usize) -> Result<(), Refusal>
    ensures { result ≡ pass_if (leb ((bytes / 12 + 18) / 19) entries) Short }
{
    if group_count(bytes) <= entries {
        Ok(())
    } else {
        Err(Refusal::Short)
    }
}

// The checks of a call with a threshold, and then check 10.
#[tactic(auto, using(crate::proofs::Writing::group_number), unfolding(crate::specs::BeaconCosts::check_by_beacon, codes::specs::Codes::in_order))]
fn check_by_beacon(store: &[u8], m: Model, v: [i16; 8], entries: usize) -> Result<(), Refusal>
    ensures { result ≡ check_by_beacon store.now m v entries }
{
    model_checks::check_threshold(store, m, v)?;
    check_room(store.len(), entries)
}

// The cost of each group into the front of a lent list; the answer is the total. Nothing is written before all checks have passed.
#[tactic(auto, using(crate::proofs::Passed::all_ready, crate::proofs::Passed::picked, crate::proofs::Passed::room), unfolding(crate::specs::BeaconCosts::cost_by_beacon, crate::specs::BeaconCosts::sums_after))]
pub fn cost_by_beacon(store: &[u8], m: Model, v: [i16; 8], sums: &mut [u64]) -> Result<u64, Refusal>
    ensures answer { result ≡ cost_by_beacon store.now m v sums.old }
    ensures sums { sums.new ≡ sums_after store.now m v sums.old }
{
    check_by_beacon(store, m, v, sums.len())?;
    Ok(write_sums(store, m, v, sums))
}
