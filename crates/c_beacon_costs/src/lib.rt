// The cost beacon by beacon for C.
#![tactic(auto)]

ghost use Rattle.std.specs.Prelude.{◌≡◌};
ghost use Rattle.c_boundary.specs.Boundary.{model_of, code_of, value_after};
ghost use Rattle.c_beacon_costs.specs.Calls.{cost_by_beacon_call, sums_after_call};

use c_boundary::{WRONG_LENGTH, model_of, settle};
use c_buffers::vector_of;

// The cost of each group of 19 records into the front of `sums`; the value is the total.
#[tactic(auto, using(c_buffers::proofs::Buffers::vector_from_lem))]
pub fn cost_by_beacon(
    store: &[u8],
    n: u8,
    d: u8,
    scale: u8,
    p: u8,
    eps: u32,
    vector: &[i16],
    sums: &mut [u64],
    value: &mut u64,
) -> u32
    ensures code { result
        ≡ code_of (cost_by_beacon_call store.now (model_of n d scale p eps) vector.now sums.old) }
    ensures value { value.new
        ≡ value_after (cost_by_beacon_call store.now (model_of n d scale p eps) vector.now sums.old)
        value.old }
    ensures sums { sums.new
        ≡ sums_after_call store.now (model_of n d scale p eps) vector.now sums.old }
{
    if vector.len() != 8 {
        return WRONG_LENGTH;
    }
    let m = model_of(n, d, scale, p, eps);
    settle(
        beacon_costs::cost_by_beacon(store, m, vector_of(vector), sums),
        value,
    )
}
