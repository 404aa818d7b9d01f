// The cost of a vector and the bound of a box, over a store of point records.
#![tactic(auto)]

mod ranking;
mod sums;
mod task;
mod values;

ghost use Rattle.std.specs.Prelude.{◌≡◌, ◌≤◌};
ghost use Rattle.costs.specs.Answers.{cost_answer, bound_answer};
ghost use Rattle.costs.specs.Calls.{cost_up_to, bound_up_to, DecodedFor, cost_in, bound_in};

use crate::task::Task;
use boxes::Box;
use codes::Refusal;
use eval_lanes::Chunk;
use jobs::Model;
use model_checks::{check_bound, check_cost, check_model};

// A cap that no cost and no bound reaches.
pub const NO_CAP: u64 = 18446744073709551615;

// The cost of a vector.
#[tactic(auto, using(crate::proofs::Passed::cost_ready), unfolding(crate::specs::Answers::cost_answer))]
pub fn cost(store: &[u8], m: Model, v: [i16; 8]) -> Result<u64, Refusal>
    ensures { result ≡ cost_answer store.now m v }
{
    check_cost(store, m, v)?;
    let task = Task {
        store,
        model: m,
        low: v,
        high: v,
    };
    Ok(values::whole::<false>(&task))
}

// The bound of a box.
#[tactic(auto, using(crate::proofs::Passed::bound_ready), unfolding(crate::specs::Answers::bound_answer))]
pub fn bound(store: &[u8], m: Model, b: Box) -> Result<u64, Refusal>
    ensures { result ≡ bound_answer store.now m b }
{
    check_bound(store, m, b)?;
    let Box { low, high } = b;
    let task = Task {
        store,
        model: m,
        low,
        high,
    };
    Ok(values::whole::<true>(&task))
}

// For a search, which decodes its store once and asks only whether a vector is cheaper: over lanes, the cost of a vector, or `cap` if that
// is less. The first clause says for any lanes what it gives, the second that of the store's own lanes it is the cost, the third that check
// 9 takes every cost.
#[tactic(auto, using(model_checks::proofs::Passed::ready), unfolding(crate::specs::Calls::cost_in, crate::specs::Calls::cost_up_to))]
pub fn cost_in(store: &[u8], lanes: &[Chunk], m: Model, v: [i16; 8], cap: u64) -> u64
    ensures lanes { result ≡ cost_in store.now lanes.now m v cap }
    ensures store { DecodedFor store.now m lanes.now → result ≡ cost_up_to store.now m v cap }
    ensures limit { DecodedFor store.now m lanes.now → result ≤ 1152921367167897600 }
{
    match check_model(store, m) {
        Ok(()) => {
            let task = Task {
                store,
                model: m,
                low: v,
                high: v,
            };
            values::up_to::<false>(&task, lanes, cap)
        }
        Err(_) => 0,
    }
}

// The bound of a box, or `cap` if that is less.
#[tactic(auto, using(model_checks::proofs::Passed::ready), unfolding(crate::specs::Calls::bound_in, crate::specs::Calls::bound_up_to))]
pub fn bound_in(store: &[u8], lanes: &[Chunk], m: Model, b: Box, cap: u64) -> u64
    ensures lanes { result ≡ bound_in store.now lanes.now m b cap }
    ensures store { DecodedFor store.now m lanes.now → result ≡ bound_up_to store.now m b cap }
{
    match check_model(store, m) {
        Ok(()) => {
            let Box { low, high } = b;
            let task = Task {
                store,
                model: m,
                low,
                high,
            };
            values::up_to::<true>(&task, lanes, cap)
        }
        Err(_) => 0,
    }
}
