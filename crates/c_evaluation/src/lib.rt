// Losses, costs and bounds for C.
#![tactic(auto)]

ghost use Rattle.std.specs.Prelude.{◌≡◌};
ghost use Rattle.c_boundary.specs.Boundary.{model_of, code_of, value_after};
ghost use Rattle.c_evaluation.specs.Calls.{loss_call, cost_call, bound_call};

use c_boundary::{WRONG_LENGTH, model_of, settle};
use c_buffers::vector_of;

// The loss of a residual e.
pub fn loss(p: u8, eps: u32, e: i64, value: &mut u64) -> u32
    ensures code { result ≡ code_of (loss_call p eps e) }
    ensures value { value.new ≡ value_after (loss_call p eps e) value.old }
{
    settle(loss::loss(p, eps, e), value)
}

// The cost of a vector.
pub fn cost(
    store: &[u8],
    n: u8,
    d: u8,
    scale: u8,
    p: u8,
    eps: u32,
    vector: &[i16],
    value: &mut u64,
) -> u32
    ensures code { result ≡ code_of (cost_call store.now (model_of n d scale p eps) vector.now) }
    ensures value { value.new
        ≡ value_after (cost_call store.now (model_of n d scale p eps) vector.now) value.old }
{
    if vector.len() != 8 {
        return WRONG_LENGTH;
    }
    settle(
        costs::cost(store, model_of(n, d, scale, p, eps), vector_of(vector)),
        value,
    )
}

// The bound of a box.
pub fn bound(
    store: &[u8],
    n: u8,
    d: u8,
    scale: u8,
    p: u8,
    eps: u32,
    corners: &[i16],
    value: &mut u64,
) -> u32
    ensures code { result ≡ code_of (bound_call store.now (model_of n d scale p eps) corners.now) }
    ensures value { value.new
        ≡ value_after (bound_call store.now (model_of n d scale p eps) corners.now) value.old }
{
    if corners.len() != 16 {
        return WRONG_LENGTH;
    }
    settle(
        costs::bound(
            store,
            model_of(n, d, scale, p, eps),
            list_rows::read_row(corners, 0),
        ),
        value,
    )
}
