// Labels for C.
#![tactic(auto)]

ghost use Rattle.std.specs.Prelude.{◌≡◌};
ghost use Rattle.c_boundary.specs.Boundary.{model_of, code_of, value_after};
ghost use Rattle.c_labels.specs.Calls.{labels_call, labels_after};

use c_boundary::{WRONG_LENGTH, model_of, settle};
use c_buffers::vector_of;

// One label a point into the front of `labels`; the value is their number.
#[tactic(auto, using(c_buffers::proofs::Buffers::vector_from_lem))]
pub fn labels(
    store: &[u8],
    n: u8,
    d: u8,
    scale: u8,
    p: u8,
    eps: u32,
    vector: &[i16],
    labels: &mut [u8],
    value: &mut u64,
) -> u32
    ensures code { result
        ≡ code_of (labels_call store.now (model_of n d scale p eps) vector.now labels.old) }
    ensures value { value.new
        ≡ value_after (labels_call store.now (model_of n d scale p eps) vector.now labels.old)
        value.old }
    ensures labels { labels.new
        ≡ labels_after store.now (model_of n d scale p eps) vector.now labels.old }
{
    if vector.len() != 8 {
        return WRONG_LENGTH;
    }
    let m = model_of(n, d, scale, p, eps);
    settle(labels::labels(store, m, vector_of(vector), labels), value)
}
