// Peeling for C.
#![tactic(auto)]

mod laying;

ghost use Rattle.std.specs.Prelude.{◌≡◌};
ghost use Rattle.c_boundary.specs.Boundary.{model_of, code_of, value_after};
ghost use Rattle.c_peel.specs.Calls.{peel_call, vectors_after, numbers_after, labels_after_call};
ghost use Rattle.c_peel.specs.Calls.{TableAfterCall, BoundsAfterCall, PeelingCall};

use crate::laying::lay_all;
use c_boundary::{WRONG_LENGTH, job_of, model_of, refusal_code};

// Peels one line after another. The value is the number of rounds; their vectors and numbers go into their buffers, round after round, and
// those of rounds not run are 0.
pub fn peel(
    store: &[u8],
    n: u8,
    d: u8,
    scale: u8,
    p: u8,
    eps: u32,
    t: u64,
    budget: u32,
    corners: &[i16],
    start: &[i16],
    limit: u8,
    table: &mut [i16],
    bounds: &mut [u64],
    labels: &mut [u8],
    vectors: &mut [i16],
    numbers: &mut [u64],
    value: &mut u64,
) -> u32
    ensures code { result
        ≡ code_of (peel_call store.now (model_of n d scale p eps) t budget corners.now start.now limit
        table.old bounds.old labels.old vectors.old numbers.old) }
    ensures value { value.new
        ≡ value_after (peel_call store.now (model_of n d scale p eps) t budget corners.now start.now limit
        table.old bounds.old labels.old vectors.old numbers.old)
        value.old }
    ensures vectors { vectors.new
        ≡ vectors_after store.now (model_of n d scale p eps) t budget corners.now start.now limit
        table.old bounds.old labels.old vectors.old numbers.old }
    ensures numbers { numbers.new
        ≡ numbers_after store.now (model_of n d scale p eps) t budget corners.now start.now limit
        table.old bounds.old labels.old vectors.old numbers.old }
    ensures labels { labels.new
        ≡ labels_after_call store.now (model_of n d scale p eps) t budget corners.now start.now limit
        table.old bounds.old labels.old vectors.old numbers.old }
    ensures table { TableAfterCall store.now (model_of n d scale p eps) t budget corners.now start.now limit
        table.old bounds.old labels.old vectors.old numbers.old
        table.new }
    ensures bounds { BoundsAfterCall store.now (model_of n d scale p eps) t budget corners.now start.now limit
        table.old bounds.old labels.old vectors.old numbers.old
        bounds.new }
    ensures peeling { result ≡ 0 →
        PeelingCall store.now (model_of n d scale p eps) t budget corners.now start.now limit
        table.old bounds.old labels.old vectors.old numbers.old
        value.new vectors.new numbers.new labels.new }
{
    if corners.len() != 16 || start.len() != 8 || vectors.len() != 32 || numbers.len() != 24 {
        return WRONG_LENGTH;
    }
    let job = job_of(model_of(n, d, scale, p, eps), t, budget, 0, corners, start);
    match peel::peel(store, job, limit, table, bounds, labels) {
        Ok(told) => {
            lay_all(told.answers, vectors, numbers);
            *value = told.rounds as u64;
            0
        }
        Err(why) => refusal_code(why),
    }
}
