// A pass through the windows of a store, for C.
#![tactic(auto)]

ghost use Rattle.std.specs.Prelude.{◌≡◌};
ghost use Rattle.sharing.specs.Sharing.{SharedTable, SharedBounds};
ghost use Rattle.c_boundary.specs.Boundary.{model_of, code_of, value_after};
ghost use Rattle.c_windows.specs.Calls.{windows_call, searches_of_call, out_after_call, CertifiedWindows};

use c_boundary::{WRONG_LENGTH, job_of, model_of, settle};

// Searches each window of k records, h records apart, with the rows of a lent table and a lent list of bounds, each from the vector found
// before it. An answer record for each goes into the front of the output; the value is their number.
pub fn windows(
    store: &[u8],
    n: u8,
    d: u8,
    scale: u8,
    p: u8,
    eps: u32,
    t: u64,
    budget: u32,
    corners: &[i16],
    start: &[i16],
    k: usize,
    h: usize,
    table: &mut [i16],
    bounds: &mut [u64],
    out: &mut [u8],
    value: &mut u64,
) -> u32
    ensures code { result
        ≡ code_of (windows_call store.now (model_of n d scale p eps) t budget corners.now start.now k h
        table.old bounds.old out.old) }
    ensures value { value.new
        ≡ value_after (windows_call store.now (model_of n d scale p eps) t budget corners.now start.now k h
        table.old bounds.old out.old) value.old }
    ensures output { out.new
        ≡ out_after_call store.now (model_of n d scale p eps) t budget corners.now start.now k h
        table.old bounds.old out.old }
    ensures table { SharedTable
        (searches_of_call store.now (model_of n d scale p eps) t budget corners.now start.now k h
        table.old bounds.old out.old) table.old table.new }
    ensures bounds { SharedBounds
        (searches_of_call store.now (model_of n d scale p eps) t budget corners.now start.now k h
        table.old bounds.old out.old) bounds.old bounds.new }
    ensures certificate { result ≡ 0 →
        CertifiedWindows store.now (model_of n d scale p eps) t budget corners.now start.now k h
        table.old bounds.old out.old value.new out.new }
{
    if corners.len() != 16 || start.len() != 8 {
        return WRONG_LENGTH;
    }
    let job = job_of(model_of(n, d, scale, p, eps), t, budget, 0, corners, start);
    settle(
        windows::windows(store, job, k, h, table, bounds, out),
        value,
    )
}
