// A cost and a bound over a store that was decoded once, for bench/.
#![tactic(auto)]

ghost use Rattle.std.specs.Prelude.{◌≡◌, ◌^◌, ◌%◌};
ghost use Rattle.eval_columns.specs.Columns.{DecodedInto};
ghost use Rattle.costs.specs.Calls.{cost_in, bound_in};
ghost use Rattle.list_rows.specs.Rows.{row_at};
ghost use Rattle.c_boundary.specs.Boundary.{model_of};

use eval_lanes::Chunk;

// Decodes a store, as a search does at its beginning.
#[unsafe(no_mangle)]
pub extern "C" fn bench_decode(lanes: &mut [Chunk], store: &[u8], d: u8, scale: u8)
    ensures { DecodedInto store.now d (2 ^ (scale % 16)) lanes.old lanes.new }
{
    eval_stores::decode(lanes, store, d, scale::power(scale))
}

// The cost of the low vector of a box, up to a cap.
#[unsafe(no_mangle)]
pub extern "C" fn bench_cost_in(
    store: &[u8],
    lanes: &[Chunk],
    n: u8,
    d: u8,
    scale: u8,
    p: u8,
    eps: u32,
    corners: &[i16],
    cap: u64,
) -> u64
    ensures { result
        ≡ cost_in store.now lanes.now (model_of n d scale p eps) (row_at corners.now 0).low cap }
{
    let m = c_boundary::model_of(n, d, scale, p, eps);
    let b = list_rows::read_row(corners, 0);
    let low = b.low;
    costs::cost_in(store, lanes, m, low, cap)
}

// The bound of a box, up to a cap.
#[unsafe(no_mangle)]
pub extern "C" fn bench_bound_in(
    store: &[u8],
    lanes: &[Chunk],
    n: u8,
    d: u8,
    scale: u8,
    p: u8,
    eps: u32,
    corners: &[i16],
    cap: u64,
) -> u64
    ensures { result
        ≡ bound_in store.now lanes.now (model_of n d scale p eps) (row_at corners.now 0) cap }
{
    let m = c_boundary::model_of(n, d, scale, p, eps);
    costs::bound_in(store, lanes, m, list_rows::read_row(corners, 0), cap)
}
