// The (q + 1)-th largest of the points' least sizes, kept for all points.
ghost use Rattle.std.specs.Prelude.{◌≡◌, false, [], ℕ, ◌-◌, ◌≤◌, ◌<◌, min, pos, length, get_or};
ghost use Rattle.std.specs.Float.{binary64};
ghost use Rattle.std.specs.Float.Ieee.{of_int};
ghost use Rattle.points.specs.Points.{points_of};
ghost use Rattle.ranks.specs.Largest.{nth_largest};
ghost use Rattle.eval_lanes.specs.Lanes.{lane};
ghost use Rattle.eval_kernel.specs.Kernel.{doubles, Doubles, no_sizes, chunk_size};
ghost use Rattle.eval_selection.specs.Selection.{exceeding_in, selected};
ghost use Rattle.costs.specs.Calls.{exceeding_by};
ghost use Rattle.costs.specs.Inside.{least_sizes, RankIn};

use crate::NO_CAP;
use crate::task::Task;
use eval_kernel::{Coordinates, NO_SIZE, coordinates, no_size};
use eval_lanes::{Chunk, Lanes, chunk_of};
use eval_selection::LIMIT;
use jobs::Model;

// What is asked of each chunk: the sizes under the vector `from`, or over the box from `from` to `to`.
#[derive(Clone, Copy)]
struct Asked {
    model: Model,
    from: Coordinates,
    to: Coordinates,
}

impl Asked {
    // By a task: its coordinates in double precision, found once for each evaluation.
    fn by(task: &Task) -> Asked
        ensures same { result.model ≡ task.now.model }
        ensures from { (result.from ≡ doubles task.now.low) × Doubles task.now.low result.from }
        ensures to { (result.to ≡ doubles task.now.high) × Doubles task.now.high result.to }
    {
        Asked {
            model: task.model,
            from: coordinates(task.low),
            to: coordinates(task.high),
        }
    }
}

// The least sizes of a chunk's points, found in lanes that hold a number that no size reaches: they are filled with it, or are already. To
// fill lanes twice took an evaluation of 256 points a tenth of its time more.
fn chunk_sizes<const OVER: bool>(sizes: &mut Lanes, s: &Chunk, asked: &Asked, fill: bool)
    requires { fill ≡ false → sizes.old ≡ no_sizes }
    ensures { (k : ℕ) → k < 80 → lane sizes.new k
        ≡ chunk_size OVER s.now asked.now.from asked.now.to asked.now.model k }
{
    if fill {
        *sizes = [no_size(); 80];
    }
    eval_kernel::lessen_all::<OVER>(
        sizes,
        s,
        &asked.from,
        &asked.to,
        asked.model.n,
        asked.model.d,
    );
}

// How many of a chunk reach a cap; none is looked at if no size reaches it.
fn reaching(sizes: &Lanes, cap: u64) -> u64
    ensures few { result ≤ exceeding_in (of_int binary64 (pos (min cap 4503599627370496 - 1))) sizes.now }
    ensures small { result ≤ 80 }
{
    if NO_SIZE <= cap {
        return 0;
    }
    eval_selection::reaching(sizes, cap)
}

// Of the sizes in all chunks, up to a cap: no more are made once more than q reach it.
fn kept_rank<const OVER: bool>(
    sizes: &mut [Lanes],
    fill: bool,
    lanes: &[Chunk],
    asked: &Asked,
    cap: u64,
) -> u64
    requires { (length lanes.now ≤ length sizes.old) × (length lanes.now ≤ 54)
        × (fill ≡ false → (i : ℕ) → i < length lanes.now → get_or sizes.old i [] ≡ no_sizes) }
    ensures { result ≡ selected (exceeding_by OVER lanes.now asked.now.from asked.now.to asked.now.model
        (length lanes.now)) asked.now.model.eps (min cap 4503599627370496) }
{
    let q = asked.model.eps;
    let mut reached: u64 = 0;
    // By places: of a zip over `iter_mut` a proof does not know what is written already.
    for t in 0..lanes.len() {
        chunk_sizes::<OVER>(&mut sizes[t], &lanes[t], asked, fill);
        reached += reaching(&sizes[t], cap);
        if (q as u64) < reached {
            return cap.min(LIMIT);
        }
    }
    eval_selection::nth_largest(&sizes[..lanes.len()], q, cap, reached)
}

// Of at most N chunks: the array is filled at each call, whatever is used of it. Not in its caller, whose stack few chunks and every sum
// would then take.
#[inline(never)]
fn filled_rank<const OVER: bool, const N: usize>(lanes: &[Chunk], asked: &Asked, cap: u64) -> u64
    requires { (length lanes.now ≤ N) × (N ≤ 54) }
    ensures { result ≡ selected (exceeding_by OVER lanes.now asked.now.from asked.now.to asked.now.model
        (length lanes.now)) asked.now.model.eps (min cap 4503599627370496) }
{
    let none: Lanes = [no_size(); 80];
    let mut sizes: [Lanes; N] = [none; N];
    kept_rank::<OVER>(&mut sizes, false, lanes, asked, cap)
}

// Of any number. The array is set to zeros, and a chunk filled when its turn comes: none behind the one where the cap is reached.
#[inline(never)]
fn long_rank<const OVER: bool>(lanes: &[Chunk], asked: &Asked, cap: u64) -> u64
    requires { length lanes.now ≤ 54 }
    ensures { result ≡ selected (exceeding_by OVER lanes.now asked.now.from asked.now.to asked.now.model
        (length lanes.now)) asked.now.model.eps (min cap 4503599627370496) }
{
    let zeros: Lanes = [0.0; 80];
    let mut sizes: [Lanes; 54] = [zeros; 54];
    kept_rank::<OVER>(&mut sizes, true, lanes, asked, cap)
}

// By how many chunks there are, each number with an array that fits it.
fn some_rank<const OVER: bool>(lanes: &[Chunk], asked: &Asked, cap: u64) -> u64
    requires { length lanes.now ≤ 54 }
    ensures { result ≡ selected (exceeding_by OVER lanes.now asked.now.from asked.now.to asked.now.model
        (length lanes.now)) asked.now.model.eps (min cap 4503599627370496) }
{
    match lanes.len() {
        0..=4 => filled_rank::<OVER, 4>(lanes, asked, cap),
        5..=8 => filled_rank::<OVER, 8>(lanes, asked, cap),
        _ => long_rank::<OVER>(lanes, asked, cap),
    }
}

// Over the lanes of a store that was decoded before.
pub fn lanes_rank<const OVER: bool>(task: &Task, lanes: &[Chunk], cap: u64) -> u64
    ensures { RankIn OVER task.now.store.now lanes.now task.now.model task.now.low task.now.high cap result }
{
    let count = eval_columns::chunk_count(task.store.len(), lanes.len());
    some_rank::<OVER>(&lanes[..count], &Asked::by(task), cap)
}

// Of the whole store, each chunk decoded into one that is used again.
#[inline(never)]
pub fn rank<const OVER: bool>(task: &Task) -> u64
    ensures { result ≡ nth_largest task.now.model.eps (least_sizes OVER task.now.model task.now.low task.now.high (points_of task.now.store.now)) }
{
    let m = task.model;
    let power = scale::power(m.scale);
    let asked = Asked::by(task);
    // Not 0, so that the compiler lays the chunk at a multiple of 16 bytes.
    let mut chunk = chunk_of(1.0);
    let zeros: Lanes = [0.0; 80];
    let mut sizes: [Lanes; 54] = [zeros; 54];
    let count = eval_columns::chunk_count(task.store.len(), 54);
    for t in 0..count {
        eval_columns::decode_chunk(&mut chunk, task.store, t as u8, m.d, power);
        chunk_sizes::<OVER>(&mut sizes[t], &chunk, &asked, true);
    }
    eval_selection::nth_largest(&sizes[..count], m.eps, NO_CAP, 0)
}
