// The sums of losses over both halves of a box, which have every line in common but the one that is cut: the sizes of the others are found
// once.
#![tactic(auto)]

ghost use Rattle.std.specs.Prelude.{◌≡◌, ℕ, ◌<◌};
ghost use Rattle.residuals.specs.Inside.{box_of};
ghost use Rattle.eval_lanes.specs.Lanes.{lane};
ghost use Rattle.eval_halves.specs.Halves.{least_but, half_loss, HalfSum};

use boxes::Box;
use eval_kernel::{Coordinates, lessen_line};
use eval_lanes::{Chunk, Lanes};
use jobs::Model;

// The sum of losses over each half.
#[derive(Clone, Copy, Debug, PartialEq, Eq)]
pub struct Sums {
    pub left: u64,
    pub right: u64,
}

// Each lane becomes the least of itself and the sizes of its point over the box, of all n lines but line c.
fn lessen_others(
    sizes: &mut Lanes,
    s: &Chunk,
    low: &Coordinates,
    high: &Coordinates,
    n: u8,
    d: u8,
    c: u8,
)
    ensures { (k : ℕ) → k < 80 → lane sizes.new k
        ≡ least_but s.now low.now high.now d c (lane sizes.old k) n k }
{
    for j in 0..n {
        if j != c {
            lessen_line::<true>(sizes, s, low, high, j, d);
        }
    }
}

// The losses of a chunk's points over both halves of the box from `low` to `high`: line c of the left half goes from `low` to `middle`,
// that of the right half from `next` to `high`. They are lent side by side: structs would copy them.
fn chunk_losses(
    s: &Chunk,
    low: &Coordinates,
    middle: &Coordinates,
    next: &Coordinates,
    high: &Coordinates,
    m: Model,
    c: u8,
) -> Sums
    ensures left { result.left
        ≡ half_loss s.now low.now high.now low.now middle.now m c }
    ensures right { result.right
        ≡ half_loss s.now low.now high.now next.now high.now m c }
    ensures small { (result.left < 36028797018963968) × (result.right < 36028797018963968) }
{
    let mut left: Lanes = [eval_kernel::no_size(); 80];
    lessen_others(&mut left, s, low, high, m.n, m.d, c);
    let mut right = left;
    lessen_line::<true>(&mut left, s, low, middle, c, m.d);
    lessen_line::<true>(&mut right, s, next, high, c, m.d);
    Sums {
        left: eval_losses::total(&mut left, m.p, m.eps),
        right: eval_losses::total(&mut right, m.p, m.eps),
    }
}

// The same of all chunks of a store that was decoded before, each half's up to a cap; it is looked at once a chunk, and the loop ends where
// both have reached it. The box goes from the left half's low vector to the right half's high vector, and c is the line that is cut.
pub fn sums_up_to(
    store: &[u8],
    lanes: &[Chunk],
    m: Model,
    left: Box,
    right: Box,
    c: u8,
    cap: u64,
) -> Sums
    ensures left { HalfSum store.now lanes.now m (box_of left.low right.high) left c cap result.left }
    ensures right { HalfSum store.now lanes.now m (box_of left.low right.high) right c cap result.right }
{
    let low = eval_kernel::coordinates(left.low);
    let middle = eval_kernel::coordinates(left.high);
    let next = eval_kernel::coordinates(right.low);
    let high = eval_kernel::coordinates(right.high);
    let count = eval_columns::chunk_count(store.len(), lanes.len());
    let mut left_sum: u64 = 0;
    let mut right_sum: u64 = 0;
    for chunk in &lanes[..count] {
        if cap <= left_sum && cap <= right_sum {
            return Sums {
                left: cap,
                right: cap,
            };
        }
        let more = chunk_losses(chunk, &low, &middle, &next, &high, m, c);
        left_sum += more.left;
        right_sum += more.right;
    }
    Sums {
        left: left_sum.min(cap),
        right: right_sum.min(cap),
    }
}
