// Where to cut, so that few counts are needed. Nothing is shown of these numbers: a bad one costs a count and no more.
ghost use Rattle.std.specs.Prelude.{◌+◌, ◌≤◌, ◌<◌};

use crate::bisection::{Cuts, Middles, pivot, selected_by};
use crate::{FEW, LIMIT, counting};
use eval_lanes::Lanes;
use eval_whole::{count, larger};

// How many cuts are guessed, a count that is handed on taken for the first. After them the interval is halved, so that no sizes take long.
const CUTS: u64 = 10;

// What is known between counts. So many cuts may still be guessed; `count` is the last count, `under` the last above q and `over` the last
// other: those at the ends of the interval. `guess` was found in tops, where the next is looked for if at most `near` sizes lie between it
// and the upper end.
#[derive(Clone, Copy, Debug, PartialEq, Eq)]
pub struct Trail {
    left: u64,
    guess: Option<u64>,
    near: u64,
    count: Option<u64>,
    under: u64,
    over: Option<u64>,
}

impl Trail {
    // Under a cap that sizes can reach, how many do is the first count, and the first cut is planned like any other.
    pub fn start(cap: u64, reached: u64) -> Trail {
        let (left, count) = if cap < LIMIT {
            (CUTS - 1, Some(reached))
        } else {
            (CUTS, None)
        };
        Trail {
            left,
            guess: None,
            near: 7,
            count,
            under: 0,
            over: count,
        }
    }

    // Between the ends, or beyond the only one that is counted.
    fn between(self, low: u64, high: u64, q: u64) -> u64
        requires { (low < high) × (high ≤ 4503599627370496) }
    {
        if self.left == 0 {
            return pivot(low, high);
        }
        match self.over {
            Some(over) if over <= q => {
                let down = if low == 0 {
                    stride(high, self.left)
                } else {
                    share(high - low, q - over, self.under.saturating_sub(q))
                };
                high.saturating_sub(down)
            }
            _ => low + stride(low, self.left),
        }
    }

    // The next cut. A size that was guessed is tried, then what is just below it: that is all if the guess is right.
    fn planned(&mut self, sizes: &[Lanes], low: u64, high: u64, q: u32) -> u64
        requires { (low < high) × (high ≤ 4503599627370496) }
    {
        let most = u64::from(q);
        if self.left == CUTS {
            return first(sizes, q, high);
        }
        if self.guess == Some(high) {
            return high - 1;
        }
        match self.count {
            Some(count) if count <= most && most - count <= self.near => {
                let guess = below(sizes, high, (most - count) as u32);
                self.guess = Some(guess);
                self.near /= 4;
                guess
            }
            _ => self.between(low, high, most),
        }
    }
}

impl Cuts for Trail {
    fn next(&mut self, sizes: &[Lanes], q: u32, low: u64, high: u64) -> u64 {
        let cut = self.planned(sizes, low, high, q);
        self.left = self.left.saturating_sub(1);
        cut.clamp(low, high - 1)
    }

    fn note(&mut self, count: u64, q: u32) {
        self.count = Some(count);
        if u64::from(q) < count {
            self.under = count;
        } else {
            self.over = Some(count);
        }
    }

    // All are counted, since the next cut goes by how many there are.
    fn enough(&self, _q: u32) -> u32 {
        u32::MAX
    }
}

// x, or 0 if it exceeds a.
fn up_to(a: f64, x: f64) -> f64 {
    if a < x { 0.0 } else { x }
}

// Each becomes the larger of itself and its size, if that does not exceed a.
fn raise(tops: &mut Lanes, sizes: &Lanes, a: f64) {
    for (top, x) in tops.iter_mut().zip(sizes) {
        *top = larger(*top, up_to(a, *x));
    }
}

// In each lane the largest that does not exceed a.
#[tactic(auto, using(eval_whole::proofs::Laws::cast_asks))]
fn tops(sizes: &[Lanes], a: u64) -> Lanes {
    let mark = a.min(LIMIT) as f64;
    let mut found = [0.0; 80];
    for chunk in sizes {
        raise(&mut found, chunk, mark);
    }
    found
}

// x, or 0 if it is not below a.
fn before(a: f64, x: f64) -> f64 {
    if x < a { x } else { 0.0 }
}

// The largest of a chunk that is below a: of every fourth lane apart, which the compiler keeps in two registers that do not wait for each
// other.
fn largest_before(sizes: &Lanes, a: f64) -> f64 {
    let mut first = 0.0;
    let mut second = 0.0;
    let mut third = 0.0;
    let mut fourth = 0.0;
    for four in sizes.as_chunks::<4>().0 {
        first = larger(first, before(a, four[0]));
        second = larger(second, before(a, four[1]));
        third = larger(third, before(a, four[2]));
        fourth = larger(fourth, before(a, four[3]));
    }
    larger(larger(first, second), larger(third, fourth))
}

// The largest of a chunk that at most so many exceed, found from the top down: quick where few are skipped.
#[tactic(auto, using(eval_whole::proofs::Laws::cast_asks))]
fn largest_but(sizes: &Lanes, skipped: u32) -> u64 {
    let mut found = largest_before(sizes, LIMIT as f64);
    for _ in 0..skipped {
        let next = largest_before(sizes, found);
        if u64::from(skipped) < counting::exceeding_in(sizes, next) {
            break;
        }
        found = next;
    }
    count(found)
}

// The size that so many of those up to `high` exceed, as far as the tops tell: two that share a lane count as one, so that of many about
// one in four is not seen.
fn below(sizes: &[Lanes], high: u64, skipped: u32) -> u64 {
    let found = [tops(sizes, high)];
    if skipped < 8 {
        return largest_but(&found[0], skipped);
    }
    selected_by(&found, skipped - skipped / 4, high, &mut Middles)
}

// The first cut: by a sample, or by the tops if few are larger. Fewer chunks never come here: their number is asked for the slice's sake.
fn first(sizes: &[Lanes], q: u32, high: u64) -> u64 {
    if 64 <= q && FEW <= sizes.len() {
        let share = u64::from(q) * 3 / (sizes.len() as u64);
        return selected_by(
            &sizes[..3],
            share.min(u64::from(q)) as u32,
            high,
            &mut Middles,
        );
    }
    below(sizes, high, q)
}

// How far beyond x to cut while all cuts lie on one side: farther each time.
fn stride(x: u64, left: u64) -> u64
    ensures { result ≤ x + 1 }
{
    match left {
        9 => x / 8 + 1,
        8 => x / 4 + 1,
        _ => x / 2 + 1,
    }
}

// How far below the upper end of an interval to cut, if its sizes lie evenly and so many are above what is looked for, and so many below.
fn share(width: u64, above: u64, beneath: u64) -> u64 {
    let part = above.min(2147483647);
    width.min(2147483647) * part / (part + beneath.min(2147483647) + 1)
}
