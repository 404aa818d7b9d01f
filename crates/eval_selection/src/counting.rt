// How many of the sizes exceed a number.
ghost use Rattle.std.specs.Prelude.{cond, ◌≡◌, ◌≤◌, ◌<◌};
ghost use Rattle.std.specs.Float.Ieee.{lt};
ghost use Rattle.eval_selection.specs.Selection.{exceeding_in, exceeding_all};

use eval_lanes::Lanes;

// 1 if x exceeds a, else 0.
fn one(a: f64, x: f64) -> u64
    ensures { result ≡ cond (lt a x) 1 0 }
{
    u64::from(a < x)
}

// Of a chunk. No jump leaves the loop, so that the compiler compares them side by side.
#[tactic(auto, using(residuals::proofs::Sums::sum_more), unfolding(crate::specs::Selection::exceeding_in, integers::specs::Sums::sum_of))]
pub fn exceeding_in(sizes: &Lanes, a: f64) -> u64
    ensures value { result ≡ exceeding_in a sizes.now }
    ensures small { result ≤ 80 }
{
    let mut count = 0;
    for x in sizes {
        count += one(a, *x);
    }
    count
}

// Of all chunks; the rest is left out once there are more than `most`, which is looked at once a chunk.
#[tactic(auto, using(residuals::proofs::Sums::sum_more, eval_whole::proofs::Laws::cast_asks), unfolding(integers::specs::Sums::sum_of))]
pub fn exceeding(sizes: &[Lanes], a: u64, most: u32) -> u64
    requires { a ≤ 4503599627370496 }
    ensures upper { result ≤ exceeding_all a sizes.now }
    ensures lower { result < exceeding_all a sizes.now → most < result }
{
    let mark = a as f64;
    let mut count = 0;
    for chunk in sizes {
        count += exceeding_in(chunk, mark);
        if u64::from(most) < count {
            return count;
        }
    }
    count
}
