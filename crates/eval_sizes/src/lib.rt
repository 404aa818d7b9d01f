// Sizes of the residuals of a chunk's points, for one line.
#![tactic(auto)]

ghost use Rattle.std.specs.Prelude.{◌≡◌, ◌≤◌, ◌<◌};
ghost use Rattle.eval_lanes.specs.Lanes.{lane, taken, Lessened};
ghost use Rattle.eval_sizes.specs.Sizes.{size_in};

use eval_lanes::{Chunk, Lanes};
use eval_whole::{larger, smaller};

// |e| of point i, for a line of D coordinates.
#[tactic(auto, using(crate::proofs::Lines::one_more), unfolding(eval_lanes::specs::Lanes::lessened))]
fn size<const D: usize>(s: &Chunk, i: usize, w: [f64; 4]) -> f64
    requires { (D ≤ 4) × (i < 80) }
    ensures { result ≡ size_in s.now (lane w) D i }
{
    let mut e = s[4][i];
    // The first D places of three arrays: a zip of them is no plainer.
    for c in 0..D {
        e = e - w[c] * s[c][i];
    }
    larger(e, -e)
}

// Each lane becomes the smaller of itself and the size of its point. D is known as this is
// compiled, so that each D has a loop of its own, with e in a register.
#[tactic(auto, using(eval_lanes::proofs::Filling::none_filled, eval_lanes::proofs::Filling::all_filled))]
fn lessen<const D: usize>(least: &mut Lanes, s: &Chunk, w: [f64; 4])
    requires { D ≤ 4 }
    ensures { Lessened least.old least.new (size_in s.now (lane w) D) }
{
    for (i, m) in least.iter_mut().enumerate() {
        *m = smaller(*m, size::<D>(s, i, w));
    }
}

// For a line of d coordinates, of which one at least and four at most are used.
pub fn at_line(least: &mut Lanes, s: &Chunk, d: usize, w: [f64; 4])
    ensures { Lessened least.old least.new (size_in s.now (lane w) (taken d)) }
{
    match d {
        0..=1 => lessen::<1>(least, s, w),
        2 => lessen::<2>(least, s, w),
        3 => lessen::<3>(least, s, w),
        _ => lessen::<4>(least, s, w),
    }
}
