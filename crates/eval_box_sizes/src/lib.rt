// Least sizes over a box of the residuals of a chunk's points, for one line.
#![tactic(auto)]

ghost use Rattle.std.specs.Prelude.{◌≤◌};
ghost use Rattle.eval_lanes.specs.Lanes.{taken, Lessened};
ghost use Rattle.eval_box_ends.specs.Ends.{over_line};

use eval_box_ends::Span;
use eval_lanes::{Chunk, Lanes};
use eval_whole::smaller;

// Each lane becomes the smaller of itself and the least size of its point, for a line of D
// coordinates. D is known as this is compiled, so that each D has a loop of its own.
#[tactic(auto, using(eval_lanes::proofs::Filling::none_filled, eval_lanes::proofs::Filling::all_filled))]
fn lessen<const D: usize>(least: &mut Lanes, s: &Chunk, over: Span)
    requires { D ≤ 4 }
    ensures { Lessened least.old least.new (over_line s.now over D) }
{
    for (i, m) in least.iter_mut().enumerate() {
        let x = [s[0][i], s[1][i], s[2][i], s[3][i]];
        *m = smaller(*m, over.ends::<D>(s[4][i], x).size());
    }
}

// For a line of d coordinates, of which one at least and four at most are used.
pub fn over_line(least: &mut Lanes, s: &Chunk, d: usize, over: Span)
    ensures { Lessened least.old least.new (over_line s.now over (taken d)) }
{
    match d {
        0..=1 => lessen::<1>(least, s, over),
        2 => lessen::<2>(least, s, over),
        3 => lessen::<3>(least, s, over),
        _ => lessen::<4>(least, s, over),
    }
}
