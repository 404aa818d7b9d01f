// The ends of a residual over a box, and its least size.
#![tactic(auto)]

ghost use Rattle.std.specs.Prelude.{◌≡◌, min};
ghost use Rattle.std.specs.Float.{binary64};
ghost use Rattle.std.specs.Float.Ieee.{add, sub, mul};
ghost use Rattle.eval_whole.specs.Whole.{larger_of, smaller_of};
ghost use Rattle.eval_lanes.specs.Lanes.{lane};
ghost use Rattle.eval_box_ends.specs.Ends.{least_end, opposite_end, nearest};

use eval_whole::{larger, smaller};

// A line's coordinates over a box: each goes from its low to its high.
#[derive(Clone, Copy)]
pub struct Span {
    pub low: [f64; 4],
    pub high: [f64; 4],
}

// emin and −emax, by which the least size takes no change of sign.
#[derive(Clone, Copy)]
pub struct Ends {
    pub least: f64,
    pub opposite: f64,
}

impl Ends {
    // One coordinate more.
    fn narrowed(self, low: f64, high: f64, x: f64) -> Ends
        ensures least { result.least ≡ sub binary64 self.least (larger_of (mul binary64 low x) (mul binary64 high x)) }
        ensures opposite { result.opposite ≡ add binary64 self.opposite (smaller_of (mul binary64 low x) (mul binary64 high x)) }
    {
        Ends {
            least: self.least - larger(low * x, high * x),
            opposite: self.opposite + smaller(low * x, high * x),
        }
    }

    // The least size.
    pub fn size(self) -> f64
        ensures { result ≡ nearest self.least self.opposite }
    {
        larger(0.0, larger(self.least, self.opposite))
    }
}

impl Span {
    // The ends of y less the first D products. D is known as this is compiled, so no test is left.
    #[tactic(auto, using(crate::proofs::Products::less_one_more, crate::proofs::Products::and_one_more), unfolding(eval_lanes::specs::Lanes::lessened, crate::specs::Ends::opposite_end))]
    pub fn ends<const D: usize>(self, y: f64, x: [f64; 4]) -> Ends
        ensures least { result.least ≡ least_end (lane self.low) (lane self.high) (lane x) y (min D 4) }
        ensures opposite { result.opposite ≡ opposite_end (lane self.low) (lane self.high) (lane x) y (min D 4) }
    {
        let mut e = Ends {
            least: y,
            opposite: -y,
        };
        // The first D places of three arrays: a zip of them is no plainer.
        for c in 0..D.min(4) {
            e = e.narrowed(self.low[c], self.high[c], x[c]);
        }
        e
    }
}
