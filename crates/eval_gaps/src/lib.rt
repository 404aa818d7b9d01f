// Gaps among the points of a chunk, told by y: whether there is none, as y is scaled, and their numbers made 0.
#![tactic(auto)]

ghost use Rattle.std.specs.Prelude.{cond, ◌≡◌, ℕ, ◌<◌};
ghost use Rattle.std.specs.Float.{binary64};
ghost use Rattle.std.specs.Float.Ieee.{lt, mul};
ghost use Rattle.eval_whole.specs.Whole.{zeroth};
ghost use Rattle.eval_lanes.specs.Lanes.{lane};
ghost use Rattle.eval_gaps.specs.Gaps.{all_above};

use eval_lanes::Lanes;

// Each number times a factor, and whether all of them lay above a mark, with no jump out of the loop.
#[tactic(auto, using(crate::proofs::Above::none_above))]
pub fn scale_above(ys: &mut Lanes, mark: f64, by: f64) -> bool
    ensures above { result ≡ all_above mark ys.old 80 }
    ensures scaled { (k : ℕ) → k < 80 → lane ys.new k ≡ mul binary64 (lane ys.old k) by }
{
    let mut above = true;
    for y in ys.iter_mut() {
        above &= mark < *y;
        *y *= by;
    }
    above
}

// A number where y lies above the mark, else 0.
fn kept(x: f64, y: f64, mark: f64) -> f64
    ensures { result ≡ cond (lt mark y) x zeroth }
{
    if mark < y { x } else { 0.0 }
}

// Zeros in the slots whose y does not lie above the mark.
pub fn keep_above(out: &mut Lanes, ys: &Lanes, mark: f64)
    ensures { (k : ℕ)
        → k < 80
        → lane out.new k ≡ cond (lt mark (lane ys.now k)) (lane out.old k) zeroth }
{
    for (k, x) in out.iter_mut().enumerate() {
        *x = kept(*x, ys[k], mark);
    }
}
