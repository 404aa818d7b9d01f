// The (q + 1)-th largest of sizes in double precision, by counts of how many exceed a number.
#![tactic(auto)]

mod bisection;
mod counting;
mod guesses;

ghost use Rattle.std.specs.Prelude.{◌≡◌, ◌-◌, ◌≤◌, min, pos};
ghost use Rattle.std.specs.Float.{binary64};
ghost use Rattle.std.specs.Float.Ieee.{of_int};
ghost use Rattle.eval_selection.specs.Selection.{exceeding_in, exceeding_all, selected};

use bisection::{Middles, selected_by};
use eval_lanes::Lanes;
use guesses::Trail;

// Every size lies below: 2^52.
pub const LIMIT: u64 = 4503599627370496;
// With fewer chunks a first look at them takes longer than it saves.
const FEW: usize = 16;

// The least number that at most q of the sizes exceed, or `cap` if that is less. How many reach the cap tells where to cut first, and
// decides nothing: the result is the same whatever is said.
pub fn nth_largest(sizes: &[Lanes], q: u32, cap: u64, reached: u64) -> u64
    ensures { result ≡ selected (λ a. exceeding_all a sizes.now) q (min cap 4503599627370496) }
{
    if sizes.len() < FEW && LIMIT <= cap {
        return selected_by(sizes, q, cap, &mut Middles);
    }
    selected_by(sizes, q, cap, &mut Trail::start(cap, reached))
}

// What a size that reaches the cap exceeds.
fn under(cap: u64) -> u64
    ensures { result ≡ min cap 4503599627370496 - 1 }
{
    cap.min(LIMIT).saturating_sub(1)
}

// How many of a chunk reach a cap. Where more than q do, `nth_largest` gives the cap, whatever the chunks behind hold.
#[tactic(auto, using(eval_whole::proofs::Laws::cast_asks))]
pub fn reaching(sizes: &Lanes, cap: u64) -> u64
    ensures value { result ≡ exceeding_in (of_int binary64 (pos (min cap 4503599627370496 - 1))) sizes.now }
    ensures small { result ≤ 80 }
{
    counting::exceeding_in(sizes, under(cap) as f64)
}
