// The numbers that may be selected are cut until one is left: the counts alone decide.
ghost use Rattle.std.specs.Prelude.{◌≡◌, ◌≤◌, ◌<◌, min};
ghost use Rattle.eval_selection.specs.Selection.{exceeding_all, selected};

use crate::{LIMIT, counting};
use eval_lanes::Lanes;

// Where to cut.
pub trait Cuts {
    // The number of the next cut, from `low` to below `high`, where at most q sizes may exceed it.
    fn next(&mut self, sizes: &[Lanes], q: u32, low: u64, high: u64) -> u64
        requires { (low < high) × (high ≤ 4503599627370496) }
        ensures { (low ≤ result) × (result < high) };

    // How many exceed it.
    fn note(&mut self, count: u64, q: u32);

    // No more are counted than one above this.
    fn enough(&self, q: u32) -> u32
        ensures { q ≤ result };
}

// The least number that at most q of the sizes exceed, or `cap` if that is less.
pub fn selected_by<C: Cuts>(sizes: &[Lanes], q: u32, cap: u64, cuts: &mut C) -> u64
    ensures { result ≡ selected (λ a. exceeding_all a sizes.now) q (min cap 4503599627370496) }
{
    let mut low = 0;
    let mut high = cap.min(LIMIT);
    // Each turn goes by a count, so there is nothing to go through by a `for`.
    while low < high {
        let middle = cuts.next(sizes, q, low, high);
        let count = counting::exceeding(sizes, middle, cuts.enough(q));
        cuts.note(count, q);
        if u64::from(q) < count {
            low = middle + 1;
        } else {
            high = middle;
        }
    }
    low
}

// In the middle, but not far above four times `low`, since more are soon found to exceed a small number.
pub fn pivot(low: u64, high: u64) -> u64
    requires { (low < high) × (high ≤ 4503599627370496) }
    ensures { (low ≤ result) × (result < high) }
{
    (low + (high - low) / 2).min(low * 4 + 255)
}

// What a few chunks need.
#[derive(Clone, Copy, Debug, PartialEq, Eq)]
pub struct Middles;

impl Cuts for Middles {
    fn next(&mut self, _sizes: &[Lanes], _q: u32, low: u64, high: u64) -> u64 {
        pivot(low, high)
    }

    fn note(&mut self, _count: u64, _q: u32) {}

    fn enough(&self, q: u32) -> u32 {
        q
    }
}
