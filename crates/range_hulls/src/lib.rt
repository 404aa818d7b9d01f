// The least and the greatest value of each coordinate among the vectors found, and the range of each coefficient that they tell.
#![tactic(auto)]

ghost use Rattle.std.specs.Prelude.{◌≡◌, ◌<◌, eqb};
ghost use Rattle.boxes.specs.Boxes.{volume};
ghost use Rattle.coefficients.specs.Coefficient.{coefficient_or_zero};
ghost use Rattle.range_search.specs.RangeSearch.{widen, least, greatest};
ghost use Rattle.range_hulls.specs.Hulls.{found_of, range_between, range_of, slots_of};

use boxes::Box;
use coefficients::coefficient_of;
use std::array;

// "The answer for a coefficient is one single-precision value, a low and a high value, or none."
#[derive(Clone, Copy, Debug, PartialEq)]
pub enum Range {
    One(f32),
    Between(f32, f32),
    Nothing,
}

// Each end with one vector more.
fn with_vector(ends: Box, v: [i16; 8]) -> Box
    ensures { result ≡ record { low = least ends.low v; high = greatest ends.high v } }
{
    let mut low = ends.low;
    let mut high = ends.high;
    for k in 0..8 {
        low[k] = low[k].min(v[k]);
        high[k] = high[k].max(v[k]);
    }
    Box { low, high }
}

// What is found with one vector more: the box of the least and the greatest values, where some vector
// was found.
#[tactic(auto, unfolding(range_search::specs::RangeSearch::widen))]
pub fn widened(hull: Option<Box>, v: [i16; 8]) -> Option<Box>
    ensures { found_of result ≡ widen (found_of hull) v }
{
    match hull {
        Some(ends) => Some(with_vector(ends, v)),
        None => Some(Box { low: v, high: v }),
    }
}

// Whether a box is a box of one vector.
#[tactic(auto, using(crate::proofs::OneVector::one_vector_lem))]
pub fn one_vector(b: Box) -> bool
    ensures { result ≡ eqb (volume b) 1 }
{
    b.low == b.high
}

// The range between two ends.
fn range_between(s: u8, low: i16, high: i16) -> Range
    ensures { result ≡ range_between (coefficient_or_zero s) low high }
{
    if low < high {
        Range::Between(coefficient_of(s, low), coefficient_of(s, high))
    } else {
        Range::One(coefficient_of(s, low))
    }
}

// The range of coordinate k, where `used` of the 8 are used.
fn range_of(s: u8, used: usize, hull: Option<Box>, k: usize) -> Range
    requires { k < 8 }
    ensures { result ≡ range_of (coefficient_or_zero s) used (found_of hull) k }
{
    match hull {
        Some(ends) if k < used => range_between(s, ends.low[k], ends.high[k]),
        _ => Range::Nothing,
    }
}

// The ranges of all coordinates.
pub fn slots(s: u8, used: usize, hull: Option<Box>) -> [Range; 8]
    ensures { result ≡ slots_of (coefficient_or_zero s) used (found_of hull) }
{
    array::from_fn(|k| range_of(s, used, hull, k))
}
