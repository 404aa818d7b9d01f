// Whole numbers in double precision: the larger and the smaller of two, and one as an integer.
#![tactic(auto)]

ghost use Rattle.std.specs.Prelude.{◌≡◌};
ghost use Rattle.eval_whole.specs.Whole.{larger_of, smaller_of, counted};

// A test and a choice. f64::max and f64::min take more instructions, since they ask besides whether one is no number,
// and say of 0 and -0 only that it is either.
pub fn larger(a: f64, b: f64) -> f64
    ensures { result ≡ larger_of a b }
{
    if a < b { b } else { a }
}

pub fn smaller(a: f64, b: f64) -> f64
    ensures { result ≡ smaller_of a b }
{
    if b < a { b } else { a }
}

// A cast would ask for a whole number; the bits of x + 2^52 ask only for a number, which the larger of it and 2^52 always is.
#[tactic(auto, unfolding(crate::specs::Whole::counted))]
pub fn count(x: f64) -> u64
    ensures { result ≡ counted x }
{
    let shifted = larger(4503599627370496.0, x + 4503599627370496.0);
    shifted.to_bits() % 4503599627370496
}
