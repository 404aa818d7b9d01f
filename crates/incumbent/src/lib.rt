// The best vector so far: the one test by which a vector becomes best and a box is kept, and the one by which a search is solved.
#![tactic(auto)]

ghost use Rattle.std.specs.Prelude.{◌≡◌};
ghost use Rattle.incumbent.specs.Incumbent.{ahead_of, child_of, solved_by};

use boxes::Box;

// What a vector with its cost, or a box with its bound and its low vector, is held against: the best vector, its cost C, and t.
#[derive(Clone, Copy)]
pub struct Mark {
    pub t: u64,
    pub cost: u64,
    pub best: [i16; 8],
}

// A box that is to be open if it is kept, with its bound, which has to be exact only then.
#[derive(Clone, Copy)]
pub struct Child {
    pub half: Box,
    pub bound: u64,
    pub kept: bool,
}

// Whether a number is below C or, for t = 0, equals C and belongs to a vector that comes before best. What becomes best and what is kept
// goes by this test.
#[tactic(auto, unfolding(certificate::specs::Search::ahead))]
pub fn ahead(mark: Mark, number: u64, v: [i16; 8]) -> bool
    ensures { result ≡ ahead_of mark number v }
{
    number < mark.cost || mark.t == 0 && number == mark.cost && boxes::before(v, mark.best)
}

// A box with what was found of its bound, and whether it is kept.
pub fn child_of(half: Box, bound: u64, mark: Mark) -> Child
    ensures { result ≡ child_of half bound mark }
{
    Child {
        half,
        bound,
        kept: ahead(mark, bound, half.low),
    }
}

// Whether a search is solved: where C − L is at most t, and for t = 0 where no box is open. No other code decides it.
pub fn is_solved(t: u64, gap: u64, open: usize) -> bool
    ensures { result ≡ solved_by t gap «open» }
{
    if t == 0 { open == 0 } else { gap <= t }
}
