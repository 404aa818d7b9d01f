// One step of the search for ranges: the last open box is cut, and its halves take its place.
ghost use Rattle.std.specs.Prelude.{◌≡◌, cond};
ghost use Rattle.points.specs.Points.{points_of};
ghost use Rattle.residuals.specs.Cost.{bound, cost};
ghost use Rattle.range_search.specs.RangeSearch.{widen};
ghost use Rattle.range_hulls.specs.Hulls.{found_of};
ghost use Rattle.branching.specs.Branching.{Evaluable};
ghost use Rattle.ranges.specs.Inside.{tested_by, is_counted, is_kept, pushed, Steppable, StepOutcome};

use boxes::{Box, Halves};
use branching::{half_bounds, just_above};
use eval_lanes::Chunk;
use jobs::Model;
use range_hulls::{one_vector, widened};

// The state of the search, but for the open boxes, which are the first rows of the table. Of what is
// found, the box of the least and the greatest values.
#[derive(Clone, Copy, Debug, PartialEq, Eq)]
pub struct State {
    pub hull: Option<Box>,
    pub open: usize,
    pub count: u32,
    pub peak: usize,
}

// What a box comes to: it is one vector that costs at most the ceiling; it has more vectors, and is
// kept; or it costs too much.
#[derive(Clone, Copy, Debug, PartialEq, Eq)]
pub enum Tested {
    Counted,
    Kept,
    Dropped,
}

impl Tested {
    pub fn is_counted(self) -> bool
        ensures { result ≡ is_counted self }
    {
        matches!(self, Tested::Counted)
    }

    pub fn is_kept(self) -> bool
        ensures { result ≡ is_kept self }
    {
        matches!(self, Tested::Kept)
    }
}

// A box by its bound, which is the cost of a box of one vector.
pub fn test(b: Box, bound: u64, ceiling: u64) -> Tested
    ensures { result ≡ tested_by b bound ceiling }
{
    if ceiling < bound {
        Tested::Dropped
    } else if one_vector(b) {
        Tested::Counted
    } else {
        Tested::Kept
    }
}

// What is found, with the one vector of a box if that counts.
pub fn costed(hull: Option<Box>, b: Box, counts: bool) -> Option<Box>
    ensures { found_of result ≡ cond counts (widen (found_of hull) b.low) (found_of hull) }
{
    if counts { widened(hull, b.low) } else { hull }
}

// Writes a box that is kept as row `at`.
pub fn push(table: &mut [i16], at: usize, b: Box, kept: bool)
    ensures { table.new ≡ pushed table.old at b kept }
{
    if kept {
        list_rows::write_row(table, at, b);
    }
}

// Cuts the last open box: the state after one more split, or nothing where there is no room for it.
// Each half's bound is found until it is above the ceiling. Where there is no room nothing is written.
pub fn step(
    store: &[u8],
    lanes: &[Chunk],
    m: Model,
    ceiling: u64,
    table: &mut [i16],
    s: State,
) -> Option<State>
    requires { Evaluable store.now lanes.now m × Steppable (bound m (points_of store.now)) ceiling table.old s }
    ensures { StepOutcome (cost m (points_of store.now)) (bound m (points_of store.now)) ceiling table.old s
        result table.new }
{
    let at = s.open - 1;
    let b = list_rows::read_row(table, at);
    let Halves { left, right } = boxes::cut(b).unwrap();
    let bounds = half_bounds(store, lanes, m, b, left, right, just_above(ceiling));
    let first = test(left, bounds.left, ceiling);
    let second = test(right, bounds.right, ceiling);
    let between = at + usize::from(first.is_kept());
    let number = between + usize::from(second.is_kept());
    if table.len() / 16 < number {
        return None;
    }
    push(table, at, left, first.is_kept());
    push(table, between, right, second.is_kept());
    let one = costed(s.hull, left, first.is_counted());
    Some(State {
        hull: costed(one, right, second.is_counted()),
        open: number,
        count: s.count + 1,
        peak: s.peak.max(number),
    })
}
