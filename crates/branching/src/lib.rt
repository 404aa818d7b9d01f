// A box is cut: the bounds of its halves, the best vector after it, and which halves are kept.
#![tactic(auto)]

ghost use Rattle.std.specs.Prelude.{◌≡◌, false, ◌≤◌, ◌<◌};
ghost use Rattle.boxes.specs.Boxes.{volume};
ghost use Rattle.boxes.specs.Split.{left_half, right_half};
ghost use Rattle.points.specs.Points.{points_of};
ghost use Rattle.residuals.specs.Cost.{bound, cost};
ghost use Rattle.certificate.specs.Search.{better};
ghost use Rattle.incumbent.specs.Incumbent.{kept_by, mark_of, Marks, Tested};
ghost use Rattle.branching.specs.Branching.{Evaluable, just_above, cut_line, side_by_side, half_bounds_in, bounds_up_to, tested_in, tried_in, cut_in, Cut};

use boxes::{Box, Halves};
use eval_lanes::Chunk;
use incumbent::{Child, Mark, ahead, child_of};
use jobs::Model;

// A bound of each half of a box. Not the sums of eval_halves: for p = 3 a bound is no sum.
#[derive(Clone, Copy, Debug, PartialEq, Eq)]
pub struct HalfBounds {
    pub left: u64,
    pub right: u64,
}

// What a box that is cut leaves: the best vector after it, whether it is the one from before, and the tested halves.
#[derive(Clone, Copy)]
pub struct Branches {
    pub mark: Mark,
    pub stays: bool,
    pub left: Child,
    pub right: Child,
}

// What a box of one vector is cut into, which no search cuts: nothing but zeros.
const NO_HALVES: Halves = Halves {
    left: Box {
        low: [0; 8],
        high: [0; 8],
    },
    right: Box {
        low: [0; 8],
        high: [0; 8],
    },
};

// Up to here a cost or a bound is found: one more than C decides as much as the whole one.
pub fn just_above(c: u64) -> u64
    ensures { result ≡ just_above c }
{
    c.saturating_add(1)
}

// The line whose side is cut; where lines have no coordinates, none of the n.
fn cut_line(m: Model, b: Box) -> usize
    ensures { result ≡ cut_line m b }
{
    match m.d {
        0 => usize::from(m.n),
        d => boxes::longest(b.low, b.high) / usize::from(d),
    }
}

// Whether the bounds of both halves are found side by side: they are sums, and there are other lines than the one that is cut. Of a box
// whose unused coordinates are 0 that is one of the n: the last test is for the proof's sake.
fn side_by_side(m: Model, line: usize) -> bool
    ensures { result ≡ side_by_side m line }
{
    m.p < 3 && 1 < m.n && line < usize::from(m.n)
}

// Here and below store, lanes and m stand apart: the clauses `lanes` hold of lanes that are no store's, which a type
// that keeps `Evaluable` would exclude.

// The bounds of both halves of b, each up to a cap. They have every line in common but that of the side that is cut; so, with other lines
// and a p whose bounds are sums, both are found side by side.
pub fn half_bounds(
    store: &[u8],
    lanes: &[Chunk],
    m: Model,
    b: Box,
    left: Box,
    right: Box,
    cap: u64,
) -> HalfBounds
    ensures lanes { result ≡ half_bounds_in store.now lanes.now m b left right cap }
    ensures store { Evaluable store.now lanes.now m → left ≡ left_half b → right ≡ right_half b →
        result ≡ bounds_up_to (bound m (points_of store.now)) left right cap }
{
    let line = cut_line(m, b);
    if side_by_side(m, line) {
        let sums = eval_halves::sums_up_to(store, lanes, m, left, right, line as u8, cap);
        return HalfBounds {
            left: sums.left,
            right: sums.right,
        };
    }
    HalfBounds {
        left: costs::bound_in(store, lanes, m, left, cap),
        right: costs::bound_in(store, lanes, m, right, cap),
    }
}

// Whether a box is kept, with its bound, which is found until it is above C: up to that it is the whole bound.
pub fn tested(store: &[u8], lanes: &[Chunk], m: Model, half: Box, mark: Mark) -> Child
    ensures lanes { result ≡ tested_in store.now lanes.now m half mark }
    ensures store { Evaluable store.now lanes.now m → mark.cost < 18446744073709551615 →
        Tested (bound m (points_of store.now)) (kept_by (bound m (points_of store.now)) mark) half result }
{
    child_of(
        half,
        costs::bound_in(store, lanes, m, half, just_above(mark.cost)),
        mark,
    )
}

// A vector becomes best only if it is cheaper or, for t = 0, as cheap and earlier. Its cost is found until it is above C, and only where
// that is needed.
fn tried(store: &[u8], lanes: &[Chunk], m: Model, mark: Mark, v: [i16; 8], needed: bool) -> Mark
    ensures lanes { result ≡ tried_in store.now lanes.now m mark v needed }
    ensures store { Evaluable store.now lanes.now m → Marks (cost m (points_of store.now)) mark →
        (needed ≡ false → better (cost m (points_of store.now)) mark.t mark.best v ≡ mark.best) →
        (result ≡ mark_of (cost m (points_of store.now)) mark.t
        (better (cost m (points_of store.now)) mark.t mark.best v))
        × (result.cost < 18446744073709551615) }
{
    if !needed {
        return mark;
    }
    let cost = costs::cost_in(store, lanes, m, v, just_above(mark.cost));
    if ahead(mark, cost, v) {
        Mark {
            cost,
            best: v,
            ..mark
        }
    } else {
        mark
    }
}

// Cuts a box, finds the halves' bounds, and tries the low vector of each half. The left half has the low vector of the box itself, which is
// new only if the box is the given one; of a right half that is dropped no vector becomes best. The bounds are found beside the best vector
// from before, and decide beside the one after it too. That is the same where it is not ahead of it.
pub fn cut_box(store: &[u8], lanes: &[Chunk], m: Model, b: Box, mark: Mark, given: bool) -> Branches
    ensures lanes { result ≡ cut_in store.now lanes.now m b mark given }
    ensures store { Evaluable store.now lanes.now m → Marks (cost m (points_of store.now)) mark → 2 ≤ volume b →
        (given ≡ false → better (cost m (points_of store.now)) mark.t mark.best b.low ≡ mark.best) →
        Cut (cost m (points_of store.now)) (bound m (points_of store.now)) b mark result }
{
    let Halves { left, right } = boxes::cut(b).unwrap_or(NO_HALVES);
    let found = half_bounds(store, lanes, m, b, left, right, just_above(mark.cost));
    let one = tried(store, lanes, m, mark, left.low, given);
    let asked = ahead(mark, found.right, right.low);
    let new = tried(store, lanes, m, one, right.low, asked);
    Branches {
        mark: new,
        stays: !ahead(mark, new.cost, new.best),
        left: child_of(left, found.left, new),
        right: child_of(right, found.right, new),
    }
}
