// The line nearest to a point, in whole numbers.
ghost use Rattle.std.specs.Prelude.{cond, ◌≡◌, ◌+◌, ◌*◌, ◌/◌, ◌^◌, ◌≤◌, ◌<◌, leb, pos, nat_abs, ◌-ℤ◌, ◌*ℤ◌, length};
ghost use Rattle.points.specs.Points.{point_at, xs};
ghost use Rattle.residuals.specs.Cost.{at, least};
ghost use Rattle.residuals.specs.Inside.{Ready, size_of, dot};
ghost use Rattle.labels.specs.Labels.{first_least, fitting, sample_label, label};

use jobs::Model;
use points::{Point, Record};

// y × 2^S.
fn scaled(y: i16, power: u16) -> i64
    ensures product { result ≡ y *ℤ pos power }
    ensures small { nat_abs result ≤ 2147483648 }
{
    i64::from(y) * i64::from(power)
}

// One product taken off.
fn without(e: i64, w: i16, x: i16) -> i64
    requires { nat_abs e ≤ 6442450944 }
    ensures value { result ≡ e -ℤ w *ℤ x }
    ensures small { nat_abs result ≤ nat_abs e + 1073741824 }
{
    e - i64::from(w) * i64::from(x)
}

// e of a point and the line whose coordinates begin at place b.
fn residual(q: Point, v: &[i16; 8], b: usize, d: usize, power: u16) -> i64
    requires { (b + d ≤ 8) × (d ≤ 4) }
    ensures { result ≡ q.y *ℤ pos power -ℤ dot v.now b (xs q) d }
{
    let x = [q.x1, q.x2, q.x3, q.x4];
    let mut e = scaled(q.y, power);
    for k in 0..d {
        e = without(e, v[b + k], x[k]);
    }
    e
}

// A line and its |e|, and how many of the lines fit.
#[derive(Clone, Copy, Debug, PartialEq, Eq)]
pub struct Nearest {
    pub line: usize,
    pub size: u64,
    pub fitting: usize,
}

// 1 for a line that fits, else 0.
fn counted(size: u64, eps: u64) -> usize
    ensures { result ≡ cond (leb size eps) 1 0 }
{
    usize::from(size <= eps)
}

// The nearest of n lines, the first among equals, and how many of them are within ε.
fn nearest_line(q: Point, v: &[i16; 8], n: usize, d: usize, power: u16, eps: u64) -> Nearest
    requires { (n * d ≤ 8) × (1 ≤ n) × (d ≤ 4) }
    ensures line { result.line ≡ first_least (λ j. size_of q v.now (j * d) d power) n }
    ensures size { result.size ≡ least (λ j. size_of q v.now (j * d) d power) n }
    ensures fitting { result.fitting ≡ fitting (λ j. size_of q v.now (j * d) d power) eps n }
{
    let mut line = 0;
    let mut size = residual(q, v, 0, d, power).unsigned_abs();
    let mut fitting = counted(size, eps);
    for j in 1..n {
        let other = residual(q, v, j * d, d, power).unsigned_abs();
        fitting += counted(other, eps);
        if other < size {
            size = other;
            line = j;
        }
    }
    Nearest {
        line,
        size,
        fitting,
    }
}

// The label of a sample: 5 where two lines fit.
#[tactic(auto, using(crate::proofs::Labelling::first_least_lem, residuals::proofs::Sizes::sizes_at), unfolding(crate::specs::Labels::sample_label, crate::specs::Labels::nearest_label))]
fn label_of(q: Point, m: Model, v: &[i16; 8], power: u16) -> u8
    requires { (m.n * m.d ≤ 8) × (1 ≤ m.n) × (m.n ≤ 4) × (m.d ≤ 4) × (power ≡ 2 ^ m.scale) }
    ensures { result ≡ sample_label m v.now q }
{
    let eps = u64::from(m.eps);
    let near = nearest_line(q, v, usize::from(m.n), usize::from(m.d), power, eps);
    if 2 <= near.fitting {
        5
    } else if near.size <= eps {
        (near.line + 1) as u8
    } else {
        0
    }
}

// The label of record i: 6 of a gap.
#[tactic(auto, unfolding(points::specs::Points::point_answer, points::specs::Points::sample_or_gap, points::specs::Points::skipped, crate::specs::Labels::label))]
pub fn label_at(store: &[u8], i: usize, m: Model, v: &[i16; 8], power: u16) -> u8
    requires { Ready (length store.now) m × (i < length store.now / 12) × (power ≡ 2 ^ m.scale) }
    ensures { result ≡ label m v.now (point_at store.now i) }
{
    match points::read_point(store, i) {
        Some(Record::Sample(q)) => label_of(q, m, v, power),
        Some(Record::Gap(_)) => 6,
        None => 0,
    }
}
