// The losses of a chunk's points under a vector, or over a box.
#![tactic(auto)]

ghost use Rattle.std.specs.Prelude.{◌≡◌, ◌*◌, ◌<◌, min};
ghost use Rattle.std.specs.Float.{binary64};
ghost use Rattle.std.specs.Float.Ieee.{of_int};
ghost use Rattle.eval_whole.specs.Whole.{Within};
ghost use Rattle.eval_lanes.specs.Lanes.{Lessened};
ghost use Rattle.eval_kernel.specs.Kernel.{doubles, Doubles, line_at, size_by, LeastOf, no_size, group_losses, chunk_loss};

use eval_box_ends::Span;
use eval_lanes::{Chunk, Lanes};
use jobs::Model;

// The eight coordinates of a vector, and four zeros: a line's are read four at a time.
pub type Coordinates = [f64; 12];

fn double(w: i16) -> f64
    ensures value { result ≡ of_int binary64 w }
    ensures whole { Within result w 32768 }
{
    w as f64
}

// The coordinates of a vector, as doubles: once for each evaluation.
pub fn coordinates(v: [i16; 8]) -> Coordinates
    ensures value { result ≡ doubles v }
    ensures whole { Doubles v result }
{
    let mut u: Coordinates = [0.0; 12];
    for (i, w) in v.iter().enumerate() {
        u[i] = double(*w);
    }
    u
}

// Where the coordinates of line j begin; check 2 lets no line begin behind the eighth.
fn place(j: u8, d: u8) -> usize
    ensures { result ≡ min (j * d) 8 }
{
    (j as usize * d as usize).min(8)
}

// The coordinates of the line that begins at place b.
fn line(u: &Coordinates, b: usize) -> [f64; 4]
    requires { b < 9 }
    ensures { result ≡ line_at u.now b }
{
    [u[b], u[b + 1], u[b + 2], u[b + 3]]
}

// Each lane becomes the smaller of itself and the size of its point under line j: the least size
// over the box from `low` to `high`, or under the vector `low`. The two are lent side by side: a
// vector is lent as both, and a struct would copy it.
pub fn lessen_line<const OVER: bool>(
    least: &mut Lanes,
    s: &Chunk,
    low: &Coordinates,
    high: &Coordinates,
    j: u8,
    d: u8,
)
    ensures { Lessened least.old least.new
        (size_by OVER s.now low.now high.now d (min (j * d) 8)) }
{
    let b = place(j, d);
    if OVER {
        let span = Span {
            low: line(low, b),
            high: line(high, b),
        };
        eval_box_sizes::over_line(least, s, d as usize, span);
    } else {
        eval_sizes::at_line(least, s, d as usize, line(low, b));
    }
}

// And under all n lines.
pub fn lessen_all<const OVER: bool>(
    least: &mut Lanes,
    s: &Chunk,
    low: &Coordinates,
    high: &Coordinates,
    n: u8,
    d: u8,
)
    ensures { LeastOf OVER s.now low.now high.now d n least.old least.new }
{
    for j in 0..n {
        lessen_line::<OVER>(least, s, low, high, j, d);
    }
}

// No size reaches 2^33.
pub const NO_SIZE: u64 = 8589934592;

// What a least size starts from. It is the same for every ε: the compiler lays lanes that are filled with a constant at a multiple of 16
// bytes, so that no packed access to them lies across two pages.
pub fn no_size() -> f64
    ensures { result ≡ no_size }
{
    NO_SIZE as f64
}

// The losses of a chunk's points, added up by groups: under the vector `low`, or over the box from `low` to `high`.
pub fn group_losses<const OVER: bool>(
    s: &Chunk,
    low: &Coordinates,
    high: &Coordinates,
    m: Model,
) -> [u64; 4]
    ensures { result ≡ group_losses OVER s.now low.now high.now m }
{
    let mut sizes: Lanes = [no_size(); 80];
    lessen_all::<OVER>(&mut sizes, s, low, high, m.n, m.d);
    eval_losses::lose(&mut sizes, m.p, m.eps);
    eval_losses::group_sums(&sizes)
}

// All of them added up, without the four sums in between.
pub fn chunk_loss<const OVER: bool>(
    s: &Chunk,
    low: &Coordinates,
    high: &Coordinates,
    m: Model,
) -> u64
    ensures value { result ≡ chunk_loss OVER s.now low.now high.now m }
    ensures small { result < 36028797018963968 }
{
    let mut least: Lanes = [no_size(); 80];
    lessen_all::<OVER>(&mut least, s, low, high, m.n, m.d);
    eval_losses::total(&mut least, m.p, m.eps)
}
