// The list of open boxes in lent memory: the boxes are the first rows of the table, and their bounds the first entries of a list beside it.
#![tactic(auto)]

ghost use Rattle.std.specs.Prelude.{◌≡◌, cond, ◌++◌, ◌+◌, ◌≤◌, ◌<◌, min, length, get_or, set, take};
ghost use Rattle.certificate.specs.Search.{ahead};
ghost use Rattle.list_first_smallest.specs.FirstSmallest.{entry_at};
ghost use Rattle.list_rows.specs.Rows.{row_count, row_at, rows_of, with_row};
ghost use Rattle.list_open_boxes.specs.OpenBoxes.{Held, Settled, fits, kept_at, number, others_than, picked, room_in};

use incumbent::{Child, Mark, ahead};

// How many boxes a table and the bounds beside it have room for.
fn room(table: &[i16], bounds: &[u64]) -> usize
    ensures { result ≡ room_in table.now bounds.now }
{
    (table.len() / 16).min(bounds.len())
}

// How many boxes are meant by the first n: as many as there is room for. Table, bounds and n stand apart here: the
// first two are lent by the interface for C, and hold more than is listed.
fn listed(table: &[i16], bounds: &[u64], n: usize) -> usize
    ensures { result ≡ min n (room_in table.now bounds.now) }
{
    n.min(room(table, bounds))
}

// Whether the box in row i, with this bound, is kept. Its low vector is read only where the bound does not decide.
#[tactic(auto, unfolding(certificate::specs::Search::ahead))]
fn keeps(table: &[i16], i: usize, bound: u64, mark: Mark) -> bool
    ensures { result ≡ ahead mark.t mark.cost mark.best bound (row_at table.now i).low }
{
    if bound < mark.cost {
        return true;
    }
    if mark.cost < bound {
        return false;
    }
    let b = list_rows::read_row(table, i);
    let low = b.low;
    ahead(mark, bound, low)
}

// How many of the first n boxes are kept.
#[tactic(auto, using(crate::proofs::Picking::number_none, crate::proofs::Picking::number_more, crate::proofs::Picking::number_few))]
pub fn keeping(table: &[i16], bounds: &[u64], n: usize, mark: Mark) -> usize
    ensures { result
        ≡ number (kept_at table.now bounds.now mark) (min n (room_in table.now bounds.now)) }
{
    let count = listed(table, bounds, n);
    let mut kept = 0;
    for i in 0..count {
        if keeps(table, i, bounds[i], mark) {
            kept += 1;
        }
    }
    kept
}

// Moves a box and its bound from one row to another, no later one.
#[tactic(auto, using(list_rows::proofs::Rows::moved_there, crate::proofs::Listing::row_stays))]
fn move_box(table: &mut [i16], bounds: &mut [u64], i: usize, to: usize)
    requires { (to ≤ i) × (i < row_count table.old) × (i < length bounds.old) }
    ensures table { table.new ≡ with_row table.old to (row_at table.old i) }
    ensures bounds { bounds.new ≡ set bounds.old to (get_or bounds.old i 0) }
{
    if to < i {
        list_rows::move_row(table, i, to);
        bounds[to] = bounds[i];
    }
}

// Of the first n boxes those that are kept become the first, in order.
fn sort_out(table: &mut [i16], bounds: &mut [u64], n: usize, mark: Mark) -> usize
    requires { n ≤ room_in table.old bounds.old }
    ensures { Held table.old bounds.old n
        (picked (row_at table.old) (kept_at table.old bounds.old mark) n)
        (picked (entry_at bounds.old) (kept_at table.old bounds.old mark) n)
        result table.new bounds.new }
{
    let mut stay = 0;
    for i in 0..n {
        if keeps(table, i, bounds[i], mark) {
            move_box(table, bounds, i, stay);
            stay += 1;
        }
    }
    stay
}

// Takes the box in row `at` out of the first n: those behind it move by one row, and nothing before it is read. Of n boxes as many are
// meant as there is room for.
pub fn take_out(table: &mut [i16], bounds: &mut [u64], n: usize, at: usize) -> usize
    ensures { Held table.old bounds.old (min n (room_in table.old bounds.old))
        (picked (row_at table.old) (others_than at) (min n (room_in table.old bounds.old)))
        (picked (entry_at bounds.old) (others_than at) (min n (room_in table.old bounds.old)))
        result table.new bounds.new }
{
    let count = listed(table, bounds, n);
    if count <= at {
        return count;
    }
    list_rows::take_row(table, at, count);
    list_rows::slide(&mut bounds[at..count], 1);
    count - 1
}

// Writes a box that is kept and its bound behind the first n. Where there is no room, nothing changes.
pub fn put(table: &mut [i16], bounds: &mut [u64], n: usize, child: Child) -> usize
    ensures told { result ≡ n + cond (fits table.old bounds.old n child) 1 0 }
    ensures table { table.new
        ≡ cond (fits table.old bounds.old n child)
        (with_row table.old n child.half) table.old }
    ensures bounds { bounds.new
        ≡ cond (fits table.old bounds.old n child)
        (set bounds.old n child.bound) bounds.old }
{
    if child.kept && n < room(table, bounds) {
        list_rows::write_row(table, n, child.half);
        bounds[n] = child.bound;
        n + 1
    } else {
        n
    }
}

// Writes those of the first m late boxes that are kept behind the first n, as many as there is room for.
fn append(
    table: &mut [i16],
    bounds: &mut [u64],
    n: usize,
    late: &[i16],
    beside: &[u64],
    m: usize,
    mark: Mark,
) -> usize
    requires { (n ≤ room_in table.old bounds.old) × (m ≤ length beside.now) }
    ensures { Held table.old bounds.old result
        (take (room_in table.old bounds.old)
        (rows_of table.old n
        ++ picked (row_at late.now) (kept_at late.now beside.now mark) m))
        (take (room_in table.old bounds.old)
        (take n bounds.old
        ++ picked (entry_at beside.now) (kept_at late.now beside.now mark) m))
        result table.new bounds.new }
{
    let mut end = n;
    for i in 0..m {
        let half = list_rows::read_row(late, i);
        let bound = beside[i];
        let kept = keeps(late, i, bound, mark);
        end = put(table, bounds, end, Child { half, bound, kept });
    }
    end
}

// Makes one list of two: those of the first n boxes that are kept become the first, and those of the first m late ones, which have their
// bounds beside them, follow, all in order and as many as there is room for.
pub fn settle(
    table: &mut [i16],
    bounds: &mut [u64],
    n: usize,
    late: &[i16],
    beside: &[u64],
    m: usize,
    mark: Mark,
) -> usize
    ensures { Settled table.old bounds.old (min n (room_in table.old bounds.old))
        late.now beside.now (min m (room_in late.now beside.now))
        mark result table.new bounds.new }
{
    let count = listed(table, bounds, n);
    let more = listed(late, beside, m);
    let stay = sort_out(table, bounds, count, mark);
    append(table, bounds, stay, late, beside, more, mark)
}
