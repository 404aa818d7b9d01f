// The points left of a store, by their labels: a label of 0 says that no round has removed the point.
#![tactic(auto)]

ghost use Rattle.std.specs.Prelude.{cond, ◌&&◌, map, ◌≡◌, ◌+◌, ◌*◌, ◌/◌, ◌≤◌, ◌<◌, leb, eqb, length, take, drop};
ghost use Rattle.integers.specs.Lists.{over};
ghost use Rattle.points.specs.Points.{point_at, points_of};
ghost use Rattle.rounds.specs.Rounds.{samples};
ghost use Rattle.points_left.specs.Left.{first_label, bytes_left, relabel, relabelled, relabels};
ghost use Rattle.points_left.specs.Inside.{put};

use points::Record;

// 6 of a gap, 0 of a sample.
#[tactic(auto, unfolding(points::specs::Points::point_answer, points::specs::Points::sample_or_gap, crate::specs::Left::first_label))]
fn first_label(store: &[u8], i: usize) -> u8
    requires { i < length store.now / 12 }
    ensures { result ≡ first_label (point_at store.now i) }
{
    match points::read_point(store, i) {
        Some(Record::Gap(_)) => 6,
        _ => 0,
    }
}

// 1 for a point that is left, else 0.
fn counted(label: u8) -> usize
    ensures { result ≡ cond (eqb label 0) 1 0 }
{
    usize::from(label == 0)
}

// The labels before the first round, and how many points are left then. Nothing is written where there is no room for all labels.
pub fn set_aside(store: &[u8], labels: &mut [u8]) -> usize
    ensures left { result
        ≡ cond (leb (length store.now / 12) (length labels.old))
        (length (samples (points_of store.now))) 0 }
    ensures labels { labels.new
        ≡ cond (leb (length store.now / 12) (length labels.old))
        (over (map first_label (points_of store.now)) labels.old) labels.old }
{
    let count = store.len() / 12;
    if labels.len() < count {
        return 0;
    }
    let mut left = 0;
    // By places: a record and a label, which differ in width, go side by side.
    for i in 0..count {
        let label = first_label(store, i);
        labels[i] = label;
        left += counted(label);
    }
    left
}

// The record at byte o of a store, at byte n of the output, if its label is 0: how many bytes that takes.
fn put_left(label: u8, out: &mut [u8], n: usize, store: &[u8], o: usize) -> usize
    requires { (n + 12 ≤ length out.old) × (o + 12 ≤ length store.now) }
    ensures bytes { result ≡ cond (eqb label 0) 12 0 }
    ensures output { out.new
        ≡ cond (eqb label 0) (put out.old n (take 12 (drop o store.now))) out.old }
{
    if label == 0 {
        out[n..n + 12].copy_from_slice(&store[o..o + 12]);
        12
    } else {
        0
    }
}

// The records left, in order, at the front of an output with room for the whole store: how many bytes they have.
pub fn gather(store: &[u8], labels: &[u8], out: &mut [u8]) -> usize
    ensures bytes { result
        ≡ cond (leb (length store.now) (length out.old))
        (length (bytes_left labels.now store.now)) 0 }
    ensures output { out.new
        ≡ cond (leb (length store.now) (length out.old))
        (over (bytes_left labels.now store.now) out.old) out.old }
{
    if out.len() < store.len() {
        return 0;
    }
    let mut n = 0;
    // By places: three slices go side by side, of two widths.
    for i in 0..(store.len() / 12).min(labels.len()) {
        n += put_left(labels[i], out, n, store, i * 12);
    }
    n
}

// The label of a point after a round whose line fits it if its mark is 1: one that is left gets the round's number.
fn relabel(label: u8, mark: u8, number: u8) -> u8
    ensures { result ≡ relabel number label mark }
{
    if label == 0 && mark == 1 {
        number
    } else {
        label
    }
}

// 1 where that changes it, else 0.
fn removed_one(label: u8, mark: u8) -> usize
    ensures { result ≡ cond (eqb label 0 && eqb mark 1) 1 0 }
{
    usize::from(label == 0 && mark == 1)
}

// The labels after a round with a number, by a mark for each point: how many points it removes.
pub fn mark(labels: &mut [u8], marks: &[u8], number: u8) -> usize
    ensures removed { result ≡ relabels labels.old marks.now }
    ensures labels { labels.new ≡ relabelled number labels.old marks.now }
{
    let mut removed = 0;
    // By places: of a zip over `iter_mut` a proof does not know what is written already.
    for i in 0..labels.len().min(marks.len()) {
        let label = labels[i];
        let mark = marks[i];
        labels[i] = relabel(label, mark, number);
        removed += removed_one(label, mark);
    }
    removed
}
