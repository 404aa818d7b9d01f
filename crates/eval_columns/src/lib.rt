// The records of a store decoded into columns of doubles, chunk by chunk.
#![tactic(auto)]

ghost use Rattle.std.specs.Prelude.{[], ◌≡◌, ℕ, ◌+◌, ◌*◌, ◌-◌, ◌/◌, ◌≤◌, ◌<◌, min, length, get_or};
ghost use Rattle.std.specs.Float.{nan};
ghost use Rattle.eval_lanes.specs.Lanes.{lane};
ghost use Rattle.eval_lanes.specs.Inside.{Filled};
ghost use Rattle.eval_columns.specs.Columns.{ChunkOf};
ghost use Rattle.eval_columns.specs.Inside.{FieldOfRecords, FieldOfSlots, RecordsOf, ScaledOf};
ghost use Rattle.points.specs.Points.{signed_at};

use eval_gaps::{keep_above, scale_above};
use eval_lanes::{Chunk, Lanes};
use points::GAP;

// The signed 16-bit number at byte o of a store, read straight from its bytes: one load, turned round by one rotation.
#[tactic(auto, using(crate::proofs::Decoding::signed_bytes))]
fn field(store: &[u8], o: usize) -> i16
    requires { o + 1 < length store.now }
    ensures { result ≡ signed_at store.now o }
{
    i16::from_be_bytes([store[o], store[o + 1]])
}

// A field of the records from record i on, one in each slot.
fn read_fields(out: &mut [f64], store: &[u8], i: usize, at: usize)
    requires { (length out.old ≤ length store.now / 12 - i) × (at ≤ 8) × (i < 32768) }
    ensures { Filled 0 (FieldOfRecords store.now i at) out.old (length out.old) out.new }
{
    for (k, x) in out.iter_mut().enumerate() {
        *x = field(store, (i + k) * 12 + at) as f64;
    }
}

// Field c of the 19 records of group g of chunk t, and zeros in the slots behind them.
fn decode_group(group: &mut [f64], store: &[u8], t: usize, g: usize, c: usize)
    requires { (length group.old ≡ 20) × (g < 4) × (t < 256) × (c < 5) }
    ensures { (k : ℕ) → k < 20 → FieldOfSlots store.now t c (g * 20 + k) nan (lane group.new k) }
{
    let i = t * 76 + g * 19;
    let n = (store.len() / 12).saturating_sub(i).min(19);
    let (filled, empty) = group.split_at_mut(n);
    read_fields(filled, store, i, c * 2);
    empty.fill(0.0);
}

// Field c of chunk t.
fn decode_column(out: &mut Lanes, store: &[u8], t: usize, c: usize)
    requires { (t < 256) × (c < 5) }
    ensures { (k : ℕ) → k < 80 → FieldOfSlots store.now t c k nan (lane out.new k) }
{
    // Parts by hand: of what `chunks_exact_mut` lends a proof knows no element.
    for g in 0..4 {
        decode_group(&mut out[g * 20..g * 20 + 20], store, t, g, c);
    }
}

// The records of chunk t: the first d of the x, and y. The other columns are as they were. Store, t and d
// stand apart, as in the promises `RecordsOf` and `ChunkOf`.
fn decode_records(chunk: &mut Chunk, store: &[u8], t: usize, d: u8)
    requires { t < 256 }
    ensures here { RecordsOf store.now t d chunk.new }
    ensures rest { (c : ℕ) → d ≤ c → c < 4 → get_or chunk.new c [] ≡ get_or chunk.old c [] }
{
    for (c, column) in chunk[..(d as usize).min(4)].iter_mut().enumerate() {
        decode_column(column, store, t, c);
    }
    decode_column(&mut chunk[4], store, t, 4);
}

// The slots of gaps made empty.
fn empty_gaps(chunk: &mut Chunk, store: &[u8], t: usize, d: u8, power: u16)
    requires { (t < 256) × ScaledOf store.now t d power chunk.old }
    ensures here { ChunkOf store.now t d power chunk.new }
    ensures rest { (c : ℕ) → d ≤ c → c < 4 → get_or chunk.new c [] ≡ get_or chunk.old c [] }
{
    let mut ys: Lanes = [0.0; 80];
    decode_column(&mut ys, store, t, 4);
    for column in chunk[..(d as usize).min(4)].iter_mut() {
        keep_above(column, &ys, GAP as f64);
    }
    keep_above(&mut chunk[4], &ys, GAP as f64);
}

// Chunk t: the first d of the x, and y times a power of two. The other columns are as they were. A chunk without gaps, whose y all lie
// above a gap's, is done with that test, which is made as y is scaled.
pub fn decode_chunk(chunk: &mut Chunk, store: &[u8], t: u8, d: u8, power: u16)
    ensures here { ChunkOf store.now t d power chunk.new }
    ensures rest { (c : ℕ) → d ≤ c → c < 4 → get_or chunk.new c [] ≡ get_or chunk.old c [] }
{
    decode_records(chunk, store, t as usize, d);
    if !scale_above(&mut chunk[4], GAP as f64, power as f64) {
        empty_gaps(chunk, store, t as usize, d, power);
    }
}

// How many chunks a store of so many bytes fills, as far as there is room for them; check 1 lets no more than 54 through.
pub fn chunk_count(bytes: usize, room: usize) -> usize
    ensures { result ≡ min (min ((bytes / 12 + 75) / 76) room) 54 }
{
    (bytes / 12).div_ceil(76).min(room).min(54)
}
