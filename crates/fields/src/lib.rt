// Big-endian fields at their places in a record's bytes: numbers and vectors. What does not lie in the bytes is neither read nor written.
#![tactic(auto)]

ghost use Rattle.std.specs.Prelude.{[], ◌∷◌, ◌≡◌, ◌+◌, ◌^◌, ◌<◌, ◌≤◌, SomeIff, OnOk, length};
ghost use Rattle.std.specs.Int.{w16};
ghost use Rattle.std.proofs.Common.{to_z};
ghost use Rattle.fields.specs.Buffers.{check_room};
ghost use Rattle.fields.specs.Fields.{big_endian, from_big_endian, number_in, vector_bytes, vector_in, with_field};

use codes::Refusal;

// Check 10 of a record of so many bytes.
#[tactic(auto, unfolding(crate::specs::Buffers::check_room))]
pub fn check_room(size: usize, out: &[u8]) -> Result<(), Refusal>
    ensures check { result ≡ check_room size out.now }
    ensures room { OnOk result (size ≤ length out.now) }
{
    if size <= out.len() {
        Ok(())
    } else {
        Err(Refusal::Short)
    }
}

// The unsigned 16-bit number of two bytes, the higher first.
#[tactic(auto, unfolding(crate::specs::Fields::from_big_endian))]
pub fn unsigned16(high: u8, low: u8) -> u16
    ensures { result ≡ from_big_endian (high ∷ low ∷ []) }
{
    u16::from_be_bytes([high, low])
}

// The signed 16-bit number of two bytes, the higher first.
#[tactic(auto, unfolding(crate::specs::Fields::from_big_endian))]
pub fn signed16(high: u8, low: u8) -> i16
    ensures { result ≡ to_z w16 (from_big_endian (high ∷ low ∷ [])) }
{
    i16::from_be_bytes([high, low])
}

// The place behind the k bytes from `at` on, where they all lie among so many.
fn behind(len: usize, at: usize, k: usize) -> Option<usize>
    ensures { SomeIff result (at + k ≤ len) (at + k) }
{
    at.checked_add(k).filter(|end| *end <= len)
}

// The number of the k bytes from `at` on, at most 8, the highest first.
#[tactic(auto, using(crate::proofs::BigEndian::power_positive), unfolding(crate::specs::Fields::number_in))]
pub fn get_number(bytes: &[u8], at: usize, k: usize) -> u64
    ensures value { result ≡ number_in bytes.now at k }
    ensures small { result < 256 ^ k }
{
    if 8 < k {
        return 0;
    }
    match behind(bytes.len(), at, k) {
        None => 0,
        Some(end) => {
            let mut low = [0u8; 8];
            low[8 - k..].copy_from_slice(&bytes[at..end]);
            u64::from_be_bytes(low)
        }
    }
}

// The number of the four bytes from `at` on.
pub fn get_number32(bytes: &[u8], at: usize) -> u32
    ensures { result ≡ number_in bytes.now at 4 }
{
    get_number(bytes, at, 4) as u32
}

// The vector of the sixteen bytes from `at` on, two bytes a coordinate.
#[tactic(auto, unfolding(crate::specs::Fields::vector_in))]
pub fn get_vector(bytes: &[u8], at: usize) -> [i16; 8]
    ensures { result ≡ vector_in bytes.now at }
{
    let mut v = [0; 8];
    if let Some(end) = behind(bytes.len(), at, 16) {
        let part = &bytes[at..end];
        for (k, w) in v.iter_mut().enumerate() {
            *w = signed16(part[2 * k], part[2 * k + 1]);
        }
    }
    v
}

// The low bytes of x fill the part, the highest first.
fn fill_number(part: &mut [u8], x: u64)
    ensures { part.new ≡ big_endian (length part.old) x }
{
    let low = part.len().min(8);
    let (zeros, rest) = part.split_at_mut(part.len() - low);
    zeros.fill(0);
    rest.copy_from_slice(&x.to_be_bytes()[8 - low..]);
}

// The low k bytes of x from `at` on; before and behind them nothing changes.
#[tactic(auto, using(crate::proofs::BigEndian::length_big_endian), unfolding(crate::specs::Fields::with_field))]
pub fn put_number(bytes: &mut [u8], at: usize, k: usize, x: u64)
    ensures { bytes.new ≡ with_field (big_endian k x) at bytes.old }
{
    if let Some(end) = behind(bytes.len(), at, k) {
        fill_number(&mut bytes[at..end], x);
    }
}

// The vector in the sixteen bytes from `at` on, two bytes a coordinate.
#[tactic(auto, using(crate::proofs::Vectors::length_vector_bytes), unfolding(crate::specs::Fields::with_field))]
pub fn put_vector(bytes: &mut [u8], at: usize, v: [i16; 8])
    ensures { bytes.new ≡ with_field (vector_bytes v) at bytes.old }
{
    if behind(bytes.len(), at, 16).is_some() {
        for (k, w) in v.iter().enumerate() {
            put_number(bytes, at + 2 * k, 2, u64::from(w.cast_unsigned()));
        }
    }
}
