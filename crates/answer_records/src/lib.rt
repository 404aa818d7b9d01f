// Answer records: from an answer to its 40 bytes and back, with check 9.
#![tactic(auto)]

ghost use Rattle.std.specs.Prelude.{◌≡◌, ◌≤◌, length};
ghost use Rattle.integers.specs.Lists.{over};
ghost use Rattle.fields.specs.Buffers.{written};
ghost use Rattle.answer_records.specs.Answers.{answer_bytes, answer_of, check_answer, check_answer_write, read_answer};

use codes::Refusal;
use fields::{check_room, get_number, get_number32, get_vector, put_number, put_vector};

// An answer as its record holds it. Any value of these types may arrive; check 9 refuses what is out of range.
#[derive(Clone, Copy, Debug, PartialEq, Eq)]
pub struct AnswerRecord {
    pub vector: [i16; 8],
    pub cost: u64,
    pub bound: u64,
    pub count: u32,
    pub kind: u8,
    pub n: u8,
    pub d: u8,
    pub scale: u8,
}

// The fields of 40 bytes.
#[tactic(auto, using(fields::proofs::BigEndian::number_inside, fields::proofs::Vectors::vector_inside), unfolding(crate::specs::Answers::answer_of))]
fn get_answer(bytes: &[u8]) -> AnswerRecord
    requires { 40 ≤ length bytes.now }
    ensures { result ≡ answer_of bytes.now }
{
    AnswerRecord {
        vector: get_vector(bytes, 0),
        cost: get_number(bytes, 16, 8),
        bound: get_number(bytes, 24, 8),
        count: get_number32(bytes, 32),
        kind: bytes[36],
        n: bytes[37],
        d: bytes[38],
        scale: bytes[39],
    }
}

// The fields into the first 40 bytes.
fn put_answer(a: AnswerRecord, bytes: &mut [u8])
    requires { 40 ≤ length bytes.old }
    ensures { bytes.new ≡ over (answer_bytes a) bytes.old }
{
    put_vector(bytes, 0, a.vector);
    put_number(bytes, 16, 8, a.cost);
    put_number(bytes, 24, 8, a.bound);
    put_number(bytes, 32, 4, u64::from(a.count));
    bytes[36..40].copy_from_slice(&[a.kind, a.n, a.d, a.scale]);
}

// The largest cost: 4,096 points that each cost 16,777,215 squared.
const LARGEST_COST: u64 = 1_152_921_367_167_897_600;

// Check 9.
#[tactic(auto, unfolding(crate::specs::Answers::check_answer))]
pub fn check_answer(a: AnswerRecord) -> Result<(), Refusal>
    ensures { result ≡ check_answer a }
{
    if 1 <= a.kind
        && a.kind <= 3
        && boxes::check_shape(a.n, a.d).is_ok()
        && scale::check_scale(a.scale).is_ok()
        && boxes::unused_zero(a.n, a.d, a.vector)
        && a.bound <= a.cost
        && a.cost <= LARGEST_COST
    {
        Ok(())
    } else {
        Err(Refusal::Answer)
    }
}

// The answer record in the first 40 bytes.
#[tactic(auto, unfolding(crate::specs::Answers::check_answer_write, codes::specs::Codes::in_order))]
pub fn write_answer(a: AnswerRecord, out: &mut [u8]) -> Result<(), Refusal>
    ensures check { result ≡ check_answer_write a out.old }
    ensures bytes { out.new ≡ written result (answer_bytes a) out.old }
{
    check_answer(a)?;
    check_room(40, out)?;
    put_answer(a, out);
    Ok(())
}

// The answer of 40 bytes.
#[tactic(auto, unfolding(crate::specs::Answers::read_answer, codes::specs::Codes::in_order))]
pub fn read_answer(bytes: &[u8]) -> Result<AnswerRecord, Refusal>
    ensures { result ≡ read_answer bytes.now }
{
    if bytes.len() != 40 {
        return Err(Refusal::Answer);
    }
    let answer = get_answer(bytes);
    check_answer(answer)?;
    Ok(answer)
}
