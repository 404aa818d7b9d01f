// Answer records for C.
#![tactic(auto)]

ghost use Rattle.std.specs.Prelude.{◌≡◌, length};
ghost use Rattle.c_buffers.specs.Buffers.{filled};
ghost use Rattle.c_boundary.specs.Boundary.{code_of};
ghost use Rattle.c_answers.specs.Calls.{answer_numbers, read_answer_call, answer_vector_after, answer_numbers_after};
ghost use Rattle.c_answers.specs.Calls.{write_answer_call, answer_record_after};

use answer_records::AnswerRecord;
use c_boundary::{WRONG_LENGTH, check_code, refusal_code};
use c_buffers::{fill, vector_of};

// An answer into its two buffers.
fn lay_answer(a: AnswerRecord, vector: &mut [i16], numbers: &mut [u64])
    ensures vector { vector.new ≡ filled vector.old a.vector }
    ensures numbers { numbers.new ≡ filled numbers.old (answer_numbers a) }
    ensures long { length a.vector ≡ 8 }
{
    let told = [
        a.cost,
        a.bound,
        a.count as u64,
        a.kind as u64,
        a.n as u64,
        a.d as u64,
        a.scale as u64,
    ];
    fill(vector, &a.vector);
    fill(numbers, &told);
}

// Reads an answer record of 40 bytes.
#[tactic(auto, using(c_buffers::proofs::Buffers::filled_whole))]
pub fn read_answer(bytes: &[u8], vector: &mut [i16], numbers: &mut [u64]) -> u32
    ensures code { result ≡ code_of (read_answer_call bytes.now vector.old numbers.old) }
    ensures vector { vector.new ≡ answer_vector_after bytes.now vector.old numbers.old }
    ensures numbers { numbers.new ≡ answer_numbers_after bytes.now vector.old numbers.old }
{
    if vector.len() != 8 || numbers.len() != 7 {
        return WRONG_LENGTH;
    }
    match answer_records::read_answer(bytes) {
        Ok(answer) => {
            lay_answer(answer, vector, numbers);
            0
        }
        Err(r) => refusal_code(r),
    }
}

// Writes an answer record into the first 40 bytes.
#[tactic(auto, using(c_buffers::proofs::Buffers::vector_from_lem))]
pub fn write_answer(
    vector: &[i16],
    cost: u64,
    bound: u64,
    count: u32,
    kind: u8,
    n: u8,
    d: u8,
    scale: u8,
    bytes: &mut [u8],
) -> u32
    ensures code { result ≡ code_of (write_answer_call vector.now cost bound count kind n d scale bytes.old) }
    ensures bytes { bytes.new
        ≡ answer_record_after vector.now cost bound count kind n d scale bytes.old }
{
    if vector.len() != 8 {
        return WRONG_LENGTH;
    }
    let answer = AnswerRecord {
        vector: vector_of(vector),
        cost,
        bound,
        count,
        kind,
        n,
        d,
        scale,
    };
    check_code(answer_records::write_answer(answer, bytes))
}
