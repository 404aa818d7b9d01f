// One split budget for several boards, for C.
#![tactic(auto)]

ghost use Rattle.std.specs.Prelude.{◌≡◌, cond, length};
ghost use Rattle.c_buffers.specs.Buffers.{filled};
ghost use Rattle.c_boundary.specs.Boundary.{code_of};
ghost use Rattle.c_boards.specs.Calls.{answer_code, board_numbers, codes_of, vectors_of, numbers_of};
ghost use Rattle.c_boards.specs.Calls.{boards_call, codes_after, budgets_after, vectors_after, numbers_after};
ghost use Rattle.c_boards.specs.Calls.{TableAfterCall, BoundsAfterCall, CertifiedCall};

use boards::BoardAnswers;
use c_boundary::{WRONG_LENGTH, check_code, refusal_code};
use c_buffers::fill;
use c_search::answer_numbers;
use search::Answer;

// One slot: its vector and its numbers into their places; answers its code, which is 0 without a job.
fn hand_slot(a: Answer, used: bool, vector: &mut [i16], numbers: &mut [u64]) -> u32
    ensures code { result ≡ cond used (answer_code a) 0 }
    ensures vector { vector.new ≡ filled vector.old a.vector }
    ensures numbers { numbers.new ≡ filled numbers.old (board_numbers a) }
    ensures long { length a.vector ≡ 8 }
{
    fill(vector, &a.vector);
    fill(numbers, &answer_numbers(a));
    if used { check_code(a.kind.check()) } else { 0 }
}

// The answers as this interface hands them over, slot after slot.
fn hand_over(
    count: usize,
    b: BoardAnswers,
    codes: &mut [u32],
    budgets: &mut [u32],
    vectors: &mut [i16],
    numbers: &mut [u64],
)
    requires { (length codes.old ≡ 8) × (length budgets.old ≡ 8) × (length vectors.old ≡ 64) × (length numbers.old ≡ 48) }
    ensures codes { codes.new ≡ codes_of count b.answers }
    ensures budgets { budgets.new ≡ b.budgets }
    ensures vectors { vectors.new ≡ vectors_of count b.answers }
    ensures numbers { numbers.new ≡ numbers_of count b.answers }
{
    budgets.copy_from_slice(&b.budgets);
    for (i, &answer) in b.answers.iter().enumerate() {
        let used = i < count;
        codes[i] = hand_slot(
            answer,
            used,
            &mut vectors[8 * i..8 * i + 8],
            &mut numbers[6 * i..6 * i + 6],
        );
    }
}

// Searches the stores of 1 to 8 jobs in order, in one table, within one split budget. Each job's code, budget, vector and numbers go into
// their buffers.
pub fn boards(
    count: u8,
    total: u32,
    jobs: &[u8],
    stores: &[u8],
    lengths: &[u32],
    table: &mut [i16],
    bounds: &mut [u64],
    codes: &mut [u32],
    budgets: &mut [u32],
    vectors: &mut [i16],
    numbers: &mut [u64],
) -> u32
    ensures code { result
        ≡ code_of (boards_call count total jobs.now stores.now lengths.now table.old
        bounds.old codes.old budgets.old vectors.old numbers.old) }
    ensures codes { codes.new
        ≡ codes_after count total jobs.now stores.now lengths.now table.old
        bounds.old codes.old budgets.old vectors.old numbers.old }
    ensures budgets { budgets.new
        ≡ budgets_after count total jobs.now stores.now lengths.now table.old
        bounds.old codes.old budgets.old vectors.old numbers.old }
    ensures vectors { vectors.new
        ≡ vectors_after count total jobs.now stores.now lengths.now table.old
        bounds.old codes.old budgets.old vectors.old numbers.old }
    ensures numbers { numbers.new
        ≡ numbers_after count total jobs.now stores.now lengths.now table.old
        bounds.old codes.old budgets.old vectors.old numbers.old }
    ensures table { TableAfterCall count total jobs.now stores.now lengths.now table.old
        bounds.old codes.old budgets.old vectors.old numbers.old
        table.new }
    ensures bounds { BoundsAfterCall count total jobs.now stores.now lengths.now table.old
        bounds.old codes.old budgets.old vectors.old numbers.old
        bounds.new }
    ensures certificate { result ≡ 0 →
        CertifiedCall count total jobs.now stores.now lengths.now table.old
        bounds.old codes.old budgets.old vectors.old numbers.old
        codes.new budgets.new vectors.new numbers.new }
{
    if codes.len() != 8 || budgets.len() != 8 || vectors.len() != 64 || numbers.len() != 48 {
        return WRONG_LENGTH;
    }
    match boards::boards(count, total, jobs, stores, lengths, table, bounds) {
        Ok(found) => {
            hand_over(count as usize, found, codes, budgets, vectors, numbers);
            0
        }
        Err(why) => refusal_code(why),
    }
}
