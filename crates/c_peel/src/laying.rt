// The answers of rounds, laid into two buffers one after the other.
ghost use Rattle.std.specs.Prelude.{◌≡◌, length};
ghost use Rattle.c_peel.specs.Calls.{vectors_of, numbers_of};

use c_buffers::fill;
use c_search::answer_numbers;
use search::Answer;

// The answers of all four rounds, each in its places.
pub fn lay_all(answers: [Answer; 4], vectors: &mut [i16], numbers: &mut [u64])
    requires { (length vectors.old ≡ 32) × (length numbers.old ≡ 24) }
    ensures vectors { vectors.new ≡ vectors_of answers }
    ensures numbers { numbers.new ≡ numbers_of answers }
{
    for (k, &a) in answers.iter().enumerate() {
        fill(&mut vectors[k * 8..k * 8 + 8], &a.vector);
        fill(&mut numbers[k * 6..k * 6 + 6], &answer_numbers(a));
    }
}
