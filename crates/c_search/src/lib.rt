// The search for C.
#![tactic(auto)]

ghost use Rattle.std.specs.Prelude.{◌≡◌, ◌∷◌, length};
ghost use Rattle.search.specs.Search.{kind_number};
ghost use Rattle.c_buffers.specs.Buffers.{filled};
ghost use Rattle.c_boundary.specs.Boundary.{model_of, answered, code_of, value_after, if_accepted};
ghost use Rattle.c_search.specs.Calls.{outcome_of, search_numbers};
ghost use Rattle.c_search.specs.Calls.{search_call, vector_after, numbers_after, TableAfterCall, BoundsAfterCall, CertifiedCall};

use c_boundary::{WRONG_LENGTH, job_of, model_of, refusal_code};
use c_buffers::fill;
use codes::Refusal;
use search::{Answer, Kind};

// The kind by its number, or the refusal.
fn outcome_of(k: Kind) -> Result<u64, Refusal>
    ensures { result ≡ outcome_of k }
{
    k.check()?;
    Ok(u64::from(u8::from(k)))
}

// The numbers of an answer, that of its kind first; all are 0 of a refused one.
pub fn answer_numbers(a: Answer) -> [u64; 6]
    ensures { result ≡ kind_number a.kind ∷ search_numbers a }
{
    [
        u64::from(u8::from(a.kind)),
        a.cost,
        a.bound,
        a.count as u64,
        a.open as u64,
        a.peak as u64,
    ]
}

// An answer as this interface hands it over.
fn hand_over(a: Answer, vector: &mut [i16], numbers: &mut [u64], value: &mut u64) -> u32
    ensures code { result ≡ code_of (answered (outcome_of a.kind)) }
    ensures value { value.new ≡ value_after (answered (outcome_of a.kind)) value.old }
    ensures vector { vector.new
        ≡ if_accepted (answered (outcome_of a.kind)) (filled vector.old a.vector) vector.old }
    ensures numbers { numbers.new
        ≡ if_accepted (answered (outcome_of a.kind)) (filled numbers.old (search_numbers a)) numbers.old }
    ensures long { length a.vector ≡ 8 }
{
    match outcome_of(a.kind) {
        Ok(kind) => {
            fill(vector, &a.vector);
            fill(numbers, &answer_numbers(a)[1..]);
            *value = kind;
            0
        }
        Err(why) => refusal_code(why),
    }
}

// Searches a box with the rows of a lent table, with the bounds of open boxes in a lent list. The value is the kind of the answer; its
// vector and its numbers go into their buffers.
pub fn search(
    store: &[u8],
    n: u8,
    d: u8,
    scale: u8,
    p: u8,
    eps: u32,
    t: u64,
    budget: u32,
    corners: &[i16],
    start: &[i16],
    table: &mut [i16],
    bounds: &mut [u64],
    vector: &mut [i16],
    numbers: &mut [u64],
    value: &mut u64,
) -> u32
    ensures code { result
        ≡ code_of (search_call store.now (model_of n d scale p eps) t budget corners.now start.now
        table.old bounds.old vector.old numbers.old) }
    ensures value { value.new
        ≡ value_after (search_call store.now (model_of n d scale p eps) t budget corners.now start.now
        table.old bounds.old vector.old numbers.old) value.old }
    ensures vector { vector.new
        ≡ vector_after store.now (model_of n d scale p eps) t budget corners.now start.now
        table.old bounds.old vector.old numbers.old }
    ensures numbers { numbers.new
        ≡ numbers_after store.now (model_of n d scale p eps) t budget corners.now start.now
        table.old bounds.old vector.old numbers.old }
    ensures table { TableAfterCall store.now (model_of n d scale p eps) t budget corners.now start.now
        table.old bounds.old vector.old numbers.old table.new }
    ensures bounds { BoundsAfterCall store.now (model_of n d scale p eps) t budget corners.now start.now
        table.old bounds.old vector.old numbers.old bounds.new }
    ensures certificate { result ≡ 0 →
        CertifiedCall store.now (model_of n d scale p eps) t budget corners.now start.now
        table.old bounds.old vector.old numbers.old value.new vector.new
        numbers.new }
{
    if corners.len() != 16 || start.len() != 8 || vector.len() != 8 || numbers.len() != 5 {
        return WRONG_LENGTH;
    }
    let job = job_of(model_of(n, d, scale, p, eps), t, budget, 0, corners, start);
    hand_over(
        search::search(store, job, table, bounds),
        vector,
        numbers,
        value,
    )
}
