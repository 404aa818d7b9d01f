// The ranges of all coefficients for C.
#![tactic(auto)]

ghost use Rattle.std.specs.Prelude.{◌≡◌, ◌<◌, ◌/◌, ◌%◌, cond, eqb, length};
ghost use Rattle.c_buffers.specs.Buffers.{filled};
ghost use Rattle.c_boundary.specs.Boundary.{model_of, answered, code_of, value_after, if_accepted};
ghost use Rattle.c_ranges.specs.Calls.{outcome_of, case_of, low_bits, high_bits, range_at, cases_of, patterns_of};
ghost use Rattle.c_ranges.specs.Calls.{ranges_numbers, ranges_lengths};
ghost use Rattle.c_ranges.specs.Calls.{ranges_call, patterns_after, cases_after, numbers_after, TableAfterCall, CertifiedCall};

use c_boundary::{WRONG_LENGTH, job_of, model_of, settle};
use c_buffers::fill;
use codes::Refusal;
use coefficients::pattern;
use range_hulls::Range;
use ranges::{Answer, Kind};
use std::array;

// The numbers of this interface alone. A match: `From` for a `Result` would be no plainer.
fn outcome_of(k: Kind) -> Result<u64, Refusal>
    ensures { result ≡ outcome_of k }
{
    match k {
        Kind::Finished => Ok(1),
        Kind::Spent => Ok(2),
        Kind::Full => Ok(3),
        Kind::Refused(why) => Err(why),
    }
}

fn case_of(r: Range) -> u8
    ensures { result ≡ case_of r }
{
    match r {
        Range::One(_) => 1,
        Range::Between(_, _) => 2,
        Range::Nothing => 0,
    }
}

fn low_bits(r: Range) -> u32
    ensures { result ≡ low_bits r }
{
    match r {
        Range::One(w) => pattern(w),
        Range::Between(low, _) => pattern(low),
        Range::Nothing => 0,
    }
}

fn high_bits(r: Range) -> u32
    ensures { result ≡ high_bits r }
{
    match r {
        Range::One(w) => pattern(w),
        Range::Between(_, high) => pattern(high),
        Range::Nothing => 0,
    }
}

// The case of each coordinate.
fn cases_of(slots: [Range; 8]) -> [u8; 8]
    ensures { result ≡ cases_of slots }
{
    array::from_fn(|k| case_of(slots[k]))
}

// The bits of a coordinate's low end, at an even place, or of its high end.
fn end_bits(slots: [Range; 8], i: usize) -> u32
    requires { i < 16 }
    ensures { result
        ≡ cond (eqb (i % 2) 0) (low_bits (range_at slots (i / 2))) (high_bits (range_at slots (i / 2))) }
{
    if i % 2 == 0 {
        low_bits(slots[i / 2])
    } else {
        high_bits(slots[i / 2])
    }
}

// The bits of the low and of the high end of each coordinate.
fn patterns_of(slots: [Range; 8]) -> [u32; 16]
    ensures { result ≡ patterns_of slots }
{
    let mut bits = [0; 16];
    for (i, w) in bits.iter_mut().enumerate() {
        *w = end_bits(slots, i);
    }
    bits
}

fn lengths_right(
    corners: usize,
    start: usize,
    patterns: usize,
    cases: usize,
    numbers: usize,
) -> bool
    ensures { result ≡ ranges_lengths corners start patterns cases numbers }
{
    corners == 16 && start == 8 && patterns == 16 && cases == 8 && numbers == 3
}

// An answer as this interface hands it over.
fn hand_over(
    a: Answer,
    patterns: &mut [u32],
    cases: &mut [u8],
    numbers: &mut [u64],
    value: &mut u64,
) -> u32
    ensures code { result ≡ code_of (answered (outcome_of a.kind)) }
    ensures value { value.new ≡ value_after (answered (outcome_of a.kind)) value.old }
    ensures patterns { patterns.new
        ≡ if_accepted (answered (outcome_of a.kind)) (filled patterns.old (patterns_of a.slots)) patterns.old }
    ensures cases { cases.new
        ≡ if_accepted (answered (outcome_of a.kind)) (filled cases.old (cases_of a.slots)) cases.old }
    ensures numbers { numbers.new
        ≡ if_accepted (answered (outcome_of a.kind)) (filled numbers.old (ranges_numbers a)) numbers.old }
{
    let outcome = outcome_of(a.kind);
    match outcome {
        Ok(_) => {
            fill(patterns, &patterns_of(a.slots));
            fill(cases, &cases_of(a.slots));
            fill(numbers, &[u64::from(a.count), a.open as u64, a.peak as u64]);
            settle(outcome, value)
        }
        Err(_) => settle(outcome, value),
    }
}

// Finds the range of every coefficient, with the rows of a lent table. The value is the kind of the answer; the bits of the ends, the case
// of each coordinate and the numbers go into their buffers.
pub fn ranges(
    store: &[u8],
    n: u8,
    d: u8,
    scale: u8,
    p: u8,
    eps: u32,
    budget: u32,
    ceiling: u64,
    corners: &[i16],
    start: &[i16],
    table: &mut [i16],
    patterns: &mut [u32],
    cases: &mut [u8],
    numbers: &mut [u64],
    value: &mut u64,
) -> u32
    ensures code { result
        ≡ code_of (ranges_call store.now (model_of n d scale p eps) budget ceiling corners.now start.now
        table.old patterns.old cases.old numbers.old) }
    ensures value { value.new
        ≡ value_after (ranges_call store.now (model_of n d scale p eps) budget ceiling corners.now start.now
        table.old patterns.old cases.old numbers.old) value.old }
    ensures patterns { patterns.new
        ≡ patterns_after store.now (model_of n d scale p eps) budget ceiling corners.now start.now
        table.old patterns.old cases.old numbers.old }
    ensures cases { cases.new
        ≡ cases_after store.now (model_of n d scale p eps) budget ceiling corners.now start.now
        table.old patterns.old cases.old numbers.old }
    ensures numbers { numbers.new
        ≡ numbers_after store.now (model_of n d scale p eps) budget ceiling corners.now start.now
        table.old patterns.old cases.old numbers.old }
    ensures table { TableAfterCall store.now (model_of n d scale p eps) budget ceiling corners.now start.now
        table.old patterns.old cases.old numbers.old table.new }
    ensures ranges { result ≡ 0 →
        CertifiedCall store.now (model_of n d scale p eps) budget ceiling corners.now start.now
        table.old patterns.old cases.old numbers.old value.new
        patterns.new cases.new numbers.new }
{
    if !lengths_right(
        corners.len(),
        start.len(),
        patterns.len(),
        cases.len(),
        numbers.len(),
    ) {
        return WRONG_LENGTH;
    }
    let job = job_of(model_of(n, d, scale, p, eps), 0, budget, 0, corners, start);
    hand_over(
        ranges::ranges(store, job, ceiling, table),
        patterns,
        cases,
        numbers,
        value,
    )
}
