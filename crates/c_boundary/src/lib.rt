// What the calls for C have in common: a model and a job out of numbers and buffers, and an outcome as a code and a lent number.
#![tactic(auto)]

ghost use Rattle.std.specs.Prelude.{◌≡◌, true, Err};
ghost use Rattle.c_boundary.specs.Boundary.{model_of, job_from, answered, check_call, stray_record, code_of, value_after};

use codes::Refusal;
use jobs::{Job, Model};

// A buffer of the wrong length: no number of the paper.
pub const WRONG_LENGTH: u32 = 255;

// The record's number that a refusal carries, or 0.
fn stray_record(r: Refusal) -> usize
    ensures { result ≡ stray_record r }
{
    match r {
        Refusal::Stray(record) => record,
        _ => 0,
    }
}

// The code of a refusal: its number, and above it the record's.
pub fn refusal_code(r: Refusal) -> u32
    ensures { result ≡ code_of (answered (Err r)) }
{
    u8::from(r) as u32 + 256 * ((stray_record(r) % 16_777_216) as u32)
}

// The code of a call that answers no number.
pub fn check_code(c: Result<(), Refusal>) -> u32
    ensures { result ≡ code_of (check_call true c) }
{
    match c {
        Ok(()) => 0,
        Err(r) => refusal_code(r),
    }
}

// An outcome as this interface hands it over: the value goes into the lent number, which a refusal keeps.
pub fn settle(o: Result<u64, Refusal>, value: &mut u64) -> u32
    ensures code { result ≡ code_of (answered o) }
    ensures value { value.new ≡ value_after (answered o) value.old }
{
    match o {
        Ok(v) => {
            *value = v;
            0
        }
        Err(r) => refusal_code(r),
    }
}

pub fn model_of(n: u8, d: u8, scale: u8, p: u8, eps: u32) -> Model
    ensures { result ≡ model_of n d scale p eps }
{
    Model {
        n,
        d,
        scale,
        p,
        eps,
    }
}

pub fn job_of(m: Model, t: u64, budget: u32, rows: u32, corners: &[i16], start: &[i16]) -> Job
    ensures { result ≡ job_from m t budget rows corners.now start.now }
{
    Job {
        model: m,
        t,
        budget,
        rows,
        domain: list_rows::read_row(corners, 0),
        start: c_buffers::vector_of(start),
    }
}
