// Job records for C.
#![tactic(auto)]

ghost use Rattle.std.specs.Prelude.{◌≡◌, length};
ghost use Rattle.list_rows.specs.Rows.{with_row};
ghost use Rattle.c_buffers.specs.Buffers.{filled};
ghost use Rattle.c_boundary.specs.Boundary.{model_of, code_of};
ghost use Rattle.c_jobs.specs.Calls.{job_numbers, read_job_call, job_numbers_after, corners_after, start_after};
ghost use Rattle.c_jobs.specs.Calls.{write_job_call, job_record_after};

use c_boundary::{WRONG_LENGTH, check_code, job_of, model_of, refusal_code};
use c_buffers::fill;
use jobs::Job;

// A job into its three buffers.
fn lay_job(j: Job, numbers: &mut [u64], corners: &mut [i16], start: &mut [i16])
    ensures numbers { numbers.new ≡ filled numbers.old (job_numbers j) }
    ensures corners { corners.new ≡ with_row corners.old 0 j.domain }
    ensures start { start.new ≡ filled start.old j.start }
    ensures long { length j.start ≡ 8 }
{
    let m = j.model;
    let told = [
        m.n as u64,
        m.d as u64,
        m.scale as u64,
        m.p as u64,
        m.eps as u64,
        j.t,
        j.budget as u64,
        j.rows as u64,
    ];
    fill(start, &j.start);
    list_rows::write_row(corners, 0, j.domain);
    fill(numbers, &told);
}

// Reads the job record in the first 72 bytes.
#[tactic(auto, using(c_buffers::proofs::Buffers::filled_whole))]
pub fn read_job(bytes: &[u8], numbers: &mut [u64], corners: &mut [i16], start: &mut [i16]) -> u32
    ensures code { result
        ≡ code_of (read_job_call bytes.now numbers.old corners.old start.old) }
    ensures numbers { numbers.new
        ≡ job_numbers_after bytes.now numbers.old corners.old start.old }
    ensures corners { corners.new
        ≡ corners_after bytes.now numbers.old corners.old start.old }
    ensures start { start.new
        ≡ start_after bytes.now numbers.old corners.old start.old }
{
    if numbers.len() != 8 || corners.len() != 16 || start.len() != 8 {
        return WRONG_LENGTH;
    }
    match job_records::read_job(bytes) {
        Ok(job) => {
            lay_job(job, numbers, corners, start);
            0
        }
        Err(r) => refusal_code(r),
    }
}

// Writes a job record into the first 72 bytes.
pub fn write_job(
    n: u8,
    d: u8,
    scale: u8,
    p: u8,
    eps: u32,
    t: u64,
    budget: u32,
    rows: u32,
    corners: &[i16],
    start: &[i16],
    bytes: &mut [u8],
) -> u32
    ensures code { result ≡ code_of (write_job_call corners.now start.now bytes.old) }
    ensures bytes { bytes.new
        ≡ job_record_after (model_of n d scale p eps) t budget rows corners.now start.now bytes.old }
{
    if corners.len() != 16 || start.len() != 8 {
        return WRONG_LENGTH;
    }
    let m = model_of(n, d, scale, p, eps);
    let job = job_of(m, t, budget, rows, corners, start);
    check_code(job_records::write_job(job, bytes))
}
