// Job records: from a job to its 72 bytes and back.
#![tactic(auto)]

ghost use Rattle.std.specs.Prelude.{◌≡◌, ◌≤◌, length};
ghost use Rattle.integers.specs.Lists.{over};
ghost use Rattle.fields.specs.Buffers.{check_room, written};
ghost use Rattle.job_records.specs.Jobs.{job_bytes, job_of, job_or_zeros, read_job};

use boxes::Box;
use codes::Refusal;
use fields::{check_room, get_number, get_number32, get_vector, put_number, put_vector};
use jobs::{Job, Model};

// The fields of the first 72 bytes.
#[tactic(auto, using(fields::proofs::BigEndian::number_inside, fields::proofs::Vectors::vector_inside), unfolding(crate::specs::Jobs::job_of))]
fn get_job(bytes: &[u8]) -> Job
    requires { 72 ≤ length bytes.now }
    ensures { result ≡ job_of bytes.now }
{
    Job {
        model: Model {
            n: bytes[0],
            d: bytes[1],
            scale: bytes[2],
            p: bytes[3],
            eps: get_number32(bytes, 4),
        },
        t: get_number(bytes, 8, 8),
        budget: get_number32(bytes, 16),
        rows: get_number32(bytes, 20),
        domain: Box {
            low: get_vector(bytes, 24),
            high: get_vector(bytes, 40),
        },
        start: get_vector(bytes, 56),
    }
}

// The fields into the first 72 bytes.
fn put_job(job: Job, bytes: &mut [u8])
    requires { 72 ≤ length bytes.old }
    ensures { bytes.new ≡ over (job_bytes job) bytes.old }
{
    let model = job.model;
    bytes[..4].copy_from_slice(&[model.n, model.d, model.scale, model.p]);
    put_number(bytes, 4, 4, u64::from(model.eps));
    put_number(bytes, 8, 8, job.t);
    put_number(bytes, 16, 4, u64::from(job.budget));
    put_number(bytes, 20, 4, u64::from(job.rows));
    put_vector(bytes, 24, job.domain.low);
    put_vector(bytes, 40, job.domain.high);
    put_vector(bytes, 56, job.start);
}

// The job of the first 72 bytes; what follows them is no part of it.
#[tactic(auto, unfolding(crate::specs::Jobs::read_job))]
pub fn read_job(bytes: &[u8]) -> Result<Job, Refusal>
    ensures { result ≡ read_job bytes.now }
{
    if bytes.len() < 72 {
        return Err(Refusal::Length);
    }
    Ok(get_job(bytes))
}

// The same, and of fewer bytes a job of zeros, which every search refuses.
#[tactic(auto, unfolding(crate::specs::Jobs::read_job, crate::specs::Jobs::job_or_zeros))]
pub fn job_or_zeros(bytes: &[u8]) -> Job
    ensures { result ≡ job_or_zeros bytes.now }
{
    let zeros = [0; 8];
    read_job(bytes).unwrap_or(Job {
        model: Model {
            n: 0,
            d: 0,
            scale: 0,
            p: 0,
            eps: 0,
        },
        t: 0,
        budget: 0,
        rows: 0,
        domain: Box {
            low: zeros,
            high: zeros,
        },
        start: zeros,
    })
}

// The job record in the first 72 bytes.
pub fn write_job(job: Job, out: &mut [u8]) -> Result<(), Refusal>
    ensures check { result ≡ check_room 72 out.old }
    ensures bytes { out.new ≡ written result (job_bytes job) out.old }
{
    check_room(72, out)?;
    put_job(job, out);
    Ok(())
}
