// The sum of a store's losses, chunk after chunk.
ghost use Rattle.std.specs.Prelude.{◌≡◌};
ghost use Rattle.points.specs.Points.{points_of};
ghost use Rattle.residuals.specs.Cost.{total_loss};
ghost use Rattle.costs.specs.Inside.{sizes_by, SumIn};

use crate::task::Task;
use eval_kernel::coordinates;
use eval_lanes::{Chunk, chunk_of};

// Of the whole store, each chunk decoded into one that is used again.
pub fn sum<const OVER: bool>(task: &Task) -> u64
    ensures { result ≡ total_loss task.now.model (sizes_by OVER task.now.model task.now.low task.now.high) (points_of task.now.store.now) }
{
    let m = task.model;
    let power = scale::power(m.scale);
    let from = coordinates(task.low);
    let to = coordinates(task.high);
    // Not 0, so that the compiler lays the chunk at a multiple of 16 bytes.
    let mut chunk = chunk_of(1.0);
    let mut total: u64 = 0;
    for t in 0..eval_columns::chunk_count(task.store.len(), 54) {
        eval_columns::decode_chunk(&mut chunk, task.store, t as u8, m.d, power);
        total += eval_kernel::chunk_loss::<OVER>(&chunk, &from, &to, m);
    }
    total
}

// Over the lanes of a store that was decoded before, up to a cap that is looked at once a chunk.
pub fn lanes_up_to<const OVER: bool>(task: &Task, lanes: &[Chunk], cap: u64) -> u64
    ensures { SumIn OVER task.now.store.now lanes.now task.now.model task.now.low task.now.high cap result }
{
    let from = coordinates(task.low);
    let to = coordinates(task.high);
    let mut total: u64 = 0;
    for t in 0..eval_columns::chunk_count(task.store.len(), lanes.len()) {
        if cap <= total {
            return cap;
        }
        total += eval_kernel::chunk_loss::<OVER>(&lanes[t], &from, &to, task.model);
    }
    total.min(cap)
}
