// What a store's points make together: for p = 3 a rank of their least sizes, else the sum of their losses.
ghost use Rattle.std.specs.Prelude.{◌≡◌};
ghost use Rattle.points.specs.Points.{points_of};
ghost use Rattle.costs.specs.Inside.{value_of, ValueIn};

use crate::task::Task;
use crate::{ranking, sums};
use eval_lanes::Chunk;

// Of the whole store. Not in its caller, whose refusals would take its stack.
#[inline(never)]
pub fn whole<const OVER: bool>(task: &Task) -> u64
    ensures { result ≡ value_of OVER task.now.model (points_of task.now.store.now) task.now.low task.now.high }
{
    if task.model.p == 3 {
        ranking::rank::<OVER>(task)
    } else {
        sums::sum::<OVER>(task)
    }
}

// Over the lanes of a store that was decoded before, up to a cap.
pub fn up_to<const OVER: bool>(task: &Task, lanes: &[Chunk], cap: u64) -> u64
    ensures { ValueIn OVER task.now.store.now lanes.now task.now.model task.now.low task.now.high cap result }
{
    if task.model.p == 3 {
        ranking::lanes_rank::<OVER>(task, lanes, cap)
    } else {
        sums::lanes_up_to::<OVER>(task, lanes, cap)
    }
}
