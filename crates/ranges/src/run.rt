// The run of a search for ranges: its beginning, and step after step to its end.
ghost use Rattle.std.specs.Prelude.{◌≡◌, ◌≤◌, ◌<◌};
ghost use Rattle.boxes.specs.Boxes.{volume};
ghost use Rattle.points.specs.Points.{points_of};
ghost use Rattle.residuals.specs.Cost.{bound, cost};
ghost use Rattle.list_rows.specs.Rows.{row_count};
ghost use Rattle.range_search.specs.RangeSearch.{begin};
ghost use Rattle.branching.specs.Branching.{Evaluable};
ghost use Rattle.ranges.specs.Ranges.{ranges_in};
ghost use Rattle.ranges.specs.Inside.{state_in, Limited, Begun, Ended};

use crate::Kind;
use crate::step::{State, costed, push, step, test};
use boxes::Box;
use branching::just_above;
use eval_lanes::Chunk;
use jobs::{Job, Model};

// What the steps come to.
#[derive(Clone, Copy, Debug, PartialEq, Eq)]
pub struct End {
    pub kind: Kind,
    pub state: State,
}

// The given box is open if it is kept, and costed if it is one vector.
pub fn begin(
    store: &[u8],
    lanes: &[Chunk],
    m: Model,
    ceiling: u64,
    table: &mut [i16],
    domain: Box,
) -> State
    requires { Evaluable store.now lanes.now m × (1 ≤ row_count table.old) × (1 ≤ volume domain)
        × (bound m (points_of store.now) domain < 18446744073709551615) }
    ensures { Begun (cost m (points_of store.now)) (bound m (points_of store.now)) ceiling domain table.old
        result table.new }
{
    let x = costs::bound_in(store, lanes, m, domain, just_above(ceiling));
    let given = test(domain, x, ceiling);
    push(table, 0, domain, given.is_kept());
    let number = usize::from(given.is_kept());
    State {
        hull: costed(None, domain, given.is_counted()),
        open: number,
        count: 0,
        peak: number,
    }
}

// Step after step, from the beginning: finished where no box is open, (b) spent, and `step` is (c).
pub fn steps(
    store: &[u8],
    lanes: &[Chunk],
    job: Job,
    ceiling: u64,
    table: &mut [i16],
    first: State,
) -> End
    requires evaluable { Evaluable store.now lanes.now job.model × (1 ≤ row_count table.old) × (1 ≤ volume job.domain)
        × Limited (bound job.model (points_of store.now)) job.domain }
    requires first_value { state_in table.old first
        ≡ begin (cost job.model (points_of store.now)) (bound job.model (points_of store.now)) ceiling job.domain }
    ensures { Ended (ranges_in store.now job ceiling (row_count table.old)) table.old result table.new }
{
    let mut s = first;
    loop {
        if s.open == 0 {
            return End {
                kind: Kind::Finished,
                state: s,
            };
        }
        if s.count == job.budget {
            return End {
                kind: Kind::Spent,
                state: s,
            };
        }
        match step(store, lanes, job.model, ceiling, table, s) {
            Some(next) => s = next,
            None => {
                return End {
                    kind: Kind::Full,
                    state: s,
                };
            }
        }
    }
}
