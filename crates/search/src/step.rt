// One step of the search: the first box with the smallest bound is cut, and its halves take its place in the list.
ghost use Rattle.std.specs.Prelude.{◌≡◌};
ghost use Rattle.points.specs.Points.{points_of};
ghost use Rattle.residuals.specs.Cost.{bound, cost};
ghost use Rattle.branching.specs.Branching.{Evaluable};
ghost use Rattle.replacing.specs.Replacing.{memory};
ghost use Rattle.search.specs.Inside.{Steppable, StepOutcome};

use branching::cut_box;
use eval_lanes::Chunk;
use incumbent::Mark;
use jobs::Model;
use list_blocks::Blocks;
use list_running::{Found, LateBoxes, Listing};
use replacing::{box_found, replace};

// The state of a search but for what stands in the tables.
#[derive(Clone, Copy)]
pub struct State {
    pub mark: Mark,
    pub list: Listing,
    pub count: u32,
    pub peak: usize,
}

// Splits the box that was found, the first with the smallest bound: the state after one more split. Where there is no room for it nothing
// is written.
pub fn step(
    store: &[u8],
    lanes: &[Chunk],
    m: Model,
    table: &mut [i16],
    bounds: &mut [u64],
    leasts: &mut Blocks,
    late: &mut LateBoxes,
    s: State,
    found: Found,
) -> Option<State>
    requires { Evaluable store.now lanes.now m
        × Steppable (cost m (points_of store.now)) (bound m (points_of store.now))
        (memory table.old bounds.old leasts.old late.old.rows late.old.bounds) s found }
    ensures { StepOutcome (cost m (points_of store.now)) (bound m (points_of store.now))
        (memory table.old bounds.old leasts.old late.old.rows late.old.bounds) s result
        (memory table.new bounds.new leasts.new late.new.rows late.new.bounds) }
{
    let mark = s.mark;
    let b = box_found(table, &late.rows, found);
    let br = cut_box(store, lanes, m, b, mark, s.count == 0);
    let list = replace(
        table,
        bounds,
        leasts,
        &mut late.rows,
        &mut late.bounds,
        s.list,
        found,
        br,
    )?;
    Some(State {
        mark: br.mark,
        list,
        count: s.count + 1,
        peak: s.peak.max(list.number),
    })
}
