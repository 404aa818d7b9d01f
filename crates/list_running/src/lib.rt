// The open boxes while a search runs. The first rows of the table hold boxes, but for those that were taken out since: a row is gone where
// its entry says so. The newest boxes are late: they stand in a short table of their own, with a list of their bounds beside it. So a split
// moves few rows; those of the table close up where the late ones are moved in.
#![tactic(auto)]

ghost use Rattle.std.specs.Prelude.{◌≡◌};
ghost use Rattle.list_blocks.specs.Blocks.{gone};
ghost use Rattle.list_running.specs.Listing.{spot_in, FoundBy, SettledBy, TakenBy};

use incumbent::Mark;
use list_blocks::{Blocks, GONE, Spot};
use list_first_smallest::{Lowest, lower_bound};
use list_open_boxes::take_out;

// The memory that a search lends for its late boxes: their short table, and the list of their bounds beside it.
#[derive(Clone, Copy, Debug, PartialEq, Eq)]
pub struct LateBoxes {
    pub rows: [i16; 2048],
    pub bounds: [u64; 128],
}

// How many rows of the table are in use, gone ones too; how many boxes are late, and the first smallest of their bounds; how many boxes
// are open in all. What is known of the late boxes stands here, not beside their memory: this is copied, that is not.
#[derive(Clone, Copy, Debug, PartialEq, Eq)]
pub struct Listing {
    pub rows: usize,
    pub late: usize,
    pub near: Lowest,
    pub number: usize,
}

// The first box with the smallest bound: a row of the table or a late one, with L.
#[derive(Clone, Copy, Debug, PartialEq, Eq)]
pub enum Found {
    Row(Spot),
    Late(Lowest),
}

impl Found {
    // L.
    pub fn bound(self) -> u64
        ensures { result ≡ (spot_in self).bound }
    {
        match self {
            Found::Row(spot) => spot.bound,
            Found::Late(near) => near.bound,
        }
    }
}

impl Listing {
    // The first rows of the table, all of them open, and no late box.
    pub fn of_rows(rows: usize) -> Listing
        ensures { result ≡ record { rows = rows; late = 0; near = record { at = 0; bound = gone }; number = rows } }
    {
        Listing {
            rows,
            late: 0,
            near: Lowest { at: 0, bound: GONE },
            number: rows,
        }
    }

    // The first box with the smallest bound. Where no box is open L is the cost. Of equal bounds that in the table is the first: late
    // boxes are the last of the list.
    pub fn lowest(self, leasts: &Blocks, cost: u64) -> Found
        ensures { FoundBy leasts.now self cost result }
    {
        let far = leasts.lowest();
        if self.number == 0 {
            return Found::Row(Spot {
                at: 0,
                block: 0,
                bound: cost,
            });
        }
        if self.near.bound < far.bound {
            return Found::Late(self.near);
        }
        Found::Row(far)
    }

    // Takes out the box that was found. A row of the table is gone then, and no other moves.
    #[tactic(auto, using(crate::proofs::Entries::one_answer))]
    pub fn take(
        self,
        bounds: &mut [u64],
        leasts: &mut Blocks,
        late: &mut [i16],
        beside: &mut [u64],
        found: Found,
    ) -> Listing
        ensures { TakenBy bounds.old leasts.old late.old beside.old self found
            result bounds.new leasts.new late.new beside.new }
    {
        let number = self.number.saturating_sub(1);
        match found {
            Found::Row(spot) => {
                leasts.take_away(bounds, self.rows, spot);
                Listing { number, ..self }
            }
            Found::Late(spot) => {
                let left = take_out(late, beside, self.late, spot.at);
                Listing {
                    late: left,
                    near: lower_bound(&beside[..left], GONE),
                    number,
                    ..self
                }
            }
        }
    }

    // Makes the first rows of the table hold all boxes that are kept, in list order.
    pub fn settle(
        self,
        table: &mut [i16],
        bounds: &mut [u64],
        leasts: &mut Blocks,
        late: &[i16],
        beside: &[u64],
        mark: Mark,
    ) -> Listing
        ensures { SettledBy table.old bounds.old leasts.old late.now beside.now
            self mark result table.new bounds.new leasts.new }
    {
        let rows = list_open_boxes::settle(table, bounds, self.rows, late, beside, self.late, mark);
        leasts.find(bounds, rows);
        Listing::of_rows(rows)
    }
}
