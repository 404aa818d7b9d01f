// What a step does to the list: the box that was found goes, the others that are kept stay, and its halves that are kept follow.
#![tactic(auto)]

ghost use Rattle.std.specs.Prelude.{◌≡◌};
ghost use Rattle.incumbent.specs.Incumbent.{ahead_of};
ghost use Rattle.list_running.specs.Listing.{spot_in, box_in, nearer};
ghost use Rattle.replacing.specs.Replacing.{memory, put_late, put_row, put_entry, too_many, RoomMade, ReplacedBy};

use boxes::Box;
use branching::Branches;
use incumbent::{Child, Mark, ahead};
use list_blocks::{Blocks, GONE};
use list_first_smallest::Lowest;
use list_open_boxes::keeping;
use list_running::{Found, Listing};

// How many late boxes leave room for the halves of one more: there are 128 late rows.
const LATE: usize = 126;

// The box that was found.
pub fn box_found(table: &[i16], late: &[i16], found: Found) -> Box
    ensures { result ≡ box_in table.now late.now found }
{
    match found {
        Found::Row(spot) => list_rows::read_row(table, spot.at),
        Found::Late(spot) => list_rows::read_row(late, spot.at),
    }
}

// Whether it would be kept itself.
fn kept_itself(table: &[i16], late: &[i16], found: Found, mark: Mark) -> bool
    ensures { result ≡ ahead_of mark (spot_in found).bound (box_in table.now late.now found).low }
{
    let b = box_found(table, late, found);
    ahead(mark, found.bound(), b.low)
}

// The first smallest of the late bounds, where there is one more.
fn nearest(near: Lowest, at: usize, x: u64) -> Lowest
    ensures { result ≡ nearer near at x }
{
    if x < near.bound {
        Lowest { at, bound: x }
    } else {
        near
    }
}

// Puts a box that is kept behind the list, if there is room for one more late box.
pub fn add(late: &mut [i16], beside: &mut [u64], list: Listing, child: Child) -> Listing
    ensures list { result ≡ put_late late.old beside.old list child }
    ensures late { late.new ≡ put_row late.old beside.old list child }
    ensures beside { beside.new ≡ put_entry late.old beside.old list child }
{
    if list.number == GONE as usize {
        return list;
    }
    let end = list_open_boxes::put(late, beside, list.late, child);
    if end == list.late {
        return list;
    }
    Listing {
        rows: list.rows,
        late: end,
        near: nearest(list.near, list.late, child.bound),
        number: list.number + 1,
    }
}

// Whether more boxes would remain than there is room for. They are counted only where there may be too many: where best stays, so do all
// others, and it is known how many; else the box that was found is one too many, if it is kept itself.
#[tactic(auto, using(list_open_boxes::proofs::Picking::number_few, list_open_boxes::proofs::Picking::one_at_most, crate::proofs::Counting::too_long, crate::proofs::Counting::enough, crate::proofs::Counting::all_stay, crate::proofs::Counting::counted))]
fn too_many(
    table: &[i16],
    bounds: &[u64],
    late: &[i16],
    beside: &[u64],
    list: Listing,
    found: Found,
    br: Branches,
) -> bool
    ensures { result
        ≡ too_many table.now bounds.now late.now beside.now list found br }
{
    let room = table.len() / 16;
    let more = br.left.kept as usize + br.right.kept as usize;
    if room < list.number {
        return true;
    }
    if list.number + more <= room + 1 {
        return false;
    }
    if br.stays {
        return true;
    }
    let own = kept_itself(table, late, found, br.mark) as usize;
    let kept = keeping(table, bounds, list.rows, br.mark)
        + keeping(late, beside, list.late, br.mark);
    room + own < kept + more
}

// Where some boxes may not be kept, or there is no room for two more late ones, all that are kept move into the table.
fn make_room(
    table: &mut [i16],
    bounds: &mut [u64],
    leasts: &mut Blocks,
    late: &[i16],
    beside: &[u64],
    list: Listing,
    br: Branches,
) -> Listing
    ensures { RoomMade (memory table.old bounds.old leasts.old late.now beside.now)
        list br.mark br.stays result
        (memory table.new bounds.new leasts.new late.now beside.now) }
{
    if br.stays && list.late <= LATE {
        return list;
    }
    list.settle(table, bounds, leasts, late, beside, br.mark)
}

// Takes out the box that was found and those that are not kept, and puts its halves behind the others. Where more would remain than the
// table has rows nothing is written, and there is no list.
#[tactic(auto, using(list_rows::proofs::Rows::Whole, list_running::proofs::Entries::one_answer, crate::proofs::Adding::two_added, crate::proofs::Replacing::added_long, crate::proofs::Replacing::late_long, crate::proofs::Replacing::entries_long, crate::proofs::Replacing::room_long))]
pub fn replace(
    table: &mut [i16],
    bounds: &mut [u64],
    leasts: &mut Blocks,
    late: &mut [i16],
    beside: &mut [u64],
    list: Listing,
    found: Found,
    br: Branches,
) -> Option<Listing>
    ensures { ReplacedBy (memory table.old bounds.old leasts.old late.old beside.old)
        list found br result
        (memory table.new bounds.new leasts.new late.new beside.new) }
{
    if too_many(table, bounds, late, beside, list, found, br) {
        return None;
    }
    let taken = list.take(bounds, leasts, late, beside, found);
    let ready = make_room(table, bounds, leasts, late, beside, taken, br);
    let one = add(late, beside, ready, br.left);
    Some(add(late, beside, one, br.right))
}
