// Splitting one box for C.
#![tactic(auto)]

ghost use Rattle.std.specs.Prelude.{◌≡◌};
ghost use Rattle.c_boundary.specs.Boundary.{code_of};
ghost use Rattle.c_split.specs.Calls.{split_lengths, split_call, halves_after};

use c_boundary::{WRONG_LENGTH, refusal_code};

fn lengths_right(corners: usize, halves: usize) -> bool
    ensures { result ≡ split_lengths corners halves }
{
    corners == 16 && 32 <= halves
}

// Splits one box; the left half goes into the first row of `halves`, the right one into the second.
#[tactic(auto, unfolding(crate::specs::Calls::split_call, crate::specs::Calls::halves_after))]
pub fn split(n: u8, d: u8, corners: &[i16], halves: &mut [i16]) -> u32
    ensures code { result ≡ code_of (split_call n d corners.now halves.old) }
    ensures halves { halves.new ≡ halves_after n d corners.now halves.old }
{
    if !lengths_right(corners.len(), halves.len()) {
        return WRONG_LENGTH;
    }
    match boxes::split(n, d, list_rows::read_row(corners, 0)) {
        Ok(cut) => {
            list_rows::write_row(halves, 0, cut.left);
            list_rows::write_row(halves, 1, cut.right);
            0
        }
        Err(r) => refusal_code(r),
    }
}
