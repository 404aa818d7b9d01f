// "Both polarisations in one store": two stores of a pass, each with strictly rising frame numbers, made one.
#![tactic(auto)]

mod write;

ghost use Rattle.std.specs.Prelude.{◌≡◌};
ghost use Rattle.merge.specs.Merge.{merge_answer, output_after};

use codes::Refusal;
use fields::check_room;

// The union of both stores' records at the front of the output, and its length in bytes. Nothing is written before all checks have passed.
#[tactic(auto, using(crate::proofs::Laws::counted, frames::proofs::Passed::both_whole), unfolding(crate::specs::Merge::merge_answer, crate::specs::Merge::output_after, crate::specs::Merge::check_merge, frames::specs::Frames::union_answer, codes::specs::Codes::in_order))]
pub fn merge(first: &[u8], second: &[u8], out: &mut [u8]) -> Result<u64, Refusal>
    ensures outcome { result ≡ merge_answer first.now second.now out.old }
    ensures output { out.new ≡ output_after first.now second.now out.old }
{
    let bytes = frames::check_both(first, second)?;
    check_room(bytes as usize, out)?;
    write::write(first, second, out, bytes as usize);
    Ok(bytes)
}
