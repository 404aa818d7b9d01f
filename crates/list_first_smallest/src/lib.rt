// The first smallest of the numbers of a list.
#![tactic(auto)]

ghost use Rattle.std.specs.Prelude.{length};
ghost use Rattle.list_first_smallest.specs.FirstSmallest.{LowestOf};

// The place of the first smallest entry and the entry, L: of boxes, the first with the smallest bound; where the list is empty, L is the
// cost.
#[derive(Clone, Copy, Debug, PartialEq, Eq)]
pub struct Lowest {
    pub at: usize,
    pub bound: u64,
}

// L of a list, and its place. The compiler makes no jump of the test, which in short lists would often be guessed wrong.
#[tactic(auto, using(crate::proofs::Least::least_start, crate::proofs::Least::least_new, crate::proofs::Least::least_kept))]
pub fn lower_bound(bounds: &[u64], cost: u64) -> Lowest
    ensures { LowestOf bounds.now (length bounds.now) cost result }
{
    if bounds.is_empty() {
        return Lowest { at: 0, bound: cost };
    }
    let mut low = bounds[0];
    let mut at = 0;
    // By places: `min_by_key` does not promise the first of equals.
    for i in 1..bounds.len() {
        let x = bounds[i];
        if x < low {
            low = x;
            at = i;
        }
    }
    Lowest { at, bound: low }
}
