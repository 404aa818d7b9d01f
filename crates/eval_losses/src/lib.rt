// Losses of a chunk's sizes, and their sums.
#![tactic(auto)]

ghost use Rattle.std.specs.Prelude.{cond, ◌≡◌, ℕ, ◌≤◌, ◌<◌, pos};
ghost use Rattle.std.specs.Float.{binary64};
ghost use Rattle.std.specs.Float.Ieee.{mul, lt, of_int};
ghost use Rattle.eval_whole.specs.Whole.{smaller_of, zeroth, oneth};
ghost use Rattle.eval_lanes.specs.Lanes.{lane};
ghost use Rattle.eval_losses.specs.Losses.{loss_in, group_sum, group_sums, chunk_sum};

use eval_lanes::Lanes;
use eval_whole::{count, smaller};

fn over(eps: f64, size: f64) -> f64
    ensures { result ≡ cond (lt eps size) oneth zeroth }
{
    if eps < size { 1.0 } else { 0.0 }
}

// The smaller first, then its square: e² itself may not be exact.
fn cut_square(eps: f64, size: f64) -> f64
    ensures { result ≡ mul binary64 (smaller_of eps size) (smaller_of eps size) }
{
    let cut = smaller(eps, size);
    cut * cut
}

// p is a byte: so the interface for C has it, and so `loss_in` says it.
#[tactic(auto, unfolding(crate::specs::Losses::loss_in))]
fn loss(p: u8, eps: f64, size: f64) -> f64
    ensures { result ≡ loss_in p eps size }
{
    match p {
        0 => over(eps, size),
        1 => smaller(eps, size),
        2 => cut_square(eps, size),
        // p = 3 goes by rank, and check 4 refuses the others
        3..=255 => 0.0,
    }
}

// Each size becomes its loss. p is the same in every turn, so the compiler makes a loop for each p.
pub fn lose(sizes: &mut Lanes, p: u8, eps: u32)
    ensures { (k : ℕ) → k < 80 → lane sizes.new k ≡ loss_in p (of_int binary64 (pos eps)) (lane sizes.old k) }
{
    let cut = eps as f64;
    for size in sizes.iter_mut() {
        *size = loss(p, cut, *size);
    }
}

// The sum of the group of twenty from place o on, by pairs: two sums side by side, which the compiler keeps in one register.
#[tactic(auto, using(eval_whole::proofs::Counting::count_small))]
fn group_sum(losses: &Lanes, o: usize) -> u64
    requires { o ≤ 60 }
    ensures { result ≡ group_sum (lane losses.now) o }
{
    let mut even = 0.0;
    let mut odd = 0.0;
    for [a, b] in losses[o..o + 20].as_chunks::<2>().0 {
        even += *a;
        odd += *b;
    }
    count(even) + count(odd)
}

// The sums of the four groups. Four calls: a closure over the places would repeat the clauses of `group_sum`.
pub fn group_sums(losses: &Lanes) -> [u64; 4]
    ensures { result ≡ group_sums (lane losses.now) }
{
    [
        group_sum(losses, 0),
        group_sum(losses, 20),
        group_sum(losses, 40),
        group_sum(losses, 60),
    ]
}

// The sum of a chunk's losses, by groups and then of the groups; each size becomes its loss.
pub fn total(sizes: &mut Lanes, p: u8, eps: u32) -> u64
    ensures lanes { (k : ℕ) → k < 80 →
        lane sizes.new k ≡ loss_in p (of_int binary64 (pos eps)) (lane sizes.old k) }
    ensures value { result ≡ chunk_sum (λ k. loss_in p (of_int binary64 (pos eps)) (lane sizes.old k)) }
    ensures small { result < 36028797018963968 }
{
    lose(sizes, p, eps);
    let sums = group_sums(sizes);
    sums.iter().sum()
}
