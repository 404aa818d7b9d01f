// The first smallest of many numbers, of which some were taken out, by blocks of which each has its first smallest known: these are read,
// and where one is taken out the numbers of its block.
#![tactic(auto)]

ghost use Rattle.std.specs.Prelude.{◌≡◌, ◌≤◌, ◌<◌, min, length};
ghost use Rattle.list_blocks.specs.Blocks.{block_start, width_of, InBlock, LeastsFound, SpotOf, TakenAway};

use list_first_smallest::{Lowest, lower_bound};

// What stands in the place of a number that was taken out: none is larger.
pub const GONE: u64 = 18446744073709551615;

// At most 64 blocks, `count` of them: the least number of each, and the place of the first number of each that is as small. The leasts
// stand in an array of their own, since the search for the smallest reads them alone.
#[derive(Clone, Copy, Debug, PartialEq, Eq)]
pub struct Blocks {
    pub count: usize,
    pub leasts: [u64; 64],
    pub places: [usize; 64],
}

// The place of the first smallest number, its block, and the number.
#[derive(Clone, Copy, Debug, PartialEq, Eq)]
pub struct Spot {
    pub at: usize,
    pub block: usize,
    pub bound: u64,
}

// How many of n numbers stand in a block.
fn width(n: usize) -> usize
    ensures { result ≡ width_of n }
{
    n / 64 + 16
}

// Where block j of n numbers begins; behind the last, n.
fn begins(n: usize, j: usize) -> usize
    requires { (j ≤ 64) × (n < 2305843009213693952) }
    ensures { result ≡ block_start n j }
{
    (j * width(n)).min(n)
}

// The first smallest number of block j, and its place in the list. n stands beside the numbers: the list that is
// lent is longer than what is listed of it.
fn in_block(bounds: &[u64], n: usize, j: usize) -> Lowest
    requires { (n ≤ length bounds.now) × (j < 64) }
    ensures { InBlock bounds.now n j result.at result.bound }
{
    let from = begins(n, j);
    let end = begins(n, j + 1);
    let found = lower_bound(&bounds[from..end], GONE);
    Lowest {
        at: from + found.at,
        bound: found.bound,
    }
}

impl Blocks {
    // Finds the first smallest of each block of the first n numbers.
    pub fn find(&mut self, bounds: &[u64], n: usize)
        ensures { LeastsFound bounds.now (min n (length bounds.now)) self.old self.new }
    {
        let listed = n.min(bounds.len());
        let count = listed.div_ceil(width(listed));
        for j in 0..count {
            let found = in_block(bounds, listed, j);
            self.leasts[j] = found.bound;
            self.places[j] = found.at;
        }
        self.count = count;
    }

    // The first smallest number of all blocks.
    pub fn lowest(&self) -> Spot
        ensures { SpotOf self.now result }
    {
        let found = lower_bound(&self.leasts[..self.count.min(64)], GONE);
        let block = found.at;
        Spot {
            at: self.places[block],
            block,
            bound: found.bound,
        }
    }

    // Takes a number out, and finds the first smallest of its block again.
    pub fn take_away(&mut self, bounds: &mut [u64], n: usize, spot: Spot)
        ensures { TakenAway bounds.old (min n (length bounds.old)) self.old spot
            bounds.new self.new }
    {
        let at = spot.at;
        let block = spot.block;
        if at < bounds.len() {
            bounds[at] = GONE;
        }
        if block < 64 {
            let found = in_block(bounds, n.min(bounds.len()), block);
            self.leasts[block] = found.bound;
            self.places[block] = found.at;
        }
    }
}
