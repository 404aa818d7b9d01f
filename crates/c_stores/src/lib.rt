// Stores made from what was received, for C: a beacon taken in, two stores made one.
#![tactic(auto)]

ghost use Rattle.std.specs.Prelude.{◌≡◌};
ghost use Rattle.beacon.specs.Beacon.{store_after};
ghost use Rattle.c_boundary.specs.Boundary.{code_of, value_after};
ghost use Rattle.merge.specs.Merge.{output_after};
ghost use Rattle.c_stores.specs.Calls.{merge_call, take_in_call};

use c_boundary::settle;

// Takes a beacon in behind the first `mark` bytes of the store; the value is the new mark.
pub fn take_in(store: &mut [u8], mark: usize, beacon: &[u8], value: &mut u64) -> u32
    ensures code { result ≡ code_of (take_in_call store.old mark beacon.now) }
    ensures value { value.new
        ≡ value_after (take_in_call store.old mark beacon.now) value.old }
    ensures store { store.new ≡ store_after store.old mark beacon.now }
{
    settle(beacon::take_in(store, mark, beacon), value)
}

// The union of both stores' records into the front of the output; the value is its length in bytes.
pub fn merge(first: &[u8], second: &[u8], out: &mut [u8], value: &mut u64) -> u32
    ensures code { result ≡ code_of (merge_call first.now second.now out.old) }
    ensures value { value.new
        ≡ value_after (merge_call first.now second.now out.old) value.old }
    ensures output { out.new ≡ output_after first.now second.now out.old }
{
    settle(merge::merge(first, second, out), value)
}
