// The program bus: reads a store and a driver's accesses from standard input and writes a byte for each read.
#![tactic(auto)]

use std::env::{Env, FillError};
use streams::{read_full, space};

// Says that the program takes no argument, where it was given one.
fn usage(rt: &(impl Env + Eprint)) -> bool {
    let given = !matches!(rt.arg(1, &mut [0; 1]), Err(FillError::NotPresent));
    if given {
        let _ = eprintln!(rt;
            "usage: bus < INPUT, a store's number of records, the store, and accesses of 4 bytes; bus takes no argument"
        );
    }
    given
}

// Says that the input is longer than the program takes, where it is.
fn too_long(rt: &impl Eprint, n: usize) -> bool {
    let long = n == 114_691;
    if long {
        let _ = eprintln!(rt; "bus: the input is longer than 114,690 bytes");
    }
    long
}

// Writes the replies, or says on standard error that they could not be written.
fn put(rt: &(impl Print + Eprint), replies: &[u8]) {
    if rt.write_all(replies).is_err() {
        let _ = eprintln!(rt; "bus: the replies could not be written");
    }
}

fn main(rt: HostRuntime) {
    if usage(&rt) {
        return;
    }
    // One byte more than the longest input, so that a longer one shows: two bytes, 4,096 records and 16,384 accesses.
    let mut input: [u8; 114691] = space(0);
    // A reply to each access that such an input can have.
    let mut replies: [u8; 28672] = space(0);
    let n = read_full(&mut rt.stdin(), &mut input);
    if too_long(&rt, n) {
        return;
    }
    let k = bus_exchange::exchange(&input[..n], &mut replies);
    put(&rt, &replies[..k]);
}
