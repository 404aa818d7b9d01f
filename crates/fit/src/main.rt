// The program fit: reads a job record and a store from standard input and writes one line.
#![tactic(auto)]

use std::env::{Env, FillError};
use streams::{read_full, space};

// Says that the program takes no argument, where it was given one.
fn usage(rt: &(impl Env + Eprint)) -> bool {
    let given = !matches!(rt.arg(1, &mut [0; 1]), Err(FillError::NotPresent));
    if given {
        let _ = eprintln!(rt;
            "usage: fit < INPUT, a job record and a store; fit takes no argument"
        );
    }
    given
}

// Writes the line, or says on standard error that it could not be written.
fn put(rt: &(impl Print + Eprint), line: &[u8]) {
    if rt.write_all(line).is_err() {
        let _ = eprintln!(rt; "fit: the line could not be written");
    }
}

fn main(rt: HostRuntime) {
    if usage(&rt) {
        return;
    }
    // One byte more than the longest input, so that a longer one shows; 2,048 rows and their bounds.
    let mut input: [u8; 49225] = space(0);
    let mut table: [i16; 32768] = space(0);
    let mut bounds: [u64; 2048] = space(0);
    let mut line: [u8; 200] = space(0);
    let n = read_full(&mut rt.stdin(), &mut input);
    let k = fit_line::report(&input[..n], &mut table, &mut bounds, &mut line);
    put(&rt, &line[..k]);
}
