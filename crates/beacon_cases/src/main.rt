// Fit L and its neighbours: beacons taken into stores of any length, a line for each. A store of 0s and a beacon of 1s, so that the 1s
// afterwards are what was stored.
#![tactic(auto)]

ghost use Rattle.std.specs.Prelude.{◌≡◌, ◌≤◌, length};

use std::io;

// How many bytes of the store are 1.
fn stored(store: &[u8]) -> usize {
    store.iter().filter(|b| **b == 1).count()
}

// The place of the first 1 in the store, or its length where there is none.
fn first(store: &[u8]) -> usize {
    store.iter().position(|b| *b == 1).unwrap_or(store.len())
}

fn field(rt: &impl Print, word: &str, n: usize) -> io::Result<()> {
    print!(rt; "{word}{n}")
}

// One beacon, and what its taking in comes to.
fn report(rt: &impl Print, store: &mut [u8], mark: usize, body: &[u8]) -> io::Result<()> {
    field(rt, "store ", store.len())?;
    field(rt, " mark ", mark)?;
    field(rt, " beacon ", body.len())?;
    match beacon::take_in(store, mark, body) {
        Ok(next) => {
            print!(rt; ": mark {next}")?;
            field(rt, ", from ", first(store))?;
        }
        Err(r) => {
            let number = u8::from(r);
            print!(rt; ": refused {number}")?;
        }
    }
    field(rt, ", stored ", stored(store))?;
    println!(rt)
}

// The contract gives the length alone: the proof of `case` needs no more.
fn bytes_of(b: u8) -> [u8; 50004]
    ensures { 50004 ≡ length result }
{
    [b; 50004]
}

// A store and a beacon of so many bytes.
fn case(rt: &impl Print, len: usize, mark: usize, bytes: usize) -> io::Result<()>
    requires len_bound { len ≤ 50004 }
    requires bytes_bound { bytes ≤ 50004 }
{
    let mut store = bytes_of(0);
    let body = bytes_of(1);
    report(rt, &mut store[..len], mark, &body[..bytes])
}

fn main(rt: HostRuntime) -> io::Result<()> {
    case(&rt, 600, 0, 228)?;
    case(&rt, 600, 0, 240)?;
    case(&rt, 600, 0, 236)?;
    case(&rt, 600, 0, 252)?;
    case(&rt, 600, 0, 0)?;
    case(&rt, 600, 0, 12)?;
    case(&rt, 600, 372, 228)?;
    case(&rt, 600, 384, 228)?;
    case(&rt, 600, 372, 240)?;
    case(&rt, 600, 588, 12)?;
    case(&rt, 600, 600, 12)?;
    case(&rt, 600, 612, 12)?;
    case(&rt, 600, 606, 12)?;
    case(&rt, 600, 6, 12)?;
    case(&rt, 605, 588, 12)?;
    case(&rt, 605, 600, 12)?;
    case(&rt, 605, 605, 12)?;
    case(&rt, 0, 0, 12)?;
    case(&rt, 50004, 49140, 12)?;
    case(&rt, 50004, 49152, 12)?;
    case(&rt, 50004, 48936, 228)?;
    case(&rt, 50004, 50004, 12)?;
    case(&rt, 50004, 0, 49152)?;
    case(&rt, 50004, 12, 49152)?;
    case(&rt, 50004, 0, 49164)
}
