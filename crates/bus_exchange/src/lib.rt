// All of the program bus on slices: a store and a driver's accesses in, a byte for each read out.
#![tactic(auto)]

ghost use Rattle.std.specs.Prelude.{◌≡◌, [], ◌/◌, ◌≤◌, ◌<◌, length};
ghost use Rattle.integers.specs.Lists.{over};
ghost use Rattle.registers.specs.Registers.{job_in, written};
ghost use Rattle.bus_exchange.specs.Exchange.{numbers_lent, told_by, replies_of};
ghost use Rattle.bus_exchange.specs.Inside.{Accessed};

use bus_registers::{Registers, read, reset, write};

// 2,048 rows. The contracts of what is lent give lengths alone: nothing needs more.
fn table_space() -> [i16; 32768]
    ensures { 32768 ≡ length result }
{
    [0; 32768]
}

// Their bounds.
fn bounds_space() -> [u64; 2048]
    ensures { 2048 ≡ length result }
{
    [0; 2048]
}

// The registers, and how many replies there are.
#[derive(Clone, Copy)]
struct Progress {
    registers: Registers,
    count: usize,
}

// How many numbers of the table a write is lent: the rows of the job record as it stands, as far as they go.
#[tactic(auto, using(crate::proofs::Replying::rows_there))]
fn numbers_lent(registers: Registers) -> usize
    ensures { result ≡ numbers_lent (job_in registers.bytes).rows }
{
    let rows = fields::get_number32(&registers.bytes, 84);
    16 * (rows.min(2048) as usize)
}

// A write with the job's r rows of the table.
fn write_rows(
    registers: Registers,
    offset: usize,
    value: u8,
    store: &[u8],
    table: &mut [i16],
    bounds: &mut [u64],
) -> Registers
    requires { 32768 ≤ length table.old }
    ensures { result.bytes
        ≡ written store.now registers.bytes offset value (numbers_lent (job_in registers.bytes).rows)
        (length bounds.old) }
{
    let n = numbers_lent(registers);
    write(registers, offset, value, store, &mut table[..n], bounds)
}

// One access: a read is replied to, a write is made, and any other kind is none.
fn access(
    state: Progress,
    kind: u8,
    offset: u8,
    value: u8,
    store: &[u8],
    table: &mut [i16],
    bounds: &mut [u64],
    out: &mut [u8],
) -> Progress
    requires { (32768 ≤ length table.old) × (state.count < length out.old) }
    ensures { Accessed store.now (length bounds.old) state kind offset value out.old result out.new }
{
    match kind {
        0 => {
            out[state.count] = read(state.registers, offset as usize);
            Progress {
                count: state.count + 1,
                ..state
            }
        }
        1 => Progress {
            registers: write_rows(
                state.registers,
                offset as usize,
                value,
                store,
                table,
                bounds,
            ),
            ..state
        },
        _ => state,
    }
}

// The replies to accesses of four bytes each, from reset on.
fn reply(store: &[u8], accesses: &[u8], out: &mut [u8]) -> usize
    requires { length accesses.now / 4 ≤ length out.old }
    ensures count { result ≡ length (told_by store.now [] accesses.now) }
    ensures replies { out.new
        ≡ over (told_by store.now [] accesses.now) out.old }
{
    let mut table = table_space();
    let mut bounds = bounds_space();
    let mut state = Progress {
        registers: reset(),
        count: 0,
    };
    for i in 0..accesses.len() / 4 {
        state = access(
            state,
            accesses[4 * i],
            accesses[4 * i + 1],
            accesses[4 * i + 2],
            store,
            &mut table,
            &mut bounds,
            out,
        );
    }
    state.count
}

// The replies to the accesses behind a store, whose number of records comes first, at the front of a buffer: answers how many they are. In
// a buffer of fewer bytes than there are accesses it writes nothing and answers 0.
pub fn exchange(input: &[u8], out: &mut [u8]) -> usize
    ensures count { result ≡ length (replies_of input.now (length out.old)) }
    ensures replies { out.new ≡ over (replies_of input.now (length out.old)) out.old }
{
    let end = 2 + 12 * (fields::get_number(input, 0, 2) as usize);
    if input.len() < end || out.len() < (input.len() - end) / 4 {
        return 0;
    }
    reply(&input[2..end], &input[end..], out)
}
