// The registers of the fitter on the data bus for C: the caller keeps their 136 bytes.
#![tactic(auto)]

ghost use Rattle.std.specs.Prelude.{◌≡◌, length};
ghost use Rattle.c_boundary.specs.Boundary.{code_of, value_after, if_accepted};
ghost use Rattle.registers.specs.Registers.{cleared};
ghost use Rattle.c_bus.specs.Calls.{registers_call, read_call, registers_after_write, TableAfterWrite, BoundsAfterWrite, CertifiedWrite};

use bus_registers::Registers;
use c_boundary::WRONG_LENGTH;

// A copy of 136 bytes, the board's own and the job record apart: what has more than 128 bytes the compiler copies by a call, which takes
// longer.
#[inline(always)]
fn copy(to: &mut [u8], from: &[u8])
    requires { (length to.old ≡ 136) × (length from.now ≡ 136) }
    ensures { to.new ≡ from.now }
{
    let (own, job) = to.split_at_mut(64);
    own.copy_from_slice(&from[..64]);
    job.copy_from_slice(&from[64..]);
}

// The registers in a buffer.
fn registers_in(buffer: &[u8]) -> Registers
    requires { length buffer.now ≡ 136 }
    ensures { result.bytes ≡ buffer.now }
{
    let mut bytes = [0; 136];
    copy(&mut bytes, buffer);
    Registers { bytes }
}

// Resets the registers.
pub fn reset(registers: &mut [u8]) -> u32
    ensures code { result ≡ code_of (registers_call registers.old) }
    ensures registers { registers.new
        ≡ if_accepted (registers_call registers.old) cleared registers.old }
{
    if registers.len() != 136 {
        return WRONG_LENGTH;
    }
    registers.copy_from_slice(&bus_registers::reset().bytes);
    0
}

// Reads the byte at an offset.
pub fn read_register(registers: &[u8], offset: usize, value: &mut u64) -> u32
    ensures code { result ≡ code_of (read_call registers.now offset) }
    ensures value { value.new ≡ value_after (read_call registers.now offset) value.old }
{
    if registers.len() != 136 {
        return WRONG_LENGTH;
    }
    *value = bus_registers::read(registers_in(registers), offset) as u64;
    0
}

// Writes a byte to an offset. Where that is a run, its search has the store, and the table and the list of bounds lent.
pub fn write_register(
    registers: &mut [u8],
    offset: usize,
    value: u8,
    store: &[u8],
    table: &mut [i16],
    bounds: &mut [u64],
) -> u32
    ensures code { result ≡ code_of (registers_call registers.old) }
    ensures registers { registers.new
        ≡ registers_after_write registers.old offset value store.now table.old bounds.old }
    ensures table { TableAfterWrite registers.old offset value store.now table.old bounds.old
        table.new }
    ensures bounds { BoundsAfterWrite registers.old offset value store.now table.old bounds.old
        bounds.new }
    ensures certificate { result ≡ 0 →
        CertifiedWrite registers.old offset value store.now table.old bounds.old
        registers.new }
{
    if registers.len() != 136 {
        return WRONG_LENGTH;
    }
    let after = bus_registers::write(registers_in(registers), offset, value, store, table, bounds);
    copy(registers, &after.bytes);
    0
}
