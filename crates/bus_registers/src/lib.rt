// The registers of the fitter on the data bus: 136 bytes, the board's own state.
#![tactic(auto)]

ghost use Rattle.std.specs.Prelude.{◌≡◌, length};
ghost use Rattle.codes.specs.Codes.{if_passed};
ghost use Rattle.registers.specs.Runs.{refusal_number};
ghost use Rattle.registers.specs.Registers.{cleared, read_at, flags_after, ran, commanded, written, job_in};
ghost use Rattle.bus_runs.specs.Lent.{TableRun, BoundsRun};
ghost use Rattle.bus_registers.specs.Written.{with_shown, AnswerCertified, TableWritten, BoundsWritten, WriteCertified};

use codes::Refusal;

#[derive(Clone, Copy, Debug, PartialEq, Eq)]
pub struct Registers {
    pub bytes: [u8; 136],
}

// "All bytes are 0 after reset."
pub fn reset() -> Registers
    ensures { result.bytes ≡ cleared }
{
    Registers { bytes: [0; 136] }
}

// What a read of an offset gives, whatever the bytes hold.
#[tactic(auto, unfolding(registers::specs::Registers::read_at))]
pub fn read(r: Registers, offset: usize) -> u8
    ensures { result ≡ read_at r.bytes offset }
{
    match offset {
        1 => r.bytes[1] % 8,
        2 => r.bytes[2] % 2,
        3 | 8..=47 | 64..=135 => r.bytes[offset],
        _ => 0,
    }
}

// Done or refused.
fn flag(check: Result<(), Refusal>) -> u8
    ensures { result ≡ if_passed check 1 2 }
{
    if check.is_ok() { 1 } else { 2 }
}

// Byte 3 after a run. By a match: a Result is the library's, so no conversion of it can be ours.
fn refusal_number(check: Result<(), Refusal>) -> u8
    ensures { result ≡ refusal_number check }
{
    match check {
        Ok(()) => 0,
        Err(why) => u8::from(why),
    }
}

// Byte 1 after a run.
#[tactic(auto, using(crate::proofs::Writing::flag_small), unfolding(registers::specs::Registers::flags_after))]
fn flags_after(check: Result<(), Refusal>, before: u8, enable: u8) -> u8
    ensures { result ≡ flags_after check before enable }
{
    let pending = before / 4 % 2 == 1 || enable % 2 == 1;
    if pending {
        flag(check) + 4
    } else {
        flag(check)
    }
}

// The registers with what they show of a run.
#[tactic(auto, unfolding(registers::specs::Registers::with_run))]
fn with_run(r: Registers, shown: Result<[u8; 40], Refusal>) -> Registers
    ensures { result.bytes ≡ with_shown r.bytes shown }
{
    let mut bytes = r.bytes;
    let check = shown.map(|_| ());
    bytes[8..48].copy_from_slice(&shown.unwrap_or([0; 40]));
    bytes[3] = refusal_number(check);
    bytes[1] = flags_after(check, r.bytes[1], r.bytes[2]);
    Registers { bytes }
}

// Command 2. Not in its caller, where the compiler would take the registers apart for every write.
#[inline(never)]
fn run(r: &mut Registers, store: &[u8], table: &mut [i16], bounds: &mut [u64])
    ensures registers { r.new.bytes
        ≡ ran store.now r.old.bytes (length table.old) (length bounds.old) }
    ensures table { TableRun store.now (job_in r.old.bytes) table.old bounds.old table.new }
    ensures bounds { BoundsRun store.now (job_in r.old.bytes) table.old bounds.old bounds.new }
    ensures certificate { AnswerCertified store.now (job_in r.old.bytes) table.old bounds.old r.new.bytes }
{
    let before = *r;
    *r = with_run(
        before,
        bus_runs::run(&before.bytes[64..], store, table, bounds),
    );
}

// A write to byte 0.
#[tactic(auto, using(crate::proofs::Writing::run_commanded, crate::proofs::Writing::idle_commanded), unfolding(registers::specs::Registers::commanded))]
fn command(r: &mut Registers, value: u8, store: &[u8], table: &mut [i16], bounds: &mut [u64])
    ensures registers { r.new.bytes
        ≡ commanded store.now r.old.bytes value (length table.old) (length bounds.old) }
    ensures table { TableWritten r.old.bytes 0 value store.now table.old bounds.old table.new }
    ensures bounds { BoundsWritten r.old.bytes 0 value store.now table.old bounds.old bounds.new }
    ensures certificate { WriteCertified r.old.bytes 0 value store.now table.old bounds.old r.new.bytes }
{
    match value {
        2 => run(r, store, table, bounds),
        3 => r.bytes[1] = 0,
        _ => {}
    }
}

// A write: "Only bytes 0, 2 and 64 to 135 take writes; all other writes are ignored." It changes one copy in place: a copy for each
// case takes longer.
#[tactic(auto, using(crate::proofs::Writing::command_written, crate::proofs::Writing::idle_written), unfolding(registers::specs::Registers::written))]
pub fn write(
    r: Registers,
    offset: usize,
    value: u8,
    store: &[u8],
    table: &mut [i16],
    bounds: &mut [u64],
) -> Registers
    ensures registers { result.bytes
        ≡ written store.now r.bytes offset value (length table.old) (length bounds.old) }
    ensures table { TableWritten r.bytes offset value store.now table.old bounds.old table.new }
    ensures bounds { BoundsWritten r.bytes offset value store.now table.old bounds.old bounds.new }
    ensures certificate { WriteCertified r.bytes offset value store.now table.old bounds.old result.bytes }
{
    let mut after = r;
    match offset {
        0 => command(&mut after, value, store, table, bounds),
        2 => after.bytes[2] = value % 2,
        64..=135 => after.bytes[offset] = value,
        _ => {}
    }
    after
}
