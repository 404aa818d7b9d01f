// Lines of coefficients at the edges: a line of output for each, the four patterns or the number of the refusal.
#![tactic(auto)]

use codes::Refusal;
use std::io;

fn refused(rt: &impl Print, r: Refusal) -> io::Result<()> {
    let number = u8::from(r);
    println!(rt; "refused {number}")
}

fn show(rt: &impl Print, bits: [u32; 4]) -> io::Result<()> {
    let [a, b, c, d] = bits;
    println!(rt; "{a:08x} {b:08x} {c:08x} {d:08x}")
}

fn write(rt: &impl Print, d: u8, s: u8, w: [i16; 4]) -> io::Result<()> {
    match coefficients::write_line(d, s, w) {
        Ok(line) => show(rt, coefficients::patterns(line)),
        Err(r) => refused(rt, r),
    }
}

// What is read is shown as it is written at scale 0, so that each pattern is the coordinate's own.
fn read(rt: &impl Print, d: u8, s: u8, bits: [u32; 4]) -> io::Result<()> {
    match coefficients::read_patterns(d, s, bits) {
        Ok(w) => write(rt, 4, 0, w),
        Err(r) => refused(rt, r),
    }
}

// What is written is handed over as numbers and read.
fn back(rt: &impl Print, d: u8, s: u8, w: [i16; 4]) -> io::Result<()> {
    let again = coefficients::write_line(d, s, w).and_then(|line| coefficients::read_line(
        d, s, line,
    ));
    match again {
        Ok(w) => write(rt, 4, 0, w),
        Err(r) => refused(rt, r),
    }
}

fn writing(rt: &impl Print) -> io::Result<()> {
    println!(rt; "written")?;
    write(rt, 1, 1, [-3, 0, 0, 0])?;
    write(rt, 1, 15, [1, 0, 0, 0])?;
    write(rt, 4, 0, [0, -1, 32767, -32768])?;
    write(rt, 4, 15, [0, -1, 32767, -32768])?;
    write(rt, 2, 4, [257, -255, 0, 0])?;
    write(rt, 0, 0, [0, 0, 0, 0])?;
    write(rt, 5, 16, [1, 1, 1, 1])?;
    write(rt, 1, 16, [1, 1, 0, 0])?;
    write(rt, 3, 15, [1, 1, 1, -1])?;
    write(rt, 1, 0, [1, 1, 0, 0])
}

fn reading(rt: &impl Print) -> io::Result<()> {
    println!(rt; "read")?;
    read(rt, 1, 1, [0xbfc0_0000, 0, 0, 0])?;
    read(rt, 1, 15, [0x3800_0000, 0, 0, 0])?;
    read(rt, 4, 0, [0, 0xbf80_0000, 0x46ff_fe00, 0xc700_0000])?;
    read(rt, 4, 15, [0, 0xb800_0000, 0x3f7f_fe00, 0xbf80_0000])?;
    read(rt, 0, 16, [1, 1, 1, 1])?;
    read(rt, 5, 16, [1, 1, 1, 1])?;
    read(rt, 1, 16, [1, 1, 1, 1])
}

// A first pattern with nothing behind it.
fn first(rt: &impl Print, s: u8, p: u32) -> io::Result<()> {
    read(rt, 1, s, [p, 0, 0, 0])
}

fn off_grid(rt: &impl Print) -> io::Result<()> {
    println!(rt;
        "off grid: -0, 0.5, 32768, -32769, NaNs, infinities, a subnormal, 2^-16 at 15, unused"
    )?;
    first(rt, 0, 0x8000_0000)?;
    first(rt, 0, 0x3f00_0000)?;
    first(rt, 0, 0x4700_0000)?;
    first(rt, 0, 0xc700_0100)?;
    first(rt, 0, 0x7fc0_0000)?;
    first(rt, 0, 0x7f80_0001)?;
    first(rt, 0, 0xffff_ffff)?;
    first(rt, 0, 0x7f80_0000)?;
    first(rt, 0, 0xff80_0000)?;
    first(rt, 15, 0x0000_0001)?;
    first(rt, 15, 0x3780_0000)?;
    read(rt, 2, 0, [0, 0, 0x3f80_0000, 0])?;
    read(rt, 3, 0, [0, 0, 0, 0x8000_0000])
}

fn there_and_back(rt: &impl Print) -> io::Result<()> {
    println!(rt; "there and back")?;
    back(rt, 4, 7, [-32768, 32767, 1, -1])?;
    back(rt, 2, 15, [12345, -54, 0, 0])?;
    back(rt, 1, 3, [0, 0, 0, 0])
}

fn main(rt: HostRuntime) -> io::Result<()> {
    writing(&rt)?;
    reading(&rt)?;
    off_grid(&rt)?;
    there_and_back(&rt)
}
