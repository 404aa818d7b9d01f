// Lines of coefficients for C, each coefficient by the bit pattern of its single-precision number.
#![tactic(auto)]

ghost use Rattle.std.specs.Prelude.{◌≡◌};
ghost use Rattle.c_boundary.specs.Boundary.{code_of};
ghost use Rattle.c_lines.specs.Calls.{write_line_call, patterns_after, read_line_call, coordinates_after};

use c_boundary::{WRONG_LENGTH, refusal_code};
use c_buffers::{coordinates_of, fill, patterns_of};

// Writes a line: the patterns of its four coefficients.
#[tactic(auto, using(c_buffers::proofs::Buffers::exactly_all, c_buffers::proofs::Buffers::filled_whole))]
pub fn write_line(d: u8, scale: u8, coordinates: &[i16], patterns: &mut [u32]) -> u32
    ensures code { result ≡ code_of (write_line_call d scale coordinates.now patterns.old) }
    ensures patterns { patterns.new ≡ patterns_after d scale coordinates.now patterns.old }
{
    if coordinates.len() != 4 || patterns.len() != 4 {
        return WRONG_LENGTH;
    }
    match coefficients::write_line(d, scale, coordinates_of(coordinates)) {
        Ok(line) => {
            fill(patterns, &coefficients::patterns(line));
            0
        }
        Err(r) => refusal_code(r),
    }
}

// Reads a line from the patterns of its four coefficients.
#[tactic(auto, using(c_buffers::proofs::Buffers::exactly_all, c_buffers::proofs::Buffers::filled_whole))]
pub fn read_line(d: u8, scale: u8, patterns: &[u32], coordinates: &mut [i16]) -> u32
    ensures code { result ≡ code_of (read_line_call d scale coordinates.old patterns.now) }
    ensures coordinates { coordinates.new ≡ coordinates_after d scale coordinates.old patterns.now }
{
    if patterns.len() != 4 || coordinates.len() != 4 {
        return WRONG_LENGTH;
    }
    match coefficients::read_patterns(d, scale, patterns_of(patterns)) {
        Ok(w) => {
            fill(coordinates, &w);
            0
        }
        Err(r) => refusal_code(r),
    }
}
