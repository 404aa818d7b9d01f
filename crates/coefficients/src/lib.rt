// Single-precision lines: the coefficients w / 2^S of a line, written and read back, equal to their definition in every bit.
#![tactic(auto)]

ghost use Rattle.std.specs.Prelude.{◌≡◌, ◌≤◌, [], ◌∷◌, map, drop, to_bits, OnOk};
ghost use Rattle.std.specs.Float.{binary32};
ghost use Rattle.integers.specs.Integers.{all_zero};
ghost use Rattle.std.specs.Result.{result_ok};
ghost use Rattle.codes.specs.Codes.{in_order, unless_refused};
ghost use Rattle.scale.specs.Scale.{check_scale};
ghost use Rattle.coefficients.specs.Coefficient.{coefficient_of, coefficient_or_zero};
ghost use Rattle.coefficients.specs.Grid.{coordinate_of, reading_of};
ghost use Rattle.coefficients.specs.Lines.{check_used, check_grid, coordinates_of, line_of, patterns_of, written_of};

use codes::Refusal;

// The four coefficients of a line, handed over together.
#[derive(Clone, Copy, Debug, PartialEq)]
pub struct Line {
    pub c1: f32,
    pub c2: f32,
    pub c3: f32,
    pub c4: f32,
}

// w / 2^s. Both casts and the quotient are exact.
fn coefficient(s: u8, w: i16) -> f32
    requires { s ≤ 15 }
    ensures { result ≡ coefficient_of s w }
{
    (w as f32) / (scale::power(s) as f32)
}

// w / 2^s for s up to 15, the scales that there are; for any other s, +0.
#[tactic(auto, unfolding(crate::specs::Coefficient::coefficient_or_zero))]
pub fn coefficient_of(s: u8, w: i16) -> f32
    ensures { result ≡ coefficient_or_zero s w }
{
    if s <= 15 { coefficient(s, w) } else { 0.0 }
}

// The number that has the pattern p. Only p's value times 2^s can be it; whether it is, its own coefficient's bits tell.
fn coordinate(s: u8, p: u32) -> Option<i16>
    requires { s ≤ 15 }
    ensures { result ≡ reading_of s p }
{
    // Past the infinities' patterns come the NaNs'.
    if p % 0x8000_0000 > 0x7f80_0000 {
        return None;
    }
    let v = f32::from_bits(p) * (scale::power(s) as f32);
    if v >= -32768.0 {
        if v <= 32767.0 {
            let w = std::num::truncating_f32_to_i64(v) as i16;
            if f32::to_bits(coefficient(s, w)) == p {
                return Some(w);
            }
        }
    }
    None
}

// Check 2, on d alone, then check 3.
#[tactic(auto, using(codes::proofs::Laws::in_order_one, scale::proofs::Checks::scale_within), unfolding(crate::specs::Lines::check_used, codes::specs::Codes::in_order))]
fn check_line(d: u8, s: u8) -> Result<(), Refusal>
    ensures check { result ≡ in_order (check_used d ∷ check_scale s ∷ []) }
    ensures scale { OnOk result (s ≤ 15) }
{
    if 1 <= d && d <= 4 {
        scale::check_scale(s)
    } else {
        Err(Refusal::Shape)
    }
}

// Whether all coordinates after the d-th are 0.
fn rest_zero(d: u8, w: [i16; 4]) -> bool
    ensures { result ≡ all_zero (drop d w) }
{
    boxes::zero_from(&w, d as usize)
}

// The coefficients of four coordinates.
#[tactic(auto, unfolding(crate::specs::Lines::line_of))]
fn coefficients_of(s: u8, w: [i16; 4]) -> Line
    requires { s ≤ 15 }
    ensures { result ≡ line_of s w }
{
    Line {
        c1: coefficient(s, w[0]),
        c2: coefficient(s, w[1]),
        c3: coefficient(s, w[2]),
        c4: coefficient(s, w[3]),
    }
}

// Writes a line, by checks 2, 3 and 6.
#[tactic(auto, using(crate::proofs::Checks::unused_check), unfolding(crate::specs::Lines::written_of, crate::specs::Lines::writing_checks, codes::specs::Codes::in_order))]
pub fn write_line(d: u8, s: u8, w: [i16; 4]) -> Result<Line, Refusal>
    ensures { result ≡ written_of d s w }
{
    check_line(d, s)?;
    if !rest_zero(d, w) {
        return Err(Refusal::Start);
    }
    Ok(coefficients_of(s, w))
}

// Check 12, then the coordinates. On the grid only +0 is read as 0, so the coordinates tell what is unused.
fn coordinates(d: u8, s: u8, bits: [u32; 4]) -> Option<[i16; 4]>
    requires { s ≤ 15 }
    ensures { result ≡ result_ok (unless_refused (check_grid d s bits) (map (coordinate_of s) bits)) }
{
    // Four calls with `?`: a map over the patterns would need a second pass for its Options.
    let w = [
        coordinate(s, bits[0])?,
        coordinate(s, bits[1])?,
        coordinate(s, bits[2])?,
        coordinate(s, bits[3])?,
    ];
    if rest_zero(d, w) { Some(w) } else { None }
}

// Reads a line from its four patterns, by checks 2, 3 and 12.
#[tactic(auto, unfolding(crate::specs::Lines::coordinates_of, crate::specs::Lines::reading_checks, crate::specs::Lines::check_grid, codes::specs::Codes::in_order))]
pub fn read_patterns(d: u8, s: u8, bits: [u32; 4]) -> Result<[i16; 4], Refusal>
    ensures { result ≡ coordinates_of d s bits }
{
    check_line(d, s)?;
    coordinates(d, s, bits).ok_or(Refusal::OffGrid)
}

// The bits of f. No two NaNs can be told apart as numbers: one pattern stands for all of them.
pub fn pattern(f: f32) -> u32
    ensures { result ≡ to_bits binary32 f }
{
    if f == f { f32::to_bits(f) } else { 0x7fc0_0000 }
}

// The four patterns of a line.
#[tactic(auto, unfolding(crate::specs::Lines::patterns_of))]
pub fn patterns(line: Line) -> [u32; 4]
    ensures { result ≡ patterns_of line }
{
    [
        pattern(line.c1),
        pattern(line.c2),
        pattern(line.c3),
        pattern(line.c4),
    ]
}

// Reads a line from its four numbers.
pub fn read_line(d: u8, s: u8, line: Line) -> Result<[i16; 4], Refusal>
    ensures { result ≡ coordinates_of d s (patterns_of line) }
{
    read_patterns(d, s, patterns(line))
}
