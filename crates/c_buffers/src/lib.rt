// Values out of the lent buffers of the calls for C, and elements into them.
#![tactic(auto)]

ghost use Rattle.std.specs.Prelude.{◌≡◌, pos};
ghost use Rattle.c_buffers.specs.Buffers.{exactly, vector_from, filled};

// The elements of a buffer that has just as many, or that many times the other one.
fn exactly<T: Copy, const N: usize>(buffer: &[T], other: T) -> [T; N]
    ensures { result ≡ exactly N other buffer.now }
{
    buffer.try_into().unwrap_or([other; N])
}

// A vector out of a buffer.
pub fn vector_of(v: &[i16]) -> [i16; 8]
    ensures { result ≡ vector_from v.now }
{
    exactly(v, 0)
}

// A line's coordinates out of a buffer.
pub fn coordinates_of(w: &[i16]) -> [i16; 4]
    ensures { result ≡ exactly 4 (pos 0) w.now }
{
    exactly(w, 0)
}

// A line's patterns out of a buffer.
pub fn patterns_of(bits: &[u32]) -> [u32; 4]
    ensures { result ≡ exactly 4 0 bits.now }
{
    exactly(bits, 0)
}

// Fills a buffer of just as many elements.
pub fn fill<T: Copy>(out: &mut [T], from: &[T])
    ensures { out.new ≡ filled out.old from.now }
{
    if out.len() == from.len() {
        out.copy_from_slice(from);
    }
}
