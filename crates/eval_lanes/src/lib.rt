// Points side by side, in double precision.
#![tactic(auto)]

ghost use Rattle.std.specs.Prelude.{◌≡◌, replicate};

// A number for each of eighty points.
pub type Lanes = [f64; 80];

// Eighty points in five columns: x1 to x4, and y times 2^S.
pub type Chunk = [Lanes; 5];

// A chunk of one number, for what is decoded into it.
pub fn chunk_of(x: f64) -> Chunk
    ensures { result ≡ replicate 5 (replicate 80 x) }
{
    [[x; 80]; 5]
}
