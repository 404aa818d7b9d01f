// The scale S: a parameter w stands for w / 2^S.
#![tactic(auto)]

ghost use Rattle.std.specs.Prelude.{◌≡◌, ◌^◌, ◌%◌};
ghost use Rattle.scale.specs.Scale.{check_scale};

use codes::Refusal;

// 2^s for s to 15, by doubling. 2^16 is no u16, so s counts modulo 16.
pub fn power(s: u8) -> u16
    ensures { result ≡ 2 ^ (s % 16) }
{
    let mut p: u16 = 1;
    for _ in 0..s % 16 {
        p *= 2;
    }
    p
}

// Check 3.
#[tactic(auto, unfolding(crate::specs::Scale::check_scale))]
pub fn check_scale(s: u8) -> Result<(), Refusal>
    ensures { result ≡ check_scale s }
{
    if s <= 15 { Ok(()) } else { Err(Refusal::Scale) }
}
