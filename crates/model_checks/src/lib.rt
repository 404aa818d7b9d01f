// The checks that the calls on a store and a model make, in the order of their numbers.
#![tactic(auto)]

ghost use Rattle.std.specs.Prelude.{◌≡◌};
ghost use Rattle.model_checks.specs.Checks.{check_model, check_cost, check_threshold, check_bound};

use boxes::Box;
use codes::Refusal;
use jobs::Model;

// Checks 1 to 4.
#[tactic(auto, unfolding(crate::specs::Checks::check_model, codes::specs::Codes::in_order))]
pub fn check_model(store: &[u8], m: Model) -> Result<(), Refusal>
    ensures { result ≡ check_model store.now m }
{
    points::check_store(store.len())?;
    boxes::check_shape(m.n, m.d)?;
    scale::check_scale(m.scale)?;
    loss::check_loss_for(store.len() / 12, m.p, m.eps)
}

// The checks of a cost.
#[tactic(auto, unfolding(crate::specs::Checks::check_cost, codes::specs::Codes::in_order))]
pub fn check_cost(store: &[u8], m: Model, v: [i16; 8]) -> Result<(), Refusal>
    ensures { result ≡ check_cost store.now m v }
{
    check_model(store, m)?;
    boxes::check_vector(m.n, m.d, v)?;
    points::check_stray(store, m.d)
}

// The checks of a call over a vector that takes ε for a threshold.
#[tactic(auto, unfolding(crate::specs::Checks::check_threshold, codes::specs::Codes::in_order))]
pub fn check_threshold(store: &[u8], m: Model, v: [i16; 8]) -> Result<(), Refusal>
    ensures { result ≡ check_threshold store.now m v }
{
    check_model(store, m)?;
    loss::check_loss(m.p, m.eps)?;
    boxes::check_vector(m.n, m.d, v)?;
    points::check_stray(store, m.d)
}

// The checks of a bound.
#[tactic(auto, unfolding(crate::specs::Checks::check_bound, codes::specs::Codes::in_order))]
pub fn check_bound(store: &[u8], m: Model, b: Box) -> Result<(), Refusal>
    ensures { result ≡ check_bound store.now m b }
{
    check_model(store, m)?;
    boxes::check_box(m.n, m.d, b)?;
    points::check_stray(store, m.d)
}
