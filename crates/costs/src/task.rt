// What is asked of a store's points under a model that was checked: the cost of the vector `low`, or the bound of the box from `low` to
// `high`.
ghost use Rattle.std.specs.Prelude.{length};
ghost use Rattle.residuals.specs.Inside.{Ready};

use jobs::Model;

#[derive(Clone, Copy)]
pub struct Task<'a> {
    pub store: &'a [u8],
    pub model: Model,
    pub low: [i16; 8],
    pub high: [i16; 8],
    ghost ready: { Ready (length store.now) model },
}
