// The label of each point of a store: the line that is nearest to it; a gap has its own.
#![tactic(auto)]

mod nearest;

ghost use Rattle.std.specs.Prelude.{map, ◌≡◌, ◌≤◌, length};
ghost use Rattle.integers.specs.Lists.{over};
ghost use Rattle.points.specs.Points.{points_of};
ghost use Rattle.residuals.specs.Inside.{Ready};
ghost use Rattle.labels.specs.Labels.{label, labels_answer, labelled};

use codes::Refusal;
use jobs::Model;

fn write_labels(store: &[u8], m: Model, v: &[i16; 8], out: &mut [u8])
    requires { Ready (length store.now) m × (length (points_of store.now) ≤ length out.old) }
    ensures { out.new ≡ over (map (label m v.now) (points_of store.now)) out.old }
{
    let power = scale::power(m.scale);
    let count = store.len() / 12;
    for (i, label) in out[..count].iter_mut().enumerate() {
        *label = nearest::label_at(store, i, m, v, power);
    }
}

// One label a point into the front of a lent buffer.
#[tactic(auto, using(crate::proofs::Filling::points_number, model_checks::proofs::Passed::ready, model_checks::proofs::Passed::threshold_model), unfolding(crate::specs::Labels::labels_answer, crate::specs::Labels::labelled, crate::specs::Labels::check_labels, codes::specs::Codes::in_order))]
pub fn labels(store: &[u8], m: Model, v: [i16; 8], out: &mut [u8]) -> Result<u64, Refusal>
    ensures answer { result ≡ labels_answer store.now m v out.old }
    ensures buffer { out.new ≡ labelled store.now m v out.old }
{
    model_checks::check_threshold(store, m, v)?;
    let count = store.len() / 12;
    if out.len() < count {
        return Err(Refusal::Short);
    }
    write_labels(store, m, &v, out);
    Ok(count as u64)
}
