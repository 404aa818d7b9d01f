// The record of a search's answer.
#![tactic(auto)]

ghost use Rattle.std.specs.Prelude.{◌≡◌};
ghost use Rattle.answers.specs.Records.{record_of};

use answer_records::AnswerRecord;
use jobs::Model;
use search::Answer;

// The record of an answer to a job with this model; check 9 refuses that of a refusal.
#[tactic(auto, unfolding(crate::specs::Records::record_of))]
pub fn record_of(model: Model, answer: Answer) -> AnswerRecord
    ensures { result ≡ record_of model answer }
{
    // By a local: an array of one struct can't be given straight to another's field.
    let vector = answer.vector;
    AnswerRecord {
        vector,
        cost: answer.cost,
        bound: answer.bound,
        count: answer.count,
        kind: u8::from(answer.kind),
        n: model.n,
        d: model.d,
        scale: model.scale,
    }
}
