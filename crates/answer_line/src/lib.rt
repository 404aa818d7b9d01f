// The line of an answer, as text from the front of a buffer.
#![tactic(auto)]

ghost use Rattle.std.specs.Prelude.{◌++◌, ◌≡◌, ◌+◌, ◌≤◌, length};
ghost use Rattle.codes.specs.Codes.{number_of};
ghost use Rattle.decimal.specs.Put.{Put};
ghost use Rattle.decimal.specs.Text.{byte};
ghost use Rattle.integers.specs.Lists.{over};
ghost use Rattle.answer_line.specs.Line.{field, fields, numbers, worded, line_in, refusal_in};

use codes::Refusal;
use decimal::Writer;
use jobs::Model;
use search::{Answer, Kind};

// C, L, the count, the open boxes and the peak, each behind its name.
fn put_numbers(text: &mut Writer<'_>, a: Answer)
    requires { text.old.at + 133 ≤ length text.old.buffer.now }
    ensures same_buffer { text.new.buffer.ghost_name ≡ text.old.buffer.ghost_name }
    ensures put { Put text.old.buffer.now text.old.at (numbers a.cost a.bound a.count a.«open» a.peak) text.new.at text.new.buffer.now }
    ensures short { text.new.at ≤ text.old.at + 133 }
{
    text.put_field(b" cost=", a.cost);
    text.put_field(b" bound=", a.bound);
    text.put_field(b" splits=", u64::from(a.count));
    text.put_field(b" open=", a.open as u64);
    text.put_field(b" peak=", a.peak as u64);
}

// The fields, behind the first word.
fn put_fields(text: &mut Writer<'_>, m: Model, a: Answer)
    requires { text.old.at + 192 ≤ length text.old.buffer.now }
    ensures same_buffer { text.new.buffer.ghost_name ≡ text.old.buffer.ghost_name }
    ensures put { Put text.old.buffer.now text.old.at (fields m a) text.new.at text.new.buffer.now }
    ensures short { text.new.at ≤ text.old.at + 192 }
{
    put_numbers(text, a);
    text.put_bytes(b" w=");
    text.put_joined(a.vector, usize::from(m.n) * usize::from(m.d));
}

// The line of an answer that begins with a word.
fn put_answer(text: &mut Writer<'_>, word: &[u8], m: Model, a: Answer)
    requires word { length word.now ≤ 6 }
    requires room { text.old.at + 200 ≤ length text.old.buffer.now }
    ensures same_buffer { text.new.buffer.ghost_name ≡ text.old.buffer.ghost_name }
    ensures put { Put text.old.buffer.now text.old.at (word.now ++ fields m a ++ byte 10) text.new.at text.new.buffer.now }
{
    text.put_bytes(word);
    put_fields(text, m, a);
    text.put_bytes(b"\n");
}

fn put_refusal(text: &mut Writer<'_>, why: Refusal)
    requires { text.old.at + 200 ≤ length text.old.buffer.now }
    ensures same_buffer { text.new.buffer.ghost_name ≡ text.old.buffer.ghost_name }
    ensures put { Put text.old.buffer.now text.old.at (field "refused " (number_of why) ++ byte 10) text.new.at text.new.buffer.now }
{
    text.put_field(b"refused ", u64::from(u8::from(why)));
    text.put_bytes(b"\n");
}

fn put_line(text: &mut Writer<'_>, m: Model, a: Answer)
    requires { text.old.at + 200 ≤ length text.old.buffer.now }
    ensures same_buffer { text.new.buffer.ghost_name ≡ text.old.buffer.ghost_name }
    ensures put { Put text.old.buffer.now text.old.at (worded a.kind (fields m a) ++ byte 10) text.new.at text.new.buffer.now }
{
    match a.kind {
        Kind::Solved => put_answer(text, b"solved", m, a),
        Kind::Spent => put_answer(text, b"spent", m, a),
        Kind::Full => put_answer(text, b"full", m, a),
        Kind::Refused(why) => put_refusal(text, why),
    }
}

// The line of an answer to a job with that model, at the front of a buffer: answers how long it is. A buffer that some line does not fit
// into is kept, and the answer is 0.
#[tactic(auto, using(decimal::proofs::Putting::at_front), unfolding(crate::specs::Line::line, crate::specs::Line::line_in, integers::specs::Lists::over))]
pub fn line(m: Model, a: Answer, out: &mut [u8]) -> usize
    ensures length { result ≡ length (line_in m a out.old) }
    ensures line { out.new ≡ over (line_in m a out.old) out.old }
{
    if out.len() < 200 {
        return 0;
    }
    let mut text = Writer { buffer: out, at: 0 };
    put_line(&mut text, m, a);
    text.at
}

// The line of a refusal, likewise.
#[tactic(auto, using(decimal::proofs::Putting::at_front), unfolding(crate::specs::Line::refusal_in, integers::specs::Lists::over))]
pub fn refusal_line(why: Refusal, out: &mut [u8]) -> usize
    ensures length { result ≡ length (refusal_in why out.old) }
    ensures line { out.new ≡ over (refusal_in why out.old) out.old }
{
    if out.len() < 200 {
        return 0;
    }
    let mut text = Writer { buffer: out, at: 0 };
    put_refusal(&mut text, why);
    text.at
}
