//! The bytes of a record, in a buffer of a fixed size.

ghost use Rattle.std.specs.Prelude.{◌≡◌, ◌≤◌, ◌+◌, ◌*◌, [], ◌∷◌, ◌++◌, Bool, length};
ghost use Rattle.arrayvec.specs.ArrayVec.{array_vec_len};
ghost use Rattle.answer_journal.specs.Storable.{IsStorable};
ghost use Rattle.answer_journal.specs.Format.{valued_count, pairs_from, tail_bytes, answer_payload};
ghost use Rattle.answer_journal.specs.Format.{record_tail};
ghost use Rattle.answer_journal.specs.Records.{MayFollow};

use crate::record::Record;
use arrayvec::ArrayVec;
use assign::{Event, Partial};

/// The longest record behind that of the session, without its gate and with a gate for the next.
pub(crate) const LONGEST: usize = 264;

/// A record behind its gate, and a closed gate for the next.
#[tactic(auto, unfolding(crate::specs::Format::record_tail))]
pub(crate) fn encode(next: &Record) -> ArrayVec<u8, LONGEST>
    requires { (raised : Bool) × MayFollow raised next.now }
    ensures { result.items ≡ record_tail next.now ++ 0 ∷ [] }
{
    match next {
        Record::Added(Event::Answer { question, yes }) => encode_answer(question, *yes),
        Record::Added(Event::Back) => these(&[b'B', 0, 0, 0, 0, 0]),
        Record::Raising => these(&[b'U', 0, 0, 0, 1, 2, 0]),
    }
}

fn these(bytes: &[u8]) -> ArrayVec<u8, LONGEST>
    requires { length bytes.now ≤ 264 }
    ensures { result.items ≡ bytes.now }
{
    let mut out = ArrayVec::new();
    for byte in bytes {
        out.push(*byte);
    }
    out
}

fn encode_answer(question: &Partial, yes: bool) -> ArrayVec<u8, LONGEST>
    requires { IsStorable question.now }
    ensures { result.items ≡ tail_bytes 0x41 (answer_payload question.now yes) ++ 0 ∷ [] }
{
    let count = valued_count(question);
    let size = (2 + 2 * u32::from(count)).to_be_bytes();
    let mut out = ArrayVec::new();
    out.push(b'A');
    out.push(size[0]);
    out.push(size[1]);
    out.push(size[2]);
    out.push(size[3]);
    out.push(u8::from(yes));
    out.push(count);
    put_pairs(question, &mut out);
    out.push(0);
    out
}

/// How many variables have a value.
pub(crate) fn valued_count(question: &Partial) -> u8
    requires { length question.now ≤ 128 }
    ensures { result ≡ valued_count question.now }
{
    question.vars().len()
}

// Appends each variable that has a value, with it.
pub(crate) fn put_pairs(question: &Partial, out: &mut ArrayVec<u8, LONGEST>)
    requires fits { length question.now ≤ 128 }
    requires room { array_vec_len out.old + 2 * length question.now ≤ 263 }
    ensures pairs { out.new.items ≡ out.old.items ++ pairs_from 0 question.now }
    ensures few { array_vec_len out.new ≤ array_vec_len out.old + 2 * length question.now }
{
    let mut left = question.vars();
    while let Some(v) = left.pop_first() {
        if let Some(x) = question.get(v) {
            out.push(v);
            out.push(x);
        }
    }
}
