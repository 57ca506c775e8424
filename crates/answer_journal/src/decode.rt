//! Records, read from the bytes behind their gate.

ghost use Rattle.std.specs.Prelude.{◌≡◌, ◌≢◌, ◌<◌, ◌≤◌, ◌^◌, ℕ, Bool, List, Option, [], ◌∷◌, ◌++◌};
ghost use Rattle.std.specs.Prelude.{IfSome, IfNone, IsTrue, IsFalse, length};
ghost use Rattle.assign.specs.declared.events.Plan.{Plan};
ghost use Rattle.answer_journal.specs.Storable.{IsStorableSession, IsStorable};
ghost use Rattle.answer_journal.specs.Format.{tail_bytes, plan_byte, said_byte, answer_payload};
ghost use Rattle.answer_journal.specs.Format.{session_tail, kind_byte, record_payload, record_tail};
ghost use Rattle.answer_journal.specs.Records.{MayFollow};
ghost use Rattle.answer_journal.specs.Pairs.{options_at};

use crate::encode::valued_count;
use crate::record::Record;
use assign::{Event, Partial, Plan};

const MOST_VOCABULARY: usize = 4_194_304;

/// The kind and the payload of a record, and what stands from the next gate on.
fn parts_of(bytes: &[u8]) -> Option<(u8, &[u8], &[u8])>
    ensures found { IfSome result (λ p. (length p.1.now < 2 ^ 32)
        × (bytes.now ≡ tail_bytes p.0 p.1.now ++ p.2.now) × (0 < length p.2.now)) }
    ensures none { IfNone result ((kind : ℕ) (payload : List ℕ) (gate : ℕ) (behind : List ℕ) →
        length payload < 2 ^ 32 → bytes.now ≡ tail_bytes kind payload ++ gate ∷ behind → ⊥) }
{
    let [kind, a, b, c, d, rest @ ..] = bytes else {
        return None;
    };
    let size = u32::from_be_bytes([*a, *b, *c, *d]) as usize;
    if size >= rest.len() {
        return None;
    }
    let (payload, rest) = rest.split_at(size);
    Some((*kind, payload, rest))
}

/// The question that these pairs spell.
pub(crate) fn question_of(pairs: &[u8]) -> Option<Partial>
    ensures { result ≡ options_at 128 0 pairs.now }
{
    let mut question = Partial::blank(128);
    let mut rest = pairs;
    // The variables rise: the next one is this or a later one.
    let mut least = 0;
    while let [v, x, after @ ..] = rest {
        if *v < least || *v >= 128 || *x >= 64 {
            return None;
        }
        question.set(*v, *x);
        least = *v + 1;
        rest = after;
    }
    if rest.is_empty() {
        Some(question)
    } else {
        None
    }
}

/// The question and the answer that a payload spells.
fn answer_of(payload: &[u8]) -> Option<(Partial, bool)>
    ensures found { IfSome result (λ p. IsStorable p.0 × (payload.now ≡ answer_payload p.0 p.1)) }
    ensures none { IfNone result ((q : List (Option ℕ)) (said : Bool) → IsStorable q →
        payload.now ≡ answer_payload q said → ⊥) }
{
    let [said, count, pairs @ ..] = payload else {
        return None;
    };
    let yes = said_of(*said)?;
    if *count == 0 {
        return None;
    }
    let question = question_of(pairs)?;
    if valued_count(&question) != *count {
        return None;
    }
    Some((question, yes))
}

fn said_of(byte: u8) -> Option<bool>
    ensures found { IfSome result (λ yes. byte ≡ said_byte yes) }
    ensures none { IfNone result ((yes : Bool) → byte ≡ said_byte yes → ⊥) }
{
    match byte {
        0 => Some(false),
        1 => Some(true),
        _ => None,
    }
}

/// A take-back, where the journal is raised and the payload is empty.
fn back_of(payload: &[u8], raised: bool) -> Option<Record>
    ensures found { IfSome result (λ r. (r ≡ Record.Added Event.Back) × IsTrue raised
        × (payload.now ≡ [])) }
    ensures none { IfNone result (IsTrue raised → payload.now ≡ [] → ⊥) }
{
    if raised && payload.is_empty() {
        Some(Record::Added(Event::Back))
    } else {
        None
    }
}

/// What raises a journal, where it isn't raised and the payload is one byte 2.
fn raising_of(payload: &[u8], raised: bool) -> Option<Record>
    ensures found { IfSome result (λ r. (r ≡ Record.Raising) × IsFalse raised
        × (payload.now ≡ 2 ∷ [])) }
    ensures none { IfNone result (IsFalse raised → payload.now ≡ 2 ∷ [] → ⊥) }
{
    let [byte] = payload else {
        return None;
    };
    if raised || *byte != 2 {
        None
    } else {
        Some(Record::Raising)
    }
}

/// The record that a kind and a payload spell, where the journal is raised or where it isn't.
fn record_in(kind: u8, payload: &[u8], raised: bool) -> Option<Record>
    ensures found { IfSome result (λ r. MayFollow raised r × (kind ≡ kind_byte r)
        × (payload.now ≡ record_payload r)) }
    ensures none { IfNone result ((r : Record) → MayFollow raised r → kind ≡ kind_byte r →
        payload.now ≡ record_payload r → ⊥) }
{
    match kind {
        b'A' => {
            let (question, yes) = answer_of(payload)?;
            Some(Record::Added(Event::Answer { question, yes }))
        }
        b'B' => back_of(payload, raised),
        b'U' => raising_of(payload, raised),
        _ => None,
    }
}

/// The record that begins here behind its gate, where the journal is raised or where it isn't, and
/// what stands from the next gate on.
pub(crate) fn record_of(bytes: &[u8], raised: bool) -> Option<(Record, &[u8])>
    ensures found { IfSome result (λ p. MayFollow raised p.0
        × (bytes.now ≡ record_tail p.0 ++ p.1.now) × (0 < length p.1.now)) }
    ensures none { IfNone result ((r : Record) (gate : ℕ) (behind : List ℕ) → MayFollow raised r →
        bytes.now ≡ record_tail r ++ gate ∷ behind → ⊥) }
{
    let (kind, payload, rest) = parts_of(bytes)?;
    let record = record_in(kind, payload, raised)?;
    Some((record, rest))
}

/// The plan and the vocabulary that begin here behind their gate, and what stands from the next
/// gate on.
pub(crate) fn session_of(bytes: &[u8]) -> Option<(Plan, &[u8], &[u8])>
    ensures found { IfSome result (λ p. (IsStorableSession p.0 p.1.now)
        × (bytes.now ≡ session_tail p.0 p.1.now ++ p.2.now) × (0 < length p.2.now)) }
    ensures none { IfNone result ((plan : Plan) (voc : List ℕ) (gate : ℕ) (behind : List ℕ) →
        IsStorableSession plan voc → bytes.now ≡ session_tail plan voc ++ gate ∷ behind → ⊥) }
{
    let (kind, payload, rest) = parts_of(bytes)?;
    if kind != b'S' {
        return None;
    }
    let [plan, voc @ ..] = payload else {
        return None;
    };
    let plan = plan_of(*plan)?;
    if voc.len() > MOST_VOCABULARY {
        return None;
    }
    Some((plan, voc, rest))
}

fn plan_of(byte: u8) -> Option<Plan>
    ensures found { IfSome result (λ plan. byte ≡ plan_byte plan) }
    ensures none { IfNone result ((plan : Plan) → byte ≡ plan_byte plan → ⊥) }
{
    match byte {
        1 => Some(Plan::Scopes),
        2 => Some(Plan::Quacq),
        3 => Some(Plan::Multi),
        _ => None,
    }
}
