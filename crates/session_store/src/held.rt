//! A session beside the events that led to it.

ghost use Rattle.std.specs.Prelude.{◌≡◌, ◌≢◌, ◌↔◌, ◌<◌, ◌+◌, ◌++◌, ◌∷◌, [], None, Some, IsSome};
ghost use Rattle.std.specs.Prelude.{IsTrue, IfOk, OnOk, All, length};
ghost use Rattle.std.specs.Option.{ForSome};
ghost use Rattle.answer_journal.specs.Format.{MOST_RECORDS};
ghost use Rattle.assign.specs.Events.{standing};
ghost use Rattle.assign.specs.Assignment.{widened};
ghost use Rattle.language.specs.Language.{IsQuestion};
ghost use Rattle.language.specs.Answers.{standing_on};
ghost use Rattle.answer_journal.specs.Storable.{IsStorable, IsStorableEvent};
ghost use Rattle.session_core.specs.Settled.{IsSettled};
ghost use Rattle.session_core.specs.Standing.{Stands, knowledge_of, open_in};
ghost use Rattle.session_store.specs.Kept.{IsLawfulAfter, answer_event};
ghost use Rattle.session_store.specs.Replay.{HavePlaces, standing_numbers};
ghost use Rattle.session_store.specs.Held.{lang_held, plan_held, question_held, events_held};
ghost use Rattle.session_store.specs.Held.{IsHeld};

use crate::replay::{replay_records, standing_records};
use answer_journal::{Events, MOST_RECORDS};
use assign::{Event, Partial};
use language::Memory;
use session_core::Session;

/// A session that stands where its events lead.
#[derive(Drop)]
pub(crate) struct Held {
    /// Empty only within a call that moves the session.
    pub(crate) session: Option<Session>,
    pub(crate) events: Events,
}

impl Held {
    pub(crate) fn new(session: Session, events: Events) -> Held
        requires stands { Stands session (standing_on (knowledge_of session).lang events.items) }
        requires few { length events.items < MOST_RECORDS }
        requires storable { All IsStorableEvent events.items }
        requires places { HavePlaces (knowledge_of session).lang
            (knowledge_of session).plan events.items }
        ensures sound { IsHeld result }
        ensures session { result.session ≡ Some session }
        ensures events { events_held result ≡ events.items }
    {
        Held {
            session: Some(session),
            events,
        }
    }

    pub(crate) fn session(&self) -> &Session
        requires { IsHeld self.now }
        ensures stands { Stands result.now
            (standing_on (lang_held self.now) (events_held self.now)) }
        ensures lang { (knowledge_of result.now).lang ≡ lang_held self.now }
        ensures plan { (knowledge_of result.now).plan ≡ plan_held self.now }
        ensures question { open_in result.now ≡ question_held self.now }
    {
        self.session.as_ref().unwrap()
    }

    /// Whether no further record fits a journal.
    pub(crate) fn is_full(&self) -> bool
        requires { IsHeld self.now }
        ensures { IsTrue result ↔ (length (events_held self.now) + 1 ≡ MOST_RECORDS) }
    {
        self.events.len() + 1 >= MOST_RECORDS as usize
    }

    /// Puts a question.
    pub(crate) fn ask(&mut self, q: Partial)
        requires sound { IsHeld self.old }
        requires idle { question_held self.old ≡ None }
        requires lawful { IsLawfulAfter (lang_held self.old) (plan_held self.old)
            (standing_on (lang_held self.old) (events_held self.old)) q }
        ensures put { question_held self.new ≡ Some q }
        ensures events { events_held self.new ≡ events_held self.old }
        ensures lang { lang_held self.new ≡ lang_held self.old }
        ensures plan { plan_held self.new ≡ plan_held self.old }
        ensures sound { IsHeld self.new }
    {
        match self.session.take() {
            Some(Session::Idle(idle)) => self.session = Some(Session::Asking(idle.ask(q))),
            Some(Session::Asking(_)) | Some(Session::Over(_)) | None => unreachable!(),
        }
    }

    /// The question that is put.
    pub(crate) fn question(&self) -> Partial
        requires sound { IsHeld self.now }
        requires put { IsSome (question_held self.now) }
        ensures is { question_held self.now ≡ Some result }
        ensures fits { IsQuestion (lang_held self.now) result }
        ensures storable { IsStorable (widened result) }
    {
        match self.session() {
            Session::Asking(asking) => {
                let _lang = asking.lang();
                asking.question()
            }
            Session::Idle(_) | Session::Over(_) => unreachable!(),
        }
    }

    /// The event of an answer to it.
    pub(crate) fn event(&self, question: &Partial, yes: bool) -> Event
        requires put { question_held self.now ≡ Some question.now }
        requires storable { IsStorable (widened question.now) }
        ensures is { ForSome (question_held self.now) (λ q. result ≡ answer_event q «yes») }
        ensures storable { IsStorableEvent result }
    {
        let question = question.widened();
        Event::Answer { question, yes }
    }

    /// Takes the place for an event.
    pub(crate) fn make_room(&mut self) -> Result<(), Memory>
        ensures session { self.new.session ≡ self.old.session }
        ensures events { events_held self.new ≡ events_held self.old }
        ensures room { OnOk result (IsTrue self.new.events.has_room) }
    {
        match self.events.make_room() {
            Ok(()) => Ok(()),
            Err(_) => Err(Memory),
        }
    }

    /// Adds the event of an answer to the question that is put, in a place that was taken, and
    /// moves the session.
    pub(crate) fn add(&mut self, event: &Event, question: &Partial, yes: bool)
        requires sound { IsHeld self.old }
        requires put { question_held self.old ≡ Some question.now }
        requires fits { IsQuestion (lang_held self.old) question.now }
        requires is { ForSome (question_held self.old) (λ q. event.now ≡ answer_event q «yes») }
        requires storable { IsStorableEvent event.now }
        requires few { length (events_held self.old) + 1 < MOST_RECORDS }
        requires room { IsTrue self.old.events.has_room }
        ensures events { events_held self.new ≡ events_held self.old ++ event.now ∷ [] }
        ensures settled { IsSettled (lang_held self.new) (plan_held self.new)
            (standing_on (lang_held self.new) (events_held self.new)) (question_held self.new) }
        ensures lang { lang_held self.new ≡ lang_held self.old }
        ensures plan { plan_held self.new ≡ plan_held self.old }
        ensures sound { IsHeld self.new }
    {
        match self.session.take() {
            Some(Session::Asking(asking)) => {
                let _lang = asking.lang();
                self.events.add(event);
                self.session = Some(asking.answer_to(question, yes));
            }
            Some(Session::Idle(_)) | Some(Session::Over(_)) | None => unreachable!(),
        }
    }

    /// Takes all memory for a take-back: the place of its event, and the records of the answers
    /// that it leaves.
    pub(crate) fn ready_back(&mut self) -> Result<Vec<u32>, Memory>
        requires sound { IsHeld self.old }
        ensures session { self.new.session ≡ self.old.session }
        ensures events { events_held self.new ≡ events_held self.old }
        ensures room { OnOk result (IsTrue self.new.events.has_room) }
        ensures records { IfOk result (λ records.
            records.items ≡ standing_numbers (events_held self.old ++ Event.Back ∷ [])) }
    {
        self.make_room()?;
        match standing_records(self.events.allocator(), &self.events) {
            Ok(mut records) => {
                records.pop();
                Ok(records)
            }
            Err(_) => Err(Memory),
        }
    }

    /// Adds a take-back, in a place that was taken, and leads the session from its beginning
    /// through the answers that it leaves.
    pub(crate) fn add_back(&mut self, records: &[u32])
        requires sound { IsHeld self.old }
        requires stands { standing (events_held self.old) ≢ [] }
        requires records { records.now
            ≡ standing_numbers (events_held self.old ++ Event.Back ∷ []) }
        requires few { length (events_held self.old) + 1 < MOST_RECORDS }
        requires room { IsTrue self.old.events.has_room }
        ensures events { events_held self.new ≡ events_held self.old ++ Event.Back ∷ [] }
        ensures settled { IsSettled (lang_held self.new) (plan_held self.new)
            (standing_on (lang_held self.new) (events_held self.new)) (question_held self.new) }
        ensures lang { lang_held self.new ≡ lang_held self.old }
        ensures plan { plan_held self.new ≡ plan_held self.old }
        ensures sound { IsHeld self.new }
    {
        self.events.add(&Event::Back);
        match self.session.take() {
            Some(session) => match replay_records(session.restart(), &self.events, records) {
                Ok(next) => self.session = Some(next),
                Err(_) => unreachable!(),
            },
            None => unreachable!(),
        }
    }
}
