//! The events of a session, each in as many bytes as its question shows.

ghost use Rattle.std.specs.Prelude.{◌≡◌, ◌<◌, ◌≤◌, ◌++◌, ◌∷◌, [], IsTrue, OnOk, OnErr, All};
ghost use Rattle.std.specs.Prelude.{flat_map, length, take, slice_index_or};
ghost use Rattle.answer_journal.specs.Format.{MOST_RECORDS};
ghost use Rattle.arrayvec.specs.ArrayVec.{array_vec_len};
ghost use Rattle.assign.specs.declared.events.Event.TheVariants.{Back};
ghost use Rattle.answer_journal.specs.EventList.{entry_bytes, event_in, is_back};
ghost use Rattle.answer_journal.specs.Storable.{IsStorableEvent};

use crate::decode::question_of;
use crate::encode::{LONGEST, put_pairs};
use arrayvec::ArrayVec;
use assign::Event;
use std::alloc::{AllocError, Global};
use std::marker::Model;

/// The most bytes of an entry: one, and two for each of 128 variables.
const LONGEST_ENTRY: usize = 257;

/// The events of a session, in the order in which they were added.
///
/// An answer takes a byte, and two for each variable that its question shows; a take-back takes
/// one. Four more say where each ends.
#[derive(Drop)]
pub struct Events {
    bytes: Vec<u8>,
    /// The place behind the entry of each.
    ends: Vec<u32>,
}

impl Model for Events {
    ghost use Rattle.std.specs.Prelude.{◌+◌, ◌&&◌, nat_lt, nat_le, vec_len, vec_capacity};
    ghost use Rattle.answer_journal.specs.EventList.{EventList, AreKept, events_from};

    ghost Value = { EventList };

    ghost view = { λ a. record {
      items = events_from 0 a.bytes.items a.ends.items;
      has_room = nat_lt (vec_len a.ends) (vec_capacity a.ends) && nat_le
          (vec_len a.bytes + 257) (vec_capacity a.bytes);
    } };

    ghost invariant = { λ a.
        AreKept a.bytes.items a.ends.items (events_from 0 a.bytes.items a.ends.items) };
}

impl Events {
    pub fn new(alloc: Global) -> Events
        ensures { result.items ≡ [] }
    {
        Events {
            bytes: Vec::new(alloc),
            ends: Vec::new(alloc),
        }
    }

    /// The allocator that it takes its memory from.
    pub fn allocator(&self) -> Global {
        *self.bytes.allocator()
    }

    pub fn len(&self) -> usize
        ensures len { result ≡ length self.now.items }
        ensures storable { All IsStorableEvent self.now.items }
    {
        self.ends.len()
    }

    pub fn get(&self, i: usize) -> Event
        requires { i < length self.now.items }
        ensures { result ≡ slice_index_or self.now.items i result }
    {
        event_in(self.entry(i))
    }

    /// Whether this one is a take-back.
    pub fn is_back(&self, i: usize) -> bool
        requires { i < length self.now.items }
        ensures { result ≡ is_back (slice_index_or self.now.items i Back) }
    {
        matches!(self.entry(i), [2])
    }

    /// Adds an event. `AllocError` leaves the events as they were.
    pub fn push(&mut self, event: &Event) -> Result<(), AllocError>
        requires storable { IsStorableEvent event.now }
        requires few { length self.old.items < MOST_RECORDS }
        ensures ok { OnOk result (self.new.items ≡ self.old.items ++ event.now ∷ []) }
        ensures err { OnErr result (self.new.items ≡ self.old.items) }
    {
        self.make_room()?;
        self.add(event);
        Ok(())
    }

    /// Takes the memory for one more.
    pub fn make_room(&mut self) -> Result<(), AllocError>
        ensures items { self.new.items ≡ self.old.items }
        ensures room { OnOk result (IsTrue self.new.has_room) }
    {
        self.bytes.reserve(LONGEST_ENTRY)?;
        self.ends.reserve(1)
    }

    /// Adds an event, for which the memory was taken.
    pub fn add(&mut self, event: &Event)
        requires storable { IsStorableEvent event.now }
        requires few { length self.old.items < MOST_RECORDS }
        requires room { IsTrue self.old.has_room }
        ensures { self.new.items ≡ self.old.items ++ event.now ∷ [] }
    {
        let entry = entry_of(event);
        self.bytes.extend_from_slice(entry.as_slice()).unwrap();
        let end = self.bytes.len() as u32;
        self.ends.push(end).unwrap();
    }

    /// The entry of an event.
    fn entry(&self, i: usize) -> &[u8]
        requires { i < length self.now.items }
        ensures is { result.now ≡ entry_bytes (slice_index_or self.now.items i Back) }
        ensures storable { IsStorableEvent (slice_index_or self.now.items i Back) }
    {
        &self.bytes[self.end_of(i)..self.end_of(i + 1)]
    }

    /// Where the entries of the first so many events end.
    fn end_of(&self, count: usize) -> usize
        requires { count ≤ length self.now.items }
        ensures { result ≡ length (flat_map entry_bytes (take count self.now.items)) }
    {
        if count == 0 {
            0
        } else {
            self.ends[count - 1] as usize
        }
    }
}

/// The entry of an event.
fn entry_of(event: &Event) -> ArrayVec<u8, LONGEST>
    requires { IsStorableEvent event.now }
    ensures is { result.items ≡ entry_bytes event.now }
    ensures short { array_vec_len result ≤ 257 }
{
    let mut out = ArrayVec::new();
    match event {
        Event::Answer { question, yes } => {
            out.push(u8::from(*yes));
            put_pairs(question, &mut out);
        }
        Event::Back => out.push(2),
    }
    out
}

/// The event of an entry.
fn event_in(entry: &[u8]) -> Event
    ensures { result ≡ event_in entry.now }
{
    let [said, pairs @ ..] = entry else {
        return Event::Back;
    };
    if *said == 2 {
        return Event::Back;
    }
    match question_of(pairs) {
        Some(question) => Event::Answer {
            question,
            yes: *said == 1,
        },
        None => Event::Back,
    }
}
