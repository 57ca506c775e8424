//! A file in memory and the record of its writes and syncs, in room that is taken at the start.

ghost use Rattle.std.specs.Prelude.{◌≡◌, ◌≤◌, ◌<◌, ◌+◌, [], ◌∷◌, ◌++◌, IsTrue, IfOk, length};
ghost use Rattle.std.specs.Prelude.{vec_len, vec_capacity};
ghost use Rattle.disk_model.specs.Record.{put, content_after, are_within, steps_of, bytes_in};
ghost use Rattle.disk_model.specs.Record.{Wrote, Synced};

use crate::Room;
use std::alloc::{AllocError, Global};

/// A write, with its place and its number of bytes, or a sync.
#[derive(Clone, Copy, Debug, PartialEq, Eq)]
pub(crate) enum Mark {
    Write { at: u32, len: u32 },
    Sync,
}

#[derive(Drop)]
pub(crate) struct Tape {
    /// The bytes before the first write, all of them durable.
    pub(crate) start: Vec<u8>,
    /// The bytes that a read gives now.
    pub(crate) content: Vec<u8>,
    /// The writes and syncs, in order.
    pub(crate) marks: Vec<Mark>,
    /// The bytes of all writes, one after the other.
    pub(crate) written: Vec<u8>,
    pub(crate) room: Room,
    ghost kept: { content.items ≡ content_after start.items (steps_of marks.items written.items) },
    ghost within: { IsTrue (are_within start.items (steps_of marks.items written.items)) },
    ghost counted: { bytes_in marks.items ≡ length written.items },
    ghost content_fits: { length content.items ≤ room.bytes },
    ghost content_room: { room.bytes ≤ vec_capacity content },
    ghost written_fits: { length written.items ≤ room.bytes },
    ghost written_room: { room.bytes ≤ vec_capacity written },
    ghost marks_fit: { length marks.items ≤ room.calls },
    ghost marks_room: { room.calls ≤ vec_capacity marks },
}

impl Tape {
    ghost use Rattle.disk_model.specs.Tape.{tape_steps};

    pub(crate) fn new(alloc: Global, content: Vec<u8>, room: Room) -> Result<Tape, AllocError>
        requires { length content.items ≤ room.bytes }
        ensures start { IfOk result (λ t. t.start.items ≡ content.items) }
        ensures content { IfOk result (λ t. t.content.items ≡ content.items) }
        ensures blank { IfOk result (λ t. tape_steps t ≡ []) }
        ensures room { IfOk result (λ t. t.room ≡ room) }
    {
        let mut file = Vec::with_capacity(alloc, room.bytes as usize)?;
        file.extend_from_slice(&content)?;
        let marks = Vec::with_capacity(alloc, room.calls as usize)?;
        let written = Vec::with_capacity(alloc, room.bytes as usize)?;
        Ok(Tape {
            start: content,
            content: file,
            marks,
            written,
            room,
        })
    }

    #[tactic(auto, using(crate::proofs::Replays::steps_count))]
    pub(crate) fn write(&mut self, at: usize, bytes: &[u8])
        requires within { at ≤ length self.old.content.items }
        requires fits { at + length bytes.now ≤ self.old.room.bytes }
        requires written_fits { length self.old.written.items + length bytes.now
            ≤ self.old.room.bytes }
        requires marks_fit { length (tape_steps self.old) < self.old.room.calls }
        ensures start { self.new.start.items ≡ self.old.start.items }
        ensures room { self.new.room ≡ self.old.room }
        ensures steps { tape_steps self.new ≡ tape_steps self.old ++ Wrote at bytes.now ∷ [] }
        ensures content { self.new.content.items ≡ put self.old.content.items at bytes.now }
    {
        let _most = self.room.bytes;
        let mark = Mark::Write {
            at: at as u32,
            len: bytes.len() as u32,
        };
        overwrite(&mut self.content, at, bytes);
        self.written.extend_from_slice(bytes).unwrap();
        self.marks.push(mark).unwrap();
    }

    #[tactic(auto, using(crate::proofs::Replays::steps_count))]
    pub(crate) fn sync(&mut self)
        requires marks_fit { length (tape_steps self.old) < self.old.room.calls }
        ensures start { self.new.start.items ≡ self.old.start.items }
        ensures room { self.new.room ≡ self.old.room }
        ensures steps { tape_steps self.new ≡ tape_steps self.old ++ Synced ∷ [] }
        ensures content { self.new.content.items ≡ self.old.content.items }
    {
        self.marks.push(Mark::Sync).unwrap();
    }
}

/// Puts the bytes over those that stand there, and past the end, in room that is there.
pub(crate) fn overwrite(content: &mut Vec<u8>, at: usize, bytes: &[u8])
    requires within { at ≤ length content.old.items }
    requires room { at + length bytes.now ≤ vec_capacity content.old }
    ensures items { content.new.items ≡ put content.old.items at bytes.now }
    ensures capacity { vec_capacity content.old ≤ vec_capacity content.new }
{
    let there = (content.len() - at).min(bytes.len());
    let (over, more) = bytes.split_at(there);
    content[at..at + there].copy_from_slice(over);
    content.extend_from_slice(more).unwrap();
}
