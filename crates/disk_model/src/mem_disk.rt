//! A disk in memory. It keeps a record of its writes and syncs, so what a crash may leave is real
//! data.

ghost use Rattle.std.specs.Prelude.{◌≡◌, ◌≤◌, ◌<◌, ◌+◌, ◌-◌, ◌⊎◌, ◌↔◌, ◌++◌, [], ◌∷◌, ℕ, min, Some};
ghost use Rattle.std.specs.Prelude.{None, List, Bool, IsTrue, IsFalse, IsErr, is_err, IfOk, OnOk};
ghost use Rattle.std.specs.Prelude.{OnErr, All, length, take, drop};
ghost use Rattle.std.specs.Option.{ForSome, ForNone};
ghost use Rattle.disk_model.specs.Disk.{Torn, IsWritten, Follows, Only, AddsNothing, Elapses};
ghost use Rattle.disk_model.specs.Disk.{AreCalls, HasCause};
ghost use Rattle.disk_model.specs.Record.{Wrote, Synced};
ghost use Rattle.disk_model.specs.Crash.{AreImages, HaveCuts};

use crate::tape::Tape;
use crate::{Disk, Failed, Memory};
use std::alloc::Global;

/// How much a disk in memory holds: the bytes of its file, which also bound the bytes of all its
/// writes together, and the number of its writes and syncs.
#[derive(Clone, Copy, Debug, PartialEq, Eq)]
pub struct Room {
    pub bytes: u32,
    pub calls: u32,
}

/// A disk in memory that tells everything.
///
/// A call fails exactly where its number, from 0, is one of those that fail, or where no room is
/// left for it. A call that fails changes nothing but the counts. No call takes memory.
#[derive(Drop)]
pub struct MemDisk {
    tape: Tape,
    /// The numbers of the calls that fail.
    fails: Vec<u32>,
    /// How many calls were made, those that failed among them.
    calls: u64,
    /// How many of them failed.
    faults: u64,
}

impl MemDisk {
    ghost use Rattle.disk_model.specs.MemDisk.{content_of, start_of, steps_in, moment_of, room_of};
    ghost use Rattle.disk_model.specs.MemDisk.{IsFresh, FailsNext, HasSameRecord, IsCounted};
    ghost use Rattle.disk_model.specs.MemDisk.{Outgrows, IsWornOut};

    /// A disk with these bytes, all of them durable, whose calls with these numbers fail. All
    /// memory is taken here.
    pub fn new(
        alloc: Global,
        content: Vec<u8>,
        fails: Vec<u32>,
        room: Room,
    ) -> Result<MemDisk, Memory>
        requires { length content.items ≤ room.bytes }
        ensures { IfOk result (IsFresh content.items fails.items room) }
    {
        let tape = Tape::new(alloc, content, room)?;
        Ok(MemDisk {
            tape,
            fails,
            calls: 0,
            faults: 0,
        })
    }

    /// The bytes of the file.
    pub fn content(&self) -> &[u8]
        ensures { result.now ≡ content_of self.now }
    {
        &self.tape.content
    }

    /// How many writes and syncs were made. They part the time of the disk into moments: after
    /// none, after the first, ..
    #[tactic(auto, using(crate::proofs::Replays::steps_count))]
    pub fn moments(&self) -> usize
        ensures { result ≡ moment_of self.now }
    {
        self.tape.marks.len()
    }

    /// For tests: contents that a crash right after so many writes and syncs may leave. Of each
    /// write since the last sync before it there are: nothing, its first bytes, for each number of
    /// them, with what stood there before behind them or with garbage in the place of the others,
    /// and all of it; and of writes in a row each with each.
    #[tactic(auto, using(crate::proofs::Replays::steps_count))]
    pub fn images_at(
        &self,
        alloc: Global,
        moment: usize,
        garbage: u8,
    ) -> Result<Vec<Vec<u8>>, Memory>
        requires { moment ≤ moment_of self.now }
        ensures each { IfOk result (λ images.
            AreImages (start_of self.now) (take moment (steps_in self.now)) images.items) }
        // each write since the last sync may have been cut short anywhere
        ensures cuts { IfOk result (λ images.
            HaveCuts (start_of self.now) (take moment (steps_in self.now)) images.items) }
    {
        Ok(self.tape.images_at(alloc, moment, garbage)?)
    }

    /// Begins a call: it is counted, and fails where its number is one of those that fail, or where
    /// it has no room.
    fn begin(&mut self, has_room: bool) -> Result<(), Failed>
        ensures exact { IsErr result ↔ (FailsNext self.old ⊎ IsFalse has_room) }
        ensures counted { IsCounted self.old self.new (is_err result) }
        ensures kept { HasSameRecord self.old self.new }
    {
        let number = self.calls;
        let is_due = self.fails.iter().any(|k| u64::from(*k) == number);
        self.calls = self.calls.saturating_add(1);
        if is_due || !has_room {
            self.faults = self.faults.saturating_add(1);
            return Err(Failed);
        }
        Ok(())
    }

    #[tactic(auto, using(crate::proofs::Replays::steps_count))]
    fn has_room_to_sync(&self) -> bool
        ensures { IsFalse result ↔ IsWornOut self.now }
    {
        self.tape.marks.len() < self.tape.room.calls as usize
    }

    fn has_room_to_write(&self, at: u64, len: usize) -> bool
        ensures { IsFalse result ↔ (Outgrows self.now at len ⊎ IsWornOut self.now) }
    {
        let most = self.tape.room.bytes as usize;
        len <= most
            && at <= (most - len) as u64
            && self.tape.written.len() <= most - len
            && self.has_room_to_sync()
    }
}

impl Disk for MemDisk {
    ghost use Rattle.disk_model.specs.MemDisk.{content_of, start_of, steps_in, images_of};
    ghost use Rattle.disk_model.specs.MemDisk.{moment_of, left_of, calls_of, faults_of, FailsNext};
    ghost use Rattle.disk_model.specs.MemDisk.{IsWornOut, Outgrows, HasSameRecord, IsCounted};
    ghost use Rattle.disk_model.specs.MemDisk.{tells_truth, counts, only};

    ghost content = { λ d. Some (content_of d) };

    ghost may_leave = { images_of };

    ghost moment = { moment_of };

    ghost left_since = { left_of };

    ghost calls = { calls_of };

    ghost faults = { faults_of };

    ghost reads_true = { tells_truth };

    ghost counts_now = { counts };

    ghost only_now = { only };

    fn len(&mut self) -> Result<u64, Failed>
        ensures told { ForSome (Some (content_of self.old))
            (λ bytes. IfOk result (λ n. n ≡ length bytes)) }
        ensures same { Some (content_of self.new) ≡ Some (content_of self.old) }
        ensures crash { AddsNothing (images_of self.old) (images_of self.new) }
        ensures time { Elapses (moment_of self.old) (moment_of self.new) (left_of self.old)
            (left_of self.new) (images_of self.new) }
        ensures one_call { AreCalls 1 (calls_of self.old) (calls_of self.new) }
        ensures cause { HasCause (faults_of self.old) (faults_of self.new) result }

        // It fails exactly where its number is one of those, and changes nothing but the counts.
        ensures exact { IsErr result ↔ FailsNext self.old }
        ensures counted { IsCounted self.old self.new (is_err result) }
        ensures kept { HasSameRecord self.old self.new }
    {
        self.begin(true)?;
        Ok(self.tape.content.len() as u64)
    }

    fn read(&mut self, at: u64, buf: &mut [u8]) -> Result<usize, Failed>
        ensures told { ForSome (Some (content_of self.old))
            (λ bytes. IfOk result (λ n. (n ≡ min (length buf.old) (length bytes - at))
            × (buf.new ≡ take n (drop at bytes) ++ drop n buf.old))) }
        ensures fits { IfOk result (λ n. n ≤ length buf.old) }
        ensures same { Some (content_of self.new) ≡ Some (content_of self.old) }
        ensures crash { AddsNothing (images_of self.old) (images_of self.new) }
        ensures time { Elapses (moment_of self.old) (moment_of self.new) (left_of self.old)
            (left_of self.new) (images_of self.new) }
        ensures one_call { AreCalls 1 (calls_of self.old) (calls_of self.new) }
        ensures cause { HasCause (faults_of self.old) (faults_of self.new) result }

        // It fails exactly where its number is one of those, and changes nothing but the counts.
        ensures exact { IsErr result ↔ FailsNext self.old }
        ensures counted { IsCounted self.old self.new (is_err result) }
        ensures kept { HasSameRecord self.old self.new }
        ensures unread { OnErr result (buf.new ≡ buf.old) }
    {
        self.begin(true)?;
        Ok(copy_from(&self.tape.content, at, buf))
    }

    fn write_at(&mut self, at: u64, bytes: &[u8]) -> Result<(), Failed>
        requires { ForSome (Some (content_of self.old)) (λ old. at ≤ length old) }
        ensures written { ForSome (Some (content_of self.old))
            (λ old. IsWritten at bytes.now old (Some (content_of self.new)) result) }
        ensures silent { ForNone (Some (content_of self.old)) (Some (content_of self.new) ≡ None) }
        ensures crash { Follows (Torn at (length bytes.now)) (images_of self.old)
            (images_of self.new) }
        ensures time { Elapses (moment_of self.old) (moment_of self.new) (left_of self.old)
            (left_of self.new) (images_of self.new) }
        ensures one_call { AreCalls 1 (calls_of self.old) (calls_of self.new) }
        ensures cause { HasCause (faults_of self.old) (faults_of self.new) result }

        // It fails exactly where its number is one of those, or no room is left, and then changes
        // nothing but the counts.
        ensures exact { IsErr result
            ↔ (FailsNext self.old ⊎ Outgrows self.old at (length bytes.now) ⊎ IsWornOut self.old) }
        ensures counted { IsCounted self.old self.new (is_err result) }
        ensures kept { OnErr result (HasSameRecord self.old self.new) }
        ensures start { start_of self.new ≡ start_of self.old }
        ensures noted { OnOk result
            (steps_in self.new ≡ steps_in self.old ++ Wrote at bytes.now ∷ []) }
    {
        self.begin(self.has_room_to_write(at, bytes.len()))?;
        self.tape.write(at as usize, bytes);
        Ok(())
    }

    fn sync(&mut self) -> Result<(), Failed>
        ensures durable { ForSome (Some (content_of self.old))
            (λ bytes. OnOk result (Only bytes (images_of self.new))) }
        ensures same { Some (content_of self.new) ≡ Some (content_of self.old) }
        ensures crash { AddsNothing (images_of self.old) (images_of self.new) }
        ensures time { Elapses (moment_of self.old) (moment_of self.new) (left_of self.old)
            (left_of self.new) (images_of self.new) }
        ensures one_call { AreCalls 1 (calls_of self.old) (calls_of self.new) }
        ensures cause { HasCause (faults_of self.old) (faults_of self.new) result }

        // It fails exactly where its number is one of those, or no room is left, and then changes
        // nothing but the counts.
        ensures exact { IsErr result ↔ (FailsNext self.old ⊎ IsWornOut self.old) }
        ensures counted { IsCounted self.old self.new (is_err result) }
        ensures kept { OnErr result (HasSameRecord self.old self.new) }
        ensures start { start_of self.new ≡ start_of self.old }
        ensures noted { OnOk result (steps_in self.new ≡ steps_in self.old ++ Synced ∷ []) }
    {
        self.begin(self.has_room_to_sync())?;
        self.tape.sync();
        Ok(())
    }
}

/// Copies the bytes from a place on into the buffer, as many as it takes or there are.
fn copy_from(bytes: &[u8], at: u64, buf: &mut [u8]) -> usize
    ensures count { result ≡ min (length buf.old) (length bytes.now - at) }
    ensures copied { buf.new ≡ take result (drop at bytes.now) ++ drop result buf.old }
{
    if at >= bytes.len() as u64 {
        return 0;
    }
    let rest = &bytes[at as usize..];
    let count = rest.len().min(buf.len());
    buf[..count].copy_from_slice(&rest[..count]);
    count
}
