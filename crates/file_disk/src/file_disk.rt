//! A named file as a disk.

ghost use Rattle.std.specs.Prelude.{◌≡◌, ◌≤◌, ◌≢◌, ◌⊎◌, ◌+◌, ◌-◌, ◌^◌, ◌++◌, min, max, Some, None};
ghost use Rattle.std.specs.Prelude.{IsSome, IsNone, IsErr, IsSomeAnd, IfOk, OnOk, OnErr, IfSome};
ghost use Rattle.std.specs.Prelude.{length, take, drop};
ghost use Rattle.std.specs.Option.{ForSome, ForNone};
ghost use Rattle.disk_model.specs.Disk.{Torn, IsWritten, Follows, Only, AddsNothing, Elapses};
ghost use Rattle.disk_model.specs.Disk.{AreCalls, Rose, HasCause};
ghost use Rattle.file_disk.specs.Seen.{HasAnotherLength, IsLengthOf};

use crate::NamedFile;
use disk_model::{Disk, Failed};

/// A file as a disk. A write fails, and writes nothing, where the file hasn't the length any more
/// that was last seen: then another program has written to it, or cut it.
#[derive(Drop)]
pub struct FileDisk<F> {
    file: F,
    /// Its length when it was last asked for or written. None before that.
    seen: Option<u64>,
    /// How often a call failed.
    faults: u64,
}

impl<F: NamedFile> FileDisk<F> {
    /// The file as a disk that hasn't failed yet and has seen no length.
    pub fn new(file: F) -> Self
        ensures file { result.file ≡ file }
        ensures unseen { result.seen ≡ None }
        ensures no_faults { result.faults ≡ 0 }
    {
        FileDisk {
            file,
            seen: None,
            faults: 0,
        }
    }

    /// The file's length, where it tells one and none was seen before, or the same. Else None.
    fn length_as_seen(&self) -> Option<u64>
        ensures told { ForSome (F.content self.now.file)
            (λ bytes. IfSome result (λ n. n ≡ length bytes)) }
        ensures noticed { ForSome (F.content self.now.file)
            (λ bytes. IsSomeAnd self.now.seen (λ n. n ≢ length bytes) → IsNone result) }
        ensures cause { IsNone result →
            F.reads_fail self.now.file ⊎ HasAnotherLength self.now.seen (F.content self.now.file) }
    {
        let Ok(length) = self.file.length() else {
            return None;
        };
        match self.seen {
            Some(seen) if seen != length => None,
            _ => Some(length),
        }
    }

    /// Counts a fault.
    fn fault(&mut self) -> Failed
        ensures rose { Rose self.old.faults self.new.faults }
        ensures later { self.old.faults ≤ self.new.faults }
        ensures file { self.new.file ≡ self.old.file }
        ensures seen { self.new.seen ≡ self.old.seen }
    {
        self.faults = self.faults.saturating_add(1);
        Failed
    }
}

impl<F: NamedFile> Disk for FileDisk<F> {
    ghost content = { λ d. F.content d.file };

    ghost may_leave = { λ d. F.may_leave d.file };

    ghost moment = { λ d. F.moment d.file };

    ghost left_since = { λ d. F.left_since d.file };

    // calls aren't counted
    ghost calls = { λ d. 2 ^ 64 - 1 };

    ghost faults = { λ d. d.faults };

    ghost reads_true = { λ d. F.reads_true d.file };

    ghost counts_now = { λ d. F.counts_now d.file };

    ghost only_now = { λ d. F.only_now d.file };

    fn len(&mut self) -> Result<u64, Failed>
        ensures told { ForSome (F.content self.old.file)
            (λ bytes. IfOk result (λ n. n ≡ length bytes)) }
        ensures same { F.content self.new.file ≡ F.content self.old.file }
        ensures crash { AddsNothing (F.may_leave self.old.file) (F.may_leave self.new.file) }
        ensures time { Elapses (F.moment self.old.file) (F.moment self.new.file)
            (F.left_since self.old.file) (F.left_since self.new.file) (F.may_leave self.new.file) }
        ensures one_call { AreCalls 1 (2 ^ 64 - 1) (2 ^ 64 - 1) }
        ensures cause { HasCause self.old.faults self.new.faults result }
        ensures kept { OnOk result (self.new.faults ≡ self.old.faults) }

        // It fails only where the file does, and sees the length. What was seen stays where it
        // fails, and the file in any case.
        ensures failed { IsErr result → F.reads_fail self.old.file }
        ensures seen { OnOk result (IsLengthOf self.new.seen (F.content self.new.file)) }
        ensures still { OnErr result (self.new.seen ≡ self.old.seen) }
        ensures file { self.new.file ≡ self.old.file }
    {
        match self.file.length() {
            Ok(length) => {
                self.seen = Some(length);
                Ok(length)
            }
            Err(Failed) => Err(self.fault()),
        }
    }

    fn read(&mut self, at: u64, buf: &mut [u8]) -> Result<usize, Failed>
        ensures told { ForSome (F.content self.old.file)
            (λ bytes. IfOk result (λ n. (n ≡ min (length buf.old) (length bytes - at))
            × (buf.new ≡ take n (drop at bytes) ++ drop n buf.old))) }
        ensures fits { IfOk result (λ n. n ≤ length buf.old) }
        ensures same { F.content self.new.file ≡ F.content self.old.file }
        ensures crash { AddsNothing (F.may_leave self.old.file) (F.may_leave self.new.file) }
        ensures time { Elapses (F.moment self.old.file) (F.moment self.new.file)
            (F.left_since self.old.file) (F.left_since self.new.file) (F.may_leave self.new.file) }
        ensures one_call { AreCalls 1 (2 ^ 64 - 1) (2 ^ 64 - 1) }
        ensures cause { HasCause self.old.faults self.new.faults result }
        ensures kept { OnOk result (self.new.faults ≡ self.old.faults) }

        // It fails only where the file does, or where a place behind the last number of 64 bits is
        // to be read. It changes nothing.
        ensures failed { IsErr result →
            F.reads_fail self.old.file ⊎ (2 ^ 64 ≤ at + length buf.old) }
        ensures seen { self.new.seen ≡ self.old.seen }
        ensures file { self.new.file ≡ self.old.file }
    {
        match read_whole(&self.file, at, buf) {
            Ok(count) => Ok(count),
            Err(Failed) => Err(self.fault()),
        }
    }

    fn write_at(&mut self, at: u64, bytes: &[u8]) -> Result<(), Failed>
        requires { ForSome (F.content self.old.file) (λ old. at ≤ length old) }
        ensures written { ForSome (F.content self.old.file)
            (λ old. IsWritten at bytes.now old (F.content self.new.file) result) }
        ensures silent { ForNone (F.content self.old.file) (F.content self.new.file ≡ None) }
        ensures crash { Follows (Torn at (length bytes.now)) (F.may_leave self.old.file)
            (F.may_leave self.new.file) }
        ensures time { Elapses (F.moment self.old.file) (F.moment self.new.file)
            (F.left_since self.old.file) (F.left_since self.new.file) (F.may_leave self.new.file) }
        ensures one_call { AreCalls 1 (2 ^ 64 - 1) (2 ^ 64 - 1) }
        ensures cause { HasCause self.old.faults self.new.faults result }
        ensures kept { OnOk result (self.new.faults ≡ self.old.faults) }

        // It fails where the file has another length than the one last seen, and else only where
        // the file does. The length that was seen stays where it fails, so the next write doesn't
        // pass over what this one noticed.
        ensures noticed { ForSome (F.content self.old.file) (λ bytes. IsSomeAnd self.old.seen
            (λ n. n ≢ length bytes) → IsErr result × (self.new.file ≡ self.old.file)) }
        ensures failed { IsErr result → F.reads_fail self.old.file ⊎ F.writes_fail self.old.file at
            (length bytes.now) ⊎ HasAnotherLength self.old.seen (F.content self.old.file) }
        ensures seen { OnOk result (IsLengthOf self.new.seen (F.content self.new.file)) }
        ensures still { OnErr result (self.new.seen ≡ self.old.seen) }
    {
        let Some(length) = self.length_as_seen() else {
            return Err(self.fault());
        };
        match self.file.write_all(at, bytes) {
            Ok(()) => {
                self.seen = Some(length.max(at.saturating_add(bytes.len() as u64)));
                Ok(())
            }
            Err(Failed) => Err(self.fault()),
        }
    }

    fn sync(&mut self) -> Result<(), Failed>
        ensures durable { ForSome (F.content self.old.file)
            (λ bytes. OnOk result (Only bytes (F.may_leave self.new.file))) }
        ensures same { F.content self.new.file ≡ F.content self.old.file }
        ensures crash { AddsNothing (F.may_leave self.old.file) (F.may_leave self.new.file) }
        ensures time { Elapses (F.moment self.old.file) (F.moment self.new.file)
            (F.left_since self.old.file) (F.left_since self.new.file) (F.may_leave self.new.file) }
        ensures one_call { AreCalls 1 (2 ^ 64 - 1) (2 ^ 64 - 1) }
        ensures cause { HasCause self.old.faults self.new.faults result }
        ensures kept { OnOk result (self.new.faults ≡ self.old.faults) }

        // It fails only where the file does.
        ensures failed { IsErr result → F.syncs_fail self.old.file }
        ensures seen { self.new.seen ≡ self.old.seen }
    {
        match self.file.sync() {
            Ok(()) => Ok(()),
            Err(Failed) => Err(self.fault()),
        }
    }
}

/// Reads until the buffer is full or the file ends.
fn read_whole<F: NamedFile>(file: &F, at: u64, buf: &mut [u8]) -> Result<usize, Failed>
    ensures told { ForSome (F.content file.now)
        (λ bytes. IfOk result (λ n. (n ≡ min (length buf.old) (length bytes - at))
        × (buf.new ≡ take n (drop at bytes) ++ drop n buf.old))) }
    ensures fits { IfOk result (λ n. n ≤ length buf.old) }
    ensures cause { IsErr result → F.reads_fail file.now ⊎ (2 ^ 64 ≤ at + length buf.old) }
{
    let mut done = 0;
    while done < buf.len() {
        let Some(place) = at.checked_add(done as u64) else {
            return Err(Failed);
        };
        let count = file.read_some(place, &mut buf[done..])?;
        if count == 0 {
            break;
        }
        done += count;
    }
    Ok(done)
}
