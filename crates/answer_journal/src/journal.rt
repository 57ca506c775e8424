//! The place behind the last record, and what is added there.

ghost use Rattle.std.specs.Prelude.{◌≡◌, ◌≤◌, ◌+◌, ◌*◌, ◌⊎◌, ◌↔◌, IsTrue, IsFalse, IsErr, IfErr};
ghost use Rattle.std.specs.Prelude.{IsErrOf, OnOk};
ghost use Rattle.answer_journal.specs.Format.{MOST_RECORDS};
ghost use Rattle.disk_model.specs.Disk.{AreCalls, Rose, HasCause};
ghost use Rattle.disk_model.specs.Moments.{LeavesBehind};
ghost use Rattle.answer_journal.specs.Storable.{IsStorableEvent};

use crate::JFault;
use crate::encode::encode;
use crate::record::Record;
use crate::steps::add_record;
use assign::Event;
use disk_model::{Disk, Failed};
use std::marker::Model;

/// The most records that a journal may have. The one that raises it isn't counted.
pub const MOST_RECORDS: u32 = 1_000_000;

/// Where the closed gate behind the records of a file stands. The file isn't held: each call that
/// writes is lent the disk that the journal was made or opened on.
#[derive(Debug, Drop)]
pub struct Journal {
    at: u64,
    records: u32,
    raised: bool,
    live: bool,
}

impl Model for Journal {
    ghost use Rattle.std.specs.Prelude.{ℕ, ◌≤◌, ◌+◌, ◌*◌};
    ghost use Rattle.answer_journal.specs.End.{End, room_to_raise};
    ghost use Rattle.answer_journal.specs.Format.{MOST_RECORDS};

    ghost Value = { End };

    ghost view = { λ j.
        record { at = j.at; records = j.records; raised = j.raised; live = j.live } };

    ghost invariant = { λ j. (j.records ≤ MOST_RECORDS)
        × (j.at + room_to_raise j.raised ≤ 5000000 + 264 * j.records) };

    ghost inverse = { λ p.
        record { at = p.at; records = p.records; raised = p.raised; live = p.live } };
}

impl Journal {
    ghost use Rattle.answer_journal.specs.Records.{HasPlace, is_raised_by};
    ghost use Rattle.answer_journal.specs.End.{IsInPlace, HasGivenUp, MayBeAdded, counted_with};
    ghost use Rattle.answer_journal.specs.End.{room_to_raise, HasAdded, IsOldOrAdded, HasNew};
    ghost use Rattle.answer_journal.specs.End.{IsOldOrNew, IsSame};

    // A live journal.
    pub(crate) fn at(at: u64, records: u32, raised: bool) -> Journal
        requires few { records ≤ MOST_RECORDS }
        requires near { at + room_to_raise raised ≤ 5000000 + 264 * records }
        ensures place { result.at ≡ at }
        ensures records { result.records ≡ records }
        ensures raised { result.raised ≡ raised }
        ensures live { IsTrue result.live }
    {
        Journal {
            at,
            records,
            raised,
            live: true,
        }
    }

    /// How many records there are: that of the session, and one for each event.
    pub fn records(&self) -> u32
        ensures { result ≡ self.now.records }
    {
        self.records
    }

    /// Whether take-backs may be added.
    pub fn is_raised(&self) -> bool
        ensures { result ≡ self.now.raised }
    {
        self.raised
    }

    /// Whether it may be written: until a call on it has answered `DiskFault`.
    pub fn is_live(&self) -> bool
        ensures { result ≡ self.now.live }
    {
        self.live
    }

    /// Adds an event: a take-back only where the journal is raised. After `Ok` each crash leaves it
    /// there. `Full` comes exactly at 1,000,000 records. After `DiskFault` the event may be there
    /// or not: the file has to be opened again. Four calls are made to the disk, and no memory is
    /// taken.
    pub fn append<D: Disk>(&mut self, disk: &mut D, event: &Event) -> Result<(), JFault>
        requires there { IsInPlace D.Disk self.old disk.old }
        requires storable { IsStorableEvent event.now }
        requires has_place { HasPlace self.old.raised event.now }

        // After `Ok` the event is the last. A crash at any moment leaves the events from before the
        // call, with the new one or without.
        ensures leaves { LeavesBehind D.Disk 4 disk.old disk.new result
            (λ old. HasNew old event.now) (λ old. IsOldOrNew old event.now) }
        ensures there { OnOk result (IsInPlace D.Disk self.new disk.new) }
        ensures counted { OnOk result (self.new.records ≡ self.old.records + 1) }
        ensures raised { self.new.raised ≡ self.old.raised }

        // It doesn't give up by itself.
        ensures faults { IfErr result (λ e. (e ≡ JFault.Full) ⊎ (e ≡ JFault.DiskFault)) }
        ensures full { IsErrOf result JFault.Full ↔ (self.old.records ≡ MOST_RECORDS) }
        ensures full_keeps { IsErrOf result JFault.Full →
            (self.new ≡ self.old) × (disk.new ≡ disk.old) }
        // where the disk failed, it stands where it stood
        ensures failed { IsErrOf result JFault.DiskFault →
            Rose (D.faults disk.old) (D.faults disk.new) × HasGivenUp self.old self.new }

        // It makes four calls to the disk, and no more where it fails.
        ensures calls { OnOk result (AreCalls 4 (D.calls disk.old) (D.calls disk.new)) }
    {
        if self.records >= MOST_RECORDS {
            return Err(JFault::Full);
        }
        self.add(disk, &Record::Added(*event))?;
        Ok(())
    }

    /// Raises the journal, so that take-backs may be added. What it says stays the same, and no
    /// record more is counted. After `DiskFault`, the only refusal, the file has to be opened
    /// again. Four calls are made to the disk, and no memory is taken.
    pub fn raise<D: Disk>(&mut self, disk: &mut D) -> Result<(), JFault>
        requires there { IsInPlace D.Disk self.old disk.old }
        requires not_raised { IsFalse self.old.raised }

        // A crash at any moment leaves the events from before the call.
        ensures leaves { LeavesBehind D.Disk 4 disk.old disk.new result IsSame IsSame }
        ensures there { OnOk result (IsInPlace D.Disk self.new disk.new) }
        ensures counted { self.new.records ≡ self.old.records }
        ensures raised { OnOk result (IsTrue self.new.raised) }

        // It doesn't give up by itself.
        ensures faults { IfErr result (λ e. e ≡ JFault.DiskFault) }
        // where the disk failed, it stands where it stood
        ensures failed { IsErr result → Rose (D.faults disk.old) (D.faults disk.new)
            × HasGivenUp self.old self.new }

        // It makes four calls to the disk, and no more where it fails.
        ensures calls { OnOk result (AreCalls 4 (D.calls disk.old) (D.calls disk.new)) }
    {
        self.add(disk, &Record::Raising)?;
        Ok(())
    }

    // Adds a record that may stand there.
    fn add<D: Disk>(&mut self, disk: &mut D, next: &Record) -> Result<(), Failed>
        requires there { IsInPlace D.Disk self.old disk.old }
        requires fits { MayBeAdded self.old next.now }

        ensures leaves { LeavesBehind D.Disk 4 disk.old disk.new result
            (λ old. HasAdded old next.now) (λ old. IsOldOrAdded old next.now) }
        ensures there { OnOk result (IsInPlace D.Disk self.new disk.new) }
        ensures counted { OnOk result (self.new.records ≡ counted_with self.old.records next.now) }
        ensures raised { OnOk result (self.new.raised ≡ is_raised_by self.old.raised next.now) }
        ensures cause { HasCause (D.faults disk.old) (D.faults disk.new) result }
        ensures stays { IsErr result → HasGivenUp self.old self.new }
        ensures calls { OnOk result (AreCalls 4 (D.calls disk.old) (D.calls disk.new)) }
    {
        let rest = encode(next);
        match add_record(disk, self.at, rest.as_slice()) {
            Ok(()) => {
                self.at += rest.len() as u64;
                self.records = next.counted_with(self.records);
                self.raised = next.is_raised_by(self.raised);
                Ok(())
            }
            Err(Failed) => {
                self.live = false;
                Err(Failed)
            }
        }
    }
}
