//! The events of a journal, read from the disk in pieces.

ghost use Rattle.std.specs.Prelude.{◌≡◌, ◌<◌, ◌≤◌, ◌+◌, ◌^◌, ◌++◌, ◌⊎◌, [], List, ℕ, Some, None};
ghost use Rattle.std.specs.Prelude.{IsTrue, IsFalse, IsErrOf, length, drop, flat_map, All, IfOk};
ghost use Rattle.std.specs.Prelude.{IfErr, OnOk, MatchResult};
ghost use Rattle.std.specs.Option.{ForSome};
ghost use Rattle.answer_journal.specs.Format.{MOST_RECORDS};
ghost use Rattle.disk_model.specs.Disk.{Rose};
ghost use Rattle.disk_model.specs.Moments.{IsOnlyRead};
ghost use Rattle.answer_journal.specs.Records.{with_record, is_raised_by, MayFollow};
ghost use Rattle.answer_journal.specs.Found.{AreRecordsRead, WereRead, HasEvents, BeginsWith};
ghost use Rattle.answer_journal.specs.Found.{EventsRefused, gate_reached, IsReached, IsProgress};
ghost use Rattle.answer_journal.specs.Found.{IsFar};
ghost use Rattle.answer_journal.specs.Calls.{AreReadingCalls, TakesPieces};

use crate::decode::record_of;
use crate::encode::LONGEST;
use crate::record::Record;
use crate::{Events, JFault, MOST_RECORDS};
use disk_model::Disk;
use std::alloc::Global;

/// How far a piece was read: the place of a gate.
#[derive(Clone, Copy, Debug, PartialEq, Eq)]
pub(crate) enum Reached {
    /// The gate is closed.
    Closed(u64),
    /// What stands behind the gate may go on past the piece.
    Further(u64),
}

/// The events that stand from the gate at `start` on, whether the journal is raised among them, and
/// the place of the closed gate behind them. The buffer takes a piece at a time.
pub(crate) fn events_of<D: Disk>(
    alloc: Global,
    disk: &mut D,
    start: u64,
    buffer: &mut [u8],
) -> Result<(Events, bool, u64), JFault>
    requires wide { 264 < length buffer.old }
    requires behind { 0 < start }
    requires near { start < 2 ^ 62 }
    requires within { ForSome (D.content disk.old) (λ bytes. start < length bytes) }
    ensures found { ForSome (D.content disk.old) (λ bytes.
        IfOk result (λ found. HasEvents start found.2 found.0.items found.1 (drop start bytes))) }
    ensures refused { ForSome (D.content disk.old) (λ bytes.
        IfErr result (λ e. (e ≡ JFault.DiskFault) ⊎ EventsRefused start (drop start bytes) e)) }
    ensures some_bytes { IfErr result (λ e. (e ≡ JFault.DiskFault)
        ⊎ ((bytes : List ℕ) × EventsRefused start bytes e)) }
    ensures read { IfOk result (λ found. WereRead start found.2 found.0.items found.1) }
    ensures failed { IsErrOf result JFault.DiskFault →
        Rose (D.faults disk.old) (D.faults disk.new) }
    ensures only_read { IsOnlyRead D.Disk disk.old disk.new }
    ensures few_calls { ForSome (D.content disk.old) (λ bytes. TakesPieces (length buffer.old)
        bytes → AreReadingCalls 1 (D.calls disk.old) (D.calls disk.new) bytes) }
{
    let mut events = Events::new(alloc);
    let mut raised = false;
    let mut at = start;
    'pieces: loop {
        let count = disk.read(at, buffer)?;
        let is_last = count < buffer.len();
        match events_in(&buffer[..count], is_last, at, &mut events, &mut raised)? {
            Reached::Closed(place) => return Ok((events, raised, place)),
            Reached::Further(place) => at = place,
        }
    }
}

/// Adds the events of a piece that begins with the gate at `at`, up to a closed gate or to one
/// whose record may not be whole in the piece, and notes whether the journal is raised among them.
/// The last piece goes to the end of the file.
fn events_in(
    piece: &[u8],
    is_last: bool,
    at: u64,
    events: &mut Events,
    raised: &mut bool,
) -> Result<Reached, JFault>
    requires near { at < 2 ^ 63 }
    requires few { length events.old.items < MOST_RECORDS }
    ensures read { (bytes more : List ℕ) (start : ℕ) (records : List Record) →
        AreRecordsRead records start at events.old.items raised.old →
        BeginsWith bytes records (piece.now ++ more) → (IsTrue is_last → more ≡ []) → MatchResult
        result (IsReached start events.new.items raised.new bytes) (EventsRefused start bytes) }
    ensures some_bytes { (start : ℕ) (records : List Record) →
        AreRecordsRead records start at events.old.items raised.old → MatchResult result
        (λ reached. WereRead start (gate_reached reached) events.new.items raised.new)
        (λ e. (bytes : List ℕ) × EventsRefused start bytes e) }
    ensures few { OnOk result (length events.new.items < MOST_RECORDS) }
    ensures progress { (IsFalse is_last → 264 < length piece.now) → IfOk result (IsProgress at) }
    ensures far { IfOk result (IsFar is_last at (length piece.now)) }
    ensures undisturbed { IfErr result (λ e. e ≡ JFault.DiskFault → ⊥) }
{
    let mut rest = piece;
    'records: while is_last || rest.len() > LONGEST {
        let place = at + (piece.len() - rest.len()) as u64;
        let [gate, behind @ ..] = rest else {
            return Err(JFault::Damaged(place));
        };
        if *gate != 1 {
            return Ok(Reached::Closed(place));
        }
        let Some((next, after)) = record_of(behind, *raised) else {
            return Err(JFault::Damaged(place));
        };
        note(next, events, raised)?;
        rest = after;
    }
    Ok(Reached::Further(at + (piece.len() - rest.len()) as u64))
}

/// Notes what a record says.
fn note(next: Record, events: &mut Events, raised: &mut bool) -> Result<(), JFault>
    requires follows { MayFollow raised.old next }
    requires few { length events.old.items < MOST_RECORDS }
    ensures events { OnOk result (events.new.items ≡ with_record events.old.items next) }
    ensures raised { OnOk result (raised.new ≡ is_raised_by raised.old next) }
    ensures few { OnOk result (length events.new.items < MOST_RECORDS) }
    ensures refused { IfErr result (λ e. (e ≡ JFault.Memory)
        ⊎ ((e ≡ JFault.TooManyRecords)
        × (MOST_RECORDS ≤ length (with_record events.old.items next)))) }
{
    match next {
        Record::Added(event) => {
            events.push(&event)?;
            if events.len() < MOST_RECORDS as usize {
                Ok(())
            } else {
                Err(JFault::TooManyRecords)
            }
        }
        Record::Raising => {
            *raised = true;
            Ok(())
        }
    }
}
