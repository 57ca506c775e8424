//! Opening a journal.

ghost use Rattle.std.specs.Prelude.{◌≡◌, ◌<◌, ◌≤◌, ◌+◌, ◌⊎◌, List, ℕ, IfOk, IfErr, IsErrOf, All};
ghost use Rattle.std.specs.Prelude.{length};
ghost use Rattle.std.specs.Option.{ForSome};
ghost use Rattle.disk_model.specs.Disk.{Rose};
ghost use Rattle.disk_model.specs.Moments.{IsOnlyRead};
ghost use Rattle.answer_journal.specs.Storable.{IsStorableEvent};
ghost use Rattle.answer_journal.specs.Journal.{ReadsAs, Session};
ghost use Rattle.answer_journal.specs.End.{IsInPlace};
ghost use Rattle.answer_journal.specs.Found.{Refused};
ghost use Rattle.answer_journal.specs.Synced.{IsSynced};
ghost use Rattle.answer_journal.specs.Calls.{AreReadingCalls};

use crate::decode::session_of;
use crate::encode::LONGEST;
use crate::head::{Head, head_of};
use crate::pieces::events_of;
use crate::{Events, JFault, Journal};
use assign::Plan;
use disk_model::Disk;
use std::alloc::Global;

/// A journal and all that it says.
#[derive(Drop)]
pub struct Opened {
    pub journal: Journal,
    pub plan: Plan,
    /// The bytes of the vocabulary.
    pub voc: Vec<u8>,
    /// In the order in which they were added.
    pub events: Events,
}

/// So many bytes are read at a time at most: the longest record of a session behind its gate, and a
/// gate for the next.
const PIECE: usize = 4_194_311;

/// Reads a journal, after a sync. It writes nothing.
///
/// The file is read in pieces of at most 4,194,311 bytes, and whole records at a time are taken
/// from them. Each question that is given has 128 options; that its values are ones that the
/// vocabulary has isn't judged here.
#[tactic(auto, using(shared_lemmas::proofs::Read::none_given))]
pub fn open<D: Disk>(alloc: Global, disk: &mut D) -> Result<Opened, JFault>
    // What is read is what the bytes say, and the journal stands behind it.
    ensures opened { ForSome (D.content disk.old)
        (λ bytes. IfOk result (λ o. ReadsAs bytes (Session o.plan o.voc.items o.events.items))) }
    ensures there { IfOk result (λ o. IsInPlace D.Disk o.journal disk.new) }
    ensures records { IfOk result (λ o. o.journal.records ≡ length o.events.items + 1) }
    ensures storable { IfOk result (λ o. All IsStorableEvent o.events.items) }

    // A refusal is what the bytes say.
    ensures refused { ForSome (D.content disk.old)
        (λ bytes. IfErr result (λ e. (e ≡ JFault.DiskFault) ⊎ Refused bytes e)) }
    ensures failed { IsErrOf result JFault.DiskFault →
        Rose (D.faults disk.old) (D.faults disk.new) }

    // Where the disk tells nothing, either is what some bytes say.
    ensures some_session { IfOk result (λ o. (bytes : List ℕ)
        × ReadsAs bytes (Session o.plan o.voc.items o.events.items)) }
    ensures some_refusal { IfErr result (λ e. (e ≡ JFault.DiskFault)
        ⊎ ((bytes : List ℕ) × Refused bytes e)) }

    // It syncs first. A refusal leaves only what a read gives too, but where that sync is what
    // failed.
    ensures synced { ForSome (D.content disk.old) (λ bytes.
        IfErr result (λ e. IsSynced D.Disk (e ≡ JFault.DiskFault) disk.old disk.new bytes)) }

    // It makes few calls to the disk: five, and one more for each 4,194,047 bytes of the file.
    ensures few_calls { ForSome (D.content disk.old)
        (AreReadingCalls 5 (D.calls disk.old) (D.calls disk.new)) }

    // It writes nothing: the content is the same, and a crash at any moment leaves what it might
    // have left before.
    ensures only_read { IsOnlyRead D.Disk disk.old disk.new }
{
    let (head, size) = head_of(disk)?;
    match head {
        Head::Short | Head::Closed => return Err(JFault::NoSession),
        Head::Foreign => return Err(JFault::NotAJournal),
        Head::Open => {}
    }
    let mut buffer = vec![in alloc; 0u8; piece_size(size)]?;
    let count = disk.read(9, &mut buffer)?;
    let Some((plan, voc, rest)) = session_of(&buffer[..count]) else {
        return Err(JFault::Damaged(8));
    };
    let start = 9 + (count - rest.len()) as u64;
    let voc = voc.to_vec(alloc)?;
    let (events, raised, at) = events_of(alloc, disk, start, &mut buffer)?;
    let records = events.len() as u32 + 1;
    Ok(Opened {
        journal: Journal::at(at, records, raised),
        plan,
        voc,
        events,
    })
}

/// How large the buffer is: it takes the longest records, and a small file whole.
fn piece_size(size: u64) -> usize
    ensures wide { 264 < result }
    ensures few { result ≤ 4194311 }
    ensures whole { (result ≡ 4194311) ⊎ (size ≤ result) }
{
    (size.min(PIECE as u64) as usize).max(LONGEST + 1)
}
