//! Making a journal.

ghost use Rattle.std.specs.Prelude.{◌≡◌, ◌≤◌, ◌⊎◌, List, [], ◌∷◌, ◌++◌, ℕ, IsFalse, IfOk, IfErr};
ghost use Rattle.std.specs.Prelude.{IsErrOf, OnOk, length};
ghost use Rattle.std.specs.Option.{ForSome};
ghost use Rattle.disk_model.specs.Disk.{Only, Rose, HasCause};
ghost use Rattle.disk_model.specs.Moments.{LeavesBehind, IsOnlyRead};
ghost use Rattle.answer_journal.specs.Format.{MAGIC, plan_byte, session_tail, MOST_VOCABULARY};
ghost use Rattle.answer_journal.specs.Journal.{IsClosedAfter, HasNoSession};
ghost use Rattle.answer_journal.specs.End.{IsInPlace};
ghost use Rattle.answer_journal.specs.Heads.{IsHead};
ghost use Rattle.answer_journal.specs.Making.{StartsWith, IsCreating, CreateRefused};

use crate::head::{Head, head_of};
use crate::steps::{add_record, write_synced};
use crate::{JFault, Journal};
use assign::Plan;
use disk_model::{Disk, Failed};
use std::alloc::{AllocError, Global};

/// Makes a journal on a file that holds none: with this plan, these bytes of a vocabulary, and no
/// event.
///
/// `NotAJournal` and `SessionThere` are told by the first nine bytes. All memory is taken before
/// the first write. Where the file was longer, its old bytes stay behind the new end; nothing is
/// cut off. After `DiskFault` a file that had no session may have none or the new one, and any
/// other is as it was.
#[tactic(auto, using(shared_lemmas::proofs::Read::none_given))]
pub fn create<D: Disk>(
    alloc: Global,
    disk: &mut D,
    plan: Plan,
    voc: &[u8],
) -> Result<Journal, JFault>
    requires short { length voc.now ≤ MOST_VOCABULARY }
    // After `Ok` there is the new session. A crash at any moment leaves what it might have left
    // before, or no session, or the new one with no event.
    ensures leaves { LeavesBehind D.Disk 9 disk.old disk.new result (λ _. StartsWith plan voc.now)
        (λ _. IsCreating (D.may_leave disk.old) plan voc.now) }
    ensures there { IfOk result (λ j. IsInPlace D.Disk j disk.new) }
    ensures records { IfOk result (λ j. j.records ≡ 1) }
    ensures not_raised { IfOk result (λ j. IsFalse j.raised) }

    // It is made only where there is no session, and refused by what the bytes say.
    ensures free { ForSome (D.content disk.old) (λ bytes. OnOk result (HasNoSession bytes)) }
    ensures refused { ForSome (D.content disk.old) (λ bytes. IfErr result (CreateRefused bytes)) }
    // where the disk tells nothing, by what some bytes say
    ensures some_refusal { IfErr result (λ e. (bytes : List ℕ) × CreateRefused bytes e) }
    ensures failed { IsErrOf result JFault.DiskFault →
        Rose (D.faults disk.old) (D.faults disk.new) }

    // Where the disk didn't fail, a refusal leaves the file and each content of a crash as they
    // were. Where the file holds a session or is no journal, it leaves them so whatever failed.
    ensures untouched { IfErr result (λ e. (e ≡ JFault.DiskFault)
        ⊎ IsOnlyRead D.Disk disk.old disk.new) }
    ensures spared { ForSome (D.content disk.old) (λ bytes. HasNoSession bytes
        ⊎ IsOnlyRead D.Disk disk.old disk.new) }
{
    let (head, _) = head_of(disk)?;
    match head {
        Head::Foreign => return Err(JFault::NotAJournal),
        Head::Open => return Err(JFault::SessionThere),
        Head::Short | Head::Closed => {}
    }
    let rest = session_bytes(alloc, plan, voc)?;
    empty(disk, head)?;
    add_record(disk, 8, &rest)?;
    Ok(Journal::at(8 + rest.len() as u64, 1, false))
}

/// Makes a file with no session one that has the magic and a closed gate.
fn empty<D: Disk>(disk: &mut D, head: Head) -> Result<(), Failed>
    requires head { ForSome (D.content disk.old) (λ bytes. IsHead bytes head) }
    requires free { (head ≡ Head.Short) ⊎ (head ≡ Head.Closed) }
    requires durable { ForSome (D.content disk.old) (λ bytes. Only bytes (D.may_leave disk.old)) }
    ensures leaves { LeavesBehind D.Disk 2 disk.old disk.new result (λ _. IsClosedAfter MAGIC)
        (λ _. HasNoSession) }
    ensures cause { HasCause (D.faults disk.old) (D.faults disk.new) result }
{
    match head {
        Head::Short => write_synced(
            disk,
            0,
            &[0x51, 0x55, 0x41, 0x43, 0x51, 0x4a, 0x31, 0x0a, 0],
        ),
        Head::Foreign | Head::Closed | Head::Open => Ok(()),
    }
}

/// The record of a session behind its gate, and a closed gate for the next.
#[tactic(auto, unfolding(crate::specs::Format::session_tail))]
fn session_bytes(alloc: Global, plan: Plan, voc: &[u8]) -> Result<Vec<u8>, AllocError>
    requires { length voc.now ≤ MOST_VOCABULARY }
    ensures { IfOk result (λ v. v.items ≡ session_tail plan voc.now ++ 0 ∷ []) }
{
    let size = (1 + voc.len() as u32).to_be_bytes();
    let front = [b'S', size[0], size[1], size[2], size[3], byte_of(plan)];
    let mut out = Vec::with_capacity(alloc, voc.len() + 7)?;
    out.extend_from_slice(&front)?;
    out.extend_from_slice(voc)?;
    out.push(0)?;
    Ok(out)
}

fn byte_of(plan: Plan) -> u8
    ensures { result ≡ plan_byte plan }
{
    match plan {
        Plan::Scopes => 1,
        Plan::Quacq => 2,
        Plan::Multi => 3,
    }
}
