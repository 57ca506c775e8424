//! What is said of a journal that isn't opened or made.

ghost use Rattle.std.specs.Prelude.{◌≡◌, ◌≢◌, IfOk, Some, Err};
ghost use Rattle.std.specs.String.{string_bytes};
ghost use Rattle.acq_said.specs.Journals.{store_text, refused_said, untold, SaysRefusal};

use crate::said::{Said, Unsaid, or_silent};
use acq_loop::Ending;
use answer_journal::JFault;
use disk_model::Disk;
use language::{Language, Memory};
use session_store::{Keep, SFault};
use std::alloc::{AllocError, Global};
use voc_read::voc_text;

/// Why a journal can't be made or read.
fn journal_text(alloc: Global, fault: JFault) -> Result<String, AllocError>
    ensures { IfOk result (λ text. string_bytes text ≡ store_text (SFault.Journal fault)) }
{
    match fault {
        JFault::SessionThere => String::from_str(alloc, "session there"),
        JFault::NoSession => String::from_str(alloc, "no session"),
        JFault::NotAJournal => String::from_str(alloc, "not a journal"),
        JFault::Damaged(at) => format!(in alloc; "damaged {at}"),
        JFault::TooManyRecords => String::from_str(alloc, "too many records"),
        JFault::Full => String::from_str(alloc, "full"),
        JFault::DiskFault => String::from_str(alloc, "disk fault"),
        JFault::Memory => String::from_str(alloc, "memory"),
    }
}

/// The text of a fault, as a user reads it behind `refused journal `.
fn store_text(alloc: Global, fault: SFault) -> Result<String, AllocError>
    ensures { IfOk result (λ text. string_bytes text ≡ store_text fault) }
{
    match fault {
        SFault::Journal(fault) => journal_text(alloc, fault),
        SFault::Voc(fault) => {
            let reason = voc_text(alloc, fault)?;
            format!(in alloc; "vocabulary {reason}")
        }
        SFault::Stray(i) => format!(in alloc; "stray {i}"),
        SFault::Memory => String::from_str(alloc, "memory"),
    }
}

/// Why nothing is said of a fault: memory was wanting, or the disk failed.
fn untold(fault: SFault) -> Option<Unsaid>
    ensures is { result ≡ untold fault }
    ensures no_read { result ≢ Some Unsaid.ReadFault }
    ensures lost { result ≡ Some Unsaid.DiskFault → fault ≡ SFault.Journal JFault.DiskFault }
{
    match fault {
        SFault::Memory => Some(Unsaid::Memory),
        SFault::Journal(JFault::Memory) => Some(Unsaid::Memory),
        SFault::Journal(JFault::DiskFault) => Some(Unsaid::DiskFault),
        SFault::Journal(JFault::SessionThere) => None,
        SFault::Journal(JFault::NoSession) => None,
        SFault::Journal(JFault::NotAJournal) => None,
        SFault::Journal(JFault::Damaged(_)) => None,
        SFault::Journal(JFault::TooManyRecords) => None,
        SFault::Journal(JFault::Full) => None,
        SFault::Voc(_) => None,
        SFault::Stray(_) => None,
    }
}

/// Says why there is no session, where the bytes of the file are to blame.
fn refusal(alloc: Global, fault: SFault) -> Result<Said, Memory>
    ensures { IfOk result (λ said. said ≡ refused_said fault) }
{
    let reason = store_text(alloc, fault)?;
    let text = format!(in alloc; "refused journal {reason}\n")?;
    Ok(Said::new(text, Ending::JournalRefused(fault)))
}

/// Says why there is no session, but for a fault of the disk and want of memory.
pub fn refused(alloc: Global, fault: SFault) -> Result<Said, Unsaid>
    ensures refuses { SaysRefusal fault result }
    ensures no_read { result ≢ Err Unsaid.ReadFault }
    ensures lost { result ≡ Err Unsaid.DiskFault → fault ≡ SFault.Journal JFault.DiskFault }
{
    match untold(fault) {
        Some(why) => Err(why),
        None => or_silent(refusal(alloc, fault)),
    }
}

/// The language of a keeper's session.
pub fn lang_of<D: Disk, P: Keep<D>>(keep: &P) -> &Language
    requires { P.sound keep.now }
    ensures is { result.now ≡ P.lang keep.now }
{
    keep.session().lang()
}
