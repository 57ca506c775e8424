//! The first bytes of a file on a disk, after a sync.

ghost use Rattle.std.specs.Prelude.{◌≡◌, ◌<◌, ◌≤◌, ◌+◌, ◌^◌, ◌↔◌, length, take, List, ℕ, Some};
ghost use Rattle.std.specs.Prelude.{None, IsTrue, IsErr, OnOk, IfOk};
ghost use Rattle.std.specs.Option.{ForSome, ForNone};
ghost use Rattle.disk_model.specs.Disk.{Only, HasCause};
ghost use Rattle.disk_model.specs.Moments.{IsOnlyRead};
ghost use Rattle.answer_journal.specs.Heads.{IsFirst, IsHead};
ghost use Rattle.answer_journal.specs.Synced.{IsSynced};

use disk_model::{Disk, Failed};

/// `QUACQJ1` and a newline.
pub(crate) const MAGIC: [u8; 8] = [0x51, 0x55, 0x41, 0x43, 0x51, 0x4a, 0x31, 0x0a];

/// What the first bytes of a file say.
#[derive(Clone, Copy, Debug, PartialEq, Eq)]
pub(crate) enum Head {
    /// There are at most nine bytes.
    Short,
    /// It doesn't begin with the magic.
    Foreign,
    /// The first gate is closed.
    Closed,
    /// The first gate is open.
    Open,
}

/// Syncs, and reads the length and the first bytes.
pub(crate) fn head_of<D: Disk>(disk: &mut D) -> Result<(Head, u64), Failed>
    ensures head { ForSome (D.content disk.old)
        (λ bytes. IfOk result (λ found. IsHead bytes found.0)) }
    ensures size { ForSome (D.content disk.old)
        (λ bytes. IfOk result (λ found. found.1 ≡ length bytes)) }
    ensures durable { ForSome (D.content disk.old)
        (λ bytes. OnOk result (Only bytes (D.may_leave disk.new))) }
    ensures synced { ForSome (D.content disk.old)
        (λ bytes. IsSynced D.Disk (IsErr result) disk.old disk.new bytes) }
    ensures only_read { IsOnlyRead D.Disk disk.old disk.new }
    ensures few_calls { D.calls disk.new ≤ D.calls disk.old + 3 }
    ensures cause { HasCause (D.faults disk.old) (D.faults disk.new) result }
{
    disk.sync()?;
    let size = disk.len()?;
    if size <= 9 {
        return Ok((Head::Short, size));
    }
    let mut first = [0; 9];
    disk.read(0, &mut first)?;
    Ok((head_in(&first), size))
}

fn head_in(first: &[u8; 9]) -> Head
    ensures { IsFirst first.now result }
{
    if !has_magic(first) {
        Head::Foreign
    } else if first[8] == 1 {
        Head::Open
    } else {
        Head::Closed
    }
}

/// Whether the bytes begin with the magic.
fn has_magic(bytes: &[u8]) -> bool
    requires { 8 ≤ length bytes.now }
    ensures { IsTrue result ↔ (take 8 bytes.now ≡ MAGIC) }
{
    bytes[..8] == MAGIC[..]
}
