//! A file in memory, which tells everything.

ghost use Rattle.std.specs.Prelude.{◌≡◌, ◌≤◌, ◌⊎◌, ◌-◌, ◌++◌, Some, None, length, take, drop, max};
ghost use Rattle.std.specs.Prelude.{IsErr, IfOk, OnOk};
ghost use Rattle.std.specs.Option.{ForSome, ForNone};
ghost use Rattle.disk_model.specs.Disk.{Torn, IsWritten, Follows, Only, AddsNothing, Elapses};
ghost use Rattle.disk_model.specs.MemDisk.{content_of, images_of, moment_of, left_of, FailsNext};
ghost use Rattle.disk_model.specs.MemDisk.{Outgrows, IsWornOut, tells_truth, counts, only};

use crate::NamedFile;
use disk_model::{Disk, Failed, MemDisk};

/// A disk in memory as a file, of which a read gives a few bytes at a time, as a system's may.
#[derive(Drop)]
pub struct MemFile {
    disk: MemDisk,
    /// How many bytes a read gives at most.
    most: usize,
    ghost some: { 1 ≤ most },
}

impl MemFile {
    /// The disk's file, of which a read gives so many bytes at most, and one at least.
    pub fn new(disk: MemDisk, most: usize) -> MemFile
        ensures disk { result.disk ≡ disk }
        ensures most { result.most ≡ max 1 most }
    {
        MemFile {
            disk,
            most: most.max(1),
        }
    }

    /// The disk within, as it stands.
    pub fn into_inner(self) -> MemDisk
        ensures { result ≡ self.disk }
    {
        let MemFile { disk, .. } = self;
        disk
    }
}

impl NamedFile for MemFile {
    ghost content = { λ file. Some (content_of file.disk) };

    ghost may_leave = { λ file. images_of file.disk };

    ghost moment = { λ file. moment_of file.disk };

    ghost left_since = { λ file. left_of file.disk };

    ghost reads_fail = { λ file. ⊥ };

    ghost writes_fail = { λ file at n. FailsNext file.disk ⊎ Outgrows file.disk at n
        ⊎ IsWornOut file.disk };

    ghost syncs_fail = { λ file. FailsNext file.disk ⊎ IsWornOut file.disk };

    ghost reads_true = { λ file. tells_truth file.disk };

    ghost counts_now = { λ file. counts file.disk };

    ghost only_now = { λ file. only file.disk };

    fn length(&self) -> Result<u64, Failed> {
        Ok(self.disk.content().len() as u64)
    }

    /// It gives as many bytes as there are, up to the most.
    fn read_some(&self, at: u64, buf: &mut [u8]) -> Result<usize, Failed> {
        let content = self.disk.content();
        if at >= content.len() as u64 {
            return Ok(0);
        }
        let from = &content[at as usize..];
        let count = from.len().min(buf.len()).min(self.most);
        buf[..count].copy_from_slice(&from[..count]);
        Ok(count)
    }

    fn write_all(&mut self, at: u64, bytes: &[u8]) -> Result<(), Failed> {
        self.disk.write_at(at, bytes)
    }

    fn sync(&mut self) -> Result<(), Failed> {
        self.disk.sync()
    }
}
