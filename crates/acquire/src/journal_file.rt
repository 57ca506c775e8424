//! The file that holds a journal: which files may, and that it is still the one of its name.

ghost use Rattle.std.specs.Prelude.{◌≤◌, ◌<ℤ◌, pos, IfOk, length};
ghost use Rattle.std.specs.Fd.{file_raw_fd};

use disk_model::Failed;
use std::fs::{File, Metadata, OpenOptions};
use std::io::ErrorKind;
use std::marker::Model;
use std::os::fd::AsRawFd;
use std::os::unix::fs::{FileExt, MetadataExt};
use std::rt::Files;

/// What standard input and standard output lead to, by the system's names for it.
const INPUT: &str = "/proc/self/fd/0";

const OUTPUT: &str = "/proc/self/fd/1";

/// A regular file, open for reading and writing, that is no standard stream. A contract sees its
/// descriptor.
#[derive(Drop)]
pub struct JournalFile {
    file: File,
    /// The device that the file is on and its number there, by which it is known again.
    device: u64,
    number: u64,
}

impl Model for JournalFile {
    ghost use Rattle.std.specs.Prelude.{ℤ, ◌<ℤ◌, pos};
    ghost use Rattle.std.specs.Fd.{file_raw_fd};

    ghost Value = { ℤ };

    ghost view = { λ journal. file_raw_fd journal.file };

    // 0, 1 and 2 are the standard streams, also where one is closed.
    ghost invariant = { λ journal. pos 2 <ℤ file_raw_fd journal.file };
}

impl JournalFile {
    /// Opens the file of this name, or makes one, where there may be none yet. None says that there
    /// is none. Whatever isn't a regular file is refused, and so is the file that standard input or
    /// standard output leads to: what the program prints would be written over the journal, or the
    /// journal be read as its answers.
    pub fn open<R: Files<File = File>>(
        rt: &R,
        name: &str,
        make: bool,
    ) -> Result<Option<JournalFile>, Failed> {
        let opened = OpenOptions::new()
            .read(true)
            .write(true)
            .create_new(make)
            .open(rt, name);
        let file = match opened {
            Ok(file) => above_streams(file)?,
            Err(e) if !make && e.kind() == ErrorKind::NotFound => return Ok(None),
            Err(_) => return Err(Failed),
        };
        let about = about(&file)?;
        if !about.is_file() || leads_to(rt, INPUT, &about) || leads_to(rt, OUTPUT, &about) {
            return Err(Failed);
        }
        Ok(Some(JournalFile {
            file,
            device: about.dev(),
            number: about.ino(),
        }))
    }

    /// How many bytes it has. It fails where its name leads to it no more, since whoever opens that
    /// name wouldn't find what is written from then on.
    pub fn length<R: Files<File = File>>(&self, rt: &R, name: &str) -> Result<u64, Failed> {
        let Ok(about) = rt.metadata(name) else {
            return Err(Failed);
        };
        if about.dev() != self.device || about.ino() != self.number {
            return Err(Failed);
        }
        Ok(about.len())
    }

    /// Reads some bytes from this place on, none at the end, and again where a signal interrupts
    /// the call.
    pub fn read_some(&self, at: u64, buf: &mut [u8]) -> Result<usize, Failed>
        ensures { IfOk result (λ n. n ≤ length buf.old) }
    {
        for _turn in 0..u64::MAX {
            match self.file.read_at(buf, at) {
                Ok(count) => return Ok(count),
                Err(e) if e.kind() == ErrorKind::Interrupted => {}
                Err(_) => return Err(Failed),
            }
        }
        Err(Failed)
    }

    /// Writes all of these bytes.
    pub fn write_all(&self, at: u64, bytes: &[u8]) -> Result<(), Failed> {
        match self.file.write_all_at(bytes, at) {
            Ok(()) => Ok(()),
            Err(_) => Err(Failed),
        }
    }

    /// Waits until all that was written is on the device, or fails.
    pub fn sync(&self) -> Result<(), Failed> {
        match self.file.sync_all() {
            Ok(()) => Ok(()),
            Err(_) => Err(Failed),
        }
    }
}

/// The same file under a descriptor above 2. The system gives the least number that is free, which
/// is that of a standard stream where the program was started with that one closed.
fn above_streams(file: File) -> Result<File, Failed>
    ensures { IfOk result (λ file. pos 2 <ℤ file_raw_fd file) }
{
    if file.as_raw_fd() > 2 {
        return Ok(file);
    }
    // A clone's descriptor is above 2.
    match file.try_clone() {
        Ok(clone) if clone.as_raw_fd() > 2 => Ok(clone),
        _ => Err(Failed),
    }
}

/// What the system says of a file. Asked again where a signal interrupts the call.
fn about(file: &File) -> Result<Metadata, Failed> {
    for _turn in 0..u64::MAX {
        match file.metadata() {
            Ok(about) => return Ok(about),
            Err(e) if e.kind() == ErrorKind::Interrupted => {}
            Err(_) => return Err(Failed),
        }
    }
    Err(Failed)
}

/// Whether a name leads to the file of which this is said.
fn leads_to<R: Files<File = File>>(rt: &R, name: &str, about: &Metadata) -> bool {
    match rt.metadata(name) {
        Ok(other) => other.dev() == about.dev() && other.ino() == about.ino(),
        Err(_) => false,
    }
}
