//! A named file of the system. It tells nothing: no contract can say what a file holds.
//!
//! What makes a disk of it stands in `file_disk`, over any file. The model of a disk speaks of the
//! file alone. That a new file is found again after a power failure is this adapter's care: with a
//! write at the file's beginning it has the folder written too.

ghost use Rattle.std.specs.Prelude.{None, IfOk, length, ◌≤◌};

use crate::journal_file::JournalFile;
use disk_model::Failed;
use file_disk::NamedFile;
use std::fs::File;
use std::io::ErrorKind;
use std::path::Path;
use std::rt::Files;

/// A file by its name. It is kept open from the first write or sync on that finds it, and made at
/// the first write.
#[derive(Drop)]
pub struct SystemFile<'a, R: Files<File = File>> {
    rt: &'a R,
    name: &'a str,
    file: Option<JournalFile>,
}

impl<'a, R: Files<File = File>> SystemFile<'a, R> {
    /// The file of this name, which isn't looked for yet.
    pub fn new(rt: &'a R, name: &'a str) -> Self {
        SystemFile {
            rt,
            name,
            file: None,
        }
    }

    /// Opens the file, if it isn't open. That it is missing is no fault, unless it is to be made.
    fn find(&mut self, make: bool) -> Result<(), Failed> {
        if self.file.is_none() {
            self.file = JournalFile::open(self.rt, self.name, make)?;
        }
        Ok(())
    }

    /// Writes all of these bytes. A session begins at the file's beginning, and its file may be new
    /// then, so its folder is written too.
    fn write_whole(&mut self, at: u64, bytes: &[u8]) -> Result<(), Failed> {
        self.find(true)?;
        let Some(file) = &self.file else {
            return Err(Failed);
        };
        file.write_all(at, bytes)?;
        if at == 0 {
            return self.sync_folder();
        }
        Ok(())
    }

    /// Has the file's entry in its folder written, where the system offers that. A folder that may
    /// be written in and not read can't be synced, and on some file systems none can: that is no
    /// fault.
    fn sync_folder(&self) -> Result<(), Failed> {
        let folder = match File::open(self.rt, folder_of(self.name)) {
            Ok(folder) => folder,
            Err(e) if e.kind() == ErrorKind::PermissionDenied => return Ok(()),
            Err(_) => return Err(Failed),
        };
        match folder.sync_all() {
            Ok(()) => Ok(()),
            Err(e) if matches!(e.kind(), ErrorKind::InvalidInput | ErrorKind::Unsupported) => Ok(
                (),
            ),
            Err(_) => Err(Failed),
        }
    }
}

/// The folder that a file of this name stands in.
fn folder_of(name: &str) -> &str {
    match Path::new(name).parent() {
        Some(folder) if !folder.as_str().is_empty() => folder.as_str(),
        _ => ".",
    }
}

impl<'a, R: Files<File = File>> NamedFile for SystemFile<'a, R> {
    ghost content = { λ f. None };

    ghost may_leave = { λ f c. Unit {0} };

    ghost moment = { λ f. 0 };

    ghost left_since = { λ f t c. Unit {0} };

    ghost reads_fail = { λ f. Unit {0} };

    ghost writes_fail = { λ f at n. Unit {0} };

    ghost syncs_fail = { λ f. Unit {0} };

    ghost reads_true = { λ f x told. tt };

    ghost counts_now = { λ f t c le left. tt };

    ghost only_now = { λ f c left. tt };

    fn length(&self) -> Result<u64, Failed> {
        match &self.file {
            Some(file) => file.length(self.rt, self.name),
            None => match JournalFile::open(self.rt, self.name, false)? {
                Some(file) => file.length(self.rt, self.name),
                None => Ok(0),
            },
        }
    }

    fn read_some(&self, at: u64, buf: &mut [u8]) -> Result<usize, Failed> {
        match &self.file {
            Some(file) => file.read_some(at, buf),
            None => match JournalFile::open(self.rt, self.name, false)? {
                Some(file) => file.read_some(at, buf),
                None => Ok(0),
            },
        }
    }

    fn write_all(&mut self, at: u64, bytes: &[u8]) -> Result<(), Failed> {
        self.write_whole(at, bytes)
    }

    fn sync(&mut self) -> Result<(), Failed> {
        self.find(false)?;
        match &self.file {
            Some(file) => file.sync(),
            None => Ok(()),
        }
    }
}
