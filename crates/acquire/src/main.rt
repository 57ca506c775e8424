//! Learns a constraint network from yes and no.
#![tactic(auto)]

mod file;
mod input;
mod journal_file;

use crate::file::SystemFile;
use crate::input::Buffered;
use acq_cli::{Ending, JournalPlace, WordsFault, acquire, read_words};
use acq_io::{StdSink, StdSource};
use disk_model::{MemDisk, Room};
use file_disk::FileDisk;
use par_screen::FreeGate;
use std::alloc::Global;
use std::env;
use std::io::{ErrorKind, Input};
use std::process::ExitCode;
use std::rt::Env;

/// The words after the program's own name. None where there is no memory for them.
fn words_of(rt: &(impl Env + AllocGlobal)) -> Option<Vec<String>> {
    let mut words = Vec::new(rt.alloc());
    let args = match env::args(rt) {
        Ok(args) => args,
        // A word that isn't UTF-8 is none of a command's. No words at all aren't taken either.
        Err(e) if e.kind() == ErrorKind::InvalidData => return Some(words),
        Err(_) => return None,
    };
    for word in args.skip(1) {
        if words.push(word).is_err() {
            return None;
        }
    }
    Some(words)
}

/// Where the journal is. In memory too where the words are refused, which `acquire` tells. None
/// where there is no memory to read them.
fn place_of(alloc: Global, words: &[String]) -> Option<JournalPlace> {
    match read_words(alloc, words) {
        Ok(request) => Some(request.journal),
        Err(WordsFault::Usage(_)) => Some(JournalPlace::InMemory),
        Err(WordsFault::Memory) => None,
    }
}

/// Says on standard error what failed, where the ending is a fault of the system, of which the
/// output says nothing. Where that can't be written either, nobody is told.
fn tell_fault(rt: &HostRuntime, ending: Ending, journal: &str) {
    let _ = match ending {
        Ending::ReadFault => rt.eprintln("acquire: the input can't be read"),
        Ending::WriteFault => rt.eprintln("acquire: the output can't be written"),
        Ending::DiskFault => eprintln!(rt;
            "acquire: {journal} can't be opened, read or written as a journal, or was changed meanwhile"
        ),
        Ending::Memory => rt.eprintln("acquire: there isn't enough memory"),
        _ => Ok(()),
    };
}

fn main(rt: HostRuntime) -> ExitCode {
    let Some(words) = words_of(&rt) else {
        return ExitCode::from(Ending::Memory.status());
    };
    let Some(place) = place_of(rt.alloc(), &words) else {
        return ExitCode::from(Ending::Memory.status());
    };
    let mut input = StdSource::new(Buffered::new(rt.reader()));
    let mut out = StdSink::new(rt.stdout());
    if let JournalPlace::File(name) = &place {
        let mut disk = FileDisk::new(SystemFile::new(&rt, name));
        let ending = acquire(
            &rt,
            rt.alloc(),
            &words,
            &mut input,
            &mut out,
            &mut disk,
            &FreeGate,
        );
        tell_fault(&rt, ending, name);
        return ExitCode::from(ending.status());
    }
    let room = Room {
        bytes: 8_388_608,
        calls: 64,
    };
    let Ok(mut disk) = MemDisk::new(rt.alloc(), Vec::new(rt.alloc()), Vec::new(rt.alloc()), room)
    else {
        return ExitCode::from(Ending::Memory.status());
    };
    let ending = acquire(
        &rt,
        rt.alloc(),
        &words,
        &mut input,
        &mut out,
        &mut disk,
        &FreeGate,
    );
    tell_fault(&rt, ending, ":memory:");
    ExitCode::from(ending.status())
}
