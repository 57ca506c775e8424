//! What a command says, and the one call that writes it.

ghost use Rattle.std.specs.Prelude.{◌≡◌, ◌≢◌, ◌≤◌, true, IfOk, Ok, Err};
ghost use Rattle.std.specs.String.{string_bytes};
ghost use Rattle.acq_io.specs.Streams.{Rose};
ghost use Rattle.acq_said.specs.Said.{HasWritten, or_silent};
ghost use Rattle.acq_said.specs.Saying.{Saying, is_told, saying};

use acq_io::{Put, Sink};
use acq_loop::Ending;
use language::Memory;
use std::alloc::Global;
use std::marker::Model;

/// A text, and how the command ends where the output takes it. The ending is no fault, and no want
/// of memory.
#[derive(Drop)]
pub struct Said {
    text: String,
    ending: Ending,
}

impl Model for Said {
    ghost use Rattle.std.specs.Prelude.{◌≡◌, true};
    ghost use Rattle.std.specs.String.{string_bytes};
    ghost use Rattle.acq_said.specs.Saying.{Saying, is_told, saying};

    ghost Value = { Saying };

    ghost view = { λ said. saying (string_bytes said.text) said.ending };

    ghost invariant = { λ said. is_told said.ending ≡ true };
}

impl Said {
    /// This text, with an ending that is no fault.
    pub fn new(text: String, ending: Ending) -> Said
        requires { is_told ending ≡ true }
        ensures { result ≡ saying (string_bytes text) ending }
    {
        Said { text, ending }
    }
}

/// Why a command ends without a word.
#[derive(Clone, Copy, Debug, PartialEq, Eq)]
pub enum Unsaid {
    /// The input failed.
    ReadFault,
    /// The disk failed.
    DiskFault,
    Memory,
}

/// Says a text that is always the same.
pub fn fixed(alloc: Global, text: &str, ending: Ending) -> Result<Said, Memory>
    requires { is_told ending ≡ true }
    ensures { IfOk result (λ said. said ≡ saying text.now ending) }
{
    let text = String::from_str(alloc, text)?;
    Ok(Said::new(text, ending))
}

/// What is said, where there was memory for it.
pub fn or_silent(said: Result<Said, Memory>) -> Result<Said, Unsaid>
    ensures is { result ≡ or_silent said }
    ensures no_read { result ≢ Err Unsaid.ReadFault }
    ensures no_disk { result ≢ Err Unsaid.DiskFault }
{
    match said {
        Ok(said) => Ok(said),
        Err(_) => Err(Unsaid::Memory),
    }
}

/// Writes what a command says, and ends as it says. Where it says nothing, nothing is written.
pub fn put<K: Sink>(said: Result<Said, Unsaid>, out: &mut K) -> Result<Ending, Put>
    ensures writes { HasWritten said (K.written out.old) (K.written out.new) result }
    ensures no_fault { IfOk result (λ ending. ending ≢ Ending.WriteFault) }
    ensures read { result ≡ Ok Ending.ReadFault → said ≡ Err Unsaid.ReadFault }
    ensures lost { result ≡ Ok Ending.DiskFault → said ≡ Err Unsaid.DiskFault }
    ensures failed { result ≡ Err Put.Failed → Rose (K.faults out.old) (K.faults out.new) }
    ensures later { K.faults out.old ≤ K.faults out.new }
{
    match said {
        Ok(said) => {
            out.write(said.text.as_bytes())?;
            Ok(said.ending)
        }
        Err(Unsaid::ReadFault) => Ok(Ending::ReadFault),
        Err(Unsaid::DiskFault) => Ok(Ending::DiskFault),
        Err(Unsaid::Memory) => Err(Put::Memory),
    }
}
