ghost use Rattle.std.specs.Prelude.{◌≡◌, ◌<◌, ◌≤◌, ◌↔◌, [], ◌∷◌, ◌++◌, length, IsTrue};
ghost use Rattle.acq_io.specs.Streams.{HasCalled, TakesSome};
ghost use Rattle.acq_io.specs.Lines.{LacksNewline, ReadsLine};

use crate::streams::{Failed, Source, read_byte};
use std::marker::Model;

/// The most bytes that a line has, without its newline.
const MOST_BYTES: usize = 256;

/// A place for a line of up to 256 bytes, without its newline. It takes no memory.
#[derive(Drop)]
pub struct Line {
    bytes: [u8; MOST_BYTES],
    len: usize,
}

impl Model for Line {
    ghost use Rattle.std.specs.Prelude.{ℕ, ◌≤◌, List, take};

    ghost Value = { List ℕ };

    ghost view = { λ line. take line.len line.bytes };

    ghost invariant = { λ line. line.len ≤ 256 };
}

impl Line {
    /// A line of no bytes.
    pub fn empty() -> Line
        ensures { result ≡ [] }
    {
        Line {
            bytes: [0; MOST_BYTES],
            len: 0,
        }
    }

    /// The line's bytes, without the newline: at most 256.
    pub fn bytes(&self) -> &[u8]
        ensures bytes { result.now ≡ self.now }
        ensures short { length self.now ≤ 256 }
    {
        &self.bytes[..self.len]
    }

    fn clear(&mut self)
        ensures { self.new ≡ [] }
    {
        self.len = 0;
    }

    fn is_full(&self) -> bool
        ensures full { IsTrue result ↔ (length self.now ≡ 256) }
        ensures short { length self.now ≤ 256 }
    {
        self.len == MOST_BYTES
    }

    fn push(&mut self, byte: u8)
        requires { length self.old < 256 }
        ensures { self.new ≡ self.old ++ byte ∷ [] }
    {
        self.bytes[self.len] = byte;
        self.len += 1;
    }
}

/// What reading a line answers.
#[derive(Clone, Copy, Debug, PartialEq, Eq)]
pub enum LineGot {
    /// A newline came after at most 256 bytes. The place holds them.
    Line,
    /// The source ended before a newline. The place holds what came.
    End,
    /// 257 bytes came without a newline. The place holds the first 256.
    TooLong,
    /// The source failed. The place holds what came before.
    Fault,
}

/// Reads a line, byte by byte. No byte past the newline is taken.
pub fn read_line<S: Source>(source: &mut S, line: &mut Line) -> LineGot
    ensures line { ReadsLine (S.left source.old) (S.left source.new) line.new result }
    ensures one_line { LacksNewline line.new }
    ensures short { length line.new ≤ 256 }
    // whatever it answers, what is left is an end of what was left
    ensures takes { TakesSome (S.left source.old) (S.left source.new) }
    ensures called { HasCalled (S.faults source.old) (S.faults source.new) (S.late source.old)
        (S.late source.new) (result ≡ LineGot.Fault) }
{
    line.clear();
    loop {
        match read_byte(source) {
            Err(Failed) => return LineGot::Fault,
            Ok(None) => return LineGot::End,
            Ok(Some(b'\n')) => return LineGot::Line,
            Ok(Some(byte)) => {
                if line.is_full() {
                    return LineGot::TooLong;
                }
                line.push(byte);
            }
        }
    }
}
