ghost use Rattle.std.specs.Prelude.{◌≡◌, ◌≢◌, ℕ, ◌<◌, ◌≤◌, List, [], ◌++◌, length, take, min, IfOk};
ghost use Rattle.std.specs.Prelude.{OnOk, Some};

use crate::streams::{Failed, Put, Sink, Source};
use std::alloc::Global;
use std::marker::Model;

/// Bytes in memory that are given in order. It never fails.
#[derive(Drop)]
pub struct PlainSource {
    bytes: Vec<u8>,
    at: usize,
}

impl Model for PlainSource {
    ghost use Rattle.std.specs.Prelude.{ℕ, ◌≤◌, List, drop, length};

    ghost Value = { List ℕ };

    ghost view = { λ s. drop s.at s.bytes.items };

    ghost invariant = { λ s. s.at ≤ length s.bytes.items };
}

impl PlainSource {
    /// A source of these bytes, of which none is taken yet.
    pub fn new(bytes: Vec<u8>) -> PlainSource
        ensures tells { ⟦<PlainSource as Source>⟧.left result ≡ Some bytes.items }
        ensures no_faults { ⟦<PlainSource as Source>⟧.faults result ≡ 0 }
    {
        PlainSource { bytes, at: 0 }
    }

    /// The bytes that are still to come.
    pub fn left(&self) -> &[u8]
        ensures { ⟦<PlainSource as Source>⟧.left self.now ≡ Some result.now }
    {
        &self.bytes[self.at..]
    }
}

/// Copies as much as fits to the front of the buffer, and answers how much.
fn copy_front(from: &[u8], buf: &mut [u8]) -> usize
    ensures count { result ≡ min (length buf.old) (length from.now) }
    ensures front { take result buf.new ≡ take result from.now }
{
    let count = buf.len().min(from.len());
    buf[..count].copy_from_slice(&from[..count]);
    count
}

impl Source for PlainSource {
    ghost left = { λ s. Some s };

    ghost faults = { λ _. 0 };

    ghost late = { λ _. 0 };

    /// Gives as many bytes as there are and fit.
    fn read(&mut self, buf: &mut [u8]) -> Result<usize, Failed>
        requires { 0 < length buf.old }
        ensures all_that_fits { result ≡ Ok (min (length buf.old) (length self.old)) }
        ensures count { IfOk result (λ n. n ≤ length buf.new) }
        ensures bytes { IfOk result (λ n. self.old ≡ take n buf.new ++ self.new) }
    {
        let count = copy_front(&self.bytes[self.at..], buf);
        self.at += count;
        Ok(count)
    }
}

/// Bytes that are kept in memory. It never fails, but it may lack memory.
#[derive(Drop)]
pub struct PlainSink {
    bytes: Vec<u8>,
}

impl Model for PlainSink {
    ghost use Rattle.std.specs.Prelude.{ℕ, List};

    ghost Value = { List ℕ };

    ghost view = { λ s. s.bytes.items };
}

impl PlainSink {
    /// A sink to which nothing was written.
    pub fn new(alloc: Global) -> PlainSink
        ensures tells { ⟦<PlainSink as Sink>⟧.written result ≡ Some [] }
        ensures no_faults { ⟦<PlainSink as Sink>⟧.faults result ≡ 0 }
    {
        PlainSink {
            bytes: Vec::new(alloc),
        }
    }

    /// The bytes that were written.
    pub fn bytes(&self) -> &[u8]
        ensures { ⟦<PlainSink as Sink>⟧.written self.now ≡ Some result.now }
    {
        &self.bytes
    }
}

impl Sink for PlainSink {
    ghost written = { λ s. Some s };

    ghost faults = { λ _. 0 };

    fn write(&mut self, piece: &[u8]) -> Result<(), Put>
        ensures never_fails { result ≢ Err Put.Failed }
        ensures ok { OnOk result (self.new ≡ self.old ++ piece.now) }
        ensures memory { result ≡ Err Put.Memory → self.new ≡ self.old }
    {
        match self.bytes.extend_from_slice(piece) {
            Ok(()) => Ok(()),
            Err(_) => Err(Put::Memory),
        }
    }
}
