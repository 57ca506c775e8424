ghost use Rattle.std.specs.Prelude.{◌≡◌, ◌≢◌, ℕ, ◌<◌, ◌≤◌, ◌↔◌, List, [], ◌++◌, length, take, min};
ghost use Rattle.std.specs.Prelude.{Contains, IsErr, IsTrue, IfOk, OnOk, OnErr, MatchResult};
ghost use Rattle.std.specs.Prelude.{MatchBool, Some};
ghost use Rattle.acq_io.specs.Streams.{raised, IsLate};
ghost use Rattle.acq_io.specs.Memory.{Scripted, scripted};

use crate::plain::{PlainSink, PlainSource};
use crate::streams::{Failed, Put, Sink, Source};
use std::alloc::Global;
use std::marker::Model;

/// Which calls fail, and how many there have been and have failed.
#[derive(Drop)]
struct Script {
    /// The numbers of the calls that fail.
    fails: Vec<u32>,
    calls: u64,
    faults: u64,
    late: u64,
}

impl Script {
    fn new(fails: Vec<u32>) -> Script
        ensures { result ≡ record { fails = fails; calls = 0; faults = 0; late = 0 } }
    {
        Script {
            fails,
            calls: 0,
            faults: 0,
            late: 0,
        }
    }

    /// Counts a call, and answers whether it fails.
    fn fails_now(&mut self) -> bool
        ensures chosen { IsTrue result ↔ Contains self.old.fails.items self.old.calls }
        ensures calls { self.new.calls ≡ raised self.old.calls }
        ensures fails { self.new.fails.items ≡ self.old.fails.items }
        ensures faults { MatchBool result (self.new.faults ≡ raised self.old.faults)
            (self.new.faults ≡ self.old.faults) }
        ensures later { self.old.faults ≤ self.new.faults }
        ensures late { IsLate self.old.faults self.old.late self.new.late }
    {
        if self.faults > 0 {
            self.late = self.late.saturating_add(1);
        }
        let call = self.calls;
        self.calls = call.saturating_add(1);
        let fails = is_among(&self.fails, call);
        if fails {
            self.faults = self.faults.saturating_add(1);
        }
        fails
    }
}

/// Whether a call's number stands in a list.
fn is_among(numbers: &[u32], call: u64) -> bool
    ensures { IsTrue result ↔ Contains numbers.now call }
{
    numbers.iter().any(|&number| number as u64 == call)
}

/// Bytes in memory that are given in order. It fails at exactly the calls whose numbers stand in a
/// list.
#[derive(Drop)]
pub struct MemSource {
    plain: PlainSource,
    script: Script,
}

impl Model for MemSource {
    ghost use Rattle.acq_io.specs.Memory.{Scripted};

    ghost Value = { Scripted };

    ghost view = { λ s. record {
      bytes = s.plain;
      calls = s.script.calls;
      fails = s.script.fails.items;
      faults = s.script.faults;
      late = s.script.late;
    } };
}

impl MemSource {
    /// The calls are numbered from 0, and one that fails counts as a call.
    pub fn new(bytes: Vec<u8>, fails: Vec<u32>) -> MemSource
        ensures script { result ≡ scripted bytes.items fails.items }
        ensures tells { ⟦<MemSource as Source>⟧.left result ≡ Some bytes.items }
        ensures no_faults { ⟦<MemSource as Source>⟧.faults result ≡ 0 }
    {
        MemSource {
            plain: PlainSource::new(bytes),
            script: Script::new(fails),
        }
    }

    /// The bytes that are still to come.
    pub fn left(&self) -> &[u8]
        ensures { ⟦<MemSource as Source>⟧.left self.now ≡ Some result.now }
    {
        self.plain.left()
    }
}

impl Source for MemSource {
    ghost left = { λ s. Some s.bytes };

    ghost faults = { λ s. s.faults };

    ghost late = { λ s. s.late };

    /// Gives as many bytes as there are and fit, unless the call's number is one of those that
    /// fail.
    fn read(&mut self, buf: &mut [u8]) -> Result<usize, Failed>
        requires { 0 < length buf.old }
        ensures chosen { IsErr result ↔ Contains self.old.fails self.old.calls }
        ensures all_that_fits { IfOk result
            (λ n. n ≡ min (length buf.old) (length self.old.bytes)) }
        ensures count { IfOk result (λ n. n ≤ length buf.new) }
        ensures bytes { IfOk result (λ n. self.old.bytes ≡ take n buf.new ++ self.new.bytes) }
        ensures err { OnErr result (self.new.bytes ≡ self.old.bytes) }
        ensures unread { OnErr result (buf.new ≡ buf.old) }

        ensures script { (self.new.calls ≡ raised self.old.calls)
            × (self.new.fails ≡ self.old.fails) }
        ensures raised { OnErr result (self.new.faults ≡ raised self.old.faults) }
        ensures kept { OnOk result (self.new.faults ≡ self.old.faults) }
        ensures later { self.old.faults ≤ self.new.faults }
        ensures late { IsLate self.old.faults self.old.late self.new.late }
    {
        if self.script.fails_now() {
            Err(Failed)
        } else {
            self.plain.read(buf)
        }
    }
}

/// Bytes that are kept in memory. It fails at exactly the calls whose numbers stand in a list, and
/// adds nothing then. It may lack memory.
#[derive(Drop)]
pub struct MemSink {
    plain: PlainSink,
    script: Script,
}

impl Model for MemSink {
    ghost use Rattle.acq_io.specs.Memory.{Scripted};

    ghost Value = { Scripted };

    ghost view = { λ s. record {
      bytes = s.plain;
      calls = s.script.calls;
      fails = s.script.fails.items;
      faults = s.script.faults;
      late = s.script.late;
    } };
}

impl MemSink {
    /// The calls are numbered from 0, and one that fails counts as a call.
    pub fn new(alloc: Global, fails: Vec<u32>) -> MemSink
        ensures script { result ≡ scripted [] fails.items }
        ensures tells { ⟦<MemSink as Sink>⟧.written result ≡ Some [] }
        ensures no_faults { ⟦<MemSink as Sink>⟧.faults result ≡ 0 }
    {
        MemSink {
            plain: PlainSink::new(alloc),
            script: Script::new(fails),
        }
    }

    /// The bytes that were written.
    pub fn bytes(&self) -> &[u8]
        ensures { ⟦<MemSink as Sink>⟧.written self.now ≡ Some result.now }
    {
        self.plain.bytes()
    }
}

impl Sink for MemSink {
    ghost written = { λ s. Some s.bytes };

    ghost faults = { λ s. s.faults };

    /// Adds the piece, unless the call's number is one of those that fail.
    fn write(&mut self, piece: &[u8]) -> Result<(), Put>
        ensures chosen { (result ≡ Err Put.Failed) ↔ Contains self.old.fails self.old.calls }
        ensures ok { OnOk result (self.new.bytes ≡ self.old.bytes ++ piece.now) }
        ensures err { OnErr result (self.new.bytes ≡ self.old.bytes) }

        ensures calls { self.new.calls ≡ raised self.old.calls }
        ensures fails { self.new.fails ≡ self.old.fails }
        ensures raised { result ≡ Err Put.Failed → self.new.faults ≡ raised self.old.faults }
        ensures kept { result ≢ Err Put.Failed → self.new.faults ≡ self.old.faults }
        ensures later { self.old.faults ≤ self.new.faults }
    {
        if self.script.fails_now() {
            Err(Put::Failed)
        } else {
            self.plain.write(piece)
        }
    }
}
