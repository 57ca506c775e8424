ghost use Rattle.std.specs.Prelude.{◌≡◌, ◌≢◌, ◌<◌, ◌≤◌, length, Err, IfOk, OnOk, OnErr};
ghost use Rattle.std.specs.Io.KnownBytes.{Appends, ReadConsumes};
ghost use Rattle.acq_io.specs.Streams.{raised, IsLate};

use crate::streams::{Failed, Put, Sink, Source};
use std::io::{ErrorKind, Read, Write};
use std::marker::Model;

/// A reader of std with a count of its faults. As a source it tells nothing of the bytes; what the
/// reader tells of them, it passes on. Each call is one read of the reader, so one that is asked
/// byte by byte is best buffered.
#[derive(Drop)]
pub struct StdSource<R> {
    inner: R,
    faults: u64,
    late: u64,
}

impl<R> Model for StdSource<R> {
    ghost use Rattle.acq_io.specs.Standard.{Counted};

    ghost Value = { Counted R };

    ghost view = { λ s. record { inner = s.inner; faults = s.faults; late = s.late } };
}

impl<R: Read> StdSource<R> {
    /// A source that reads from `inner`. It doesn't tell what is left.
    pub fn new(inner: R) -> StdSource<R>
        ensures inner { result.inner ≡ inner }
        ensures none_late { ⟦<StdSource<R> as Source>⟧.late result ≡ 0 }
        ensures no_faults { ⟦<StdSource<R> as Source>⟧.faults result ≡ 0 }
    {
        StdSource {
            inner,
            faults: 0,
            late: 0,
        }
    }
}

impl<R: Read> Source for StdSource<R> {
    ghost use Rattle.std.specs.Prelude.{None};

    ghost left = { λ _. None };

    ghost faults = { λ s. s.faults };

    ghost late = { λ s. s.late };

    /// The count of faults rises at each failure, and at nothing else.
    #[inline(always)]
    fn read(&mut self, buf: &mut [u8]) -> Result<usize, Failed>
        requires { 0 < length buf.old }
        ensures count { IfOk result (λ n. n ≤ length buf.new) }
        ensures raised { OnErr result (self.new.faults ≡ raised self.old.faults) }
        ensures kept { OnOk result (self.new.faults ≡ self.old.faults) }
        ensures later { self.old.faults ≤ self.new.faults }
        ensures late { IsLate self.old.faults self.old.late self.new.late }
        // where the reader tells what it will give, these bytes were taken from it, and nothing by
        // a read that failed
        ensures passes { ReadConsumes (R.remaining self.old.inner)
            (R.remaining self.new.inner) result buf.new }
    {
        if self.faults > 0 {
            self.late = self.late.saturating_add(1);
        }
        match read_uninterrupted(&mut self.inner, buf) {
            Ok(count) => Ok(count),
            Err(Failed) => {
                self.faults = self.faults.saturating_add(1);
                Err(Failed)
            }
        }
    }
}

/// One read, tried again where a signal interrupts it, as std's own loops do.
#[inline(always)]
fn read_uninterrupted<R: Read>(reader: &mut R, buf: &mut [u8]) -> Result<usize, Failed>
    ensures fits { IfOk result (λ n. n ≤ length buf.new) }
    ensures passes { ReadConsumes (R.remaining reader.old) (R.remaining reader.new) result buf.new }
{
    match reader.read(buf) {
        Ok(count) => Ok(count),
        Err(error) => read_again(error.kind(), reader, buf),
    }
}

/// What comes of a read after an error of this kind. That is rare, and kept apart from what is done
/// at each byte.
#[inline(never)]
fn read_again<R: Read>(first: ErrorKind, reader: &mut R, buf: &mut [u8]) -> Result<usize, Failed>
    ensures fits { IfOk result (λ n. n ≤ length buf.new) }
    ensures passes { ReadConsumes (R.remaining reader.old) (R.remaining reader.new) result buf.new }
{
    let mut kind = first;
    for _ in 0..u64::MAX {
        if kind != ErrorKind::Interrupted {
            return Err(Failed);
        }
        match reader.read(buf) {
            Ok(count) => return Ok(count),
            Err(error) => kind = error.kind(),
        }
    }
    Err(Failed)
}

/// A writer of std with a count of its faults. As a sink it tells nothing of the bytes; each piece
/// is passed on whole, and flushed.
#[derive(Drop)]
pub struct StdSink<W> {
    inner: W,
    faults: u64,
}

impl<W> Model for StdSink<W> {
    ghost use Rattle.acq_io.specs.Standard.{Writing};

    ghost Value = { Writing W };

    ghost view = { λ s. record { inner = s.inner; faults = s.faults } };
}

impl<W: Write> StdSink<W> {
    /// A sink that writes to `inner`. It doesn't tell what was written.
    pub fn new(inner: W) -> StdSink<W>
        ensures inner { result.inner ≡ inner }
        ensures no_faults { ⟦<StdSink<W> as Sink>⟧.faults result ≡ 0 }
    {
        StdSink { inner, faults: 0 }
    }
}

impl<W: Write> Sink for StdSink<W> {
    ghost use Rattle.std.specs.Prelude.{None};

    ghost written = { λ _. None };

    ghost faults = { λ s. s.faults };

    /// The count rises at each failure, and at nothing else. It takes no memory of its own.
    fn write(&mut self, piece: &[u8]) -> Result<(), Put>
        ensures no_memory { result ≢ Err Put.Memory }
        ensures raised { OnErr result (self.new.faults ≡ raised self.old.faults) }
        ensures kept { OnOk result (self.new.faults ≡ self.old.faults) }
        ensures later { self.old.faults ≤ self.new.faults }
        // where the writer tells what it holds, the piece was added to that
        ensures passes { OnOk result
            (Appends (W.contents self.old.inner) (W.contents self.new.inner) piece.now) }
    {
        if self.inner.write_all(piece).is_err() {
            self.faults = self.faults.saturating_add(1);
            return Err(Put::Failed);
        }
        if self.inner.flush().is_err() {
            self.faults = self.faults.saturating_add(1);
            return Err(Put::Failed);
        }
        Ok(())
    }
}
