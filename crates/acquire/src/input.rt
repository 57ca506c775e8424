//! Standard input for a caller who asks byte by byte.

ghost use Rattle.std.specs.Prelude.{◌≡◌, ◌<◌, IfOk, MatchResult, MatchOption, ◌∷◌, [], length};
ghost use Rattle.std.specs.Prelude.{take};
ghost use Rattle.std.specs.Io.{ReadsAtMost};
ghost use Rattle.std.specs.Io.KnownBytes.{Consumes, IsAtEnd, Keeps};

use std::io::{self, BufRead, Error, Read};
use std::marker::Model;

/// A reader that fills its buffer before a byte is taken from it. How much it may read ahead is its
/// own affair: that of standard input does so only where it can give back what is left, as from a
/// file, and asks a pipe or a terminal for no byte more.
#[derive(Drop)]
pub struct Buffered<R> {
    inner: R,
}

impl<R> Model for Buffered<R> {
    ghost Value = { R };

    ghost view = { λ b. b.inner };
}

/// The next byte, or `None` at the end. No other one is taken.
#[inline(always)]
fn next_byte<R: BufRead>(reader: &mut R) -> Result<Option<u8>, Error>
    ensures { MatchResult result (λ next. MatchOption next (Consumes (R.remaining reader.old)
        (R.remaining reader.new) [] × IsAtEnd (R.remaining reader.old))
        (λ byte. Consumes (R.remaining reader.old) (R.remaining reader.new) (byte ∷ []))) (λ _.
        Keeps (R.remaining reader.old) (R.remaining reader.new)) }
{
    match reader.fill_buf()?.first() {
        Some(byte) => {
            let byte = *byte;
            reader.consume(1);
            Ok(Some(byte))
        }
        None => Ok(None),
    }
}

impl<R: BufRead> Buffered<R> {
    /// The bytes of `inner`, of which none is read yet.
    pub fn new(inner: R) -> Buffered<R>
        ensures inner { result ≡ inner }
    {
        Buffered { inner }
    }
}

impl<R: BufRead> Read for Buffered<R> {
    /// A piece of more than one byte is read as it is, since from a pipe it comes sooner whole.
    #[inline(always)]
    fn read(&mut self, buf: &mut [u8]) -> io::Result<usize>
        ensures bound { ReadsAtMost result buf.new }
        // where the reader tells what it will give, these bytes were taken from it, and none by a
        // read that failed; there are none at the end alone
        ensures passes { MatchResult result (λ n. Consumes (R.remaining self.old) (R.remaining
            self.new) (take n buf.new)) (λ _. Keeps (R.remaining self.old) (R.remaining self.new)) }
        ensures end { IfOk result (λ n. n ≡ 0 → 0 < length buf.old →
            IsAtEnd (R.remaining self.old)) }
    {
        if buf.len() != 1 {
            return self.inner.read(buf);
        }
        match next_byte(&mut self.inner)? {
            Some(byte) => {
                buf[0] = byte;
                Ok(1)
            }
            None => Ok(0),
        }
    }
}
