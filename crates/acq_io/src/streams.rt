ghost use Rattle.std.specs.Prelude.{◌≡◌, ℕ, ◌<◌, ◌≤◌, List, length, take, IfOk, IsErr, OnOk, OnErr};
ghost use Rattle.std.specs.Prelude.{Option};
ghost use Rattle.std.specs.Option.{option_to_list};
ghost use Rattle.acq_io.specs.Streams.{raised, Rose, Takes, HasCalled, IsLate, WasEmpty, Adds};
ghost use Rattle.acq_io.specs.Streams.{AddsFront};

use std::alloc::AllocError;
use thiserror::Error;

/// A source has failed, and has counted it.
#[derive(Clone, Copy, Debug, PartialEq, Eq, Error)]
#[error("the source failed")]
pub struct Failed;

/// Why a piece wasn't written.
#[derive(Clone, Copy, Debug, PartialEq, Eq, Error)]
pub enum Put {
    /// The sink has failed, and has counted it.
    #[error("the sink failed")]
    Failed,
    /// A sink in memory lacked memory of its own.
    #[error("out of memory")]
    Memory,
}

impl From<AllocError> for Put {
    ghost use Rattle.std.specs.Prelude.{◌≡◌};
    ghost use Rattle.acq_io.specs.declared.streams.Put.TheVariants.{Memory};

    ghost from_gives = { λ _ e. e ≡ Memory };

    fn from(_refused: AllocError) -> Put {
        Put::Memory
    }
}

/// Where bytes come from.
pub trait Source {
    /// The bytes that are still to come, where the source tells them.
    ghost left: { Self → Option (List ℕ) };

    /// How often the source has failed.
    ghost faults: { Self → ℕ };

    /// How often it was called after it had failed.
    ghost late: { Self → ℕ };

    /// Puts bytes at the front of the buffer, and answers how many; 0 means the end. A call that
    /// fails takes nothing.
    fn read(&mut self, buf: &mut [u8]) -> Result<usize, Failed>
        requires { 0 < length buf.old }
        ensures count { IfOk result (λ n. n ≤ length buf.new) }
        ensures bytes { IfOk result (λ n. Takes (left self.old) (left self.new) (take n buf.new)) }
        ensures end { result ≡ Ok 0 → WasEmpty (left self.old) }
        ensures err { OnErr result (left self.new ≡ left self.old) }
        ensures raised { OnErr result (faults self.new ≡ raised (faults self.old)) }
        ensures kept { OnOk result (faults self.new ≡ faults self.old) }
        ensures later { faults self.old ≤ faults self.new }
        ensures late { IsLate (faults self.old) (late self.old) (late self.new) };
}

/// Where bytes go.
pub trait Sink {
    /// The bytes that were written, where the sink tells them.
    ghost written: { Self → Option (List ℕ) };

    /// How often the sink has failed.
    ghost faults: { Self → ℕ };

    /// Adds the piece at the end. A call that fails may have added a front of it.
    fn write(&mut self, piece: &[u8]) -> Result<(), Put>
        ensures ok { OnOk result (Adds (written self.old) (written self.new) piece.now) }
        ensures failed { result ≡ Err Put.Failed →
            AddsFront (written self.old) (written self.new) piece.now }
        ensures memory { result ≡ Err Put.Memory → written self.new ≡ written self.old }
        ensures later { faults self.old ≤ faults self.new }
        ensures cause { result ≡ Err Put.Failed → Rose (faults self.old) (faults self.new) };
}

/// The next byte, or `None` at the end.
#[inline(always)]
pub fn read_byte<S: Source>(source: &mut S) -> Result<Option<u8>, Failed>
    ensures bytes { IfOk result
        (λ byte. Takes (S.left source.old) (S.left source.new) (option_to_list byte)) }
    ensures end { result ≡ Ok None → WasEmpty (S.left source.old) }
    ensures err { OnErr result (S.left source.new ≡ S.left source.old) }
    ensures called { HasCalled (S.faults source.old) (S.faults source.new) (S.late source.old)
        (S.late source.new) (IsErr result) }
{
    let mut place = [0u8; 1];
    let count = source.read(&mut place)?;
    if count == 0 {
        Ok(None)
    } else {
        Ok(Some(place[0]))
    }
}
