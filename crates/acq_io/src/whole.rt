ghost use Rattle.std.specs.Prelude.{◌≡◌, ◌≢◌, ◌≤◌, length, IfOk, IfErr, Ok, Err};
ghost use Rattle.acq_io.specs.Streams.{HasCalled, TakesSome};
ghost use Rattle.acq_io.specs.Lines.{LacksNewline};
ghost use Rattle.acq_io.specs.Whole.{all_of, first_line_of, Gives, TakesAtMost, TakesOfLine};

use crate::streams::{Failed, Source, read_byte};
use std::alloc::Global;
use thiserror::Error;

/// Why a source wasn't read into memory.
#[derive(Clone, Copy, Debug, PartialEq, Eq, Error)]
pub enum AllFault {
    /// More bytes came than were asked for. One more than that is taken.
    #[error("too many bytes")]
    TooLong,
    /// The source failed.
    #[error("the source failed")]
    Fault,
    #[error("out of memory")]
    Memory,
}

/// How many bytes are asked for at once.
const PIECE: usize = 4096;

/// Reads to the end.
pub fn read_all<S: Source>(alloc: Global, source: &mut S, most: u32) -> Result<Vec<u8>, AllFault>
    ensures all { IfOk result
        (λ all. Gives (all_of most) (S.left source.old) (S.left source.new) (Ok all.items)) }
    ensures few { IfOk result (λ all. length all.items ≤ most) }
    ensures too_long { result ≡ Err AllFault.TooLong
        → Gives (all_of most) (S.left source.old) (S.left source.new) (Err AllFault.TooLong) }
    ensures stopped { IfErr result (λ e. e ≢ AllFault.TooLong →
        TakesAtMost most (S.left source.old) (S.left source.new)) }
    ensures takes { TakesSome (S.left source.old) (S.left source.new) }
    ensures called { HasCalled (S.faults source.old) (S.faults source.new) (S.late source.old)
        (S.late source.new) (result ≡ Err AllFault.Fault) }
{
    let most = most as usize;
    let mut all = Vec::new(alloc);
    let mut place = [0u8; PIECE];
    loop {
        // A byte past the most shows that there are too many.
        let room = most - all.len();
        let piece = &mut place[..PIECE.min(room + 1)];
        match source.read(piece) {
            Err(Failed) => return Err(AllFault::Fault),
            Ok(0) => return Ok(all),
            Ok(count) => {
                if count > room {
                    return Err(AllFault::TooLong);
                }
                if all.extend_from_slice(&piece[..count]).is_err() {
                    return Err(AllFault::Memory);
                }
            }
        }
    }
}

/// Reads to the first newline or to the end, byte by byte, and gives the bytes before it. The
/// newline is taken, and no byte past it.
pub fn read_first_line<S: Source>(
    alloc: Global,
    source: &mut S,
    most: u32,
) -> Result<Vec<u8>, AllFault>
    ensures line { IfOk result (λ line.
        Gives (first_line_of most) (S.left source.old) (S.left source.new) (Ok line.items)) }
    ensures few { IfOk result (λ line. length line.items ≤ most) }
    ensures one_line { IfOk result (λ line. LacksNewline line.items) }
    ensures too_long { result ≡ Err AllFault.TooLong
        →
        Gives (first_line_of most) (S.left source.old) (S.left source.new) (Err AllFault.TooLong) }
    ensures stopped { IfErr result (λ e. e ≢ AllFault.TooLong →
        TakesOfLine most (S.left source.old) (S.left source.new)) }
    ensures takes { TakesSome (S.left source.old) (S.left source.new) }
    ensures called { HasCalled (S.faults source.old) (S.faults source.new) (S.late source.old)
        (S.late source.new) (result ≡ Err AllFault.Fault) }
{
    let mut line = Vec::new(alloc);
    loop {
        match read_byte(source) {
            Err(Failed) => return Err(AllFault::Fault),
            Ok(None) => return Ok(line),
            Ok(Some(b'\n')) => return Ok(line),
            Ok(Some(byte)) => {
                if line.len() == most as usize {
                    return Err(AllFault::TooLong);
                }
                if line.push(byte).is_err() {
                    return Err(AllFault::Memory);
                }
            }
        }
    }
}
