//! Lines, one after the other, up to the first that is missing or wrong.

ghost use Rattle.std.specs.Prelude.{◌≡◌, ◌<◌, IfOk};
ghost use Rattle.cert_check.specs.Reading.{behind_line, block_in, count_in, count_up_to, line_in};
ghost use Rattle.cert_check.specs.Reading.{next_line};
ghost use Rattle.cert_check.specs.Read.{AreFew, Reads, unread};

use crate::fault::CertFault;
use crate::unread::Lines;
use line_text::{cut_at, decimal_in};

/// The next line, and those behind it.
pub(crate) fn line_in(lines: Lines<'_>) -> Result<(&[u8], Lines<'_>), CertFault>
    requires few { AreFew lines }
    ensures is { Reads (λ x. (x.0.now, unread x.1)) (line_in (unread lines.entry)) result }
    ensures few { IfOk result (λ x. AreFew x.1) }
{
    let (text, bytes) = cut_at(lines.bytes, b'\n').ok_or(CertFault::BadLine(lines.line))?;
    let behind = Lines {
        line: lines.line + 1,
        bytes,
    };
    Ok((text, behind))
}

#[tactic(auto, unfolding(crate::specs::Reading::behind_line))]
/// What is behind the next line, where it is exactly this one.
pub(crate) fn behind_line<'a>(text: &[u8], lines: Lines<'a>) -> Result<Lines<'a>, CertFault>
    requires few { AreFew lines }
    ensures is { Reads unread (behind_line text.now (unread lines.entry)) result }
    ensures few { IfOk result AreFew }
{
    let (line, behind) = line_in(lines)?;
    if line == text {
        Ok(behind)
    } else {
        Err(CertFault::BadLine(lines.line))
    }
}

/// The number in a line of a word and a number.
fn count_in(word: &[u8], line: &[u8]) -> Option<u32>
    ensures { result ≡ count_in word.now line.now }
{
    let (first, digits) = cut_at(line, b' ')?;
    if first == word {
        decimal_in(digits)
    } else {
        None
    }
}

/// The same, where it is at most so much.
fn count_up_to(most: u32, word: &[u8], line: &[u8]) -> Option<u32>
    requires { most < 4294967295 }
    ensures { result ≡ count_up_to most word.now line.now }
{
    let count = count_in(word, line)?;
    if count <= most { Some(count) } else { None }
}

#[tactic(auto, unfolding(crate::specs::Reading::next_line))]
/// The number in the next line, which has a word and a number.
pub(crate) fn next_count<'a>(word: &[u8], lines: Lines<'a>) -> Result<(u32, Lines<'a>), CertFault>
    requires few { AreFew lines }
    ensures is { Reads (λ x. (x.0, unread x.1))
        (next_line (count_in word.now) (unread lines.entry)) result }
    ensures few { IfOk result (λ x. AreFew x.1) }
{
    let (line, behind) = line_in(lines)?;
    let count = count_in(word, line).ok_or(CertFault::BadLine(lines.line))?;
    Ok((count, behind))
}

#[tactic(auto, unfolding(crate::specs::Reading::next_line))]
/// The same, where the number is at most so much.
pub(crate) fn next_count_up_to<'a>(
    most: u32,
    word: &[u8],
    lines: Lines<'a>,
) -> Result<(u32, Lines<'a>), CertFault>
    requires low { most < 4294967295 }
    requires few { AreFew lines }
    ensures is { Reads (λ x. (x.0, unread x.1))
        (next_line (count_up_to most word.now) (unread lines.entry)) result }
    ensures few { IfOk result (λ x. AreFew x.1) }
{
    let (line, behind) = line_in(lines)?;
    let count = count_up_to(most, word, line).ok_or(CertFault::BadLine(lines.line))?;
    Ok((count, behind))
}

#[tactic(auto, unfolding(crate::specs::Reading::block_in))]
/// So many bytes, and the lines behind them and their newline.
pub(crate) fn block_in(size: u32, lines: Lines<'_>) -> Result<(&[u8], Lines<'_>), CertFault>
    requires few { AreFew lines }
    ensures is { Reads (λ x. (x.0.now, unread x.1)) (block_in size (unread lines.entry)) result }
    ensures few { IfOk result (λ x. AreFew x.1) }
{
    let size = size as usize;
    if size >= lines.bytes.len() || lines.bytes[size] != b'\n' {
        return Err(CertFault::BadLine(lines.line));
    }
    let behind = Lines {
        line: lines.line + 1,
        bytes: &lines.bytes[size + 1..],
    };
    Ok((&lines.bytes[..size], behind))
}
