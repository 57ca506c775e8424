ghost use Rattle.std.specs.Prelude.{◌≡◌, ◌+◌, ◌<◌, ◌≤◌, ◌||◌, ◌==◌, length, Some};
ghost use Rattle.std.specs.List.{prefix_len, suffix_len};
ghost use Rattle.std.specs.Option.{option_map};
ghost use Rattle.std.specs.Str.{bytes_eq};
ghost use Rattle.target_oracle.specs.Words.{is_blank, trimmed, reply_of};
ghost use Rattle.target_oracle.specs.Hearing.{told_of};

use crate::teacher::Told;

/// Spaces, tabs and carriage returns.
fn is_blank(byte: u8) -> bool
    ensures { result ≡ is_blank byte }
{
    byte == b' ' || byte == b'\t' || byte == b'\r'
}

/// How many blanks a line begins with.
fn blanks_before(line: &[u8]) -> usize
    ensures count { result ≡ prefix_len is_blank line.now }
    ensures fits { result ≤ length line.now }
{
    line.iter().take_while(|byte| is_blank(**byte)).count()
}

/// How many bytes a line has before the blanks that it ends with.
fn len_before_blanks(line: &[u8]) -> usize
    ensures { result + suffix_len is_blank line.now ≡ length line.now }
{
    let mut len = line.len();
    while len > 0 && is_blank(line[len - 1]) {
        len -= 1;
    }
    len
}

/// The line without the blanks at its two ends.
fn trim(line: &[u8]) -> &[u8]
    ensures { result.now ≡ trimmed line.now }
{
    let line = &line[blanks_before(line)..];
    &line[..len_before_blanks(line)]
}

#[inline(always)]
fn is_either(word: &[u8], long: &[u8], short: &[u8]) -> bool
    ensures { result ≡ (bytes_eq word.now long.now || bytes_eq word.now short.now) }
{
    word == long || word == short
}

/// What a word says to question number `k`. None where it is no answer.
#[tactic(auto, unfolding(crate::specs::Words::reply_of))]
fn told_by(word: &[u8], k: u32) -> Option<Told>
    ensures is { result ≡ option_map told_of (reply_of k word.now) }
    ensures back { result ≡ Some Told.Back → 1 < k }
{
    if is_either(word, b"yes", b"y") {
        Some(Told::Yes)
    } else if is_either(word, b"no", b"n") {
        Some(Told::No)
    } else if word == b"stop".as_slice() {
        Some(Told::Stop)
    } else if word == b"back".as_slice() && k > 1 {
        Some(Told::Back)
    } else {
        None
    }
}

/// What a line says to question number `k`, with or without blanks at its ends. None where it is no
/// answer.
pub(crate) fn told_in(line: &[u8], k: u32) -> Option<Told>
    ensures is { result ≡ option_map told_of (reply_of k (trimmed line.now)) }
    ensures back { result ≡ Some Told.Back → 1 < k }
{
    told_by(trim(line), k)
}
