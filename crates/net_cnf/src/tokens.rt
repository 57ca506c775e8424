//! The tokens of a solver's output.

ghost use Rattle.std.specs.Prelude.{◌≡◌, ◌<◌, [], ◌∷◌, length, false, not, position, slice_index};
ghost use Rattle.std.specs.Prelude.{MatchOption};
ghost use Rattle.std.specs.Iterator.{YieldsFirstRef, item_count};
ghost use Rattle.std.specs.List.{before_first, after_first};
ghost use Rattle.net_cnf.specs.Left.{tokens_left};
ghost use Rattle.net_cnf.specs.Tokens.{is_blank, is_newline, is_remark, words, tokens_of_line};
ghost use Rattle.net_cnf.specs.Tokens.{all_tokens};

/// A space, a tab or a carriage return.
fn is_blank(byte: u8) -> bool
    ensures { result ≡ is_blank byte }
{
    byte == b' ' || byte == b'\t' || byte == b'\r'
}

/// Where the first line ends, if it ends with a newline.
fn newline_in(bytes: &[u8]) -> Option<usize>
    ensures { result ≡ position is_newline bytes.now }
{
    bytes.iter().position(|byte| *byte == b'\n')
}

/// Where the first blank is.
fn blank_in(line: &[u8]) -> Option<usize>
    ensures { result ≡ position is_blank line.now }
{
    line.iter().position(|byte| is_blank(*byte))
}

/// Where the first byte is that is no blank.
fn word_in(line: &[u8]) -> Option<usize>
    ensures { result ≡ position (λ b. not (is_blank b)) line.now }
{
    line.iter().position(|byte| !is_blank(*byte))
}

/// Whether a line names nothing: its first byte is `c`, `s`, `S` or `U`.
fn is_remark(line: &[u8]) -> bool
    ensures { result ≡ is_remark line.now }
{
    match line.first() {
        None => false,
        Some(byte) => *byte == b'c' || *byte == b's' || *byte == b'S' || *byte == b'U',
    }
}

/// The first line, and the bytes behind its newline.
fn cut_line(bytes: &[u8]) -> (&[u8], &[u8])
    ensures line { result.0.now ≡ before_first is_newline bytes.now }
    ensures behind { result.1.now ≡ after_first is_newline bytes.now }
{
    match newline_in(bytes) {
        None => (bytes, &bytes[bytes.len()..]),
        Some(end) => (&bytes[..end], &bytes[end + 1..]),
    }
}

/// The word that a line begins with, and what is behind it.
fn cut_word(line: &[u8]) -> (&[u8], &[u8])
    requires some { 0 < length line.now }
    requires word { is_blank (slice_index line.now 0) ≡ false }
    ensures { words line.now ≡ result.0.now ∷ words result.1.now }
{
    match blank_in(line) {
        None => (line, &line[line.len()..]),
        Some(end) => (&line[..end], &line[end + 1..]),
    }
}

/// The first word of a line, and what is behind it. None where there is no word.
fn first_word(line: &[u8]) -> Option<(&[u8], &[u8])>
    ensures { MatchOption result
        (words line.now ≡ []) (λ cut. words line.now ≡ cut.0.now ∷ words cut.1.now) }
{
    let start = word_in(line)?;
    Some(cut_word(&line[start..]))
}

/// The part of a line whose words are its tokens: nothing of a remark, and else what is behind a
/// first word `v`.
fn token_part(line: &[u8]) -> &[u8]
    ensures { words result.now ≡ tokens_of_line line.now }
{
    if is_remark(line) {
        return &line[line.len()..];
    }
    match first_word(line) {
        None => line,
        Some((word, behind)) => {
            if word == b"v".as_slice() {
                behind
            } else {
                line
            }
        }
    }
}

/// The tokens of lines, one by one.
#[derive(Drop)]
pub(crate) struct Tokens<'a> {
    /// Of the line that is read, the words that aren't taken yet.
    line: &'a [u8],
    /// The lines behind it.
    lines: &'a [u8],
}

impl<'a> Tokens<'a> {
    pub(crate) fn new(bytes: &'a [u8]) -> Tokens<'a>
        ensures { tokens_left result ≡ all_tokens bytes.entry.now }
    {
        Tokens {
            line: &bytes[bytes.len()..],
            lines: bytes,
        }
    }
}

impl<'a> Iterator for Tokens<'a> {
    type Item = &'a [u8];

    ghost next_gives = { YieldsFirstRef tokens_left };

    ghost remaining = { item_count tokens_left };

    fn next(&mut self) -> Option<&'a [u8]> {
        loop {
            if let Some((token, behind)) = first_word(self.line) {
                self.line = behind;
                return Some(token);
            }
            if self.lines.is_empty() {
                return None;
            }
            let (line, lines) = cut_line(self.lines);
            self.line = token_part(line);
            self.lines = lines;
        }
    }
}
