//! The words of a line, and the numbers that they write.

ghost use Rattle.std.specs.Prelude.{◌≡◌, ◌<◌, ◌≤◌, ◌==◌, ◌∷◌, length, position, IfSome};
ghost use Rattle.std.specs.Iterator.{YieldsFirstRef, item_count};
ghost use Rattle.std.specs.Option.{option_map};
ghost use Rattle.line_text.specs.Words.{begins_well, capped, cut_at, decimal_below, decimal_in};
ghost use Rattle.line_text.specs.Words.{number_from, words_in};
ghost use Rattle.line_text.specs.Left.{words_left, words_of};

/// Where the byte is for the first time.
pub fn place_of(bytes: &[u8], byte: u8) -> Option<usize>
    ensures { result ≡ position (λ b. b == byte) bytes.now }
{
    bytes.iter().position(|b| *b == byte)
}

/// What stands before and behind the first such byte, where there is one.
pub fn cut_at(bytes: &[u8], byte: u8) -> Option<(&[u8], &[u8])>
    ensures is { option_map (λ parts. (parts.0.now, parts.1.now)) result ≡ cut_at byte bytes.now }
    ensures shorter { IfSome result (λ parts. length parts.1.now < length bytes.now) }
{
    let place = place_of(bytes, byte)?;
    Some((&bytes[..place], &bytes[place + 1..]))
}

/// The number, or the greatest of 32 bits where it needs more.
fn capped(n: u64) -> u32
    ensures { result ≡ capped n }
{
    if n < 1 << 32 { n as u32 } else { u32::MAX }
}

/// Whether there are digits, of which the first is a 0 only where it stands alone.
fn begins_well(digits: &[u8]) -> bool
    ensures { result ≡ begins_well digits.now }
{
    !digits.is_empty() && (digits[0] != b'0' || digits.len() == 1)
}

/// The number that digits write, where a 0 stands first only alone. One that needs more than 32
/// bits is taken for the greatest of 32.
pub fn decimal_in(digits: &[u8]) -> Option<u32>
    ensures { result ≡ option_map capped (decimal_in digits.now) }
{
    if !begins_well(digits) {
        return None;
    }
    let mut number = 0;
    for byte in digits {
        let digit = char::from(*byte).to_digit(10)?;
        number = capped(u64::from(number) * 10 + u64::from(digit));
    }
    Some(number)
}

/// The same, where the number is below the bound.
pub fn decimal_below(bound: u32, digits: &[u8]) -> Option<u32>
    ensures is { result ≡ decimal_below bound digits.now }
    ensures low { IfSome result (λ n. n < bound) }
{
    let number = decimal_in(digits)?;
    if number < bound { Some(number) } else { None }
}

/// The same, where it isn't below the least.
pub fn number_from(least: u32, bound: u32, digits: &[u8]) -> Option<u32>
    ensures is { result ≡ number_from least bound digits.now }
    ensures from { IfSome result (λ n. least ≤ n) }
    ensures low { IfSome result (λ n. n < bound) }
{
    let number = decimal_below(bound, digits)?;
    if number >= least { Some(number) } else { None }
}

/// The first word of a line, and what is behind the space that ends it, if one does.
fn cut_word(line: &[u8]) -> (&[u8], Option<&[u8]>)
    ensures { words_in line.now ≡ result.0.now ∷ words_of result.1 }
{
    match cut_at(line, b' ') {
        None => (line, None),
        Some((word, behind)) => (word, Some(behind)),
    }
}

/// The words of a line, one by one: what stands before, between and behind single spaces.
#[derive(Drop)]
pub struct Words<'a> {
    rest: Option<&'a [u8]>,
}

impl<'a> Words<'a> {
    pub fn of(line: &'a [u8]) -> Words<'a>
        ensures { words_left result ≡ words_in line.entry.now }
    {
        Words { rest: Some(line) }
    }
}

impl<'a> Iterator for Words<'a> {
    type Item = &'a [u8];

    ghost next_gives = { YieldsFirstRef words_left };

    ghost remaining = { item_count words_left };

    fn next(&mut self) -> Option<&'a [u8]> {
        let (word, behind) = cut_word(self.rest?);
        self.rest = behind;
        Some(word)
    }
}
