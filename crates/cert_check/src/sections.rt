//! The lines of answers, of a network's items and of listed candidates.

ghost use Rattle.std.specs.Prelude.{◌≡◌, ◌<◌, ◌≤◌, All, IfOk, IfSome, IsTrue, Some, length};
ghost use Rattle.std.specs.Prelude.{vec_len};
ghost use Rattle.std.specs.Option.{ok_or, option_map};
ghost use Rattle.language.specs.Language.{IsCandidate, IsQuestion, candidates, range_of};
ghost use Rattle.language.specs.Ranges.{is_in};
ghost use Rattle.language.specs.Answers.{IsNetwork};
ghost use Rattle.cert_check.specs.Reading.{answer_line_in, answers_read, item_in, item_lines};
ghost use Rattle.cert_check.specs.Reading.{item_listed_in, listed_lines, next_line, pair_in};
ghost use Rattle.cert_check.specs.Reading.{question_in, reply_in, token_in, tokens_in, value_in};
ghost use Rattle.line_text.specs.Left.{words_left};
ghost use Rattle.cert_check.specs.Read.{AreFew, Reads, unread};

use crate::cert::Listed;
use crate::entry::Entry;
use crate::fault::CertFault;
use crate::lines::line_in;
use crate::token::Token;
use crate::unread::Lines;
use assign::Partial;
use language::{Candidate, Language};
use line_text::{Words, cut_at, decimal_below, number_from};
use std::alloc::Global;

// ---- Answers

/// The number of a value that a variable may have.
fn value_in(lang: &Language, v: u8, digits: &[u8]) -> Option<u8>
    requires { v < length lang.now.names }
    ensures is { result ≡ value_in (range_of lang.now v) digits.now }
    ensures fits { IfSome result (λ x. x < lang.now.value_count) }
    ensures within { IfSome result (λ x. IsTrue (is_in (range_of lang.now v) x)) }
{
    let (first, last) = lang.range(v);
    let x = number_from(u32::from(first), u32::from(last) + 1, digits)?;
    Some(x as u8)
}

/// A variable, from the least on, and a value of its range, both by number.
fn pair_in(lang: &Language, least: u32, word: &[u8]) -> Option<(u8, u8)>
    ensures is { result ≡ pair_in lang.now.ranges (length lang.now.names) least word.now }
    ensures known { IfSome result (λ pair. pair.0 < length lang.now.names) }
    ensures fits { IfSome result (λ pair. pair.1 < lang.now.value_count) }
    ensures within { IfSome result (λ pair. IsTrue (is_in (range_of lang.now pair.0) pair.1)) }
{
    let (first, second) = cut_at(word, b':')?;
    let v = number_from(least, u32::from(lang.n()), first)? as u8;
    let x = value_in(lang, v, second)?;
    Some((v, x))
}

/// The assignment that pairs give.
fn question_in(lang: &Language, pairs: &[u8]) -> Option<Partial>
    ensures is { result ≡ question_in lang.now pairs.now }
    ensures question { IfSome result (IsQuestion lang.now) }
{
    let mut question = Partial::blank(lang.n());
    let mut least = 0;
    for word in Words::of(pairs) {
        let (v, x) = pair_in(lang, least, word)?;
        question.set(v, x);
        least = u32::from(v) + 1;
    }
    Some(question)
}

fn reply_in(word: &[u8]) -> Option<bool>
    ensures { result ≡ reply_in word.now }
{
    if word == b"yes".as_slice() {
        Some(true)
    } else if word == b"no".as_slice() {
        Some(false)
    } else {
        None
    }
}

/// The answer that a line says.
fn answer_in(lang: &Language, line: &[u8]) -> Option<Entry>
    ensures is { result ≡ answer_line_in lang.now line.now }
    ensures question { IfSome result (λ a. IsQuestion lang.now a.question) }
{
    let (reply, pairs) = cut_at(line, b' ')?;
    let yes = reply_in(reply)?;
    let question = question_in(lang, pairs)?;
    Some(Entry { question, yes })
}

/// The answers of so many lines.
pub(crate) fn answer_lines<'a>(
    alloc: Global,
    lang: &Language,
    count: u32,
    lines: Lines<'a>,
) -> Result<(Vec<Entry>, Lines<'a>), CertFault>
    requires few { AreFew lines }
    ensures is { Reads (λ x. (x.0.items, unread x.1))
        (answers_read lang.now count (unread lines.entry)) result }
    ensures few { IfOk result (λ x. AreFew x.1) }
    ensures questions { IfOk result (λ x. All (λ a. IsQuestion lang.now a.question) x.0.items) }
    ensures long { IfOk result (λ x. vec_len x.0 ≡ count) }
{
    let mut entries = Vec::new(alloc);
    let mut rest = lines;
    for _ in 0..count {
        let (line, behind) = line_in(rest)?;
        let entry = answer_in(lang, line).ok_or(CertFault::BadLine(rest.line))?;
        entries.push(entry)?;
        rest = behind;
    }
    Ok((entries, rest))
}

// ---- The network

/// The candidate that a line names by the numbers of its scope and of its relation there.
fn item_in(lang: &Language, line: &[u8]) -> Option<Candidate>
    ensures is { result ≡ item_in lang.now line.now }
    ensures candidate { IfSome result (IsCandidate lang.now) }
{
    let (first, second) = cut_at(line, b' ')?;
    let scope = decimal_below(lang.scopes(), first)? as u16;
    let rel = decimal_below(u32::from(lang.relations_on(scope)), second)? as u8;
    Some(Candidate { scope, rel })
}

#[tactic(auto, unfolding(crate::specs::Reading::next_line))]
fn next_item<'a>(lang: &Language, lines: Lines<'a>) -> Result<(Candidate, Lines<'a>), CertFault>
    requires few { AreFew lines }
    ensures is { Reads (λ x. (x.0, unread x.1))
        (next_line (item_in lang.now) (unread lines.entry)) result }
    ensures few { IfOk result (λ x. AreFew x.1) }
    ensures candidate { IfOk result (λ x. IsCandidate lang.now x.0) }
{
    let (line, behind) = line_in(lines)?;
    let item = item_in(lang, line).ok_or(CertFault::BadLine(lines.line))?;
    Ok((item, behind))
}

/// The items of so many lines.
pub(crate) fn item_lines<'a>(
    alloc: Global,
    lang: &Language,
    count: u32,
    lines: Lines<'a>,
) -> Result<(Vec<Candidate>, Lines<'a>), CertFault>
    requires few { AreFew lines }
    ensures is { Reads (λ x. (x.0.items, unread x.1))
        (item_lines lang.now count (unread lines.entry)) result }
    ensures few { IfOk result (λ x. AreFew x.1) }
    ensures network { IfOk result (λ x. IsNetwork lang.now x.0.items) }
    ensures long { IfOk result (λ x. vec_len x.0 ≡ count) }
{
    let mut items = Vec::new(alloc);
    let mut rest = lines;
    for _ in 0..count {
        let (item, behind) = next_item(lang, rest)?;
        items.push(item)?;
        rest = behind;
    }
    Ok((items, rest))
}

// ---- Listed candidates

/// The node that a word is, where the network has so many items.
fn token_in(items: u32, word: &[u8]) -> Option<Token>
    ensures { result ≡ token_in items word.now }
{
    if word == b"b".as_slice() {
        Some(Token::Branch)
    } else if word == b"c".as_slice() {
        Some(Token::Holds)
    } else {
        let i = decimal_below(items, word)?;
        Some(Token::Item(i))
    }
}

/// The nodes that words are, in the line of this number.
fn tokens_in(
    alloc: Global,
    items: u32,
    line: u32,
    words: Words<'_>,
) -> Result<Vec<Token>, CertFault>
    ensures { Reads (λ tokens. tokens.items)
        (ok_or (tokens_in items (words_left words.entry)) (CertFault.BadLine line)) result }
{
    let mut tokens = Vec::new(alloc);
    for word in words {
        let token = token_in(items, word).ok_or(CertFault::BadLine(line))?;
        tokens.push(token)?;
    }
    Ok(tokens)
}

/// The listed candidate of a line, its number from the least on, and its tokens.
fn listed_in(
    alloc: Global,
    lang: &Language,
    items: u32,
    least: u32,
    line: u32,
    text: &[u8],
) -> Result<Listed, CertFault>
    ensures is { Reads (λ r.
        r) (ok_or (item_listed_in lang.now items least text.now) (CertFault.BadLine line)) result }
    ensures known { IfOk result (λ r. r.candidate < length (candidates lang.now)) }
    ensures low { IfOk result (λ r. r.candidate < 4294967295) }
{
    let mut words = Words::of(text);
    let first = words.next().ok_or(CertFault::BadLine(line))?;
    let candidate = number_from(least, lang.candidates(), first).ok_or(CertFault::BadLine(line))?;
    let tokens = tokens_in(alloc, items, line, words)?;
    Ok(Listed::new(candidate, tokens))
}

#[tactic(auto, unfolding(crate::specs::Reading::next_line))]
fn next_listed<'a>(
    alloc: Global,
    lang: &Language,
    items: u32,
    least: u32,
    lines: Lines<'a>,
) -> Result<(Listed, Lines<'a>), CertFault>
    requires few { AreFew lines }
    ensures is { Reads (λ x. (x.0, unread x.1))
        (next_line (item_listed_in lang.now items least) (unread lines.entry)) result }
    ensures few { IfOk result (λ x. AreFew x.1) }
    ensures known { IfOk result (λ x. x.0.candidate < length (candidates lang.now)) }
    ensures low { IfOk result (λ x. x.0.candidate < 4294967295) }
{
    let (line, behind) = line_in(lines)?;
    let listed = listed_in(alloc, lang, items, least, lines.line, line)?;
    Ok((listed, behind))
}

/// The listed candidates of so many lines, where the network has so many items.
pub(crate) fn listed_lines<'a>(
    alloc: Global,
    lang: &Language,
    items: u32,
    count: u32,
    lines: Lines<'a>,
) -> Result<(Vec<Listed>, Lines<'a>), CertFault>
    requires few { AreFew lines }
    ensures is { Reads (λ x. (x.0.items, unread x.1))
        (listed_lines lang.now items count (unread lines.entry)) result }
    ensures few { IfOk result (λ x. AreFew x.1) }
    ensures known { IfOk result
        (λ x. All (λ r. r.candidate < length (candidates lang.now)) x.0.items) }
    ensures long { IfOk result (λ x. vec_len x.0 ≡ count) }
{
    let mut listed = Vec::new(alloc);
    let mut least = 0;
    let mut rest = lines;
    for _ in 0..count {
        let (next, behind) = next_listed(alloc, lang, items, least, rest)?;
        least = next.candidate() + 1;
        listed.push(next)?;
        rest = behind;
    }
    Ok((listed, rest))
}
