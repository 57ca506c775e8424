//! Making the certificate of a network that the answers cover.

ghost use Rattle.std.specs.Prelude.{◌≡◌, ◌≢◌, ◌≤◌, ◌<◌, ◌^◌, ◌&&◌, ◌++◌, [], ◌∷◌, false, not, None};
ghost use Rattle.std.specs.Prelude.{List, All, length, map, find, string_bytes, IfErr, IfOk, OnOk};
ghost use Rattle.std.specs.Str.{IsUtf8};
ghost use Rattle.assign.specs.Assignment.{value_of};
ghost use Rattle.assign.specs.Events.{Answer};
ghost use Rattle.language.specs.Language.{IsCandidate, IsImplied, IsQuestion, Language as Lang};
ghost use Rattle.language.specs.Answers.{IsCovered, IsNetwork, has_scope, is_struck, kept};
ghost use Rattle.voc_read.specs.Vocabulary.{IsVocabulary};
ghost use Rattle.cert_check.specs.ByVariable.{by_variable};
ghost use Rattle.cert_check.specs.Making.{IsFirstLong, Makes, is_long, certificate_made};
ghost use Rattle.cert_check.specs.Making.{refutation_of};
ghost use Rattle.cert_check.specs.Reading.{MOST_ANSWERS};
ghost use Rattle.cert_check.specs.Sheets.{AddsPiece};
ghost use Rattle.cert_check.specs.Told.{AreUnstruck};
ghost use Rattle.cert_check.specs.Written.{answers_section, count_line, entry_line};
ghost use Rattle.cert_check.specs.Written.{implied_section, item_line, listed_line};
ghost use Rattle.cert_check.specs.Written.{network_section, numbered_value, numbered_values};
ghost use Rattle.cert_check.specs.Written.{reply_text, vocabulary_section};

use crate::by_variable::ByVariable;
use crate::entry::Entry;
use crate::fault::MakeFault;
use crate::sheet::Sheet;
use crate::telling::has_scope;
use crate::told::{is_unstruck, unstruck};
use crate::tree::add_tree;
use assign::Partial;
use language::{Candidate, Language, Memory};
use std::alloc::{AllocError, Global};

// ---- What is listed

/// Whether no yes excludes the candidate and nothing is learned on its scope.
fn is_kept(left: &[u64], net: &[Candidate], c: Candidate) -> bool
    ensures { (l : Lang) (t : List Answer) → AreUnstruck l t left.now → IsCandidate l c →
        result ≡ (not (is_struck l t c) && not (has_scope net.now c.scope)) }
{
    is_unstruck(left, c) && !has_scope(net, c.scope)
}

/// Those candidates, in the order of their numbers. The network implies each of them.
fn kept(
    alloc: Global,
    lang: &Language,
    answers: &[Entry],
    net: &[Candidate],
) -> Result<Vec<Candidate>, Memory>
    requires covered { IsCovered lang.now net.now answers.now }
    requires questions { All (λ a. IsQuestion lang.now a.question) answers.now }
    ensures is { IfOk result (λ list. list.items ≡ kept lang.now answers.now net.now) }
    ensures known { IfOk result (λ list. All (IsCandidate lang.now) list.items) }
    ensures implied { IfOk result (λ list. All (IsImplied lang.now net.now) list.items) }
{
    let left = unstruck(alloc, lang, answers)?;
    let mut list = Vec::new(alloc);
    for number in 0..lang.candidates() {
        let c = lang.candidate(number);
        if is_kept(&left, net, c) {
            list.push(c)?;
        }
    }
    Ok(list)
}

// ---- Lines

/// Adds a line with a word and how many lines or bytes follow: `answers 2`.
fn add_count(sheet: &mut Sheet, word: &str, count: usize) -> Result<(), AllocError>
    ensures { OnOk result (AddsPiece sheet.old (count_line word.now count) sheet.new) }
{
    sheet.add(word)?;
    sheet.add(" ")?;
    sheet.add_number(count as u64)?;
    sheet.add("\n")
}

/// Adds what a question gives a variable: ` 0:1`, or nothing.
fn add_value(sheet: &mut Sheet, q: &Partial, v: u8) -> Result<(), AllocError>
    ensures { OnOk result (AddsPiece sheet.old (numbered_value v (value_of q.now v)) sheet.new) }
{
    let Some(x) = q.get(v) else {
        return Ok(());
    };
    sheet.add(" ")?;
    sheet.add_number(u64::from(v))?;
    sheet.add(":")?;
    sheet.add_number(u64::from(x))
}

/// Adds what a question gives its variables.
fn add_values(sheet: &mut Sheet, q: &Partial) -> Result<(), AllocError>
    ensures { OnOk result (AddsPiece sheet.old (numbered_values q.now) sheet.new) }
{
    for v in 0..q.len() {
        add_value(sheet, q, v)?;
    }
    Ok(())
}

fn add_reply(sheet: &mut Sheet, yes: bool) -> Result<(), AllocError>
    ensures { OnOk result (AddsPiece sheet.old (reply_text yes) sheet.new) }
{
    if yes {
        sheet.add("yes")
    } else {
        sheet.add("no")
    }
}

/// Adds an answer: `yes 0:0 1:1`.
fn add_entry(sheet: &mut Sheet, entry: &Entry) -> Result<(), AllocError>
    ensures { OnOk result (AddsPiece sheet.old (entry_line entry.now) sheet.new) }
{
    add_reply(sheet, entry.yes)?;
    add_values(sheet, &entry.question)?;
    sheet.add("\n")
}

/// Adds an item of the network: `0 1`.
fn add_item(sheet: &mut Sheet, c: Candidate) -> Result<(), AllocError>
    ensures { OnOk result (AddsPiece sheet.old (item_line c) sheet.new) }
{
    sheet.add_number(u64::from(c.scope))?;
    sheet.add(" ")?;
    sheet.add_number(u64::from(c.rel))?;
    sheet.add("\n")
}

/// Adds a candidate with its tree: `0 b b c c 0`. Says whether the tree has more branches than the
/// budget; then the line isn't added whole.
fn add_listed(
    alloc: Global,
    sheet: &mut Sheet,
    lang: &Language,
    net: &[Candidate],
    by: &ByVariable,
    c: Candidate,
    budget: u32,
) -> Result<bool, AllocError>
    requires candidate { IsCandidate lang.now c }
    requires network { IsNetwork lang.now net.now }
    requires by { by.now ≡ by_variable lang.now net.now }
    requires implied { IsImplied lang.now net.now c }
    requires small_budget { budget ≤ 1000000000 }
    ensures long { IfOk result (λ long. long ≡ is_long lang.now net.now budget c) }
    ensures added { IfOk result (λ long. long ≡ false →
        AddsPiece sheet.old (listed_line (refutation_of lang.now net.now c)) sheet.new) }
{
    sheet.add_number(u64::from(lang.number_of(c)))?;
    if add_tree(alloc, sheet, lang, net, by, c, budget)? {
        return Ok(true);
    }
    sheet.add("\n")?;
    Ok(false)
}

// ---- Sections

/// Adds the first line and the vocabulary.
fn add_vocabulary(sheet: &mut Sheet, voc: &[u8]) -> Result<(), AllocError>
    requires { IsUtf8 voc.now }
    ensures { OnOk result (AddsPiece sheet.old (vocabulary_section voc.now) sheet.new) }
{
    let Ok(text) = std::str::from_utf8(voc) else {
        unreachable!();
    };
    sheet.add("QUACQCERT1\n")?;
    add_count(sheet, "vocabulary", voc.len())?;
    sheet.add(text)?;
    sheet.add("\n")
}

fn add_answers(sheet: &mut Sheet, answers: &[Entry]) -> Result<(), AllocError>
    ensures { OnOk result (AddsPiece sheet.old (answers_section answers.now) sheet.new) }
{
    add_count(sheet, "answers", answers.len())?;
    for entry in answers {
        add_entry(sheet, entry)?;
    }
    Ok(())
}

fn add_network(sheet: &mut Sheet, net: &[Candidate]) -> Result<(), AllocError>
    ensures { OnOk result (AddsPiece sheet.old (network_section net.now) sheet.new) }
{
    add_count(sheet, "network", net.len())?;
    for c in net {
        add_item(sheet, *c)?;
    }
    Ok(())
}

/// Adds the listed candidates. `Long` where the tree of one has more branches than the budget, with
/// the first one's number.
fn add_implied(
    alloc: Global,
    sheet: &mut Sheet,
    lang: &Language,
    net: &[Candidate],
    by: &ByVariable,
    listed: &[Candidate],
    budget: u32,
) -> Result<(), MakeFault>
    requires network { IsNetwork lang.now net.now }
    requires by { by.now ≡ by_variable lang.now net.now }
    requires candidates { All (IsCandidate lang.now) listed.now }
    requires implied { All (IsImplied lang.now net.now) listed.now }
    requires small_budget { budget ≤ 1000000000 }
    ensures within { OnOk result (find (is_long lang.now net.now budget) listed.now ≡ None) }
    ensures added { OnOk result (AddsPiece sheet.old
        (implied_section (map (refutation_of lang.now net.now) listed.now)) sheet.new) }
    ensures long { IfErr result (λ fault. fault ≢ MakeFault.Memory →
        IsFirstLong lang.now net.now listed.now budget fault) }
{
    add_count(sheet, "implied", listed.len())?;
    for c in listed {
        if add_listed(alloc, sheet, lang, net, by, *c, budget)? {
            return Err(MakeFault::Long(lang.number_of(*c)));
        }
    }
    Ok(())
}

/// The text of a certificate which shows that the answers converge on the network. It lists each
/// candidate that no yes excludes and on whose scope the network has nothing, with the tree by
/// which the network implies it. `Long` where such a tree has more branches than the budget, with
/// the least number of such a candidate. Else `TooLarge` where the text has more than 67,108,864
/// bytes.
///
/// `voc` is the vocabulary's bytes, of which `lang` is the reading. The network is in learning
/// order, and the answers are in the order in which they were given.
pub fn make_cert(
    alloc: Global,
    lang: &Language,
    voc: &[u8],
    answers: &[Entry],
    net: &[Candidate],
    budget: u32,
) -> Result<String, MakeFault>
    requires covered { IsCovered lang.now net.now answers.now }
    requires network { IsNetwork lang.now net.now }
    requires questions { All (λ a. IsQuestion lang.now a.question) answers.now }
    requires few_answers { length answers.now ≤ MOST_ANSWERS }
    requires read { IsVocabulary voc.now lang.now }
    requires some_budget { 1 ≤ budget }
    requires small_budget { budget ≤ 1000000000 }
    ensures { Makes string_bytes
        (certificate_made voc.now lang.now net.now answers.now budget) result }
{
    let listed = kept(alloc, lang, answers, net)?;
    let mut sheet = Sheet::new(alloc);
    add_vocabulary(&mut sheet, voc)?;
    add_answers(&mut sheet, answers)?;
    add_network(&mut sheet, net)?;
    let by = ByVariable::of(alloc, lang, net)?;
    add_implied(alloc, &mut sheet, lang, net, &by, &listed, budget)?;
    sheet.add("end\n")?;
    sheet.finish()
}
