//! The lines of the open candidates.

ghost use Rattle.std.specs.Prelude.{◌≡◌, ◌++◌, ◌<◌, [], length, filter, if◌then◌else◌, IfOk, OnOk};
ghost use Rattle.std.specs.List.{flat_map};
ghost use Rattle.std.specs.String.{string_bytes};
ghost use Rattle.language.specs.Language.{IsCandidate, candidates, candidates_on};
ghost use Rattle.query_gen.specs.Marks.{AreMarksFor, is_open};
ghost use Rattle.acq_loop.specs.Texts.{open_line};

use language::{Candidate, Language, Memory, ScopeId};
use query_gen::Screen;
use std::alloc::Global;

/// Adds the line of a candidate, where it is open.
fn push_open(
    alloc: Global,
    text: &mut String,
    lang: &Language,
    screen: &Screen,
    c: Candidate,
) -> Result<(), Memory>
    requires made { AreMarksFor lang.now screen.now }
    requires candidate { IsCandidate lang.now c }
    ensures { OnOk result (string_bytes text.new ≡ string_bytes text.old
        ++ (if is_open lang.now screen.now c then open_line lang.now c else [])) }
{
    if !screen.is_open(c) {
        return Ok(());
    }
    let name = lang.candidate_text(alloc, c)?;
    match write!(text, "open {name}\n") {
        Ok(()) => Ok(()),
        Err(_) => Err(Memory),
    }
}

/// Adds the lines of the open candidates on a scope, by relation.
fn push_open_on(
    alloc: Global,
    text: &mut String,
    lang: &Language,
    screen: &Screen,
    scope: ScopeId,
) -> Result<(), Memory>
    requires made { AreMarksFor lang.now screen.now }
    requires scope { scope < length lang.now.scopes }
    ensures { OnOk result (string_bytes text.new ≡ string_bytes text.old ++ flat_map (open_line
        lang.now) (filter (is_open lang.now screen.now) (candidates_on lang.now scope))) }
{
    for rel in 0..lang.relations_on(scope) {
        push_open(alloc, text, lang, screen, Candidate { scope, rel })?;
    }
    Ok(())
}

/// The lines of the open candidates, in candidate order.
pub(crate) fn open_lines(alloc: Global, lang: &Language, screen: &Screen) -> Result<String, Memory>
    requires made { AreMarksFor lang.now screen.now }
    ensures { IfOk result (λ text. string_bytes text ≡ flat_map (open_line lang.now)
        (filter (is_open lang.now screen.now) (candidates lang.now))) }
{
    let mut text = String::new(alloc);
    for s in 0..lang.scopes() {
        push_open_on(alloc, &mut text, lang, screen, s as ScopeId)?;
    }
    Ok(text)
}
