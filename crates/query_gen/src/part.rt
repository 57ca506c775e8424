//! The search of a part of the candidates.

ghost use Rattle.std.specs.Prelude.{ℕ, ◌≡◌, ◌+◌, ◌-◌, ◌<◌, ◌≤◌, [], ◌∷◌, length, true, false};
ghost use Rattle.language.specs.Language.{IsCandidate, candidates, number_of};
ghost use Rattle.language.specs.Answers.{IsNetwork};
ghost use Rattle.bias_store.specs.KeptSet.{kept_relations, IsMadeFor as IsKeptOf};
ghost use Rattle.propagators.specs.Indexes.{IsIndexOf};
ghost use Rattle.fd_solver.specs.Outcomes.{outcome_of_candidate};
ghost use Rattle.query_gen.specs.Questions.{query_of};
ghost use Rattle.query_gen.specs.Marks.{AreMarksFor, MarksHold};
ghost use Rattle.query_gen.specs.Parts.{byte_for, is_ask, query_then, IsScopeOf, IsSearched};
ghost use Rattle.query_gen.specs.Parts.{IsSearchedBefore, IsSearchedTo};

use crate::query::Query;
use crate::screen::{Mark, Screen};
use crate::span::Span;
use bias_store::{Kept, split_first};
use fd_solver::{Outcome, Work, order_of, search_with};
use language::{Candidate, Language, ScopeId};
use network::Network;
use propagators::{Constraints, Index};

/// The byte of a candidate on which nothing is left to ask.
pub(crate) const IMPLIED: u8 = 1;

/// The byte of a candidate on which the budget was spent.
pub(crate) const SPENT: u8 = 2;

/// The byte of a candidate whose search found a question.
pub(crate) const FOUND: u8 = 3;

/// The outcome of a candidate's search.
fn outcome_of(
    work: &mut Work,
    index: &Index,
    lang: &Language,
    net: &Network,
    budget: u32,
    c: Candidate,
) -> Outcome
    requires index { IsIndexOf lang.now index.now }
    requires candidate { IsCandidate lang.now c }
    requires network { IsNetwork lang.now net.now.list }
    requires budget { 1 ≤ budget }
    ensures { result ≡ outcome_of_candidate lang.now net.now.list c budget }
{
    let constraints = Constraints {
        lang,
        list: net.list(),
        against: Some(c),
    };
    search_with(work, index, &constraints, &order_of(lang, c), budget)
}

/// Searches for a kept candidate, puts what it says behind what those before it say, and returns
/// its byte.
// Not inlined: the room of an outcome is cleared at each entry, and most candidates need no search.
#[inline(never)]
fn search_candidate(
    work: &mut Work,
    answer: &mut Query,
    index: &Index,
    lang: &Language,
    net: &Network,
    budget: u32,
    c: Candidate,
) -> u8
    requires index { IsIndexOf lang.now index.now }
    requires candidate { IsCandidate lang.now c }
    requires network { IsNetwork lang.now net.now.list }
    requires budget { 1 ≤ budget }
    requires none { is_ask answer.old ≡ false }
    ensures byte { result ≡ byte_for (outcome_of_candidate lang.now net.now.list c budget) }
    ensures answer { answer.new ≡ query_then answer.old
        (query_of (outcome_of_candidate lang.now net.now.list c budget ∷ [])) }
{
    match outcome_of(work, index, lang, net, budget, c) {
        Outcome::Found(e) => {
            *answer = Query::Ask(e);
            FOUND
        }
        Outcome::Absent => IMPLIED,
        Outcome::Spent => {
            *answer = Query::Undecided;
            SPENT
        }
    }
}

/// The same, without a search where the last find of the candidate stands: what was learned since
/// accepts it.
fn search_unless_found(
    work: &mut Work,
    answer: &mut Query,
    screen: &Screen,
    lang: &Language,
    net: &Network,
    budget: u32,
    number: u32,
    c: Candidate,
) -> u8
    requires screen { AreMarksFor lang.now screen.now }
    requires marks { MarksHold lang.now net.now.list budget screen.now }
    requires candidate { IsCandidate lang.now c × (number_of lang.now c ≡ number) }
    requires network { IsNetwork lang.now net.now.list }
    requires budget { 1 ≤ budget }
    requires none { is_ask answer.old ≡ false }
    ensures byte { result ≡ byte_for (outcome_of_candidate lang.now net.now.list c budget) }
    ensures answer { answer.new ≡ query_then answer.old
        (query_of (outcome_of_candidate lang.now net.now.list c budget ∷ [])) }
{
    let _variables = lang.n();
    if let Some(find) = screen.find_of(number)
        && find.is_accepted(lang, find.learned_since(net.list()))
    {
        *answer = Query::Ask(find.question);
        return FOUND;
    }
    search_candidate(work, answer, screen.index(), lang, net, budget, c)
}

/// The same, with a search only where the candidate's mark doesn't say the outcome.
fn byte_of(
    work: &mut Work,
    answer: &mut Query,
    screen: &Screen,
    mark: Mark,
    lang: &Language,
    net: &Network,
    budget: u32,
    number: u32,
    c: Candidate,
) -> u8
    requires screen { AreMarksFor lang.now screen.now }
    requires marks { MarksHold lang.now net.now.list budget screen.now }
    requires candidate { IsCandidate lang.now c × (number_of lang.now c ≡ number) }
    requires network { IsNetwork lang.now net.now.list }
    requires implied { mark ≡ Mark.Implied →
        outcome_of_candidate lang.now net.now.list c budget ≡ Outcome.Absent }
    requires spent { mark ≡ Mark.Spent →
        outcome_of_candidate lang.now net.now.list c budget ≡ Outcome.Spent }
    requires budget { 1 ≤ budget }
    requires none { is_ask answer.old ≡ false }
    ensures byte { result ≡ byte_for (outcome_of_candidate lang.now net.now.list c budget) }
    ensures answer { answer.new ≡ query_then answer.old
        (query_of (outcome_of_candidate lang.now net.now.list c budget ∷ [])) }
{
    match mark {
        Mark::Implied => IMPLIED,
        Mark::Spent => {
            *answer = Query::Undecided;
            SPENT
        }
        Mark::Blank => search_unless_found(work, answer, screen, lang, net, budget, number, c),
    }
}

/// Looks at a candidate, if it is kept.
fn look_at(
    work: &mut Work,
    marks: &mut [u8],
    searched: &mut Span,
    answer: &mut Query,
    screen: &Screen,
    lang: &Language,
    kept: &Kept,
    net: &Network,
    budget: u32,
    first: u32,
    number: u32,
    c: Candidate,
)
    requires screen { AreMarksFor lang.now screen.now }
    requires marks { MarksHold lang.now net.now.list budget screen.now }
    requires kept { IsKeptOf lang.now kept.now }
    requires network { IsNetwork lang.now net.now.list }
    requires budget { 1 ≤ budget }
    requires candidate { IsCandidate lang.now c × (number_of lang.now c ≡ number) }
    requires number { first ≤ number }
    requires room { number - first < length marks.old }
    requires before { IsSearchedTo lang.now net.now.list kept.now.members budget first number
        marks.old answer.old }
    requires none { is_ask answer.old ≡ false }
    ensures is { IsSearchedTo lang.now net.now.list kept.now.members budget first
        (number + 1) marks.new answer.new }
    ensures size { length marks.new ≡ length marks.old }
{
    if !kept.is_kept(c) {
        return;
    }
    let mark = screen.mark_under(number, net.len(), budget);
    if let Mark::Blank = mark {
        searched.reach(number);
    }
    let byte = byte_of(work, answer, screen, mark, lang, net, budget, number, c);
    marks[(number - first) as usize] = byte;
}

/// Looks through the kept candidates on a scope, those of the part, up to the first whose search
/// finds a question.
fn search_scope(
    work: &mut Work,
    marks: &mut [u8],
    searched: &mut Span,
    answer: &mut Query,
    screen: &Screen,
    lang: &Language,
    kept: &Kept,
    net: &Network,
    budget: u32,
    first: u32,
    end: u32,
    scope: ScopeId,
)
    requires screen { AreMarksFor lang.now screen.now }
    requires marks { MarksHold lang.now net.now.list budget screen.now }
    requires kept { IsKeptOf lang.now kept.now }
    requires network { IsNetwork lang.now net.now.list }
    requires budget { 1 ≤ budget }
    requires scope { IsScopeOf lang.now first end scope }
    requires part { (end ≤ length (candidates lang.now)) × (end - first ≤ length marks.old) }
    requires before { IsSearchedBefore lang.now net.now.list kept.now.members budget first end scope
        marks.old answer.old }
    requires none { is_ask answer.old ≡ false }
    ensures further { is_ask answer.new ≡ false → IsSearchedBefore lang.now net.now.list
        kept.now.members budget first end (scope + 1) marks.new answer.new }
    ensures found { is_ask answer.new ≡ true →
        IsSearched lang.now net.now.list kept.now.members budget first end marks.new answer.new }
    ensures size { length marks.new ≡ length marks.old }
{
    let _some = lang.relations_on(scope);
    let base = lang.number_of(Candidate { scope, rel: 0 });
    let mut relations = kept.on_scope(scope);
    // The candidates with lower numbers were looked at, or aren't kept.
    let mut next = first.max(base);
    while relations != 0 {
        let (rel, others) = split_first(relations);
        relations = others;
        let number = base.saturating_add(u32::from(rel));
        if number < next {
            continue;
        }
        if number >= end {
            continue;
        }
        let c = Candidate { scope, rel };
        look_at(
            work, marks, searched, answer, screen, lang, kept, net, budget, first, number, c,
        );
        if let Query::Ask(_) = *answer {
            return;
        }
        next = number + 1;
    }
}

/// Looks through the kept candidates with numbers from `first` to below `end`, up to the first
/// whose search finds a question, and says what they say. A byte is set for each of them.
pub(crate) fn search_part(
    work: &mut Work,
    marks: &mut [u8],
    searched: &mut Span,
    screen: &Screen,
    lang: &Language,
    kept: &Kept,
    net: &Network,
    budget: u32,
    first: u32,
    end: u32,
) -> Query
    requires screen { AreMarksFor lang.now screen.now }
    requires marks { MarksHold lang.now net.now.list budget screen.now }
    requires kept { IsKeptOf lang.now kept.now }
    requires network { IsNetwork lang.now net.now.list }
    requires budget { 1 ≤ budget }
    requires part { (first ≤ end) × (end ≤ length (candidates lang.now)) }
    requires room { end - first ≤ length marks.old }
    ensures is { IsSearched lang.now net.now.list kept.now.members budget first end marks.new
        result }
    ensures size { length marks.new ≡ length marks.old }
{
    marks.fill(0);
    *searched = Span::none();
    let mut answer = Query::AllImplied;
    if first == end {
        return answer;
    }
    let start = u32::from(lang.candidate(first).scope);
    let last = u32::from(lang.candidate(end - 1).scope);
    let mut scope = kept.first_kept(start, last + 1);
    while scope <= last {
        search_scope(
            work,
            marks,
            searched,
            &mut answer,
            screen,
            lang,
            kept,
            net,
            budget,
            first,
            end,
            scope as ScopeId,
        );
        if let Query::Ask(_) = answer {
            return answer;
        }
        scope = kept.first_kept(scope + 1, last + 1);
    }
    answer
}
