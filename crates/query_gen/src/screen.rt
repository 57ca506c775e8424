//! What is remembered of searches.

ghost use Rattle.std.specs.Prelude.{◌≡◌, ◌<◌, ◌≤◌, ◌+◌, ◌-◌, ℕ, IfOk, IfSome, List, length, map};
ghost use Rattle.std.specs.Prelude.{slice_index_or, slice_range, vec_len};
ghost use Rattle.assign.specs.Sets.{numbers};
ghost use Rattle.language.specs.Language.{Language, IsCandidate, number_of};
ghost use Rattle.language.specs.Answers.{IsNetwork};
ghost use Rattle.query_gen.specs.Marks.{AreMarksFor, HasNoMarks, IsFindOf, MarksHold};
ghost use Rattle.query_gen.specs.Marks.{is_mark_spent, is_open};
ghost use Rattle.query_gen.specs.Inside.{remembered_begun, without_spent};
ghost use Rattle.query_gen.specs.Parts.{mark_taken, searched_from, searched_end, AreTaken, AreTrue};
ghost use Rattle.query_gen.specs.Parts.{IsSearched, HasTaken};

use crate::find::Find;
use crate::part::{FOUND, IMPLIED, SPENT};
use crate::place::Place;
use crate::query::Query;
use crate::span::Span;
use language::{Candidate, Language, Memory, ScopeId};
use network::Network;
use propagators::Index;
use std::alloc::{AllocError, Global};
use std::marker::Model;

/// How many finds are kept.
const EIGHTHS: usize = 8;

/// What the last search of a candidate said.
#[derive(Clone, Copy, Debug, PartialEq, Eq)]
pub(crate) enum Mark {
    /// Nothing is known.
    Blank,
    /// No question was left, and none will be while the network grows.
    Implied,
    /// The budget was spent.
    Spent,
}

impl Mark {
    fn is_spent(&self) -> bool
        ensures { result ≡ is_mark_spent self.now }
    {
        matches!(self, Mark::Spent)
    }

    /// The mark, where it doesn't say "spent".
    fn without_spent(self) -> Mark
        ensures { result ≡ without_spent self }
    {
        match self {
            Mark::Spent => Mark::Blank,
            mark => mark,
        }
    }

    /// The mark, once the byte that a search set for the candidate is there.
    fn taking(self, byte: u8) -> Mark
        ensures { result ≡ mark_taken self byte }
    {
        match byte {
            IMPLIED => Mark::Implied,
            SPENT => Mark::Spent,
            _ => self.without_spent(),
        }
    }
}

/// Marks of candidates and what was found of them, so that a search whose outcome is known isn't
/// made again.
#[derive(Drop)]
pub struct Screen {
    /// For each scope the number of its first candidate.
    first: Vec<u32>,
    /// For each candidate's number its mark.
    marks: Vec<Mark>,
    /// How many candidates were learned when the marks "spent" were set: those of another network
    /// count for nothing.
    learned: u32,
    /// The budget under which the marks "spent" were set: those of another one count for nothing.
    budget: u32,
    /// What is known before searches, of the network that was followed last.
    index: Index,
    /// For each eighth of the candidates the last question that a search found there. The next
    /// search of its candidate finds it again, while all that is learned since accepts it.
    finds: [Option<Find>; EIGHTHS],
}

impl Model for Screen {
    ghost use Rattle.query_gen.specs.Marks.{Remembered};

    ghost Value = { Remembered };

    ghost use Rattle.query_gen.specs.Inside.{seen};

    ghost view = { seen };
}

/// For each scope the number of its first candidate.
fn first_numbers(alloc: Global, lang: &Language) -> Result<Vec<u32>, AllocError>
    ensures { IfOk result (λ v. v.items ≡ map (λ scope. number_of lang.now
        (record { scope = scope; rel = 0 })) (numbers (length lang.now.scopes))) }
{
    let mut first = Vec::new(alloc);
    for scope in 0..lang.scopes() as ScopeId {
        first.push(lang.number_of(Candidate { scope, rel: 0 }))?;
    }
    Ok(first)
}

/// Takes the marks "spent" away.
fn forget_spent(marks: &mut [Mark])
    ensures { marks.new ≡ map without_spent marks.old }
{
    for mark in marks.iter_mut() {
        *mark = mark.without_spent();
    }
}

/// So many marks from `first` on take over the first bytes that a search set.
fn take_bytes(marks: &mut [Mark], first: usize, bytes: &[u8], count: usize)
    requires within { first + count ≤ length marks.old }
    requires room { count ≤ length bytes.now }
    ensures { AreTaken bytes.now first (first + count) marks.old marks.new }
{
    for i in 0..count {
        marks[first + i] = marks[first + i].taking(bytes[i]);
    }
}

impl Screen {
    /// No marks and no finds, a byte for each candidate, and some 36 bytes for each scope. `Memory`
    /// where there is none for them.
    pub fn new(alloc: Global, lang: &Language) -> Result<Screen, Memory>
        ensures made { IfOk result (AreMarksFor lang.now) }
        ensures unmarked { IfOk result HasNoMarks }
    {
        let Ok(first) = first_numbers(alloc, lang) else {
            return Err(Memory);
        };
        let index = Index::new(alloc, lang)?;
        match vec![in alloc; Mark::Blank; lang.candidates() as usize] {
            Ok(marks) => Ok(Screen {
                first,
                marks,
                learned: 0,
                budget: 0,
                index,
                finds: [None; EIGHTHS],
            }),
            Err(_) => Err(Memory),
        }
    }

    /// Takes all marks and finds away, as when answers were taken back.
    pub fn clear(&mut self)
        ensures made { (l : Language) → AreMarksFor l self.old → AreMarksFor l self.new }
        ensures unmarked { HasNoMarks self.new }
    {
        self.marks.fill(Mark::Blank);
        self.finds.fill(None);
    }

    /// Whether the last search of a candidate was spent. A scope that the language lacks has no
    /// such candidate.
    pub fn is_open(&self, c: Candidate) -> bool
        ensures { (l : Language) → AreMarksFor l self.now → IsCandidate l c →
            result ≡ is_open l self.now c }
    {
        let scope = usize::from(c.scope);
        if scope >= self.first.len() {
            return false;
        }
        let number = self.first[scope] as usize + usize::from(c.rel);
        number < self.marks.len() && self.marks[number].is_spent()
    }

    /// Brings what is known before searches up to a network. Whether this was done tells nothing
    /// but how long a search takes.
    pub fn follow(&mut self, lang: &Language, net: &Network)
        requires made { AreMarksFor lang.now self.old }
        requires network { IsNetwork lang.now net.now.list }
        ensures made { AreMarksFor lang.now self.new }
        ensures holds { (network : List Candidate) (budget : ℕ) → MarksHold lang.now network budget
            self.old → MarksHold lang.now network budget self.new }
    {
        self.index.follow(lang, net.list());
    }

    /// What is known before searches, of the last network that was followed.
    pub(crate) fn index(&self) -> &Index
        ensures { result.now ≡ self.now.index }
    {
        &self.index
    }

    /// Begins a search with so many learned candidates and this budget: marks "spent" of others go.
    pub(crate) fn begin(&mut self, learned: u32, budget: u32)
        ensures { self.new ≡ remembered_begun self.old learned budget }
    {
        if self.learned != learned || self.budget != budget {
            forget_spent(&mut self.marks);
            self.learned = learned;
            self.budget = budget;
        }
    }

    /// The mark of the candidate of this number, where a search with so many learned candidates and
    /// this budget begins: one that says "spent" counts only under these.
    pub(crate) fn mark_under(&self, number: u32, learned: u32, budget: u32) -> Mark
        requires { number < length self.now.marks }
        ensures { result
            ≡ slice_index_or (remembered_begun self.now learned budget).marks number result }
    {
        let mark = self.marks[number as usize];
        if self.learned == learned && self.budget == budget {
            mark
        } else {
            mark.without_spent()
        }
    }

    /// In which eighth of the candidates this number is.
    fn eighth_of(&self, number: u32) -> usize
        ensures { result < 8 }
    {
        let size = self.marks.len().div_ceil(EIGHTHS).max(1);
        (number as usize / size).min(EIGHTHS - 1)
    }

    /// The last find of the candidate of this number, where no later one in its eighth took its
    /// place.
    pub(crate) fn find_of(&self, number: u32) -> Option<&Find>
        ensures number { IfSome result (λ f. f.now.number ≡ number) }
        ensures is { (l : Language) (network : List Candidate) (budget : ℕ) → MarksHold l network
            budget self.now → IfSome result (λ f. IsFindOf l network budget f.now) }
    {
        match &self.finds[self.eighth_of(number)] {
            Some(find) if find.number == number => Some(find),
            _ => None,
        }
    }

    /// Keeps the question that the search of these candidates found, if it found one, in place of
    /// the last one in its eighth.
    pub(crate) fn keep_find(
        &mut self,
        bytes: &[u8],
        first: u32,
        end: u32,
        searched: Span,
        answer: &Query,
        net: &Network,
    )
        requires part { first ≤ end }
        requires room { end - first ≤ length bytes.now }
        ensures same { self.new ≡ record self.old { finds = self.new.finds } }
        ensures holds { (l : Language) (kept : List Candidate) (budget : ℕ) →
            MarksHold l net.now.list budget self.old → IsSearched l net.now.list kept budget first
            end bytes.now answer.now → MarksHold l net.now.list budget self.new }
    {
        let number = searched.greatest;
        let Query::Ask(question) = answer else {
            return;
        };
        if number < first || end <= number || bytes[(number - first) as usize] != FOUND {
            return;
        }
        let eighth = self.eighth_of(number);
        self.finds[eighth] = Some(Find {
            number,
            learned: net.len(),
            question: *question,
        });
    }

    /// Takes over what the search of a part found, for the candidates with numbers from `first` to
    /// below `end`.
    ///
    /// The marks "spent" of these go, and those of the place are put in. The other candidates keep
    /// the marks that count: marks "spent" of another network or budget go everywhere. The marks
    /// stay true where the place is as a search of these candidates left it, under this network and
    /// budget.
    pub fn take_marks(&mut self, place: &Place, first: u32, end: u32, net: &Network, budget: u32)
        requires part { (first ≤ end) × (end ≤ length self.old.marks) }
        requires room { end - first ≤ vec_len place.now.marks }
        ensures taken { HasTaken place.now.marks.items first end
            (remembered_begun self.old (length net.now.list) budget) self.new }
        ensures made { (l : Language) → AreMarksFor l self.old → AreMarksFor l self.new }
        ensures holds { (l : Language) (kept : List Candidate) → AreMarksFor l self.old →
            MarksHold l net.now.list budget self.old → IsSearched l net.now.list kept budget first
            end place.now.marks.items place.now.answer → MarksHold l net.now.list budget self.new }
    {
        self.take_part(&place.marks, first, end, net, budget);
    }

    /// Takes over what the search of a part found, as far as it searched: for the candidates of the
    /// part from the least to the greatest that was searched for. The question, if it found one, is
    /// kept for the next search.
    ///
    /// That is all that it found out. What else `take_marks` does matters only where no question
    /// was found: there the candidates that are open have to be those of the last search.
    pub fn take_searched(&mut self, place: &Place, first: u32, end: u32, net: &Network, budget: u32)
        requires part { (first ≤ end) × (end ≤ length self.old.marks) }
        requires room { end - first ≤ vec_len place.now.marks }
        ensures taken { searched_from place.now first < searched_end place.now end →
            HasTaken (slice_range place.now.marks.items (searched_from place.now first - first)
            (searched_end place.now end - first)) (searched_from place.now first)
            (searched_end place.now end) (remembered_begun self.old (length net.now.list) budget)
            (record self.new {
              finds = (remembered_begun self.old (length net.now.list) budget).finds;
            }) }
        ensures same { searched_end place.now end ≤ searched_from place.now first →
            self.new ≡ self.old }
        ensures made { (l : Language) → AreMarksFor l self.old → AreMarksFor l self.new }
        ensures holds { (l : Language) (kept : List Candidate) → AreMarksFor l self.old →
            MarksHold l net.now.list budget self.old → IsSearched l net.now.list kept budget first
            end place.now.marks.items place.now.answer → MarksHold l net.now.list budget self.new }
    {
        let from = first.max(place.searched.least);
        let to = end.min(place.searched.greatest.saturating_add(1));
        if to <= from {
            return;
        }
        let bytes = &place.marks[(from - first) as usize..(to - first) as usize];
        self.take_part(bytes, from, to, net, budget);
        self.keep_find(&place.marks, first, end, place.searched, &place.answer, net);
    }

    /// Takes over the bytes that the search of these candidates set.
    pub(crate) fn take_part(
        &mut self,
        bytes: &[u8],
        first: u32,
        end: u32,
        net: &Network,
        budget: u32,
    )
        requires part { (first ≤ end) × (end ≤ length self.old.marks) }
        requires room { end - first ≤ length bytes.now }
        ensures taken { HasTaken bytes.now first end
            (remembered_begun self.old (length net.now.list) budget) self.new }
        ensures made { (l : Language) → AreMarksFor l self.old → AreMarksFor l self.new }
        ensures holds { (l : Language) → AreMarksFor l self.old → MarksHold l net.now.list
            budget self.old → AreTrue l net.now.list budget first end bytes.now →
            MarksHold l net.now.list budget self.new }
    {
        self.begin(net.len(), budget);
        let count = (end - first) as usize;
        take_bytes(&mut self.marks, first as usize, bytes, count);
    }
}

fn is_shared<T: Send + Sync>(_: &T) {}

/// A `Screen` may go to another thread, and several may read it.
fn may_be_shared(screen: &Screen) {
    is_shared(screen);
}
