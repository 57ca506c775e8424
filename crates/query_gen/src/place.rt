//! Where one part of the candidates is searched.

ghost use Rattle.std.specs.Prelude.{ℕ, ◌≡◌, ◌+◌, ◌-◌, ◌≤◌, ◌/◌, IfOk, length, replicate, vec_len};
ghost use Rattle.language.specs.Language.{candidates};
ghost use Rattle.language.specs.Answers.{IsNetwork};
ghost use Rattle.bias_store.specs.KeptSet.{IsMadeFor as IsKeptOf};
ghost use Rattle.query_gen.specs.Marks.{AreMarksFor, MarksHold};
ghost use Rattle.query_gen.specs.Parts.{IsSearched, searched_from, searched_end};

use crate::part::search_part;
use crate::query::Query;
use crate::screen::Screen;
use crate::span::Span;
use bias_store::Kept;
use fd_solver::Work;
use language::{Language, Memory};
use network::Network;
use std::alloc::Global;

/// Where one part of the candidates is searched.
#[derive(Drop)]
pub struct Place {
    /// The room of a search.
    pub work: Work,
    /// A byte for each candidate of the part, in candidate order: 1 where the search said that
    /// nothing is left to ask, 2 where the budget was spent, 3 where it found a question, and
    /// else 0.
    pub marks: Vec<u8>,
    /// What the kept candidates of the part say.
    pub answer: Query,
    /// Which of them were searched for.
    pub(crate) searched: Span,
}

impl Place {
    /// A place for an eighth of the language's candidates, rounded up. `Memory` where there is
    /// none.
    pub fn new(alloc: Global, lang: &Language) -> Result<Place, Memory>
        ensures marks { IfOk result
            (λ p. p.marks.items ≡ replicate ((length (candidates lang.now) + 7) / 8) 0) }
        ensures answer { IfOk result (λ p. p.answer ≡ Query.AllImplied) }
        ensures unsearched { IfOk result (λ p. (first end : ℕ) →
            searched_end p end ≤ searched_from p first) }
    {
        let work = Work::new(alloc, lang)?;
        let size = lang.candidates().div_ceil(8) as usize;
        match vec![in alloc; 0; size] {
            Ok(marks) => Ok(Place {
                work,
                marks,
                answer: Query::AllImplied,
                searched: Span::none(),
            }),
            Err(_) => Err(Memory),
        }
    }

    /// Looks through the kept candidates with numbers from `first` to below `end`, up to the first
    /// whose search under the budget finds a question.
    ///
    /// The budget is how many members of its walk the search for one candidate may look at.
    /// Afterwards `answer` is what these candidates say, and `marks` holds a byte for each of them.
    /// A candidate whose mark or find on the screen tells the outcome isn't searched again. The
    /// cost without any search is a step for each scope of the part, for each candidate on those
    /// that have a kept one, and the setting of a byte for each candidate of the part.
    pub fn search(
        &mut self,
        screen: &Screen,
        lang: &Language,
        kept: &Kept,
        net: &Network,
        budget: u32,
        first: u32,
        end: u32,
    )
        requires screen { AreMarksFor lang.now screen.now }
        // the marks were set under this budget, and under networks that this one begins with
        requires marks { MarksHold lang.now net.now.list budget screen.now }
        requires kept { IsKeptOf lang.now kept.now }
        requires network { IsNetwork lang.now net.now.list }
        requires some_budget { 1 ≤ budget }
        requires small_budget { budget ≤ 1000000000 }
        requires part { (first ≤ end) × (end ≤ length (candidates lang.now)) }
        requires room { end - first ≤ vec_len self.old.marks }
        ensures is { IsSearched lang.now net.now.list kept.now.members budget first end
            self.new.marks.items self.new.answer }
        ensures size { vec_len self.new.marks ≡ vec_len self.old.marks }
    {
        let marks = self.marks.as_mut_slice();
        self.answer = search_part(
            &mut self.work,
            marks,
            &mut self.searched,
            screen,
            lang,
            kept,
            net,
            budget,
            first,
            end,
        );
    }
}

fn is_sent<T: Send>(_: &T) {}

/// A `Place` may be used by another thread than its maker.
fn may_be_sent(place: &Place) {
    is_sent(place);
}
