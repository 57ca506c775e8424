//! The next question.

ghost use Rattle.std.specs.Prelude.{◌≡◌, ◌≤◌, ◌&&◌};
ghost use Rattle.language.specs.Language.{IsCandidate};
ghost use Rattle.language.specs.Answers.{IsNetwork};
ghost use Rattle.bias_store.specs.KeptSet.{IsMadeFor as IsKeptOf};
ghost use Rattle.fd_solver.specs.Outcomes.{outcome_of_candidate};
ghost use Rattle.query_gen.specs.Questions.{is_among, is_spent, next_query};
ghost use Rattle.query_gen.specs.Marks.{AreMarksFor, MarksHold, is_open};
ghost use Rattle.query_gen.specs.Parts.{query_then};

use crate::part::search_part;
use crate::screen::Screen;
use crate::span::Span;
use assign::Partial;
use bias_store::Kept;
use fd_solver::Work;
use language::{Candidate, Language};
use network::Network;

/// How many candidates are searched before their marks are put into the screen.
const AT_ONCE: u32 = 1024;

/// What comes next in a session.
#[derive(Clone, Copy, Debug, PartialEq, Eq)]
pub enum Query {
    /// This complete assignment is asked about: the network accepts it, and it violates a kept
    /// candidate.
    Ask(Partial),
    /// Each kept candidate is implied by the network.
    AllImplied,
    /// No question was found, and on some kept candidate the budget was spent.
    Undecided,
}

impl Query {
    /// What the candidates of two parts say, where this is what those of the first one say.
    pub fn then(self, next: Query) -> Query
        ensures { result ≡ query_then self next }
    {
        match (self, next) {
            (Query::Ask(_), _) | (_, Query::AllImplied) => self,
            _ => next,
        }
    }
}

/// The next question: that of the first kept candidate, in candidate order, whose search under the
/// budget finds one.
///
/// The budget is how many members of its walk the search for one candidate may look at. A candidate
/// whose mark or find tells the outcome isn't searched again. The cost without any search is that
/// of `Place::search` over all candidates.
pub fn next_query(
    work: &mut Work,
    screen: &mut Screen,
    lang: &Language,
    kept: &Kept,
    net: &Network,
    budget: u32,
) -> Query
    requires screen { AreMarksFor lang.now screen.old }
    // the marks were set under this budget, and under networks that this one begins with
    requires marks { MarksHold lang.now net.now.list budget screen.old }
    requires kept { IsKeptOf lang.now kept.now }
    requires network { IsNetwork lang.now net.now.list }
    requires some_budget { 1 ≤ budget }
    requires small_budget { budget ≤ 1000000000 }
    ensures is { result ≡ next_query lang.now net.now.list kept.now.members budget }
    ensures screen { AreMarksFor lang.now screen.new }
    ensures marks { MarksHold lang.now net.now.list budget screen.new }
    // exactly the kept candidates whose search was spent are open
    ensures open { result ≡ Query.Undecided → (c : Candidate) → IsCandidate lang.now c →
        is_open lang.now screen.new c ≡ (is_among kept.now.members c && is_spent
        (outcome_of_candidate lang.now net.now.list c budget)) }
{
    screen.follow(lang, net);
    let all = lang.candidates();
    let mut marks = [0; AT_ONCE as usize];
    let mut searched = Span::none();
    let mut answer = Query::AllImplied;
    let mut first = 0;
    while first < all {
        let end = first + AT_ONCE.min(all - first);
        let next = search_part(
            work,
            &mut marks,
            &mut searched,
            screen,
            lang,
            kept,
            net,
            budget,
            first,
            end,
        );
        screen.take_part(&marks, first, end, net, budget);
        answer = answer.then(next);
        if let Query::Ask(_) = answer {
            screen.keep_find(&marks, first, end, searched, &next, net);
            return answer;
        }
        first = end;
    }
    answer
}
