//! What does the search of a part.

ghost use Rattle.std.specs.Prelude.{◌≡◌, ◌<◌, ◌≤◌, ◌-◌, length, vec_len};
ghost use Rattle.language.specs.Language.{candidates};
ghost use Rattle.language.specs.Answers.{IsNetwork};
ghost use Rattle.bias_store.specs.KeptSet.{IsMadeFor as IsKeptOf};
ghost use Rattle.query_gen.specs.Marks.{AreMarksFor, MarksHold};
ghost use Rattle.query_gen.specs.Parts.{IsSearched};

use bias_store::Kept;
use language::Language;
use network::Network;
use query_gen::{Place, Screen};

/// Does the search of each part. The calls may come from several threads at once.
pub trait Gate: Sync {
    /// Searches the kept candidates with numbers from `first` to below `end` in the place, as
    /// `Place::search` does. The job is the part's number, from 0 to 7.
    fn search(
        &self,
        job: u32,
        place: &mut Place,
        screen: &Screen,
        lang: &Language,
        kept: &Kept,
        net: &Network,
        budget: u32,
        first: u32,
        end: u32,
    )
        requires job { job < 8 }
        requires screen { AreMarksFor lang.now screen.now }
        // the marks were set under this budget, and under networks that this one begins with
        requires marks { MarksHold lang.now net.now.list budget screen.now }
        requires kept { IsKeptOf lang.now kept.now }
        requires network { IsNetwork lang.now net.now.list }
        requires some_budget { 1 ≤ budget }
        requires small_budget { budget ≤ 1000000000 }
        requires part { (first ≤ end) × (end ≤ length (candidates lang.now)) }
        requires room { end - first ≤ vec_len place.old.marks }
        ensures is { IsSearched lang.now net.now.list kept.now.members budget first end
            place.new.marks.items place.new.answer }
        ensures size { vec_len place.new.marks ≡ vec_len place.old.marks };
}

/// Searches each part at once.
pub struct FreeGate;

impl Gate for FreeGate {
    fn search(
        &self,
        _job: u32,
        place: &mut Place,
        screen: &Screen,
        lang: &Language,
        kept: &Kept,
        net: &Network,
        budget: u32,
        first: u32,
        end: u32,
    ) {
        place.search(screen, lang, kept, net, budget, first, end);
    }
}
