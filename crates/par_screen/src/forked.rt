ghost use Rattle.std.specs.Prelude.{◌≡◌, ◌+◌, false, ◌<◌, ◌≤◌, ◌&&◌, length, vec_len};
ghost use Rattle.language.specs.Language.{IsCandidate};
ghost use Rattle.language.specs.Answers.{IsNetwork};
ghost use Rattle.bias_store.specs.KeptSet.{IsMadeFor as IsKeptOf};
ghost use Rattle.fd_solver.specs.Outcomes.{outcome_of_candidate};
ghost use Rattle.query_gen.specs.Questions.{is_among, is_spent, next_query};
ghost use Rattle.query_gen.specs.Marks.{AreMarksFor, MarksHold, is_open};
ghost use Rattle.query_gen.specs.Parts.{part_size, is_ask, IsSearched};
ghost use Rattle.par_screen.specs.Eighths.{part_start, AreMadeFor, AreSearched};

use crate::gate::Gate;
use bias_store::Kept;
use language::{Candidate, Language};
use network::Network;
use query_gen::{Place, Query, Screen};
use std::thread;
use std::thread::Threads;

/// How many parts the candidates have.
const PARTS: u32 = 8;

/// The number of a part's first candidate, where the part before it ends.
fn part_start(lang: &Language, part: u32) -> u32
    requires { part ≤ 8 }
    ensures { result ≡ part_start lang.now part }
{
    let all = lang.candidates();
    let start = u64::from(part) * u64::from(all.div_ceil(PARTS));
    u64::from(all).min(start) as u32
}

/// Has the gate search a part.
fn search_part<G: Gate>(
    gate: &G,
    part: u32,
    place: &mut Place,
    screen: &Screen,
    lang: &Language,
    kept: &Kept,
    net: &Network,
    budget: u32,
)
    requires part { part < 8 }
    requires place { vec_len place.old.marks ≡ part_size lang.now }
    requires screen { AreMarksFor lang.now screen.now }
    requires marks { MarksHold lang.now net.now.list budget screen.now }
    requires kept { IsKeptOf lang.now kept.now }
    requires network { IsNetwork lang.now net.now.list }
    requires some_budget { 1 ≤ budget }
    requires small_budget { budget ≤ 1000000000 }
    ensures searched { IsSearched lang.now net.now.list kept.now.members budget (part_start lang.now
        part) (part_start lang.now (part + 1)) place.new.marks.items place.new.answer }
    ensures size { vec_len place.new.marks ≡ vec_len place.old.marks }
{
    let first = part_start(lang, part);
    let end = part_start(lang, part + 1);
    gate.search(part, place, screen, lang, kept, net, budget, first, end);
}

/// Has the gate search each part once, by a thread of its own where one can be made.
fn search_parts<R: Threads + Sync, G: Gate>(
    rt: &R,
    places: &mut [Place],
    gate: &G,
    screen: &Screen,
    lang: &Language,
    kept: &Kept,
    net: &Network,
    budget: u32,
)
    requires eight { length places.old ≡ 8 }
    requires places { AreMadeFor lang.now places.old }
    requires screen { AreMarksFor lang.now screen.now }
    requires marks { MarksHold lang.now net.now.list budget screen.now }
    requires kept { IsKeptOf lang.now kept.now }
    requires network { IsNetwork lang.now net.now.list }
    requires some_budget { 1 ≤ budget }
    requires small_budget { budget ≤ 1000000000 }
    ensures searched { AreSearched lang.now net.now.list kept.now.members budget places.new }
    ensures places { AreMadeFor lang.now places.new }
    ensures eight { length places.new ≡ 8 }
{
    thread::for_each_mut(
        rt,
        places,
        PARTS as usize,
        &|part, place: &mut Place|
            requires { (part < 8) × (vec_len place.now.marks ≡ part_size lang.now)
                × AreMarksFor lang.now screen.now
                × MarksHold lang.now net.now.list budget screen.now × IsKeptOf lang.now kept.now
                × IsNetwork lang.now net.now.list × (1 ≤ budget) × (budget ≤ 1000000000) }
            ensures searched { IsSearched lang.entry.now net.entry.now.list kept.entry.now.members
                budget (part_start lang.entry.now part) (part_start lang.entry.now (part + 1))
                place.exit.now.marks.items place.exit.now.answer }
            ensures size { vec_len place.exit.now.marks ≡ vec_len place.entry.now.marks }
        { search_part(gate, part as u32, place, screen, lang, kept, net, budget) },
    );
}

/// Puts what the parts found into the screen.
fn take_parts(
    places: &[Place],
    screen: &mut Screen,
    lang: &Language,
    kept: &Kept,
    net: &Network,
    budget: u32,
)
    requires eight { length places.now ≡ 8 }
    requires places { AreMadeFor lang.now places.now }
    requires screen { AreMarksFor lang.now screen.old }
    requires marks { MarksHold lang.now net.now.list budget screen.old }
    requires searched { AreSearched lang.now net.now.list kept.now.members budget places.now }
    ensures screen { AreMarksFor lang.now screen.new }
    ensures marks { MarksHold lang.now net.now.list budget screen.new }
    ensures open { is_ask (next_query lang.now net.now.list kept.now.members budget) ≡ false →
        (c : Candidate) → IsCandidate lang.now c → is_open lang.now screen.new c ≡ (is_among
        kept.now.members c && is_spent (outcome_of_candidate lang.now net.now.list c budget)) }
{
    for part in 0..PARTS {
        screen.take_marks(
            &places[part as usize],
            part_start(lang, part),
            part_start(lang, part + 1),
            net,
            budget,
        );
    }
}

/// Puts into the screen what the parts found of the candidates that were searched for, as where one
/// of them found a question.
fn take_searched(
    places: &[Place],
    screen: &mut Screen,
    lang: &Language,
    kept: &Kept,
    net: &Network,
    budget: u32,
)
    requires eight { length places.now ≡ 8 }
    requires places { AreMadeFor lang.now places.now }
    requires screen { AreMarksFor lang.now screen.old }
    requires marks { MarksHold lang.now net.now.list budget screen.old }
    requires searched { AreSearched lang.now net.now.list kept.now.members budget places.now }
    ensures screen { AreMarksFor lang.now screen.new }
    ensures marks { MarksHold lang.now net.now.list budget screen.new }
{
    for part in 0..PARTS {
        let place = &places[part as usize];
        let start = part_start(lang, part);
        screen.take_searched(place, start, part_start(lang, part + 1), net, budget);
    }
}

/// What the parts say, one after another.
fn answer_of(places: &[Place], lang: &Language, kept: &Kept, net: &Network, budget: u32) -> Query
    requires eight { length places.now ≡ 8 }
    requires searched { AreSearched lang.now net.now.list kept.now.members budget places.now }
    ensures { result ≡ next_query lang.now net.now.list kept.now.members budget }
{
    let mut answer = Query::AllImplied;
    for part in 0..PARTS {
        answer = answer.then(places[part as usize].answer);
    }
    answer
}

/// The next question, as `next_query` answers it: that of the first kept candidate, in candidate
/// order, whose search under the budget finds one.
///
/// The candidates are cut into eight parts of equal size, of which the last ones may be shorter or
/// empty. Each part is searched by one call of the gate, in its place, by a thread of its own where
/// one can be made. What the parts found is put into the screen when all have returned. The places
/// are made for the language.
pub fn next_query_forked<R: Threads + Sync, G: Gate>(
    rt: &R,
    places: &mut [Place; 8],
    gate: &G,
    screen: &mut Screen,
    lang: &Language,
    kept: &Kept,
    net: &Network,
    budget: u32,
) -> Query
    requires places { AreMadeFor lang.now places.old }
    requires screen { AreMarksFor lang.now screen.old }
    // the marks were set under this budget, and under networks that this one begins with
    requires marks { MarksHold lang.now net.now.list budget screen.old }
    requires kept { IsKeptOf lang.now kept.now }
    requires network { IsNetwork lang.now net.now.list }
    requires some_budget { 1 ≤ budget }
    requires small_budget { budget ≤ 1000000000 }
    ensures is { result ≡ next_query lang.now net.now.list kept.now.members budget }
    ensures places { AreMadeFor lang.now places.new }
    ensures screen { AreMarksFor lang.now screen.new }
    ensures marks { MarksHold lang.now net.now.list budget screen.new }
    // exactly the kept candidates whose search was spent are open
    ensures open { result ≡ Query.Undecided → (c : Candidate) → IsCandidate lang.now c →
        is_open lang.now screen.new c ≡ (is_among kept.now.members c && is_spent
        (outcome_of_candidate lang.now net.now.list c budget)) }
{
    screen.follow(lang, net);
    search_parts(
        rt,
        places.as_mut_slice(),
        gate,
        screen,
        lang,
        kept,
        net,
        budget,
    );
    let answer = answer_of(places.as_slice(), lang, kept, net, budget);
    if let Query::Ask(_) = answer {
        take_searched(places.as_slice(), screen, lang, kept, net, budget);
        return answer;
    }
    take_parts(places.as_slice(), screen, lang, kept, net, budget);
    answer
}
