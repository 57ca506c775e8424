//! The items of a network that an example violates, as they are listed from turn to turn.

ghost use Rattle.std.specs.Prelude.{◌≡◌, List};
ghost use Rattle.std.specs.Prelude.{IfOk, IfSome};
ghost use Rattle.std.specs.Prelude.{IsTrue, Some, None};
ghost use Rattle.assign.specs.Sets.{is_within};
ghost use Rattle.language.specs.Language.{scope_of, IsCandidate, IsQuestion};
ghost use Rattle.language.specs.Answers.{IsNetwork};
ghost use Rattle.session_laws.specs.Walk.{learned_within};
ghost use Rattle.multi_tree.specs.Listed.{AreListed, IsListing, item_within};

use assign::{Partial, VarSet};
use language::{Candidate, Language, Memory};
use network::Network;
use std::alloc::Global;

/// How many items that an example violates are listed at most.
const MOST_LISTED: usize = 1024;

/// An item that an example violates, beside the variables of its scope: each set that is taken is
/// held against these.
#[derive(Clone, Copy)]
pub(crate) struct Violated {
    pub(crate) item: Candidate,
    pub(crate) variables: VarSet,
}

/// The first items of a network that an example violates. The example stays the same while a walk
/// takes sets, and mostly violates few of the items.
#[derive(Clone, Copy)]
pub(crate) struct Listed {
    /// How many there are. They stand in the first places of a room, in learning order.
    pub(crate) count: usize,
    /// How many items of the network were looked at: all, where there was room.
    pub(crate) looked_at: usize,
}

/// The items that the example of a walk violates, from one turn to the next: of a network that has
/// grown only what is new is looked at.
#[derive(Drop)]
pub struct Listing {
    pub(crate) places: Vec<Violated>,
    pub(crate) listed: Listed,
}

impl Listing {
    /// The room for a listing, with no item looked at. `Memory` where there is none for it.
    pub fn make(alloc: Global) -> Result<Listing, Memory>
        ensures { IfOk result (λ listing. (l : _) (network : List Candidate) (e : _) →
            IsListing l network e listing) }
    {
        let nothing = Violated {
            item: Candidate { scope: 0, rel: 0 },
            variables: VarSet::empty(),
        };
        Ok(Listing {
            places: vec![in alloc; nothing; MOST_LISTED]?,
            listed: Listed {
                count: 0,
                looked_at: 0,
            },
        })
    }

    /// Forgets what was looked at, as for another example. The room stays.
    pub fn clear(&mut self)
        ensures { (l : _) (network : List Candidate) (e : _) → IsListing l network e self.new }
    {
        self.listed = Listed {
            count: 0,
            looked_at: 0,
        };
    }
}

/// Lists those among the items that weren't looked at, as far as there is room.
pub(crate) fn look_on(
    lang: &Language,
    net: &[Candidate],
    example: &Partial,
    places: &mut [Violated],
    listed: &mut Listed,
)
    requires question { IsQuestion lang.now example.now }
    requires network { IsNetwork lang.now net.now }
    requires before { AreListed lang.now net.now example.now places.old listed.old }
    ensures { AreListed lang.now net.now example.now places.new listed.new }
{
    for i in listed.looked_at..net.len() {
        if listed.count == places.len() {
            return;
        }
        if lang.candidate_violated(net[i], example) {
            places[listed.count] = Violated {
                item: net[i],
                variables: lang.scope_set(net[i].scope),
            };
            listed.count += 1;
        }
        listed.looked_at = i + 1;
    }
}

/// The first of some violated items whose scope lies within the set.
fn first_within(list: &[Violated], set: VarSet) -> Option<Candidate>
    ensures { result ≡ item_within list.now set }
{
    for v in list {
        if v.variables.within(set) {
            return Some(v.item);
        }
    }
    None
}

/// The first learned candidate that the example violates and whose scope lies within the set: a
/// listed one, or one of those that weren't looked at.
pub(crate) fn listed_within(
    lang: &Language,
    net: &Network,
    places: &[Violated],
    listed: &Listed,
    example: &Partial,
    set: VarSet,
) -> Option<Candidate>
    requires question { IsQuestion lang.now example.now }
    requires network { IsNetwork lang.now net.now.list }
    requires listed { AreListed lang.now net.now.list example.now places.now listed.now }
    ensures is { result ≡ learned_within lang.now net.now.list example.now set }
    ensures known { IfSome result (IsCandidate lang.now) }
    ensures within { IfSome result (λ c. IsTrue (is_within (scope_of lang.now c) set)) }
{
    match first_within(&places[..listed.count], set) {
        Some(c) => Some(c),
        None => learned_within(lang, &net.list()[listed.looked_at..], example, set),
    }
}

/// The first candidate of a list that the example violates and whose scope lies within the set.
fn learned_within(
    lang: &Language,
    list: &[Candidate],
    example: &Partial,
    set: VarSet,
) -> Option<Candidate>
    requires question { IsQuestion lang.now example.now }
    requires network { IsNetwork lang.now list.now }
    ensures { result ≡ learned_within lang.now list.now example.now set }
{
    for c in list {
        if lang.candidate_violated(*c, example) && lang.scope_set(c.scope).within(set) {
            return Some(*c);
        }
    }
    None
}
