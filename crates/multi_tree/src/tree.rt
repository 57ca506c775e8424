//! The walk of an example, a turn at a time.

ghost use Rattle.std.specs.Prelude.{◌≡◌, ◌≢◌, ◌<◌, ◌++◌, ◌∷◌, ℕ, List, []};
ghost use Rattle.std.specs.Prelude.{length, IfOk};
ghost use Rattle.std.specs.Prelude.{Some, None};
ghost use Rattle.language.specs.Answers.{IsNetwork};
ghost use Rattle.bias_store.specs.KeptSet.{IsMadeFor};
ghost use Rattle.multi_tree.specs.Listed.{AreListed, IsListing};
ghost use Rattle.multi_tree.specs.Stage.{walk_in, asked_in, example_in, stage_begun, turn_at};
ghost use Rattle.multi_tree.specs.Stage.{stage_after, put_again, IsWalkOn};
ghost use Rattle.multi_tree.specs.Standing.{next_of_turn, Move, Turns, PutsAgain};
ghost use Rattle.multi_tree.specs.Standing.{StageStandsFor};

use crate::listing::{Listed, Listing, Violated, look_on};
use crate::stack::Stack;
use crate::taking::take_sets;
use assign::{Partial, VarSet};
use bias_store::Kept;
use language::{Language, Memory};
use network::Network;
use std::alloc::Global;
use std::marker::Model;

/// How many sets one walk may take.
const MOST_SETS: u16 = 4096;

/// How many scopes with kept candidates that an example violates are listed at most.
const MOST_STRUCK: usize = 1024;

/// How far a walk has come.
#[derive(Clone, Copy, Debug)]
enum Phase {
    /// The next turn is due.
    Ready,
    /// A set is asked about.
    Asked,
    /// No set was left.
    Ended,
    /// The walk was cut off.
    Capped,
}

/// A walk of an example.
#[derive(Drop)]
pub struct Tree {
    example: Partial,
    /// The sets that wait.
    waiting: Stack,
    /// How many more may be taken.
    left: u16,
    /// The set that is asked about, while one is.
    asked: VarSet,
    phase: Phase,
    /// Room for scopes that the example strikes. What it holds means nothing between turns.
    room: Vec<VarSet>,
}

impl Model for Tree {
    ghost use Rattle.std.specs.Prelude.{◌≤◌};
    ghost use Rattle.multi_tree.specs.Stage.{Stage};

    ghost Value = { Stage };

    ghost use Rattle.multi_tree.specs.Inside.{stage_of, AskedFits};

    ghost view = { λ a. stage_of a.phase a.asked
        (record { example = a.example; waiting = a.waiting; left = a.left }) };

    ghost invariant = { λ a. AskedFits a.phase a.asked a.waiting };
}

/// What the walk comes to next.
#[derive(Clone, Copy, Debug)]
pub enum TreeNext {
    /// The example is asked about on this set.
    Ask(VarSet),
    /// No set is left.
    End,
    /// So many sets were taken that the walk is cut off, and some are left.
    Capped,
}

impl Tree {
    /// The room for a walk, with none begun. `Memory` where there is none for it.
    pub fn make(alloc: Global) -> Result<Tree, Memory>
        ensures { IfOk result (λ tree. walk_in tree ≡ None) }
    {
        Ok(Tree {
            example: Partial::blank(1),
            waiting: Stack::make(alloc)?,
            left: 0,
            asked: VarSet::empty(),
            phase: Phase::Ended,
            room: vec![in alloc; VarSet::empty(); MOST_STRUCK]?,
        })
    }

    /// Begins the walk of an example.
    pub fn start(&mut self, lang: &Language, e: Partial)
        ensures stage { self.new ≡ stage_begun lang.now e }
        ensures stands { StageStandsFor self.new lang.now e [] }
    {
        self.example = e;
        self.waiting.clear();
        self.waiting.push(VarSet::all(lang.n()));
        self.left = MOST_SETS;
        self.phase = Phase::Ready;
    }

    /// Forgets the walk, and keeps the room.
    pub fn clear(&mut self)
        ensures { walk_in self.new ≡ None }
    {
        self.phase = Phase::Ended;
    }

    /// The example whose walk this is.
    pub fn example(&self) -> Partial
        ensures { result ≡ example_in self.now }
    {
        self.example
    }

    /// Takes sets up to the next one that is asked about, or to the end. A walk at its end stays
    /// there.
    pub fn next(&mut self, lang: &Language, net: &Network, kept: &Kept) -> TreeNext
        requires example { IsWalkOn lang.now self.old }
        requires network { IsNetwork lang.now net.now.list }
        requires made { IsMadeFor lang.now kept.now }
        ensures answer { result
            ≡ next_of_turn (turn_at lang.now net.now.list kept.now.members self.old) }
        ensures stage { self.new
            ≡ stage_after (turn_at lang.now net.now.list kept.now.members self.old) }
        ensures asked { (set : List ℕ) → result ≡ TreeNext.Ask set → asked_in self.new ≡ Some set }
        ensures some { (set : List ℕ) → result ≡ TreeNext.Ask set → 0 < length set }
        ensures example { IsWalkOn lang.now self.new }
        ensures stands { (e : _) (moves : List Move) → StageStandsFor self.old lang.now e moves
            →
            StageStandsFor self.new lang.now e (moves ++ Turns net.now.list kept.now.members ∷ []) }
    {
        let mut places: [Violated; 0] = [];
        let mut listed = Listed {
            count: 0,
            looked_at: 0,
        };
        self.turn(lang, net, kept, &mut places, &mut listed)
    }

    /// The same, beside a listing for the walk: items that it has looked at aren't looked at again.
    pub fn next_beside(
        &mut self,
        lang: &Language,
        net: &Network,
        kept: &Kept,
        listing: &mut Listing,
    ) -> TreeNext
        requires example { IsWalkOn lang.now self.old }
        requires network { IsNetwork lang.now net.now.list }
        requires made { IsMadeFor lang.now kept.now }
        requires listed { IsListing lang.now net.now.list (example_in self.old) listing.old }
        ensures answer { result
            ≡ next_of_turn (turn_at lang.now net.now.list kept.now.members self.old) }
        ensures stage { self.new
            ≡ stage_after (turn_at lang.now net.now.list kept.now.members self.old) }
        ensures asked { (set : List ℕ) → result ≡ TreeNext.Ask set → asked_in self.new ≡ Some set }
        ensures some { (set : List ℕ) → result ≡ TreeNext.Ask set → 0 < length set }
        ensures example { IsWalkOn lang.now self.new }
        ensures listed { IsListing lang.now net.now.list (example_in self.new) listing.new }
        ensures stands { (e : _) (moves : List Move) → StageStandsFor self.old lang.now e moves
            →
            StageStandsFor self.new lang.now e (moves ++ Turns net.now.list kept.now.members ∷ []) }
    {
        self.turn(lang, net, kept, &mut listing.places, &mut listing.listed)
    }

    /// Puts the set that was asked about again, as after a no and a learned candidate.
    pub fn again(&mut self)
        requires { asked_in self.old ≢ None }
        ensures stage { self.new ≡ put_again self.old }
        ensures stands { (l : _) (e : _) (moves : List Move) → StageStandsFor self.old l e moves →
            StageStandsFor self.new l e (moves ++ PutsAgain ∷ []) }
    {
        self.waiting.push(self.asked);
        self.phase = Phase::Ready;
    }

    /// A turn of the walk, with the items that are listed before it and after it.
    fn turn(
        &mut self,
        lang: &Language,
        net: &Network,
        kept: &Kept,
        places: &mut [Violated],
        listed: &mut Listed,
    ) -> TreeNext
        requires example { IsWalkOn lang.now self.old }
        requires network { IsNetwork lang.now net.now.list }
        requires made { IsMadeFor lang.now kept.now }
        requires listed { AreListed lang.now net.now.list
            (example_in self.old) places.old listed.old }
        ensures answer { result
            ≡ next_of_turn (turn_at lang.now net.now.list kept.now.members self.old) }
        ensures stage { self.new
            ≡ stage_after (turn_at lang.now net.now.list kept.now.members self.old) }
        ensures asked { (set : List ℕ) → result ≡ TreeNext.Ask set → asked_in self.new ≡ Some set }
        ensures some { (set : List ℕ) → result ≡ TreeNext.Ask set → 0 < length set }
        ensures example { IsWalkOn lang.now self.new }
        ensures listed { AreListed lang.now net.now.list
            (example_in self.new) places.new listed.new }
    {
        match self.phase {
            Phase::Ended => TreeNext::End,
            Phase::Capped => TreeNext::Capped,
            Phase::Ready | Phase::Asked => {
                look_on(lang, net.list(), &self.example, places, listed);
                let next = take_sets(
                    lang,
                    net,
                    kept,
                    &self.example,
                    &mut self.waiting,
                    &mut self.left,
                    places,
                    listed,
                    &mut self.room,
                );
                match next {
                    TreeNext::Ask(set) => {
                        self.asked = set;
                        self.phase = Phase::Asked;
                    }
                    TreeNext::End => self.phase = Phase::Ended,
                    TreeNext::Capped => self.phase = Phase::Capped,
                }
                next
            }
        }
    }
}
