//! The sets of a walk, taken from the top until one is asked about or an end comes.

ghost use Rattle.std.specs.Prelude.{◌≡◌, ◌<◌, ◌≤◌, ◌++◌, ℕ, List, false};
ghost use Rattle.std.specs.Prelude.{if◌then◌else◌, length, min, not, take, true};
ghost use Rattle.std.specs.Prelude.{IsTrue, Some, None};
ghost use Rattle.std.specs.List.{list_any};
ghost use Rattle.assign.specs.Sets.{is_within};
ghost use Rattle.assign.specs.Assignment.{restrict};
ghost use Rattle.language.specs.Language.{scope_of, IsCandidate, IsQuestion};
ghost use Rattle.language.specs.Answers.{IsNetwork};
ghost use Rattle.bias_store.specs.KeptSet.{IsMadeFor};
ghost use Rattle.session_laws.specs.Walk.{next_turn, parts_without, violates_some};
ghost use Rattle.multi_tree.specs.Depth.{FitsOn};
ghost use Rattle.multi_tree.specs.Listed.{AreBarren, AreListed, AreStruck};
ghost use Rattle.multi_tree.specs.Standing.{turn_told};

use crate::listing::{Listed, Violated, listed_within};
use crate::stack::Stack;
use crate::tree::TreeNext;
use assign::{Partial, VarSet};
use bias_store::Kept;
use language::{Candidate, Language};
use network::Network;

/// The scopes with kept candidates that an example strikes, so far as they are listed in the first
/// places of a room, and where none of these lies.
#[derive(Clone, Copy)]
struct Struck {
    /// How many are listed. They stay the same while a walk takes sets.
    count: usize,
    /// Whether these are all.
    are_all: bool,
    /// Where so many sets or more wait below a set, none of the listed ones lies within it: it is
    /// part of a set that has none.
    barren: usize,
}

/// No listed scope is within a set that has at least so many below it. No set has.
const NOWHERE: usize = 1024;

/// Takes sets from the top, until one is asked about or an end comes.
pub(crate) fn take_sets(
    lang: &Language,
    net: &Network,
    kept: &Kept,
    example: &Partial,
    waiting: &mut Stack,
    left: &mut u16,
    places: &[Violated],
    listed: &Listed,
    room: &mut [VarSet],
) -> TreeNext
    requires question { IsQuestion lang.now example.now }
    requires network { IsNetwork lang.now net.now.list }
    requires made { IsMadeFor lang.now kept.now }
    requires listed { AreListed lang.now net.now.list example.now places.now listed.now }
    ensures turn { turn_told example.now result waiting.new left.new
        ≡ next_turn lang.now net.now.list kept.now.members example.now left.old waiting.old }
    ensures room { (set : List ℕ) → result ≡ TreeNext.Ask set → FitsOn set waiting.new }
    ensures some { (set : List ℕ) → result ≡ TreeNext.Ask set → 0 < length set }
{
    let _variables = lang.n();
    let mut struck = Struck {
        count: 0,
        are_all: false,
        barren: NOWHERE,
    };
    while *left > 0 {
        let Some(set) = waiting.pop() else {
            return TreeNext::End;
        };
        *left -= 1;
        let below = waiting.len();
        let is_barren = is_barren(&room[..struck.count], struck.barren, below, set);
        struck.barren = barren_from(struck.barren, below, is_barren);
        match listed_within(lang, net, places, listed, example, set) {
            Some(c) => split(lang, waiting, set, c),
            None => {
                if is_struck_within(lang, kept, is_barren, struck.are_all, example, set) {
                    return TreeNext::Ask(set);
                }
                struck = list_once(lang, kept, example, room, struck);
            }
        }
    }
    if waiting.is_empty() {
        TreeNext::End
    } else {
        TreeNext::Capped
    }
}

/// Whether none of the listed scopes lies within a set that has so many below it.
fn is_barren(sets: &[VarSet], barren: usize, below: usize, set: VarSet) -> bool
    requires { barren ≤ below → list_any (λ u. is_within u set) sets.now ≡ false }
    ensures { result ≡ not (list_any (λ u. is_within u set) sets.now) }
{
    below >= barren || !some_within(sets, set)
}

/// From where on sets are barren, once one that has so many below it was taken: it and its parts,
/// if it is.
fn barren_from(barren: usize, below: usize, is_barren: bool) -> usize
    ensures { result ≡ (if is_barren then min below barren else 1024) }
{
    if is_barren {
        below.min(barren)
    } else {
        NOWHERE
    }
}

/// A set gives way to those without each variable of a candidate's scope in turn.
fn split(lang: &Language, waiting: &mut Stack, set: VarSet, c: Candidate)
    requires candidate { IsCandidate lang.now c }
    requires within { IsTrue (is_within (scope_of lang.now c) set) }
    requires room { FitsOn set waiting.old }
    ensures { waiting.new ≡ parts_without set (scope_of lang.now c) ++ waiting.old }
{
    let _few = set.len();
    let _variables = lang.n();
    waiting.push_parts(set, lang.scope(c.scope));
}

/// Lists the variables of the scopes with kept candidates that an example violates, where none is
/// listed yet.
fn list_once(
    lang: &Language,
    kept: &Kept,
    example: &Partial,
    room: &mut [VarSet],
    struck: Struck,
) -> Struck
    requires question { IsQuestion lang.now example.now }
    requires made { IsMadeFor lang.now kept.now }
    requires before { AreStruck lang.now kept.now.members example.now
        (take struck.count room.old) struck.are_all }
    requires few { struck.count ≤ length room.old }
    ensures struck { AreStruck lang.now kept.now.members example.now
        (take result.count room.new) result.are_all }
    ensures few { result.count ≤ length room.new }
    ensures barren { (waiting : List (List ℕ)) → length waiting ≤ 385 →
        AreBarren (take struck.count room.old) struck.barren waiting →
        AreBarren (take result.count room.new) result.barren waiting }
{
    if struck.count > 0 || struck.are_all {
        return struck;
    }
    let (count, are_all) = kept.list_struck(lang, example, room);
    Struck {
        count,
        are_all,
        barren: NOWHERE,
    }
}

/// Whether one of these sets lies within another one.
fn some_within(sets: &[VarSet], set: VarSet) -> bool
    ensures { result ≡ list_any (λ u. is_within u set) sets.now }
{
    sets.iter().any(|inner| inner.within(set))
}

/// Whether the example violates a kept candidate whose scope lies within the set: on a listed
/// scope, unless the set is barren, or, where they aren't all listed, on any.
fn is_struck_within(
    lang: &Language,
    kept: &Kept,
    is_barren: bool,
    are_all: bool,
    example: &Partial,
    set: VarSet,
) -> bool
    requires question { IsQuestion lang.now example.now }
    requires made { IsMadeFor lang.now kept.now }
    requires struck { is_barren ≡ false →
        violates_some lang.now kept.now.members (restrict example.now set) ≡ true }
    requires quiet { is_barren ≡ true → are_all ≡ true →
        violates_some lang.now kept.now.members (restrict example.now set) ≡ false }
    ensures { result ≡ violates_some lang.now kept.now.members (restrict example.now set) }
{
    if !is_barren {
        return true;
    }
    if are_all {
        return false;
    }
    kept.strikes_any(lang, &example.restrict(set))
}
