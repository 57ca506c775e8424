//! The halving as a recursion that reads a list of replies: FindScope (Bessiere et al., IJCAI
//! 2013).
//!
//! A `ScopeRun` does the same a reply at a time, with neither the recursion nor the list, and is
//! tried against this. That the first half of a set is the least half of its members, rounded up,
//! is this project's own choice.

ghost use Rattle.std.specs.Prelude.{◌≡◌, Bool, List, length, false};
ghost use Rattle.find_scope.specs.Halving.{Halved as SaysHalved, ask, halve, halve_within};
ghost use Rattle.find_scope.specs.Plain.{goes_on, shown};

use assign::VarSet;

/// What a list of replies gives.
#[derive(Clone, Copy, Debug)]
pub enum Halved<'a> {
    /// Each reply was read, and one about this set is wanted.
    Wants(VarSet),
    /// This set was found, and these replies are left.
    Got(VarSet, &'a [bool]),
}

/// Halves a set that was answered no, by a list of replies, the first reply first.
///
/// A reply is whether the part of the example on the wanted set is a solution.
pub fn halve<'a>(all: VarSet, replies: &'a [bool]) -> Halved<'a>
    ensures { shown result ≡ halve all replies.now }
{
    halve_within(VarSet::empty(), all, false, replies)
}

/// The part of a set that the no answer needs beside the base, with a question about the base first
/// or without one.
fn halve_within<'a>(base: VarSet, set: VarSet, asks: bool, replies: &'a [bool]) -> Halved<'a>
    ensures { shown result ≡ halve_within (length set) base set asks replies.now }
{
    let rest = match ask(asks, base, replies) {
        Ok(rest) => rest,
        Err(ended) => return ended,
    };
    if set.len() < 2 {
        return Halved::Got(set, rest);
    }
    let first = set.first_half();
    match halve_within(base.union(first), set.minus(first), true, rest) {
        Halved::Wants(wanted) => Halved::Wants(wanted),
        Halved::Got(found, left) => {
            match halve_within(base.union(found), first, found.len() > 0, left) {
                Halved::Wants(wanted) => Halved::Wants(wanted),
                Halved::Got(more, last) => Halved::Got(found.union(more), last),
            }
        }
    }
}

/// The replies that are left, where the halving goes on: after a yes, or without a question. Else
/// what it ends with.
fn ask<'a>(asks: bool, base: VarSet, replies: &'a [bool]) -> Result<&'a [bool], Halved<'a>>
    ensures { (next : List Bool → SaysHalved) →
        goes_on result next ≡ ask asks base replies.now next }
{
    if !asks {
        return Ok(replies);
    }
    match replies.split_first() {
        None => Err(Halved::Wants(base)),
        Some((true, rest)) => Ok(rest),
        Some((false, rest)) => Err(Halved::Got(VarSet::empty(), rest)),
    }
}
