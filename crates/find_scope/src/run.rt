//! The halving of a set, a reply at a time.

ghost use Rattle.std.specs.Prelude.{◌≡◌, ◌<◌, ℕ, Bool, List, [], ◌∷◌, ◌++◌, length, true, false};
ghost use Rattle.assign.specs.Sets.{IsSet};
ghost use Rattle.find_scope.specs.Halving.{Wants as WantsReply, halve};
ghost use Rattle.find_scope.specs.Run.{finish, halve_then, meaning, AreFit, Fits};
ghost use Rattle.find_scope.specs.Standing.{halved_after, StandsFor};

use crate::frames::{Frame, Frames};
use assign::VarSet;
use std::marker::Model;

/// A halving that waits for a reply. The reply consumes it.
#[derive(Drop)]
pub struct ScopeRun {
    /// What the open question is about.
    base: VarSet,
    /// What is halved after a yes.
    set: VarSet,
    /// What waits for the set that is found here.
    frames: Frames,
}

impl Model for ScopeRun {
    ghost use Rattle.std.specs.Prelude.{◌<◌, length};
    ghost use Rattle.assign.specs.Sets.{IsSet};
    ghost use Rattle.find_scope.specs.Run.{Run, AreFit, Fits};

    ghost Value = { Run };

    ghost view = { λ r. record { base = r.base; set = r.set; frames = r.frames } };

    ghost invariant = { λ r. IsSet r.base × (0 < length r.base) × Fits r.set r.frames
        × AreFit r.frames };
}

/// Where a halving stands.
#[derive(Drop)]
pub enum ScopeNext {
    /// A reply is wanted, about the set that the run says.
    Wants(ScopeRun),
    /// No reply is wanted any more: the variables that the no answer is about.
    Found(VarSet),
}

impl ScopeRun {
    /// Begins to halve a set that was answered no. A single variable is found at once.
    pub fn start(all: VarSet) -> ScopeNext
        requires { 0 < length all }
        ensures { StandsFor result all [] }
    {
        // Its clause says that there are at most 128, so that the frames are enough.
        let _few = all.len();
        halve_now(VarSet::empty(), all, Frames::none())
    }

    /// The set that a reply is wanted about. It is never empty, and lies within the whole set.
    pub fn wants(&self) -> VarSet
        ensures is { result ≡ self.now.base }
        ensures some { 0 < length result }
        ensures wanted { (set : List ℕ) (replies : List Bool) →
            StandsFor (ScopeNext.Wants self.now) set replies →
            halve set replies ≡ WantsReply result }
    {
        self.base
    }

    /// Takes the reply: whether the part of the example on the wanted set is a solution.
    pub fn reply(self, yes: bool) -> ScopeNext
        ensures { (set : List ℕ) (replies : List Bool) →
            StandsFor (ScopeNext.Wants self) set replies →
            StandsFor result set (replies ++ yes ∷ []) }
    {
        let ScopeRun { base, set, frames } = self;
        if yes {
            halve_now(base, set, frames)
        } else {
            settle(frames, VarSet::empty())
        }
    }
}

/// Halves a set with no question about its base.
fn halve_now(base: VarSet, set: VarSet, frames: Frames) -> ScopeNext
    requires known { IsSet base }
    requires small { Fits set frames }
    requires waiting { AreFit frames }
    ensures { (replies : List Bool) →
        halved_after result replies ≡ halve_then frames base set false replies }
{
    if set.len() > 1 {
        ScopeNext::Wants(split(base, set, frames))
    } else {
        settle(frames, set)
    }
}

/// Halves a set of more than one member: the second half is next.
fn split(base: VarSet, set: VarSet, mut frames: Frames) -> ScopeRun
    requires many { 1 < length set }
    requires rising { IsSet set }
    requires known { IsSet base }
    requires small { Fits set frames }
    requires waiting { AreFit frames }
    ensures { (replies : List Bool) →
        meaning result replies ≡ halve_then frames base set false replies }
{
    let first = set.first_half();
    frames.push(Frame::ThenFirst { base, first });
    ScopeRun {
        base: base.union(first),
        set: set.minus(first),
        frames,
    }
}

/// Goes on once a set is found.
fn settle(mut frames: Frames, mut found: VarSet) -> ScopeNext
    requires { AreFit frames }
    ensures { (replies : List Bool) → halved_after result replies ≡ finish frames found replies }
{
    while let Some(frame) = frames.pop() {
        match frame {
            Frame::Joins { found: before } => found = before.union(found),
            Frame::ThenFirst { base, first } => {
                if found.len() > 0 {
                    frames.push(Frame::Joins { found });
                    return ScopeNext::Wants(ScopeRun {
                        base: base.union(found),
                        set: first,
                        frames,
                    });
                }
                if first.len() > 1 {
                    return ScopeNext::Wants(split(base, first, frames));
                }
                found = first;
            }
        }
    }
    ScopeNext::Found(found)
}
