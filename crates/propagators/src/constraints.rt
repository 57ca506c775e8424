ghost use Rattle.std.specs.Prelude.{◌≡◌, ◌<◌, length, slice_index_or};
ghost use Rattle.language.specs.Language.{IsCandidate, IsQuestion};
ghost use Rattle.propagators.specs.Allowed.{AreConstraints, satisfies_one};
ghost use Rattle.propagators.specs.Families.{Arc, arc_of, conditions};

use assign::Partial;
use language::{Candidate, Language};

/// What a solution has to meet: each candidate of the list holds, and `against` is false at the
/// tuple of its scope.
#[derive(Clone, Copy)]
pub struct Constraints<'a> {
    /// Of which the candidates are.
    pub lang: &'a Language,
    /// Those that hold.
    pub list: &'a [Candidate],
    /// The one that doesn't hold, where there is one.
    pub against: Option<Candidate>,
}

impl<'a> Constraints<'a> {
    /// Whether the assignment gives each variable of `against` a value and the relation accepts
    /// them. False without an `against`.
    pub fn satisfies_against(&self, e: &Partial) -> bool
        requires constraints { AreConstraints self.now.lang.now self.now.list.now self.now.against }
        requires question { IsQuestion self.now.lang.now e.now }
        ensures { result ≡ satisfies_one self.now.lang.now self.now.against e.now }
    {
        let Some(c) = self.against else {
            return false;
        };
        match self.lang.place_on(c.scope, e) {
            None => false,
            Some(place) => self.lang.holds(c.scope, c.rel, place),
        }
    }

    /// How many conditions there are: one for each candidate of the list, and then one for
    /// `against`.
    pub(crate) fn count(&self) -> usize
        ensures { result ≡ length (conditions self.now) }
    {
        match self.against {
            None => self.list.len(),
            Some(_) => self.list.len() + 1,
        }
    }

    /// The condition of this number: a candidate, and whether it is to hold.
    pub(crate) fn condition(&self, i: usize) -> (Candidate, bool)
        requires constraints { AreConstraints self.now.lang.now self.now.list.now self.now.against }
        requires low { i < length (conditions self.now) }
        ensures candidate { IsCandidate self.now.lang.now result.0 }
        ensures is { (a : Arc) →
            slice_index_or (conditions self.now) i a ≡ arc_of self.now.lang.now result.0 result.1 }
    {
        if i < self.list.len() {
            return (self.list[i], true);
        }
        match self.against {
            Some(c) => (c, false),
            None => unreachable!(),
        }
    }
}
