ghost use Rattle.std.specs.Prelude.{◌≡◌};
ghost use Rattle.language.specs.Language.{IsCandidate, IsLanguage, variable_count};
ghost use Rattle.language.specs.Search.{IsOrder, order_of};

use crate::candidates::Candidate;
use crate::lang::Language;
use arrayvec::ArrayVec;

/// A scope of 4 variables and 128 others, more than any order has.
const ROOM: usize = 132;

impl Language {
    /// The order in which prefixes give values to search against a candidate: the variables of its
    /// scope, and then the others in vocabulary order.
    pub fn order_of(&self, c: Candidate) -> ArrayVec<u8, ROOM>
        requires { IsCandidate self.now c }
        ensures is { result.items ≡ order_of self.now c }
        ensures order { IsOrder (variable_count self.now) result.items }
        ensures lawful { IsLanguage self.now }
    {
        let scope = self.scope(c.scope);
        let members = self.scope_set(c.scope);
        let mut order = ArrayVec::new();
        for v in scope {
            order.push(*v);
        }
        for v in 0..self.n() {
            if !members.has(v) {
                order.push(v);
            }
        }
        order
    }
}
