ghost use Rattle.std.specs.Prelude.{◌≡◌};
ghost use Rattle.language.specs.Language.{IsCandidate, variable_count};
ghost use Rattle.language.specs.Search.{order_of};
ghost use Rattle.fd_solver.specs.Outcomes.{IsOrder};

use arrayvec::ArrayVec;
use language::{Candidate, Language};

/// A scope of 4 variables and 128 others, more than any order has.
const ROOM: usize = 132;

/// The order in which a search against a candidate gives values: the variables of its scope, and
/// then the others in vocabulary order.
pub fn order_of(lang: &Language, c: Candidate) -> ArrayVec<u8, ROOM>
    requires { IsCandidate lang.now c }
    ensures is { result.items ≡ order_of lang.now c }
    ensures order { IsOrder (variable_count lang.now) result.items }
{
    lang.order_of(c)
}
