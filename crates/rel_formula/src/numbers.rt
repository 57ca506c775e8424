// The operators on whole numbers and truths, in 64 bits.
ghost use Rattle.std.specs.Prelude.{◌≡◌, true};
ghost use Rattle.rel_formula.specs.Formula.{combine, compare, join, size, fits, fitting};

use crate::step::{Arithmetic, Comparison, Connective};

/// What an operator makes of two whole numbers, where it fits 64 bits.
pub fn combine(operator: Arithmetic, x: i64, y: i64) -> Option<i64>
    ensures { result ≡ fitting (combine operator x y) }
{
    match operator {
        Arithmetic::Sum => x.checked_add(y),
        Arithmetic::Difference => x.checked_sub(y),
        Arithmetic::Product => x.checked_mul(y),
        Arithmetic::Least => Some(x.min(y)),
        Arithmetic::Greatest => Some(x.max(y)),
    }
}

/// The absolute value, where it fits 64 bits.
pub fn size(x: i64) -> Option<i64>
    ensures { result ≡ fitting (size x) }
{
    x.checked_abs()
}

/// Whether two whole numbers stand in this relation.
pub fn compare(operator: Comparison, x: i64, y: i64) -> bool
    ensures { result ≡ compare operator x y }
{
    match operator {
        Comparison::Equal => x == y,
        Comparison::Different => x != y,
        Comparison::Below => x < y,
        Comparison::AtMost => x <= y,
        Comparison::Above => x > y,
        Comparison::AtLeast => x >= y,
    }
}

/// What an operator makes of two truths.
pub fn join(operator: Connective, p: bool, q: bool) -> bool
    ensures { result ≡ join operator p q }
{
    match operator {
        Connective::And => p && q,
        Connective::Or => p || q,
    }
}
