//! What a network makes of all values of a variable at once, where other variables have their
//! values.

ghost use Rattle.std.specs.Prelude.{◌≡◌, ◌<◌, ◌≤◌, ◌+◌, ◌*◌, ◌^◌, ◌==◌, ◌≢◌, ℕ, None, Some, not};
ghost use Rattle.std.specs.Prelude.{true, false, bit_and, length, position, slice_index_or};
ghost use Rattle.std.specs.Prelude.{slice_set, All, IfNone, IfSome, if◌then◌else◌};
ghost use Rattle.std.specs.Int.{bit_at, bit_not, w64};
ghost use Rattle.assign.specs.Sets.{ones_of};
ghost use Rattle.language.specs.Language.{IsCandidate, IsLanguage, IsQuestion, place_on};
ghost use Rattle.language.specs.Language.{relation_of, variable_count, violates};
ghost use Rattle.language.specs.Answers.{IsNetwork};
ghost use Rattle.cert_check.specs.ByVariable.{by_variable};
ghost use Rattle.cert_check.specs.Siblings.{AreSiblings, IsWithinTable, IsLine, IsRangedValue};
ghost use Rattle.cert_check.specs.Siblings.{first_item, item_below};

use crate::by_variable::ByVariable;
use assign::Partial;
use language::{Candidate, Language, ScopeId};

/// For each value of a variable the first item that is violated where the variable has it.
#[derive(Clone, Copy)]
pub(crate) struct Siblings {
    /// Bit x is 1 where value x violates no item.
    free: u64,
    /// For each other value the number of that item.
    items: [u32; 64],
}

/// The place of a tuple in its scope's table, as one of its variables goes through its values.
#[derive(Clone, Copy)]
struct Line {
    /// Where the variable has value 0.
    place: u32,
    /// By how much each value more moves it.
    stride: u32,
}

/// The line on a scope as the variable goes through its values and the others have those of the
/// question, if each of them has one.
fn line_on(lang: &Language, s: ScopeId, v: u8, e: &Partial) -> Option<Line>
    requires scope { s < length lang.now.scopes }
    requires known { v < variable_count lang.now }
    requires question { IsQuestion lang.now e.now }
    ensures line { IfSome result (λ a. IsLine lang.now s v e.now a.place a.stride) }
    ensures below { IfSome result (λ a. IsWithinTable lang.now s a.place a.stride) }
    ensures none { IfNone result ((x : ℕ) →
        place_on lang.now s (slice_set e.now v (Some x)) ≡ None) }
{
    let d = u32::from(lang.d());
    let (mut place, mut stride) = (0, 0);
    let scope = lang.scope(s);
    for w in scope {
        if *w == v {
            place *= d;
            stride = stride * d + 1;
        } else {
            let y = e.get(*w)?;
            place = place * d + u32::from(y);
            stride *= d;
        }
    }
    Some(Line { place, stride })
}

/// The values of a variable at whose place on a line the candidate doesn't hold: bit x is 1 where
/// it doesn't at value x.
fn rejecting(lang: &Language, c: Candidate, v: u8, line: Line) -> u64
    requires lawful { IsLanguage lang.now }
    requires candidate { IsCandidate lang.now c }
    requires known { v < variable_count lang.now }
    requires below { IsWithinTable lang.now c.scope line.place line.stride }
    ensures { (x : ℕ) → IsRangedValue lang.now v x → (bit_at result x == 1)
        ≡ not (slice_index_or (relation_of lang.now c) (line.place + x * line.stride) false) }
{
    let (first, last) = lang.range(v);
    let mut values = 0;
    for x in first..last + 1 {
        let held = lang.holds(c.scope, c.rel, line.place + u32::from(x) * line.stride);
        values |= u64::from(!held) << x;
    }
    values
}

/// The values of a variable that violate the candidate: bit x is 1 where value x does. The bits
/// that are no value of the variable mean nothing. Where it is the last one of the scope, a row of
/// the table has them all.
fn violating(lang: &Language, c: Candidate, v: u8, e: &Partial) -> u64
    requires lawful { IsLanguage lang.now }
    requires candidate { IsCandidate lang.now c }
    requires known { v < variable_count lang.now }
    requires question { IsQuestion lang.now e.now }
    ensures { (x : ℕ) → IsRangedValue lang.now v x →
        (bit_at result x == 1) ≡ violates lang.now c (slice_set e.now v (Some x)) }
{
    let Some(line) = line_on(lang, c.scope, v, e) else {
        return 0;
    };
    if line.stride == 1 {
        !lang.row_on(c.scope, c.rel, line.place)
    } else {
        rejecting(lang, c, v, line)
    }
}

/// The values of a variable: bit x is 1 where x is one of them.
fn values_of(lang: &Language, v: u8) -> u64
    requires lawful { IsLanguage lang.now }
    requires known { v < variable_count lang.now }
    ensures { (x : ℕ) → IsRangedValue lang.now v x → (bit_at result x == 1) ≡ true }
{
    let (first, last) = lang.range(v);
    let mut values = 0;
    for x in first..last + 1 {
        values |= 1 << x;
    }
    values
}

/// The least of some values, and the others.
fn split_first(values: u64) -> (u8, u64)
    requires { values ≢ 0 }
    ensures small { result.0 < 64 }
    ensures one { (bit_at values result.0 == 1) ≡ true }
    ensures others { result.1 ≡ bit_and values (bit_not w64 (2 ^ result.0)) }
    ensures fewer { length (ones_of result.1) < length (ones_of values) }
{
    let x = values.trailing_zeros() as u8;
    (x, values & !(1 << x))
}

/// Writes the item's number beside each of these values.
fn put(items: &mut [u32; 64], values: u64, i: u32)
    ensures { (x : ℕ) → x < 64 → slice_index_or items.new x 0
        ≡ (if bit_at values x == 1 then i else slice_index_or items.old x 0) }
{
    let mut left = values;
    while left != 0 {
        let (x, others) = split_first(left);
        items[x as usize] = i;
        left = others;
    }
}

impl Siblings {
    /// Those of a variable's values beside an assignment that violates no item.
    pub(crate) fn of(
        lang: &Language,
        net: &[Candidate],
        by: &ByVariable,
        v: u8,
        e: &Partial,
    ) -> Siblings
        requires lawful { IsLanguage lang.now }
        requires network { IsNetwork lang.now net.now }
        requires by { by.now ≡ by_variable lang.now net.now }
        requires known { v < variable_count lang.now }
        requires question { IsQuestion lang.now e.now }
        requires accepted { position (λ d. violates lang.now d e.now) net.now ≡ None }
        ensures { AreSiblings lang.now net.now v e.now result }
    {
        let mut free = values_of(lang, v);
        let mut items = [0; 64];
        let row = by.items(v);
        for i in row {
            let found = violating(lang, net[*i as usize], v, e) & free;
            put(&mut items, found, *i);
            free &= !found;
            if free == 0 {
                return Siblings { free, items };
            }
        }
        Siblings { free, items }
    }

    /// The first item that the value violates, if there is one.
    fn item(&self, x: u8) -> Option<u32>
        requires { x < 64 }
        ensures { result ≡ first_item self.now x }
    {
        if (self.free >> x) & 1 == 1 {
            None
        } else {
            Some(self.items[x as usize])
        }
    }
}

/// The first item that a prefix violates, given the siblings of each of its values.
pub(crate) fn first_violated(levels: &[Siblings], values: &[u8]) -> Option<u32>
    requires deep { length values.now ≤ length levels.now }
    requires small { All (λ x. x < 64) values.now }
    ensures { result ≡ item_below levels.now values.now (length values.now) }
{
    match values.len() {
        0 => None,
        k => levels[k - 1].item(values[k - 1]),
    }
}
