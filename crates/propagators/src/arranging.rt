//! A plan of conditions: each is noted with its variables, and what says that two differ with
//! these.

ghost use Rattle.std.specs.Prelude.{◌≡◌, ◌<◌, ◌≤◌, ◌+◌, ◌*◌, ◌/◌, ◌%◌, ◌⊎◌, ℕ, List, true, All};
ghost use Rattle.std.specs.Prelude.{IfOk, None, length, min, take, slice_index_or, vec_len};
ghost use Rattle.std.specs.Prelude.{vec_capacity};
ghost use Rattle.assign.specs.Sets.{has, ones_of};
ghost use Rattle.language.specs.Language.{Language, IsLanguage};
ghost use Rattle.propagators.specs.Allowed.{AreConstraints};
ghost use Rattle.propagators.specs.Families.{Arc, arcs_of, conditions};
ghost use Rattle.propagators.specs.Briefs.{AreBriefs, AreBothOf, IsApart};
ghost use Rattle.propagators.specs.declared.plan.Plan.{Plan};
ghost use Rattle.propagators.specs.Plans.{IsPlanOf, is_with, IsParted, AreApartSoFar, AreNoted};
ghost use Rattle.propagators.specs.Plans.{AreLimits, AreTakenIn, AreNarrow};

use crate::briefs::{BLANK, Brief, Pair, brief_of, raise_all};
use crate::constraints::Constraints;
use crate::plan::Plan;
use crate::values::add_value;
use language::Language;
use std::alloc::{AllocError, Global};

/// Notes a condition, or a variable, with the variables of a scope.
fn note(sets: &mut [u64], words: usize, scope: &[u8], i: usize)
    requires long { length sets.old ≡ 128 * words }
    requires low { i < words * 64 }
    requires known { All (λ v. v < 128) scope.now }
    ensures grows { (q b : ℕ) → has (ones_of (slice_index_or sets.old q 0)) b ≡ true →
        has (ones_of (slice_index_or sets.new q 0)) b ≡ true }
    ensures there { (j : ℕ) → j < length scope.now →
        is_with sets.new (slice_index_or scope.now j 0) i ≡ true }
    ensures only { (v k : ℕ) → v < 128 → is_with sets.new v k ≡ true →
        (is_with sets.old v k ≡ true) ⊎ ((k ≡ i) × (has scope.now v ≡ true)) }
{
    for v in scope {
        let at = i / 64 * 128 + usize::from(*v);
        sets[at] = add_value(sets[at], (i % 64) as u8);
    }
}

/// Clears the words of so many conditions and n variables, as far as there is room, but for those
/// with a condition before one. The others are never read.
fn clear_sets(sets: &mut [u64], words: usize, from: usize, count: usize, n: u8)
    requires long { length sets.old ≡ 128 * words }
    requires few { n ≤ 128 }
    ensures long { length sets.new ≡ length sets.old }
    ensures before { (k v : ℕ) → k < from → v < 128 → slice_index_or sets.new (k / 64 * 128 + v) 0
        ≡ slice_index_or sets.old (k / 64 * 128 + v) 0 }
{
    let used = count.div_ceil(64).min(words);
    for w in from.div_ceil(64)..used {
        sets[w * 128..w * 128 + usize::from(n)].fill(0);
    }
}

/// Notes the conditions from one on with their variables, as far as there is room.
fn note_rest(cons: &Constraints, briefs: &[Brief], sets: &mut [u64], words: usize, from: usize)
    requires lawful { IsLanguage cons.now.lang.now }
    requires constraints { AreConstraints cons.now.lang.now cons.now.list.now cons.now.against }
    requires long { length sets.old ≡ 128 * words }
    requires first { (k v : ℕ) (a : Arc) (b : Brief) → k < from → has
        (slice_index_or (conditions cons.now) k a).scope v ≡ true → (is_with sets.old v k ≡ true)
        ⊎ ((k < length briefs.now) × IsApart (slice_index_or briefs.now k b)) }
    ensures { AreNoted (conditions cons.now) briefs.now words sets.new }
{
    for i in from..cons.count().min(words * 64) {
        let (c, _holding) = cons.condition(i);
        note(sets, words, cons.lang.scope(c.scope), i);
    }
}

/// Notes that two variables have to differ.
fn part(aparts: &mut [u64], pair: Pair)
    requires long { length aparts.old ≡ 128 * 2 }
    requires first { pair.first < 128 }
    requires second { pair.second < 128 }
    ensures grows { (q b : ℕ) → has (ones_of (slice_index_or aparts.old q 0)) b ≡ true →
        has (ones_of (slice_index_or aparts.new q 0)) b ≡ true }
    ensures there { (is_with aparts.new pair.first pair.second ≡ true)
        × (is_with aparts.new pair.second pair.first ≡ true) }
    ensures only { (v u : ℕ) → v < 128 → is_with aparts.new v u ≡ true →
        (is_with aparts.old v u ≡ true) ⊎ AreBothOf pair v u }
{
    note(aparts, 2, &[pair.first], usize::from(pair.second));
    note(aparts, 2, &[pair.second], usize::from(pair.first));
}

/// Takes in the conditions from one on, as many as there is room for: each has its brief, and
/// raises the limits of its variables to its bounds. One that says that two variables differ is
/// noted with these, the others in the sets.
fn take_in(
    cons: &Constraints,
    briefs: &mut [Brief],
    sets: &mut [u64],
    words: usize,
    limits: &mut [u8],
    aparts: &mut [u64],
    from: usize,
)
    requires lawful { IsLanguage cons.now.lang.now }
    requires constraints { AreConstraints cons.now.lang.now cons.now.list.now cons.now.against }
    requires long { length sets.old ≡ 128 * words }
    requires room { length briefs.old ≤ words * 64 }
    requires wide { length limits.old ≡ 128 }
    requires two { length aparts.old ≡ 128 * 2 }
    requires some { from ≤ min (length briefs.old) (length (conditions cons.now)) }
    requires front { AreTakenIn cons.now.lang.now
        (conditions cons.now) briefs.old sets.old limits.old aparts.old from }
    ensures { AreTakenIn cons.now.lang.now (conditions cons.now) briefs.new sets.new limits.new
        aparts.new (min (length briefs.new) (length (conditions cons.now))) }
{
    let end = briefs.len().min(cons.count());
    for i in from..end {
        let (c, holding) = cons.condition(i);
        let scope = cons.lang.scope(c.scope);
        let brief = brief_of(cons.lang, c, scope, holding);
        match brief {
            Brief::Apart(pair) => part(aparts, pair),
            _ => note(sets, words, scope, i),
        }
        briefs[i] = brief;
        raise_all(limits, scope, brief);
    }
}

/// The briefs of the first conditions, as many as there is room for. All conditions are noted with
/// their variables, as far as there is room. Each variable's limit is the largest bound of its
/// briefs.
fn arrange_all(
    cons: &Constraints,
    briefs: &mut [Brief],
    sets: &mut [u64],
    words: usize,
    limits: &mut [u8],
    aparts: &mut [u64],
)
    requires lawful { IsLanguage cons.now.lang.now }
    requires constraints { AreConstraints cons.now.lang.now cons.now.list.now cons.now.against }
    requires long { length sets.old ≡ 128 * words }
    requires room { length briefs.old ≤ words * 64 }
    requires wide { length limits.old ≡ 128 }
    requires two { length aparts.old ≡ 128 * 2 }
    ensures briefs { AreBriefs cons.now.lang.now (conditions cons.now) briefs.new }
    ensures limits { AreLimits (conditions cons.now) briefs.new limits.new }
    ensures noted { AreNoted (conditions cons.now) briefs.new words sets.new }
    ensures parted { (k : ℕ) (b : Brief) → k < length briefs.new →
        k < length (conditions cons.now) → IsParted aparts.new (slice_index_or briefs.new k b) }
    ensures apart { AreApartSoFar briefs.new aparts.new
        (min (length briefs.new) (length (conditions cons.now))) }
{
    clear_sets(sets, words, 0, cons.count(), cons.lang.n());
    limits.fill(0);
    aparts.fill(0);
    take_in(cons, briefs, sets, words, limits, aparts, 0);
    let end = briefs.len().min(cons.count());
    note_rest(cons, briefs, sets, words, end);
}

/// Takes over the first items of another list, so many.
pub(crate) fn copy_front<T: Copy>(to: &mut [T], from: &[T], count: usize)
    requires room { count ≤ length to.old }
    requires there { count ≤ length from.now }
    ensures { (k : ℕ) (d : T) → k < count →
        slice_index_or to.new k d ≡ slice_index_or from.now k d }
{
    to[..count].copy_from_slice(&from[..count]);
}

/// Puts the same item behind those of a list until there are so many, for which it has the
/// capacity.
fn fill_up<T: Copy>(list: &mut Vec<T>, item: T, count: usize)
    requires capacity { count ≤ vec_capacity list.old }
    requires below { vec_len list.old ≤ count }
    ensures size { vec_len list.new ≡ count }
    ensures capacity { vec_capacity list.new ≡ vec_capacity list.old }
{
    for _i in list.len()..count {
        list.push_reserved(item);
    }
}

impl Plan {
    /// Room for so many conditions: some 28 bytes for each, and 2 KB. `AllocError` where the
    /// allocator gives no memory.
    pub fn new(alloc: Global, room: usize) -> Result<Plan, AllocError>
        requires { room ≤ 65536 }
        ensures { IfOk result (λ p. length p.briefs.items ≡ room) }
    {
        let mut plan = Plan::unwritten(alloc, room)?;
        plan.fill_room();
        Ok(plan)
    }

    /// The same, but only the 2 KB are written before the plan is first arranged: many plans never
    /// are.
    pub fn unwritten(alloc: Global, room: usize) -> Result<Plan, AllocError>
        requires { room ≤ 65536 }
        ensures { IfOk result (λ p. p.room ≡ room) }
    {
        Ok(Plan {
            room,
            briefs: Vec::with_capacity(alloc, room)?,
            limits: vec![in alloc; 0; 128]?,
            words: 0,
            sets: Vec::with_capacity(alloc, 128 * room.div_ceil(64))?,
            aparts: vec![in alloc; 0; 128 * 2]?,
        })
    }

    /// Writes the room that the plan has. Only the first arrangement finds any that isn't written,
    /// so this stands apart.
    #[inline(never)]
    fn fill_room(&mut self)
        ensures full { length self.new.briefs.items ≡ self.old.room }
        ensures room { self.new.room ≡ self.old.room }
    {
        if self.briefs.len() == self.room {
            return;
        }
        let words = self.room.div_ceil(64);
        fill_up(&mut self.sets, 0, 128 * words);
        self.words = words;
        fill_up(&mut self.briefs, BLANK, self.room);
    }

    /// Makes the plan one of these conditions. With more than there is room for it is of no use.
    pub fn arrange(&mut self, cons: &Constraints)
        requires lawful { IsLanguage cons.now.lang.now }
        requires constraints { AreConstraints cons.now.lang.now cons.now.list.now cons.now.against }
        ensures plan { IsPlanOf cons.now.lang.now (conditions cons.now) self.new }
        ensures full { length self.new.briefs.items ≡ self.old.room }
        ensures room { self.new.room ≡ self.old.room }
    {
        self.fill_room();
        arrange_all(
            cons,
            &mut self.briefs,
            &mut self.sets,
            self.words,
            &mut self.limits,
            &mut self.aparts,
        );
    }
}

impl Plan {
    /// Takes in the conditions from one on, where the plan is one of those before.
    pub(crate) fn extend(&mut self, cons: &Constraints, from: usize)
        requires lawful { IsLanguage cons.now.lang.now }
        requires constraints { AreConstraints cons.now.lang.now cons.now.list.now cons.now.against }
        requires front { IsPlanOf cons.now.lang.now (take from (conditions cons.now)) self.old }
        requires some { from ≤ length (conditions cons.now) }
        requires room { length (conditions cons.now) ≤ length self.old.briefs.items }
        ensures plan { IsPlanOf cons.now.lang.now (conditions cons.now) self.new }
        ensures room { length self.new.briefs.items ≡ length self.old.briefs.items }
    {
        clear_sets(
            &mut self.sets,
            self.words,
            from,
            cons.count(),
            cons.lang.n(),
        );
        take_in(
            cons,
            &mut self.briefs,
            &mut self.sets,
            self.words,
            &mut self.limits,
            &mut self.aparts,
            from,
        );
    }

    /// Takes over what another plan with as many words says of the first conditions, so many.
    fn copy_front(&mut self, other: &Plan, count: usize)
        requires words { self.old.words ≡ other.now.words }
        requires room { count ≤ length self.old.briefs.items }
        requires there { count ≤ length other.now.briefs.items }
        ensures plan { (l : Language) (arcs : List Arc) → length arcs ≤ count → AreNarrow arcs →
            IsPlanOf l arcs other.now → IsPlanOf l arcs self.new }
        ensures room { length self.new.briefs.items ≡ length self.old.briefs.items }
    {
        let used = count.div_ceil(64).min(self.words);
        copy_front(&mut self.briefs, &other.briefs, count);
        copy_front(&mut self.sets, &other.sets, 128 * used);
        copy_front(&mut self.limits, &other.limits, 128);
        copy_front(&mut self.aparts, &other.aparts, 128 * 2);
    }

    /// Makes the plan one of these conditions, where another one is one of those of the list.
    pub(crate) fn arrange_beside(&mut self, cons: &Constraints, other: &Plan)
        requires lawful { IsLanguage cons.now.lang.now }
        requires constraints { AreConstraints cons.now.lang.now cons.now.list.now cons.now.against }
        requires other { IsPlanOf cons.now.lang.now
            (arcs_of cons.now.lang.now cons.now.list.now None) other.now }
        ensures { IsPlanOf cons.now.lang.now (conditions cons.now) self.new }
    {
        self.fill_room();
        let size = cons.list.len();
        if self.words != other.words
            || size > other.briefs.len()
            || cons.count() > self.briefs.len()
        {
            self.arrange(cons);
            return;
        }
        self.copy_front(other, size);
        self.extend(cons, size);
    }
}
