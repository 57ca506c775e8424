// Sixteen tuples that are evaluated at once, so that a step is looked up once for all of them.

ghost use Rattle.std.specs.Prelude.{◌≡◌, ◌<◌, ◌∷◌, ℕ, ℤ, Bool, List, [], Some, false, not, pos};
ghost use Rattle.std.specs.Prelude.{reverse, slice_index_or, IfSome, OnSome};
ghost use Rattle.rel_formula.specs.Formula.{combine, compare, join, size, fitting};
ghost use Rattle.rel_formula.specs.Machine.{run};
ghost use Rattle.rel_formula.specs.declared.step.Step.{Step};
ghost use Rattle.rel_formula.specs.Batch.{numbers_at, truths_at, DoesStep};

use crate::numbers::{combine, compare, join, size};
use crate::step::{Arithmetic, Comparison, Connective, Step};
use arrayvec::ArrayVec;

/// How many tuples are evaluated at once.
pub const BATCH: usize = 16;

/// The most numbers or truths of a tuple that wait here for their operator. A formula that needs
/// more is evaluated tuple by tuple.
const MOST_WAITING: usize = 64;

/// A number for each tuple.
pub type Numbers = [i64; BATCH];

/// A truth for each tuple.
pub type Truths = [bool; BATCH];

/// The same numbers. One by one, since only a number that is read is known to fit 64 bits.
fn copy_each(xs: &Numbers) -> Numbers
    ensures { (k : ℕ) → k < 16 →
        fitting (slice_index_or xs.now k (pos 0)) ≡ Some (slice_index_or result k (pos 0)) }
{
    let mut made = [0; BATCH];
    for k in 0..BATCH {
        made[k] = xs[k];
    }
    made
}

/// Puts the absolute value of each number in place of it, where each fits 64 bits.
fn size_each(xs: &mut Numbers) -> Option<()>
    ensures { OnSome result ((k : ℕ) → k < 16 →
        fitting (size (slice_index_or xs.old k (pos 0))) ≡ Some (slice_index_or xs.new k (pos 0))) }
{
    for k in 0..BATCH {
        xs[k] = size(xs[k])?;
    }
    Some(())
}

/// Puts what an operator makes of two numbers in place of the first, at each tuple, where each fits
/// 64 bits.
fn combine_each(operator: Arithmetic, xs: &mut Numbers, ys: &Numbers) -> Option<()>
    ensures { OnSome result ((k : ℕ) → k < 16 → fitting (combine operator (slice_index_or xs.old k
        (pos 0)) (slice_index_or ys.now k (pos 0))) ≡ Some (slice_index_or xs.new k (pos 0))) }
{
    for k in 0..BATCH {
        xs[k] = combine(operator, xs[k], ys[k])?;
    }
    Some(())
}

/// Whether two numbers stand in this relation, at each tuple.
#[inline(always)]
fn compare_each(operator: Comparison, xs: &Numbers, ys: &Numbers) -> Truths
    ensures { (k : ℕ) → k < 16 → slice_index_or result k false
        ≡ compare operator (slice_index_or xs.now k (pos 0)) (slice_index_or ys.now k (pos 0)) }
{
    let mut made = [false; BATCH];
    for k in 0..BATCH {
        made[k] = compare(operator, xs[k], ys[k]);
    }
    made
}

/// The same, in a loop of its own for each operator, so that the operator isn't asked for at each
/// tuple.
fn compare_by(operator: Comparison, xs: &Numbers, ys: &Numbers) -> Truths
    ensures { (k : ℕ) → k < 16 → slice_index_or result k false
        ≡ compare operator (slice_index_or xs.now k (pos 0)) (slice_index_or ys.now k (pos 0)) }
{
    match operator {
        Comparison::Equal => compare_each(Comparison::Equal, xs, ys),
        Comparison::Different => compare_each(Comparison::Different, xs, ys),
        Comparison::Below => compare_each(Comparison::Below, xs, ys),
        Comparison::AtMost => compare_each(Comparison::AtMost, xs, ys),
        Comparison::Above => compare_each(Comparison::Above, xs, ys),
        Comparison::AtLeast => compare_each(Comparison::AtLeast, xs, ys),
    }
}

/// What an operator makes of two truths at each tuple.
fn join_each(operator: Connective, ps: &Truths, qs: &Truths) -> Truths
    ensures { (k : ℕ) → k < 16 → slice_index_or result k false
        ≡ join operator (slice_index_or ps.now k false) (slice_index_or qs.now k false) }
{
    let mut made = [false; BATCH];
    for k in 0..BATCH {
        made[k] = join(operator, ps[k], qs[k]);
    }
    made
}

/// The opposite of each truth.
fn negate_each(ps: &Truths) -> Truths
    ensures { (k : ℕ) → k < 16 →
        slice_index_or result k false ≡ not (slice_index_or ps.now k false) }
{
    let mut made = [false; BATCH];
    for k in 0..BATCH {
        made[k] = !ps[k];
    }
    made
}

/// What waits for its operator, the latest last.
type Waiting<T> = ArrayVec<T, MOST_WAITING>;

/// Takes the latest away, if there is one.
fn pop<T: Default + Drop>(stack: &mut Waiting<T>) -> Option<T>
    ensures { IfSome result (λ x. reverse stack.old.items ≡ x ∷ reverse stack.new.items) }
{
    stack.pop()
}

/// Puts one more, where there is room.
fn put<T: Drop>(stack: &mut Waiting<T>, x: T) -> Option<()>
    ensures { OnSome result (reverse stack.new.items ≡ x ∷ reverse stack.old.items) }
{
    if stack.is_full() {
        return None;
    }
    stack.push(x);
    Some(())
}

// What needs rows of its own for a step stands apart and is never inlined: `take` would clear room
// for the rows of each kind of step before every one.

/// Puts the tuples' values at a position.
#[inline(never)]
fn show(numbers: &mut Waiting<Numbers>, tuples: &[Numbers], at: usize) -> Option<()>
    ensures { OnSome result ((truths : List (List Bool)) → DoesStep (Step.Shown at) tuples.now
        (reverse numbers.old.items) truths (reverse numbers.new.items) truths) }
{
    match tuples.get(at) {
        Some(xs) => put(numbers, copy_each(xs)),
        None => put(numbers, [0; BATCH]),
    }
}

/// Puts the absolute values of the latest row of numbers in place of it.
#[inline(never)]
fn size_last(numbers: &mut Waiting<Numbers>) -> Option<()>
    ensures { OnSome result ((tuples : List (List ℤ)) (truths : List (List Bool)) →
        DoesStep Step.Absolute tuples (reverse numbers.old.items) truths
        (reverse numbers.new.items) truths) }
{
    let last = numbers.len().checked_sub(1)?;
    let rows = numbers.as_mut_slice();
    size_each(&mut rows[last])
}

/// Puts what an operator makes of the two latest rows of numbers in place of them.
#[inline(never)]
fn combine_last(numbers: &mut Waiting<Numbers>, operator: Arithmetic) -> Option<()>
    ensures { OnSome result ((tuples : List (List ℤ)) (truths : List (List Bool)) →
        DoesStep (Step.Combine operator) tuples (reverse numbers.old.items) truths
        (reverse numbers.new.items) truths) }
{
    let rest = numbers.len().checked_sub(2)?;
    let (firsts, lasts) = numbers.as_mut_slice().split_at_mut(rest + 1);
    combine_each(operator, &mut firsts[rest], &lasts[0])?;
    numbers.pop()?;
    Some(())
}

/// Takes the two latest rows of numbers, and puts whether they stand in this relation.
#[inline(never)]
fn compare_last(
    numbers: &mut Waiting<Numbers>,
    truths: &mut Waiting<Truths>,
    operator: Comparison,
) -> Option<()>
    ensures { OnSome result ((tuples : List (List ℤ)) →
        DoesStep (Step.Compare operator) tuples (reverse numbers.old.items)
        (reverse truths.old.items) (reverse numbers.new.items) (reverse truths.new.items)) }
{
    let rest = numbers.len().checked_sub(2)?;
    let rows = numbers.as_slice();
    let made = compare_by(operator, &rows[rest], &rows[rest + 1]);
    pop(numbers)?;
    pop(numbers)?;
    put(truths, made)
}

/// What waits for its operator, the latest last, for each tuple of a batch.
#[derive(Drop)]
pub struct Batch {
    numbers: Waiting<Numbers>,
    truths: Waiting<Truths>,
}

impl Batch {
    /// No number and no truth value.
    pub fn empty() -> Batch {
        Batch {
            numbers: ArrayVec::new(),
            truths: ArrayVec::new(),
        }
    }

    /// The truths that steps end with, or none where some tuple has to be evaluated by itself.
    pub fn ends_of(&mut self, steps: &[Step], tuples: &[Numbers]) -> Option<Truths>
        ensures { IfSome result (λ ends. (k : ℕ) → k < 16 → run (numbers_at k tuples.now) steps.now
            [] [] ≡ Some (Some (slice_index_or ends k false))) }
    {
        self.numbers.clear();
        self.truths.clear();
        for step in steps {
            self.take(*step, tuples)?;
        }
        pop(&mut self.truths)
    }

    /// Does one step at each tuple, or answers none where some tuple has to be evaluated by itself.
    fn take(&mut self, step: Step, tuples: &[Numbers]) -> Option<()>
        ensures { OnSome result (DoesStep step tuples.now (reverse self.old.numbers.items)
            (reverse self.old.truths.items) (reverse self.new.numbers.items)
            (reverse self.new.truths.items)) }
    {
        match step {
            Step::Whole(x) => put(&mut self.numbers, [x; BATCH]),
            Step::Shown(at) => show(&mut self.numbers, tuples, at),
            Step::Absolute => size_last(&mut self.numbers),
            Step::Combine(operator) => combine_last(&mut self.numbers, operator),
            Step::Compare(operator) => compare_last(&mut self.numbers, &mut self.truths, operator),
            Step::Join(operator) => {
                let qs = pop(&mut self.truths)?;
                let ps = pop(&mut self.truths)?;
                put(&mut self.truths, join_each(operator, &ps, &qs))
            }
            Step::Negate => {
                let ps = pop(&mut self.truths)?;
                put(&mut self.truths, negate_each(&ps))
            }
        }
    }
}
