// The stacks on which a formula is evaluated.
ghost use Rattle.std.specs.Prelude.{◌≡◌, ◌+◌, ◌<◌, ◌≤◌, ◌∷◌, [], List, Some, None, pos};
ghost use Rattle.std.specs.Prelude.{if◌then◌else◌, length, reverse, slice_index_or, is_some};
ghost use Rattle.std.specs.Prelude.{IsSome, IfSome};
ghost use Rattle.arrayvec.specs.ArrayVec.{array_vec_len};
ghost use Rattle.rel_formula.specs.Formula.{combine, compare, join, size, fits, fitting};
ghost use Rattle.rel_formula.specs.Machine.{run, numbers_taken, truths_taken};
ghost use Rattle.rel_formula.specs.declared.step.Step.{Step};

use crate::numbers::{combine, compare, join, size};
use crate::step::Step;
use arrayvec::ArrayVec;

/// The most steps of a formula, and so the most numbers or truths that wait for their operator.
pub const MOST_STEPS: usize = 400;

/// What waits for its operator, the latest last.
type Stack<T> = ArrayVec<T, MOST_STEPS>;

/// What the steps so far have made and no later one has taken.
#[derive(Drop)]
pub struct Stacks {
    pub numbers: Stack<i64>,
    pub truths: Stack<bool>,
}

/// Takes the latest away.
fn pop<T: Default + Drop>(stack: &mut Stack<T>) -> T
    requires { 1 ≤ array_vec_len stack.old }
    ensures latest { reverse stack.old.items ≡ result ∷ reverse stack.new.items }
    ensures len { array_vec_len stack.new + 1 ≡ array_vec_len stack.old }
{
    stack.pop().unwrap()
}

/// Puts one more.
fn push<T: Drop>(stack: &mut Stack<T>, x: T)
    requires { array_vec_len stack.old < 400 }
    ensures latest { reverse stack.new.items ≡ x ∷ reverse stack.old.items }
    ensures len { array_vec_len stack.new ≡ array_vec_len stack.old + 1 }
{
    stack.push(x);
}

/// Puts a number where there is one, and says whether there is.
fn push_fitting(stack: &mut Stack<i64>, number: Option<i64>) -> bool
    requires { array_vec_len stack.old < 400 }
    ensures some { IfSome number (λ x. reverse stack.new.items ≡ x ∷ reverse stack.old.items) }
    ensures is { result ≡ is_some number }
    ensures len { array_vec_len stack.new ≤ array_vec_len stack.old + 1 }
{
    match number {
        Some(x) => {
            push(stack, x);
            true
        }
        None => false,
    }
}

impl Stacks {
    /// No number and no truth value.
    pub fn empty() -> Stacks {
        Stacks {
            numbers: ArrayVec::new(),
            truths: ArrayVec::new(),
        }
    }

    /// The truth that steps end with, or none where some number that they put leaves 64 bits.
    pub fn end_of(&mut self, steps: &[Step], tuple: &[i64]) -> Option<bool>
        requires few { length steps.now ≤ 400 }
        requires ends { IsSome (run tuple.now steps.now [] []) }
        ensures { run tuple.now steps.now [] [] ≡ Some result }
    {
        self.numbers.clear();
        self.truths.clear();
        for step in steps {
            if !self.take(*step, tuple) {
                return None;
            }
        }
        self.truths.pop()
    }

    /// Does one step, and says whether the number that it puts fits 64 bits.
    fn take(&mut self, step: Step, tuple: &[i64]) -> bool
        requires numbers { numbers_taken step ≤ array_vec_len self.old.numbers }
        requires truths { truths_taken step ≤ array_vec_len self.old.truths }
        requires room { array_vec_len self.old.numbers < 400 }
        requires truth_room { array_vec_len self.old.truths < 400 }
        ensures runs { (rest : List Step) →
            run tuple.now (step ∷ rest) (reverse self.old.numbers.items)
            (reverse self.old.truths.items) ≡ (if result then run tuple.now rest
            (reverse self.new.numbers.items) (reverse self.new.truths.items) else Some None) }
        ensures numbers { array_vec_len self.new.numbers ≤ array_vec_len self.old.numbers + 1 }
        ensures truths { array_vec_len self.new.truths ≤ array_vec_len self.old.truths + 1 }
    {
        match step {
            Step::Whole(x) => push_fitting(&mut self.numbers, Some(x)),
            Step::Shown(at) => {
                let x = tuple.get(at).copied().unwrap_or(0);
                push_fitting(&mut self.numbers, Some(x))
            }
            Step::Absolute => {
                let x = pop(&mut self.numbers);
                push_fitting(&mut self.numbers, size(x))
            }
            Step::Combine(operator) => {
                let y = pop(&mut self.numbers);
                let x = pop(&mut self.numbers);
                push_fitting(&mut self.numbers, combine(operator, x, y))
            }
            Step::Compare(operator) => {
                let y = pop(&mut self.numbers);
                let x = pop(&mut self.numbers);
                push(&mut self.truths, compare(operator, x, y));
                true
            }
            Step::Join(operator) => {
                let q = pop(&mut self.truths);
                let p = pop(&mut self.truths);
                push(&mut self.truths, join(operator, p, q));
                true
            }
            Step::Negate => {
                let p = pop(&mut self.truths);
                push(&mut self.truths, !p);
                true
            }
        }
    }
}
