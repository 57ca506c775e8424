ghost use Rattle.std.specs.Prelude.{◌≡◌, ◌≢◌, ◌<◌, ◌≤◌, ℕ, false, Ok, Err, Some, None};
ghost use Rattle.std.specs.Prelude.{if◌then◌else◌, length, slice_index_or, IfSome, IfOk, IfErr};
ghost use Rattle.rel_formula.specs.Batch.{numbers_at};
ghost use Rattle.serde_json.specs.View.{view};
ghost use Rattle.rel_formula.specs.Formula.{is_true, is_too_big};
ghost use Rattle.rel_formula.specs.Reading.{formula_in};
ghost use Rattle.rel_formula.specs.Steps.{truth_steps, formula_of};

use crate::batch::{Batch, Numbers, Truths};
use crate::fault::FormulaFault;
use crate::machine::Stacks;
use crate::reading::Reading;
use crate::step::Step;
use serde_json::Value;
use std::alloc::Global;
use std::marker::Model;

/// A formula, seen as its truth.
///
/// Its parts stand in one list, operands before their operator, so that it is evaluated from left
/// to right.
#[derive(Drop)]
pub struct Formula {
    steps: Vec<Step>,
}

impl Model for Formula {
    ghost use Rattle.rel_formula.specs.Formula.{Truth};
    ghost use Rattle.rel_formula.specs.Codes.{truth_code};

    ghost Value = { Truth };

    ghost coded = { truth_code };

    ghost use Rattle.rel_formula.specs.Inside.{seen, IsSound};

    ghost view = { seen };

    ghost invariant = { IsSound };
}

impl Formula {
    /// The formula that steps evaluate.
    fn of_steps(steps: Vec<Step>) -> Formula
        requires sound { steps.items ≡ truth_steps (formula_of steps.items) }
        requires few { length steps.items ≤ 400 }
        ensures { result ≡ formula_of steps.items }
    {
        Formula { steps }
    }

    /// Its truth at a tuple of shown values, or none where some part leaves 64 bits there.
    pub fn truth_at(&self, tuple: &[i64], stacks: &mut Stacks) -> Option<bool>
        ensures { result ≡ if is_too_big tuple.now self.now then None
            else Some (is_true tuple.now self.now) }
    {
        stacks.end_of(&self.steps, tuple)
    }

    /// Its truth at each tuple of a batch, or none where they have to be evaluated one by one.
    pub(crate) fn truths_at(&self, tuples: &[Numbers], batch: &mut Batch) -> Option<Truths>
        ensures { IfSome result (λ truths. (k : ℕ) → k < 16 →
            (if is_too_big (numbers_at k tuples.now) self.now then None else Some
            (is_true (numbers_at k tuples.now) self.now)) ≡ Some (slice_index_or truths k false)) }
    {
        batch.ends_of(&self.steps, tuples)
    }
}

/// The formula that a JSON value is, over tuples of this arity, or its first fault in the order of
/// the text.
pub fn read_formula(alloc: Global, v: &Value, arity: u8) -> Result<Formula, FormulaFault>
    ensures read { IfOk result (λ f. formula_in arity (view v.now) ≡ Ok f) }
    ensures refused { IfErr result (λ e. e ≢ FormulaFault.Memory →
        formula_in arity (view v.now) ≡ Err e) }
{
    let mut reading = Reading {
        next: 0,
        steps: Vec::new(alloc),
    };
    reading.truth(arity, v, 1)?;
    Ok(Formula::of_steps(reading.steps))
}
