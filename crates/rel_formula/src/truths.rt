// Reading what gives a truth.
ghost use Rattle.std.specs.Prelude.{◌≡◌, ◌≢◌, ◌+◌, ◌-◌, ◌<◌, ◌≤◌, Ok, Err, length, map};
ghost use Rattle.serde_json.specs.View.{view, items_view};
ghost use Rattle.rel_formula.specs.Adding.{ReadsSteps};
ghost use Rattle.rel_formula.specs.Answers.{then_on};
ghost use Rattle.rel_formula.specs.Reading.{read_terms, comparison_of, text_truth, read_truth};
ghost use Rattle.rel_formula.specs.Reading.{read_truth_call, read_truths, connected, negated};
ghost use Rattle.rel_formula.specs.Steps.{truth_steps};

use crate::fault::FormulaFault;
use crate::names::{position_of, truth_operator_in};
use crate::reading::Reading;
use crate::step::{Comparison, Connective, Step, TruthOperator};
use serde_json::Value;

/// Why a text is refused where a truth is wanted.
fn position_fault(arity: u8, text: &str, node: u32) -> FormulaFault
    ensures { text_truth arity node text.now ≡ Err result }
{
    match position_of(arity, text) {
        Some(_) => FormulaFault::BadShape(node),
        None => FormulaFault::BadPosition(node),
    }
}

impl Reading {
    /// A value where a truth is wanted, at this depth; the root's is 1.
    #[cycle(truths)]
    pub fn truth(&mut self, arity: u8, value: &Value, depth: u32) -> Result<(), FormulaFault>
        requires { depth ≤ 33 }
        ensures { ReadsSteps truth_steps (read_truth arity depth self.old.next (view value.now))
            self.old.next self.old self.new result }
    {
        let node = self.enter(depth)?;
        if let Some(text) = value.as_str() {
            return Err(position_fault(arity, text, node));
        }
        match value.as_array() {
            Some(items) => self.truth_call(arity, items, depth, node),
            None => Err(FormulaFault::BadShape(node)),
        }
    }

    /// An array where a truth is wanted: node `node`, which was just begun.
    #[cycle(truths)]
    fn truth_call(
        &mut self,
        arity: u8,
        items: &[Value],
        depth: u32,
        node: u32,
    ) -> Result<(), FormulaFault>
        requires depth { depth ≤ 32 }
        requires begun { self.old.next ≡ node + 1 }
        requires few { node < 200 }
        ensures { ReadsSteps truth_steps (read_truth_call arity depth node (items_view items.now))
            node self.old self.new result }
    {
        let operator = truth_operator_in(items, node)?;
        let operands = &items[1..];
        match operator {
            TruthOperator::Comparison(operator) => self.read_comparison(
                arity,
                operator,
                operands,
                depth + 1,
            ),
            TruthOperator::Connective(operator) => self.read_connective(
                arity,
                operator,
                operands,
                depth + 1,
            ),
            TruthOperator::Not => self.read_negation(arity, operands, depth + 1),
        }
    }

    /// A comparison of two numbers.
    fn read_comparison(
        &mut self,
        arity: u8,
        operator: Comparison,
        operands: &[Value],
        depth: u32,
    ) -> Result<(), FormulaFault>
        requires depth { depth ≤ 33 }
        requires two { length operands.now ≡ 2 }
        ensures { ReadsSteps truth_steps
            (then_on (read_terms arity depth self.old.next (items_view operands.now)) (λ read.
            Ok (comparison_of operator read.0, read.1))) self.old.next self.old self.new result }
    {
        self.term(arity, &operands[0], depth)?;
        self.term(arity, &operands[1], depth)?;
        self.put(Step::Compare(operator))
    }

    /// The opposite of one truth.
    #[cycle(truths)]
    fn read_negation(
        &mut self,
        arity: u8,
        operands: &[Value],
        depth: u32,
    ) -> Result<(), FormulaFault>
        requires depth { depth ≤ 33 }
        requires one { length operands.now ≡ 1 }
        requires begun { 1 ≤ self.old.next }
        ensures { ReadsSteps truth_steps
            (then_on (read_truths arity depth self.old.next (items_view operands.now))
            (λ read. Ok (negated read.0, read.1))) (self.old.next - 1) self.old self.new result }
    {
        self.truth(arity, &operands[0], depth)?;
        self.put(Step::Negate)
    }

    /// What a connective makes of its truths, from the left.
    #[cycle(truths)]
    fn read_connective(
        &mut self,
        arity: u8,
        operator: Connective,
        operands: &[Value],
        depth: u32,
    ) -> Result<(), FormulaFault>
        requires depth { depth ≤ 33 }
        requires some { 1 ≤ length operands.now }
        ensures { ReadsSteps truth_steps
            (then_on (read_truths arity depth self.old.next (items_view operands.now)) (λ read.
            Ok (connected operator read.0, read.1))) self.old.next self.old self.new result }
    {
        self.truth(arity, &operands[0], depth)?;
        for operand in &operands[1..] {
            self.truth(arity, operand, depth)?;
            self.put(Step::Join(operator))?;
        }
        Ok(())
    }
}
