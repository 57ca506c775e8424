// Reading what gives a number.
ghost use Rattle.std.specs.Prelude.{◌≡◌, ◌≢◌, ◌+◌, ◌-◌, ◌<◌, ◌≤◌, Ok, Err, length, map};
ghost use Rattle.serde_json.specs.View.{view, items_view};
ghost use Rattle.rel_formula.specs.Adding.{ReadsSteps};
ghost use Rattle.rel_formula.specs.Answers.{then_on};
ghost use Rattle.rel_formula.specs.Reading.{read_term, read_term_call, read_terms, applied};
ghost use Rattle.rel_formula.specs.Reading.{text_term};
ghost use Rattle.rel_formula.specs.Steps.{term_steps};

use crate::fault::FormulaFault;
use crate::names::{position_of, term_operator_in};
use crate::reading::Reading;
use crate::step::{Arithmetic, Step, TermOperator};
use serde_json::Value;

impl Reading {
    /// A text where a number is wanted: node `node`, which was just begun.
    fn position(&mut self, arity: u8, text: &str, node: u32) -> Result<(), FormulaFault>
        requires begun { self.old.next ≡ node + 1 }
        requires few { node < 200 }
        ensures { ReadsSteps term_steps
            (text_term arity node text.now) node self.old self.new result }
    {
        let at = position_of(arity, text).ok_or(FormulaFault::BadPosition(node))?;
        self.put(Step::Shown(at))
    }

    /// A value where a number is wanted, at this depth; the root's is 1.
    #[cycle(terms)]
    pub fn term(&mut self, arity: u8, value: &Value, depth: u32) -> Result<(), FormulaFault>
        requires { depth ≤ 33 }
        ensures { ReadsSteps term_steps (read_term arity depth self.old.next (view value.now))
            self.old.next self.old self.new result }
    {
        let node = self.enter(depth)?;
        if let Some(x) = value.as_i64() {
            return self.put(Step::Whole(x));
        }
        if let Some(text) = value.as_str() {
            return self.position(arity, text, node);
        }
        match value.as_array() {
            Some(items) => self.term_call(arity, items, depth, node),
            None => Err(FormulaFault::BadShape(node)),
        }
    }

    /// An array where a number is wanted: node `node`, which was just begun.
    #[cycle(terms)]
    fn term_call(
        &mut self,
        arity: u8,
        items: &[Value],
        depth: u32,
        node: u32,
    ) -> Result<(), FormulaFault>
        requires depth { depth ≤ 32 }
        requires begun { self.old.next ≡ node + 1 }
        requires few { node < 200 }
        ensures { ReadsSteps term_steps
            (read_term_call arity depth node (items_view items.now)) node self.old self.new result }
    {
        let operator = term_operator_in(items, node)?;
        let operands = &items[1..];
        match operator {
            TermOperator::Arithmetic(operator) => self.read_arithmetic(
                arity,
                operator,
                operands,
                depth + 1,
            ),
            TermOperator::Absolute => self.absolute(arity, operands, depth + 1),
        }
    }

    /// The absolute value of one operand.
    #[cycle(terms)]
    fn absolute(&mut self, arity: u8, operands: &[Value], depth: u32) -> Result<(), FormulaFault>
        requires depth { depth ≤ 33 }
        requires one { length operands.now ≡ 1 }
        requires begun { 1 ≤ self.old.next }
        ensures { ReadsSteps term_steps (then_on (read_terms arity depth self.old.next
            (items_view operands.now)) (λ read. Ok (applied TermOperator.Absolute read.0, read.1)))
            (self.old.next - 1) self.old self.new result }
    {
        self.term(arity, &operands[0], depth)?;
        self.put(Step::Absolute)
    }

    /// What an operator makes of its operands, from the left.
    #[cycle(terms)]
    fn read_arithmetic(
        &mut self,
        arity: u8,
        operator: Arithmetic,
        operands: &[Value],
        depth: u32,
    ) -> Result<(), FormulaFault>
        requires depth { depth ≤ 33 }
        requires some { 1 ≤ length operands.now }
        ensures { ReadsSteps term_steps (then_on (read_terms arity depth self.old.next (items_view
            operands.now)) (λ read. Ok (applied (TermOperator.Arithmetic operator) read.0, read.1)))
            self.old.next self.old self.new result }
    {
        self.term(arity, &operands[0], depth)?;
        for operand in &operands[1..] {
            self.term(arity, operand, depth)?;
            self.put(Step::Combine(operator))?;
        }
        Ok(())
    }
}
