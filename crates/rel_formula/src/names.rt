// The names of positions and operators in a JSON value.
ghost use Rattle.std.specs.Prelude.{◌≡◌, ◌≤◌, length, pos};
ghost use Rattle.serde_json.specs.View.{view, items_view};
ghost use Rattle.rel_formula.specs.Names.{positions, position_of, named, term_operators};
ghost use Rattle.rel_formula.specs.Names.{truth_operators, operator_of, operator_in, term_takes};
ghost use Rattle.rel_formula.specs.Names.{truth_takes, as_term_operator, as_truth_operator};
ghost use Rattle.rel_formula.specs.Names.{term_operator_in, truth_operator_in};

use crate::fault::FormulaFault;
use crate::step::{Arithmetic, Comparison, Connective, Operator, TermOperator, TruthOperator};
use serde_json::Value;

fn position_named(text: &str) -> Option<usize>
    ensures { result ≡ named positions text.now }
{
    match text {
        "$0" => Some(0),
        "$1" => Some(1),
        "$2" => Some(2),
        "$3" => Some(3),
        _ => None,
    }
}

/// The position below the arity that a text names.
pub fn position_of(arity: u8, text: &str) -> Option<usize>
    ensures { result ≡ position_of arity text.now }
{
    match position_named(text) {
        Some(at) if at < usize::from(arity) => Some(at),
        _ => None,
    }
}

fn term_operator_of(text: &str) -> Option<TermOperator>
    ensures { result ≡ named term_operators text.now }
{
    match text {
        "+" => Some(TermOperator::Arithmetic(Arithmetic::Sum)),
        "-" => Some(TermOperator::Arithmetic(Arithmetic::Difference)),
        "*" => Some(TermOperator::Arithmetic(Arithmetic::Product)),
        "min" => Some(TermOperator::Arithmetic(Arithmetic::Least)),
        "max" => Some(TermOperator::Arithmetic(Arithmetic::Greatest)),
        "abs" => Some(TermOperator::Absolute),
        _ => None,
    }
}

fn truth_operator_of(text: &str) -> Option<TruthOperator>
    ensures { result ≡ named truth_operators text.now }
{
    match text {
        "=" => Some(TruthOperator::Comparison(Comparison::Equal)),
        "!=" => Some(TruthOperator::Comparison(Comparison::Different)),
        "<" => Some(TruthOperator::Comparison(Comparison::Below)),
        "<=" => Some(TruthOperator::Comparison(Comparison::AtMost)),
        ">" => Some(TruthOperator::Comparison(Comparison::Above)),
        ">=" => Some(TruthOperator::Comparison(Comparison::AtLeast)),
        "and" => Some(TruthOperator::Connective(Connective::And)),
        "or" => Some(TruthOperator::Connective(Connective::Or)),
        "not" => Some(TruthOperator::Not),
        _ => None,
    }
}

/// The operator that a text names.
fn operator_of(text: &str) -> Option<Operator>
    ensures { result ≡ operator_of text.now }
{
    match term_operator_of(text) {
        Some(operator) => Some(Operator::Term(operator)),
        None => truth_operator_of(text).map(Operator::Truth),
    }
}

/// Whether an operator takes so many operands.
fn term_takes(operator: TermOperator, count: usize) -> bool
    ensures { result ≡ term_takes operator count }
{
    match operator {
        TermOperator::Arithmetic(Arithmetic::Difference) => count == 2,
        TermOperator::Arithmetic(_) => 2 <= count,
        TermOperator::Absolute => count == 1,
    }
}

fn truth_takes(operator: TruthOperator, count: usize) -> bool
    ensures { result ≡ truth_takes operator count }
{
    match operator {
        TruthOperator::Comparison(_) => count == 2,
        TruthOperator::Connective(_) => 2 <= count,
        TruthOperator::Not => count == 1,
    }
}

/// The operator of an array, its first member.
fn operator_in(items: &[Value], node: u32) -> Result<Operator, FormulaFault>
    ensures { result ≡ operator_in node (items_view items.now) }
{
    let head = items.first().ok_or(FormulaFault::BadShape(node))?;
    let text = head.as_str().ok_or(FormulaFault::BadShape(node))?;
    operator_of(text).ok_or(FormulaFault::BadOperator(node))
}

/// The operator, where it gives a number and takes so many operands.
fn as_term_operator(
    operator: Operator,
    count: usize,
    node: u32,
) -> Result<TermOperator, FormulaFault>
    ensures { result ≡ as_term_operator node count operator }
{
    match operator {
        Operator::Term(operator) if term_takes(operator, count) => Ok(operator),
        _ => Err(FormulaFault::BadShape(node)),
    }
}

/// The operator, where it gives a truth and takes so many operands.
fn as_truth_operator(
    operator: Operator,
    count: usize,
    node: u32,
) -> Result<TruthOperator, FormulaFault>
    ensures { result ≡ as_truth_operator node count operator }
{
    match operator {
        Operator::Truth(operator) if truth_takes(operator, count) => Ok(operator),
        _ => Err(FormulaFault::BadShape(node)),
    }
}

/// The operator of an array that is to give a number, where it takes as many operands as follow it.
pub fn term_operator_in(items: &[Value], node: u32) -> Result<TermOperator, FormulaFault>
    ensures { result ≡ term_operator_in node (items_view items.now) }
{
    let operator = operator_in(items, node)?;
    as_term_operator(operator, items.len() - 1, node)
}

/// The operator of an array that is to give a truth, where it takes as many operands as follow it.
pub fn truth_operator_in(items: &[Value], node: u32) -> Result<TruthOperator, FormulaFault>
    ensures { result ≡ truth_operator_in node (items_view items.now) }
{
    let operator = operator_in(items, node)?;
    as_truth_operator(operator, items.len() - 1, node)
}
