/// An operator that makes a whole number of two.
#[derive(Clone, Copy, Debug, PartialEq, Eq)]
pub enum Arithmetic {
    Sum,
    Difference,
    Product,
    Least,
    Greatest,
}

/// An operator that makes a truth of two whole numbers.
#[derive(Clone, Copy, Debug, PartialEq, Eq)]
pub enum Comparison {
    Equal,
    Different,
    Below,
    AtMost,
    Above,
    AtLeast,
}

/// An operator that makes a truth of two truths.
#[derive(Clone, Copy, Debug, PartialEq, Eq)]
pub enum Connective {
    And,
    Or,
}

/// An operator of a JSON text that gives a whole number.
#[derive(Clone, Copy, Debug, PartialEq, Eq)]
pub enum TermOperator {
    Arithmetic(Arithmetic),
    Absolute,
}

/// An operator of a JSON text that gives a truth.
#[derive(Clone, Copy, Debug, PartialEq, Eq)]
pub enum TruthOperator {
    Comparison(Comparison),
    Connective(Connective),
    Not,
}

/// An operator of a JSON text.
#[derive(Clone, Copy, Debug, PartialEq, Eq)]
pub enum Operator {
    Term(TermOperator),
    Truth(TruthOperator),
}

/// One step of a formula's evaluation. It puts a number or a truth on its stack, in place of those
/// that it takes.
#[derive(Clone, Copy, Debug, PartialEq, Eq)]
pub enum Step {
    /// Puts this number.
    Whole(i64),
    /// Puts the shown value of the tuple at this position.
    Shown(usize),
    /// Puts the absolute value of one number.
    Absolute,
    /// Puts what the operator makes of two numbers.
    Combine(Arithmetic),
    /// Puts the truth of a comparison of two numbers.
    Compare(Comparison),
    /// Puts what the operator makes of two truths.
    Join(Connective),
    /// Puts the opposite of one truth.
    Negate,
}
