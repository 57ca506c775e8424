//! Laws of the definitions, as contracts of functions that do nothing.

ghost use Rattle.net_cnf.specs.Laws.{ClausesEncode, EachModelIsReadOrRefused, LiteralsAreRead};
ghost use Rattle.net_cnf.specs.Laws.{ReadsModels, ReadModelIsNotRefused};

/// The models of a network's clauses are its solutions: a complete assignment is accepted exactly
/// where its Booleans satisfy the clauses, and truth values that satisfy them are those of exactly
/// one complete assignment.
pub fn clauses_encode()
    ensures { ClausesEncode }
{}

/// A token of a model is a literal exactly where it is the text of one in the clauses.
pub fn literals_are_read()
    ensures { LiteralsAreRead }
{}

/// The bytes from which a solution is read are those that are a model of it.
pub fn reads_models()
    ensures { ReadsModels }
{}

/// No bytes are a model of a solution and are refused.
pub fn read_is_not_refused()
    ensures { ReadModelIsNotRefused }
{}

/// Each list of bytes is a model of a solution, or is refused, and not for want of memory.
pub fn each_is_read_or_refused()
    ensures { EachModelIsReadOrRefused }
{}
