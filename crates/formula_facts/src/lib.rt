//! What the definitions of formulas come to for a few of them, worked out by hand and computed by
//! the checker. Nothing runs here.
#![tactic(auto)]

ghost use Rattle.std.specs.Prelude.{◌≡◌, pos, Some, Ok, Err, true, false, ◌∷◌, [], codes};
ghost use Rattle.serde_json.specs.Data.{array, string, number, unsigned, item, no_items};
ghost use Rattle.rel_formula.specs.Formula.{compared, combined, opposite, whole, shown};
ghost use Rattle.rel_formula.specs.Formula.{relation_from_formula, first_too_big};
ghost use Rattle.rel_formula.specs.Reading.{formula_in};
ghost use Rattle.rel_formula.specs.declared.fault.FormulaFault.TheVariants.{BadShape, BadPosition};
ghost use Rattle.rel_formula.specs.declared.step.Arithmetic.TheVariants.{Product, Sum};
ghost use Rattle.rel_formula.specs.declared.step.Comparison.TheVariants.{Below, Equal};

/// What the definitions say of a few formulas, computed by the checker.
pub fn definitions()
    ensures order { relation_from_formula (compared Below (shown 0) (shown 1)) 2 (pos 1) 3 ≡ false
        ∷ true ∷ true ∷ false ∷ false ∷ true ∷ false ∷ false ∷ false ∷ [] }
    ensures sum { first_too_big (compared Equal (combined Product (whole (pos 9223372036854775807))
        (combined Sum (shown 0) (shown 1))) (whole (pos 0))) 2 (pos 0) 2 ≡ Some 3 }
    ensures partial { first_too_big (compared Equal (combined Product (combined Product
        (whole (pos 9223372036854775807)) (whole (pos 2))) (whole (pos 0))) (whole (pos 0))) 2
        (pos 0) 2 ≡ Some 0 }
    ensures read { formula_in 2 (array (item (string (codes "not")) (item (array (item
        (string (codes "=")) (item (string (codes "$0")) (item (string (codes "$1")) no_items))))
        no_items))) ≡ Ok (opposite (compared Equal (shown 0) (shown 1))) }
    ensures position { formula_in 2 (array (item (string (codes "="))
        (item (string (codes "$0")) (item (string (codes "$2")) no_items)))) ≡ Err (BadPosition 2) }
    ensures kind { formula_in 2 (array (item (string (codes "+"))
        (item (number (unsigned 1)) (item (number (unsigned 2)) no_items)))) ≡ Err (BadShape 0) }
{}
