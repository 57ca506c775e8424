//! That the premises of the laws can be met.

ghost use Rattle.std.specs.Prelude.{◌≡◌, List, [], ◌∷◌, false, not};
ghost use Rattle.assign.specs.Sets.{has};
ghost use Rattle.find_scope.specs.Halving.{halve, Got};
ghost use Rattle.find_scope.specs.Laws.{IsTest, IsTrueTo};

/// A test that accepts the sets without 0 is one that the law of the least set speaks of, and so is
/// this reply.
pub fn tests_without_zero()
    ensures test { IsTest (0 ∷ 1 ∷ []) (λ w. not (has w 0)) }
    ensures true_to { IsTrueTo (0 ∷ 1 ∷ []) (false ∷ []) (λ w. not (has w 0)) }
    ensures got { halve (0 ∷ 1 ∷ []) (false ∷ []) ≡ Got (0 ∷ []) [] }
{}
