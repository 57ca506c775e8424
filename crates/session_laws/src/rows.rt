//! Worked sessions, which the definitions compute. Values are counted from 0.

ghost use Rattle.std.specs.Prelude.{◌≡◌, List, [], ◌∷◌, true, false, Some, None};
ghost use Rattle.assign.specs.declared.events.Plan.TheVariants.{Multi, Quacq, Scopes};
ghost use Rattle.language.specs.Language.{candidates};
ghost use Rattle.session_laws.specs.Walk.{Ended};
ghost use Rattle.session_laws.specs.Session.{state_after, open_question, scope_question, At, Idle};
ghost use Rattle.session_laws.specs.Session.{Choosing, Over, Stray, Walking};
ghost use Rattle.session_laws.specs.Examples.{equal_or_not, first_is_one, orders, three_equal};
ghost use Rattle.session_laws.specs.Examples.{three_different, large, thirteen_noes, untrue, pair};
ghost use Rattle.session_laws.specs.Examples.{triple, says};

/// Scope by scope: no to 0 and 0, yes to 0 and 1. `ne a b` is learned. The second question comes no
/// earlier.
pub fn learns_scope_by_scope()
    ensures first { scope_question equal_or_not (candidates equal_or_not) [] ≡ Some (pair 0 0) }
    ensures second { state_after equal_or_not Scopes (says (pair 0 0) false ∷ [])
        ≡ At (Choosing 0 (Some 1 ∷ Some 2 ∷ []) [] None) }
    ensures last { state_after equal_or_not Scopes (says (pair 0 0) false ∷ says (pair 0 1) true
        ∷ []) ≡ At (Idle (record { scope = 0; rel = 1 } ∷ []) None) }
    ensures stray { state_after equal_or_not Scopes (says (pair 0 1) false ∷ []) ≡ Stray 1 }
{}

/// Yes to 0 and 1, no to 0 and 0: `ne a b` is learned, and the halving asks nothing.
pub fn learns_from_whole_examples()
    ensures { state_after equal_or_not Quacq (says (pair 0 1) true ∷ says (pair 0 0) false ∷ [])
        ≡ At (Idle (record { scope = 0; rel = 1 } ∷ []) None) }
{}

/// Untrue answers: the halving ends on all three variables, which are no scope.
pub fn collapses()
    ensures { state_after three_equal Quacq untrue ≡ At (Over []) }
{}

/// No, no and yes: the relation learned is an intersection of two that were given.
pub fn learns_an_intersection()
    ensures { state_after orders Quacq (says (pair 1 0) false ∷ says (pair 0 0) false
        ∷ says (pair 0 1) true ∷ []) ≡ At (Idle (record { scope = 0; rel = 4 } ∷ []) None) }
{}

/// The first variable is always 1, and an example with another value there has no place. Of the
/// relations on the scope the one is learned that asks for 1 beside it.
pub fn learns_within_a_range()
    ensures outside { state_after first_is_one Quacq (says (pair 1 0) false ∷ []) ≡ Stray 1 }
    ensures last { state_after first_is_one Quacq (says (pair 0 1) false ∷ says (pair 0 0) true
        ∷ []) ≡ At (Idle (record { scope = 0; rel = 1 } ∷ []) None) }
{}

/// Two of three pairs are to differ: each is learned from an example of its own.
pub fn learns_one_from_each()
    ensures { state_after three_different Quacq (says (triple 0 0 0) false
        ∷ says (Some 0 ∷ Some 0 ∷ None ∷ []) false ∷ says (triple 0 1 0) true
        ∷ says (triple 1 0 0) false ∷ says (None ∷ Some 0 ∷ Some 0 ∷ []) false ∷ [])
        ≡ At (Idle (record { scope = 0; rel = 0 } ∷ record { scope = 2; rel = 0 } ∷ []) None) }
{}

/// The same two from one example, by a walk of it.
pub fn learns_two_from_one()
    ensures third { state_after three_different Multi
        (says (triple 0 0 0) false ∷ says (Some 0 ∷ Some 0 ∷ None ∷ []) false ∷ []) ≡ At (Walking (1
        ∷ 2 ∷ []) (record { example = triple 0 0 0; waiting = (0 ∷ 2 ∷ []) ∷ []; left = 4093 })
        (record { scope = 0; rel = 0 } ∷ [])) }
    ensures asked { open_question three_different (Walking (1 ∷ 2
        ∷ []) (record { example = triple 0 0 0; waiting = (0 ∷ 2 ∷ []) ∷ []; left = 4093 })
        (record { scope = 0; rel = 0 } ∷ [])) ≡ Some (None ∷ Some 0 ∷ Some 0 ∷ []) }
    ensures last { state_after three_different Multi (says (triple 0 0 0) false
        ∷ says (Some 0 ∷ Some 0 ∷ None ∷ []) false ∷ says (None ∷ Some 0 ∷ Some 0 ∷ []) false
        ∷ says (Some 0 ∷ None ∷ Some 0 ∷ []) true ∷ []) ≡ At (Idle (record { scope = 0; rel = 0 }
        ∷ record { scope = 2; rel = 0 } ∷ []) (Some (Ended (triple 0 0 0)))) }
{}

/// 128 variables, thirteen times no: the scope of the first and the last is found.
pub fn learns_among_many()
    ensures { state_after large Quacq thirteen_noes
        ≡ At (Idle (record { scope = 0; rel = 0 } ∷ []) None) }
{}
