//! The premises of the laws can be met.

ghost use Rattle.std.specs.Prelude.{List, [], ◌∷◌, true, false};
ghost use Rattle.language.specs.Language.{IsLanguage};
ghost use Rattle.language.specs.Answers.{IsConverged, NoneAgrees};
ghost use Rattle.session_laws.specs.Examples.{equal_or_not, three_equal, untrue, pair, says};

/// `eq`, `ne` and `none` over two variables of two values are a language, and the answers no and
/// yes of plan Scopes converge on `ne a b`.
pub fn scopes_converge()
    ensures language { IsLanguage equal_or_not }
    ensures converged { IsConverged equal_or_not
        (record { scope = 0; rel = 1 } ∷ []) (says (pair 0 0) false ∷ says (pair 0 1) true ∷ []) }
{}

/// So do the answers yes and no of plan Quacq: nothing else is kept that could be asked about.
pub fn examples_converge()
    ensures { IsConverged equal_or_not
        (record { scope = 0; rel = 1 } ∷ []) (says (pair 0 1) true ∷ says (pair 0 0) false ∷ []) }
{}

/// `eq` over three variables is a language, and no network gives the untrue answers.
pub fn nothing_agrees()
    ensures language { IsLanguage three_equal }
    ensures none { NoneAgrees three_equal untrue }
{}
