use assign::Partial;
use std::marker::Model;

/// A question with its answer.
#[derive(Clone, Copy, Debug, PartialEq, Eq)]
pub struct Entry {
    pub question: Partial,
    pub yes: bool,
}

impl Model for Entry {
    ghost use Rattle.std.specs.Prelude.{refl};
    ghost use Rattle.assign.specs.Events.{Answer};

    ghost Value = { Answer };

    ghost view = { λ a. record { question = a.question; yes = a.yes } };

    ghost invariant = { λ a. Unit {0} };

    ghost inverse = { λ a. record { question = a.question; yes = a.yes } };

    ghost inverse_ok = { λ a h. refl };
}
