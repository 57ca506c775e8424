ghost use Rattle.std.specs.Prelude.{◌≡◌};
ghost use Rattle.session_core.specs.Putting.{IsPut, IsPut-prop, question_put};

use crate::knowledge::Knowledge;
use crate::put::Put;

/// No question is open.
#[derive(Drop)]
pub struct Idle {
    pub(crate) knowledge: Box<Knowledge>,
    /// The place of the next question. What it holds means nothing.
    pub(crate) room: Box<Put>,
}

/// A question is open.
#[derive(Drop)]
pub struct Asking {
    pub(crate) knowledge: Box<Knowledge>,
    /// The question, and what its answer goes on with.
    pub(crate) put: Box<Put>,
    ghost sound: { IsPut knowledge.value put.value } by { IsPut-prop knowledge.value put.value },
    ghost asked: { knowledge.value.question ≡ question_put knowledge.value.lang put.value },
}

/// No network of candidates agrees with the answers.
#[derive(Drop)]
pub struct Collapsed {
    pub(crate) knowledge: Box<Knowledge>,
    /// The place of a question, for the session that begins again.
    pub(crate) room: Box<Put>,
}

/// A session, in one of its three kinds. What it knows and what it asks stay where they are as it
/// moves on: both are large.
#[derive(Drop)]
pub enum Session {
    Idle(Idle),
    Asking(Asking),
    Over(Collapsed),
}
