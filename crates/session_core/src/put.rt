//! What a question that is put belongs to.

ghost use Rattle.std.specs.Prelude.{◌≡◌, true};
ghost use Rattle.session_core.specs.Putting.{is_tuple, IsTupleOf};

use assign::{Partial, VarSet};
use find_c::RelRun;
use find_scope::ScopeRun;
use std::mem;

/// What is put.
#[derive(Drop)]
pub enum Put {
    /// A whole example, which is new.
    Example(Partial),
    /// A part of an example, which a walk has come to.
    OnWalk {
        example: Partial,
        set: VarSet,
    },
    /// A part of an example, where a set of its variables is halved.
    Part {
        example: Partial,
        set: VarSet,
        run: ScopeRun,
    },
    /// A tuple on a scope, which is new.
    FirstTuple(RelRun),
    /// A further tuple on a scope.
    Tuple(RelRun),
}

impl Put {
    /// What stands in the place of a question while none is put.
    pub(crate) fn blank() -> Put {
        Put::Example(Partial::blank(1))
    }

    /// Takes the run of the tuple that is put. What it leaves means nothing.
    pub(crate) fn take_run(&mut self) -> RelRun
        requires { is_tuple self.old ≡ true }
        ensures { IsTupleOf result self.old }
    {
        match self {
            Put::FirstTuple(run) | Put::Tuple(run) => mem::replace(run, RelRun::blank()),
            Put::Example(_) | Put::OnWalk { .. } | Put::Part { .. } => unreachable!(),
        }
    }

    /// Puts a further tuple. Behind another it is written in its place: anew, all of a put would be
    /// written.
    pub(crate) fn put_tuple(&mut self, run: RelRun)
        ensures { self.new ≡ Put.Tuple run }
    {
        match self {
            Put::Tuple(place) => *place = run,
            Put::FirstTuple(_) | Put::Example(_) | Put::OnWalk { .. } | Put::Part { .. } => {
                self.put_anew(run);
            }
        }
    }

    fn put_anew(&mut self, run: RelRun)
        ensures { self.new ≡ Put.Tuple run }
    {
        *self = Put::Tuple(run);
    }
}
