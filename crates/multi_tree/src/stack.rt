//! The sets that wait in a walk, in room that is taken once.

ghost use Rattle.std.specs.Prelude.{◌≡◌, ◌<◌, ◌≤◌, ◌++◌, ◌∷◌, ◌↔◌, IsTrue, true, [], length, All};
ghost use Rattle.std.specs.Prelude.{IfOk, IfSome, IfNone};
ghost use Rattle.assign.specs.Sets.{has, IsSet};
ghost use Rattle.session_laws.specs.Walk.{parts_without};
ghost use Rattle.multi_tree.specs.Depth.{FitsOn};

use assign::VarSet;
use language::Memory;
use std::alloc::Global;
use std::marker::Model;

/// How many sets there is room for.
const PLACES: usize = 1024;

/// Sets, the latest on top.
#[derive(Drop)]
pub struct Stack {
    /// The lowest set first.
    sets: Vec<VarSet>,
}

impl Model for Stack {
    ghost use Rattle.std.specs.Prelude.{ℕ, List};

    ghost Value = { List (List ℕ) };

    ghost use Rattle.multi_tree.specs.Inside.{sets_of, StackHasRoom};

    ghost view = { sets_of };

    ghost invariant = { StackHasRoom };
}

impl Stack {
    /// No set yet, and the room for all that will ever wait.
    pub fn make(alloc: Global) -> Result<Stack, Memory>
        ensures { IfOk result (λ stack. stack ≡ []) }
    {
        let sets = Vec::with_capacity(alloc, PLACES)?;
        Ok(Stack { sets })
    }

    /// Whether no set waits.
    pub fn is_empty(&self) -> bool
        ensures { IsTrue result ↔ (self.now ≡ []) }
    {
        self.sets.is_empty()
    }

    /// How many sets wait.
    pub fn len(&self) -> usize
        ensures count { result ≡ length self.now }
        ensures few { length self.now ≤ 385 }
    {
        self.sets.len()
    }

    /// Takes all sets away. The room stays.
    pub fn clear(&mut self)
        ensures { self.new ≡ [] }
    {
        self.sets.clear();
    }

    /// Puts a set on top.
    pub fn push(&mut self, set: VarSet)
        requires { FitsOn set self.old }
        ensures { self.new ≡ set ∷ self.old }
    {
        self.sets.push(set).unwrap();
    }

    /// Takes the top set.
    pub fn pop(&mut self) -> Option<VarSet>
        ensures top { IfSome result (λ set. self.old ≡ set ∷ self.new) }
        ensures room { IfSome result (λ set. FitsOn set self.new) }
        ensures empty { IfNone result (self.old ≡ []) }
        ensures still { IfNone result (self.new ≡ []) }
    {
        self.sets.pop()
    }

    /// Puts a set without each variable of a scope in turn: without the first on top.
    pub fn push_parts(&mut self, set: VarSet, scope: &[u8])
        requires room { FitsOn set self.old }
        requires set { IsSet set }
        requires short { length scope.now ≤ 4 }
        requires within { All (λ v. has set v ≡ true) scope.now }
        requires known { All (λ v. v < 128) scope.now }
        ensures { self.new ≡ parts_without set scope.now ++ self.old }
    {
        for i in 0..scope.len() {
            self.push(set.without(scope[scope.len() - 1 - i]));
        }
    }
}
