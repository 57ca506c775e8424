// Reading a JSON value into steps, node after node.
ghost use Rattle.std.specs.Prelude.{◌≡◌, ◌≢◌, ◌+◌, ◌*◌, ◌<◌, ◌≤◌, ◌++◌, ◌∷◌, [], List, Some, None};
ghost use Rattle.std.specs.Prelude.{Err, length, IfOk, IfErr, OnOk, OnErr};
ghost use Rattle.rel_formula.specs.Reading.{limit_refusal};

use crate::fault::FormulaFault;
use crate::step::Step;

/// How far a reading has come.
#[derive(Drop)]
pub struct Reading {
    /// The number of the node that comes next.
    pub next: u32,
    /// The steps of what was read.
    pub steps: Vec<Step>,
}

impl Reading {
    /// Begins the next node, and says its number.
    pub fn enter(&mut self, depth: u32) -> Result<u32, FormulaFault>
        ensures node { IfOk result (λ node. node ≡ self.old.next) }
        ensures next { IfOk result (λ node. self.new.next ≡ node + 1) }
        ensures steps { self.new.steps.items ≡ self.old.steps.items }
        ensures taken { OnOk result (limit_refusal self.old.next depth ≡ None) }
        ensures few { IfOk result (λ node. node < 200) }
        ensures shallow { OnOk result (depth < 33) }
        ensures refused { IfErr result (λ e. limit_refusal self.old.next depth ≡ Some e) }
    {
        let node = self.next;
        if node >= 200 {
            return Err(FormulaFault::TooManyNodes);
        }
        if depth >= 33 {
            return Err(FormulaFault::TooDeep);
        }
        self.next = node + 1;
        Ok(node)
    }

    /// Adds a step.
    pub fn put(&mut self, step: Step) -> Result<(), FormulaFault>
        ensures steps { OnOk result (self.new.steps.items ≡ self.old.steps.items ++ step ∷ []) }
        ensures next { self.new.next ≡ self.old.next }
        ensures memory { IfErr result (λ e. e ≡ FormulaFault.Memory) }
    {
        self.steps.push(step)?;
        Ok(())
    }
}
