//! What is known before searches of candidates that hold, whichever one doesn't.

ghost use Rattle.std.specs.Prelude.{◌≡◌, ◌<◌, ◌≤◌, ◌+◌, ◌++◌, ◌∷◌, [], true, false, IfOk, IfSome};
ghost use Rattle.std.specs.Prelude.{None, length, take, List};
ghost use Rattle.language.specs.declared.candidates.Candidate.{Candidate};
ghost use Rattle.language.specs.Language.{IsLanguage, IsCandidate};
ghost use Rattle.language.specs.Answers.{IsNetwork};
ghost use Rattle.propagators.specs.Allowed.{AreConstraints};
ghost use Rattle.propagators.specs.Families.{conditions};
ghost use Rattle.propagators.specs.Plans.{IsPlanOf};
ghost use Rattle.propagators.specs.Propagated.{IsPropagated, RunsEmpty};
ghost use Rattle.propagators.specs.Indexes.{all_values, list_in, IsRoot, IsRootBefore, IsIndexOf};

use crate::arranging::copy_front;
use crate::constraints::Constraints;
use crate::domains::Domains;
use crate::index::Index;
use crate::plan::Plan;
use crate::revising::Alive;
use crate::visits::{propagate_after, propagate_all};
use assign::VarSet;
use language::{Candidate, Language, Memory};
use std::alloc::Global;

/// Whether a list begins with another one.
fn begins_with(list: &[Candidate], front: &[Candidate]) -> bool
    ensures { result ≡ true → take (length front.now) list.now ≡ front.now }
{
    if list.len() < front.len() {
        return false;
    }
    for i in 0..front.len() {
        if list[i] != front[i] {
            return false;
        }
    }
    true
}

/// Whether each variable has a value left.
fn is_yes(alive: Alive) -> bool
    ensures yes { result ≡ true → alive ≡ Alive.Yes }
    ensures no { result ≡ false → alive ≡ Alive.No }
{
    match alive {
        Alive::Yes => true,
        Alive::No => false,
    }
}

/// What a condition more leaves to the variables, of which it is known what the others leave. Says
/// whether each has a value left.
fn leave_more(
    cons: &Constraints,
    plan: &Plan,
    root: &mut Domains,
    was_alive: bool,
    changed: VarSet,
) -> bool
    requires lawful { IsLanguage cons.now.lang.now }
    requires constraints { AreConstraints cons.now.lang.now cons.now.list.now cons.now.against }
    requires plan { IsPlanOf cons.now.lang.now (conditions cons.now) plan.now }
    requires before { IsRootBefore cons.now.lang.now
        (conditions cons.now) changed root.old was_alive }
    ensures { IsRoot cons.now.lang.now (conditions cons.now) root.new result }
{
    if !was_alive {
        return false;
    }
    is_yes(propagate_after(cons, plan, root, changed))
}

impl Index {
    /// The index of no candidates, with room for as many as there are scopes: some 32 bytes for
    /// each. `Memory` where there is none.
    pub fn new(alloc: Global, lang: &Language) -> Result<Index, Memory>
        ensures { IfOk result (IsIndexOf lang.now) }
    {
        let room = lang.scopes() as usize;
        let Ok(list) = vec![in alloc; Candidate { scope: 0, rel: 0 }; room] else {
            return Err(Memory);
        };
        match Plan::new(alloc, room + 1) {
            Ok(plan) => {
                let mut index = Index {
                    list,
                    size: 0,
                    plan,
                    root: Domains::full(lang),
                    is_alive: true,
                };
                index.restart(lang, &[]);
                Ok(index)
            }
            Err(_) => Err(Memory),
        }
    }

    /// Whether it is the index of this list.
    fn is_of(&self, list: &[Candidate]) -> bool
        ensures { result ≡ true → list_in self.now ≡ list.now }
    {
        list.len() == self.size && begins_with(list, &self.list[..self.size])
    }

    /// Makes it the index of a list for which there is room.
    fn restart(&mut self, lang: &Language, list: &[Candidate])
        requires lawful { IsLanguage lang.now }
        requires known { IsNetwork lang.now list.now }
        requires room { length list.now ≤ length self.old.list.items }
        ensures { IsIndexOf lang.now self.new }
    {
        let cons = Constraints {
            lang,
            list,
            against: None,
        };
        self.plan.arrange(&cons);
        copy_front(&mut self.list, list, list.len());
        self.size = list.len();
        self.root = Domains::full(lang);
        self.is_alive = is_yes(propagate_all(&cons, &self.plan, &mut self.root));
    }

    /// Takes in the candidate that stands behind its own ones in a list for which there is room.
    fn add(&mut self, lang: &Language, list: &[Candidate])
        requires lawful { IsLanguage lang.now }
        requires known { IsNetwork lang.now list.now }
        requires index { IsIndexOf lang.now self.old }
        requires front { take self.old.size list.now ≡ list_in self.old }
        requires one { length list.now ≡ self.old.size + 1 }
        requires room { length list.now ≤ length self.old.list.items }
        requires plan_room { length list.now ≤ length self.old.plan.briefs.items }
        ensures index { IsIndexOf lang.now self.new }
        ensures list { list_in self.new ≡ list.now }
        ensures size { self.new.size ≡ self.old.size + 1 }
        ensures room { length self.new.list.items ≡ length self.old.list.items }
        ensures plan_room { length self.new.plan.briefs.items ≡ length self.old.plan.briefs.items }
    {
        let cons = Constraints {
            lang,
            list,
            against: None,
        };
        let last = lang.scope_set(list[self.size].scope);
        self.plan.extend(&cons, self.size);
        copy_front(&mut self.list, list, list.len());
        self.size += 1;
        self.is_alive = leave_more(&cons, &self.plan, &mut self.root, self.is_alive, last);
    }

    /// Brings it up to a list of candidates, where there is room for them. Where its own ones stand
    /// at the front, the others are taken in one by one.
    pub fn follow(&mut self, lang: &Language, list: &[Candidate])
        requires known { IsNetwork lang.now list.now }
        requires index { IsIndexOf lang.now self.old }
        ensures { IsIndexOf lang.now self.new }
    {
        let _variables = lang.n();
        if list.len() > self.list.len() || list.len() > self.plan.briefs.len() {
            return;
        }
        if !begins_with(list, &self.list[..self.size]) {
            self.restart(lang, list);
            return;
        }
        for end in self.size..list.len() {
            self.add(lang, &list[..end + 1]);
        }
    }

    /// Makes a plan one of these conditions, and gives what they leave to the variables: `None`
    /// where that is nothing for some variable.
    pub fn begin(&self, cons: &Constraints, plan: &mut Plan) -> Option<Domains>
        requires lawful { IsLanguage cons.now.lang.now }
        requires constraints { AreConstraints cons.now.lang.now cons.now.list.now cons.now.against }
        requires index { IsIndexOf cons.now.lang.now self.now }
        ensures plan { IsPlanOf cons.now.lang.now (conditions cons.now) plan.new }
        ensures left { IfSome result
            (IsPropagated cons.now.lang.now (conditions cons.now) (all_values cons.now.lang.now)) }
        ensures nothing { result ≡ None →
            RunsEmpty (conditions cons.now) (all_values cons.now.lang.now) }
    {
        if self.is_of(cons.list) {
            plan.arrange_beside(cons, &self.plan);
            return self.root_beside(cons, plan);
        }
        plan.arrange(cons);
        let mut root = Domains::full(cons.lang);
        match propagate_all(cons, plan, &mut root) {
            Alive::Yes => Some(root),
            Alive::No => None,
        }
    }

    /// What the one against the list leaves to the variables of what the list leaves. Says whether
    /// each has a value left.
    fn narrow(&self, cons: &Constraints, plan: &Plan, root: &mut Domains) -> bool
        requires lawful { IsLanguage cons.now.lang.now }
        requires constraints { AreConstraints cons.now.lang.now cons.now.list.now cons.now.against }
        requires index { IsIndexOf cons.now.lang.now self.now }
        requires list { list_in self.now ≡ cons.now.list.now }
        requires plan { IsPlanOf cons.now.lang.now (conditions cons.now) plan.now }
        requires root { root.old ≡ self.now.root }
        ensures { IsRoot cons.now.lang.now (conditions cons.now) root.new result }
    {
        match cons.against {
            None => self.is_alive,
            Some(c) => {
                let last = cons.lang.scope_set(c.scope);
                leave_more(cons, plan, root, self.is_alive, last)
            }
        }
    }

    /// What the list and the one against it leave to the variables: `None` where that is nothing
    /// for some variable.
    fn root_beside(&self, cons: &Constraints, plan: &Plan) -> Option<Domains>
        requires lawful { IsLanguage cons.now.lang.now }
        requires constraints { AreConstraints cons.now.lang.now cons.now.list.now cons.now.against }
        requires index { IsIndexOf cons.now.lang.now self.now }
        requires list { list_in self.now ≡ cons.now.list.now }
        requires plan { IsPlanOf cons.now.lang.now (conditions cons.now) plan.now }
        ensures left { IfSome result
            (IsPropagated cons.now.lang.now (conditions cons.now) (all_values cons.now.lang.now)) }
        ensures nothing { result ≡ None →
            RunsEmpty (conditions cons.now) (all_values cons.now.lang.now) }
    {
        let mut root = self.root;
        if self.narrow(cons, plan, &mut root) {
            Some(root)
        } else {
            None
        }
    }
}
