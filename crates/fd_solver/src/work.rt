ghost use Rattle.std.specs.Prelude.{◌≡◌, ◌<◌, ◌≤◌, ◌+◌, ◌++◌, ℕ, IfOk, ◌∷◌, [], true, false, None};
ghost use Rattle.std.specs.Prelude.{length, replicate, slice_index_or, slice_set, vec_len};
ghost use Rattle.std.specs.Prelude.{vec_capacity};
ghost use Rattle.assign.specs.Sets.{has};
ghost use Rattle.language.specs.Language.{IsLanguage, variable_count};
ghost use Rattle.propagators.specs.Allowed.{AreConstraints};
ghost use Rattle.propagators.specs.Families.{conditions, has_family, is_arc_consistent};
ghost use Rattle.propagators.specs.Plans.{IsPlanOf};
ghost use Rattle.propagators.specs.Indexes.{IsIndexOf};
ghost use Rattle.propagators.specs.Entailed.{AreEntailed};
ghost use Rattle.propagators.specs.declared.entailed.Entailed.{Entailed};
ghost use Rattle.propagators.specs.Propagated.{AreSome, IsPropagated, RunsEmpty};
ghost use Rattle.fd_solver.specs.Outcomes.{IsOrder, is_alive_in};
ghost use Rattle.fd_solver.specs.Ready.{IsReady, IsArranged, IsInRow, IsShared, IsCopied};
ghost use Rattle.fd_solver.specs.Ready.{depth_row, family_of, fixed, condition_room};

use crate::stack::Stack;
use assign::VarSet;
use language::{Language, Memory};
use propagators::{
    Alive, Constraints, Domains, Entailed, Index, Plan, propagate_all, propagate_beside,
};
use std::alloc::Global;
use std::marker::Model;

/// The most depths of a search: for no value and for each number of values up to 128.
const DEPTHS: usize = 129;

/// The number for a depth that has no row.
const NO_ROW: u8 = 129;

/// The room of a search.
#[derive(Drop)]
pub struct Work {
    /// Rows of the values that are left to the variables at a depth, where so many have one. There
    /// are as many as the searches so far had depths, and room for all: memory that no search comes
    /// to is never touched.
    depths: Vec<Domains>,
    /// For each of these rows conditions that are entailed there, which needn't be looked at below
    /// it.
    entailed: Vec<Entailed>,
    /// For each depth the number of its row. While a depth has further values to try, the next
    /// depth gets a copy of its row, in the row of that depth's own number. With its last value a
    /// depth needs its row no more: the next depth takes it over, and a number past the depth says
    /// that it has none. So no row stands past its depth and no two depths share one: what is
    /// written at a depth leaves those above as they are.
    rows: [u8; DEPTHS],
    /// What is known of the conditions.
    plan: Plan,
}

impl Model for Work {
    ghost use Rattle.fd_solver.specs.Ready.{Room};

    ghost Value = { Room };

    ghost use Rattle.fd_solver.specs.Inside.{seen, IsDeep};

    ghost view = { seen };

    ghost invariant = { IsDeep };
}

/// Gives a variable one of its values, and takes the values away that don't go with it. Says
/// whether each variable has one left.
fn narrow(
    cons: &Constraints,
    plan: &Plan,
    doms: &mut Domains,
    entailed: &mut Entailed,
    v: u8,
    x: u8,
) -> bool
    requires lawful { IsLanguage cons.now.lang.now }
    requires constraints { AreConstraints cons.now.lang.now cons.now.list.now cons.now.against }
    requires plan { IsPlanOf cons.now.lang.now (conditions cons.now) plan.now }
    requires doms { AreSome cons.now.lang.now doms.old }
    requires consistent { is_arc_consistent (conditions cons.now) doms.old ≡ true }
    requires entailed { AreEntailed (conditions cons.now) plan.now entailed.old doms.old }
    requires known { v < variable_count cons.now.lang.now }
    requires there { has (slice_index_or doms.old v []) x ≡ true }
    ensures alive { result ≡ true →
        IsPropagated cons.now.lang.now (conditions cons.now) (fixed doms.old v x) doms.new }
    ensures entailed { result ≡ true →
        AreEntailed (conditions cons.now) plan.now entailed.new doms.new }
    ensures dead { result ≡ false → RunsEmpty (conditions cons.now) (fixed doms.old v x) }
{
    if let Some(_only) = doms.only(v) {
        // It has this value already, and no other.
        return true;
    }
    doms.fix(v, x);
    match propagate_beside(cons, plan, doms, entailed, VarSet::empty().with(v)) {
        Alive::Yes => true,
        Alive::No => false,
    }
}

/// Puts the same item behind those of the depths that are there, up to the deepest.
fn fill<T: Copy>(depths: &mut Vec<T>, item: T, deepest: usize)
    requires few { deepest ≤ 128 }
    requires room { 129 ≤ vec_capacity depths.old }
    requires below { vec_len depths.old ≤ deepest }
    ensures size { vec_len depths.new ≡ deepest + 1 }
    ensures room { vec_capacity depths.new ≡ vec_capacity depths.old }
{
    for _depth in depths.len()..deepest + 1 {
        depths.push_reserved(item);
    }
}

/// Copies what is left in a row to one below it.
fn copy_down(depths: &mut Vec<Domains>, from: usize, to: usize)
    requires below { from < to }
    requires there { to < vec_len depths.old }
    ensures is { depths.new.items
        ≡ slice_set depths.old.items to (slice_index_or depths.old.items from []) }
    ensures room { vec_capacity depths.new ≡ vec_capacity depths.old }
{
    let (front, rest) = depths.split_at_mut(to);
    rest[0].take(&front[from]);
}

/// Copies what is known to be entailed in a row to one below it.
fn copy_known(entailed: &mut Vec<Entailed>, from: usize, to: usize)
    requires below { from < to }
    requires there { to < vec_len entailed.old }
    ensures is { (e : Entailed) → entailed.new.items
        ≡ slice_set entailed.old.items to (slice_index_or entailed.old.items from e) }
    ensures size { vec_len entailed.new ≡ vec_len entailed.old }
    ensures room { vec_capacity entailed.new ≡ vec_capacity entailed.old }
{
    let (front, rest) = entailed.split_at_mut(to);
    rest[0].take(&front[from]);
}

impl Work {
    /// Room for a search: some 150 KB for what is known at each depth, and some 28 bytes for each
    /// of as many conditions as there are scopes, and one more. `Memory` where there is none.
    ///
    /// With more conditions than that a search is as exact and slower.
    pub fn new(alloc: Global, lang: &Language) -> Result<Work, Memory>
        ensures { IfOk result (λ w. condition_room w ≡ length lang.now.scopes + 1) }
    {
        let Ok(depths) = Vec::with_capacity(alloc, DEPTHS) else {
            return Err(Memory);
        };
        let Ok(entailed) = Vec::with_capacity(alloc, DEPTHS) else {
            return Err(Memory);
        };
        match Plan::unwritten(alloc, lang.scopes() as usize + 1) {
            Ok(plan) => Ok(Work {
                depths,
                entailed,
                rows: [0; DEPTHS],
                plan,
            }),
            Err(_) => Err(Memory),
        }
    }

    /// Makes the depths that a search over the language's variables has. Few searches make any, so
    /// this stands apart from them.
    #[inline(never)]
    fn deepen(&mut self, lang: &Language)
        ensures deep { variable_count lang.now < length self.new.depths }
        ensures same { length self.new.entailed ≡ length self.new.depths }
        ensures plan { self.new.plan ≡ self.old.plan }
    {
        let deepest = usize::from(lang.n());
        if self.depths.len() > deepest {
            return;
        }
        fill(&mut self.depths, Domains::full(lang), deepest);
        fill(&mut self.entailed, Entailed::none(), deepest);
    }

    /// Notes the conditions, and the values that are left where no variable has one. Says whether
    /// each has some.
    pub(crate) fn begin(&mut self, cons: &Constraints) -> bool
        requires lawful { IsLanguage cons.now.lang.now }
        requires constraints { AreConstraints cons.now.lang.now cons.now.list.now cons.now.against }
        ensures plan { IsPlanOf cons.now.lang.now (conditions cons.now) self.new.plan }
        ensures deep { variable_count cons.now.lang.now < length self.new.depths }
        ensures same { length self.new.entailed ≡ length self.new.depths }
        ensures wide { length self.new.rows ≡ 129 }
        ensures row { result ≡ true → depth_row self.new 0 ≡ 0 }
        ensures entailed { result ≡ true → (e : Entailed) →
            AreEntailed (conditions cons.now) self.new.plan (slice_index_or self.new.entailed 0 e)
            (slice_index_or self.new.depths 0 []) }
        ensures ready { result ≡ true → IsReady cons.now.lang.now cons.now.list.now cons.now.against
            (replicate (variable_count cons.now.lang.now) None)
            (slice_index_or self.new.depths 0 []) }
        ensures dead { result ≡ false → has_family cons.now.lang.now cons.now.list.now
            cons.now.against (replicate (variable_count cons.now.lang.now) None) ≡ false }
    {
        self.deepen(cons.lang);
        self.plan.arrange(cons);
        let mut root = Domains::full(cons.lang);
        match propagate_all(cons, &self.plan, &mut root) {
            Alive::Yes => {
                self.depths[0] = root;
                self.entailed[0] = Entailed::none();
                self.rows[0] = 0;
                true
            }
            Alive::No => false,
        }
    }

    /// `begin`, with an index that may be that of the list.
    pub(crate) fn begin_with(&mut self, cons: &Constraints, index: &Index) -> bool
        requires lawful { IsLanguage cons.now.lang.now }
        requires constraints { AreConstraints cons.now.lang.now cons.now.list.now cons.now.against }
        requires index { IsIndexOf cons.now.lang.now index.now }
        ensures plan { IsPlanOf cons.now.lang.now (conditions cons.now) self.new.plan }
        ensures deep { variable_count cons.now.lang.now < length self.new.depths }
        ensures same { length self.new.entailed ≡ length self.new.depths }
        ensures wide { length self.new.rows ≡ 129 }
        ensures row { result ≡ true → depth_row self.new 0 ≡ 0 }
        ensures entailed { result ≡ true → (e : Entailed) →
            AreEntailed (conditions cons.now) self.new.plan (slice_index_or self.new.entailed 0 e)
            (slice_index_or self.new.depths 0 []) }
        ensures ready { result ≡ true → IsReady cons.now.lang.now cons.now.list.now cons.now.against
            (replicate (variable_count cons.now.lang.now) None)
            (slice_index_or self.new.depths 0 []) }
        ensures dead { result ≡ false → has_family cons.now.lang.now cons.now.list.now
            cons.now.against (replicate (variable_count cons.now.lang.now) None) ≡ false }
    {
        self.deepen(cons.lang);
        match index.begin(cons, &mut self.plan) {
            Some(left) => {
                self.depths[0] = left;
                self.entailed[0] = Entailed::none();
                self.rows[0] = 0;
                true
            }
            None => false,
        }
    }

    /// The first value from x on that a prefix leaves to the next variable, or how many values
    /// there are.
    pub(crate) fn next_value(&self, cons: &Constraints, order: &[u8], prefix: &Stack, x: u8) -> u8
        requires lawful { IsLanguage cons.now.lang.now }
        requires constraints { AreConstraints cons.now.lang.now cons.now.list.now cons.now.against }
        requires order { IsOrder (variable_count cons.now.lang.now) order.now }
        requires short { length prefix.now < variable_count cons.now.lang.now }
        requires value { x ≤ cons.now.lang.now.value_count }
        requires ready { IsArranged cons.now.lang.now cons.now.list.now cons.now.against order.now
            prefix.now x self.now }
        ensures from { x ≤ result }
        ensures within { result ≤ cons.now.lang.now.value_count }
        ensures there { result < cons.now.lang.now.value_count → IsInRow self.now
            (length prefix.now) (slice_index_or order.now (length prefix.now) 0) result }
        ensures dead { (y : ℕ) → x ≤ y → y < result → is_alive_in cons.now.lang.now
            cons.now.list.now cons.now.against order.now (prefix.now ++ y ∷ []) ≡ false }
    {
        let d = cons.lang.d();
        let at = prefix.len();
        let v = order[at];
        let row = usize::from(self.rows[at]);
        if row > at {
            return d;
        }
        let Some(next) = self.depths[row].least_from(v, x) else {
            return d;
        };
        next
    }

    /// Hands what is left at a depth, where the variable has the value, down to the next depth, and
    /// says in which row it stands.
    fn hand_down(&mut self, at: usize, v: u8, x: u8) -> usize
        requires deep { at + 1 < length self.old.depths }
        requires same { length self.old.entailed ≡ length self.old.depths }
        requires few { at < 128 }
        requires small { x < 64 }
        requires known { v < length (family_of self.old at) }
        requires there { IsInRow self.old at v x }
        ensures shared { result ≤ at → IsShared self.old self.new at v x result }
        ensures copied { at < result → IsCopied self.old self.new at result }
    {
        let row = usize::from(self.rows[at]);
        let next = at + 1;
        let Some(_more) = self.depths[row].least_from(v, x + 1) else {
            self.rows[at] = NO_ROW;
            self.rows[next] = row as u8;
            return row;
        };
        copy_down(&mut self.depths, row, next);
        copy_known(&mut self.entailed, row, next);
        self.rows[next] = next as u8;
        next
    }

    /// Whether a prefix with one value more, which it leaves to the next variable, is alive; if so,
    /// the values that the longer one leaves are those of its depth.
    pub(crate) fn enter(&mut self, cons: &Constraints, order: &[u8], prefix: &Stack, x: u8) -> bool
        requires lawful { IsLanguage cons.now.lang.now }
        requires constraints { AreConstraints cons.now.lang.now cons.now.list.now cons.now.against }
        requires order { IsOrder (variable_count cons.now.lang.now) order.now }
        requires short { length prefix.now < variable_count cons.now.lang.now }
        requires value { x < cons.now.lang.now.value_count }
        requires there { IsInRow self.old (length prefix.now)
            (slice_index_or order.now (length prefix.now) 0) x }
        requires ready { IsArranged cons.now.lang.now cons.now.list.now cons.now.against order.now
            prefix.now x self.old }
        ensures is { result ≡ is_alive_in cons.now.lang.now cons.now.list.now cons.now.against
            order.now (prefix.now ++ x ∷ []) }
        ensures ready { IsArranged cons.now.lang.now cons.now.list.now cons.now.against order.now
            prefix.now (x + 1) self.new }
        ensures deeper { result ≡ true → IsArranged cons.now.lang.now cons.now.list.now
            cons.now.against order.now (prefix.now ++ x ∷ []) 0 self.new }
    {
        let at = prefix.len();
        let v = order[at];
        let row = self.hand_down(at, v, x);
        narrow(
            cons,
            &self.plan,
            &mut self.depths[row],
            &mut self.entailed[row],
            v,
            x,
        )
    }
}
