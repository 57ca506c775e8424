ghost use Rattle.std.specs.Prelude.{◌≡◌, ◌≤◌, [], true};
ghost use Rattle.language.specs.Language.{variable_count};
ghost use Rattle.propagators.specs.Allowed.{AreConstraints};
ghost use Rattle.propagators.specs.Indexes.{IsIndexOf};
ghost use Rattle.fd_solver.specs.Outcomes.{IsOrder, is_alive_in, search_outcome};
ghost use Rattle.fd_solver.specs.Ready.{IsArranged};

use crate::outcome::Outcome;
use crate::stack::Stack;
use crate::work::Work;
use assign::Partial;
use propagators::{Constraints, Index};

/// Looks at the first members of the walk, as many as the budget says, for a complete one.
///
/// The order lists each variable once. The walk's members are the alive prefixes in this order, in
/// preorder, values rising, from the empty prefix on.
pub fn search(work: &mut Work, cons: &Constraints, order: &[u8], budget: u32) -> Outcome
    requires constraints { AreConstraints cons.now.lang.now cons.now.list.now cons.now.against }
    requires order { IsOrder (variable_count cons.now.lang.now) order.now }
    requires budget { 1 ≤ budget }
    ensures { result
        ≡ search_outcome cons.now.lang.now cons.now.list.now cons.now.against order.now budget }
{
    let n = cons.lang.n();
    if work.begin(cons) {
        walk(work, cons, order, n, budget)
    } else {
        Outcome::Absent
    }
}

/// `search`, which begins with what an index has, where that is the one of the list.
pub fn search_with(
    work: &mut Work,
    index: &Index,
    cons: &Constraints,
    order: &[u8],
    budget: u32,
) -> Outcome
    requires index { IsIndexOf cons.now.lang.now index.now }
    requires constraints { AreConstraints cons.now.lang.now cons.now.list.now cons.now.against }
    requires order { IsOrder (variable_count cons.now.lang.now) order.now }
    requires budget { 1 ≤ budget }
    ensures { result
        ≡ search_outcome cons.now.lang.now cons.now.list.now cons.now.against order.now budget }
{
    let n = cons.lang.n();
    if work.begin_with(cons, index) {
        walk(work, cons, order, n, budget)
    } else {
        Outcome::Absent
    }
}

/// The search over n variables, where the empty prefix is alive.
fn walk(work: &mut Work, cons: &Constraints, order: &[u8], n: u8, budget: u32) -> Outcome
    requires variables { n ≡ variable_count cons.now.lang.now }
    requires constraints { AreConstraints cons.now.lang.now cons.now.list.now cons.now.against }
    requires order { IsOrder (variable_count cons.now.lang.now) order.now }
    requires budget { 1 ≤ budget }
    requires alive { is_alive_in cons.now.lang.now cons.now.list.now cons.now.against order.now []
        ≡ true }
    requires ready { IsArranged cons.now.lang.now cons.now.list.now cons.now.against order.now [] 0
        work.old }
    ensures { result
        ≡ search_outcome cons.now.lang.now cons.now.list.now cons.now.against order.now budget }
{
    let d = cons.lang.d();
    let mut e = Partial::blank(n);
    // The empty prefix is the first member of the walk.
    let mut left = budget - 1;
    let mut stack = Stack::new();
    let mut x = 0;
    loop {
        x = work.next_value(cons, order, &stack, x);
        if x < d {
            if work.enter(cons, order, &stack, x) {
                if left == 0 {
                    return Outcome::Spent;
                }
                left -= 1;
                e.set(order[stack.len()], x);
                stack.push(x);
                if stack.len() == n as usize {
                    return Outcome::Found(e);
                }
                x = 0;
            } else {
                x += 1;
            }
        } else {
            if stack.len() == 0 {
                return Outcome::Absent;
            }
            x = stack.pop() + 1;
            e.clear(order[stack.len()]);
        }
    }
}
