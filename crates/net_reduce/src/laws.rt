//! Laws of sifting, as contracts of functions that do nothing.

ghost use Rattle.net_reduce.specs.Laws.{EachIsSearchedOrSpent, ReducedIsTarget, SiftedIsOne};
ghost use Rattle.net_reduce.specs.Laws.{SiftedIsReduction};

/// What sifting leaves of a network is a reduction of it.
pub fn sifted_is_reduction()
    ensures { SiftedIsReduction }
{}

/// Sifting leaves one list.
pub fn sifted_is_one()
    ensures { SiftedIsOne }
{}

/// After convergence a reduction has the solutions of each network that agrees with the answers.
pub fn reduced_is_target()
    ensures { ReducedIsTarget }
{}

/// Of each network the searches are decided, or a first one is spent.
pub fn each_is_searched_or_spent()
    ensures { EachIsSearchedOrSpent }
{}
