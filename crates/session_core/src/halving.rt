//! A halving answers by itself what violates no kept candidate.

ghost use Rattle.std.specs.Prelude.{◌≡◌, ◌≤◌, ◌*◌, ℕ, List, Bool, length, true, false, IfOk, IfErr};
ghost use Rattle.language.specs.Language.{IsQuestion};
ghost use Rattle.bias_store.specs.KeptSet.{IsMadeFor};
ghost use Rattle.find_scope.specs.Standing.{StandsFor};
ghost use Rattle.session_laws.specs.Session.{with_quiet_replies};
ghost use Rattle.session_core.specs.Sound.{is_quiet_at};

use assign::Partial;
use bias_store::Kept;
use find_scope::{ScopeNext, ScopeRun};
use language::Language;

/// A halving that wants a reply about a part that violates no kept candidate. `Err` is any other
/// one.
fn quiet_run(
    lang: &Language,
    kept: &Kept,
    e: &Partial,
    next: ScopeNext,
) -> Result<ScopeRun, ScopeNext>
    requires made { IsMadeFor lang.now kept.now }
    requires question { IsQuestion lang.now e.now }
    ensures quiet { IfOk result (λ run. next ≡ ScopeNext.Wants run) }
    ensures is_quiet { IfOk result
        (λ run. is_quiet_at lang.now kept.now.members e.now next ≡ true) }
    ensures other { IfErr result (λ same. next ≡ same) }
    ensures is_other { IfErr result
        (λ same. is_quiet_at lang.now kept.now.members e.now next ≡ false) }
{
    match next {
        ScopeNext::Wants(run) => {
            if kept.strikes_any(lang, &e.restrict(run.wants())) {
                Err(ScopeNext::Wants(run))
            } else {
                Ok(run)
            }
        }
        ScopeNext::Found(set) => Err(ScopeNext::Found(set)),
    }
}

/// Replies yes for the user as long as the wanted part violates no kept candidate. `size` is how
/// many variables are halved: there are fewer than twice as many replies.
pub(crate) fn settle(
    lang: &Language,
    kept: &Kept,
    e: &Partial,
    size: u8,
    mut next: ScopeNext,
) -> ScopeNext
    requires made { IsMadeFor lang.now kept.now }
    requires question { IsQuestion lang.now e.now }
    ensures { (set : List ℕ) (replies : List Bool) → length set ≡ size →
        StandsFor next set replies →
        StandsFor result set
        (with_quiet_replies lang.now kept.now.members e.now set (2 * length set) replies) }
{
    for turn in 0..2 * u16::from(size) {
        match quiet_run(lang, kept, e, next) {
            Ok(run) => next = run.reply(true),
            Err(settled) => return settled,
        }
    }
    next
}
