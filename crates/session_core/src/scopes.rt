//! Scope by scope: the first scope that is undecided.

ghost use Rattle.std.specs.Prelude.{◌<◌, length, List};
ghost use Rattle.language.specs.declared.candidates.Candidate.{Candidate};
ghost use Rattle.bias_store.specs.KeptSet.{IsMadeFor};
ghost use Rattle.session_core.specs.Sound.{AreUnlearned, NoneBefore, RunsOn, FirstRun};

use bias_store::Kept;
use find_c::{RelNext, RelRun};
use language::{Language, ScopeId};

/// The run on a scope, where it is undecided.
fn run_on(lang: &Language, kept: &Kept, s: ScopeId) -> Option<RelRun>
    requires scope { s < length lang.now.scopes }
    requires made { IsMadeFor lang.now kept.now }
    ensures { (network : List Candidate) → AreUnlearned kept.now.members network →
        RunsOn lang.now kept.now.members network s result }
{
    // So it is where something is learned.
    if kept.on_scope(s) == 0 {
        return None;
    }
    match RelRun::start_free(lang, kept, s) {
        RelNext::Wants(run) => Some(run),
        RelNext::Nothing | RelNext::Found(_) | RelNext::Free => None,
    }
}

/// The run on the first undecided scope, where those before `from` are decided.
pub(crate) fn first_run(lang: &Language, kept: &Kept, from: u32) -> Option<RelRun>
    requires made { IsMadeFor lang.now kept.now }
    ensures { (network : List Candidate) → AreUnlearned kept.now.members network →
        NoneBefore lang.now kept.now.members network from
        → FirstRun lang.now kept.now.members network result }
{
    for s in from..lang.scopes() {
        if let Some(run) = run_on(lang, kept, s as ScopeId) {
            return Some(run);
        }
    }
    None
}
