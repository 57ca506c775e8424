ghost use Rattle.std.specs.Prelude.{◌≡◌, ◌≢◌, ◌≤◌, length, None};
ghost use Rattle.assign.specs.declared.events.Plan.TheVariants.{Multi};
ghost use Rattle.language.specs.Answers.{IsNetwork};
ghost use Rattle.bias_store.specs.KeptSet.{IsMadeFor};
ghost use Rattle.multi_tree.specs.Listed.{IsListing};
ghost use Rattle.multi_tree.specs.Stage.{example_in, walk_in, IsWalkOn};
ghost use Rattle.session_core.specs.Sound.{NoneBefore, AreUnlearned, IsWalkOn-prop};

use assign::{Partial, Plan};
use bias_store::Kept;
use language::Language;
use multi_tree::{Listing, Tree};
use network::Network;

/// What a session knows, whatever its kind.
#[derive(Drop)]
pub struct Knowledge {
    pub(crate) lang: Language,
    pub(crate) plan: Plan,
    /// The candidates that no yes has struck, on scopes where nothing is learned.
    pub(crate) kept: Kept,
    /// The learned candidates.
    pub(crate) network: Network,
    /// How many answers stand.
    pub(crate) answers: u32,
    /// No scope before this one has a question left in plan Scopes. In the others it stays 0.
    pub(crate) next: u32,
    /// The walk of an example in plan Multi. In the others none is begun.
    pub(crate) tree: Tree,
    /// The items that the example of the walk violates.
    pub(crate) listing: Listing,
    /// The question that is open. While none is, it means nothing.
    pub(crate) question: Partial,
    ghost walks: { IsWalkOn lang tree } by { IsWalkOn-prop lang tree },
    ghost listed: { IsListing lang network.list (example_in tree) listing },
    ghost resting: { plan ≢ Multi → walk_in tree ≡ None },
    ghost made: { IsMadeFor lang kept },
    ghost lawful: { IsNetwork lang network.list },
    ghost room: { network.scopes ≡ length lang.scopes },
    ghost unlearned: { AreUnlearned kept.members network.list },
    ghost none_before: { NoneBefore lang kept.members network.list next },
    ghost within: { next ≤ length lang.scopes },
}
