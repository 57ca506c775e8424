//! What the session of a keeper has learned.

ghost use Rattle.session_store.specs.Opened.{opened_as};
ghost use Rattle.acq_said.specs.Reducing.{HasLearned};

use disk_model::Disk;
use language::Language;
use network::Network;
use session_store::Keep;

/// The language of a keeper's session, and the network that it has learned.
pub(crate) fn learned_by<D: Disk, P: Keep<D>>(keep: &P) -> (&Language, &Network)
    requires { P.sound keep.now }
    ensures { HasLearned (opened_as (P.plan keep.now) (P.voc keep.now) (P.record_of keep.now)
        (P.lang keep.now)) result.0.now result.1.now.list }
{
    let session = keep.session();
    (session.lang(), session.network())
}
