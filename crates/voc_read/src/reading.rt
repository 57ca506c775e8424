// Reading a vocabulary's bytes.
ghost use Rattle.std.specs.Prelude.{◌≡◌, ◌≢◌, ◌<◌, ◌^◌, Some, None, IfOk, IfErr, OnOk};
ghost use Rattle.serde_json.specs.View.{view};
ghost use Rattle.voc_read.specs.Vocabulary.{parts_in, refusal_after, refusal_of_vocabulary};
ghost use Rattle.voc_read.specs.Vocabulary.{IsLanguageOf, IsVocabulary};
ghost use Rattle.voc_read.specs.Widest.{widest};

use crate::fault::VocFault;
use crate::making::language_of;
use crate::outline::{held_by, outline_of};
use crate::parsing::json_of;
use language::Language;
use serde_json::Value;
use std::alloc::Global;

/// The most bytes that a vocabulary has.
pub const MOST_VOCABULARY: u32 = 4_194_304;

/// The language that a JSON value holds, or its first fault.
fn read_whole(alloc: Global, whole: &Value) -> Result<Language, VocFault>
    requires { widest (view whole.now) < 2 ^ 32 }
    ensures ok { IfOk result (λ l. IsLanguageOf (parts_in (view whole.now)) l) }
    ensures refused { IfErr result (λ e. e ≢ VocFault.Memory →
        refusal_after (parts_in (view whole.now)) ≡ Some e) }
{
    let held = held_by(whole)?;
    let outline = outline_of(alloc, &held)?;
    language_of(alloc, &outline)
}

#[tactic(auto, unfolding(crate::specs::Vocabulary::vocabulary_parts, crate::specs::Vocabulary::refusal_of_vocabulary))]
/// The language that a vocabulary describes, or the first fault in the order of the format, with
/// its least place.
pub fn read_vocabulary(alloc: Global, bytes: &[u8]) -> Result<Language, VocFault>
    ensures ok { IfOk result (λ l. IsVocabulary bytes.now l) }
    ensures taken { OnOk result (refusal_of_vocabulary bytes.now ≡ None) }
    ensures refused { IfErr result (λ e. e ≢ VocFault.Memory →
        refusal_of_vocabulary bytes.now ≡ Some e) }
{
    if bytes.len() > MOST_VOCABULARY as usize {
        return Err(VocFault::TooLong);
    }
    let whole = json_of(alloc, bytes)?;
    read_whole(alloc, &whole)
}
