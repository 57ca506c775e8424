// The language of what a vocabulary holds.
ghost use Rattle.std.specs.Prelude.{◌≡◌, ◌≢◌, ◌<◌, ◌^◌, length, map, All, Some, IfOk, IfErr};
ghost use Rattle.std.specs.Prelude.{IfSome, OnOk};
ghost use Rattle.std.specs.Option.{option_map};
ghost use Rattle.serde_json.specs.View.{view, items_view};
ghost use Rattle.language.specs.Language.{AreNames};
ghost use Rattle.language.specs.Building.{frame_refusal, values_between};
ghost use Rattle.voc_read.specs.Answers.{Reads, Refuses};
ghost use Rattle.voc_read.specs.Outline.{outline_data};
ghost use Rattle.voc_read.specs.Vocabulary.{outline_refusal, parts_from, refusal_after, IsFrameOf};
ghost use Rattle.voc_read.specs.Vocabulary.{IsLanguageOf};
ghost use Rattle.voc_read.specs.Ranges.{named_range, with_ranges, HaveDistinctVariables};
ghost use Rattle.voc_read.specs.Ranges.{HasWholeRanges, IsKnown};
ghost use Rattle.voc_read.specs.Texts.{texts_of};
ghost use Rattle.voc_read.specs.Widest.{items_widest};

use crate::domain::Domain;
use crate::fault::VocFault;
use crate::names::{check_names, to_strings};
use crate::outline::Outline;
use crate::ranges::{NamedRange, ranges_of};
use crate::relations::given_of;
use crate::scopes::scopes_of;
use language::{Frame, LangFault, Language};
use std::alloc::Global;

/// Why there is no language, as the vocabulary tells it.
fn lang_fault(fault: LangFault) -> VocFault
    ensures memory { fault ≡ LangFault.Memory → result ≡ VocFault.Memory }
    ensures other { fault ≢ LangFault.Memory → result ≡ VocFault.Lang fault }
{
    match fault {
        LangFault::Memory => VocFault::Memory,
        _ => VocFault::Lang(fault),
    }
}

/// The frame of the names and the domain.
fn frame_of(alloc: Global, outline: &Outline<'_>) -> Result<Frame, VocFault>
    requires { AreNames (texts_of outline.now.names.items) }
    ensures refused { Refuses (outline_refusal (outline_data outline.now)) result }
    ensures frame { IfOk result (IsFrameOf (outline_data outline.now)) }
{
    let names = to_strings(alloc, &outline.names)?;
    match Frame::new(names, outline.least_value, outline.greatest_value) {
        Ok(frame) => Ok(frame),
        Err(fault) => Err(VocFault::Lang(fault)),
    }
}

/// The values of a frame.
fn domain_of(frame: &Frame) -> Domain
    ensures least { result.least_value ≡ frame.now.least_value }
    ensures count { result.value_count ≡ frame.now.value_count }
{
    Domain {
        least_value: frame.lo(),
        value_count: u32::from(frame.d()),
    }
}

/// Gives each variable that has a range its values.
fn set_ranges(frame: &mut Frame, ranges: &[NamedRange<'_>])
    requires whole { HasWholeRanges frame.old }
    requires known { All (IsKnown frame.old.names frame.old.least_value frame.old.value_count)
        (map named_range ranges.now) }
    requires apart { HaveDistinctVariables (map named_range ranges.now) }
    ensures { frame.new ≡ with_ranges frame.old (map named_range ranges.now) }
{
    for range in ranges {
        frame.with_range(range.variable, range.lowest, range.highest);
    }
}

/// The language of the outline, or the first fault in its names, its domain, its ranges, its
/// relations, its scopes or what they make together.
pub fn language_of(alloc: Global, outline: &Outline<'_>) -> Result<Language, VocFault>
    requires names { length outline.now.names.items < 2 ^ 32 }
    requires ranges { length outline.now.ranges.now < 2 ^ 32 }
    requires relations { length outline.now.relations.now < 2 ^ 32 }
    requires scopes { IfSome outline.now.listed (λ list. length list.now < 2 ^ 32) }
    requires parts { items_widest (items_view outline.now.relations.now) < 2 ^ 32 }
    ensures ok { IfOk result (λ l. IsLanguageOf (parts_from (outline_data outline.now)) l) }
    ensures refused { IfErr result (λ e. e ≢ VocFault.Memory →
        refusal_after (parts_from (outline_data outline.now)) ≡ Some e) }
{
    check_names(alloc, &outline.names)?;
    let mut frame = frame_of(alloc, outline)?;
    let domain = domain_of(&frame);
    let ranges = ranges_of(alloc, domain, &outline.names, outline.ranges)?;
    set_ranges(&mut frame, &ranges);
    let given = given_of(alloc, domain, outline.relations)?;
    let scopes = scopes_of(alloc, &outline.names, outline.listed)?;
    match Language::build(alloc, frame, given, scopes) {
        Ok(language) => Ok(language),
        Err(fault) => Err(lang_fault(fault)),
    }
}
