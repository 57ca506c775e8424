ghost use Rattle.std.specs.Prelude.{◌≡◌, map, option_map, IfOk, IfSome, IsErrOf, Some, codes};
ghost use Rattle.std.specs.String.{string_bytes};
ghost use Rattle.clap.specs.Words.{first_of, found_of, one_of, rows_of};
ghost use Rattle.acq_words.specs.Numbers.{HaveNumbers, IsNumberIn, digits_number};
ghost use Rattle.acq_words.specs.Plain.{IsPlain, IsPlainList, Plain, answer_of, words_of_plain};
ghost use Rattle.acq_words.specs.Request.{IsRequestOf, IsWithinLimits, CommandIsWithin};
ghost use Rattle.acq_words.specs.Request.{contents_in, request_of_words, asked_of_rows, plan_said};

use crate::line::matches_in;
use crate::request::{
    Asked, Request, UsageFault, WordsFault, command_named, plan_named, request_by,
};
use assign::Plan;
use clap::ArgMatches;
use std::alloc::Global;

/// The first value that was found under a name.
fn text_said<'a>(matches: &ArgMatches<'a>, id: &str) -> Option<&'a str>
    ensures { option_map (λ s. s.now) result ≡ first_of id.now (rows_of (found_of matches.now)) }
{
    matches.get_str(id)
}

/// The number that was found under a name.
fn number_said(matches: &ArgMatches, id: &str) -> Option<u32>
    requires { (text : _) → one_of id.now (rows_of (found_of matches.now)) ≡ Some text →
        IsNumberIn 0 4294967295 text }
    ensures { result ≡ option_map digits_number (one_of id.now (rows_of (found_of matches.now))) }
{
    matches.get_one::<u32>(id)
}

/// The plan that was named, if one was. None where it is no plan.
fn plan_said(matches: &ArgMatches) -> Option<Option<Plan>>
    ensures { result ≡ plan_said (first_of (codes "plan") (rows_of (found_of matches.now))) }
{
    match text_said(matches, "plan") {
        Some(name) => Some(Some(plan_named(name)?)),
        None => Some(None),
    }
}

/// What was found beside the journal. None where a name is none.
fn asked_in(matches: &ArgMatches) -> Option<Asked>
    requires { HaveNumbers (rows_of (found_of matches.now)) }
    ensures is { result ≡ asked_of_rows (rows_of (found_of matches.now)) }
    ensures lawful { IfSome result IsWithinLimits }
{
    let name = command_named(text_said(matches, "COMMAND")?)?;
    let plan = plan_said(matches)?;
    Some(Asked {
        name,
        plan,
        budget: number_said(matches, "budget"),
        number: number_said(matches, "number"),
    })
}

/// What `clap`'s matches ask for.
fn request_in(alloc: Global, matches: &ArgMatches) -> Result<Request, WordsFault>
    requires { HaveNumbers (rows_of (found_of matches.now)) }
    ensures is { IsRequestOf (contents_in (rows_of (found_of matches.now))) result }
    ensures within { IfOk result (λ r. CommandIsWithin r.command) }
{
    let Some(journal) = text_said(matches, "JOURNAL") else {
        return Err(WordsFault::Usage(UsageFault::Words));
    };
    let Some(asked) = asked_in(matches) else {
        return Err(WordsFault::Usage(UsageFault::Words));
    };
    request_by(alloc, journal, asked)
}

/// What the words after the program's own name ask for. A plain list is a journal, a command and
/// then options, each once at most, in any order and in one of two writings: it is never refused as
/// `Words`, and asks for what it reads as.
pub fn read_words(alloc: Global, words: &[String]) -> Result<Request, WordsFault>
    ensures is { IsRequestOf (request_of_words (map string_bytes words.now)) result }
    ensures plain { (p : Plain) → IsPlain p → words_of_plain p ≡ map string_bytes words.now →
        IsRequestOf (answer_of p) result }
    ensures words { IsErrOf result (WordsFault.Usage UsageFault.Words) →
        ¬ (IsPlainList (map string_bytes words.now)) }
    ensures within { IfOk result (λ r. CommandIsWithin r.command) }
{
    let matches = matches_in(alloc, words)?;
    request_in(alloc, &matches)
}
