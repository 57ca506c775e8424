ghost use Rattle.std.specs.Prelude.{◌≡◌, ◌≢◌, map, false, true, IfOk, Err, [], IsErrOf};
ghost use Rattle.std.specs.String.{string_bytes};
ghost use Rattle.clap.specs.Words.{app_of, found_of, rows_of, rule_of};
ghost use Rattle.acq_words.specs.Numbers.{HaveNumbers};
ghost use Rattle.acq_words.specs.Line.{bare_line, budget_rule, command_rule, faults_in};
ghost use Rattle.acq_words.specs.Line.{journal_rule, line, number_rule, plan_rule, rows_in};

use crate::request::{UsageFault, WordsFault};
use clap::error::ErrorKind;
use clap::{Arg, ArgMatches, Command};
use std::alloc::{AllocError, Global};

fn journal_arg<'a>(alloc: Global) -> Arg<'a>
    ensures rule { rule_of result ≡ journal_rule }
    ensures local { result.global ≡ false }
{
    Arg::new(alloc, "JOURNAL").required(true)
}

fn command_arg<'a>(alloc: Global) -> Arg<'a>
    ensures rule { rule_of result ≡ command_rule }
    ensures local { result.global ≡ false }
{
    Arg::new(alloc, "COMMAND").required(true)
}

fn plan_arg<'a>(alloc: Global) -> Arg<'a>
    ensures rule { rule_of result ≡ plan_rule }
    ensures local { result.global ≡ false }
{
    Arg::new(alloc, "plan").long("plan")
}

fn budget_arg<'a>(alloc: Global) -> Arg<'a>
    ensures rule { rule_of result ≡ budget_rule }
    ensures local { result.global ≡ false }
{
    Arg::new(alloc, "budget")
        .long("budget")
        .value_parser(clap::value_parser!(u32).range(1..=1_000_000_000))
}

fn number_arg<'a>(alloc: Global) -> Arg<'a>
    ensures rule { rule_of result ≡ number_rule }
    ensures local { result.global ≡ false }
{
    Arg::new(alloc, "number")
        .long("number")
        .value_parser(clap::value_parser!(u32))
}

/// The command without its arguments. The words don't begin with the program's own name.
fn bare_line<'a>(alloc: Global) -> Command<'a>
    ensures { app_of result ≡ bare_line }
{
    Command::new(alloc, "acquire").no_binary_name(true)
}

/// The program's one command.
fn line<'a>(alloc: Global) -> Result<Command<'a>, AllocError>
    ensures { IfOk result (λ k. app_of k ≡ line) }
{
    bare_line(alloc)
        .arg(journal_arg(alloc))?
        .arg(command_arg(alloc))?
        .arg(plan_arg(alloc))?
        .arg(budget_arg(alloc))?
        .arg(number_arg(alloc))
}

/// What `clap` finds in the words.
pub(crate) fn matches_in<'a>(
    alloc: Global,
    words: &'a [String],
) -> Result<ArgMatches<'a>, WordsFault>
    ensures taken { IfOk result (λ m. faults_in (map string_bytes words.entry.now) ≡ []) }
    ensures rows { IfOk result
        (λ m. rows_of (found_of m) ≡ rows_in (map string_bytes words.entry.now)) }
    ensures numbers { IfOk result (λ m. HaveNumbers (rows_of (found_of m))) }
    ensures fault { result ≢ Err (WordsFault.Usage UsageFault.Unfit) }
    ensures words { IsErrOf result (WordsFault.Usage UsageFault.Words) →
        faults_in (map string_bytes words.entry.now) ≢ [] }
{
    let Ok(line) = line(alloc) else {
        return Err(WordsFault::Memory);
    };
    match line.try_get_matches_from(words) {
        Ok(matches) => Ok(matches),
        Err(e) => {
            if e.kind() == ErrorKind::OutOfMemory {
                Err(WordsFault::Memory)
            } else {
                Err(WordsFault::Usage(UsageFault::Words))
            }
        }
    }
}
