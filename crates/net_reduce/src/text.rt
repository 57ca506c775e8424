ghost use Rattle.std.specs.Prelude.{◌≡◌, IfOk, string_bytes};
ghost use Rattle.language.specs.Answers.{IsNetwork};
ghost use Rattle.net_reduce.specs.Texts.{reduced_text, spent_text};

use language::{Candidate, Language, Memory};
use std::alloc::Global;

/// `reduced 2 of 3`, where so many items of a network remain, and a line for each of them: `eq a
/// c`, and so on, each with a newline. `Memory` where there is none for the text.
pub fn reduced_text(
    alloc: Global,
    lang: &Language,
    part: &[Candidate],
    of: u32,
) -> Result<String, Memory>
    requires { IsNetwork lang.now part.now }
    ensures { IfOk result (λ text. string_bytes text ≡ reduced_text lang.now part.now of) }
{
    let remaining = part.len();
    let mut text = format!(in alloc; "reduced {remaining} of {of}\n")?;
    for c in part {
        let line = lang.candidate_text(alloc, *c)?;
        text.push_str(&line)?;
        text.push('\n')?;
    }
    Ok(text)
}

/// The line for the first item whose search spent its budget, with its newline: `refused reduce
/// open 1`.
pub fn spent_text(alloc: Global, i: u32) -> Result<String, Memory>
    ensures { IfOk result (λ text. string_bytes text ≡ spent_text i) }
{
    Ok(format!(in alloc; "refused reduce open {i}\n")?)
}
