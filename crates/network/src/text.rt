ghost use Rattle.std.specs.Prelude.{◌≡◌, ◌++◌, ◌∷◌, [], IfOk, OnOk, string_bytes};
ghost use Rattle.language.specs.Answers.{IsNetwork};
ghost use Rattle.network.specs.Texts.{network_text};

use crate::network::Network;
use language::{Candidate, Language, Memory};
use std::alloc::{AllocError, Global};

/// The text of each learned candidate, in learning order, each with a newline: `eq a b`, and so on.
/// Nothing learned is the empty text. `Memory` where there is none for the text.
pub fn network_text(alloc: Global, lang: &Language, net: &Network) -> Result<String, Memory>
    requires { IsNetwork lang.now net.now.list }
    ensures { IfOk result (λ text. string_bytes text ≡ network_text lang.now net.now.list) }
{
    let mut text = String::new(alloc);
    for c in net.list() {
        let line = lang.candidate_text(alloc, *c)?;
        add_line(&mut text, &line)?;
    }
    Ok(text)
}

/// Puts a line and its newline at the end of a text.
fn add_line(text: &mut String, line: &str) -> Result<(), AllocError>
    ensures { OnOk result (string_bytes text.new ≡ string_bytes text.old ++ (line.now ++ 10 ∷ [])) }
{
    text.push_str(line)?;
    text.push('\n')
}
