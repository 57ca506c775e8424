//! What is told of a certificate.

ghost use Rattle.std.specs.Prelude.{◌≡◌, ◌++◌, ◌∷◌, [], IfOk, OnOk, string_bytes};
ghost use Rattle.cert_check.specs.Texts.{cert_fault_line, confirmed_text, flaw_line};
ghost use Rattle.cert_check.specs.Texts.{make_fault_line};

use crate::cert::Cert;
use crate::fault::{CertFault, MakeFault};
use crate::verdict::Flaw;
use language::Memory;
use std::alloc::{AllocError, Global};
use voc_read::{VocFault, voc_text};

/// Puts a line and its newline at the end of a text.
fn add_line(text: &mut String, line: &str) -> Result<(), AllocError>
    ensures { OnOk result (string_bytes text.new ≡ string_bytes text.old ++ (line.now ++ 10 ∷ [])) }
{
    text.push_str(line)?;
    text.push('\n')
}

/// `confirmed 2`, where the certificate has so many answers, and a line for each item of the
/// network.
pub fn confirmed_text(alloc: Global, cert: &Cert) -> Result<String, Memory>
    ensures { IfOk result (λ text. string_bytes text ≡ confirmed_text cert.now) }
{
    let answers = cert.answers().len();
    let lang = cert.lang();
    let net = cert.net();
    let mut text = format!(in alloc; "confirmed {answers}\n")?;
    for c in net {
        let line = lang.candidate_text(alloc, *c)?;
        add_line(&mut text, &line)?;
    }
    Ok(text)
}

/// What is told of a flaw, a line: `refused certificate uncovered 3`.
pub fn flaw_text(alloc: Global, flaw: &Flaw) -> Result<String, Memory>
    ensures { IfOk result (λ text. string_bytes text ≡ flaw_line flaw.now) }
{
    let text = match flaw {
        Flaw::Answer(i) => format!(in alloc; "refused certificate answer {i}\n"),
        Flaw::ScopeTwice(i) => format!(in alloc; "refused certificate scope twice {i}\n"),
        Flaw::NoOwnNo(i) => format!(in alloc; "refused certificate no own answer {i}\n"),
        Flaw::Rival(c) => format!(in alloc; "refused certificate rival {c}\n"),
        Flaw::Uncovered(c) => format!(in alloc; "refused certificate uncovered {c}\n"),
        Flaw::Refutation(i) => format!(in alloc; "refused certificate refutation {i}\n"),
    }?;
    Ok(text)
}

/// Why no certificate is made, a line: `refused certificate long 0`. Nothing that is given causes
/// want of memory; it is told as `memory`.
pub fn make_fault_text(alloc: Global, fault: &MakeFault) -> Result<String, Memory>
    ensures { IfOk result (λ text. string_bytes text ≡ make_fault_line fault.now) }
{
    let text = match fault {
        MakeFault::Long(c) => format!(in alloc; "refused certificate long {c}\n"),
        MakeFault::TooLarge => String::from_str(alloc, "refused certificate too large\n"),
        MakeFault::Memory => String::from_str(alloc, "refused certificate memory\n"),
    }?;
    Ok(text)
}

/// A vocabulary's fault as a line.
fn voc_fault_text(alloc: Global, fault: VocFault) -> Result<String, AllocError>
    ensures { IfOk result (λ text. string_bytes text ≡ cert_fault_line (CertFault.Voc fault)) }
{
    let told = voc_text(alloc, fault)?;
    format!(in alloc; "refused certificate form vocabulary {told}\n")
}

/// Why a text is no certificate, a line: `refused certificate form bad line 4`. No bytes cause want
/// of memory; it is told as `memory`.
pub fn cert_fault_text(alloc: Global, fault: &CertFault) -> Result<String, Memory>
    ensures { IfOk result (λ text. string_bytes text ≡ cert_fault_line fault.now) }
{
    let text = match fault {
        CertFault::TooLong => String::from_str(alloc, "refused certificate form too long\n"),
        CertFault::BadLine(i) => format!(in alloc; "refused certificate form bad line {i}\n"),
        CertFault::Voc(fault) => voc_fault_text(alloc, *fault),
        CertFault::Memory => String::from_str(alloc, "refused certificate form memory\n"),
    }?;
    Ok(text)
}
