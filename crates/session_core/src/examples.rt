//! Which whole examples may be put.

ghost use Rattle.std.specs.Prelude.{◌≡◌, ◌<◌, true};
ghost use Rattle.std.specs.List.{list_all};
ghost use Rattle.assign.specs.Sets.{numbers};
ghost use Rattle.assign.specs.Assignment.{value_of};
ghost use Rattle.assign.specs.declared.events.Plan.TheVariants.{Quacq};
ghost use Rattle.language.specs.Language.{is_question, is_ranged, variable_count, IsQuestion};
ghost use Rattle.session_laws.specs.Session.{is_lawful};

use crate::knowledge::Knowledge;
use assign::Partial;
use language::Language;

/// Whether a variable of q has no value or one of its range.
fn is_value_ranged(lang: &Language, q: &Partial, v: u8) -> bool
    requires { v < variable_count lang.now }
    ensures { result ≡ is_ranged lang.now v (value_of q.now v) }
{
    match q.get(v) {
        Some(value) => {
            let (first, last) = lang.range(v);
            first <= value && value <= last
        }
        None => true,
    }
}

/// Whether each variable of q has no value or one of its range.
fn are_values_ranged(lang: &Language, q: &Partial) -> bool
    ensures { result ≡ list_all (λ v. is_ranged lang.now v (value_of q.now v))
        (numbers (variable_count lang.now)) }
{
    (0..lang.n()).all(|v| is_value_ranged(lang, q, v))
}

/// Whether q is an assignment of the language's variables, each to a value of its range.
fn is_question(lang: &Language, q: &Partial) -> bool
    ensures is { result ≡ is_question lang.now q.now }
    ensures question { result ≡ true → IsQuestion lang.now q.now }
{
    q.len() == lang.n() && are_values_ranged(lang, q)
}

/// Whether an example may be put: it is complete, the network accepts it, and it violates a kept
/// candidate.
pub(crate) fn is_example(knowledge: &Knowledge, q: &Partial) -> bool
    ensures { let k = knowledge.now in
        result ≡ is_lawful k.lang Quacq k.kept.members k.network.list q.now }
{
    let lang = &knowledge.lang;
    if !is_question(lang, q) {
        return false;
    }
    q.is_complete() && knowledge.network.accepts(lang, q) && knowledge.kept.strikes_any(lang, q)
}
