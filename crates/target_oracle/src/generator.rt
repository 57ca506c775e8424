//! A language and a network that a number makes.

ghost use Rattle.std.specs.Prelude.{◌≡◌, ◌≢◌, ℕ, ◌+◌, ◌/◌, ◌%◌, ◌^◌, ◌<◌, ◌≤◌, Bool, true, []};
ghost use Rattle.std.specs.Prelude.{length, map, All, string_bytes, IfOk};
ghost use Rattle.language.specs.Language.{Given, accepts, IsLanguage, IsCandidate, IsQuestion};
ghost use Rattle.language.specs.Answers.{IsNetwork};
ghost use Rattle.language.specs.Building.{IsOver, IsBuilt};
ghost use Rattle.language.specs.Inside.{given_by};
ghost use Rattle.language.specs.Search.{satisfies};
ghost use Rattle.target_oracle.specs.Generator.{after, state_at, names, given, hidden, target_of};
ghost use Rattle.target_oracle.specs.Generator.{IsGenerated};

use assign::Partial;
use language::{Candidate, Frame, LangFault, Language, Memory, RelPart, ScopeId, ScopePart};
use network::Network;
use rel_table::Table;
use std::alloc::{AllocError, Global};

/// How many variables the language has.
const VARIABLES: u8 = 10;

/// How many relations there are on each scope.
const RELATIONS: u64 = 7;

/// The state after a draw. The draw is its upper 32 bits.
fn after(x: u64) -> u64
    ensures { result ≡ after x }
{
    x.wrapping_mul(6_364_136_223_846_793_005)
        .wrapping_add(1_442_695_040_888_963_407)
}

/// The names v1 to v10.
fn names(alloc: Global) -> Result<Vec<String>, AllocError>
    ensures { IfOk result (λ v. map string_bytes v.items ≡ names) }
{
    let mut names = Vec::new(alloc);
    for v in 0..VARIABLES {
        let number = v + 1;
        names.push(format!(in alloc; "v{number}")?)?;
    }
    Ok(names)
}

/// A relation of two of three values.
fn part(alloc: Global, name: &str, truth: &[bool]) -> Result<RelPart, Memory>
    requires { length truth.now ≡ 9 }
    ensures is { IfOk result
        (λ p. given_by p ≡ record { name = name.now; arity = 2; relation = truth.now }) }
    ensures over { IfOk result (IsOver 3) }
{
    let table = Table::from_truth(alloc, 2, 3, truth)?;
    let name = String::from_str(alloc, name)?;
    Ok(RelPart { name, table })
}

/// At most, at least, unequal.
fn relations(alloc: Global) -> Result<Vec<RelPart>, Memory>
    ensures is { IfOk result (λ v. map given_by v.items ≡ given) }
    ensures over { IfOk result (λ v. All (IsOver 3) v.items) }
{
    let at_most = [true, true, true, false, true, true, false, false, true];
    let at_least = [true, false, false, true, true, false, true, true, true];
    let unequal = [false, true, true, true, false, true, true, true, false];
    let le = part(alloc, "le", &at_most)?;
    let ge = part(alloc, "ge", &at_least)?;
    let ne = part(alloc, "ne", &unequal)?;
    Ok(vec![in alloc; le, ge, ne]?)
}

/// Whether a language wasn't built for want of memory.
fn is_memory(fault: LangFault) -> bool
    ensures { fault ≡ LangFault.Memory → result ≡ true }
{
    match fault {
        LangFault::Memory => true,
        _ => false,
    }
}

/// The language, which is the same for each number.
fn language(alloc: Global) -> Result<Language, Memory>
    ensures { IfOk result IsGenerated }
{
    let names = names(alloc)?;
    let Ok(frame) = Frame::new(names, 1, 3) else {
        unreachable!()
    };
    let relations = relations(alloc)?;
    match Language::build(alloc, frame, relations, ScopePart::All) {
        Ok(language) => Ok(language),
        Err(fault) => {
            if !is_memory(fault) {
                unreachable!()
            }
            Err(Memory)
        }
    }
}

/// The hidden values, and the state after their draws.
fn hidden_values(number: u32) -> (Partial, u64)
    ensures hidden { result.0 ≡ hidden number }
    ensures state { result.1 ≡ state_at number 10 }
{
    let mut values = Partial::blank(VARIABLES);
    let mut state = u64::from(number);
    for v in 0..VARIABLES {
        state = after(state);
        values.set(v, ((state >> 32) % 3) as u8);
    }
    (values, state)
}

/// Whether an assignment has a value for each variable of the candidate's scope, and its relation
/// accepts them. A relation that there isn't accepts nothing.
fn is_satisfied(lang: &Language, c: Candidate, q: &Partial) -> bool
    requires scope { c.scope < length lang.now.scopes }
    requires question { IsQuestion lang.now q.now }
    ensures is { result ≡ satisfies lang.now c q.now }
    ensures candidate { result ≡ true → IsCandidate lang.now c }
{
    if c.rel >= lang.relations_on(c.scope) {
        return false;
    }
    match lang.place_on(c.scope, q) {
        None => false,
        Some(place) => lang.holds(c.scope, c.rel, place),
    }
}

/// The network that the number draws: on each scope the relation of the drawn number, where the
/// hidden values satisfy it.
fn target(alloc: Global, lang: &Language, number: u32) -> Result<Network, Memory>
    requires { IsQuestion lang.now (hidden number) }
    ensures is { IfOk result (λ net. net.list ≡ target_of number lang.now) }
    ensures network { IfOk result (λ net. IsNetwork lang.now net.list) }
    ensures scopes { IfOk result (λ net. net.scopes ≡ length lang.now.scopes) }
{
    let (values, first) = hidden_values(number);
    let mut net = Network::new(alloc, lang)?;
    let mut state = first;
    for s in 0..lang.scopes() as ScopeId {
        state = after(state);
        let c = Candidate {
            scope: s,
            rel: ((state >> 32) % RELATIONS) as u8,
        };
        if is_satisfied(lang, c, &values) {
            net.learn(c);
        }
    }
    Ok(net)
}

/// The language of ten variables of the values 1 to 3 with the relations `le`, `ge` and `ne` on all
/// pairs, and the network that this number draws. Hidden values are drawn first, and they are a
/// solution of the network.
///
/// The draws are those of a linear congruential generator of 64 bits that begins with the number;
/// each is the upper half of its state.
pub fn generate(alloc: Global, number: u32) -> Result<(Language, Network), Memory>
    ensures language { IfOk result (λ made. IsGenerated made.0) }
    ensures target { IfOk result (λ made. made.1.list ≡ target_of number made.0) }
    ensures network { IfOk result (λ made. IsNetwork made.0 made.1.list) }
    ensures scopes { IfOk result (λ made. made.1.scopes ≡ length made.0.scopes) }
    ensures question { IfOk result (λ made. IsQuestion made.0 (hidden number)) }
    ensures solved { IfOk result (λ made. accepts made.0 made.1.list (hidden number) ≡ true) }
{
    let lang = language(alloc)?;
    let net = target(alloc, &lang, number)?;
    Ok((lang, net))
}
