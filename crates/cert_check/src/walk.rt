//! Going through the tokens of a tree. Only the first prefix at which a node is still to stand is
//! kept: the others follow from it.

ghost use Rattle.std.specs.Prelude.{◌≡◌, ◌<◌, ◌+◌, ◌++◌, [], ◌∷◌, length};
ghost use Rattle.language.specs.Language.{IsCandidate, IsLanguage, IsQuestion, variable_count};
ghost use Rattle.language.specs.Answers.{IsNetwork};
ghost use Rattle.language.specs.Search.{order_of, satisfies};
ghost use Rattle.cert_check.specs.declared.token.Token.TheVariants.{Branch};
ghost use Rattle.cert_check.specs.Refuting.{children, is_lawful_node, refutes, violates_item};
ghost use Rattle.cert_check.specs.Trees.{branches};
ghost use Rattle.cert_check.specs.Walking.{HasFronts, IsPrefixAt, ahead, later};

use crate::token::Token;
use arrayvec::ArrayVec;
use assign::Partial;
use language::{Candidate, Language};

/// Values for the first variables of an order.
pub(crate) type Values = ArrayVec<u8, 128>;

/// Whether the assignment gives the candidate's scope values that satisfy it.
pub(crate) fn satisfies(lang: &Language, c: Candidate, e: &Partial) -> bool
    requires candidate { IsCandidate lang.now c }
    requires question { IsQuestion lang.now e.now }
    ensures { result ≡ satisfies lang.now c e.now }
{
    match lang.place_on(c.scope, e) {
        None => false,
        Some(place) => lang.holds(c.scope, c.rel, place),
    }
}

/// Whether there is an item of this number, and it is violated.
pub(crate) fn violates_item(lang: &Language, net: &[Candidate], e: &Partial, i: u32) -> bool
    requires network { IsNetwork lang.now net.now }
    requires question { IsQuestion lang.now e.now }
    ensures { result ≡ violates_item lang.now net.now e.now i }
{
    match net.get(i as usize) {
        None => false,
        Some(c) => lang.candidate_violated(*c, e),
    }
}

/// Whether the node may stand at a prefix.
fn is_lawful(
    lang: &Language,
    net: &[Candidate],
    c: Candidate,
    values: &[u8],
    e: &Partial,
    token: Token,
) -> bool
    requires lawful { IsLanguage lang.now }
    requires candidate { IsCandidate lang.now c }
    requires network { IsNetwork lang.now net.now }
    requires at { IsPrefixAt lang.now c values.now e.now }
    ensures { result ≡ is_lawful_node lang.now net.now c values.now token }
{
    match token {
        Token::Branch => values.len() < lang.n() as usize,
        Token::Holds => satisfies(lang, c, e),
        Token::Item(i) => violates_item(lang, net, e, i),
    }
}

/// Goes on behind a prefix and those that begin with it. Says whether a node is still to stand
/// anywhere.
fn go_on(lang: &Language, c: Candidate, order: &[u8], values: &mut Values, e: &mut Partial) -> bool
    requires lawful { IsLanguage lang.now }
    requires candidate { IsCandidate lang.now c }
    requires order { order.now ≡ order_of lang.now c }
    requires at { IsPrefixAt lang.now c values.old.items e.old }
    ensures at { IsPrefixAt lang.now c values.new.items e.new }
    ensures next { later lang.now c values.old.items ≡ ahead result lang.now c values.new.items }
    ensures fronts { HasFronts values.old.items (length values.old.items) values.new.items }
{
    while let Some(x) = values.pop() {
        let v = order[values.len()];
        e.clear(v);
        let (_, last) = lang.range(v);
        if x < last {
            e.set(v, x + 1);
            values.push(x + 1);
            return true;
        }
    }
    false
}

/// Goes on from a node to the next one: below a branch, and behind a leaf. Says whether one is
/// still to stand anywhere.
pub(crate) fn step(
    lang: &Language,
    c: Candidate,
    order: &[u8],
    values: &mut Values,
    e: &mut Partial,
    token: Token,
) -> bool
    requires lawful { IsLanguage lang.now }
    requires candidate { IsCandidate lang.now c }
    requires order { order.now ≡ order_of lang.now c }
    requires at { IsPrefixAt lang.now c values.old.items e.old }
    requires branch { token ≡ Branch → length values.old.items < variable_count lang.now }
    ensures at { IsPrefixAt lang.now c values.new.items e.new }
    ensures next { children lang.now c values.old.items token
        ++ later lang.now c values.old.items ≡ ahead result lang.now c values.new.items }
    ensures fronts { HasFronts values.old.items
        (length values.old.items + branches (token ∷ [])) values.new.items }
{
    match token {
        Token::Branch => {
            let v = order[values.len()];
            let (first, _) = lang.range(v);
            e.set(v, first);
            values.push(first);
            true
        }
        Token::Holds | Token::Item(_) => go_on(lang, c, order, values, e),
    }
}

/// Whether the tokens are the lawful nodes, in preorder, of a tree that refutes the candidate.
pub(crate) fn refutes(lang: &Language, net: &[Candidate], c: Candidate, tokens: &[Token]) -> bool
    requires candidate { IsCandidate lang.now c }
    requires network { IsNetwork lang.now net.now }
    ensures { result ≡ refutes lang.now net.now c tokens.now }
{
    let order = lang.order_of(c);
    let mut values = Values::new();
    let mut e = Partial::blank(lang.n());
    let mut is_open = true;
    for token in tokens {
        if !is_open || !is_lawful(lang, net, c, &values, &e, *token) {
            return false;
        }
        is_open = step(lang, c, &order, &mut values, &mut e, *token);
    }
    !is_open
}
