//! Writing the tree by which the network implies a candidate.

ghost use Rattle.std.specs.Prelude.{◌≡◌, ◌<◌, ◌≤◌, ◌+◌, false, [], ◌∷◌, length, IfOk, OnOk};
ghost use Rattle.std.specs.List.{flat_map};
ghost use Rattle.language.specs.Language.{IsCandidate, IsImplied, IsLanguage, IsQuestion};
ghost use Rattle.language.specs.Language.{variable_count};
ghost use Rattle.language.specs.Answers.{IsNetwork};
ghost use Rattle.language.specs.Search.{order_of, satisfies};
ghost use Rattle.cert_check.specs.declared.token.Token.TheVariants.{Branch};
ghost use Rattle.cert_check.specs.ByVariable.{by_variable};
ghost use Rattle.cert_check.specs.Making.{is_long};
ghost use Rattle.cert_check.specs.Sheets.{AddsPiece};
ghost use Rattle.cert_check.specs.Siblings.{AreLevels};
ghost use Rattle.cert_check.specs.Trees.{branches, node_at, node_of, tree_of};
ghost use Rattle.cert_check.specs.Walking.{IsPrefixAt};
ghost use Rattle.cert_check.specs.Written.{token_text};

use crate::by_variable::ByVariable;
use crate::sheet::Sheet;
use crate::siblings::{Siblings, first_violated};
use crate::token::Token;
use crate::walk::{Values, satisfies, step};
use assign::Partial;
use language::{Candidate, Language};
use std::alloc::{AllocError, Global};

/// The node of the candidate's tree at a prefix that gives this assignment, where this is the first
/// item that it violates.
fn node(lang: &Language, c: Candidate, item: Option<u32>, e: &Partial) -> Token
    requires candidate { IsCandidate lang.now c }
    requires question { IsQuestion lang.now e.now }
    ensures { result ≡ node_of item (satisfies lang.now c e.now) }
{
    match item {
        Some(i) => Token::Item(i),
        None if satisfies(lang, c, e) => Token::Holds,
        None => Token::Branch,
    }
}

/// Where a branch stands at a prefix, adds to its levels what the network makes of each value of
/// the next variable.
fn add_level(
    levels: &mut Vec<Siblings>,
    lang: &Language,
    net: &[Candidate],
    by: &ByVariable,
    c: Candidate,
    order: &[u8],
    values: &[u8],
    e: &Partial,
    token: Token,
) -> Result<(), AllocError>
    requires lawful { IsLanguage lang.now }
    requires candidate { IsCandidate lang.now c }
    requires network { IsNetwork lang.now net.now }
    requires by { by.now ≡ by_variable lang.now net.now }
    requires order { order.now ≡ order_of lang.now c }
    requires at { IsPrefixAt lang.now c values.now e.now }
    requires node { token ≡ node_at lang.now net.now c values.now }
    requires room { token ≡ Branch → length values.now < variable_count lang.now }
    requires levels { AreLevels lang.now net.now c (length values.now) values.now levels.old.items }
    ensures { OnOk result (AreLevels lang.now net.now c
        (length values.now + branches (token ∷ [])) values.now levels.new.items) }
{
    match token {
        Token::Branch => {
            let siblings = Siblings::of(lang, net, by, order[values.len()], e);
            levels.truncate(values.len());
            levels.push(siblings)?;
            Ok(())
        }
        Token::Holds | Token::Item(_) => Ok(()),
    }
}

/// Adds a token, with a space before it.
fn add_token(sheet: &mut Sheet, token: Token) -> Result<(), AllocError>
    ensures { OnOk result (AddsPiece sheet.old (token_text token) sheet.new) }
{
    match token {
        Token::Branch => sheet.add(" b"),
        Token::Holds => sheet.add(" c"),
        Token::Item(i) => {
            sheet.add(" ")?;
            sheet.add_number(u64::from(i))
        }
    }
}

/// How many branches a node is: one or none.
fn branches_of(token: Token) -> u32
    ensures is { result ≡ branches (token ∷ []) }
    ensures few { result ≤ 1 }
{
    match token {
        Token::Branch => 1,
        Token::Holds | Token::Item(_) => 0,
    }
}

/// Adds the tokens of the candidate's tree. Says whether the tree has more branches than the
/// budget; then it isn't added whole.
pub(crate) fn add_tree(
    alloc: Global,
    sheet: &mut Sheet,
    lang: &Language,
    net: &[Candidate],
    by: &ByVariable,
    c: Candidate,
    budget: u32,
) -> Result<bool, AllocError>
    requires candidate { IsCandidate lang.now c }
    requires network { IsNetwork lang.now net.now }
    requires by { by.now ≡ by_variable lang.now net.now }
    requires implied { IsImplied lang.now net.now c }
    requires small_budget { budget ≤ 1000000000 }
    ensures long { IfOk result (λ long. long ≡ is_long lang.now net.now budget c) }
    ensures added { IfOk result (λ long. long ≡ false →
        AddsPiece sheet.old (flat_map token_text (tree_of lang.now net.now c)) sheet.new) }
{
    let order = lang.order_of(c);
    let mut levels = Vec::new(alloc);
    let mut values = Values::new();
    let mut e = Partial::blank(lang.n());
    let mut count = 0;
    let mut is_open = true;
    while is_open {
        let item = first_violated(&levels, &values);
        let token = node(lang, c, item, &e);
        count += branches_of(token);
        if count > budget {
            return Ok(true);
        }
        add_token(sheet, token)?;
        add_level(&mut levels, lang, net, by, c, &order, &values, &e, token)?;
        is_open = step(lang, c, &order, &mut values, &mut e, token);
    }
    Ok(false)
}
