ghost use Rattle.std.specs.Prelude.{◌≡◌};
ghost use Rattle.language.specs.Language.{IsLanguage};
ghost use Rattle.cert_check.specs.Sound.{IsSound};

use crate::entry::Entry;
use crate::token::Token;
use language::{Candidate, Language};
use std::marker::Model;

/// A candidate's number, and the tokens of a tree that is to refute it, in preorder.
#[derive(Drop)]
pub struct Listed {
    candidate: u32,
    tokens: Vec<Token>,
}

impl Model for Listed {
    ghost use Rattle.cert_check.specs.Certificate.{Refutation};

    ghost Value = { Refutation };

    ghost view = { λ a. record { candidate = a.candidate; tokens = a.tokens.items } };
}

impl Listed {
    pub(crate) fn new(candidate: u32, tokens: Vec<Token>) -> Listed
        ensures { result ≡ record { candidate = candidate; tokens = tokens.items } }
    {
        Listed { candidate, tokens }
    }

    /// The candidate's number.
    pub fn candidate(&self) -> u32
        ensures { result ≡ self.now.candidate }
    {
        self.candidate
    }

    /// The tokens of the refutation, in preorder.
    pub fn tokens(&self) -> &[Token]
        ensures { result.now ≡ self.now.tokens }
    {
        &self.tokens
    }
}

/// What the text of a certificate says.
#[derive(Drop)]
pub struct Cert {
    language: Language,
    answers: Vec<Entry>,
    /// In learning order.
    network: Vec<Candidate>,
    items: Vec<Listed>,
}

impl Model for Cert {
    ghost use Rattle.cert_check.specs.Certificate.{Certificate};

    ghost Value = { Certificate };

    ghost use Rattle.cert_check.specs.Inside.{seen, IsSoundInside};

    ghost view = { seen };

    ghost invariant = { IsSoundInside };
}

impl Cert {
    pub(crate) fn new(
        language: Language,
        answers: Vec<Entry>,
        network: Vec<Candidate>,
        items: Vec<Listed>,
    ) -> Cert
        requires { IsSound (record {
          language = language;
          answers = answers.items;
          network = network.items;
          refutations = items.items;
        }) }
        ensures { result ≡ record {
          language = language;
          answers = answers.items;
          network = network.items;
          refutations = items.items;
        } }
    {
        Cert {
            language,
            answers,
            network,
            items,
        }
    }

    /// The language of the vocabulary that stands in the certificate.
    pub fn lang(&self) -> &Language
        ensures is { result.now ≡ self.now.language }
        ensures sound { IsSound self.now }
    {
        &self.language
    }

    /// The network, in learning order.
    pub fn net(&self) -> &[Candidate]
        ensures { result.now ≡ self.now.network }
    {
        &self.network
    }

    /// The answers, in the order in which they were given.
    pub fn answers(&self) -> &[Entry]
        ensures { result.now ≡ self.now.answers }
    {
        &self.answers
    }

    /// The listed candidates with their tokens.
    pub fn items(&self) -> &[Listed]
        ensures { result.now ≡ self.now.refutations }
    {
        &self.items
    }
}

// A missing proof that threads may share a certificate, or hand one over, would show here.
fn may_cross(cert: &Cert, item: &Listed) {
    is_sync(cert);
    is_send(cert);
    is_sync(item);
    is_send(item);
}

fn is_sync<T: Sync>(_value: &T) {}

fn is_send<T: Send>(_value: &T) {}
