//! What an answer makes of what a session knows.

ghost use Rattle.std.specs.Prelude.{◌≡◌, ◌+◌, ◌-◌, ◌^◌, min, true, false, not, filter, IfSome};
ghost use Rattle.assign.specs.Assignment.{Assignment};
ghost use Rattle.language.specs.Language.{IsLanguage, IsQuestion, violates};
ghost use Rattle.bias_store.specs.KeptSet.{IsMadeFor};
ghost use Rattle.session_core.specs.Known.{IsAbout, IsAnswered};
ghost use Rattle.session_core.specs.Putting.{question_put};

use crate::knowledge::Knowledge;
use crate::put::Put;
use crate::session::Asking;
use assign::Partial;
use bias_store::Kept;
use language::{Language, ScopeId};

/// The count after an answer. No session of a language has so many that it stops.
fn one_more(lang: &Language, answers: u32) -> u32
    ensures is { result ≡ min (answers + 1) (2 ^ 32 - 1) }
    ensures lawful { IsLanguage lang.now }
{
    let _variables = lang.n();
    answers.saturating_add(1)
}

/// Takes out the candidates that a question violates. Where it is about a tuple, no other scope is
/// looked at.
fn strike(lang: &Language, kept: &mut Kept, q: &Partial, scope: Option<ScopeId>)
    requires made { IsMadeFor lang.now kept.old }
    requires question { IsQuestion lang.now q.now }
    requires about { IfSome scope (IsAbout lang.now q.now) }
    ensures kept { kept.new.members
        ≡ filter (λ c. not (violates lang.now c q.now)) kept.old.members }
    ensures made { IsMadeFor lang.now kept.new }
{
    match scope {
        Some(s) => kept.strike_on(lang, s, q),
        None => {
            kept.strike(lang, q);
        }
    }
}

impl Knowledge {
    /// Takes in a yes to a question, which may be about a tuple on a scope: it strikes the
    /// candidates that the question violates.
    fn hear_yes(&mut self, q: &Partial, scope: Option<ScopeId>)
        requires question { IsQuestion self.old.lang q.now }
        requires about { IfSome scope (IsAbout self.old.lang q.now) }
        ensures answered { IsAnswered self.old q.now true self.new }
        ensures lawful { IsLanguage self.new.lang }
    {
        strike(&self.lang, &mut self.kept, q, scope);
        self.answers = one_more(&self.lang, self.answers);
    }

    /// Takes in a no, which strikes none.
    fn hear_no(&mut self)
        ensures answered { (q : Assignment) → IsAnswered self.old q false self.new }
        ensures lawful { IsLanguage self.new.lang }
    {
        self.answers = one_more(&self.lang, self.answers);
    }
}

impl Asking {
    /// What is known after an answer to the open question, and what was put.
    pub(crate) fn known_after(self, question: &Partial, yes: bool) -> (Box<Knowledge>, Box<Put>)
        requires asked { question_put self.knowledge.value.lang self.put.value ≡ question.now }
        requires fits { IsQuestion self.knowledge.value.lang question.now }
        ensures answered { let k = self.knowledge.value in
            IsAnswered k (question_put k.lang self.put.value) «yes» result.0.value }
        ensures lawful { IsLanguage result.0.value.lang }
        ensures put { result.1.value ≡ self.put.value }
    {
        if yes {
            let scope = self.scope();
            let Asking { mut knowledge, put } = self;
            knowledge.hear_yes(question, scope);
            (knowledge, put)
        } else {
            let Asking { mut knowledge, put } = self;
            knowledge.hear_no();
            (knowledge, put)
        }
    }
}
