//! A question that a search found.

ghost use Rattle.std.specs.Prelude.{◌≡◌, ◌≤◌, drop, length};
ghost use Rattle.language.specs.Language.{IsQuestion, accepts};
ghost use Rattle.language.specs.Answers.{IsNetwork};

use assign::Partial;
use language::{Candidate, Language};

/// A question that a search found.
#[derive(Clone, Copy, Debug)]
pub(crate) struct Find {
    /// The number of the candidate that was searched for.
    pub(crate) number: u32,
    /// How many candidates were learned.
    pub(crate) learned: u32,
    /// The question.
    pub(crate) question: Partial,
}

impl Find {
    /// The candidates that were learned since.
    pub(crate) fn learned_since<'a>(&self, list: &'a [Candidate]) -> &'a [Candidate]
        requires { self.now.learned ≤ length list.now }
        ensures { result.now ≡ drop self.now.learned list.now }
    {
        &list[self.learned as usize..]
    }

    /// Whether the question violates none of these candidates.
    pub(crate) fn is_accepted(&self, lang: &Language, list: &[Candidate]) -> bool
        requires list { IsNetwork lang.now list.now }
        requires question { IsQuestion lang.now self.now.question }
        ensures { result ≡ accepts lang.now list.now self.now.question }
    {
        for c in list {
            if lang.candidate_violated(*c, &self.question) {
                return false;
            }
        }
        true
    }
}
