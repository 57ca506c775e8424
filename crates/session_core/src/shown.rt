//! What a session shows, whatever its kind.

ghost use Rattle.std.specs.Prelude.{◌≡◌};
ghost use Rattle.language.specs.Language.{IsLanguage};
ghost use Rattle.language.specs.Answers.{IsNetwork};
ghost use Rattle.bias_store.specs.KeptSet.{IsMadeFor};
ghost use Rattle.session_core.specs.Standing.{knowledge_of};

use crate::knowledge::Knowledge;
use crate::session::{Asking, Collapsed, Idle, Session};
use assign::Plan;
use bias_store::Kept;
use language::Language;
use network::Network;

impl Knowledge {
    fn lang(&self) -> &Language
        ensures is { result.now ≡ self.now.lang }
        ensures lawful { IsLanguage result.now }
    {
        let lang = &self.lang;
        let _variables = lang.n();
        lang
    }

    fn kept(&self) -> &Kept
        ensures is { result.now ≡ self.now.kept }
        ensures made { IsMadeFor self.now.lang result.now }
    {
        &self.kept
    }

    fn network(&self) -> &Network
        ensures is { result.now ≡ self.now.network }
        ensures lawful { IsNetwork self.now.lang result.now.list }
    {
        &self.network
    }
}

impl Session {
    /// The language of the session.
    pub fn lang(&self) -> &Language
        ensures is { result.now ≡ (knowledge_of self.now).lang }
        ensures lawful { IsLanguage result.now }
    {
        self.knowledge().lang()
    }

    /// The plan by which the session looks for questions.
    pub fn plan(&self) -> Plan
        ensures { result ≡ (knowledge_of self.now).plan }
    {
        self.knowledge().plan
    }

    /// The candidates that are still possible.
    pub fn kept(&self) -> &Kept
        ensures is { result.now ≡ (knowledge_of self.now).kept }
        ensures made { IsMadeFor (knowledge_of self.now).lang result.now }
    {
        self.knowledge().kept()
    }

    /// The learned candidates.
    pub fn network(&self) -> &Network
        ensures is { result.now ≡ (knowledge_of self.now).network }
        ensures lawful { IsNetwork (knowledge_of self.now).lang result.now.list }
    {
        self.knowledge().network()
    }

    /// How many answers stand.
    pub fn answers(&self) -> u32
        ensures { result ≡ (knowledge_of self.now).answers }
    {
        self.knowledge().answers
    }

    fn knowledge(&self) -> &Knowledge
        ensures { result.now ≡ knowledge_of self.now }
    {
        match self {
            Session::Idle(idle) => &idle.knowledge,
            Session::Asking(asking) => &asking.knowledge,
            Session::Over(over) => &over.knowledge,
        }
    }
}

impl Idle {
    /// The language of the session.
    pub fn lang(&self) -> &Language
        ensures is { result.now ≡ (knowledge_of (Session.Idle self.now)).lang }
        ensures lawful { IsLanguage result.now }
    {
        self.knowledge.lang()
    }

    /// The plan by which the session looks for questions.
    pub fn plan(&self) -> Plan
        ensures { result ≡ (knowledge_of (Session.Idle self.now)).plan }
    {
        self.knowledge.plan
    }

    /// The candidates that are still possible.
    pub fn kept(&self) -> &Kept
        ensures is { result.now ≡ (knowledge_of (Session.Idle self.now)).kept }
        ensures made { IsMadeFor (knowledge_of (Session.Idle self.now)).lang result.now }
    {
        self.knowledge.kept()
    }

    /// The learned candidates.
    pub fn network(&self) -> &Network
        ensures is { result.now ≡ (knowledge_of (Session.Idle self.now)).network }
        ensures lawful { IsNetwork (knowledge_of (Session.Idle self.now)).lang result.now.list }
    {
        self.knowledge.network()
    }

    /// How many answers stand.
    pub fn answers(&self) -> u32
        ensures { result ≡ (knowledge_of (Session.Idle self.now)).answers }
    {
        self.knowledge.answers
    }
}

impl Asking {
    /// The language of the session.
    pub fn lang(&self) -> &Language
        ensures is { result.now ≡ (knowledge_of (Session.Asking self.now)).lang }
        ensures lawful { IsLanguage result.now }
    {
        self.knowledge.lang()
    }

    /// The plan by which the session looks for questions.
    pub fn plan(&self) -> Plan
        ensures { result ≡ (knowledge_of (Session.Asking self.now)).plan }
    {
        self.knowledge.plan
    }

    /// The candidates that are still possible.
    pub fn kept(&self) -> &Kept
        ensures is { result.now ≡ (knowledge_of (Session.Asking self.now)).kept }
        ensures made { IsMadeFor (knowledge_of (Session.Asking self.now)).lang result.now }
    {
        self.knowledge.kept()
    }

    /// The learned candidates.
    pub fn network(&self) -> &Network
        ensures is { result.now ≡ (knowledge_of (Session.Asking self.now)).network }
        ensures lawful { IsNetwork (knowledge_of (Session.Asking self.now)).lang result.now.list }
    {
        self.knowledge.network()
    }

    /// How many answers stand.
    pub fn answers(&self) -> u32
        ensures { result ≡ (knowledge_of (Session.Asking self.now)).answers }
    {
        self.knowledge.answers
    }
}

impl Collapsed {
    /// The language of the session.
    pub fn lang(&self) -> &Language
        ensures is { result.now ≡ (knowledge_of (Session.Over self.now)).lang }
        ensures lawful { IsLanguage result.now }
    {
        self.knowledge.lang()
    }

    /// The plan by which the session looks for questions.
    pub fn plan(&self) -> Plan
        ensures { result ≡ (knowledge_of (Session.Over self.now)).plan }
    {
        self.knowledge.plan
    }

    /// The candidates that are still possible.
    pub fn kept(&self) -> &Kept
        ensures is { result.now ≡ (knowledge_of (Session.Over self.now)).kept }
        ensures made { IsMadeFor (knowledge_of (Session.Over self.now)).lang result.now }
    {
        self.knowledge.kept()
    }

    /// The learned candidates.
    pub fn network(&self) -> &Network
        ensures is { result.now ≡ (knowledge_of (Session.Over self.now)).network }
        ensures lawful { IsNetwork (knowledge_of (Session.Over self.now)).lang result.now.list }
    {
        self.knowledge.network()
    }

    /// How many answers stand.
    pub fn answers(&self) -> u32
        ensures { result ≡ (knowledge_of (Session.Over self.now)).answers }
    {
        self.knowledge.answers
    }
}
