//! How a session moves: a question is put, an answer is given.

ghost use Rattle.std.specs.Prelude.{◌≡◌, ◌≢◌, ◌++◌, ◌∷◌, [], List, IfOk, IfSome, IsTrue, Some};
ghost use Rattle.std.specs.Prelude.{None, length, true, false};
ghost use Rattle.assign.specs.Events.{Answer};
ghost use Rattle.assign.specs.declared.events.Plan.{Plan};
ghost use Rattle.language.specs.Language.{candidates, IsLanguage, IsQuestion};
ghost use Rattle.bias_store.specs.KeptSet.{IsMadeFor};
ghost use Rattle.language.specs.declared.candidates.Candidate.{Candidate};
ghost use Rattle.multi_tree.specs.Listed.{IsListing};
ghost use Rattle.multi_tree.specs.Stage.{walk_in};
ghost use Rattle.session_laws.specs.Walk.{Ended};
ghost use Rattle.session_laws.specs.Session.{is_lawful, scope_question, walk_end};
ghost use Rattle.session_laws.specs.Laws.{IsWalked};
ghost use Rattle.session_core.specs.Settled.{IsSettled, HasNoNew};
ghost use Rattle.session_core.specs.Standing.{Stands, IsAskedAfter, knowledge_of, open_in};
ghost use Rattle.session_core.specs.Known.{IsAbout};
ghost use Rattle.session_core.specs.Sound.{FirstRun};
ghost use Rattle.session_core.specs.Leading.{StandsWhereIdle};
ghost use Rattle.session_core.specs.Putting.{is_tuple, question_put};

use crate::examples::is_example;
use crate::going::{halve_on, part_answered, tuple_answered};
use crate::knowledge::Knowledge;
use crate::put::Put;
use crate::scopes::first_run;
use crate::session::{Asking, Idle, Session};
use assign::{Partial, Plan, VarSet};
use bias_store::Kept;
use find_c::RelRun;
use language::{Language, Memory, ScopeId};
use multi_tree::{Listing, Tree};
use network::Network;
use std::alloc::Global;

/// The candidates, the network and the walk of a session without answers.
fn empty_parts(alloc: Global, lang: &Language) -> Result<(Kept, Network, Tree, Listing), Memory>
    ensures all { IfOk result (λ parts. parts.0.members ≡ candidates lang.now) }
    ensures made { IfOk result (λ parts. IsMadeFor lang.now parts.0) }
    ensures empty { IfOk result (λ parts. parts.1.list ≡ []) }
    ensures scopes { IfOk result (λ parts. parts.1.scopes ≡ length lang.now.scopes) }
    ensures resting { IfOk result (λ parts. walk_in parts.2 ≡ None) }
    ensures listed { IfOk result (λ parts. (l : _) (network : List Candidate) (e : _) →
        IsListing l network e parts.3) }
{
    let kept = Kept::of(alloc, lang)?;
    let network = Network::new(alloc, lang)?;
    let tree = Tree::make(alloc)?;
    let listing = Listing::make(alloc)?;
    Ok((kept, network, tree, listing))
}

/// A new session of this language and plan, without answers. `Memory` drops the language.
pub fn begin(alloc: Global, lang: Language, plan: Plan) -> Result<Session, Memory>
    ensures stands { IfOk result (λ session. Stands session []) }
    ensures idle { IfOk result (λ session. open_in session ≡ None) }
    ensures lang { IfOk result (λ session. (knowledge_of session).lang ≡ lang) }
    ensures plan { IfOk result (λ session. (knowledge_of session).plan ≡ plan) }
{
    let (kept, network, tree, listing) = empty_parts(alloc, &lang)?;
    let question = Partial::blank(1);
    let knowledge = Knowledge {
        lang,
        plan,
        kept,
        network,
        answers: 0,
        next: 0,
        tree,
        listing,
        question,
    };
    let Ok(knowledge) = Box::new(alloc, knowledge) else {
        return Err(Memory);
    };
    let Ok(room) = Box::new(alloc, Put::blank()) else {
        return Err(Memory);
    };
    Ok(Session::Idle(Idle { knowledge, room }))
}

impl Session {
    /// The session without answers, of the same language and plan.
    pub fn restart(self) -> Session
        ensures stands { Stands result [] }
        ensures idle { open_in result ≡ None }
        ensures lang { (knowledge_of result).lang ≡ (knowledge_of self).lang }
        ensures plan { (knowledge_of result).plan ≡ (knowledge_of self).plan }
    {
        match self {
            Session::Idle(idle) => fresh_session(idle.knowledge, idle.room),
            Session::Asking(asking) => fresh_session(asking.knowledge, asking.put),
            Session::Over(over) => fresh_session(over.knowledge, over.room),
        }
    }
}

/// The session of the same language and plan that knows nothing yet.
fn fresh_session(mut knowledge: Box<Knowledge>, room: Box<Put>) -> Session
    ensures stands { Stands result [] }
    ensures idle { open_in result ≡ None }
    ensures lang { (knowledge_of result).lang ≡ knowledge.value.lang }
    ensures plan { (knowledge_of result).plan ≡ knowledge.value.plan }
{
    let known = knowledge.as_mut();
    known.kept.reset(&known.lang);
    known.network.clear();
    known.tree.clear();
    known.listing.clear();
    known.answers = 0;
    known.next = 0;
    Session::Idle(Idle { knowledge, room })
}

impl Knowledge {
    /// The run on the first scope whose choices differ.
    fn first_run(&self) -> Option<RelRun>
        ensures { let k = self.now in FirstRun k.lang k.kept.members k.network.list result }
    {
        first_run(&self.lang, &self.kept, self.next)
    }

    /// The same, given its question: that isn't looked for again.
    fn run_asking(&self, q: &Partial) -> Option<RelRun>
        requires { let k = self.now in
            IsTrue (is_lawful k.lang Plan.Scopes k.kept.members k.network.list q.now) }
        ensures { let k = self.now in FirstRun k.lang k.kept.members k.network.list result }
    {
        for s in self.next..self.lang.scopes() {
            // It gives values to the variables of one scope alone.
            if let Some(place) = self.lang.place_on(s as ScopeId, q) {
                return Some(RelRun::asking(&self.lang, &self.kept, s as ScopeId, place));
            }
        }
        self.first_run()
    }

    /// The first question of the first scope whose choices differ. None where there is none.
    fn first_question(&self) -> Option<Partial>
        ensures is { let k = self.now in
            result ≡ scope_question k.lang k.kept.members k.network.list }
        ensures fits { IfSome result (IsQuestion self.now.lang) }
    {
        match self.first_run() {
            Some(run) => Some(run.wants(&self.lang)),
            None => None,
        }
    }

    /// Whether a question is the first of the first scope whose choices differ.
    fn is_first_question(&self, q: &Partial) -> bool
        ensures { let k = self.now in
            result ≡ is_lawful k.lang Plan.Scopes k.kept.members k.network.list q.now }
    {
        match self.first_question() {
            Some(question) => question.equals(q),
            None => false,
        }
    }
}

/// Puts the first question of the first scope whose choices differ.
fn ask_first(mut knowledge: Box<Knowledge>, mut room: Box<Put>, q: Partial) -> Asking
    requires plan { knowledge.value.plan ≡ Plan.Scopes }
    requires lawful { let k = knowledge.value in
        IsTrue (is_lawful k.lang k.plan k.kept.members k.network.list q) }
    ensures question { open_in (Session.Asking result) ≡ Some q }
    ensures lang { (knowledge_of (Session.Asking result)).lang ≡ knowledge.value.lang }
    ensures plan { (knowledge_of (Session.Asking result)).plan ≡ knowledge.value.plan }
    ensures stands { StandsWhereIdle knowledge.value (Session.Asking result) }
{
    match knowledge.run_asking(&q) {
        Some(run) => {
            let known = knowledge.as_mut();
            known.next = u32::from(run.scope());
            known.question = q;
            *room = Put::FirstTuple(run);
            Asking {
                knowledge,
                put: room,
            }
        }
        None => unreachable!(),
    }
}

/// Puts an example.
fn ask_whole(mut knowledge: Box<Knowledge>, mut room: Box<Put>, q: Partial) -> Asking
    requires plan { knowledge.value.plan ≡ Plan.Quacq }
    requires lawful { let k = knowledge.value in
        IsTrue (is_lawful k.lang k.plan k.kept.members k.network.list q) }
    ensures question { open_in (Session.Asking result) ≡ Some q }
    ensures lang { (knowledge_of (Session.Asking result)).lang ≡ knowledge.value.lang }
    ensures plan { (knowledge_of (Session.Asking result)).plan ≡ knowledge.value.plan }
    ensures stands { StandsWhereIdle knowledge.value (Session.Asking result) }
{
    knowledge.as_mut().question = q;
    *room = Put::Example(q);
    Asking {
        knowledge,
        put: room,
    }
}

/// Puts an example, and begins its walk.
fn ask_walked(mut knowledge: Box<Knowledge>, mut room: Box<Put>, q: Partial) -> Asking
    requires plan { knowledge.value.plan ≡ Plan.Multi }
    requires lawful { let k = knowledge.value in
        IsTrue (is_lawful k.lang k.plan k.kept.members k.network.list q) }
    ensures question { open_in (Session.Asking result) ≡ Some q }
    ensures lang { (knowledge_of (Session.Asking result)).lang ≡ knowledge.value.lang }
    ensures plan { (knowledge_of (Session.Asking result)).plan ≡ knowledge.value.plan }
    ensures stands { StandsWhereIdle knowledge.value (Session.Asking result) }
{
    let known = knowledge.as_mut();
    let _variables = known.lang.n();
    known.tree.start(&known.lang, q);
    known.listing.clear();
    // All of it is asked about: the network accepts it, and it violates a kept candidate.
    let _ = known.tree.next_beside(&known.lang, &known.network, &known.kept, &mut known.listing);
    known.question = q;
    *room = Put::Example(q);
    Asking {
        knowledge,
        put: room,
    }
}

impl Idle {
    /// In plan Scopes the first question of the first scope whose choices differ. None where there
    /// is none, and in the other plans.
    pub fn scope_question(&self) -> Option<Partial>
        ensures is { let k = knowledge_of (Session.Idle self.now) in k.plan ≡ Plan.Scopes →
            result ≡ scope_question k.lang k.kept.members k.network.list }
        ensures others { (knowledge_of (Session.Idle self.now)).plan ≢ Plan.Scopes → result ≡ None }
        ensures fits { IfSome result (IsQuestion (knowledge_of (Session.Idle self.now)).lang) }
    {
        match self.knowledge.plan {
            Plan::Scopes => self.knowledge.first_question(),
            Plan::Quacq | Plan::Multi => None,
        }
    }

    /// Whether a question may be put. In plan Scopes `scope_question` alone may. In the others a
    /// whole example may that the network accepts and that violates a kept candidate.
    pub fn is_lawful(&self, q: &Partial) -> bool
        ensures { let k = knowledge_of (Session.Idle self.now) in
            result ≡ is_lawful k.lang k.plan k.kept.members k.network.list q.now }
    {
        match self.knowledge.plan {
            Plan::Scopes => self.knowledge.is_first_question(q),
            Plan::Quacq | Plan::Multi => is_example(&self.knowledge, q),
        }
    }

    /// Puts a question.
    pub fn ask(self, q: Partial) -> Asking
        requires { let k = knowledge_of (Session.Idle self) in
            IsTrue (is_lawful k.lang k.plan k.kept.members k.network.list q) }
        ensures question { open_in (Session.Asking result) ≡ Some q }
        ensures lang { (knowledge_of (Session.Asking result)).lang
            ≡ (knowledge_of (Session.Idle self)).lang }
        ensures plan { (knowledge_of (Session.Asking result)).plan
            ≡ (knowledge_of (Session.Idle self)).plan }
        ensures stands { (t : List Answer) → Stands (Session.Idle self) t →
            Stands (Session.Asking result) t }
    {
        let Idle { knowledge, room } = self;
        match knowledge.plan {
            Plan::Scopes => ask_first(knowledge, room, q),
            Plan::Quacq => ask_whole(knowledge, room, q),
            Plan::Multi => ask_walked(knowledge, room, q),
        }
    }
}

impl Asking {
    /// The scope of the tuple that is asked about, where it is one.
    pub(crate) fn scope(&self) -> Option<ScopeId>
        ensures { let k = knowledge_of (Session.Asking self.now) in
            IfSome result (IsAbout k.lang (question_put k.lang self.now.put.value)) }
    {
        let _variables = self.knowledge.lang.n();
        match &*self.put {
            Put::FirstTuple(run) => Some(run.scope()),
            Put::Tuple(run) => Some(run.scope()),
            Put::Example(_) | Put::OnWalk { .. } | Put::Part { .. } => None,
        }
    }

    /// The question that is open. After each list of answers that leads here, it is the one that is
    /// asked.
    pub fn question(&self) -> Partial
        ensures is { open_in (Session.Asking self.now) ≡ Some result }
        ensures fits { IsQuestion (knowledge_of (Session.Asking self.now)).lang result }
        ensures asked { (t : List Answer) → let k = knowledge_of (Session.Asking self.now) in
            Stands (Session.Asking self.now) t → IsAskedAfter k.lang k.plan t result }
    {
        *self.asked()
    }

    /// `question`, where it stands.
    pub fn asked(&self) -> &Partial
        ensures is { open_in (Session.Asking self.now) ≡ Some result.now }
        ensures fits { IsQuestion (knowledge_of (Session.Asking self.now)).lang result.now }
        ensures asked { (t : List Answer) → let k = knowledge_of (Session.Asking self.now) in
            Stands (Session.Asking self.now) t → IsAskedAfter k.lang k.plan t result.now }
    {
        let _variables = self.knowledge.lang.n();
        &self.knowledge.question
    }

    /// The session after this answer to the open question.
    pub fn answer(self, yes: bool) -> Session
        ensures lang { (knowledge_of result).lang ≡ (knowledge_of (Session.Asking self)).lang }
        ensures plan { (knowledge_of result).plan ≡ (knowledge_of (Session.Asking self)).plan }
        ensures stands { (t : List Answer) (q : _) → open_in (Session.Asking self) ≡ Some q →
            Stands (Session.Asking self) t
            → Stands result (t ++ record { question = q; yes = «yes» } ∷ []) }
        // where the answers lead to where nothing is open, no question is put
        ensures settled { (t : List Answer) → Stands result t →
            IsSettled (knowledge_of result).lang (knowledge_of result).plan t (open_in result) }
        // where the last answer has ended the walk of an example, nothing is left to learn from it
        ensures walked { (t : List Answer) (e : _) → let k = knowledge_of result in
            Stands result t → k.plan ≡ Plan.Multi
            → walk_end k.lang t ≡ Some (Ended e) → IsWalked k.lang t k.network.list e }
    {
        let question = self.question();
        self.heard(&question, yes)
    }

    /// `answer`, where the open question is at hand: it isn't made again.
    pub fn answer_to(self, question: &Partial, yes: bool) -> Session
        requires asked { open_in (Session.Asking self) ≡ Some question.now }
        requires fits { IsQuestion (knowledge_of (Session.Asking self)).lang question.now }
        ensures lang { (knowledge_of result).lang ≡ (knowledge_of (Session.Asking self)).lang }
        ensures plan { (knowledge_of result).plan ≡ (knowledge_of (Session.Asking self)).plan }
        ensures stands { (t : List Answer) (q : _) → open_in (Session.Asking self) ≡ Some q →
            Stands (Session.Asking self) t
            → Stands result (t ++ record { question = q; yes = «yes» } ∷ []) }
        // where the answers lead to where nothing is open, no question is put
        ensures settled { (t : List Answer) → Stands result t →
            IsSettled (knowledge_of result).lang (knowledge_of result).plan t (open_in result) }
        // where the last answer has ended the walk of an example, nothing is left to learn from it
        ensures walked { (t : List Answer) (e : _) → let k = knowledge_of result in
            Stands result t → k.plan ≡ Plan.Multi
            → walk_end k.lang t ≡ Some (Ended e) → IsWalked k.lang t k.network.list e }
    {
        self.heard(question, yes)
    }

    /// The same session.
    fn heard(self, question: &Partial, yes: bool) -> Session
        requires asked { question_put self.knowledge.value.lang self.put.value ≡ question.now }
        requires fits { IsQuestion self.knowledge.value.lang question.now }
        ensures lang { (knowledge_of result).lang ≡ (knowledge_of (Session.Asking self)).lang }
        ensures plan { (knowledge_of result).plan ≡ (knowledge_of (Session.Asking self)).plan }
        ensures lawful { IsLanguage (knowledge_of result).lang }
        ensures none_new { HasNoNew result }
        ensures stands { (t : List Answer) (q : _) → open_in (Session.Asking self) ≡ Some q →
            Stands (Session.Asking self) t
            → Stands result (t ++ record { question = q; yes = «yes» } ∷ []) }
    {
        match &*self.put {
            Put::FirstTuple(_) | Put::Tuple(_) => self.tuple_heard(question, yes),
            Put::Example(_) | Put::OnWalk { .. } | Put::Part { .. } => self.example_heard(
                question, yes,
            ),
        }
    }

    /// The same, where a tuple was put: it alone is moved.
    fn tuple_heard(self, question: &Partial, yes: bool) -> Session
        requires kind { is_tuple self.put.value ≡ true }
        requires asked { question_put self.knowledge.value.lang self.put.value ≡ question.now }
        requires fits { IsQuestion self.knowledge.value.lang question.now }
        ensures lang { (knowledge_of result).lang ≡ (knowledge_of (Session.Asking self)).lang }
        ensures plan { (knowledge_of result).plan ≡ (knowledge_of (Session.Asking self)).plan }
        ensures lawful { IsLanguage (knowledge_of result).lang }
        ensures none_new { HasNoNew result }
        ensures stands { (t : List Answer) (q : _) → open_in (Session.Asking self) ≡ Some q →
            Stands (Session.Asking self) t
            → Stands result (t ++ record { question = q; yes = «yes» } ∷ []) }
    {
        let (knowledge, mut room) = self.known_after(question, yes);
        let run = room.take_run();
        tuple_answered(knowledge, room, run, yes)
    }

    /// The same, where an example or a part of one was put.
    fn example_heard(self, question: &Partial, yes: bool) -> Session
        requires kind { is_tuple self.put.value ≡ false }
        requires asked { question_put self.knowledge.value.lang self.put.value ≡ question.now }
        requires fits { IsQuestion self.knowledge.value.lang question.now }
        ensures lang { (knowledge_of result).lang ≡ (knowledge_of (Session.Asking self)).lang }
        ensures plan { (knowledge_of result).plan ≡ (knowledge_of (Session.Asking self)).plan }
        ensures lawful { IsLanguage (knowledge_of result).lang }
        ensures none_new { HasNoNew result }
        ensures stands { (t : List Answer) (q : _) → open_in (Session.Asking self) ≡ Some q →
            Stands (Session.Asking self) t
            → Stands result (t ++ record { question = q; yes = «yes» } ∷ []) }
    {
        let (knowledge, mut room) = self.known_after(question, yes);
        match Box::replace(&mut room, Put::blank()) {
            Put::Example(example) => {
                let all = VarSet::all(knowledge.lang.n());
                part_answered(knowledge, room, example, all, yes)
            }
            Put::OnWalk { example, set } => part_answered(knowledge, room, example, set, yes),
            Put::Part { example, set, run } => {
                halve_on(knowledge, room, example, set, run.reply(yes))
            }
            Put::FirstTuple(_) | Put::Tuple(_) => unreachable!(),
        }
    }
}
