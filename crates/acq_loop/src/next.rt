//! What comes next in a session, and the search that says it.

ghost use Rattle.std.specs.Prelude.{◌≡◌, ◌≢◌, List, None};
ghost use Rattle.assign.specs.Events.{Answer};
ghost use Rattle.assign.specs.declared.events.Plan.TheVariants.{Scopes};
ghost use Rattle.query_gen.specs.Marks.{AreMarksFor, MarksHold};
ghost use Rattle.par_screen.specs.Eighths.{AreMadeFor};
ghost use Rattle.language.specs.Answers.{standing_on};
ghost use Rattle.session_core.specs.Standing.{Stands, knowledge_of};
ghost use Rattle.acq_loop.specs.Driven.{Remembers, TellsOpen};
ghost use Rattle.acq_loop.specs.Due.{NextIs};
ghost use Rattle.acq_loop.specs.Loop.{IsReadyToTurn};
ghost use Rattle.acq_loop.specs.Points.{terms_with};
ghost use Rattle.acq_words.specs.Request.{IsBudget};

use assign::{Partial, Plan};
use disk_model::Disk;
use par_screen::{Gate, next_query_forked};
use query_gen::{Place, Query, Screen};
use session_core::{Idle, Session};
use session_store::Keep;
use std::thread::Threads;

/// What comes next in a session.
#[derive(Clone, Copy, Debug, PartialEq, Eq)]
pub enum Upcoming {
    /// A question is put already.
    Open,
    /// A question that may be put.
    New(Partial),
    /// Nothing is left to ask.
    Converged,
    /// No network agrees with the answers.
    Collapsed,
    /// Nothing was found to ask under the budget.
    Undecided,
}

/// What comes next in plan Scopes, where nothing is open.
fn scoped_next(idle: &Idle) -> Upcoming
    requires plan { (knowledge_of (Session.Idle idle.now)).plan ≡ Scopes }
    ensures next { (t : List Answer) (budget : _) → let k = knowledge_of (Session.Idle idle.now) in
        Stands (Session.Idle idle.now) t
        → NextIs k.lang (terms_with k.plan budget) t None result }
    ensures decided { result ≢ Upcoming.Undecided }
{
    let _lang = idle.lang();
    match idle.scope_question() {
        Some(question) => Upcoming::New(question),
        None => Upcoming::Converged,
    }
}

/// What the search says, in the other plans, where nothing is open.
fn searched_next<R: Threads + Sync, G: Gate>(
    rt: &R,
    idle: &Idle,
    places: &mut [Place; 8],
    screen: &mut Screen,
    budget: u32,
    gate: &G,
) -> Upcoming
    requires plan { (knowledge_of (Session.Idle idle.now)).plan ≢ Scopes }
    requires places { AreMadeFor (knowledge_of (Session.Idle idle.now)).lang places.old }
    requires screen { AreMarksFor (knowledge_of (Session.Idle idle.now)).lang screen.old }
    requires marks { let k = knowledge_of (Session.Idle idle.now) in
        MarksHold k.lang k.network.list budget screen.old }
    requires budget { IsBudget budget }
    ensures next { (t : List Answer) → let k = knowledge_of (Session.Idle idle.now) in
        Stands (Session.Idle idle.now) t → NextIs k.lang (terms_with k.plan budget) t None result }
    ensures places { AreMadeFor (knowledge_of (Session.Idle idle.now)).lang places.new }
    ensures screen { AreMarksFor (knowledge_of (Session.Idle idle.now)).lang screen.new }
    ensures marks { let k = knowledge_of (Session.Idle idle.now) in
        MarksHold k.lang k.network.list budget screen.new }
    ensures open { (t : List Answer) → let k = knowledge_of (Session.Idle idle.now) in
        Stands (Session.Idle idle.now) t → result ≡ Upcoming.Undecided →
        TellsOpen k.lang (terms_with k.plan budget) t screen.new }
{
    let query = next_query_forked(
        rt,
        places,
        gate,
        screen,
        idle.lang(),
        idle.kept(),
        idle.network(),
        budget,
    );
    match query {
        Query::Ask(question) => Upcoming::New(question),
        Query::AllImplied => Upcoming::Converged,
        Query::Undecided => Upcoming::Undecided,
    }
}

/// What comes next where nothing is open.
fn idle_next<R: Threads + Sync, G: Gate>(
    rt: &R,
    idle: &Idle,
    places: &mut [Place; 8],
    screen: &mut Screen,
    budget: u32,
    gate: &G,
) -> Upcoming
    requires places { AreMadeFor (knowledge_of (Session.Idle idle.now)).lang places.old }
    requires screen { AreMarksFor (knowledge_of (Session.Idle idle.now)).lang screen.old }
    requires marks { let k = knowledge_of (Session.Idle idle.now) in
        MarksHold k.lang k.network.list budget screen.old }
    requires budget { IsBudget budget }
    ensures next { (t : List Answer) → let k = knowledge_of (Session.Idle idle.now) in
        Stands (Session.Idle idle.now) t → NextIs k.lang (terms_with k.plan budget) t None result }
    ensures places { AreMadeFor (knowledge_of (Session.Idle idle.now)).lang places.new }
    ensures screen { AreMarksFor (knowledge_of (Session.Idle idle.now)).lang screen.new }
    ensures marks { let k = knowledge_of (Session.Idle idle.now) in
        MarksHold k.lang k.network.list budget screen.new }
    ensures open { (t : List Answer) → let k = knowledge_of (Session.Idle idle.now) in
        Stands (Session.Idle idle.now) t → result ≡ Upcoming.Undecided →
        TellsOpen k.lang (terms_with k.plan budget) t screen.new }
{
    match idle.plan() {
        Plan::Scopes => scoped_next(idle),
        Plan::Quacq | Plan::Multi => searched_next(rt, idle, places, screen, budget, gate),
    }
}

/// What comes next in a keeper's session.
pub fn next_of<R: Threads + Sync, D: Disk, P: Keep<D>, G: Gate>(
    rt: &R,
    keep: &P,
    places: &mut [Place; 8],
    screen: &mut Screen,
    budget: u32,
    gate: &G,
) -> Upcoming
    requires sound { P.sound keep.now }
    requires ready { IsReadyToTurn (P.lang keep.now) (terms_with (P.plan keep.now) budget)
        (standing_on (P.lang keep.now) (P.record_of keep.now))
        (P.question keep.now) places.old screen.old }
    ensures next { NextIs (P.lang keep.now) (terms_with (P.plan keep.now) budget)
        (standing_on (P.lang keep.now) (P.record_of keep.now)) (P.question keep.now) result }
    ensures places { AreMadeFor (P.lang keep.now) places.new }
    ensures screen { AreMarksFor (P.lang keep.now) screen.new }
    ensures remembers { Remembers (P.lang keep.now) (terms_with (P.plan keep.now) budget)
        (standing_on (P.lang keep.now) (P.record_of keep.now)) screen.new }
    ensures open { result ≡ Upcoming.Undecided →
        TellsOpen (P.lang keep.now) (terms_with (P.plan keep.now) budget)
        (standing_on (P.lang keep.now) (P.record_of keep.now)) screen.new }
{
    let session = keep.session();
    let _lang = session.lang();
    match session {
        Session::Idle(idle) => idle_next(rt, idle, places, screen, budget, gate),
        Session::Asking(_) => Upcoming::Open,
        Session::Over(_) => Upcoming::Collapsed,
    }
}
