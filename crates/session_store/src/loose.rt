ghost use Rattle.std.specs.Prelude.{◌≡◌, [], IfOk, None, true, false, ⊤};
ghost use Rattle.session_store.specs.Loose.{lang_of, plan_of, question_of, events_of, IsSound};

use crate::SFault;
use crate::held::Held;
use crate::keep::Keep;
use answer_journal::Events;
use assign::{Partial, Plan};
use disk_model::Disk;
use language::{Language, Memory};
use session_core::{Session, begin};
use std::alloc::Global;

/// A session whose events are kept in memory. Its vocabulary counts as a record.
#[derive(Drop)]
pub struct Loose {
    held: Held,
}

impl Loose {
    /// An idle session without events. `Memory` drops the language.
    pub fn new(alloc: Global, lang: Language, plan: Plan) -> Result<Loose, Memory>
        ensures sound { IfOk result IsSound }
        ensures lang { IfOk result (λ loose. lang_of loose ≡ lang) }
        ensures plan { IfOk result (λ loose. plan_of loose ≡ plan) }
        ensures events { IfOk result (λ loose. events_of loose ≡ []) }
        ensures idle { IfOk result (λ loose. question_of loose ≡ None) }
    {
        Ok(Loose {
            held: Held::new(begin(alloc, lang, plan)?, Events::new(alloc)),
        })
    }
}

impl<D: Disk> Keep<D> for Loose {
    ghost use Rattle.session_store.specs.Left.{false_is_not_true};

    ghost lang = { lang_of };

    ghost plan = { plan_of };

    ghost voc = { λ _. [] };

    ghost record_of = { events_of };

    ghost question = { question_of };

    ghost sound = { IsSound };

    ghost writes = { λ _. false };

    ghost raised = { λ _. true };

    ghost live = { λ _. true };

    ghost sits = { λ _ _. ⊤ };

    ghost few = { λ keep sound. sound.few };

    ghost places = { λ keep sound. sound.places };

    ghost lasts = { λ keep disk writes live sits. absurd (false_is_not_true writes) };

    fn session(&self) -> &Session {
        self.held.session()
    }

    fn events(&self) -> &Events {
        &self.held.events
    }

    fn is_full(&self) -> bool {
        self.held.is_full()
    }

    fn is_live(&self) -> bool {
        true
    }

    fn ask(&mut self, q: Partial) {
        self.held.ask(q);
    }

    fn answer(&mut self, _disk: &mut D, yes: bool) -> Result<(), SFault> {
        let question = self.held.question();
        let event = self.held.event(&question, yes);
        self.held.make_room()?;
        self.held.add(&event, &question, yes);
        Ok(())
    }

    fn take_back(&mut self, _disk: &mut D) -> Result<(), SFault> {
        let records = self.held.ready_back()?;
        self.held.add_back(&records);
        Ok(())
    }
}
