ghost use Rattle.std.specs.Prelude.{◌≡◌, ◌≢◌, ◌<◌, All, ◌+◌, ◌↔◌, [], ℕ, Bool, List, Option, Some};
ghost use Rattle.std.specs.Prelude.{None, OnOk, OnErr, IfErr, IsSome, IsTrue, IsFalse, length};
ghost use Rattle.std.specs.Option.{ForSome};
ghost use Rattle.answer_journal.specs.Format.{MOST_RECORDS};
ghost use Rattle.assign.specs.Assignment.{Assignment};
ghost use Rattle.assign.specs.Events.{standing};
ghost use Rattle.assign.specs.declared.events.Event.{Event};
ghost use Rattle.assign.specs.declared.events.Plan.{Plan};
ghost use Rattle.language.specs.Language.{Language};
ghost use Rattle.language.specs.Answers.{standing_on};
ghost use Rattle.disk_model.specs.Disk.{Rose};
ghost use Rattle.session_core.specs.Standing.{Stands, knowledge_of, open_in};
ghost use Rattle.session_store.specs.Held.{IsWide};
ghost use Rattle.session_store.specs.Keeping.{HasKept, IsNotKept, IsUnmoved, HasSameTerms};
ghost use Rattle.session_store.specs.Keeping.{LeavesEvent};
ghost use Rattle.session_store.specs.Kept.{IsLawfulAfter, answer_event};
ghost use Rattle.session_store.specs.Replay.{HavePlaces};
ghost use Rattle.session_store.specs.Left.{OpensWith};

use crate::SFault;
use answer_journal::Events;
use assign::Partial;
use disk_model::Disk;
use session_core::Session;

/// A session that stands where its events lead, and keeps these in memory or on a disk.
///
/// A call that may write is lent the disk, so that no value borrows it. What is kept on a disk that
/// tells its content is there: each content that a crash may leave opens with the session and its
/// events. So whoever hands the disk to these calls alone can say what a crash leaves, and needs to
/// know nothing of bytes.
pub trait Keep<D: Disk> {
    /// No call changes the language, the plan and the bytes of the vocabulary.
    ghost lang: { Self → Language };

    ghost plan: { Self → Plan };

    /// Empty where nothing is written.
    ghost voc: { Self → List ℕ };

    ghost record_of: { Self → List Event };

    /// The question that is put, if one is.
    ghost question: { Self → Option Assignment };

    /// The session is there, and stands where the events lead.
    ghost sound: { Self → Type 0 };

    /// Whether events are written to the disk. No call changes that.
    ghost writes: { Self → Bool };

    /// Whether a take-back needs no raising of the journal any more. Only a take-back changes that.
    ghost raised: { Self → Bool };

    /// Whether an event may be added.
    ghost live: { Self → Bool };

    /// The value and the disk belong together.
    ghost sits: { Self → D → Type 0 };

    fn session(&self) -> &Session
        requires { sound self.now }
        ensures stands { Stands result.now (standing_on (lang self.now) (record_of self.now)) }
        ensures lang { (knowledge_of result.now).lang ≡ lang self.now }
        ensures plan { (knowledge_of result.now).plan ≡ plan self.now }
        ensures question { open_in result.now ≡ question self.now };

    /// Each question has 128 options: those of the language's variables first, then empty ones.
    fn events(&self) -> &Events
        ensures is { result.now.items ≡ record_of self.now }
        ensures wide { sound self.now → All IsWide result.now.items };

    /// Whether there are 1,000,000 records: that of the vocabulary, and one for each event.
    fn is_full(&self) -> bool
        requires { sound self.now }
        ensures { IsTrue result ↔ (length (record_of self.now) + 1 ≡ MOST_RECORDS) };

    fn is_live(&self) -> bool
        ensures { result ≡ live self.now };

    /// Puts a question. Nothing is kept of it before its answer.
    fn ask(&mut self, q: Partial)
        requires sound { sound self.old }
        requires idle { question self.old ≡ None }
        requires lawful { IsLawfulAfter (lang self.old) (plan self.old)
            (standing_on (lang self.old) (record_of self.old)) q }
        ensures put { question self.new ≡ Some q }
        ensures events { record_of self.new ≡ record_of self.old }
        ensures same { HasSameTerms lang plan voc writes self.old self.new }
        ensures raised { raised self.new ≡ raised self.old }
        ensures live { live self.new ≡ live self.old }
        ensures sound { sound self.new }
        ensures sits { (disk : D) → sits self.old disk → sits self.new disk };

    /// Keeps the answer to the question that is put, and then moves the session. `Memory` leaves
    /// all as it was. After a fault of the disk the event may be there or not, and the session is
    /// where it was: the file has to be opened again.
    fn answer(&mut self, disk: &mut D, yes: bool) -> Result<(), SFault>
        requires sound { sound self.old }
        requires put { IsSome (question self.old) }
        requires live { IsTrue (live self.old) }
        requires room { length (record_of self.old) + 1 < MOST_RECORDS }
        requires sits { sits self.old disk.old }
        ensures ok { ForSome (question self.old)
            (λ q. OnOk result (HasKept (lang self.new) (plan self.new) (record_of self.old)
            (record_of self.new) (answer_event q «yes») (question self.new) (live self.new))) }
        ensures err { OnErr result (IsUnmoved (record_of self.old) (record_of self.new)
            (question self.old) (question self.new)) }
        ensures same { HasSameTerms lang plan voc writes self.old self.new }
        ensures sound { sound self.new }
        ensures sits { sits self.new disk.new }

        // It doesn't give up by itself, but for want of memory.
        ensures refused { IfErr result (IsNotKept ((live self.new ≡ live self.old)
            × (raised self.new ≡ raised self.old) × (disk.new ≡ disk.old)) (IsTrue (writes self.old)
            × IsFalse (live self.new) × Rose (D.faults disk.old) (D.faults disk.new))) }

        // Where nothing is written, the disk isn't touched. Else a crash at any moment leaves the
        // events from before the call, with the new one or without, and after `Ok` with it.
        ensures leaves { ForSome (question self.old) (λ q.
            LeavesEvent D.Disk (writes self.old) (raised self.old) (raised self.new) (plan self.old)
            (voc self.old) (record_of self.old) (answer_event q «yes») disk.old disk.new result) };

    /// Keeps that the last answer that stands is taken back, and then leads the session from its
    /// beginning through those that are left. A question that was put is dropped: what is open then
    /// is what these answers lead to. All memory is taken first. `Memory` and a fault of the disk
    /// leave what they leave after `answer`.
    fn take_back(&mut self, disk: &mut D) -> Result<(), SFault>
        requires sound { sound self.old }
        requires stands { standing (record_of self.old) ≢ [] }
        requires live { IsTrue (live self.old) }
        requires room { length (record_of self.old) + 1 < MOST_RECORDS }
        requires sits { sits self.old disk.old }
        ensures ok { OnOk result (HasKept (lang self.new) (plan self.new) (record_of self.old)
            (record_of self.new) Event.Back (question self.new) (live self.new)) }
        ensures err { OnErr result (IsUnmoved (record_of self.old) (record_of self.new)
            (question self.old) (question self.new)) }
        ensures same { HasSameTerms lang plan voc writes self.old self.new }
        ensures sound { sound self.new }
        ensures sits { sits self.new disk.new }

        // It doesn't give up by itself, but for want of memory.
        ensures refused { IfErr result (IsNotKept ((live self.new ≡ live self.old)
            × (raised self.new ≡ raised self.old) × (disk.new ≡ disk.old)) (IsTrue (writes self.old)
            × IsFalse (live self.new) × Rose (D.faults disk.old) (D.faults disk.new))) }

        // Where nothing is written, the disk isn't touched. Else a crash at any moment leaves the
        // events from before the call, with the take-back or without, and after `Ok` with it.
        ensures leaves { LeavesEvent D.Disk (writes self.old)
            (raised self.old) (raised self.new) (plan self.old) (voc self.old)
            (record_of self.old) Event.Back disk.old disk.new result };

    /// There are never more records than a journal takes.
    ghost few: { (keep : Self) → sound keep → length (record_of keep) < MOST_RECORDS };

    /// Each take-back finds an answer, and the answers that stand have their places.
    ghost places: { (keep : Self) → sound keep →
        HavePlaces (lang keep) (plan keep) (record_of keep) };

    /// What is written is there, whatever a crash leaves.
    ghost lasts: { (keep : Self) (disk : D) → IsTrue (writes keep) → IsTrue (live keep) →
        sits keep disk →
        ForSome (D.content disk) (λ _. (c : List ℕ) → D.may_leave disk c →
        OpensWith (plan keep) (voc keep) (record_of keep) c) };
}
