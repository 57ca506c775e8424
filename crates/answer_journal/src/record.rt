//! What stands in a journal behind the record of its session.

ghost use Rattle.std.specs.Prelude.{◌≡◌};
ghost use Rattle.answer_journal.specs.Records.{is_raised_by};
ghost use Rattle.answer_journal.specs.End.{HasRoom, counted_with};

use assign::Event;

/// A record behind that of the session.
#[derive(Clone, Copy)]
pub(crate) enum Record {
    Added(Event),
    /// The journal is raised: take-backs may follow. It stands once at most, and isn't counted.
    Raising,
}

impl Record {
    /// How many records count where so many did before this one.
    pub(crate) fn counted_with(&self, records: u32) -> u32
        requires { HasRoom records self.now }
        ensures { result ≡ counted_with records self.now }
    {
        match self {
            Record::Added(_) => records + 1,
            Record::Raising => records,
        }
    }

    /// Whether the journal is raised behind this record.
    pub(crate) fn is_raised_by(&self, raised: bool) -> bool
        ensures { result ≡ is_raised_by raised self.now }
    {
        match self {
            Record::Added(_) => raised,
            Record::Raising => true,
        }
    }
}
