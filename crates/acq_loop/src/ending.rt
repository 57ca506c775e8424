ghost use Rattle.std.specs.Prelude.{◌≡◌};
ghost use Rattle.acq_loop.specs.Program.{status_of};

use acq_words::UsageFault;
use cert_check::{CertFault, Flaw, MakeFault};
use net_cnf::ModelFault;
use network::NetFault;
use session_store::SFault;
use voc_read::VocFault;

/// How the program ended. The number is that of the answers that stand.
#[derive(Clone, Copy, Debug, PartialEq, Eq)]
pub enum Ending {
    /// Each network that agrees with the answers has the solutions of the printed one.
    Converged(u32),
    /// The command did what it does.
    Done,
    Usage(UsageFault),
    VocRefused(VocFault),
    /// The bytes of the file refuse the command.
    JournalRefused(SFault),
    /// No network agrees with the answers.
    Collapsed(u32),
    /// Nothing was found to ask, and the budget was too small to say that nothing is left.
    Undecided(u32),
    /// `stop` was read, or the input ended before a whole answer line.
    Suspended(u32),
    /// A line has more than 256 bytes before its newline.
    LineTooLong,
    /// The 1,000th line in a row that is no answer came.
    Unreadable,
    ReadFault,
    WriteFault,
    /// The disk failed.
    DiskFault,
    Memory,
    /// A question is due, or an answer is to be taken back, and the journal takes no more records.
    JournalFull,
    /// So many answers stand already.
    NotFresh(u32),
    /// The network that is to answer is refused.
    TargetRefused(NetFault),
    /// No answer stands that could be taken back.
    NothingBack,
    /// The search of this item, from 0, was the first that spent its budget.
    ReduceSpent(u32),
    /// The text of the network's clauses is too large.
    CnfTooLarge,
    /// The input is no model of the network.
    ModelRefused(ModelFault),
    /// Something is left to ask, or no network agrees with the answers, so there is nothing to
    /// certify.
    NotConverged(u32),
    /// No certificate is made.
    CertRefused(MakeFault),
    /// The certificate has this flaw.
    Flawed(Flaw),
    /// The input is no certificate.
    CertUnread(CertFault),
}

impl Ending {
    /// The program's exit status.
    pub fn status(&self) -> u8
        ensures { result ≡ status_of self.now }
    {
        match self {
            Ending::Converged(_) | Ending::Done => 0,
            Ending::Usage(_) => 1,
            Ending::VocRefused(_) => 2,
            Ending::JournalRefused(_) => 3,
            Ending::Collapsed(_) => 4,
            Ending::Undecided(_) => 5,
            Ending::Suspended(_) => 6,
            Ending::LineTooLong | Ending::Unreadable => 7,
            Ending::ReadFault => 8,
            Ending::WriteFault => 9,
            Ending::DiskFault => 10,
            Ending::Memory => 11,
            Ending::JournalFull => 12,
            Ending::NotFresh(_) => 13,
            Ending::TargetRefused(_) => 14,
            Ending::NothingBack => 15,
            Ending::ReduceSpent(_) => 20,
            Ending::CnfTooLarge => 21,
            Ending::ModelRefused(_) => 22,
            Ending::NotConverged(_) => 16,
            Ending::CertRefused(_) => 17,
            Ending::Flawed(_) => 18,
            Ending::CertUnread(_) => 19,
        }
    }
}
