ghost use Rattle.std.specs.Prelude.{◌≡◌, not, IfOk, Some, None};
ghost use Rattle.acq_words.specs.Request.{IsRequestOf, IsWithinLimits, CommandIsWithin, answer_by};
ghost use Rattle.acq_words.specs.Request.{command_named, command_of, is_unfit, needs_memory};
ghost use Rattle.acq_words.specs.Request.{plan_named, takes_budget, takes_number, takes_plan};

use assign::Plan;
use std::alloc::Global;
use thiserror::Error;

/// What the words ask for.
#[derive(Debug, PartialEq, Eq, Drop)]
pub struct Request {
    pub journal: JournalPlace,
    pub command: Command,
}

/// Where the journal is.
#[derive(Debug, PartialEq, Eq, Drop)]
pub enum JournalPlace {
    InMemory,
    File(String),
}

/// A command. The last number of a command that has one is its budget; `Demo` has its number before
/// it.
#[derive(Clone, Copy, Debug, PartialEq, Eq)]
pub enum Command {
    New(Plan),
    Run(u32),
    Try(Plan, u32),
    Play(u32),
    Show,
    Back,
    Demo(u32, u32),
    Reduce(u32),
    Cnf,
    Model,
    Certify(u32),
    Check,
}

/// Why there is no request.
#[derive(Clone, Copy, Debug, PartialEq, Eq, Error)]
pub enum WordsFault {
    #[error("the words are refused")]
    Usage(UsageFault),
    #[error("out of memory")]
    Memory,
}

/// Why words are refused.
#[derive(Clone, Copy, Debug, PartialEq, Eq, Error)]
pub enum UsageFault {
    /// They are no list of words that the program takes.
    #[error("the words are none that are taken")]
    Words,
    /// The command and the options don't fit.
    #[error("the command and the options do not fit")]
    Unfit,
}

/// The name of a command.
#[derive(Clone, Copy, Debug, PartialEq, Eq)]
pub enum CommandName {
    New,
    Run,
    Try,
    Play,
    Show,
    Back,
    Demo,
    Reduce,
    Cnf,
    Model,
    Certify,
    Check,
}

/// What the words ask for beside the journal, each option where it is given.
#[derive(Clone, Copy, Debug, PartialEq, Eq)]
pub struct Asked {
    pub name: CommandName,
    pub plan: Option<Plan>,
    pub budget: Option<u32>,
    pub number: Option<u32>,
}

const DEFAULT_PLAN: Plan = Plan::Quacq;

const DEFAULT_BUDGET: u32 = 100_000;

/// The command of this name.
pub(crate) fn command_named(word: &str) -> Option<CommandName>
    ensures { result ≡ command_named word.now }
{
    match word {
        "new" => Some(CommandName::New),
        "run" => Some(CommandName::Run),
        "try" => Some(CommandName::Try),
        "play" => Some(CommandName::Play),
        "show" => Some(CommandName::Show),
        "back" => Some(CommandName::Back),
        "demo" => Some(CommandName::Demo),
        "reduce" => Some(CommandName::Reduce),
        "cnf" => Some(CommandName::Cnf),
        "model" => Some(CommandName::Model),
        "certify" => Some(CommandName::Certify),
        "check" => Some(CommandName::Check),
        _ => None,
    }
}

/// The plan of this name.
pub(crate) fn plan_named(word: &str) -> Option<Plan>
    ensures { result ≡ plan_named word.now }
{
    match word {
        "scopes" => Some(Plan::Scopes),
        "quacq" => Some(Plan::Quacq),
        "multi" => Some(Plan::Multi),
        _ => None,
    }
}

impl CommandName {
    fn takes_plan(self) -> bool
        ensures { result ≡ takes_plan self }
    {
        matches!(self, CommandName::New | CommandName::Try)
    }

    fn takes_budget(self) -> bool
        ensures { result ≡ takes_budget self }
    {
        match self {
            CommandName::Run
            | CommandName::Try
            | CommandName::Play
            | CommandName::Demo
            | CommandName::Reduce
            | CommandName::Certify => true,
            CommandName::New
            | CommandName::Show
            | CommandName::Back
            | CommandName::Cnf
            | CommandName::Model
            | CommandName::Check => false,
        }
    }

    fn takes_number(self) -> bool
        ensures { result ≡ takes_number self }
    {
        matches!(self, CommandName::Demo)
    }

    /// Its journal is in memory.
    fn needs_memory(self) -> bool
        ensures { result ≡ needs_memory self }
    {
        matches!(
            self,
            CommandName::Try | CommandName::Demo | CommandName::Check
        )
    }
}

impl Asked {
    /// The command and the options don't fit.
    fn is_unfit(self, is_in_memory: bool) -> bool
        ensures { result ≡ is_unfit self is_in_memory }
    {
        let name = self.name;
        (self.plan.is_some() && !name.takes_plan())
            || (self.budget.is_some() && !name.takes_budget())
            || (self.number.is_some() && !name.takes_number())
            || (name.takes_number() && self.number.is_none())
            || (name.needs_memory() && !is_in_memory)
    }

    /// The command, with the defaults for what isn't given.
    fn command(self) -> Command
        requires { IsWithinLimits self }
        ensures is { result ≡ command_of self }
        ensures within { CommandIsWithin result }
    {
        let plan = self.plan.unwrap_or(DEFAULT_PLAN);
        let budget = self.budget.unwrap_or(DEFAULT_BUDGET);
        match self.name {
            CommandName::New => Command::New(plan),
            CommandName::Run => Command::Run(budget),
            CommandName::Try => Command::Try(plan, budget),
            CommandName::Play => Command::Play(budget),
            CommandName::Show => Command::Show,
            CommandName::Back => Command::Back,
            CommandName::Demo => Command::Demo(self.number.unwrap_or(0), budget),
            CommandName::Reduce => Command::Reduce(budget),
            CommandName::Cnf => Command::Cnf,
            CommandName::Model => Command::Model,
            CommandName::Certify => Command::Certify(budget),
            CommandName::Check => Command::Check,
        }
    }
}

/// What a journal's word and the rest ask for.
pub(crate) fn request_by(alloc: Global, journal: &str, asked: Asked) -> Result<Request, WordsFault>
    requires { IsWithinLimits asked }
    ensures is { IsRequestOf (answer_by journal.now asked) result }
    ensures within { IfOk result (λ r. CommandIsWithin r.command) }
{
    let is_in_memory = journal == ":memory:";
    if asked.is_unfit(is_in_memory) {
        return Err(WordsFault::Usage(UsageFault::Unfit));
    }
    let command = asked.command();
    if is_in_memory {
        return Ok(Request {
            journal: JournalPlace::InMemory,
            command,
        });
    }
    match String::from_str(alloc, journal) {
        Ok(name) => Ok(Request {
            journal: JournalPlace::File(name),
            command,
        }),
        Err(_) => Err(WordsFault::Memory),
    }
}
