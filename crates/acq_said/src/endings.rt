//! The last lines of a session, by how the loop ended.

ghost use Rattle.std.specs.Prelude.{◌≡◌, ◌≢◌, ◌++◌, List, filter, IfOk};
ghost use Rattle.std.specs.List.{flat_map};
ghost use Rattle.assign.specs.Events.{Answer};
ghost use Rattle.language.specs.Language.{candidates};
ghost use Rattle.language.specs.Answers.{IsNetwork};
ghost use Rattle.network.specs.Texts.{network_text};
ghost use Rattle.query_gen.specs.Marks.{AreMarksFor, is_open};
ghost use Rattle.session_core.specs.Standing.{Stands, knowledge_of};
ghost use Rattle.acq_loop.specs.Driven.{HasEnded, TellsOpen};
ghost use Rattle.acq_said.specs.Endings.{SaysEnd};
ghost use Rattle.acq_loop.specs.Points.{terms_with};
ghost use Rattle.acq_said.specs.Saying.{saying};
ghost use Rattle.acq_loop.specs.Run.{Collapsed, Converged, Suspended, Undecided};
ghost use Rattle.acq_loop.specs.Texts.{ending_line, open_line};

use crate::opens::open_lines;
use crate::said::{Said, Unsaid, fixed, or_silent};
use acq_loop::{Drove, Ending};
use language::Memory;
use network::network_text;
use query_gen::Screen;
use session_core::Session;
use std::alloc::Global;

/// Says that a session has converged, and on what.
fn converged(alloc: Global, session: &Session, m: u32) -> Result<Said, Memory>
    requires { IsNetwork (knowledge_of session.now).lang (knowledge_of session.now).network.list }
    ensures { IfOk result (λ said.
        said ≡ saying (ending_line Converged m ++ network_text (knowledge_of session.now).lang
        (knowledge_of session.now).network.list) (Ending.Converged m)) }
{
    let Ok(network) = network_text(alloc, session.lang(), session.network()) else {
        return Err(Memory);
    };
    let Ok(text) = format!(in alloc; "converged {m}\n{network}") else {
        return Err(Memory);
    };
    Ok(Said::new(text, Ending::Converged(m)))
}

/// Says that no network agrees with a session.
fn collapsed(alloc: Global, m: u32) -> Result<Said, Memory>
    ensures { IfOk result (λ said. said ≡ saying (ending_line Collapsed m) (Ending.Collapsed m)) }
{
    let text = format!(in alloc; "collapsed {m}\n")?;
    Ok(Said::new(text, Ending::Collapsed(m)))
}

/// Says that the budget was too small for a session: what was learned, and the candidates that are
/// open.
fn undecided(alloc: Global, session: &Session, screen: &Screen, m: u32) -> Result<Said, Memory>
    requires network { IsNetwork (knowledge_of session.now).lang
        (knowledge_of session.now).network.list }
    requires made { AreMarksFor (knowledge_of session.now).lang screen.now }
    ensures { let l = (knowledge_of session.now).lang in IfOk result (λ said. said ≡
        saying (ending_line Undecided m ++ (network_text l (knowledge_of session.now).network.list
        ++ flat_map (open_line l) (filter (is_open l screen.now) (candidates l))))
        (Ending.Undecided m)) }
{
    let Ok(network) = network_text(alloc, session.lang(), session.network()) else {
        return Err(Memory);
    };
    let Ok(opens) = open_lines(alloc, session.lang(), screen) else {
        return Err(Memory);
    };
    let Ok(text) = format!(in alloc; "undecided {m}\n{network}{opens}") else {
        return Err(Memory);
    };
    Ok(Said::new(text, Ending::Undecided(m)))
}

/// Says that a session goes on another time.
fn suspended(alloc: Global, m: u32) -> Result<Said, Memory>
    ensures { IfOk result (λ said. said ≡ saying (ending_line Suspended m) (Ending.Suspended m)) }
{
    let text = format!(in alloc; "suspended {m}\n")?;
    Ok(Said::new(text, Ending::Suspended(m)))
}

/// Says how the loop ended, but for a fault of the output.
pub fn closing(
    alloc: Global,
    session: &Session,
    screen: &Screen,
    drove: Drove,
) -> Result<Said, Unsaid>
    requires made { AreMarksFor (knowledge_of session.now).lang screen.now }
    requires writes { drove ≢ Drove.WriteFault }
    ensures { (budget : _) (t : List Answer) → Stands session.now t →
        let k = knowledge_of session.now in let terms = terms_with k.plan budget in
        HasEnded k.lang terms t drove →
        ((m : _) → drove ≡ Drove.Undecided m → TellsOpen k.lang terms t screen.now)
        → SaysEnd k.lang terms t drove result }
{
    let _network = session.network();
    match drove {
        Drove::Converged(m) => or_silent(converged(alloc, session, m)),
        Drove::Collapsed(m) => or_silent(collapsed(alloc, m)),
        Drove::Undecided(m) => or_silent(undecided(alloc, session, screen, m)),
        Drove::Suspended(m) => or_silent(suspended(alloc, m)),
        Drove::LineTooLong => or_silent(fixed(
            alloc,
            "refused line too long\n",
            Ending::LineTooLong,
        )),
        Drove::Unreadable => or_silent(fixed(alloc, "refused lines\n", Ending::Unreadable)),
        Drove::JournalFull => or_silent(fixed(
            alloc,
            "refused journal full\n",
            Ending::JournalFull,
        )),
        Drove::ReadFault => Err(Unsaid::ReadFault),
        Drove::DiskFault => Err(Unsaid::DiskFault),
        Drove::Memory => Err(Unsaid::Memory),
        Drove::WriteFault => unreachable!(),
    }
}
