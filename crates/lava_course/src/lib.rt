//! The course of a run's journal is that of a trace: its crossings go from one party to another, and what stands there for the first time has marks. Laws alone: the crate has no code that runs.
//!
//! - `Lines` has the lines of a journal.
//! - `Courses` has what the course of a journal keeps to.
//! - `Laws` has the statements.
#![tactic(auto)]

ghost use Rattle.lava_course.specs.Laws.{Journal_goes_between, Journal_is_marked, Journal_may_be_told};

use js_run_laws::{journal_is_chain, journal_is_lawful};

/// Each crossing of a journal goes from one party that is there to another one.
#[tactic(none)]
pub fn journal_goes_between()
    ensures { Journal_goes_between }
{
    journal_is_chain();
    journal_is_lawful();
}

/// What stands in a line of a journal for the first time has marks.
#[tactic(none)]
pub fn journal_is_marked()
    ensures { Journal_is_marked }
{}

/// The lines of a journal may be told, where they can be written and their answers are of the kinds that were asked.
#[tactic(none)]
pub fn journal_may_be_told()
    ensures { Journal_may_be_told }
{
    journal_is_chain();
    journal_is_lawful();
}
