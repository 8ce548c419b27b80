//! The trace that a run tells: its crossings, with the numbers of their names in the place of its own ids. Laws alone: the crate has no code that runs.
//!
//! - `Told` has the trace that is told, and when it may be.
//! - `Laws` has the statements: what a run writes is the text of the trace that it tells, and is read as this trace.
#![tactic(auto)]

ghost use Rattle.lava_told.specs.Laws.{End_goes_last, Lawful_tells_itself, One_line_more, Told_has_the_text, Told_is_lawful, Told_is_read};

/// What is written of a run's own ids is the text of the trace that it tells.
#[tactic(none)]
pub fn told_has_the_text()
    ensures { Told_has_the_text }
{}

/// A text that is written so far goes on with the line of one crossing more.
#[tactic(none)]
pub fn one_line_more()
    ensures { One_line_more }
{}

/// With its last lines it is the text of all these crossings.
#[tactic(none)]
pub fn end_goes_last()
    ensures { End_goes_last }
{}

/// The trace that is told may be told.
#[tactic(none)]
pub fn told_is_lawful()
    ensures { Told_is_lawful }
{}

/// What is written is read as the trace that is told.
#[tactic(none)]
pub fn told_is_read()
    ensures { Told_is_read }
{}

/// A lawful trace tells itself.
#[tactic(none)]
pub fn lawful_tells_itself()
    ensures { Lawful_tells_itself }
{}
