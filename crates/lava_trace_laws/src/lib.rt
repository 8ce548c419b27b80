//! The round trip of traces: the text that is written of a trace is read as this trace, and what is read as a trace is its lines, put together. Laws alone: the crate has no code that runs.
//!
//! - `Sound` says what can be written, `Written` what a trace may say and its text, `Spelled` what is written of pieces and what is read of them.
//! - `Laws` has the statements, from one number to a whole trace.
#![tactic(auto)]

ghost use Rattle.lava_trace_laws.specs.First.{First_trace_is_lawful};
ghost use Rattle.lava_trace_laws.specs.Laws.{Crossings_are_read, Numbers_are_read, One_text_one_trace, Read_was_written, Values_are_read, Written_is_read};

/// A number is read as it was written.
#[tactic(none)]
pub fn numbers_are_read()
    ensures { Numbers_are_read }
{}

/// So is a value, with the names and marks of its objects.
#[tactic(none)]
pub fn values_are_read()
    ensures { Values_are_read }
{}

/// The line of a crossing is read as this crossing.
#[tactic(none)]
pub fn crossings_are_read()
    ensures { Crossings_are_read }
{}

/// The text of a trace that may be told is read as this trace.
#[tactic(none)]
pub fn written_is_read()
    ensures { Written_is_read }
{}

/// Two traces that may be told and have one text are one.
#[tactic(none)]
pub fn one_text_one_trace()
    ensures { One_text_one_trace }
{}

/// A text that is read as a trace is the lines of this trace, put together.
#[tactic(none)]
pub fn read_was_written()
    ensures { Read_was_written }
{}

/// The trace of an empty module may be told: what the laws ask of a trace is met.
#[tactic(none)]
pub fn first_trace_is_lawful()
    ensures { First_trace_is_lawful }
{}
