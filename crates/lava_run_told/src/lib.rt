//! The trace that a run writes is read back as the run's parties, crossings, steps and ending. Laws alone: the crate has no code that runs.
//!
//! - `Runs` has the trace of a run.
//! - `Laws` has the statements: what a run writes is the text of its journal's lines, and is read as the trace that they tell.
#![tactic(auto)]

ghost use Rattle.lava_run_told.specs.Laws.{Run_has_the_text, Run_is_read, Short_text_has_few_names, Text_is_read, Traced_is_read};

use lava_course::journal_may_be_told;
use lava_told::{end_goes_last, one_line_more, told_is_read};

/// What a run writes is the text of its journal's lines.
pub fn run_has_the_text()
    ensures { Run_has_the_text }
{
    one_line_more();
    end_goes_last();
}

/// A text that is not too long has few names.
#[tactic(none)]
pub fn short_text_has_few_names()
    ensures { Short_text_has_few_names }
{}

/// The text of a run is read as its trace, where its lines may be told.
pub fn text_is_read()
    ensures { Text_is_read }
{
    run_has_the_text();
    short_text_has_few_names();
    told_is_read();
}

/// The text of a run is read as its trace.
pub fn run_is_read()
    ensures { Run_is_read }
{
    text_is_read();
    journal_may_be_told();
}

/// So is the text of a run that is traced.
pub fn traced_is_read()
    ensures { Traced_is_read }
{
    run_is_read();
}
