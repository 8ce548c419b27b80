// What crosses, and whole lines.

ghost use Rattle.std.specs.Prelude.{◌≡◌, OnOk};
ghost use Rattle.lava_journal.specs.Bodies as spec;
ghost use Rattle.lava_journal.specs.Lines.{head_pieces, line_pieces};
ghost use Rattle.lava_journal.specs.Pages.{with_each};

use crate::answers::write_answer;
use crate::asks::write_ask;
use crate::page::{Page, write_number, write_word};
use js_desc::crossing::{CrossBody, Crossing};
use lava_base::memory::OutOfMemory;

/// Writes what crosses.
pub fn write_body<P: Page>(page: &mut P, body: &CrossBody) -> Result<(), OutOfMemory>
    ensures { OnOk result (page.new ≡ with_each P.with_piece page.old (spec.body_pieces body.now)) }
{
    match body {
        CrossBody::Ask { target, ask } => write_ask(page, *target, ask),
        CrossBody::Answer(reply) => write_answer(page, reply),
    }
}

/// Writes the number of a crossing, and its parties.
#[tactic(auto, using(crate::proofs::Piece_laws::first_piece))]
fn write_head<P: Page>(page: &mut P, number: u64, from: u32, to: u32) -> Result<(), OutOfMemory>
    ensures { OnOk result (page.new ≡ with_each P.with_piece page.old
        (head_pieces number from to)) }
{
    write_number(page, number)?;
    write_word(page, " ")?;
    write_number(page, from as u64)?;
    write_word(page, ">")?;
    write_number(page, to as u64)?;
    write_word(page, " ")
}

/// Writes the line of a crossing, behind what is written.
pub(crate) fn write_line<P: Page>(
    page: &mut P,
    number: u64,
    crossing: &Crossing,
) -> Result<(), OutOfMemory>
    ensures { OnOk result (page.new ≡ with_each P.with_piece page.old
        (line_pieces number crossing.now)) }
{
    write_head(page, number, crossing.from.0, crossing.to.0)?;
    write_body(page, &crossing.body)?;
    write_word(page, "\n")
}
