// A party's view of a trace.

ghost use Rattle.std.specs.Prelude.{◌≡◌, ◌++◌, ◌∷◌, List as Listed, IfOk, OnOk};
ghost use Rattle.lava_trace.specs.declared.line.TraceLine.{TraceLine as Line};
ghost use Rattle.lava_view.specs.Views as spec;
ghost use Rattle.lava_view.specs.Views.{seen_by, view_lines, view_of};

use crate::view_line::ViewLine;
use crate::view_page::ViewPage;
use js_desc::start::Start;
use lava_base::ids::PartyId;
use lava_base::list::List;
use lava_base::memory::OutOfMemory;
use lava_trace::line::{Trace, TraceLine};
use std::alloc::Global;

/// Adds what the party sees of a line of the trace, whatever lines come behind it.
fn see(
    alloc: Global,
    page: &mut ViewPage,
    line: &TraceLine,
    lines: &mut List<ViewLine>,
) -> Result<(), OutOfMemory>
    ensures seen { let s = page.old in let t = page.new in
        OnOk result ((rest : Listed Line) →
        lines.new ++ view_lines s.party t.names (seen_by s.party t.marks rest)
        ≡ lines.old ++ view_lines s.party s.names (seen_by s.party s.marks (line.now ∷ rest))) }
    ensures party { OnOk result (page.new.party ≡ page.old.party) }
{
    page.learn(line.marks.as_slice())?;
    if !page.takes_part(line) {
        return Ok(());
    }
    let sent = page.is_sender(line);
    let body = page.body(alloc, &line.crossing.body)?;
    lines.push(ViewLine {
        sent,
        steps: None,
        body,
    })
}

/// Adds what the party sees of some lines of the trace.
fn see_all(
    alloc: Global,
    page: &mut ViewPage,
    all: &[TraceLine],
    lines: &mut List<ViewLine>,
) -> Result<(), OutOfMemory>
    ensures { let s = page.old in OnOk result (lines.new
        ≡ lines.old ++ view_lines s.party s.names (seen_by s.party s.marks all.now)) }
{
    for line in all {
        see(alloc, page, line, lines)?;
    }
    Ok(())
}

/// The view that a party with this start has of a trace: what it sent and what came to it, in order, with its own objects and made symbols named by their leaving, and those of others by their coming. The start is empty for a party that was made.
pub fn view(
    alloc: Global,
    trace: &Trace,
    start: &Start,
    party: PartyId,
) -> Result<List<ViewLine>, OutOfMemory>
    ensures { let references = spec.references_of start.now in
        IfOk result (λ lines. lines ≡ view_of trace.now references party.0) }
{
    let mut page = ViewPage::new(alloc, party, start)?;
    let mut lines = List::new(alloc);
    see_all(alloc, &mut page, trace.lines.as_slice(), &mut lines)?;
    Ok(lines)
}
