// The lines that are written around the crossings.

ghost use Rattle.std.specs.Prelude.{◌≡◌, ◌++◌, decimal, IfOk, OnOk};
ghost use Rattle.js_text.specs.Utf8.{units_of};
ghost use Rattle.lava_journal.specs.Lines.{ended_at, party_line, steps_line};
ghost use Rattle.lava_journal.specs.Quotes.{quoted};
ghost use Rattle.lava_trace.specs.Courses as spec;

use crate::quotes::push_quoted;
use itoa::Buffer;
use js_desc::ending::Ending;
use js_text::utf8::from_utf8;
use lava_base::ids::PartyId;
use lava_base::list::List;
use lava_base::memory::OutOfMemory;
use std::alloc::Global;

/// Appends a number in decimal.
fn push_number(out: &mut List<u8>, number: u64) -> Result<(), OutOfMemory>
    ensures { OnOk result (out.new ≡ out.old ++ decimal number) }
{
    let mut buffer = Buffer::new();
    out.extend_from_slice(buffer.format(number).as_bytes())
}

/// Appends a name in quotes.
fn push_name(alloc: Global, out: &mut List<u8>, name: &[u8]) -> Result<(), OutOfMemory>
    ensures { OnOk result (out.new ≡ out.old ++ quoted (units_of name.now)) }
{
    match from_utf8(alloc, name) {
        Ok(text) => push_quoted(out, &text),
        Err(_) => Err(OutOfMemory),
    }
}

/// The line of a party.
pub(crate) fn party_text(alloc: Global, number: u64, name: &[u8]) -> Result<List<u8>, OutOfMemory>
    ensures { IfOk result (λ text. text ≡ party_line number name.now) }
{
    let mut text = List::new(alloc);
    text.extend_from_slice(b"party ")?;
    push_number(&mut text, number)?;
    text.push(b' ')?;
    push_name(alloc, &mut text, name)?;
    text.push(b'\n')?;
    Ok(text)
}

/// The line of a party's steps.
pub(crate) fn steps_text(alloc: Global, number: u64, count: u64) -> Result<List<u8>, OutOfMemory>
    ensures { IfOk result (λ text. text ≡ steps_line number count) }
{
    let mut text = List::new(alloc);
    text.extend_from_slice(b"steps ")?;
    push_number(&mut text, number)?;
    text.push(b' ')?;
    push_number(&mut text, count)?;
    text.push(b'\n')?;
    Ok(text)
}

/// Appends a word, a party and a count of steps.
fn push_ended(out: &mut List<u8>, word: &str, party: PartyId, steps: u64) -> Result<(), OutOfMemory>
    ensures { OnOk result (out.new ≡ out.old ++ ended_at word.now party.0 steps) }
{
    out.extend_from_slice(word.as_bytes())?;
    push_number(out, party.0 as u64)?;
    out.push(b' ')?;
    push_number(out, steps)
}

/// The sum of the steps, where 64 bits hold it.
#[tactic(auto, unfolding(crate::specs::Courses::total_from))]
fn total(steps: &[u64]) -> Option<u64>
    ensures { result ≡ spec.total steps.now }
{
    let mut total: u64 = 0;
    for count in steps {
        if u64::MAX - total < *count {
            return None;
        }
        total += *count;
    }
    Some(total)
}

/// The steps of a party, if it has some.
fn party_steps(steps: &[u64], party: PartyId) -> Option<u64>
    ensures { result ≡ spec.party_steps steps.now party }
{
    let at = party.0 as usize;
    if at < steps.len() {
        Some(steps[at])
    } else {
        None
    }
}

/// The sum of all steps, if a party has some.
fn budget_steps(steps: &[u64], party: PartyId) -> Option<u64>
    ensures { result ≡ spec.budget_steps steps.now party }
{
    if (party.0 as usize) < steps.len() {
        total(steps)
    } else {
        None
    }
}

/// The count behind the party of an ending, or 0 where it has none; none where the party has no steps, or where 64 bits do not hold the sum.
#[tactic(auto, unfolding(crate::specs::Courses::end_count))]
pub(crate) fn end_count(steps: &[u64], ending: Ending) -> Option<u64>
    ensures { result ≡ spec.end_count steps.now ending }
{
    match ending {
        Ending::Done => Some(0),
        Ending::Uncaught => Some(0),
        Ending::Outside => Some(0),
        Ending::Number(party) => party_steps(steps, party),
        Ending::Text(party) => party_steps(steps, party),
        Ending::Depth(party) => party_steps(steps, party),
        Ending::Parties(party) => party_steps(steps, party),
        Ending::Budget(party) => budget_steps(steps, party),
    }
}

/// Appends an ending with its count.
#[tactic(auto, unfolding(crate::specs::Courses::counted_text))]
fn push_ending(out: &mut List<u8>, ending: Ending, count: u64) -> Result<(), OutOfMemory>
    ensures { OnOk result (out.new ≡ out.old ++ spec.counted_text ending count) }
{
    match ending {
        Ending::Done => out.extend_from_slice(b"Done"),
        Ending::Uncaught => out.extend_from_slice(b"Uncaught"),
        Ending::Number(party) => push_ended(out, "Number ", party, count),
        Ending::Text(party) => push_ended(out, "Text ", party, count),
        Ending::Depth(party) => push_ended(out, "Depth ", party, count),
        Ending::Parties(party) => push_ended(out, "Parties ", party, count),
        Ending::Budget(party) => push_ended(out, "Budget ", party, count),
        Ending::Outside => out.extend_from_slice(b"Outside"),
    }
}

/// The last line, with this count.
#[tactic(auto, unfolding(crate::specs::Courses::end_line))]
pub(crate) fn end_text(alloc: Global, ending: Ending, count: u64) -> Result<List<u8>, OutOfMemory>
    ensures { IfOk result (λ text. text ≡ spec.end_line ending count) }
{
    let mut text = List::new(alloc);
    text.extend_from_slice(b"end ")?;
    push_ending(&mut text, ending, count)?;
    text.push(b'\n')?;
    Ok(text)
}
