// The lines at the start and at the end of a trace.

ghost use Rattle.std.specs.Prelude.{◌≡◌, ◌<◌, ◌^◌, ◌++◌, decimal, sum, OnOk, OnErr};
ghost use Rattle.std.specs.List.{flat_map};
ghost use Rattle.js_text.specs.Utf8.{units_of};
ghost use Rattle.lava_journal.specs.Lines as spec;
ghost use Rattle.lava_journal.specs.Quotes.{quoted, quoted_unit};

use crate::quotes::push_unit;
use itoa::Buffer;
use js_desc::ending::Ending;
use lava_base::ids::PartyId;
use lava_base::list::List;
use lava_base::memory::OutOfMemory;
use lava_base::name::Name;
use std::alloc::Global;

/// Appends a number in decimal.
fn push_number(out: &mut List<u8>, number: u64) -> Result<(), OutOfMemory>
    ensures { OnOk result (out.new ≡ out.old ++ decimal number) }
{
    let mut buffer = Buffer::new();
    out.extend_from_slice(buffer.format(number).as_bytes())
}

/// Appends units as they stand in a quoted text.
fn push_units(out: &mut List<u8>, units: &[u16]) -> Result<(), OutOfMemory>
    ensures { OnOk result (out.new ≡ out.old ++ flat_map quoted_unit units.now) }
{
    for unit in units {
        push_unit(out, *unit)?;
    }
    Ok(())
}

/// Appends the units of a name as they stand in a quoted text.
fn push_name(out: &mut List<u8>, name: &str) -> Result<(), OutOfMemory>
    ensures { OnOk result (out.new ≡ out.old ++ flat_map quoted_unit (units_of name.now)) }
{
    for character in name.chars() {
        let mut buffer = [0; 2];
        push_units(out, character.encode_utf16(&mut buffer))?;
    }
    Ok(())
}

/// Appends a quoted name.
fn push_quoted_name(out: &mut List<u8>, name: &Name) -> Result<(), OutOfMemory>
    ensures { OnOk result (out.new ≡ out.old ++ quoted (units_of name.now)) }
{
    out.push(b'"')?;
    push_name(out, name.as_str())?;
    out.push(b'"')
}

/// Appends the line of a party.
fn push_party(out: &mut List<u8>, number: u64, name: &Name) -> Result<(), OutOfMemory>
    ensures { OnOk result (out.new ≡ out.old ++ spec.party_line number name.now) }
{
    out.extend_from_slice(b"party ")?;
    push_number(out, number)?;
    out.push(b' ')?;
    push_quoted_name(out, name)?;
    out.push(b'\n')
}

/// Appends the lines of the parties.
fn push_parties(out: &mut List<u8>, parties: &[Name]) -> Result<(), OutOfMemory>
    ensures { OnOk result (out.new ≡ out.old ++ spec.party_lines 0 parties.now) }
{
    for (number, name) in parties.iter().enumerate() {
        push_party(out, number as u64, name)?;
    }
    Ok(())
}

/// Appends the lines of the steps.
fn push_steps(out: &mut List<u8>, steps: &[u64]) -> Result<(), OutOfMemory>
    ensures { OnOk result (out.new ≡ out.old ++ spec.steps_lines 0 steps.now) }
{
    for (number, count) in steps.iter().enumerate() {
        push_steps_line(out, number as u64, *count)?;
    }
    Ok(())
}

/// Appends the line of a party's steps.
fn push_steps_line(out: &mut List<u8>, number: u64, count: u64) -> Result<(), OutOfMemory>
    ensures { OnOk result (out.new ≡ out.old ++ spec.steps_line number count) }
{
    out.extend_from_slice(b"steps ")?;
    push_number(out, number)?;
    out.push(b' ')?;
    push_number(out, count)?;
    out.push(b'\n')
}

/// The sum of the steps.
fn total(steps: &[u64]) -> u64
    requires { sum steps.now < 2 ^ 64 }
    ensures { result ≡ sum steps.now }
{
    let mut total = 0;
    for count in steps {
        total += *count;
    }
    total
}

/// Appends a word, a party and a count of steps.
fn push_ended(out: &mut List<u8>, word: &str, party: PartyId, steps: u64) -> Result<(), OutOfMemory>
    ensures { OnOk result (out.new ≡ out.old ++ spec.ended_at word.now party.0 steps) }
{
    out.extend_from_slice(word.as_bytes())?;
    push_number(out, party.0 as u64)?;
    out.push(b' ')?;
    push_number(out, steps)
}

/// Appends how a run ended.
fn push_ending(out: &mut List<u8>, steps: &[u64], ending: &Ending) -> Result<(), OutOfMemory>
    requires party { spec.HasSteps steps.now ending.now }
    requires sum { sum steps.now < 2 ^ 64 }
    ensures { OnOk result (out.new ≡ out.old ++ spec.ending_text steps.now ending.now) }
{
    match ending {
        Ending::Done => out.extend_from_slice(b"Done"),
        Ending::Uncaught => out.extend_from_slice(b"Uncaught"),
        Ending::Number(party) => push_ended(out, "Number ", *party, steps[party.0 as usize]),
        Ending::Text(party) => push_ended(out, "Text ", *party, steps[party.0 as usize]),
        Ending::Depth(party) => push_ended(out, "Depth ", *party, steps[party.0 as usize]),
        Ending::Parties(party) => push_ended(out, "Parties ", *party, steps[party.0 as usize]),
        Ending::Budget(party) => push_ended(out, "Budget ", *party, total(steps)),
        Ending::Outside => out.extend_from_slice(b"Outside"),
    }
}

/// Appends the first line of a trace.
#[tactic(auto, unfolding(crate::specs::Lines::first_line))]
fn push_first(out: &mut List<u8>) -> Result<(), OutOfMemory>
    ensures { OnOk result (out.new ≡ out.old ++ spec.first_line) }
{
    out.extend_from_slice(b"lava-trace 1\n")
}

/// Appends the first line of a trace, and the lines of the parties of its start. After a refusal `out` is as before.
pub fn write_start(
    alloc: Global,
    parties: &List<Name>,
    out: &mut List<u8>,
) -> Result<(), OutOfMemory>
    ensures ok { OnOk result (out.new ≡ out.old ++ spec.start_text parties.now) }
    ensures err { OnErr result (out.new ≡ out.old) }
{
    let mut text = List::new(alloc);
    push_first(&mut text)?;
    push_parties(&mut text, parties.as_slice())?;
    out.extend_from_slice(text.as_slice())
}

/// Appends the lines of the steps of all parties, and the last line. After a refusal `out` is as before.
pub fn write_end(
    alloc: Global,
    steps: &List<u64>,
    ending: &Ending,
    out: &mut List<u8>,
) -> Result<(), OutOfMemory>
    requires party { spec.HasSteps steps.now ending.now }
    requires sum { sum steps.now < 2 ^ 64 }
    ensures ok { OnOk result (out.new ≡ out.old ++ spec.end_text steps.now ending.now) }
    ensures err { OnErr result (out.new ≡ out.old) }
{
    let mut text = List::new(alloc);
    push_steps(&mut text, steps.as_slice())?;
    text.extend_from_slice(b"end ")?;
    push_ending(&mut text, steps.as_slice(), ending)?;
    text.push(b'\n')?;
    out.extend_from_slice(text.as_slice())
}
