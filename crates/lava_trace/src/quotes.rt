// How texts are quoted.

ghost use Rattle.std.specs.Prelude.{◌≡◌, ◌<◌, ◌++◌, OnOk};
ghost use Rattle.std.specs.List.{flat_map};
ghost use Rattle.lava_journal.specs.Quotes as spec;

use js_text::text::Text;
use lava_base::list::List;
use lava_base::memory::OutOfMemory;

fn hex_digit(n: u16) -> u8
    requires { n < 16 }
    ensures { result ≡ spec.hex_digit n }
{
    if n < 10 { 48 + n as u8 } else { 87 + n as u8 }
}

fn push_hex_unit(out: &mut List<u8>, unit: u16) -> Result<(), OutOfMemory>
    ensures { OnOk result (out.new ≡ out.old ++ spec.hex_unit unit) }
{
    out.extend_from_slice(&[
        92,
        117,
        hex_digit(unit / 4096 % 16),
        hex_digit(unit / 256 % 16),
        hex_digit(unit / 16 % 16),
        hex_digit(unit % 16),
    ])
}

/// Appends a unit as it stands in a quoted text.
fn push_unit(out: &mut List<u8>, unit: u16) -> Result<(), OutOfMemory>
    ensures { OnOk result (out.new ≡ out.old ++ spec.quoted_unit unit) }
{
    if unit == 34 {
        return out.extend_from_slice(&[92, 34]);
    }
    if unit == 92 {
        return out.extend_from_slice(&[92, 92]);
    }
    if 32 <= unit && unit < 127 {
        return out.push(unit as u8);
    }
    push_hex_unit(out, unit)
}

#[tactic(auto, using(crate::proofs::Flat_laws::left_of))]
fn push_units(out: &mut List<u8>, text: &Text) -> Result<(), OutOfMemory>
    ensures { OnOk result (out.new ≡ out.old ++ flat_map spec.quoted_unit text.now) }
{
    let mut at = 0;
    while at < text.len() {
        push_unit(out, text.unit(at))?;
        at += 1;
    }
    Ok(())
}

/// Appends a quoted text.
pub(crate) fn push_quoted(out: &mut List<u8>, text: &Text) -> Result<(), OutOfMemory>
    ensures { OnOk result (out.new ≡ out.old ++ spec.quoted text.now) }
{
    out.push(34)?;
    push_units(out, text)?;
    out.push(34)
}
