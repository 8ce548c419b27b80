// How names, texts and numbers are written.

ghost use Rattle.std.specs.Prelude.{◌≡◌, ◌<◌, ◌++◌, ◌∷◌, ◌^◌, [], decimal, map, slice_get, true, false, OnOk};
ghost use Rattle.std.specs.Fmt.{signed_decimal};
ghost use Rattle.js_text.specs.CommonPaths.{common_paths};
ghost use Rattle.js_text.specs.Texts.{utf8_of};
ghost use Rattle.js_names.specs.Lists.{flat};
ghost use Rattle.js_tree_lines.specs.Atoms as spec;
ghost use Rattle.js_tree_lines.specs.Lines as lines;

use itoa::Buffer;
use js_term::term::Literal;
use js_text::common::common_path;
use js_text::text::Text;
use lava_base::ids::CommonId;
use lava_base::list::List;
use lava_base::memory::OutOfMemory;

/// A space and a word.
pub fn word(out: &mut List<u8>, word: &str) -> Result<(), OutOfMemory>
    ensures { OnOk result (out.new ≡ out.old ++ lines.spaced word.now) }
{
    out.push(32)?;
    out.extend_from_slice(word.as_bytes())
}

pub fn number(out: &mut List<u8>, n: u32) -> Result<(), OutOfMemory>
    ensures { OnOk result (out.new ≡ out.old ++ lines.spaced (decimal n)) }
{
    let mut buffer = Buffer::new();
    word(out, buffer.format(n))
}

/// A space and a name as it stands.
pub fn name(out: &mut List<u8>, name: &Text) -> Result<(), OutOfMemory>
    ensures { OnOk result (out.new ≡ out.old ++ lines.spaced (utf8_of name.now)) }
{
    out.push(32)?;
    name.write_utf8(out)
}

fn hex_digit(n: u16) -> u8
    requires { n < 16 }
    ensures { result ≡ spec.hex_digit n }
{
    if n < 10 { 48 + n as u8 } else { 87 + n as u8 }
}

fn hex_unit(out: &mut List<u8>, unit: u16) -> Result<(), OutOfMemory>
    ensures { OnOk result (out.new ≡ out.old ++ spec.hex_unit unit) }
{
    out.extend_from_slice(&[
        92,
        117,
        hex_digit(unit / 4096 % 16),
        hex_digit(unit / 256 % 16),
        hex_digit(unit / 16 % 16),
        hex_digit(unit % 16),
    ])
}

fn quoted_unit(out: &mut List<u8>, unit: u16) -> Result<(), OutOfMemory>
    ensures { OnOk result (out.new ≡ out.old ++ spec.quoted_unit unit) }
{
    if unit == 34 {
        return out.extend_from_slice(&[92, 34]);
    }
    if unit == 92 {
        return out.extend_from_slice(&[92, 92]);
    }
    if 32 <= unit && unit < 127 {
        return out.push(unit as u8);
    }
    hex_unit(out, unit)
}

#[tactic(auto, using(crate::proofs::Pending_laws::left_of))]
fn quoted_units(out: &mut List<u8>, text: &Text) -> Result<(), OutOfMemory>
    ensures { OnOk result (out.new ≡ out.old ++ flat spec.quoted_unit text.now) }
{
    let mut at = 0;
    while at < text.len() {
        quoted_unit(out, text.unit(at))?;
        at += 1;
    }
    Ok(())
}

/// A space and a quoted text.
pub fn quoted(out: &mut List<u8>, text: &Text) -> Result<(), OutOfMemory>
    ensures { OnOk result (out.new ≡ out.old ++ lines.spaced (spec.quoted text.now)) }
{
    out.extend_from_slice(&[32, 34])?;
    quoted_units(out, text)?;
    out.push(34)
}

pub fn quoted_all(out: &mut List<u8>, mut list: &[Text]) -> Result<(), OutOfMemory>
    ensures { OnOk result (out.new ≡ out.old ++ flat lines.spaced (map spec.quoted list.entry.now)) }
{
    while let [first, rest @ ..] = list {
        quoted(out, first)?;
        list = rest;
    }
    Ok(())
}

pub fn truth(out: &mut List<u8>, b: bool) -> Result<(), OutOfMemory>
    ensures { OnOk result (out.new ≡ out.old ++ lines.spaced (spec.truth b)) }
{
    if b {
        word(out, "true")
    } else {
        word(out, "false")
    }
}

fn path_of(id: CommonId) -> &'static str
    ensures { result.now ≡ spec.path_of (slice_get common_paths id.0) }
{
    match common_path(id) {
        None => "",
        Some(path) => path,
    }
}

fn common(out: &mut List<u8>, id: CommonId) -> Result<(), OutOfMemory>
    ensures { OnOk result (out.new ≡ out.old ++ lines.spaced (spec.common id.0)) }
{
    out.extend_from_slice(&[32, 37])?;
    out.extend_from_slice(path_of(id).as_bytes())?;
    out.push(37)
}

fn integer(out: &mut List<u8>, n: i64) -> Result<(), OutOfMemory>
    ensures { OnOk result (out.new ≡ out.old ++ lines.spaced (signed_decimal n)) }
{
    let mut buffer = Buffer::new();
    word(out, buffer.format(n))
}

pub fn value(out: &mut List<u8>, value: &Literal) -> Result<(), OutOfMemory>
    ensures { OnOk result (out.new ≡ out.old ++ lines.spaced (spec.value value.now)) }
{
    match value {
        Literal::Undefined => word(out, "undefined"),
        Literal::Null => word(out, "null"),
        Literal::Bool(b) => truth(out, *b),
        Literal::Int(n) => integer(out, *n),
        Literal::Text(text) => quoted(out, text),
        Literal::Iterator => word(out, "@iterator"),
        Literal::Common(id) => common(out, *id),
    }
}

pub fn marked(out: &mut List<u8>, mark: &str, is_marked: bool) -> Result<(), OutOfMemory>
    ensures { OnOk result (out.new ≡ out.old ++ flat lines.spaced (lines.marked mark.now is_marked)) }
{
    if is_marked {
        return word(out, mark);
    }
    Ok(())
}
