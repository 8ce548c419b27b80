// How texts, paths and marks are written.

ghost use Rattle.std.specs.Prelude.{◌≡◌, ◌<◌, ◌++◌, [], slice_get, OnOk};
ghost use Rattle.std.specs.List.{flat_map};
ghost use Rattle.std.specs.Option.{unwrap_or};
ghost use Rattle.js_text.specs.CommonPaths.{common_paths};
ghost use Rattle.lava_journal.specs.Quotes as spec;

use itoa::Buffer;
use js_text::common::common_path;
use js_text::text::Text;
use lava_base::ids::CommonId;
use lava_base::list::List;
use lava_base::marks::{Class, Marks};
use lava_base::memory::OutOfMemory;

fn hex_digit(n: u16) -> u8
    requires { n < 16 }
    ensures { result ≡ spec.hex_digit n }
{
    if n < 10 { 48 + n as u8 } else { 87 + n as u8 }
}

fn push_hex_unit(out: &mut List<u8>, unit: u16) -> Result<(), OutOfMemory>
    ensures { OnOk result (out.new ≡ out.old ++ spec.hex_unit unit) }
{
    out.extend_from_slice(&[
        92,
        117,
        hex_digit(unit / 4096 % 16),
        hex_digit(unit / 256 % 16),
        hex_digit(unit / 16 % 16),
        hex_digit(unit % 16),
    ])
}

/// Appends a unit as it stands in a quoted text.
pub(crate) fn push_unit(out: &mut List<u8>, unit: u16) -> Result<(), OutOfMemory>
    ensures { OnOk result (out.new ≡ out.old ++ spec.quoted_unit unit) }
{
    if unit == 34 {
        return out.extend_from_slice(&[92, 34]);
    }
    if unit == 92 {
        return out.extend_from_slice(&[92, 92]);
    }
    if 32 <= unit && unit < 127 {
        return out.push(unit as u8);
    }
    push_hex_unit(out, unit)
}

#[tactic(auto, using(crate::proofs::Flat_laws::left_of))]
fn push_units(out: &mut List<u8>, text: &Text) -> Result<(), OutOfMemory>
    ensures { OnOk result (out.new ≡ out.old ++ flat_map spec.quoted_unit text.now) }
{
    let mut at = 0;
    while at < text.len() {
        push_unit(out, text.unit(at))?;
        at += 1;
    }
    Ok(())
}

/// Appends a quoted text.
pub fn push_quoted(out: &mut List<u8>, text: &Text) -> Result<(), OutOfMemory>
    ensures { OnOk result (out.new ≡ out.old ++ spec.quoted text.now) }
{
    out.push(34)?;
    push_units(out, text)?;
    out.push(34)
}

/// Appends the digits of a number between two `"`.
pub fn push_quoted_number(out: &mut List<u8>, number: u32) -> Result<(), OutOfMemory>
    ensures { OnOk result (out.new ≡ out.old ++ spec.quoted_number number) }
{
    let mut buffer = Buffer::new();
    out.push(34)?;
    out.extend_from_slice(buffer.format(number).as_bytes())?;
    out.push(34)
}

/// Appends the path of a common object between two `%`.
pub fn push_common(out: &mut List<u8>, id: CommonId) -> Result<(), OutOfMemory>
    ensures { OnOk result (out.new ≡ out.old ++ spec.common_text id.0) }
{
    out.push(37)?;
    out.extend_from_slice(path_of(id).as_bytes())?;
    out.push(37)
}

/// The path of a common object.
fn path_of(id: CommonId) -> &'static str
    ensures { result.now ≡ unwrap_or (slice_get common_paths id.0) [] }
{
    match common_path(id) {
        None => "",
        Some(path) => path,
    }
}

/// Appends the marks of an object.
pub fn push_marks(out: &mut List<u8>, marks: Marks) -> Result<(), OutOfMemory>
    ensures { OnOk result (out.new ≡ out.old ++ spec.marks_text marks) }
{
    out.push(47)?;
    out.extend_from_slice(class_name(marks.class).as_bytes())?;
    if marks.callable {
        out.extend_from_slice(b"+call")?;
    }
    if marks.constructor {
        out.extend_from_slice(b"+new")?;
    }
    Ok(())
}

/// The name of a class, as ECMA-262 and SES have it.
fn class_name(class: Class) -> &'static str
    ensures { result.now ≡ spec.class_name class }
{
    match class {
        Class::Object => "Object",
        Class::Array => "Array",
        Class::Function => "Function",
        Class::Error => "Error",
        Class::Map => "Map",
        Class::Set => "Set",
        Class::WeakMap => "WeakMap",
        Class::Compartment => "Compartment",
        Class::Global => "Global",
        Class::Proxy => "Proxy",
        Class::Promise => "Promise",
        Class::Module => "Module",
    }
}
