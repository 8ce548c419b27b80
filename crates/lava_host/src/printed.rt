// How values are printed.

ghost use Rattle.std.specs.Prelude.{◌≡◌, ◌++◌, OnOk};
ghost use Rattle.lava_host.specs.Printed.{printed_truth, printed_reference, printed_value, printed_line};

use itoa::Buffer;
use js_text::value::Value;
use lava_base::list::List;
use lava_base::marks::{Class, Marks};
use lava_base::memory::OutOfMemory;

/// A reference as it is printed, by its marks.
pub fn reference_word(marks: Marks) -> &'static str
    ensures { result.now ≡ printed_reference marks }
{
    if marks.callable {
        return "[function]";
    }
    match marks.class {
        Class::Error => "[error]",
        _ => "[object]",
    }
}

/// A truth value as it is printed.
fn truth_word(truth: bool) -> &'static str
    ensures { result.now ≡ printed_truth truth }
{
    if truth { "true" } else { "false" }
}

/// Appends a value as `console` prints it; a reference by these marks. After want of memory a first part of it may stand there.
pub fn push_value(out: &mut List<u8>, value: &Value, marks: Marks) -> Result<(), OutOfMemory>
    ensures { let text = printed_value (λ r. printed_reference marks) value.now in
        OnOk result (out.new ≡ out.old ++ text) }
{
    match value {
        Value::Undefined => out.extend_from_slice(b"undefined"),
        Value::Null => out.extend_from_slice(b"null"),
        Value::Bool(truth) => out.extend_from_slice(truth_word(*truth).as_bytes()),
        Value::Int(number) => {
            let mut digits = Buffer::new();
            out.extend_from_slice(digits.format(*number).as_bytes())
        }
        Value::Text(text) => text.write_utf8(out),
        Value::Symbol(_) => out.extend_from_slice(b"[symbol]"),
        Value::Ref(_) => out.extend_from_slice(reference_word(marks).as_bytes()),
    }
}

/// The marks by which a reference among the arguments of a call would be printed: there is none, since the machine hands each out as its text.
pub const NO_MARKS: Marks = Marks {
    class: Class::Object,
    callable: false,
    constructor: false,
};

/// Appends a line: the values parted by one space, and LF.
pub(crate) fn push_line(out: &mut List<u8>, values: &[Value]) -> Result<(), OutOfMemory>
    ensures { OnOk result (out.new ≡ out.old ++ printed_line values.now) }
{
    if let [first, others @ ..] = values {
        push_value(out, first, NO_MARKS)?;
        for value in others {
            out.push(b' ')?;
            push_value(out, value, NO_MARKS)?;
        }
    }
    out.push(b'\n')
}
