// Natives, common objects and the texts of errors, by their names.

use crate::fault::Fault;
use crate::shown::{push_count, push_number, push_truth, push_units, push_word};
use crate::words::number_of;
use js_desc::fault::{FaultText, NativeError};
use js_text::common::{common_id, common_path};
use js_text::native::native_of;
use js_text::text::{Text, from_units};
use lava_base::ids::CommonId;
use std::alloc::Global;

/// `native NAME`: its name, its number, how many operands it takes, and whether it crosses.
pub fn native(out: &mut String, word: &str) -> Result<(), Fault> {
    let Some(native) = native_of(word) else {
        return push_word(out, "none");
    };
    push_word(out, native.name())?;
    push_number(out, i64::from(native.number()))?;
    push_count(out, native.operands())?;
    push_truth(out, native.crosses())
}

/// `common PATH`: the place of the common object.
pub fn common(out: &mut String, path: &str) -> Result<(), Fault> {
    match common_id(path) {
        Some(id) => push_number(out, i64::from(id.0)),
        None => push_word(out, "none"),
    }
}

/// `path PLACE`: the path of the common object there.
pub fn path(out: &mut String, word: &str) -> Result<(), Fault> {
    push_word(
        out,
        common_path(CommonId(number_of(word)?)).unwrap_or("none"),
    )
}

/// The fault of a word.
fn fault_named(name: Text, word: &str) -> Result<FaultText, Fault> {
    match word {
        "NotAFunction" => Ok(FaultText::NotAFunction),
        "BadJson" => Ok(FaultText::BadJson),
        "InvalidCount" => Ok(FaultText::InvalidCount),
        "NotDefined" => Ok(FaultText::NotDefined(name)),
        _ => Err(Fault::Line),
    }
}

/// `fault NAME`: the error, and the units of its text. The global that is not defined is `x`.
pub fn fault(alloc: Global, out: &mut String, word: &str) -> Result<(), Fault> {
    let fault = fault_named(from_units(alloc, &[0x78])?, word)?;
    push_word(out, error_name(fault.error()))?;
    push_units(alloc, out, &fault.message(alloc)?)
}

fn error_name(error: NativeError) -> &'static str {
    match error {
        NativeError::TypeError => "TypeError",
        NativeError::RangeError => "RangeError",
        NativeError::SyntaxError => "SyntaxError",
        NativeError::ReferenceError => "ReferenceError",
    }
}
