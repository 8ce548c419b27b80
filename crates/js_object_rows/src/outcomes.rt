// What comes of an ask: an answer or an error.

use crate::fault::Fault;
use crate::shown::{push_number, push_reference, push_truth, push_word};
use crate::stores::{push_keys, push_proto, push_value};
use js_desc::fault::FaultText;
use js_desc::reply::Reply;
use js_text::value::Value;
use std::alloc::Global;

/// Appends an answer.
pub fn push_reply(alloc: Global, out: &mut String, reply: &Reply) -> Result<(), Fault> {
    match reply {
        Reply::Value(value) => push_plain(out, value),
        Reply::Proto(proto) => push_proto(out, *proto),
        Reply::Flag(truth) => push_truth(out, *truth),
        Reply::Desc(property) => push_value(out, property.as_ref()),
        Reply::Keys(keys) => push_keys(alloc, out, keys),
        Reply::Throw(_) => push_word(out, "throw"),
    }
}

/// Appends a value: undefined, an integer or an object.
fn push_plain(out: &mut String, value: &Value) -> Result<(), Fault> {
    match value {
        Value::Undefined => push_word(out, "undefined"),
        Value::Int(number) => push_number(out, *number),
        Value::Ref(reference) => push_reference(out, *reference),
        _ => push_word(out, "other"),
    }
}

/// Appends the text of an error that is thrown.
pub fn push_fault(out: &mut String, text: &FaultText) -> Result<(), Fault> {
    push_word(out, text.fixed().unwrap_or("other"))
}
