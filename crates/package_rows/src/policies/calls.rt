// Calls of the host.

use super::world::{World, fail_at, world_of};
use crate::bytes::{bytes_of, shown_bytes};
use crate::fault::Fault;
use crate::numbers::number_of;
use js_desc::ask::Ask;
use js_desc::reply::Reply;
use js_text::text::from_units;
use js_text::utf8::from_utf8;
use js_text::value::{Symbol, Value};
use lava_base::ids::{CommonId, ObjId, PartyId, Ref};
use lava_base::list::List;
use lava_base::marks::{Class, Marks};
use lava_host::fault::{HostFault, Which};
use lava_host::host::Host;
use lava_host::printed::push_value;
use policy_globals::host::{HostObject, host_global_of};
use std::alloc::Global;

/// `host FILES|INPUT|MOMENTS|CALL;..`: what each call gives, and then what was printed.
pub fn answers(alloc: Global, rest: &str) -> Result<String, Fault> {
    let (mut world, calls) = setting(alloc, rest)?;
    all_answers(alloc, &mut world, calls)
}

/// `fails OBJECT N FILES|INPUT|MOMENTS|CALL;..`: the same, where the N-th call on an object fails.
pub fn answers_where_fails(alloc: Global, rest: &str) -> Result<String, Fault> {
    let (object, rest) = rest.split_once(' ').unwrap_or((rest, ""));
    let (n, rest) = rest.split_once(' ').unwrap_or((rest, ""));
    let (mut world, calls) = setting(alloc, rest)?;
    fail_at(&mut world, object, number_of(n)?)?;
    all_answers(alloc, &mut world, calls)
}

// The outside of a row, and its calls.
fn setting(alloc: Global, rest: &str) -> Result<(World, &str), Fault> {
    let (files, rest) = rest.split_once('|').unwrap_or((rest, ""));
    let (input, rest) = rest.split_once('|').unwrap_or((rest, ""));
    let (moments, calls) = rest.split_once('|').unwrap_or((rest, ""));
    Ok((world_of(alloc, files, input, moments)?, calls))
}

fn all_answers(alloc: Global, world: &mut World, calls: &str) -> Result<String, Fault> {
    let mut host = Host::new(alloc);
    let mut line = String::new(alloc);
    for call in calls.split(';') {
        let shown = answer(alloc, &mut host, world, call)?;
        line.push_str(shown.as_str())?;
        line.push_str("; ")?;
    }
    let output = shown_bytes(alloc, world.output.held())?;
    let errors = shown_bytes(alloc, world.errors.held())?;
    let printed = format!(in alloc; "out {output}, err {errors}")?;
    line.push_str(printed.as_str())?;
    Ok(line)
}

// What a call gives. A name that begins with `-` is called where nothing is emitted.
fn answer(alloc: Global, host: &mut Host, world: &mut World, call: &str) -> Result<String, Fault> {
    let (name, words) = call.split_once(' ').unwrap_or((call, ""));
    let (name, emit) = match name.strip_prefix('-') {
        Some(name) => (name, false),
        None => (name, true),
    };
    let id = ObjId(number_at(name)?);
    let ask = Ask::Call {
        this: Value::Undefined,
        args: values_of(alloc, words)?,
    };
    let party = PartyId(0);
    let answered = host.answer(
        alloc,
        Ref::Own { party, id },
        &ask,
        emit,
        "app",
        &mut world.folder,
        &mut world.input,
        &mut world.output,
        &mut world.errors,
        &mut world.clock,
    );
    shown(alloc, answered)
}

// The host number of a path, as policies name it: of an object, or of a member.
fn number_at(path: &str) -> Result<u32, Fault> {
    let (first, member) = path.split_once('.').unwrap_or((path, ""));
    let object = host_global_of(first).unwrap_or(HostObject::Fs);
    if member.is_empty() {
        return Ok(object.number());
    }
    for (name, number) in object.members() {
        if *name == member {
            return Ok(*number);
        }
    }
    Err(Fault::Line)
}

fn values_of(alloc: Global, words: &str) -> Result<List<Value>, Fault> {
    let mut values = List::new(alloc);
    for word in words.split(',') {
        if !word.is_empty() {
            values.push(value_of(alloc, word)?)?;
        }
    }
    Ok(values)
}

// A value: a word of its own, `'` and a text, `u` and a unit, or an integer.
fn value_of(alloc: Global, word: &str) -> Result<Value, Fault> {
    match word {
        "undefined" => Ok(Value::Undefined),
        "null" => Ok(Value::Null),
        "true" => Ok(Value::Bool(true)),
        "false" => Ok(Value::Bool(false)),
        "symbol" => Ok(Value::Symbol(Symbol::Iterator)),
        "object" => Ok(Value::Ref(Ref::Common(CommonId(0)))),
        _ => text_or_number(alloc, word),
    }
}

fn text_or_number(alloc: Global, word: &str) -> Result<Value, Fault> {
    if let Some(text) = word.strip_prefix('\'') {
        return match from_utf8(alloc, bytes_of(alloc, text)?.as_slice()) {
            Ok(text) => Ok(Value::Text(text)),
            Err(_) => Err(Fault::Line),
        };
    }
    if let Some(unit) = word.strip_prefix('u') {
        return unit_text(alloc, number_of(unit)?);
    }
    match word.parse::<i64>() {
        Ok(number) => Ok(Value::Int(number)),
        Err(_) => Err(Fault::Line),
    }
}

// The text of one unit.
fn unit_text(alloc: Global, unit: u32) -> Result<Value, Fault> {
    match from_units(alloc, &[(unit % 65536) as u16]) {
        Ok(text) => Ok(Value::Text(text)),
        Err(_) => Err(Fault::OutOfMemory),
    }
}

fn shown(alloc: Global, answered: Result<Reply, HostFault>) -> Result<String, Fault> {
    match answered {
        Ok(Reply::Value(value)) => printed(alloc, "", &value),
        Ok(Reply::Throw(value)) => printed(alloc, "throws ", &value),
        Ok(_) => Err(Fault::Line),
        Err(HostFault::Outside(which)) => {
            Ok(format!(in alloc; "outside {}", which_word(which))?)
        }
        Err(HostFault::OutOfMemory) => Err(Fault::OutOfMemory),
    }
}

// A value as `console` prints it; one of more than 100 bytes by their count.
fn printed(alloc: Global, word: &str, value: &Value) -> Result<String, Fault> {
    let marks = Marks {
        class: Class::Object,
        callable: false,
        constructor: false,
    };
    let mut bytes = List::new(alloc);
    push_value(&mut bytes, value, marks)?;
    if bytes.len() > 100 {
        let count = bytes.len();
        return Ok(format!(in alloc; "{word}{count} bytes")?);
    }
    let text = shown_bytes(alloc, bytes.as_slice())?;
    Ok(format!(in alloc; "{word}{text}")?)
}

fn which_word(which: Which) -> &'static str {
    match which {
        Which::Folder => "folder",
        Which::Input => "input",
        Which::Output => "output",
        Which::Errors => "errors",
        Which::Clock => "clock",
    }
}
