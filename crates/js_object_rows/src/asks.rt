// What objects and parties are asked and answer, copied.

use crate::fault::Fault;
use crate::shown::push_word;
use js_desc::ask::Ask;
use js_desc::copy::{copy_ask, copy_body, copy_keys, copy_reply, copy_values};
use js_desc::crossing::CrossBody;
use js_desc::descriptor::{Descriptor, PartialDescriptor};
use js_desc::reply::Reply;
use js_text::native::Native;
use js_text::text::{Text, from_units};
use js_text::value::{Key, Value};
use lava_base::ids::{ObjId, PartyId, Ref};
use lava_base::list::List;
use std::alloc::Global;

/// An object of a party.
const OBJECT: Ref = Ref::Own {
    party: PartyId(1),
    id: ObjId(2),
};

/// A definition of configurability alone.
const DEFINITION: PartialDescriptor = PartialDescriptor {
    value: None,
    writable: None,
    get: None,
    set: None,
    enumerable: None,
    configurable: Some(true),
};

/// The text of one letter.
fn letter(alloc: Global) -> Result<Text, Fault> {
    Ok(from_units(alloc, &[0x78])?)
}

/// The key of one letter.
fn key(alloc: Global) -> Result<Key, Fault> {
    Ok(Key::Text(letter(alloc)?))
}

/// A value that owns memory.
fn value(alloc: Global) -> Result<Value, Fault> {
    Ok(Value::Text(letter(alloc)?))
}

/// A list of one thing.
fn one<T: Drop>(alloc: Global, item: T) -> Result<List<T>, Fault> {
    let mut items = List::new(alloc);
    items.push(item)?;
    Ok(items)
}

/// Some values, copied.
fn values(alloc: Global) -> Result<List<Value>, Fault> {
    Ok(copy_values(alloc, &one(alloc, value(alloc)?)?)?)
}

/// Some keys, copied.
fn keys(alloc: Global) -> Result<List<Key>, Fault> {
    Ok(copy_keys(alloc, &one(alloc, key(alloc)?)?)?)
}

/// A module of a linked package.
fn import(alloc: Global) -> Result<Ask, Fault> {
    let link = letter(alloc)?;
    Ok(Ask::Import {
        link,
        path: letter(alloc)?,
    })
}

/// A new party with one global and one module.
fn make(alloc: Global) -> Result<Ask, Fault> {
    let globals = one(alloc, (Key::Index(0), value(alloc)?))?;
    Ok(Ask::Make {
        globals,
        modules: one(alloc, (letter(alloc)?, Value::Null))?,
    })
}

/// An ask that takes a key.
fn keyed(alloc: Global, name: &str) -> Result<Ask, Fault> {
    let key = key(alloc)?;
    match name {
        "GetOwnProperty" => Ok(Ask::GetOwnProperty { key }),
        "DefineOwnProperty" => Ok(Ask::DefineOwnProperty {
            key,
            descriptor: DEFINITION,
        }),
        "HasProperty" => Ok(Ask::HasProperty { key }),
        "Get" => Ok(Ask::Get {
            key,
            receiver: Value::Null,
        }),
        "Set" => Ok(Ask::Set {
            key,
            value: Value::Null,
            receiver: Value::Undefined,
        }),
        "Delete" => Ok(Ask::Delete { key }),
        _ => Err(Fault::Line),
    }
}

/// An ask that takes arguments.
fn called(alloc: Global, name: &str) -> Result<Ask, Fault> {
    let args = values(alloc)?;
    match name {
        "Call" => Ok(Ask::Call {
            this: Value::Undefined,
            args,
        }),
        "Construct" => Ok(Ask::Construct {
            new_target: OBJECT,
            args,
        }),
        "Slot" => Ok(Ask::Slot {
            which: Native::IsArray,
            args,
        }),
        _ => Err(Fault::Line),
    }
}

/// The ask of this name.
fn ask_named(alloc: Global, name: &str) -> Result<Ask, Fault> {
    match name {
        "GetPrototypeOf" => Ok(Ask::GetPrototypeOf),
        "SetPrototypeOf" => Ok(Ask::SetPrototypeOf {
            proto: Some(OBJECT),
        }),
        "IsExtensible" => Ok(Ask::IsExtensible),
        "PreventExtensions" => Ok(Ask::PreventExtensions),
        "OwnPropertyKeys" => Ok(Ask::OwnPropertyKeys),
        "Call" | "Construct" | "Slot" => called(alloc, name),
        "Import" => import(alloc),
        "Make" => make(alloc),
        "Queue" => Ok(Ask::Queue),
        "Turn" => Ok(Ask::Turn),
        _ => keyed(alloc, name),
    }
}

/// An ask, copied.
fn ask_again(alloc: Global, ask: &Ask) -> Result<Ask, Fault> {
    Ok(copy_ask(alloc, ask)?)
}

/// `ask NAME`: the name of a copy.
pub fn ask(alloc: Global, out: &mut String, name: &str) -> Result<(), Fault> {
    let ask = ask_again(alloc, &ask_named(alloc, name)?)?;
    push_word(out, ask.name())
}

/// An accessor with one function.
fn accessor() -> Descriptor {
    Descriptor::Accessor {
        get: Some(OBJECT),
        set: None,
        enumerable: true,
        configurable: true,
    }
}

/// The answer of this kind.
fn reply_named(alloc: Global, name: &str) -> Result<Reply, Fault> {
    match name {
        "value" => Ok(Reply::Value(value(alloc)?)),
        "prototype" => Ok(Reply::Proto(Some(OBJECT))),
        "truth" => Ok(Reply::Flag(true)),
        "property" => Ok(Reply::Desc(Some(accessor()))),
        "absent" => Ok(Reply::Desc(None)),
        "keys" => Ok(Reply::Keys(keys(alloc)?)),
        "throw" => Ok(Reply::Throw(value(alloc)?)),
        _ => Err(Fault::Line),
    }
}

/// The kind of an answer.
fn kind_of(reply: &Reply) -> &'static str {
    match reply {
        Reply::Value(_) => "value",
        Reply::Proto(_) => "prototype",
        Reply::Flag(_) => "truth",
        Reply::Desc(Some(_)) => "property",
        Reply::Desc(None) => "absent",
        Reply::Keys(_) => "keys",
        Reply::Throw(_) => "throw",
    }
}

/// An answer, copied.
fn reply_again(alloc: Global, reply: &Reply) -> Result<Reply, Fault> {
    Ok(copy_reply(alloc, reply)?)
}

/// `reply KIND`: the kind of a copy.
pub fn reply(alloc: Global, out: &mut String, kind: &str) -> Result<(), Fault> {
    let reply = reply_again(alloc, &reply_named(alloc, kind)?)?;
    push_word(out, kind_of(&reply))
}

/// What crosses.
fn body_named(name: &str) -> CrossBody {
    match name {
        "object" => CrossBody::Ask {
            target: Some(OBJECT),
            ask: Ask::IsExtensible,
        },
        "party" => CrossBody::Ask {
            target: None,
            ask: Ask::Queue,
        },
        _ => CrossBody::Answer(Reply::Flag(true)),
    }
}

/// Who is asked by what crosses, or that it answers.
fn receiver_of(body: &CrossBody) -> &'static str {
    match body {
        CrossBody::Ask {
            target: Some(_),
            ..
        } => "object",
        CrossBody::Ask { target: None, .. } => "party",
        CrossBody::Answer(_) => "answer",
    }
}

/// `cross object`, `cross party` and `cross answer`: the same of a copy.
pub fn cross(alloc: Global, out: &mut String, name: &str) -> Result<(), Fault> {
    let body = copy_body(alloc, &body_named(name))?;
    push_word(out, receiver_of(&body))
}
