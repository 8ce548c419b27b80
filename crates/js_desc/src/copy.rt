// The same thing once more.

ghost use Rattle.std.specs.Prelude.{◌≡◌, IfOk};
ghost use Rattle.js_desc.specs.declared.ask.Ask.TheVariants as asks;

use crate::ask::Ask;
use crate::crossing::CrossBody;
use crate::descriptor::{Descriptor, PartialDescriptor};
use crate::reply::Reply;
use js_text::copy::{copy_key, copy_value};
use js_text::text::Text;
use js_text::value::{Key, Value};
use lava_base::list::List;
use lava_base::memory::OutOfMemory;
use std::alloc::Global;

/// The same property once more.
pub fn copy_descriptor(property: &Descriptor) -> Result<Descriptor, OutOfMemory>
    ensures { IfOk result (λ copy. copy ≡ property.now) }
{
    match property {
        Descriptor::Data {
            value,
            writable,
            enumerable,
            configurable,
        } => Ok(Descriptor::Data {
            value: copy_value(value)?,
            writable: *writable,
            enumerable: *enumerable,
            configurable: *configurable,
        }),
        Descriptor::Accessor {
            get,
            set,
            enumerable,
            configurable,
        } => Ok(Descriptor::Accessor {
            get: *get,
            set: *set,
            enumerable: *enumerable,
            configurable: *configurable,
        }),
    }
}

/// The same fields once more.
pub fn copy_partial(fields: &PartialDescriptor) -> Result<PartialDescriptor, OutOfMemory>
    ensures { IfOk result (λ copy. copy ≡ fields.now) }
{
    Ok(PartialDescriptor {
        value: copy_if_any(&fields.value)?,
        writable: fields.writable,
        get: fields.get,
        set: fields.set,
        enumerable: fields.enumerable,
        configurable: fields.configurable,
    })
}

/// The same value once more, if there is one.
fn copy_if_any(value: &Option<Value>) -> Result<Option<Value>, OutOfMemory>
    ensures { IfOk result (λ copy. copy ≡ value.now) }
{
    match value {
        None => Ok(None),
        Some(value) => Ok(Some(copy_value(value)?)),
    }
}

/// The same values once more.
pub fn copy_values(alloc: Global, values: &List<Value>) -> Result<List<Value>, OutOfMemory>
    ensures { IfOk result (λ copy. copy ≡ values.now) }
{
    let mut copies = List::new(alloc);
    for value in values.as_slice() {
        copies.push(copy_value(value)?)?;
    }
    Ok(copies)
}

/// The same keys once more.
pub fn copy_keys(alloc: Global, keys: &List<Key>) -> Result<List<Key>, OutOfMemory>
    ensures { IfOk result (λ copy. copy ≡ keys.now) }
{
    let mut copies = List::new(alloc);
    for key in keys.as_slice() {
        copies.push(copy_key(key)?)?;
    }
    Ok(copies)
}

/// The same globals of a new party once more.
fn copy_globals(
    alloc: Global,
    globals: &List<(Key, Value)>,
) -> Result<List<(Key, Value)>, OutOfMemory>
    ensures { IfOk result (λ copy. copy ≡ globals.now) }
{
    let mut copies = List::new(alloc);
    for (key, value) in globals.as_slice() {
        copies.push((copy_key(key)?, copy_value(value)?))?;
    }
    Ok(copies)
}

/// The same modules of a new party once more.
fn copy_modules(
    alloc: Global,
    modules: &List<(Text, Value)>,
) -> Result<List<(Text, Value)>, OutOfMemory>
    ensures { IfOk result (λ copy. copy ≡ modules.now) }
{
    let mut copies = List::new(alloc);
    for (name, value) in modules.as_slice() {
        copies.push((name.copy()?, copy_value(value)?))?;
    }
    Ok(copies)
}

/// The same ask of Set once more.
fn copy_set(key: &Key, value: &Value, receiver: &Value) -> Result<Ask, OutOfMemory>
    ensures { IfOk result (λ copy. copy ≡ asks.Set key.now value.now receiver.now) }
{
    Ok(Ask::Set {
        key: copy_key(key)?,
        value: copy_value(value)?,
        receiver: copy_value(receiver)?,
    })
}

/// The same ask of DefineOwnProperty once more.
fn copy_define(key: &Key, descriptor: &PartialDescriptor) -> Result<Ask, OutOfMemory>
    ensures { IfOk result (λ copy. copy ≡ asks.DefineOwnProperty key.now descriptor.now) }
{
    Ok(Ask::DefineOwnProperty {
        key: copy_key(key)?,
        descriptor: copy_partial(descriptor)?,
    })
}

/// The same ask of Get once more.
fn copy_get(key: &Key, receiver: &Value) -> Result<Ask, OutOfMemory>
    ensures { IfOk result (λ copy. copy ≡ asks.Get key.now receiver.now) }
{
    Ok(Ask::Get {
        key: copy_key(key)?,
        receiver: copy_value(receiver)?,
    })
}

/// The same ask of Call once more.
fn copy_call(alloc: Global, this: &Value, args: &List<Value>) -> Result<Ask, OutOfMemory>
    ensures { IfOk result (λ copy. copy ≡ asks.Call this.now args.now) }
{
    Ok(Ask::Call {
        this: copy_value(this)?,
        args: copy_values(alloc, args)?,
    })
}

/// The same ask of Make once more.
fn copy_make(
    alloc: Global,
    globals: &List<(Key, Value)>,
    modules: &List<(Text, Value)>,
) -> Result<Ask, OutOfMemory>
    ensures { IfOk result (λ copy. copy ≡ asks.Make globals.now modules.now) }
{
    Ok(Ask::Make {
        globals: copy_globals(alloc, globals)?,
        modules: copy_modules(alloc, modules)?,
    })
}

/// The same ask once more.
pub fn copy_ask(alloc: Global, ask: &Ask) -> Result<Ask, OutOfMemory>
    ensures { IfOk result (λ copy. copy ≡ ask.now) }
{
    match ask {
        Ask::GetPrototypeOf => Ok(Ask::GetPrototypeOf),
        Ask::SetPrototypeOf { proto } => Ok(Ask::SetPrototypeOf { proto: *proto }),
        Ask::IsExtensible => Ok(Ask::IsExtensible),
        Ask::PreventExtensions => Ok(Ask::PreventExtensions),
        Ask::GetOwnProperty { key } => Ok(Ask::GetOwnProperty {
            key: copy_key(key)?,
        }),
        Ask::DefineOwnProperty { key, descriptor } => copy_define(key, descriptor),
        Ask::HasProperty { key } => Ok(Ask::HasProperty {
            key: copy_key(key)?,
        }),
        Ask::Get { key, receiver } => copy_get(key, receiver),
        Ask::Set {
            key,
            value,
            receiver,
        } => copy_set(key, value, receiver),
        Ask::Delete { key } => Ok(Ask::Delete {
            key: copy_key(key)?,
        }),
        Ask::OwnPropertyKeys => Ok(Ask::OwnPropertyKeys),
        Ask::Call { this, args } => copy_call(alloc, this, args),
        Ask::Construct { new_target, args } => Ok(Ask::Construct {
            new_target: *new_target,
            args: copy_values(alloc, args)?,
        }),
        Ask::Import { link, path } => Ok(Ask::Import {
            link: link.copy()?,
            path: path.copy()?,
        }),
        Ask::Slot { which, args } => Ok(Ask::Slot {
            which: *which,
            args: copy_values(alloc, args)?,
        }),
        Ask::Make { globals, modules } => copy_make(alloc, globals, modules),
        Ask::Queue => Ok(Ask::Queue),
        Ask::Turn => Ok(Ask::Turn),
    }
}

/// The same answer once more.
pub fn copy_reply(alloc: Global, reply: &Reply) -> Result<Reply, OutOfMemory>
    ensures { IfOk result (λ copy. copy ≡ reply.now) }
{
    match reply {
        Reply::Value(value) => Ok(Reply::Value(copy_value(value)?)),
        Reply::Proto(proto) => Ok(Reply::Proto(*proto)),
        Reply::Flag(truth) => Ok(Reply::Flag(*truth)),
        Reply::Desc(None) => Ok(Reply::Desc(None)),
        Reply::Desc(Some(property)) => Ok(Reply::Desc(Some(copy_descriptor(property)?))),
        Reply::Keys(keys) => Ok(Reply::Keys(copy_keys(alloc, keys)?)),
        Reply::Throw(value) => Ok(Reply::Throw(copy_value(value)?)),
    }
}

/// The same ask or answer once more, as it crosses.
pub fn copy_body(alloc: Global, body: &CrossBody) -> Result<CrossBody, OutOfMemory>
    ensures { IfOk result (λ copy. copy ≡ body.now) }
{
    match body {
        CrossBody::Ask { target, ask } => Ok(CrossBody::Ask {
            target: *target,
            ask: copy_ask(alloc, ask)?,
        }),
        CrossBody::Answer(reply) => Ok(CrossBody::Answer(copy_reply(alloc, reply)?)),
    }
}
