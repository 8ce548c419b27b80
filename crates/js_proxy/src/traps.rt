// The traps of a handler: their names, their arguments, and what comes after them.

ghost use Rattle.std.specs.Prelude.{◌≡◌, ◌∷◌, [], IfOk, OnErr, option_map};
ghost use Rattle.js_text.specs.Naming.{naming_of};
ghost use Rattle.js_text.specs.declared.value.Value.TheVariants as value;
ghost use Rattle.js_traps.specs.js_operations.Looks.{marks_seen};
ghost use Rattle.js_traps.specs.js_operations.MadeObjects.{StandFirst};
ghost use Rattle.js_proxy.specs.Traps.{after_trap, array_by_class, ask_handler, by_trap, call_applied, call_constructing, call_described, call_trap, call_with, decided_by_proxy, decided_without_trap, forward, get_trap, is_array_of, next_of_trap, trap_arguments, trap_name};

use js_desc::ask::Ask;
use js_desc::copy::copy_ask;
use js_desc::decision::Decision;
use js_desc::descriptor::PartialDescriptor;
use js_desc::fault::FaultText;
use js_desc::reply::Reply;
use js_store::foreign::Foreign;
use js_store::frozen::FrozenStore;
use js_store::slot::Proxied;
use js_store::store::Store;
use js_text::copy::copy_value;
use js_text::native::Native;
use js_text::value::{Key, Value};
use js_traps::js_operations::looks::marks_seen;
use js_traps::js_operations::made_objects::{make_array, make_description};
use js_traps::js_operations::names::{key_value, name_key, proto_value};
use js_traps::next::Next;
use lava_base::ids::Ref;
use lava_base::list::List;
use lava_base::marks::Class;
use lava_base::memory::OutOfMemory;
use std::alloc::Global;

/// The name of the trap for an ask; None where an ask has none (ECMA-262, "Proxy Object Internal Methods and Internal Slots").
pub fn trap_name(ask: &Ask) -> Option<&'static str>
    ensures { option_map (λ name. name.now) result ≡ trap_name ask.now }
{
    match ask {
        Ask::GetPrototypeOf => Some("getPrototypeOf"),
        Ask::SetPrototypeOf { .. } => Some("setPrototypeOf"),
        Ask::IsExtensible => Some("isExtensible"),
        Ask::PreventExtensions => Some("preventExtensions"),
        Ask::GetOwnProperty { .. } => Some("getOwnPropertyDescriptor"),
        Ask::DefineOwnProperty { .. } => Some("defineProperty"),
        Ask::HasProperty { .. } => Some("has"),
        Ask::Get { .. } => Some("get"),
        Ask::Set { .. } => Some("set"),
        Ask::Delete { .. } => Some("deleteProperty"),
        Ask::OwnPropertyKeys => Some("ownKeys"),
        Ask::Call { .. } => Some("apply"),
        Ask::Construct { .. } => Some("construct"),
        _ => None,
    }
}

/// The target alone.
fn one_argument(alloc: Global, target: Ref) -> Result<List<Value>, OutOfMemory>
    ensures { IfOk result (λ args. args ≡ value.Ref target ∷ []) }
{
    let mut args = List::new(alloc);
    args.push(Value::Ref(target))?;
    Ok(args)
}

/// The target and a value.
fn two_arguments(alloc: Global, target: Ref, second: Value) -> Result<List<Value>, OutOfMemory>
    ensures { IfOk result (λ args. args ≡ value.Ref target ∷ second ∷ []) }
{
    let mut args = one_argument(alloc, target)?;
    args.push(second)?;
    Ok(args)
}

/// The target and two values.
fn three_arguments(
    alloc: Global,
    target: Ref,
    second: Value,
    third: Value,
) -> Result<List<Value>, OutOfMemory>
    ensures { IfOk result (λ args. args ≡ value.Ref target ∷ second ∷ third ∷ []) }
{
    let mut args = two_arguments(alloc, target, second)?;
    args.push(third)?;
    Ok(args)
}

/// The target and three values.
fn four_arguments(
    alloc: Global,
    target: Ref,
    second: Value,
    third: Value,
    fourth: Value,
) -> Result<List<Value>, OutOfMemory>
    ensures { IfOk result (λ args. args ≡ value.Ref target ∷ second ∷ third ∷ fourth ∷ []) }
{
    let mut args = three_arguments(alloc, target, second, third)?;
    args.push(fourth)?;
    Ok(args)
}

/// What a trap is called with: the target, and then the items of the ask.
fn trap_arguments(alloc: Global, target: Ref, ask: &Ask) -> Result<List<Value>, OutOfMemory>
    ensures { IfOk result (λ args. args ≡ trap_arguments target ask.now) }
{
    match ask {
        Ask::SetPrototypeOf { proto } => two_arguments(alloc, target, proto_value(*proto)),
        Ask::GetOwnProperty { key } => two_arguments(alloc, target, key_value(alloc, key)?),
        Ask::HasProperty { key } => two_arguments(alloc, target, key_value(alloc, key)?),
        Ask::Get { key, receiver } => {
            let key = key_value(alloc, key)?;
            three_arguments(alloc, target, key, copy_value(receiver)?)
        }
        Ask::Set {
            key,
            value,
            receiver,
        } => {
            let key = key_value(alloc, key)?;
            let value = copy_value(value)?;
            four_arguments(alloc, target, key, value, copy_value(receiver)?)
        }
        Ask::Delete { key } => two_arguments(alloc, target, key_value(alloc, key)?),
        _ => one_argument(alloc, target),
    }
}

/// What waits for what a trap gives.
fn next_of_trap(target: Ref, ask: Ask) -> Next
    ensures { result ≡ next_of_trap target ask }
{
    match ask {
        Ask::GetPrototypeOf => Next::PrototypeTold { target },
        Ask::SetPrototypeOf { proto } => Next::PrototypeSet { target, proto },
        Ask::IsExtensible => Next::ExtensibleTold { target },
        Ask::PreventExtensions => Next::Prevented { target },
        Ask::GetOwnProperty { key } => Next::PropertyTold { target, key },
        Ask::HasProperty { key } => Next::PropertyKnown { target, key },
        Ask::Get { key, .. } => Next::ValueTold { target, key },
        Ask::Set { key, value, .. } => Next::ValueSet { target, key, value },
        Ask::Delete { key } => Next::PropertyDeleted { target, key },
        Ask::OwnPropertyKeys => Next::KeysTold { target },
        _ => Next::Answer,
    }
}

/// Calls a trap with the handler as `this`.
fn call_trap(
    alloc: Global,
    proxied: Proxied,
    trap: Ref,
    ask: Ask,
) -> Result<Decision<Next>, OutOfMemory>
    ensures { IfOk result (λ d. d ≡ call_trap proxied trap ask) }
{
    let args = trap_arguments(alloc, proxied.target, &ask)?;
    Ok(Decision::Ask {
        target: Some(trap),
        ask: Ask::Call {
            this: Value::Ref(proxied.handler),
            args,
        },
        next: next_of_trap(proxied.target, ask),
    })
}

/// Calls the trap `defineProperty`, with an object that describes the property.
fn call_described<S: Store>(
    alloc: Global,
    store: &mut S,
    proxied: Proxied,
    trap: Ref,
    key: Key,
    fields: PartialDescriptor,
) -> Result<Decision<Next>, OutOfMemory>
    ensures ok { let names = naming_of (S.owner store.old).0 in
        let decision = call_described names (S.objects store.old) proxied trap key fields in
        IfOk result (λ d. (d, S.objects store.new) ≡ decision) }
    ensures err { OnErr result (StandFirst (S.objects store.old) (S.objects store.new)) }
    ensures party { S.owner store.new ≡ S.owner store.old }
{
    let second = key_value(alloc, &key)?;
    let id = make_description(alloc, store, &fields)?;
    let made = Ref::Own {
        party: store.party(),
        id,
    };
    let args = three_arguments(alloc, proxied.target, second, Value::Ref(made))?;
    Ok(Decision::Ask {
        target: Some(trap),
        ask: Ask::Call {
            this: Value::Ref(proxied.handler),
            args,
        },
        next: Next::PropertyDefined {
            target: proxied.target,
            key,
            fields,
        },
    })
}

/// Calls the trap `apply`, with an array of the arguments.
fn call_applied<S: Store>(
    alloc: Global,
    store: &mut S,
    proxied: Proxied,
    trap: Ref,
    this: Value,
    args: List<Value>,
) -> Result<Decision<Next>, OutOfMemory>
    ensures ok { let names = naming_of (S.owner store.old).0 in
        let decision = call_applied names (S.objects store.old) proxied trap this args in
        IfOk result (λ d. (d, S.objects store.new) ≡ decision) }
    ensures err { OnErr result (StandFirst (S.objects store.old) (S.objects store.new)) }
    ensures party { S.owner store.new ≡ S.owner store.old }
{
    let id = make_array(alloc, store, &args)?;
    let made = Ref::Own {
        party: store.party(),
        id,
    };
    let args = three_arguments(alloc, proxied.target, this, Value::Ref(made))?;
    Ok(Decision::Ask {
        target: Some(trap),
        ask: Ask::Call {
            this: Value::Ref(proxied.handler),
            args,
        },
        next: Next::Answer,
    })
}

/// Calls the trap `construct`, with an array of the arguments and the new target.
fn call_constructing<S: Store>(
    alloc: Global,
    store: &mut S,
    proxied: Proxied,
    trap: Ref,
    new_target: Ref,
    args: List<Value>,
) -> Result<Decision<Next>, OutOfMemory>
    ensures ok { let names = naming_of (S.owner store.old).0 in
        let decision = call_constructing names (S.objects store.old) proxied trap new_target args in
        IfOk result (λ d. (d, S.objects store.new) ≡ decision) }
    ensures err { OnErr result (StandFirst (S.objects store.old) (S.objects store.new)) }
    ensures party { S.owner store.new ≡ S.owner store.old }
{
    let id = make_array(alloc, store, &args)?;
    let made = Ref::Own {
        party: store.party(),
        id,
    };
    let last = Value::Ref(new_target);
    let args = three_arguments(alloc, proxied.target, Value::Ref(made), last)?;
    Ok(Decision::Ask {
        target: Some(trap),
        ask: Ask::Call {
            this: Value::Ref(proxied.handler),
            args,
        },
        next: Next::Constructed,
    })
}

/// Calls a trap with the handler as `this`; three of them get an object that is made for them.
fn call_with<S: Store>(
    alloc: Global,
    store: &mut S,
    proxied: Proxied,
    trap: Ref,
    ask: Ask,
) -> Result<Decision<Next>, OutOfMemory>
    ensures ok { let names = naming_of (S.owner store.old).0 in
        let decision = call_with names (S.objects store.old) proxied trap ask in
        IfOk result (λ d. (d, S.objects store.new) ≡ decision) }
    ensures err { OnErr result (StandFirst (S.objects store.old) (S.objects store.new)) }
    ensures party { S.owner store.new ≡ S.owner store.old }
{
    match ask {
        Ask::DefineOwnProperty { key, descriptor } => {
            call_described(alloc, store, proxied, trap, key, descriptor)
        }
        Ask::Call { this, args } => call_applied(alloc, store, proxied, trap, this, args),
        Ask::Construct { new_target, args } => {
            call_constructing(alloc, store, proxied, trap, new_target, args)
        }
        ask => call_trap(alloc, proxied, trap, ask),
    }
}

/// Asks the target, where there is no trap.
fn forward(proxied: Proxied, ask: Ask) -> Decision<Next>
    ensures { result ≡ forward proxied ask }
{
    Decision::Ask {
        target: Some(proxied.target),
        ask,
        next: Next::Answer,
    }
}

/// Calls the trap, or asks the target where there is none (ECMA-262, GetMethod).
fn by_trap<S: Store>(
    alloc: Global,
    store: &mut S,
    common: &FrozenStore,
    foreign: &Foreign,
    proxied: Proxied,
    ask: Ask,
    trap: Value,
) -> Result<Decision<Next>, OutOfMemory>
    ensures ok { let names = naming_of (S.owner store.old).0 in
        let objects = S.objects store.old in
        let seen = marks_seen names objects common.now foreign.now in
        IfOk result (λ d. (d, S.objects store.new) ≡ by_trap names seen objects proxied ask trap) }
    ensures err { OnErr result (StandFirst (S.objects store.old) (S.objects store.new)) }
    ensures party { S.owner store.new ≡ S.owner store.old }
{
    match trap {
        Value::Undefined => Ok(forward(proxied, ask)),
        Value::Null => Ok(forward(proxied, ask)),
        Value::Ref(trap) => {
            if marks_seen(store, common, foreign, trap).callable {
                call_with(alloc, store, proxied, trap, ask)
            } else {
                Ok(Decision::Fault(FaultText::NotAFunction))
            }
        }
        _ => Ok(Decision::Fault(FaultText::NotAFunction)),
    }
}

/// Goes on with the trap that the handler has, or undefined.
pub(crate) fn after_trap<S: Store>(
    alloc: Global,
    store: &mut S,
    common: &FrozenStore,
    foreign: &Foreign,
    proxied: Proxied,
    ask: Ask,
    reply: Reply,
) -> Result<Decision<Next>, OutOfMemory>
    ensures ok { let names = naming_of (S.owner store.old).0 in
        let objects = S.objects store.old in
        let seen = marks_seen names objects common.now foreign.now in
        let decision = after_trap names seen objects proxied ask reply in
        IfOk result (λ d. (d, S.objects store.new) ≡ decision) }
    ensures err { OnErr result (StandFirst (S.objects store.old) (S.objects store.new)) }
    ensures party { S.owner store.new ≡ S.owner store.old }
{
    match reply {
        Reply::Value(trap) => by_trap(alloc, store, common, foreign, proxied, ask, trap),
        Reply::Throw(thrown) => Ok(Decision::Done(Reply::Throw(thrown))),
        _ => Ok(Decision::Fault(FaultText::WrongKind)),
    }
}

/// Asks the handler for a trap; a revoked proxy has none.
fn get_trap(
    alloc: Global,
    proxied: &Option<Proxied>,
    ask: &Ask,
    name: &str,
) -> Result<Decision<Next>, OutOfMemory>
    ensures { IfOk result (λ d. d ≡ get_trap proxied.now ask.now name.now) }
{
    match proxied {
        None => Ok(Decision::Fault(FaultText::Revoked)),
        Some(proxied) => ask_handler(alloc, proxied.target, proxied.handler, ask, name),
    }
}

/// Asks a handler for a trap.
fn ask_handler(
    alloc: Global,
    target: Ref,
    handler: Ref,
    ask: &Ask,
    name: &str,
) -> Result<Decision<Next>, OutOfMemory>
    ensures { IfOk result (λ d. d ≡ ask_handler target handler ask.now name.now) }
{
    let key = name_key(alloc, name)?;
    let ask = copy_ask(alloc, ask)?;
    Ok(Decision::Ask {
        target: Some(handler),
        ask: Ask::Get {
            key,
            receiver: Value::Ref(handler),
        },
        next: Next::Trap {
            proxied: Proxied { target, handler },
            ask,
        },
    })
}

/// Whether an object of a class is an array (ECMA-262, IsArray): a proxy is asked.
fn array_by_class(alloc: Global, target: Ref, class: Class) -> Decision<Next>
    ensures { result ≡ array_by_class target class }
{
    match class {
        Class::Array => Decision::Done(Reply::Value(Value::Bool(true))),
        Class::Proxy => Decision::Ask {
            target: Some(target),
            ask: Ask::Slot {
                which: Native::IsArray,
                args: List::new(alloc),
            },
            next: Next::Answer,
        },
        _ => Decision::Done(Reply::Value(Value::Bool(false))),
    }
}

/// Whether a proxy stands before an array (ECMA-262, IsArray).
fn is_array_of<S: Store>(
    alloc: Global,
    store: &S,
    common: &FrozenStore,
    foreign: &Foreign,
    proxied: &Option<Proxied>,
) -> Decision<Next>
    ensures { let names = naming_of (S.owner store.now).0 in
        let seen = marks_seen names (S.objects store.now) common.now foreign.now in
        result ≡ is_array_of seen proxied.now }
{
    match proxied {
        None => Decision::Fault(FaultText::Revoked),
        Some(proxied) => {
            let class = marks_seen(store, common, foreign, proxied.target).class;
            array_by_class(alloc, proxied.target, class)
        }
    }
}

/// What a proxy decides of an ask that has no trap.
fn decided_without_trap<S: Store>(
    alloc: Global,
    store: &S,
    common: &FrozenStore,
    foreign: &Foreign,
    proxied: &Option<Proxied>,
    ask: &Ask,
) -> Decision<Next>
    ensures { let names = naming_of (S.owner store.now).0 in
        let seen = marks_seen names (S.objects store.now) common.now foreign.now in
        result ≡ decided_without_trap seen proxied.now ask.now }
{
    match ask {
        Ask::Slot {
            which: Native::IsArray,
            ..
        } => is_array_of(alloc, store, common, foreign, proxied),
        _ => Decision::Fault(FaultText::WrongKind),
    }
}

/// What a proxy decides of an ask.
pub(crate) fn decided_by_proxy<S: Store>(
    alloc: Global,
    store: &S,
    common: &FrozenStore,
    foreign: &Foreign,
    proxied: &Option<Proxied>,
    ask: &Ask,
) -> Result<Decision<Next>, OutOfMemory>
    ensures { let names = naming_of (S.owner store.now).0 in
        let seen = marks_seen names (S.objects store.now) common.now foreign.now in
        IfOk result (λ d. d ≡ decided_by_proxy seen proxied.now ask.now) }
{
    match trap_name(ask) {
        None => Ok(decided_without_trap(alloc, store, common, foreign, proxied, ask)),
        Some(name) => get_trap(alloc, proxied, ask, name),
    }
}
