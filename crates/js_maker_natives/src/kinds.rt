// The natives that tell what a value is: `isArray`, `classOf`, `isCommon`; and `symbolFor`.

ghost use Rattle.std.specs.Prelude.{◌≡◌, IfOk};
ghost use Rattle.js_text.specs.Naming.{naming_of, origin_of};
ghost use Rattle.js_text.specs.declared.value.Value.TheVariants as value;
ghost use Rattle.js_conversions.specs.js_operations.Looks.{marks_seen};
ghost use Rattle.js_maker_natives.specs.Kinds.{array_of_class, ask_proxy, class_name, class_of, is_array, is_common, kind_name, object_kind, symbol_for, value_kind};
ghost use Rattle.js_maker_natives.specs.MakerDecisions.{given};

use crate::next::Next;
use js_conversions::js_operations::looks::marks_seen;
use js_conversions::js_operations::names::ascii_text;
use js_desc::ask::Ask;
use js_desc::decision::Decision;
use js_desc::fault::FaultText;
use js_desc::reply::Reply;
use js_store::foreign::Foreign;
use js_store::frozen::FrozenStore;
use js_store::store::Store;
use js_text::native::Native;
use js_text::value::{Symbol, Value};
use lava_base::ids::Ref;
use lava_base::list::List;
use lava_base::marks::Class;
use lava_base::memory::OutOfMemory;
use std::alloc::Global;

/// `isCommon(v)`: whether a value is an object of the common part.
pub fn is_common(party: u32, args: &[Value]) -> Decision<Next>
    ensures { result ≡ is_common (origin_of party) args.now }
{
    match args {
        [Value::Ref(Ref::Common(_))] => Decision::Done(Reply::Value(Value::Bool(true))),
        [_] => Decision::Done(Reply::Value(Value::Bool(false))),
        _ => Decision::Fault(FaultText::WrongKind),
    }
}

/// Asks a proxy whether it stands before an array.
fn ask_proxy(alloc: Global, target: Ref, next: Next) -> Decision<Next>
    ensures { result ≡ ask_proxy target next }
{
    Decision::Ask {
        target: Some(target),
        ask: Ask::Slot {
            which: Native::IsArray,
            args: List::new(alloc),
        },
        next,
    }
}

/// Whether an object of a class is an array (ECMA-262, IsArray): a proxy is asked.
fn array_of_class(alloc: Global, target: Ref, class: Class) -> Decision<Next>
    ensures { result ≡ array_of_class target class }
{
    match class {
        Class::Array => Decision::Done(Reply::Value(Value::Bool(true))),
        Class::Proxy => ask_proxy(alloc, target, Next::Answer),
        _ => Decision::Done(Reply::Value(Value::Bool(false))),
    }
}

/// `isArray(v)`: whether a value is an array, or a proxy of one (ECMA-262, IsArray).
pub fn is_array<S: Store>(
    alloc: Global,
    store: &S,
    common: &FrozenStore,
    foreign: &Foreign,
    args: &[Value],
) -> Decision<Next>
    ensures { let names = naming_of (S.owner store.now).0 in
        let seen = marks_seen names (S.objects store.now) common.now foreign.now in
        result ≡ is_array seen args.now }
{
    match args {
        [Value::Ref(target)] => {
            let class = marks_seen(store, common, foreign, *target).class;
            array_of_class(alloc, *target, class)
        }
        [_] => Decision::Done(Reply::Value(Value::Bool(false))),
        _ => Decision::Fault(FaultText::WrongKind),
    }
}

/// The name of the kind of an object of a class that cannot be called.
fn class_name(class: Class) -> &'static str
    ensures { result.now ≡ class_name class }
{
    match class {
        Class::Error => "Error",
        Class::Map => "Map",
        Class::Set => "Set",
        Class::WeakMap => "WeakMap",
        Class::Promise => "Promise",
        _ => "Object",
    }
}

/// The name of the kind of an object that is no array.
pub(crate) fn kind_name(callable: bool, class: Class) -> &'static str
    ensures { result.now ≡ kind_name callable class }
{
    if callable {
        "Function"
    } else {
        class_name(class)
    }
}

/// Gives a name in ASCII as a text.
pub(crate) fn given_name(alloc: Global, name: &str) -> Result<Decision<Next>, OutOfMemory>
    ensures { IfOk result (λ d. d ≡ given (value.Text name.now)) }
{
    let text = ascii_text(alloc, name)?;
    Ok(Decision::Done(Reply::Value(Value::Text(text))))
}

/// The name of the kind of an object: a proxy is asked whether it stands before an array.
fn object_kind(
    alloc: Global,
    object: Ref,
    callable: bool,
    class: Class,
) -> Result<Decision<Next>, OutOfMemory>
    ensures { IfOk result (λ d. d ≡ object_kind object callable class) }
{
    match class {
        Class::Array => given_name(alloc, "Array"),
        Class::Proxy => Ok(ask_proxy(alloc, object, Next::KindTold { callable })),
        class => given_name(alloc, kind_name(callable, class)),
    }
}

/// The name of the kind of a value.
fn value_kind<S: Store>(
    alloc: Global,
    store: &S,
    common: &FrozenStore,
    foreign: &Foreign,
    value: &Value,
) -> Result<Decision<Next>, OutOfMemory>
    ensures { let names = naming_of (S.owner store.now).0 in
        let seen = marks_seen names (S.objects store.now) common.now foreign.now in
        IfOk result (λ d. d ≡ value_kind seen value.now) }
{
    match value {
        Value::Undefined => given_name(alloc, "Undefined"),
        Value::Null => given_name(alloc, "Null"),
        Value::Bool(_) => given_name(alloc, "Boolean"),
        Value::Int(_) => given_name(alloc, "Number"),
        Value::Text(_) => given_name(alloc, "String"),
        Value::Symbol(_) => given_name(alloc, "Symbol"),
        Value::Ref(object) => {
            let marks = marks_seen(store, common, foreign, *object);
            object_kind(alloc, *object, marks.callable, marks.class)
        }
    }
}

/// `classOf(v)`: a text that names the kind of a value.
pub fn class_of<S: Store>(
    alloc: Global,
    store: &S,
    common: &FrozenStore,
    foreign: &Foreign,
    args: &[Value],
) -> Result<Decision<Next>, OutOfMemory>
    ensures { let names = naming_of (S.owner store.now).0 in
        let seen = marks_seen names (S.objects store.now) common.now foreign.now in
        IfOk result (λ d. d ≡ class_of seen args.now) }
{
    match args {
        [value] => value_kind(alloc, store, common, foreign, value),
        _ => Ok(Decision::Fault(FaultText::WrongKind)),
    }
}

/// `symbolFor(text)`: the symbol that is registered at a text (ECMA-262, Symbol.for).
pub fn symbol_for(args: &[Value]) -> Result<Decision<Next>, OutOfMemory>
    ensures { IfOk result (λ d. d ≡ symbol_for args.now) }
{
    match args {
        [Value::Text(text)] => {
            let symbol = Symbol::Registered(text.copy()?);
            Ok(Decision::Done(Reply::Value(Value::Symbol(symbol))))
        }
        [_] => Ok(Decision::Fault(FaultText::CannotConvert)),
        _ => Ok(Decision::Fault(FaultText::WrongKind)),
    }
}
