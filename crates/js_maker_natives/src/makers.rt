// The natives that make objects, and the one that revokes a proxy.

ghost use Rattle.std.specs.Prelude.{◌≡◌, ◌<◌, ◌++◌, ◌∷◌, [], codes, length, slice_get, take, Some, IfOk, OnOk, OnErr};
ghost use Rattle.lava_base.specs.Ids.{same_made_symbol};
ghost use Rattle.js_text.specs.CommonPaths.{common_paths};
ghost use Rattle.js_text.specs.Naming.{naming_of};
ghost use Rattle.js_store.specs.Objects.{at_place, fresh};
ghost use Rattle.js_conversions.specs.js_operations.Lists.{list_items};
ghost use Rattle.js_conversions.specs.js_operations.Looks.{marks_seen};
ghost use Rattle.js_conversions.specs.js_operations.MadeObjects.{StandFirst};
ghost use Rattle.js_maker_natives.specs.MakerDecisions.{given_object, made};
ghost use Rattle.js_maker_natives.specs.Makers.{array_of_length, bind, bind_items, bound_function, collection_marks, is_proxy_slot, make_array, make_map, make_object, make_proxy, make_symbol, map_of_class, new_array, proxy_marks, revoke, revoke_own, revoked_at, with_array_length, with_empty_name, with_fixed, with_function_fields, with_property};

use crate::next::Next;
use js_conversions::js_operations::lists::list_items;
use js_conversions::js_operations::looks::marks_seen;
use js_conversions::js_operations::names::{ascii_text, name_key};
use js_desc::decision::Decision;
use js_desc::descriptor::{Change, Descriptor};
use js_desc::fault::FaultText;
use js_desc::reply::Reply;
use js_ordinary::target::{Target, find_target};
use js_slot_natives::collections::collection_class;
use js_store::foreign::Foreign;
use js_store::frozen::FrozenStore;
use js_store::slot::{Proxied, Slot};
use js_store::store::{PLAIN_MARKS, Store};
use js_text::copy::copy_value;
use js_text::length::length_key;
use js_text::value::{Key, Symbol, Value};
use lava_base::ids::{CommonId, MadeSymbol, ObjId, PartyId, Ref};
use lava_base::list::List;
use lava_base::marks::{Class, Marks};
use lava_base::memory::OutOfMemory;
use std::alloc::Global;

/// The place of `Function.prototype` in the common part.
pub const FUNCTION_PROTOTYPE: u32 = 39;

/// The greatest length of an array, 2^32 - 1.
pub const MAX_LENGTH: u32 = 4_294_967_295;

/// The marks of an array.
const ARRAY_MARKS: Marks = Marks {
    class: Class::Array,
    callable: false,
    constructor: false,
};

/// This is the place of its path.
#[tactic(auto, unfolding(js_text::specs::CommonPaths::common_paths))]
pub fn function_prototype_has_its_place()
    ensures { slice_get common_paths FUNCTION_PROTOTYPE ≡ Some (codes "Function.prototype") }
{}

/// Makes an object without properties, and gives it.
pub(crate) fn made<S: Store>(
    store: &mut S,
    proto: Option<Ref>,
    marks: Marks,
    slot: Slot,
) -> Result<Decision<Next>, OutOfMemory>
    ensures ok { let names = naming_of (S.owner store.old).0 in
        let decision = made names (S.objects store.old) (fresh proto marks slot) in
        IfOk result (λ d. (d, S.objects store.new) ≡ decision) }
    ensures err { OnErr result (StandFirst (S.objects store.old) (S.objects store.new)) }
    ensures party { S.owner store.new ≡ S.owner store.old }
{
    let id = store.make(proto, marks, slot)?;
    Ok(given_object(store.party(), id))
}

/// `makeObject(proto)`: a new object whose prototype is `proto`, an object or null (ECMA-262, OrdinaryObjectCreate).
pub fn make_object<S: Store>(store: &mut S, args: &[Value]) -> Result<Decision<Next>, OutOfMemory>
    ensures ok { let names = naming_of (S.owner store.old).0 in
        let decision = make_object names (S.objects store.old) args.now in
        IfOk result (λ d. (d, S.objects store.new) ≡ decision) }
    ensures err { OnErr result (StandFirst (S.objects store.old) (S.objects store.new)) }
    ensures party { S.owner store.new ≡ S.owner store.old }
{
    match args {
        [Value::Null] => made(store, None, PLAIN_MARKS, Slot::Plain),
        [Value::Ref(proto)] => made(store, Some(*proto), PLAIN_MARKS, Slot::Plain),
        [_] => Ok(Decision::Fault(FaultText::NotAnObject)),
        _ => Ok(Decision::Fault(FaultText::WrongKind)),
    }
}

/// The marks of a proxy: it can be called and constructed where its target can.
fn proxy_marks(target: Marks) -> Marks
    ensures { result ≡ proxy_marks target }
{
    Marks {
        class: Class::Proxy,
        callable: target.callable,
        constructor: target.constructor,
    }
}

/// `makeProxy(t, h)`: a proxy with the target `t` and the handler `h` (ECMA-262, ProxyCreate).
pub fn make_proxy<S: Store>(
    store: &mut S,
    common: &FrozenStore,
    foreign: &Foreign,
    args: &[Value],
) -> Result<Decision<Next>, OutOfMemory>
    ensures ok { let names = naming_of (S.owner store.old).0 in
        let objects = S.objects store.old in
        let seen = marks_seen names objects common.now foreign.now in
        IfOk result (λ d. (d, S.objects store.new) ≡ make_proxy names seen objects args.now) }
    ensures err { OnErr result (StandFirst (S.objects store.old) (S.objects store.new)) }
    ensures party { S.owner store.new ≡ S.owner store.old }
{
    match args {
        [Value::Ref(target), Value::Ref(handler)] => {
            let marks = proxy_marks(marks_seen(store, common, foreign, *target));
            let proxied = Proxied {
                target: *target,
                handler: *handler,
            };
            made(store, None, marks, Slot::Proxy(Some(proxied)))
        }
        [_, _] => Ok(Decision::Fault(FaultText::CannotConvert)),
        _ => Ok(Decision::Fault(FaultText::WrongKind)),
    }
}

/// Whether a slot is that of a proxy.
fn is_proxy_slot(slot: &Slot) -> bool
    ensures { result ≡ is_proxy_slot slot.now }
{
    match slot {
        Slot::Proxy(_) => true,
        _ => false,
    }
}

/// Takes a slot out, which is let go.
fn revoke_slot<S: Store>(store: &mut S, id: ObjId)
    requires { id.0 < length (S.objects store.old) }
    ensures objects { S.objects store.new ≡ revoked_at (S.objects store.old) id.0 }
    ensures party { S.owner store.new ≡ S.owner store.old }
{
    store.swap_slot(id, Slot::Proxy(None));
}

/// Takes a proxy of the store's its target and its handler.
fn revoke_own<S: Store>(store: &mut S, id: ObjId) -> Decision<Next>
    requires { id.0 < length (S.objects store.old) }
    ensures done { (result, S.objects store.new) ≡ revoke_own (S.objects store.old) id.0 }
    ensures party { S.owner store.new ≡ S.owner store.old }
{
    if !is_proxy_slot(store.slot(id)) {
        return Decision::Fault(FaultText::CannotConvert);
    }
    revoke_slot(store, id);
    Decision::Done(Reply::Value(Value::Undefined))
}

/// `revoke(p)`: takes a proxy of the party's own its target and its handler (ECMA-262, Proxy.revocable).
pub fn revoke<S: Store>(store: &mut S, common: &FrozenStore, args: &[Value]) -> Decision<Next>
    ensures done { let names = naming_of (S.owner store.old).0 in
        let objects = S.objects store.old in
        (result, S.objects store.new) ≡ revoke names objects common.now args.now }
    ensures party { S.owner store.new ≡ S.owner store.old }
{
    match args {
        [Value::Ref(proxy)] => match find_target(store, common, *proxy) {
            Some(Target::Own(id)) => revoke_own(store, id),
            _ => Decision::Fault(FaultText::CannotConvert),
        },
        [_] => Decision::Fault(FaultText::CannotConvert),
        _ => Decision::Fault(FaultText::WrongKind),
    }
}

/// `makeSymbol()`: a new symbol, with the id of a new object to which nothing refers (ECMA-262, Symbol).
pub fn make_symbol<S: Store>(store: &mut S, args: &[Value]) -> Result<Decision<Next>, OutOfMemory>
    ensures ok { let names = naming_of (S.owner store.old).0 in
        let decision = make_symbol names (S.objects store.old) args.now in
        IfOk result (λ d. (d, S.objects store.new) ≡ decision) }
    ensures err { OnErr result (StandFirst (S.objects store.old) (S.objects store.new)) }
    ensures party { S.owner store.new ≡ S.owner store.old }
{
    match args {
        [] => {
            let party = store.party();
            let id = store.make(None, PLAIN_MARKS, Slot::Plain)?;
            let symbol = Symbol::Made(MadeSymbol { party, id });
            Ok(Decision::Done(Reply::Value(Value::Symbol(symbol))))
        }
        _ => Ok(Decision::Fault(FaultText::WrongKind)),
    }
}

/// The marks of a keyed collection.
fn collection_marks(class: Class) -> Marks
    ensures { result ≡ collection_marks class }
{
    Marks {
        class,
        callable: false,
        constructor: false,
    }
}

/// Makes a keyed collection of a class.
fn map_of_class<S: Store>(
    alloc: Global,
    store: &mut S,
    proto: Ref,
    class: Option<Class>,
) -> Result<Decision<Next>, OutOfMemory>
    ensures ok { let names = naming_of (S.owner store.old).0 in
        let decision = map_of_class names (S.objects store.old) proto class in
        IfOk result (λ d. (d, S.objects store.new) ≡ decision) }
    ensures err { OnErr result (StandFirst (S.objects store.old) (S.objects store.new)) }
    ensures party { S.owner store.new ≡ S.owner store.old }
{
    match class {
        None => Ok(Decision::Fault(FaultText::CannotConvert)),
        Some(class) => {
            let slot = Slot::Table(List::new(alloc));
            made(store, Some(proto), collection_marks(class), slot)
        }
    }
}

/// `makeMap(proto, c)`: a new collection of the class that the text `c` names: `Map`, `Set` or `WeakMap`.
pub fn make_map<S: Store>(
    alloc: Global,
    store: &mut S,
    args: &[Value],
) -> Result<Decision<Next>, OutOfMemory>
    ensures ok { let names = naming_of (S.owner store.old).0 in
        let decision = make_map names (S.objects store.old) args.now in
        IfOk result (λ d. (d, S.objects store.new) ≡ decision) }
    ensures err { OnErr result (StandFirst (S.objects store.old) (S.objects store.new)) }
    ensures party { S.owner store.new ≡ S.owner store.old }
{
    match args {
        [Value::Ref(proto), Value::Text(class)] => {
            let class = collection_class(alloc, class)?;
            map_of_class(alloc, store, *proto, class)
        }
        [_, _] => Ok(Decision::Fault(FaultText::CannotConvert)),
        _ => Ok(Decision::Fault(FaultText::WrongKind)),
    }
}

/// Gives an object a property.
pub(crate) fn put_property<S: Store>(
    store: &mut S,
    id: ObjId,
    key: Key,
    property: Descriptor,
) -> Result<(), OutOfMemory>
    requires { id.0 < length (S.objects store.old) }
    ensures ok { let after = with_property same_made_symbol key property in
        OnOk result (S.objects store.new ≡ at_place (S.objects store.old) id.0 after) }
    ensures err { OnErr result (S.objects store.new ≡ S.objects store.old) }
    ensures party { S.owner store.new ≡ S.owner store.old }
{
    store.apply(id, key, Change::Write(property))
}

/// Gives an array its length.
fn put_length<S: Store>(
    alloc: Global,
    store: &mut S,
    id: ObjId,
    len: u32,
) -> Result<(), OutOfMemory>
    requires { id.0 < length (S.objects store.old) }
    ensures ok { let after = with_array_length same_made_symbol len in
        OnOk result (S.objects store.new ≡ at_place (S.objects store.old) id.0 after) }
    ensures err { OnErr result (S.objects store.new ≡ S.objects store.old) }
    ensures party { S.owner store.new ≡ S.owner store.old }
{
    let key = length_key(alloc)?;
    let property = Descriptor::Data {
        value: Value::Int(len as i64),
        writable: true,
        enumerable: false,
        configurable: false,
    };
    put_property(store, id, key, property)
}

/// Makes an array of a length.
#[tactic(auto, using(crate::proofs::New_objects::first_of_more))]
fn new_array<S: Store>(
    alloc: Global,
    store: &mut S,
    proto: Ref,
    len: u32,
) -> Result<ObjId, OutOfMemory>
    ensures id { IfOk result (λ id. id.0 ≡ length (S.objects store.old)) }
    ensures ok { let made = new_array same_made_symbol proto len in
        OnOk result (S.objects store.new ≡ S.objects store.old ++ made ∷ []) }
    ensures err { OnErr result (StandFirst (S.objects store.old) (S.objects store.new)) }
    ensures party { S.owner store.new ≡ S.owner store.old }
{
    let id = store.make(Some(proto), ARRAY_MARKS, Slot::Plain)?;
    put_length(alloc, store, id, len)?;
    Ok(id)
}

/// Gives an object that was made.
pub(crate) fn given_object(party: PartyId, id: ObjId) -> Decision<Next>
    ensures { result ≡ given_object (naming_of party.0) id.0 }
{
    Decision::Done(Reply::Value(Value::Ref(Ref::Own { party, id })))
}

/// Makes an array of a length, if that is one.
fn array_of_length<S: Store>(
    alloc: Global,
    store: &mut S,
    proto: Ref,
    length: i64,
) -> Result<Decision<Next>, OutOfMemory>
    ensures ok { let names = naming_of (S.owner store.old).0 in
        let decision = array_of_length names (S.objects store.old) proto length in
        IfOk result (λ d. (d, S.objects store.new) ≡ decision) }
    ensures err { OnErr result (StandFirst (S.objects store.old) (S.objects store.new)) }
    ensures party { S.owner store.new ≡ S.owner store.old }
{
    if length < 0 || length > MAX_LENGTH as i64 {
        return Ok(Decision::Fault(FaultText::CannotConvert));
    }
    let id = new_array(alloc, store, proto, length as u32)?;
    Ok(given_object(store.party(), id))
}

/// `makeArray(proto, n)`: a new array of length `n` (ECMA-262, ArrayCreate).
pub fn make_array<S: Store>(
    alloc: Global,
    store: &mut S,
    args: &[Value],
) -> Result<Decision<Next>, OutOfMemory>
    ensures ok { let names = naming_of (S.owner store.old).0 in
        let decision = make_array names (S.objects store.old) args.now in
        IfOk result (λ d. (d, S.objects store.new) ≡ decision) }
    ensures err { OnErr result (StandFirst (S.objects store.old) (S.objects store.new)) }
    ensures party { S.owner store.new ≡ S.owner store.old }
{
    match args {
        [Value::Ref(proto), Value::Int(length)] => {
            array_of_length(alloc, store, *proto, *length)
        }
        [_, _] => Ok(Decision::Fault(FaultText::CannotConvert)),
        _ => Ok(Decision::Fault(FaultText::WrongKind)),
    }
}

/// Gives a function an own property that cannot be written.
fn put_fixed<S: Store>(
    alloc: Global,
    store: &mut S,
    id: ObjId,
    name: &str,
    value: Value,
) -> Result<(), OutOfMemory>
    requires { id.0 < length (S.objects store.old) }
    ensures ok { let after = with_fixed same_made_symbol name.now value in
        OnOk result (S.objects store.new ≡ at_place (S.objects store.old) id.0 after) }
    ensures err { OnErr result (S.objects store.new ≡ S.objects store.old) }
    ensures party { S.owner store.new ≡ S.owner store.old }
{
    let key = name_key(alloc, name)?;
    let property = Descriptor::Data {
        value,
        writable: false,
        enumerable: false,
        configurable: true,
    };
    put_property(store, id, key, property)
}

/// Gives a function the empty name.
fn put_empty_name<S: Store>(alloc: Global, store: &mut S, id: ObjId) -> Result<(), OutOfMemory>
    requires { id.0 < length (S.objects store.old) }
    ensures ok { let after = with_empty_name same_made_symbol in
        OnOk result (S.objects store.new ≡ at_place (S.objects store.old) id.0 after) }
    ensures err { OnErr result (S.objects store.new ≡ S.objects store.old) }
    ensures party { S.owner store.new ≡ S.owner store.old }
{
    let name = ascii_text(alloc, "")?;
    put_fixed(alloc, store, id, "name", Value::Text(name))
}

/// Gives a bound function its `length` and its `name`.
#[tactic(auto, using(crate::proofs::New_objects::at_twice, crate::proofs::New_objects::within_after, crate::proofs::New_objects::before_after))]
fn put_function_fields<S: Store>(alloc: Global, store: &mut S, id: ObjId) -> Result<(), OutOfMemory>
    requires { id.0 < length (S.objects store.old) }
    ensures ok { let after = with_function_fields same_made_symbol in
        OnOk result (S.objects store.new ≡ at_place (S.objects store.old) id.0 after) }
    ensures err { let first = take id.0 (S.objects store.old) in
        OnErr result (take id.0 (S.objects store.new) ≡ first) }
    ensures party { S.owner store.new ≡ S.owner store.old }
{
    put_fixed(alloc, store, id, "length", Value::Int(0))?;
    put_empty_name(alloc, store, id)
}

/// Makes a bound function.
#[tactic(auto, using(crate::proofs::New_objects::at_end, crate::proofs::New_objects::first_of_more))]
fn bound_function<S: Store>(
    alloc: Global,
    store: &mut S,
    marks: Marks,
    target: Ref,
    this: Value,
    args: List<Value>,
) -> Result<ObjId, OutOfMemory>
    ensures id { IfOk result (λ id. id.0 ≡ length (S.objects store.old)) }
    ensures ok { let names = naming_of (S.owner store.old).0 in
        let made = bound_function names marks target this args in
        OnOk result (S.objects store.new ≡ S.objects store.old ++ made ∷ []) }
    ensures err { OnErr result (StandFirst (S.objects store.old) (S.objects store.new)) }
    ensures party { S.owner store.new ≡ S.owner store.old }
{
    let proto = Ref::Common(CommonId(FUNCTION_PROTOTYPE));
    let slot = Slot::Bound { target, this, args };
    let marks = Marks {
        class: Class::Function,
        callable: true,
        constructor: marks.constructor,
    };
    let id = store.make(Some(proto), marks, slot)?;
    put_function_fields(alloc, store, id)?;
    Ok(id)
}

/// Binds a function to items, if there are some.
fn bind_items<S: Store>(
    alloc: Global,
    store: &mut S,
    marks: Marks,
    target: Ref,
    this: &Value,
    items: Option<List<Value>>,
) -> Result<Decision<Next>, OutOfMemory>
    ensures ok { let names = naming_of (S.owner store.old).0 in
        let decision = bind_items names (S.objects store.old) marks target this.now items in
        IfOk result (λ d. (d, S.objects store.new) ≡ decision) }
    ensures err { OnErr result (StandFirst (S.objects store.old) (S.objects store.new)) }
    ensures party { S.owner store.new ≡ S.owner store.old }
{
    match items {
        None => Ok(Decision::Fault(FaultText::CannotConvert)),
        Some(items) => {
            let this = copy_value(this)?;
            let id = bound_function(alloc, store, marks, target, this, items)?;
            Ok(given_object(store.party(), id))
        }
    }
}

/// `bind(f, t, list)`: a function that calls `f` with `this` being `t`, and the items of an array before its own arguments (ECMA-262, BoundFunctionCreate).
pub fn bind<S: Store>(
    alloc: Global,
    store: &mut S,
    common: &FrozenStore,
    foreign: &Foreign,
    args: &[Value],
) -> Result<Decision<Next>, OutOfMemory>
    ensures ok { let names = naming_of (S.owner store.old).0 in
        let objects = S.objects store.old in
        let seen = marks_seen names objects common.now foreign.now in
        let decision = bind names seen (list_items names objects common.now) objects args.now in
        IfOk result (λ d. (d, S.objects store.new) ≡ decision) }
    ensures err { OnErr result (StandFirst (S.objects store.old) (S.objects store.new)) }
    ensures party { S.owner store.new ≡ S.owner store.old }
{
    match args {
        [Value::Ref(target), this, list] => {
            let marks = marks_seen(store, common, foreign, *target);
            if !marks.callable {
                return Ok(Decision::Fault(FaultText::NotAFunction));
            }
            let items = list_items(alloc, store, common, list)?;
            bind_items(alloc, store, marks, *target, this, items)
        }
        [_, _, _] => Ok(Decision::Fault(FaultText::NotAFunction)),
        _ => Ok(Decision::Fault(FaultText::WrongKind)),
    }
}
