// The natives: what the prelude and the core terms ask of the machine by name.

ghost use Rattle.std.specs.Prelude.{◌≡◌, ◌<◌, IfSome, IfNone, length, slice_index_or, ℕ};
ghost use Rattle.js_text.specs.Natives.{native_name, native_number, native_operands, native_crosses};

/// A native: an operation of the machine that no text of the language can say. In the list of its operands `o` is an object, `k` a property key, and an array is one of the running party.
#[derive(Clone, Copy, Debug, PartialEq, Eq)]
pub enum Native {
    /// `getProto(o)`: the prototype of an object, which is an object or null (ECMA-262, [[GetPrototypeOf]]).
    GetProto,
    /// `setProto(o, p)`: makes `p`, an object or null, the prototype of an object, and says whether it could (ECMA-262, [[SetPrototypeOf]]).
    SetProto,
    /// `isExtensible(o)`: whether an object may get new properties (ECMA-262, [[IsExtensible]]).
    IsExtensible,
    /// `preventExt(o)`: lets an object get no new properties, and says whether it could (ECMA-262, [[PreventExtensions]]).
    PreventExt,
    /// `getOwn(o, k)`: an object that describes an own property, or undefined (ECMA-262, [[GetOwnProperty]]).
    GetOwn,
    /// `defineOwn(o, k, d)`: defines an own property as the object `d` describes it, and says whether it could (ECMA-262, [[DefineOwnProperty]]).
    DefineOwn,
    /// `has(o, k)`: whether an object or its prototypes have a property (ECMA-262, [[HasProperty]]).
    Has,
    /// `get(o, k, r)`: the value of a property, for the receiver `r` (ECMA-262, [[Get]]).
    Get,
    /// `set(o, k, v, r)`: gives a property the value `v`, for the receiver `r`, and says whether it could (ECMA-262, [[Set]]).
    Set,
    /// `delete(o, k)`: deletes an own property, and says whether it could (ECMA-262, [[Delete]]).
    Delete,
    /// `ownKeys(o)`: an array of the own keys of an object (ECMA-262, [[OwnPropertyKeys]]).
    OwnKeys,
    /// `apply(f, t, list)`: calls `f` with `this` being `t` and the items of an array as arguments (ECMA-262, [[Call]]).
    Apply,
    /// `construct(f, list, n)`: constructs by `f` with the items of an array as arguments and the new target `n` (ECMA-262, [[Construct]]).
    Construct,
    /// `makeObject(proto)`: a new object whose prototype is `proto`, an object or null (ECMA-262, OrdinaryObjectCreate).
    MakeObject,
    /// `makeArray(proto, n)`: a new array of length `n` (ECMA-262, ArrayCreate).
    MakeArray,
    /// `isArray(v)`: whether `v` is an array, or a proxy of one (ECMA-262, IsArray).
    IsArray,
    /// `classOf(v)`: a text that names the kind of `v`.
    ClassOf,
    /// `isCommon(v)`: whether `v` is an object of the common part.
    IsCommon,
    /// `bind(f, t, list)`: a function that calls `f` with `this` being `t`, and the items of an array before its own arguments (ECMA-262, BoundFunctionCreate).
    Bind,
    /// `makeProxy(t, h)`: a proxy with the target `t` and the handler `h` (ECMA-262, ProxyCreate).
    MakeProxy,
    /// `revoke(p)`: takes a proxy its target and its handler.
    Revoke,
    /// `unitAt(s, i)`: the unit of a text at a place.
    UnitAt,
    /// `fromUnits(list)`: the text whose units are the numbers of an array, each modulo 2^16.
    FromUnits,
    /// `slice(s, a, b)`: the units of a text from one place up to another.
    Slice,
    /// `indexIn(s, t, from)`: the first place at `from` or after it where `t` stands in `s`, or -1 (ECMA-262, StringIndexOf).
    IndexIn,
    /// `concat(texts)`: all its operands, which are texts, one after another. It takes any number of them.
    Concat,
    /// `toText(v)`: `v` as a text (ECMA-262, ToString).
    ToText,
    /// `toNumber(v)`: `v` as a number (ECMA-262, ToNumber).
    ToNumber,
    /// `toKey(v)`: `v` as a property key (ECMA-262, ToPropertyKey).
    ToKey,
    /// `ascii(s, up)`: a text with its ASCII letters in upper case where `up` is true, and else in lower case.
    Ascii,
    /// `sortTexts(list)`: the places of the texts of an array in the order of the texts, unit by unit.
    SortTexts,
    /// `makeSymbol()`: a new symbol.
    MakeSymbol,
    /// `symbolFor(text)`: the symbol that is registered at a text (ECMA-262, Symbol.for).
    SymbolFor,
    /// `makeError(proto, m)`: a new error with the message `m`, or with none where `m` is undefined.
    MakeError,
    /// `makeMap(proto, c)`: a new map of the class that the text `c` names: `Map`, `Set` or `WeakMap`.
    MakeMap,
    /// `mapGet(m, c, k)`: the value at a key of a map of class `c`.
    MapGet,
    /// `mapSet(m, c, k, v)`: puts a value at a key of a map of class `c`.
    MapSet,
    /// `mapHas(m, c, k)`: whether a map of class `c` has a key.
    MapHas,
    /// `mapDelete(m, c, k)`: takes a key from a map of class `c`, and says whether it was there.
    MapDelete,
    /// `mapClear(m, c)`: takes all keys from a map of class `c`.
    MapClear,
    /// `mapNext(m, c, i)`: the least place at `i` or after it where a map of class `c` has a key, or -1.
    MapNext,
    /// `mapKeyAt(m, c, i)`: the key at a place of a map of class `c`.
    MapKeyAt,
    /// `mapSize(m, c)`: how many keys a map of class `c` has.
    MapSize,
    /// `makeCompartment(proto, keys, values, names, modules)`: a new compartment, with arrays of the keys and the values of its globals, and of the names and the values of its modules.
    MakeCompartment,
    /// `evaluate(c, text)`: runs a text in a compartment, or at a global.
    Evaluate,
    /// `compartmentGlobal(c)`: the global of a compartment.
    CompartmentGlobal,
    /// `makePromise(proto)`: a new pending promise.
    MakePromise,
    /// `settle(p, ok, v)`: fulfils a pending promise with `v` where `ok` is true, and else rejects it.
    Settle,
    /// `react(p, f, g)`: has `f` called once a promise is fulfilled, and `g` once it is rejected.
    React,
    /// `queue(f)`: has `f` called in a later turn.
    Queue,
    /// `importModule(request)`: the value of the module that a request names.
    ImportModule,
    /// `isModule(v)`: whether `v` is the namespace of a module.
    IsModule,
}

/// All natives, by number.
static NATIVES: [Native; 52] = [
    Native::GetProto,
    Native::SetProto,
    Native::IsExtensible,
    Native::PreventExt,
    Native::GetOwn,
    Native::DefineOwn,
    Native::Has,
    Native::Get,
    Native::Set,
    Native::Delete,
    Native::OwnKeys,
    Native::Apply,
    Native::Construct,
    Native::MakeObject,
    Native::MakeArray,
    Native::IsArray,
    Native::ClassOf,
    Native::IsCommon,
    Native::Bind,
    Native::MakeProxy,
    Native::Revoke,
    Native::UnitAt,
    Native::FromUnits,
    Native::Slice,
    Native::IndexIn,
    Native::Concat,
    Native::ToText,
    Native::ToNumber,
    Native::ToKey,
    Native::Ascii,
    Native::SortTexts,
    Native::MakeSymbol,
    Native::SymbolFor,
    Native::MakeError,
    Native::MakeMap,
    Native::MapGet,
    Native::MapSet,
    Native::MapHas,
    Native::MapDelete,
    Native::MapClear,
    Native::MapNext,
    Native::MapKeyAt,
    Native::MapSize,
    Native::MakeCompartment,
    Native::Evaluate,
    Native::CompartmentGlobal,
    Native::MakePromise,
    Native::Settle,
    Native::React,
    Native::Queue,
    Native::ImportModule,
    Native::IsModule,
];

impl Native {
    /// The name by which the prelude, a trace and a written term say it.
    pub fn name(self) -> &'static str
        ensures { result.now ≡ native_name self }
    {
        match self {
            Native::GetProto => "getProto",
            Native::SetProto => "setProto",
            Native::IsExtensible => "isExtensible",
            Native::PreventExt => "preventExt",
            Native::GetOwn => "getOwn",
            Native::DefineOwn => "defineOwn",
            Native::Has => "has",
            Native::Get => "get",
            Native::Set => "set",
            Native::Delete => "delete",
            Native::OwnKeys => "ownKeys",
            Native::Apply => "apply",
            Native::Construct => "construct",
            Native::MakeObject => "makeObject",
            Native::MakeArray => "makeArray",
            Native::IsArray => "isArray",
            Native::ClassOf => "classOf",
            Native::IsCommon => "isCommon",
            Native::Bind => "bind",
            Native::MakeProxy => "makeProxy",
            Native::Revoke => "revoke",
            Native::UnitAt => "unitAt",
            Native::FromUnits => "fromUnits",
            Native::Slice => "slice",
            Native::IndexIn => "indexIn",
            Native::Concat => "concat",
            Native::ToText => "toText",
            Native::ToNumber => "toNumber",
            Native::ToKey => "toKey",
            Native::Ascii => "ascii",
            Native::SortTexts => "sortTexts",
            Native::MakeSymbol => "makeSymbol",
            Native::SymbolFor => "symbolFor",
            Native::MakeError => "makeError",
            Native::MakeMap => "makeMap",
            Native::MapGet => "mapGet",
            Native::MapSet => "mapSet",
            Native::MapHas => "mapHas",
            Native::MapDelete => "mapDelete",
            Native::MapClear => "mapClear",
            Native::MapNext => "mapNext",
            Native::MapKeyAt => "mapKeyAt",
            Native::MapSize => "mapSize",
            Native::MakeCompartment => "makeCompartment",
            Native::Evaluate => "evaluate",
            Native::CompartmentGlobal => "compartmentGlobal",
            Native::MakePromise => "makePromise",
            Native::Settle => "settle",
            Native::React => "react",
            Native::Queue => "queue",
            Native::ImportModule => "importModule",
            Native::IsModule => "isModule",
        }
    }

    /// Its number, from 1 to 52. Those up to 46 stand in the terms of every module; promises have the next four, and modules with `import` and `export` the last two.
    pub fn number(self) -> u32
        ensures { result ≡ native_number self }
    {
        match self {
            Native::GetProto => 1,
            Native::SetProto => 2,
            Native::IsExtensible => 3,
            Native::PreventExt => 4,
            Native::GetOwn => 5,
            Native::DefineOwn => 6,
            Native::Has => 7,
            Native::Get => 8,
            Native::Set => 9,
            Native::Delete => 10,
            Native::OwnKeys => 11,
            Native::Apply => 12,
            Native::Construct => 13,
            Native::MakeObject => 14,
            Native::MakeArray => 15,
            Native::IsArray => 16,
            Native::ClassOf => 17,
            Native::IsCommon => 18,
            Native::Bind => 19,
            Native::MakeProxy => 20,
            Native::Revoke => 21,
            Native::UnitAt => 22,
            Native::FromUnits => 23,
            Native::Slice => 24,
            Native::IndexIn => 25,
            Native::Concat => 26,
            Native::ToText => 27,
            Native::ToNumber => 28,
            Native::ToKey => 29,
            Native::Ascii => 30,
            Native::SortTexts => 31,
            Native::MakeSymbol => 32,
            Native::SymbolFor => 33,
            Native::MakeError => 34,
            Native::MakeMap => 35,
            Native::MapGet => 36,
            Native::MapSet => 37,
            Native::MapHas => 38,
            Native::MapDelete => 39,
            Native::MapClear => 40,
            Native::MapNext => 41,
            Native::MapKeyAt => 42,
            Native::MapSize => 43,
            Native::MakeCompartment => 44,
            Native::Evaluate => 45,
            Native::CompartmentGlobal => 46,
            Native::MakePromise => 47,
            Native::Settle => 48,
            Native::React => 49,
            Native::Queue => 50,
            Native::ImportModule => 51,
            Native::IsModule => 52,
        }
    }

    /// How many operands it takes, its target included; none for `Concat`, which takes any number.
    pub fn operands(self) -> Option<u32>
        ensures { result ≡ native_operands self }
    {
        match self {
            Native::GetProto => Some(1),
            Native::SetProto => Some(2),
            Native::IsExtensible => Some(1),
            Native::PreventExt => Some(1),
            Native::GetOwn => Some(2),
            Native::DefineOwn => Some(3),
            Native::Has => Some(2),
            Native::Get => Some(3),
            Native::Set => Some(4),
            Native::Delete => Some(2),
            Native::OwnKeys => Some(1),
            Native::Apply => Some(3),
            Native::Construct => Some(3),
            Native::MakeObject => Some(1),
            Native::MakeArray => Some(2),
            Native::IsArray => Some(1),
            Native::ClassOf => Some(1),
            Native::IsCommon => Some(1),
            Native::Bind => Some(3),
            Native::MakeProxy => Some(2),
            Native::Revoke => Some(1),
            Native::UnitAt => Some(2),
            Native::FromUnits => Some(1),
            Native::Slice => Some(3),
            Native::IndexIn => Some(3),
            Native::Concat => None,
            Native::ToText => Some(1),
            Native::ToNumber => Some(1),
            Native::ToKey => Some(1),
            Native::Ascii => Some(2),
            Native::SortTexts => Some(1),
            Native::MakeSymbol => Some(0),
            Native::SymbolFor => Some(1),
            Native::MakeError => Some(2),
            Native::MakeMap => Some(2),
            Native::MapGet => Some(3),
            Native::MapSet => Some(4),
            Native::MapHas => Some(3),
            Native::MapDelete => Some(3),
            Native::MapClear => Some(2),
            Native::MapNext => Some(3),
            Native::MapKeyAt => Some(3),
            Native::MapSize => Some(2),
            Native::MakeCompartment => Some(5),
            Native::Evaluate => Some(2),
            Native::CompartmentGlobal => Some(1),
            Native::MakePromise => Some(1),
            Native::Settle => Some(3),
            Native::React => Some(3),
            Native::Queue => Some(1),
            Native::ImportModule => Some(1),
            Native::IsModule => Some(1),
        }
    }

    /// Whether it looks into what its target keeps, so that the target's owner is asked where that is another party. `IsArray` does so at a proxy alone.
    pub fn crosses(self) -> bool
        ensures { result ≡ native_crosses self }
    {
        match self {
            Native::IsArray
            | Native::MapGet
            | Native::MapSet
            | Native::MapHas
            | Native::MapDelete
            | Native::MapClear
            | Native::MapNext
            | Native::MapKeyAt
            | Native::MapSize
            | Native::Evaluate
            | Native::CompartmentGlobal
            | Native::React => true,
            _ => false,
        }
    }
}

/// The native of that name.
pub fn native_of(name: &str) -> Option<Native>
    ensures named { IfSome result (λ n. native_name n ≡ name.now) }
    ensures each { (n : Native) → native_name n ≡ name.now → result ≡ Some n }
{
    first_named(&NATIVES, name)
}

/// The first of these natives that has the name.
fn first_named(natives: &[Native], name: &str) -> Option<Native>
    ensures named { IfSome result (λ n. native_name n ≡ name.now) }
    ensures none { IfNone result ((k : ℕ) (d : Native) → k < length natives.now
        → ¬ (native_name (slice_index_or natives.now k d) ≡ name.now)) }
{
    for native in natives {
        if native.name() == name {
            return Some(*native);
        }
    }
    None
}
