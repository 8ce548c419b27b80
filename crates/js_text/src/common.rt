// The paths of the common objects: the objects of the locked intrinsics, which all parties share.

ghost use Rattle.std.specs.Prelude.{◌≡◌, ℕ, ◌<◌, List, map, IfSome, IsTrue, slice_get};
ghost use Rattle.std.specs.Option.{option_copied};
ghost use Rattle.js_text.specs.CommonPaths.{common_paths, IsPathOf, all_rise};
ghost use Rattle.js_text.specs.Search.{order_of_units};

use lava_base::ids::CommonId;
use std::cmp::Ordering;

/// The paths of all common objects, in byte order.
///
/// An intrinsic has its place as path, as `Array.prototype.push`; a key that is the symbol is written `[Symbol.iterator]`, directly after the path of its object. A getter has `get`, a space and the place of its property. A helper of the prelude, which stands at no place, has its name, which begins with `_`. Where lockdown replaces a property that holds a value by an accessor, the getter has `get` and the setter `set`, a space and the place of that property: so it does with each one of `Object.prototype`, `Function.prototype`, `Error.prototype` and the prototypes of the four other errors.
static COMMON_PATHS: [&str; 222] = [
    "Array",
    "Array.from",
    "Array.isArray",
    "Array.of",
    "Array.prototype",
    "Array.prototype.concat",
    "Array.prototype.entries",
    "Array.prototype.every",
    "Array.prototype.filter",
    "Array.prototype.find",
    "Array.prototype.findIndex",
    "Array.prototype.forEach",
    "Array.prototype.includes",
    "Array.prototype.indexOf",
    "Array.prototype.join",
    "Array.prototype.keys",
    "Array.prototype.map",
    "Array.prototype.pop",
    "Array.prototype.push",
    "Array.prototype.reduce",
    "Array.prototype.reverse",
    "Array.prototype.shift",
    "Array.prototype.slice",
    "Array.prototype.some",
    "Array.prototype.sort",
    "Array.prototype.splice",
    "Array.prototype.toString",
    "Array.prototype.unshift",
    "Array.prototype.values",
    "Boolean",
    "Boolean.prototype",
    "Boolean.prototype.toString",
    "Compartment",
    "Compartment.prototype",
    "Compartment.prototype.evaluate",
    "Error",
    "Error.prototype",
    "Error.prototype.toString",
    "Function",
    "Function.prototype",
    "Function.prototype.apply",
    "Function.prototype.bind",
    "Function.prototype.call",
    "Function.prototype.toString",
    "JSON",
    "JSON.parse",
    "JSON.stringify",
    "Map",
    "Map.prototype",
    "Map.prototype.clear",
    "Map.prototype.delete",
    "Map.prototype.entries",
    "Map.prototype.forEach",
    "Map.prototype.get",
    "Map.prototype.has",
    "Map.prototype.keys",
    "Map.prototype.set",
    "Map.prototype.values",
    "Math",
    "Math.abs",
    "Math.floor",
    "Math.max",
    "Math.min",
    "Math.trunc",
    "Number",
    "Number.isInteger",
    "Number.isSafeInteger",
    "Number.prototype",
    "Number.prototype.toString",
    "Object",
    "Object.assign",
    "Object.create",
    "Object.defineProperties",
    "Object.defineProperty",
    "Object.entries",
    "Object.freeze",
    "Object.fromEntries",
    "Object.getOwnPropertyDescriptor",
    "Object.getOwnPropertyNames",
    "Object.getOwnPropertySymbols",
    "Object.getPrototypeOf",
    "Object.hasOwn",
    "Object.is",
    "Object.isExtensible",
    "Object.isFrozen",
    "Object.keys",
    "Object.preventExtensions",
    "Object.prototype",
    "Object.prototype.hasOwnProperty",
    "Object.prototype.isPrototypeOf",
    "Object.prototype.toString",
    "Object.prototype.valueOf",
    "Object.setPrototypeOf",
    "Object.values",
    "Proxy",
    "Proxy.revocable",
    "RangeError",
    "RangeError.prototype",
    "ReferenceError",
    "ReferenceError.prototype",
    "Reflect",
    "Reflect.apply",
    "Reflect.construct",
    "Reflect.defineProperty",
    "Reflect.deleteProperty",
    "Reflect.get",
    "Reflect.has",
    "Reflect.ownKeys",
    "Reflect.set",
    "Set",
    "Set.prototype",
    "Set.prototype.add",
    "Set.prototype.delete",
    "Set.prototype.has",
    "Set.prototype.values",
    "String",
    "String.fromCharCode",
    "String.prototype",
    "String.prototype.charAt",
    "String.prototype.charCodeAt",
    "String.prototype.endsWith",
    "String.prototype.includes",
    "String.prototype.indexOf",
    "String.prototype.padEnd",
    "String.prototype.padStart",
    "String.prototype.repeat",
    "String.prototype.slice",
    "String.prototype.split",
    "String.prototype.startsWith",
    "String.prototype.substring",
    "String.prototype.toLowerCase",
    "String.prototype.toString",
    "String.prototype.toUpperCase",
    "String.prototype.trim",
    "String.prototype[Symbol.iterator]",
    "Symbol",
    "Symbol.for",
    "Symbol.prototype",
    "SyntaxError",
    "SyntaxError.prototype",
    "TypeError",
    "TypeError.prototype",
    "WeakMap",
    "WeakMap.prototype",
    "WeakMap.prototype.delete",
    "WeakMap.prototype.get",
    "WeakMap.prototype.has",
    "WeakMap.prototype.set",
    "_at",
    "_base",
    "_call",
    "_copy",
    "_cut",
    "_fail",
    "_forIn",
    "_into",
    "_isObject",
    "_iter",
    "_len",
    "_list",
    "_new",
    "_num",
    "_object",
    "_omit",
    "_open",
    "_pad",
    "_proto",
    "_put",
    "_quote",
    "_s",
    "_shown",
    "_space",
    "_walk",
    "get Compartment.prototype.globalThis",
    "get Error.prototype.constructor",
    "get Error.prototype.message",
    "get Error.prototype.name",
    "get Error.prototype.toString",
    "get Function.prototype.apply",
    "get Function.prototype.bind",
    "get Function.prototype.call",
    "get Function.prototype.constructor",
    "get Function.prototype.toString",
    "get Map.prototype.size",
    "get Object.prototype.constructor",
    "get Object.prototype.hasOwnProperty",
    "get Object.prototype.isPrototypeOf",
    "get Object.prototype.toString",
    "get Object.prototype.valueOf",
    "get RangeError.prototype.constructor",
    "get RangeError.prototype.name",
    "get ReferenceError.prototype.constructor",
    "get ReferenceError.prototype.name",
    "get Set.prototype.size",
    "get SyntaxError.prototype.constructor",
    "get SyntaxError.prototype.name",
    "get TypeError.prototype.constructor",
    "get TypeError.prototype.name",
    "harden",
    "parseInt",
    "set Error.prototype.constructor",
    "set Error.prototype.message",
    "set Error.prototype.name",
    "set Error.prototype.toString",
    "set Function.prototype.apply",
    "set Function.prototype.bind",
    "set Function.prototype.call",
    "set Function.prototype.constructor",
    "set Function.prototype.toString",
    "set Object.prototype.constructor",
    "set Object.prototype.hasOwnProperty",
    "set Object.prototype.isPrototypeOf",
    "set Object.prototype.toString",
    "set Object.prototype.valueOf",
    "set RangeError.prototype.constructor",
    "set RangeError.prototype.name",
    "set ReferenceError.prototype.constructor",
    "set ReferenceError.prototype.name",
    "set SyntaxError.prototype.constructor",
    "set SyntaxError.prototype.name",
    "set TypeError.prototype.constructor",
    "set TypeError.prototype.name",
];

/// The path of a common object, by which a trace writes it. None comes exactly where there is no such object.
pub fn common_path(id: CommonId) -> Option<&'static str>
    ensures path { option_copied result ≡ slice_get common_paths id.0 }
{
    text_at(&COMMON_PATHS, id.0 as usize)
}

/// The common object with this path. None comes exactly where there is no such object.
pub fn common_id(path: &str) -> Option<CommonId>
    ensures place { IfSome result (λ id. IsPathOf path.now id.0) }
    ensures each { (place : ℕ) → IsPathOf path.now place → result ≡ Some (record { 0 = place }) }
{
    match place_of(&COMMON_PATHS, path) {
        Some(place) => Some(CommonId(place as u32)),
        None => None,
    }
}

/// The paths stand in byte order, and none stands twice.
pub fn common_paths_rise()
    ensures { (i j : ℕ) (a b : List ℕ) → i < j → IsPathOf a i → IsPathOf b j
        → order_of_units a b ≡ Ordering.Less }
{}

/// The text at a place, counted from 0.
fn text_at(texts: &[&'static str], at: usize) -> Option<&'static str>
    ensures { option_copied result ≡ slice_get (map (λ text. text.now) texts.now) at }
{
    texts.get(at).copied()
}

/// The place of a text among texts that rise.
fn place_of(texts: &[&str], text: &str) -> Option<usize>
    requires { IsTrue (all_rise (map (λ text. text.now) texts.now)) }
    ensures place { let known = map (λ text. text.now) texts.now in
        IfSome result (λ at. slice_get known at ≡ Some text.now) }
    ensures each { let known = map (λ text. text.now) texts.now in
        (at : ℕ) → slice_get known at ≡ Some text.now → result ≡ Some at }
{
    texts.binary_search(&text).ok()
}
