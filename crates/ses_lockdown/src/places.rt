// The common objects, by their places.

use crate::table::Kind::{Constructor, Function, Ordinary};
use crate::table::Place;
use crate::table::Role::{Getter, Given, Setter};

/// The common objects, in the order of their places (ECMA-262, "Well-Known Intrinsic Objects"; SES, intrinsics).
pub static PLACES: [Place; 222] = [
    (Constructor, Some(39), Given), // Array
    (Function, Some(39), Given), // Array.from
    (Function, Some(39), Given), // Array.isArray
    (Function, Some(39), Given), // Array.of
    (Ordinary, Some(87), Given), // Array.prototype
    (Function, Some(39), Given), // Array.prototype.concat
    (Function, Some(39), Given), // Array.prototype.entries
    (Function, Some(39), Given), // Array.prototype.every
    (Function, Some(39), Given), // Array.prototype.filter
    (Function, Some(39), Given), // Array.prototype.find
    (Function, Some(39), Given), // Array.prototype.findIndex
    (Function, Some(39), Given), // Array.prototype.forEach
    (Function, Some(39), Given), // Array.prototype.includes
    (Function, Some(39), Given), // Array.prototype.indexOf
    (Function, Some(39), Given), // Array.prototype.join
    (Function, Some(39), Given), // Array.prototype.keys
    (Function, Some(39), Given), // Array.prototype.map
    (Function, Some(39), Given), // Array.prototype.pop
    (Function, Some(39), Given), // Array.prototype.push
    (Function, Some(39), Given), // Array.prototype.reduce
    (Function, Some(39), Given), // Array.prototype.reverse
    (Function, Some(39), Given), // Array.prototype.shift
    (Function, Some(39), Given), // Array.prototype.slice
    (Function, Some(39), Given), // Array.prototype.some
    (Function, Some(39), Given), // Array.prototype.sort
    (Function, Some(39), Given), // Array.prototype.splice
    (Function, Some(39), Given), // Array.prototype.toString
    (Function, Some(39), Given), // Array.prototype.unshift
    (Function, Some(39), Given), // Array.prototype.values
    (Constructor, Some(39), Given), // Boolean
    (Ordinary, Some(87), Given), // Boolean.prototype
    (Function, Some(39), Given), // Boolean.prototype.toString
    (Constructor, Some(39), Given), // Compartment
    (Ordinary, Some(87), Given), // Compartment.prototype
    (Function, Some(39), Given), // Compartment.prototype.evaluate
    (Constructor, Some(39), Given), // Error
    (Ordinary, Some(87), Given), // Error.prototype
    (Function, Some(39), Given), // Error.prototype.toString
    (Constructor, Some(39), Given), // Function
    (Ordinary, Some(87), Given), // Function.prototype
    (Function, Some(39), Given), // Function.prototype.apply
    (Function, Some(39), Given), // Function.prototype.bind
    (Function, Some(39), Given), // Function.prototype.call
    (Function, Some(39), Given), // Function.prototype.toString
    (Ordinary, Some(87), Given), // JSON
    (Function, Some(39), Given), // JSON.parse
    (Function, Some(39), Given), // JSON.stringify
    (Constructor, Some(39), Given), // Map
    (Ordinary, Some(87), Given), // Map.prototype
    (Function, Some(39), Given), // Map.prototype.clear
    (Function, Some(39), Given), // Map.prototype.delete
    (Function, Some(39), Given), // Map.prototype.entries
    (Function, Some(39), Given), // Map.prototype.forEach
    (Function, Some(39), Given), // Map.prototype.get
    (Function, Some(39), Given), // Map.prototype.has
    (Function, Some(39), Given), // Map.prototype.keys
    (Function, Some(39), Given), // Map.prototype.set
    (Function, Some(39), Given), // Map.prototype.values
    (Ordinary, Some(87), Given), // Math
    (Function, Some(39), Given), // Math.abs
    (Function, Some(39), Given), // Math.floor
    (Function, Some(39), Given), // Math.max
    (Function, Some(39), Given), // Math.min
    (Function, Some(39), Given), // Math.trunc
    (Constructor, Some(39), Given), // Number
    (Function, Some(39), Given), // Number.isInteger
    (Function, Some(39), Given), // Number.isSafeInteger
    (Ordinary, Some(87), Given), // Number.prototype
    (Function, Some(39), Given), // Number.prototype.toString
    (Constructor, Some(39), Given), // Object
    (Function, Some(39), Given), // Object.assign
    (Function, Some(39), Given), // Object.create
    (Function, Some(39), Given), // Object.defineProperties
    (Function, Some(39), Given), // Object.defineProperty
    (Function, Some(39), Given), // Object.entries
    (Function, Some(39), Given), // Object.freeze
    (Function, Some(39), Given), // Object.fromEntries
    (Function, Some(39), Given), // Object.getOwnPropertyDescriptor
    (Function, Some(39), Given), // Object.getOwnPropertyNames
    (Function, Some(39), Given), // Object.getOwnPropertySymbols
    (Function, Some(39), Given), // Object.getPrototypeOf
    (Function, Some(39), Given), // Object.hasOwn
    (Function, Some(39), Given), // Object.is
    (Function, Some(39), Given), // Object.isExtensible
    (Function, Some(39), Given), // Object.isFrozen
    (Function, Some(39), Given), // Object.keys
    (Function, Some(39), Given), // Object.preventExtensions
    (Ordinary, None, Given), // Object.prototype
    (Function, Some(39), Given), // Object.prototype.hasOwnProperty
    (Function, Some(39), Given), // Object.prototype.isPrototypeOf
    (Function, Some(39), Given), // Object.prototype.toString
    (Function, Some(39), Given), // Object.prototype.valueOf
    (Function, Some(39), Given), // Object.setPrototypeOf
    (Function, Some(39), Given), // Object.values
    (Constructor, Some(39), Given), // Proxy
    (Function, Some(39), Given), // Proxy.revocable
    (Constructor, Some(35), Given), // RangeError
    (Ordinary, Some(36), Given), // RangeError.prototype
    (Constructor, Some(35), Given), // ReferenceError
    (Ordinary, Some(36), Given), // ReferenceError.prototype
    (Ordinary, Some(87), Given), // Reflect
    (Function, Some(39), Given), // Reflect.apply
    (Function, Some(39), Given), // Reflect.construct
    (Function, Some(39), Given), // Reflect.defineProperty
    (Function, Some(39), Given), // Reflect.deleteProperty
    (Function, Some(39), Given), // Reflect.get
    (Function, Some(39), Given), // Reflect.has
    (Function, Some(39), Given), // Reflect.ownKeys
    (Function, Some(39), Given), // Reflect.set
    (Constructor, Some(39), Given), // Set
    (Ordinary, Some(87), Given), // Set.prototype
    (Function, Some(39), Given), // Set.prototype.add
    (Function, Some(39), Given), // Set.prototype.delete
    (Function, Some(39), Given), // Set.prototype.has
    (Function, Some(39), Given), // Set.prototype.values
    (Constructor, Some(39), Given), // String
    (Function, Some(39), Given), // String.fromCharCode
    (Ordinary, Some(87), Given), // String.prototype
    (Function, Some(39), Given), // String.prototype.charAt
    (Function, Some(39), Given), // String.prototype.charCodeAt
    (Function, Some(39), Given), // String.prototype.endsWith
    (Function, Some(39), Given), // String.prototype.includes
    (Function, Some(39), Given), // String.prototype.indexOf
    (Function, Some(39), Given), // String.prototype.padEnd
    (Function, Some(39), Given), // String.prototype.padStart
    (Function, Some(39), Given), // String.prototype.repeat
    (Function, Some(39), Given), // String.prototype.slice
    (Function, Some(39), Given), // String.prototype.split
    (Function, Some(39), Given), // String.prototype.startsWith
    (Function, Some(39), Given), // String.prototype.substring
    (Function, Some(39), Given), // String.prototype.toLowerCase
    (Function, Some(39), Given), // String.prototype.toString
    (Function, Some(39), Given), // String.prototype.toUpperCase
    (Function, Some(39), Given), // String.prototype.trim
    (Function, Some(39), Given), // String.prototype[Symbol.iterator]
    (Constructor, Some(39), Given), // Symbol
    (Function, Some(39), Given), // Symbol.for
    (Ordinary, Some(87), Given), // Symbol.prototype
    (Constructor, Some(35), Given), // SyntaxError
    (Ordinary, Some(36), Given), // SyntaxError.prototype
    (Constructor, Some(35), Given), // TypeError
    (Ordinary, Some(36), Given), // TypeError.prototype
    (Constructor, Some(39), Given), // WeakMap
    (Ordinary, Some(87), Given), // WeakMap.prototype
    (Function, Some(39), Given), // WeakMap.prototype.delete
    (Function, Some(39), Given), // WeakMap.prototype.get
    (Function, Some(39), Given), // WeakMap.prototype.has
    (Function, Some(39), Given), // WeakMap.prototype.set
    (Function, Some(39), Given), // _at
    (Function, Some(39), Given), // _base
    (Function, Some(39), Given), // _call
    (Function, Some(39), Given), // _copy
    (Function, Some(39), Given), // _cut
    (Function, Some(39), Given), // _fail
    (Function, Some(39), Given), // _forIn
    (Function, Some(39), Given), // _into
    (Function, Some(39), Given), // _isObject
    (Function, Some(39), Given), // _iter
    (Function, Some(39), Given), // _len
    (Function, Some(39), Given), // _list
    (Function, Some(39), Given), // _new
    (Function, Some(39), Given), // _num
    (Function, Some(39), Given), // _object
    (Function, Some(39), Given), // _omit
    (Function, Some(39), Given), // _open
    (Function, Some(39), Given), // _pad
    (Function, Some(39), Given), // _proto
    (Function, Some(39), Given), // _put
    (Function, Some(39), Given), // _quote
    (Function, Some(39), Given), // _s
    (Function, Some(39), Given), // _shown
    (Function, Some(39), Given), // _space
    (Function, Some(39), Given), // _walk
    (Function, Some(39), Given), // get Compartment.prototype.globalThis
    (Function, Some(39), Getter(40)), // get Error.prototype.constructor
    (Function, Some(39), Getter(42)), // get Error.prototype.message
    (Function, Some(39), Getter(41)), // get Error.prototype.name
    (Function, Some(39), Getter(43)), // get Error.prototype.toString
    (Function, Some(39), Getter(47)), // get Function.prototype.apply
    (Function, Some(39), Getter(48)), // get Function.prototype.bind
    (Function, Some(39), Getter(46)), // get Function.prototype.call
    (Function, Some(39), Getter(45)), // get Function.prototype.constructor
    (Function, Some(39), Getter(49)), // get Function.prototype.toString
    (Function, Some(39), Given), // get Map.prototype.size
    (Function, Some(39), Getter(97)), // get Object.prototype.constructor
    (Function, Some(39), Getter(98)), // get Object.prototype.hasOwnProperty
    (Function, Some(39), Getter(99)), // get Object.prototype.isPrototypeOf
    (Function, Some(39), Getter(100)), // get Object.prototype.toString
    (Function, Some(39), Getter(101)), // get Object.prototype.valueOf
    (Function, Some(39), Getter(104)), // get RangeError.prototype.constructor
    (Function, Some(39), Getter(105)), // get RangeError.prototype.name
    (Function, Some(39), Getter(107)), // get ReferenceError.prototype.constructor
    (Function, Some(39), Getter(108)), // get ReferenceError.prototype.name
    (Function, Some(39), Given), // get Set.prototype.size
    (Function, Some(39), Getter(150)), // get SyntaxError.prototype.constructor
    (Function, Some(39), Getter(151)), // get SyntaxError.prototype.name
    (Function, Some(39), Getter(153)), // get TypeError.prototype.constructor
    (Function, Some(39), Getter(154)), // get TypeError.prototype.name
    (Function, Some(39), Given), // harden
    (Function, Some(39), Given), // parseInt
    (Function, Some(39), Setter(40)), // set Error.prototype.constructor
    (Function, Some(39), Setter(42)), // set Error.prototype.message
    (Function, Some(39), Setter(41)), // set Error.prototype.name
    (Function, Some(39), Setter(43)), // set Error.prototype.toString
    (Function, Some(39), Setter(47)), // set Function.prototype.apply
    (Function, Some(39), Setter(48)), // set Function.prototype.bind
    (Function, Some(39), Setter(46)), // set Function.prototype.call
    (Function, Some(39), Setter(45)), // set Function.prototype.constructor
    (Function, Some(39), Setter(49)), // set Function.prototype.toString
    (Function, Some(39), Setter(97)), // set Object.prototype.constructor
    (Function, Some(39), Setter(98)), // set Object.prototype.hasOwnProperty
    (Function, Some(39), Setter(99)), // set Object.prototype.isPrototypeOf
    (Function, Some(39), Setter(100)), // set Object.prototype.toString
    (Function, Some(39), Setter(101)), // set Object.prototype.valueOf
    (Function, Some(39), Setter(104)), // set RangeError.prototype.constructor
    (Function, Some(39), Setter(105)), // set RangeError.prototype.name
    (Function, Some(39), Setter(107)), // set ReferenceError.prototype.constructor
    (Function, Some(39), Setter(108)), // set ReferenceError.prototype.name
    (Function, Some(39), Setter(150)), // set SyntaxError.prototype.constructor
    (Function, Some(39), Setter(151)), // set SyntaxError.prototype.name
    (Function, Some(39), Setter(153)), // set TypeError.prototype.constructor
    (Function, Some(39), Setter(154)), // set TypeError.prototype.name
];
