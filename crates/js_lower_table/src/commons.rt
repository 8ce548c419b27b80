// The common objects that terms name.

ghost use Rattle.std.specs.Prelude.{codes};
ghost use Rattle.js_text.specs.CommonPaths.{IsPathOf};

/// `Array.prototype`
pub const ARRAY_PROTOTYPE: u32 = 4;

/// `JSON.parse`
pub const JSON_PARSE: u32 = 45;

/// `Object.prototype`
pub const OBJECT_PROTOTYPE: u32 = 87;

/// `_base`: its argument, unless that is undefined or null.
pub const BASE: u32 = 149;

/// `_forIn`: an array of the keys over which `for` `in` goes.
pub const FOR_IN: u32 = 154;

/// `_omit`: an object with the properties of another one but some.
pub const OMIT: u32 = 163;

/// `_open`: an iterator's object with `more`, `value`, `take`, `rest`, `quiet` and `shut`.
pub const OPEN: u32 = 164;

/// These numbers are the places of these paths.
#[tactic(auto, unfolding(js_text::specs::CommonPaths::common_paths))]
pub fn common_objects_stand_there()
    ensures array_prototype { IsPathOf (codes "Array.prototype") ARRAY_PROTOTYPE }
    ensures json_parse { IsPathOf (codes "JSON.parse") JSON_PARSE }
    ensures object_prototype { IsPathOf (codes "Object.prototype") OBJECT_PROTOTYPE }
    ensures base { IsPathOf (codes "_base") BASE }
    ensures for_in { IsPathOf (codes "_forIn") FOR_IN }
    ensures omit { IsPathOf (codes "_omit") OMIT }
    ensures open { IsPathOf (codes "_open") OPEN }
{}
