// Whether two properties are the same.

ghost use Rattle.std.specs.Prelude.{◌≡◌};
ghost use Rattle.lava_base.specs.Ids.{same_ref, same_made_symbol};
ghost use Rattle.js_desc.specs.Descriptors.{same_option, same_descriptor};
ghost use Rattle.js_desc.specs.declared.descriptor.Descriptor.TheVariants.{Data, Accessor};

use crate::descriptor::Descriptor;
use js_text::same::is_same_value;
use js_text::value::Value;
use lava_base::ids::Ref;

/// Whether two functions of accessors are the same one. None is undefined.
pub fn is_same_function(a: Option<Ref>, b: Option<Ref>) -> bool
    ensures { result ≡ same_option same_ref a b }
{
    match (a, b) {
        (None, None) => true,
        (Some(a), Some(b)) => a.is_same(b),
        _ => false,
    }
}

/// Whether two properties are of one kind and the same in each field (ECMA-262, SameValue).
pub fn is_same_descriptor(a: &Descriptor, b: &Descriptor) -> bool
    ensures { result ≡ same_descriptor same_ref same_made_symbol a.now b.now }
{
    match a {
        Descriptor::Data {
            value,
            writable,
            enumerable,
            configurable,
        } => is_same_data(b, value, *writable, *enumerable, *configurable),
        Descriptor::Accessor {
            get,
            set,
            enumerable,
            configurable,
        } => is_same_accessor(b, *get, *set, *enumerable, *configurable),
    }
}

/// Whether a property is a data property with these fields.
fn is_same_data(
    b: &Descriptor,
    value: &Value,
    writable: bool,
    enumerable: bool,
    configurable: bool,
) -> bool
    ensures { let there = Data value.now writable enumerable configurable in
        result ≡ same_descriptor same_ref same_made_symbol there b.now }
{
    match b {
        Descriptor::Data {
            value: v,
            writable: w,
            enumerable: e,
            configurable: c,
        } => { is_same_value(value, v) && writable == *w && enumerable == *e && configurable == *c }
        Descriptor::Accessor { .. } => false,
    }
}

/// Whether a property is an accessor with these fields.
fn is_same_accessor(
    b: &Descriptor,
    get: Option<Ref>,
    set: Option<Ref>,
    enumerable: bool,
    configurable: bool,
) -> bool
    ensures { let there = Accessor get set enumerable configurable in
        result ≡ same_descriptor same_ref same_made_symbol there b.now }
{
    match b {
        Descriptor::Data { .. } => false,
        Descriptor::Accessor {
            get: g,
            set: s,
            enumerable: e,
            configurable: c,
        } => {
            is_same_function(get, *g)
                && is_same_function(set, *s)
                && enumerable == *e
                && configurable == *c
        }
    }
}
