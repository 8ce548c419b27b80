// The names of a package's global that need no policy.

ghost use Rattle.std.specs.Prelude.{◌≡◌, bytes_eq};
ghost use Rattle.std.specs.List.{list_any};
ghost use Rattle.policy_globals.specs.Hosts.{is_intrinsic};

/// The intrinsics that every package has by name, and `globalThis`.
pub const INTRINSICS: [&str; 23] = [
    "Array",
    "Boolean",
    "Compartment",
    "Error",
    "Function",
    "JSON",
    "Map",
    "Math",
    "Number",
    "Object",
    "Proxy",
    "RangeError",
    "ReferenceError",
    "Reflect",
    "Set",
    "String",
    "Symbol",
    "SyntaxError",
    "TypeError",
    "WeakMap",
    "globalThis",
    "harden",
    "parseInt",
];

/// Whether a name is one that every package has.
pub fn is_intrinsic_name(name: &str) -> bool
    ensures { result ≡ is_intrinsic name.now }
{
    is_among(&INTRINSICS, name)
}

/// Whether a name is among these.
fn is_among(names: &[&str], name: &str) -> bool
    ensures { result ≡ list_any (λ other. bytes_eq name.now other.now) names.now }
{
    names.iter().any(|other| name == *other)
}
