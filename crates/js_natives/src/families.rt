// What each native works on.

ghost use Rattle.std.specs.Prelude.{◌≡◌};
ghost use Rattle.js_natives.specs.Families.{family_of};

use js_text::native::Native;

/// What a native works on.
#[derive(Clone, Copy, Debug, PartialEq, Eq)]
pub enum Family {
    /// Makes an object, or revokes a proxy.
    Makes,
    /// Tells what a value is.
    Tells,
    /// Works on texts.
    Texts,
    /// Converts its operand.
    Converts,
    /// Asks an object, or calls a function.
    Calls,
    /// Makes a compartment, which the language leaves out as yet.
    Parties,
    /// Works on a compartment, of which there is none yet.
    Compartments,
}

/// What a native works on.
pub(crate) fn family_of(which: Native) -> Family
    ensures { result ≡ family_of which }
{
    match which {
        Native::MakeObject
        | Native::MakeArray
        | Native::Bind
        | Native::MakeProxy
        | Native::Revoke
        | Native::MakeSymbol
        | Native::MakeError
        | Native::MakeMap => Family::Makes,
        Native::IsCommon | Native::SymbolFor | Native::ClassOf => Family::Tells,
        Native::UnitAt | Native::Slice | Native::IndexIn | Native::Concat | Native::Ascii => {
            Family::Texts
        }
        Native::ToText | Native::ToNumber | Native::ToKey => Family::Converts,
        Native::MakeCompartment => Family::Parties,
        Native::Evaluate | Native::CompartmentGlobal => Family::Compartments,
        _ => Family::Calls,
    }
}
