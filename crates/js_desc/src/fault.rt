// The texts of the errors that the machine itself makes.

ghost use Rattle.std.specs.Prelude.{◌≡◌, ◌<◌, ◌≤◌, ◌++◌, ◌↔◌, codes, length, IfOk, IsErrOf, IsOkUnless, option_map};
ghost use Rattle.js_text.specs.declared.fault.TextFault.TheVariants as TextFault;
ghost use Rattle.js_text.specs.declared.text.TheConstants.{MAX_UNITS};
ghost use Rattle.js_desc.specs.Faults.{fault_error, fault_text, fixed_text};

use js_text::fault::TextFault;
use js_text::text::{MAX_UNITS, Text, from_units};
use lava_base::memory::OutOfMemory;
use std::alloc::Global;

/// The errors of the language that the machine makes (ECMA-262, "Native Error Types Used in This Standard").
#[derive(Clone, Copy, Debug, PartialEq, Eq)]
pub enum NativeError {
    TypeError,
    RangeError,
    SyntaxError,
    ReferenceError,
}

/// A text of an error that the machine or the prelude makes.
#[derive(Drop)]
pub enum FaultText {
    /// A call of what is no function.
    NotAFunction,
    /// A `new` of what is no constructor.
    NotAConstructor,
    /// An object was wanted.
    NotAnObject,
    /// undefined, null or a symbol where a conversion was wanted, or an object that has no primitive value.
    CannotConvert,
    /// A property or a prototype could not be set.
    CannotSet,
    /// A property could not be deleted.
    CannotDelete,
    /// A property could not be defined.
    CannotDefine,
    /// A handler's answer contradicts the proxy's target.
    ProxyInvariant,
    /// The proxy was revoked.
    Revoked,
    /// The object has another class than the native wants.
    WrongKind,
    /// An assignment to a constant.
    Constant,
    /// A call of a class without `new`.
    ClassNeedsNew,
    /// A constructor without a plain call was called without `new`.
    NotACall,
    /// An iterable was wanted.
    NotIterable,
    /// `Function` makes no function of a text.
    NoEvaluation,
    /// A reduction of nothing without a first value.
    Empty,
    /// The profile leaves this out.
    Unsupported,
    /// A text form of what contains itself.
    Cyclic,
    /// A length that no array has.
    InvalidLength,
    /// A count that is out of range.
    InvalidCount,
    /// A text that is no JSON.
    BadJson,
    /// The global of this name is not there.
    NotDefined(Text),
    /// A binding was used before its initialisation.
    NotInitialised,
    /// `this` in a derived constructor before its `super` call.
    NoThis,
    /// A second `super` call in a derived constructor.
    ThisTwice,
}

impl FaultText {
    /// The error that has this text.
    pub fn error(&self) -> NativeError
        ensures { result ≡ fault_error self.now }
    {
        match self {
            FaultText::InvalidLength | FaultText::InvalidCount => NativeError::RangeError,
            FaultText::BadJson => NativeError::SyntaxError,
            FaultText::NotDefined(_)
            | FaultText::NotInitialised
            | FaultText::NoThis
            | FaultText::ThisTwice => NativeError::ReferenceError,
            _ => NativeError::TypeError,
        }
    }

    /// The text, where it is always the same.
    pub fn fixed(&self) -> Option<&'static str>
        ensures { option_map (λ text. text.now) result ≡ fixed_text self.now }
    {
        match self {
            FaultText::NotAFunction => Some("not a function"),
            FaultText::NotAConstructor => Some("not a constructor"),
            FaultText::NotAnObject => Some("not an object"),
            FaultText::CannotConvert => Some("cannot convert"),
            FaultText::CannotSet => Some("cannot set"),
            FaultText::CannotDelete => Some("cannot delete"),
            FaultText::CannotDefine => Some("cannot define"),
            FaultText::ProxyInvariant => Some("proxy invariant"),
            FaultText::Revoked => Some("revoked"),
            FaultText::WrongKind => Some("wrong kind"),
            FaultText::Constant => Some("constant"),
            FaultText::ClassNeedsNew => Some("class needs new"),
            FaultText::NotACall => Some("not a call"),
            FaultText::NotIterable => Some("not iterable"),
            FaultText::NoEvaluation => Some("no evaluation"),
            FaultText::Empty => Some("empty"),
            FaultText::Unsupported => Some("unsupported"),
            FaultText::Cyclic => Some("cyclic"),
            FaultText::InvalidLength => Some("invalid length"),
            FaultText::InvalidCount => Some("invalid count"),
            FaultText::BadJson => Some("bad JSON"),
            FaultText::NotDefined(_) => None,
            FaultText::NotInitialised => Some("not initialised"),
            FaultText::NoThis => Some("no this"),
            FaultText::ThisTwice => Some("this twice"),
        }
    }

    /// The text as the error has it. `TooLong` comes exactly where a name is so long that the text would pass the limit of texts.
    pub fn message(&self, alloc: Global) -> Result<Text, TextFault>
        ensures text { IfOk result (λ text. text ≡ fault_text self.now) }
        ensures too_long { IsErrOf result TextFault.TooLong
            ↔ (MAX_UNITS < length (fault_text self.now)) }
        ensures memory { length (fault_text self.now) ≤ MAX_UNITS
            → IsOkUnless result TextFault.OutOfMemory }
    {
        match self {
            FaultText::NotDefined(name) => not_defined(alloc, name),
            _ => ascii(alloc, self.fixed().unwrap_or("")),
        }
    }
}

/// The text on a global that is not there.
fn not_defined(alloc: Global, name: &Text) -> Result<Text, TextFault>
    ensures text { IfOk result (λ text. text ≡ name.now ++ codes " is not defined") }
    ensures too_long { IsErrOf result TextFault.TooLong
        ↔ (MAX_UNITS < length (name.now ++ codes " is not defined")) }
    ensures memory { length (name.now ++ codes " is not defined") ≤ MAX_UNITS
        → IsOkUnless result TextFault.OutOfMemory }
{
    let rest = " is not defined";
    if name.len() as usize + rest.len() > MAX_UNITS as usize {
        return Err(TextFault::TooLong);
    }
    name.concat(alloc, &ascii(alloc, rest)?)
}

/// The text whose units are the bytes of an ASCII text.
fn ascii(alloc: Global, text: &str) -> Result<Text, TextFault>
    ensures text { IfOk result (λ t. t ≡ text.now) }
    ensures too_long { IsErrOf result TextFault.TooLong ↔ (MAX_UNITS < length text.now) }
    ensures memory { length text.now ≤ MAX_UNITS → IsOkUnless result TextFault.OutOfMemory }
{
    if text.len() > MAX_UNITS as usize {
        return Err(TextFault::TooLong);
    }
    from_units(alloc, &units_of(alloc, text.as_bytes())?)
}

/// The bytes as units.
fn units_of(alloc: Global, bytes: &[u8]) -> Result<Vec<u16>, OutOfMemory>
    ensures { IfOk result (λ units. units.items ≡ bytes.now) }
{
    let mut units = Vec::with_capacity(alloc, bytes.len())?;
    for byte in bytes {
        units.push(u16::from(*byte))?;
    }
    Ok(units)
}
