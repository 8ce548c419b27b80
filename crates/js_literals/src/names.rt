// The texts of names.

ghost use Rattle.std.specs.Prelude.{◌≡◌, ℕ, ◌^◌, ◌<◌, ◌≤◌, ◌↔◌, length, IfOk, OnOk, IsErrOf, IsOkUnless};
ghost use Rattle.std.specs.Str.{IsUtf8};
ghost use Rattle.js_text.specs.Utf8.{IsFault, IsTooLong, units_of};
ghost use Rattle.js_text.specs.declared.fault.TextFault.TheVariants as fault;
ghost use Rattle.js_text.specs.declared.text.TheConstants.{MAX_UNITS};

use crate::plain::ascii_text;
use js_text::fault::TextFault;
use js_text::text::Text;
use js_text::utf8::from_utf8;
use std::alloc::Global;

/// The text of a name without escapes, in UTF-16 (ECMA-262, "Static Semantics: StringValue").
///
/// `NotUtf8` and `TooLong` come as `from_utf8` of `js_text` says.
pub fn identifier_text(alloc: Global, name: &[u8]) -> Result<Text, TextFault>
    ensures utf8 { OnOk result (IsUtf8 name.now) }
    ensures units { IfOk result (λ text. text ≡ units_of name.now) }
    ensures not_utf8 { (at : ℕ) → at < 2 ^ 32
        → IsErrOf result (fault.NotUtf8 at) ↔ IsFault name.now at }
    ensures too_long { IsErrOf result TextFault.TooLong ↔ IsTooLong name.now }
    ensures memory { IsUtf8 name.now → length (units_of name.now) ≤ MAX_UNITS
        → IsOkUnless result TextFault.OutOfMemory }
{
    if name.is_ascii() {
        ascii_text(alloc, name)
    } else {
        from_utf8(alloc, name)
    }
}
