// The property keys of numbers that are array indices.

ghost use Rattle.std.specs.Prelude.{◌≡◌, IfSome};
ghost use Rattle.std.specs.Fmt.{signed_decimal};
ghost use Rattle.js_text.specs.Indices.{key_of_text};

use js_text::index::MAX_INDEX;
use js_text::value::Key;

/// The property key of a number, where it is an array index (ECMA-262, ToPropertyKey): no text is made.
#[inline]
pub fn array_index_key(number: i64) -> Option<Key>
    ensures { IfSome result (λ k. k ≡ key_of_text (signed_decimal number)) }
{
    if number < 0 || number > i64::from(MAX_INDEX) {
        return None;
    }
    Some(Key::Index(number as u32))
}
