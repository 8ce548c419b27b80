// The texts of string literals and of the parts of templates.

ghost use Rattle.std.specs.Prelude.{◌≡◌, ℕ, ◌+◌, ◌^◌, ◌<◌, ◌≤◌, ◌↔◌, ◌++◌, ◌∷◌, [], List, length, min, IsTrue, IfOk, OnOk, OnErr, IfSome, MatchOption, IsErrOf, IsOkUnless};
ghost use Rattle.std.specs.Str.{IsUtf8, chars};
ghost use Rattle.js_text.specs.Utf8.{IsFault};
ghost use Rattle.js_text.specs.declared.fault.TextFault.TheVariants as fault;
ghost use Rattle.js_text.specs.declared.text.TheConstants.{MAX_UNITS};
ghost use Rattle.js_literals.specs.Answers.{IsTooLongBy};
ghost use Rattle.js_literals.specs.StringValues.{sv, tv, value_behind, units_of_code};
ghost use Rattle.js_literals.specs.declared.escapes.TheConstants.{PAST_CODE_POINTS};

use crate::characters::Characters;
use crate::pieces::{Delimiter, is_end, take_piece};
use crate::plain::{ascii_text, plain_string, plain_template};
use js_text::fault::TextFault;
use js_text::text::{MAX_UNITS, Text, from_units};
use js_text::utf8::from_utf8;
use lava_base::memory::OutOfMemory;
use std::alloc::Global;

/// The text of a string literal with its quotes (ECMA-262, "Static Semantics: SV"), in UTF-16.
///
/// `NotUtf8` comes exactly where the bytes are not UTF-8. `TooLong` comes exactly where they are UTF-8 of a literal of more than `MAX_UNITS` units,
/// or where the place that `NotUtf8` would tell is past 4,294,967,295.
pub fn string_value(alloc: Global, literal: &[u8]) -> Result<Text, TextFault>
    ensures utf8 { OnOk result (IsUtf8 literal.now) }
    ensures value { IfOk result (λ text. text ≡ sv (chars literal.now)) }
    ensures not_utf8 { (at : ℕ) → at < 2 ^ 32
        → IsErrOf result (fault.NotUtf8 at) ↔ IsFault literal.now at }
    ensures too_long { IsErrOf result TextFault.TooLong ↔ IsTooLongBy sv literal.now }
    ensures memory { IsUtf8 literal.now → length (sv (chars literal.now)) ≤ MAX_UNITS
        → IsOkUnless result TextFault.OutOfMemory }
{
    match plain_string(literal) {
        Some(inside) => ascii_text(alloc, inside),
        None => string_of_bytes(alloc, literal),
    }
}

/// The same, a character after the other.
fn string_of_bytes(alloc: Global, literal: &[u8]) -> Result<Text, TextFault>
    ensures utf8 { OnOk result (IsUtf8 literal.now) }
    ensures value { IfOk result (λ text. text ≡ sv (chars literal.now)) }
    ensures not_utf8 { (at : ℕ) → at < 2 ^ 32
        → IsErrOf result (fault.NotUtf8 at) ↔ IsFault literal.now at }
    ensures too_long { IsErrOf result TextFault.TooLong ↔ IsTooLongBy sv literal.now }
    ensures memory { IsUtf8 literal.now → length (sv (chars literal.now)) ≤ MAX_UNITS
        → IsOkUnless result TextFault.OutOfMemory }
{
    match str::from_utf8(literal) {
        Ok(text) => string_of_str(alloc, text),
        Err(_) => not_utf8(alloc, literal),
    }
}

/// The answer to bytes that are not UTF-8.
fn not_utf8(alloc: Global, bytes: &[u8]) -> Result<Text, TextFault>
    requires { ¬ (IsUtf8 bytes.now) }
    ensures err { OnOk result ⊥ }
    ensures not_utf8 { (at : ℕ) → at < 2 ^ 32
        → IsErrOf result (fault.NotUtf8 at) ↔ IsFault bytes.now at }
    ensures too_long { (value : List ℕ → List ℕ)
        → IsErrOf result TextFault.TooLong ↔ IsTooLongBy value bytes.now }
{
    from_utf8(alloc, bytes)
}

/// The text of a string literal.
fn string_of_str(alloc: Global, text: &str) -> Result<Text, TextFault>
    ensures units { IfOk result (λ made. made ≡ sv (chars text.now)) }
    ensures too_long { IsErrOf result TextFault.TooLong ↔ (MAX_UNITS < length (sv (chars text.now))) }
    ensures memory { length (sv (chars text.now)) ≤ MAX_UNITS
        → IsOkUnless result TextFault.OutOfMemory }
{
    let mut rest = Characters::new(text);
    match rest.bump() {
        Some(quote) => text_behind(alloc, Delimiter::Quote(quote), &rest),
        None => from_units(alloc, &[]),
    }
}

/// The text of a template, or of a part of one: between its grave accent or the `}` of a substitution, and a `${` or a grave accent
/// (ECMA-262, "Static Semantics: TV"), in UTF-16. CR and CR with LF are LF.
///
/// `NotUtf8` and `TooLong` come as for string literals.
pub fn template_value(alloc: Global, part: &[u8]) -> Result<Text, TextFault>
    ensures utf8 { OnOk result (IsUtf8 part.now) }
    ensures value { IfOk result (λ text. text ≡ tv (chars part.now)) }
    ensures not_utf8 { (at : ℕ) → at < 2 ^ 32
        → IsErrOf result (fault.NotUtf8 at) ↔ IsFault part.now at }
    ensures too_long { IsErrOf result TextFault.TooLong ↔ IsTooLongBy tv part.now }
    ensures memory { IsUtf8 part.now → length (tv (chars part.now)) ≤ MAX_UNITS
        → IsOkUnless result TextFault.OutOfMemory }
{
    match plain_template(part) {
        Some(inside) => ascii_text(alloc, inside),
        None => template_of_bytes(alloc, part),
    }
}

/// The same, a character after the other.
fn template_of_bytes(alloc: Global, part: &[u8]) -> Result<Text, TextFault>
    ensures utf8 { OnOk result (IsUtf8 part.now) }
    ensures value { IfOk result (λ text. text ≡ tv (chars part.now)) }
    ensures not_utf8 { (at : ℕ) → at < 2 ^ 32
        → IsErrOf result (fault.NotUtf8 at) ↔ IsFault part.now at }
    ensures too_long { IsErrOf result TextFault.TooLong ↔ IsTooLongBy tv part.now }
    ensures memory { IsUtf8 part.now → length (tv (chars part.now)) ≤ MAX_UNITS
        → IsOkUnless result TextFault.OutOfMemory }
{
    match str::from_utf8(part) {
        Ok(text) => template_of_str(alloc, text),
        Err(_) => not_utf8(alloc, part),
    }
}

/// The text of a template.
fn template_of_str(alloc: Global, text: &str) -> Result<Text, TextFault>
    ensures units { IfOk result (λ made. made ≡ tv (chars text.now)) }
    ensures too_long { IsErrOf result TextFault.TooLong ↔ (MAX_UNITS < length (tv (chars text.now))) }
    ensures memory { length (tv (chars text.now)) ≤ MAX_UNITS
        → IsOkUnless result TextFault.OutOfMemory }
{
    let mut rest = Characters::new(text);
    match rest.bump() {
        Some(_) => text_behind(alloc, Delimiter::Template, &rest),
        None => from_units(alloc, &[]),
    }
}

/// The text of the pieces up to the end.
fn text_behind(
    alloc: Global,
    delimiter: Delimiter,
    start: &Characters<'_>,
) -> Result<Text, TextFault>
    ensures units { IfOk result (λ text. text ≡ value_behind delimiter 0 start.now) }
    ensures too_long { IsErrOf result TextFault.TooLong
        ↔ (MAX_UNITS < length (value_behind delimiter 0 start.now)) }
    ensures memory { length (value_behind delimiter 0 start.now) ≤ MAX_UNITS
        → IsOkUnless result TextFault.OutOfMemory }
{
    let len = capped_len(delimiter, start);
    if len > MAX_UNITS as usize {
        return Err(TextFault::TooLong);
    }
    let units = units_behind(alloc, delimiter, start, len)?;
    from_units(alloc, &units)
}

/// How many units the pieces up to the end take, or `MAX_UNITS + 1` where that is less.
fn capped_len(delimiter: Delimiter, start: &Characters<'_>) -> usize
    ensures { result ≡ min (length (value_behind delimiter 0 start.now)) (MAX_UNITS + 1) }
{
    let mut rest = start.copy();
    let mut len = 0;
    while !is_end(delimiter, &rest) {
        let code = take_piece(delimiter, &mut rest);
        len = (len + code_len(code)).min(MAX_UNITS as usize + 1);
    }
    len
}

/// The units of the pieces up to the end, for which `len` is room.
fn units_behind(
    alloc: Global,
    delimiter: Delimiter,
    start: &Characters<'_>,
    len: usize,
) -> Result<Vec<u16>, OutOfMemory>
    ensures { IfOk result (λ units. units.items ≡ value_behind delimiter 0 start.now) }
{
    let mut rest = start.copy();
    let mut units = Vec::with_capacity(alloc, len)?;
    while !is_end(delimiter, &rest) {
        let code = take_piece(delimiter, &mut rest);
        push_code(&mut units, code)?;
    }
    Ok(units)
}

/// How many units a code point takes.
fn code_len(code: Option<u32>) -> usize
    ensures { result ≡ length (units_of_code code) }
{
    match code {
        None => 0,
        Some(code) if code < 0x1_0000 => 1,
        Some(_) => 2,
    }
}

/// Appends the units of a code point, where there is one. After want of memory it has got some of them.
fn push_code(units: &mut Vec<u16>, code: Option<u32>) -> Result<(), OutOfMemory>
    requires { IfSome code (λ c. c < PAST_CODE_POINTS) }
    ensures { OnOk result (units.new.items ≡ units.old.items ++ units_of_code code) }
{
    match code {
        None => Ok(()),
        Some(code) if code < 0x1_0000 => push_unit(units, code as u16),
        Some(code) => {
            let above = code - 0x1_0000;
            push_unit(units, (0xD800 + above / 0x400) as u16)?;
            push_unit(units, (0xDC00 + above % 0x400) as u16)
        }
    }
}

/// Appends a unit.
fn push_unit(units: &mut Vec<u16>, unit: u16) -> Result<(), OutOfMemory>
    ensures { OnOk result (units.new.items ≡ units.old.items ++ unit ∷ []) }
{
    units.push(unit)?;
    Ok(())
}

/// Whether a string literal has just this text, whose units are these bytes (ECMA-262, "Static Semantics: SV"). It takes no memory.
pub fn is_string_value(literal: &[u8], text: &[u8]) -> bool
    ensures { IsTrue result ↔ (IsUtf8 literal.now × (sv (chars literal.now) ≡ text.now)) }
{
    match plain_string(literal) {
        Some(inside) => inside == text,
        None => is_value_of_bytes(literal, text),
    }
}

/// The same, a character after the other.
fn is_value_of_bytes(literal: &[u8], text: &[u8]) -> bool
    ensures { IsTrue result ↔ (IsUtf8 literal.now × (sv (chars literal.now) ≡ text.now)) }
{
    match str::from_utf8(literal) {
        Ok(string) => is_value_of_str(string, text),
        Err(_) => false,
    }
}

/// The same of a literal that is UTF-8.
fn is_value_of_str(literal: &str, text: &[u8]) -> bool
    ensures { IsTrue result ↔ (sv (chars literal.now) ≡ text.now) }
{
    let mut rest = Characters::new(literal);
    match rest.bump() {
        Some(quote) => is_value_behind(Delimiter::Quote(quote), &rest, text),
        None => text.is_empty(),
    }
}

/// Whether the pieces up to the end have just this text.
fn is_value_behind(delimiter: Delimiter, start: &Characters<'_>, text: &[u8]) -> bool
    ensures { IsTrue result ↔ (value_behind delimiter 0 start.now ≡ text.now) }
{
    let mut rest = start.copy();
    let mut wanted = text;
    while !is_end(delimiter, &rest) {
        let code = take_piece(delimiter, &mut rest);
        match behind_code(code, wanted) {
            Some(left) => wanted = left,
            None => return false,
        }
    }
    wanted.is_empty()
}

/// What stands behind the units of a code point, with which the bytes begin.
fn behind_code(code: Option<u32>, bytes: &[u8]) -> Option<&[u8]>
    ensures { MatchOption result ((left : List ℕ) → ¬ (bytes.now ≡ units_of_code code ++ left))
        (λ left. bytes.now ≡ units_of_code code ++ left.now) }
{
    let Some(code) = code else {
        return Some(bytes);
    };
    match bytes {
        [first, left @ ..] if u32::from(*first) == code => Some(left),
        _ => None,
    }
}
