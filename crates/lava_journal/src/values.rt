// Values, keys and symbols.

ghost use Rattle.std.specs.Prelude.{◌≡◌, ◌∷◌, [], codes, decimal, map, OnOk};
ghost use Rattle.lava_journal.specs.Bodies as spec;
ghost use Rattle.lava_journal.specs.Bodies.{plain};
ghost use Rattle.lava_journal.specs.Pages.{with_each};
ghost use Rattle.lava_journal.specs.Quotes.{quoted};
ghost use Rattle.lava_journal.specs.Sheets.{An_object, Plain};

use crate::page::{Page, write_integer, write_number, write_word};
use js_text::text::Text;
use js_text::value::{Key, Symbol, Value};
use lava_base::ids::Ref;
use lava_base::memory::OutOfMemory;

/// Writes a truth value.
pub(crate) fn write_truth<P: Page>(page: &mut P, truth: bool) -> Result<(), OutOfMemory>
    ensures { OnOk result (page.new ≡ with_each P.with_piece page.old (spec.truth_pieces truth)) }
{
    if truth {
        write_word(page, "true")
    } else {
        write_word(page, "false")
    }
}

/// Writes a registered symbol.
#[tactic(auto, using(crate::proofs::Piece_laws::first_piece))]
fn write_registered<P: Page>(page: &mut P, text: &Text) -> Result<(), OutOfMemory>
    ensures { OnOk result (page.new ≡ with_each P.with_piece page.old
        (Plain (codes "@for") ∷ plain (quoted text.now))) }
{
    write_word(page, "@for")?;
    page.quoted(text)
}

/// Writes a symbol.
fn write_any_symbol<P: Page>(page: &mut P, symbol: &Symbol) -> Result<(), OutOfMemory>
    ensures { OnOk result (page.new ≡ with_each P.with_piece page.old
        (spec.symbol_pieces symbol.now)) }
{
    match symbol {
        Symbol::Iterator => write_word(page, "@iterator"),
        Symbol::Registered(text) => write_registered(page, text),
        Symbol::Made(made) => page.symbol(*made),
    }
}

/// Writes a property key.
pub(crate) fn write_key<P: Page>(page: &mut P, key: &Key) -> Result<(), OutOfMemory>
    ensures { OnOk result (page.new ≡ with_each P.with_piece page.old (spec.key_pieces key.now)) }
{
    match key {
        Key::Index(index) => page.quoted_number(*index),
        Key::Text(text) => page.quoted(text),
        Key::Symbol(symbol) => write_any_symbol(page, symbol),
    }
}

/// Writes a value.
pub(crate) fn write_value<P: Page>(page: &mut P, value: &Value) -> Result<(), OutOfMemory>
    ensures { OnOk result (page.new ≡ with_each P.with_piece page.old
        (spec.value_pieces value.now)) }
{
    match value {
        Value::Undefined => write_word(page, "undefined"),
        Value::Null => write_word(page, "null"),
        Value::Bool(truth) => write_truth(page, *truth),
        Value::Int(integer) => write_integer(page, *integer),
        Value::Text(text) => page.quoted(text),
        Value::Symbol(symbol) => write_any_symbol(page, symbol),
        Value::Ref(reference) => page.object(*reference),
    }
}

/// Writes a reference, or null.
pub(crate) fn write_object_or_null<P: Page>(
    page: &mut P,
    reference: Option<Ref>,
) -> Result<(), OutOfMemory>
    ensures { OnOk result (page.new ≡ with_each P.with_piece page.old
        (spec.object_or_null reference)) }
{
    match reference {
        None => write_word(page, "null"),
        Some(reference) => page.object(reference),
    }
}

/// Writes a reference, or undefined.
pub(crate) fn write_object_or_undefined<P: Page>(
    page: &mut P,
    reference: Option<Ref>,
) -> Result<(), OutOfMemory>
    ensures { OnOk result (page.new ≡ with_each P.with_piece page.old
        (spec.object_or_undefined reference)) }
{
    match reference {
        None => write_word(page, "undefined"),
        Some(reference) => page.object(reference),
    }
}

/// Writes a word behind a space.
#[tactic(auto, using(crate::proofs::Piece_laws::behind_space))]
pub(crate) fn write_spaced_word<P: Page>(page: &mut P, word: &str) -> Result<(), OutOfMemory>
    ensures { OnOk result (page.new ≡ with_each P.with_piece page.old
        (spec.spaced (plain word.now))) }
{
    write_word(page, " ")?;
    write_word(page, word)
}

/// Writes a value behind a space.
#[tactic(auto, using(crate::proofs::Piece_laws::behind_space))]
pub(crate) fn write_spaced_value<P: Page>(page: &mut P, value: &Value) -> Result<(), OutOfMemory>
    ensures { OnOk result (page.new ≡ with_each P.with_piece page.old
        (spec.spaced (spec.value_pieces value.now))) }
{
    write_word(page, " ")?;
    write_value(page, value)
}

/// Writes a key behind a space.
#[tactic(auto, using(crate::proofs::Piece_laws::behind_space))]
pub(crate) fn write_spaced_key<P: Page>(page: &mut P, key: &Key) -> Result<(), OutOfMemory>
    ensures { OnOk result (page.new ≡ with_each P.with_piece page.old
        (spec.spaced (spec.key_pieces key.now))) }
{
    write_word(page, " ")?;
    write_key(page, key)
}

/// Writes a quoted text behind a space.
#[tactic(auto, using(crate::proofs::Piece_laws::behind_space))]
pub(crate) fn write_spaced_text<P: Page>(page: &mut P, text: &Text) -> Result<(), OutOfMemory>
    ensures { OnOk result (page.new ≡ with_each P.with_piece page.old
        (spec.spaced (plain (quoted text.now)))) }
{
    write_word(page, " ")?;
    page.quoted(text)
}

/// Writes a number behind a space.
#[tactic(auto, using(crate::proofs::Piece_laws::behind_space))]
pub(crate) fn write_spaced_number<P: Page>(page: &mut P, number: u64) -> Result<(), OutOfMemory>
    ensures { OnOk result (page.new ≡ with_each P.with_piece page.old
        (spec.spaced (plain (decimal number)))) }
{
    write_word(page, " ")?;
    write_number(page, number)
}

/// Writes a reference behind a space.
#[tactic(auto, using(crate::proofs::Piece_laws::behind_space))]
pub(crate) fn write_spaced_object<P: Page>(page: &mut P, reference: Ref) -> Result<(), OutOfMemory>
    ensures { OnOk result (page.new ≡ with_each P.with_piece page.old
        (spec.spaced (An_object reference ∷ []))) }
{
    write_word(page, " ")?;
    page.object(reference)
}

/// Writes values, each behind a space.
pub(crate) fn write_spaced_values<P: Page>(
    page: &mut P,
    values: &[Value],
) -> Result<(), OutOfMemory>
    ensures { OnOk result (page.new ≡ with_each P.with_piece page.old
        (spec.all_spaced (map spec.value_pieces values.now))) }
{
    for value in values {
        write_spaced_value(page, value)?;
    }
    Ok(())
}

/// Writes keys, each behind a space.
pub(crate) fn write_spaced_keys<P: Page>(page: &mut P, keys: &[Key]) -> Result<(), OutOfMemory>
    ensures { OnOk result (page.new ≡ with_each P.with_piece page.old
        (spec.all_spaced (map spec.key_pieces keys.now))) }
{
    for key in keys {
        write_spaced_key(page, key)?;
    }
    Ok(())
}
