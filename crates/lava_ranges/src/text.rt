// Texts and keys.

ghost use Rattle.std.specs.Prelude.{◌≡◌, true, false};
ghost use Rattle.js_text.specs.Indices.{is_array_index};
ghost use Rattle.lava_trace_laws.specs.Sound.{AreUnits, IsText, Sound_key, Sound_symbol};

use js_text::index::{MAX_INDEX, index_of_text};
use js_text::text::Text;
use js_text::value::{Key, Symbol};

/// Reads each unit of a text, which has 16 bits.
fn read_units(text: &Text)
    ensures { AreUnits text.now }
{
    let mut at = 0;
    while at < text.len() {
        let _unit = text.unit(at);
        at += 1;
    }
}

/// Reads a text, which has no more units than a text may have.
pub(crate) fn read_text(text: &Text)
    ensures { IsText text.now }
{
    let _len = text.len();
    read_units(text);
}

/// Reads a symbol.
pub(crate) fn read_symbol(symbol: &Symbol)
    ensures { Sound_symbol symbol.now }
{
    match symbol {
        Symbol::Iterator | Symbol::Made(_) => {}
        Symbol::Registered(text) => read_text(text),
    }
}

/// Whether a text writes no array index.
#[tactic(auto, using(crate::proofs::Index_laws::no_index))]
fn is_no_index(text: &Text) -> bool
    ensures { result ≡ true → IsText text.now × (is_array_index text.now ≡ false) }
{
    read_text(text);
    match index_of_text(text) {
        Some(_) => false,
        None => true,
    }
}

/// Whether a key is an index where it can be one.
pub(crate) fn is_sound_key(key: &Key) -> bool
    ensures { result ≡ true → Sound_key key.now }
{
    match key {
        Key::Index(index) => *index <= MAX_INDEX,
        Key::Text(text) => is_no_index(text),
        Key::Symbol(symbol) => {
            read_symbol(symbol);
            true
        }
    }
}
