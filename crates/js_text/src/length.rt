// The key `length`.

ghost use Rattle.std.specs.Prelude.{◌≡◌, codes, length, IfOk};
ghost use Rattle.js_text.specs.Length.{is_length, length_key};
ghost use Rattle.js_text.specs.Texts.{same_units};

use crate::text::{Text, text_of_vec};
use crate::value::Key;
use lava_base::memory::OutOfMemory;
use std::alloc::Global;

/// The units of the name `length`.
static LENGTH: [u16; 6] = [108, 101, 110, 103, 116, 104];

/// The key `length`. It is made once and kept, where it is wanted often.
pub fn length_key(alloc: Global) -> Result<Key, OutOfMemory>
    ensures { IfOk result (λ key. key ≡ length_key) }
{
    let units = LENGTH.as_slice().to_vec(alloc)?;
    Ok(Key::Text(text_of_vec(alloc, units)?))
}

/// Whether a key is `length`.
pub fn is_length(key: &Key) -> bool
    ensures { result ≡ is_length key.now }
{
    match key {
        Key::Text(text) => spells_length(text),
        _ => false,
    }
}

/// Whether a text is `length`.
pub fn spells_length(text: &Text) -> bool
    ensures { result ≡ same_units text.now (codes "length") }
{
    text.len() == 6 && has_units(text, &LENGTH)
}

/// Whether a text has these units, where it has as many.
#[tactic(auto, using(crate::proofs::Length_laws::units_step, crate::proofs::Length_laws::units_end))]
fn has_units(text: &Text, units: &[u16]) -> bool
    requires { length text.now ≡ length units.now }
    ensures { result ≡ same_units text.now units.now }
{
    for at in 0..text.len() {
        if text.unit(at) != units[at as usize] {
            return false;
        }
    }
    true
}
