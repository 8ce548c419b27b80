// What texts, symbols and keys write to a hasher.

ghost use Rattle.std.specs.Prelude.{◌≡◌, ◌≤◌, length, fold};
ghost use Rattle.std.proofs.Common.{ap};
ghost use Rattle.lava_base.specs.Ids.{made_symbol_writes};
ghost use Rattle.lava_base.specs.SameSymbols.{same_made_symbol_decides};
ghost use Rattle.js_text.specs.Hashes.{with_unit, units_number, text_writes, symbol_writes, key_writes};
ghost use Rattle.js_text.specs.SameKeys.{same_units_decides, same_symbol_decides, same_key_decides};
ghost use Rattle.js_text.specs.Search.{substring};

use crate::text::Text;
use crate::value::{Key, Symbol};
use std::hash::{Hash, Hasher};

/// How many units at each end of a long text its hash looks at.
const END_UNITS: u32 = 512;

/// The prime of the hash FNV-1a with 64 bits.
const FNV_PRIME: u64 = 1_099_511_628_211;

/// A number with more units in it.
fn with_units(start: u64, units: &[u16]) -> u64
    ensures { result ≡ fold with_unit start units.now }
{
    let mut number = start;
    for unit in units {
        number = (number ^ (*unit as u64)).wrapping_mul(FNV_PRIME);
    }
    number
}

impl Text {
    /// A number with the units from one place up to another in it.
    fn with_part(&self, start: u64, from: u32, to: u32) -> u64
        requires { (from ≤ to) × (to ≤ length self.now) }
        ensures { result ≡ fold with_unit start (substring self.now from to) }
    {
        let mut number = start;
        let mut at = from;
        while at < to {
            let run = self.run_at(at);
            let count = run.len().min((to - at) as usize);
            number = with_units(number, &run[..count]);
            at += count as u32;
        }
        number
    }

    /// A number that is the same for the same text, however it is cut into pieces. It takes at most `2 * END_UNITS` units, so the time has a bound.
    fn hash_number(&self) -> u64
        ensures { result ≡ units_number self.now }
    {
        let len = self.len();
        if len <= 2 * END_UNITS {
            return self.with_part(len as u64, 0, len);
        }
        let front = self.with_part(len as u64, 0, END_UNITS);
        self.with_part(front, len - END_UNITS, len)
    }
}

impl Hash for Text {
    ghost hash_input = { text_writes };

    ghost respects_eq = { λ a b h. ap text_writes ((same_units_decides a b).0 h) };

    fn hash<H: Hasher>(&self, state: &mut H) {
        state.write_u64(self.hash_number());
    }
}

impl Hash for Symbol {
    ghost hash_input = { symbol_writes made_symbol_writes };

    ghost respects_eq = { λ a b h. ap (symbol_writes made_symbol_writes)
        ((same_symbol_decides same_made_symbol_decides a b).0 h) };

    fn hash<H: Hasher>(&self, state: &mut H) {
        match self {
            Symbol::Iterator => state.write_u8(0),
            Symbol::Registered(text) => {
                state.write_u8(1);
                text.hash(state);
            }
            Symbol::Made(made) => {
                state.write_u8(2);
                made.hash(state);
            }
        }
    }
}

impl Hash for Key {
    ghost hash_input = { key_writes made_symbol_writes };

    ghost respects_eq = { λ a b h. ap (key_writes made_symbol_writes)
        ((same_key_decides same_made_symbol_decides a b).0 h) };

    fn hash<H: Hasher>(&self, state: &mut H) {
        match self {
            Key::Index(index) => {
                state.write_u8(0);
                state.write_u32(*index);
            }
            Key::Text(text) => {
                state.write_u8(1);
                text.hash(state);
            }
            Key::Symbol(symbol) => {
                state.write_u8(2);
                symbol.hash(state);
            }
        }
    }
}
