// The safe integer that a numeric literal writes.

ghost use Rattle.std.specs.Prelude.{◌≡◌, ℤ, List, ℕ, IfOk};
ghost use Rattle.js_expr.specs.Numbers.{number_of, IsItsNumber};

use js_literals::numbers::numeric_value;
use js_num::safe::Safe;
use lava_base::memory::OutOfMemory;
use std::alloc::Global;

/// The same as an integer of 64 bits.
fn integer_of(number: Option<Safe>) -> Option<i64>
    ensures { result ≡ number }
{
    match number {
        Some(number) => Some(number.get()),
        None => None,
    }
}

/// The safe integer that a numeric literal writes, if it writes one (ECMA-262, "Static Semantics: MV").
#[tactic(auto, using(crate::proofs::Exactness::number_found))]
pub fn number_of(alloc: Global, literal: &[u8]) -> Result<Option<i64>, OutOfMemory>
    ensures { IfOk result (λ number. number ≡ number_of literal.now) }
{
    let number = numeric_value(alloc, literal)?;
    Ok(integer_of(number))
}

/// The definition that the makers compute by says what js_literals says: the safe integer that the literal writes, exactly.
pub fn numbers_are_exact()
    ensures { (literal : List ℕ) (v : ℤ) → IsItsNumber literal v }
{}
