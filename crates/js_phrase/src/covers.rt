// What stands between parentheses.

ghost use Rattle.std.specs.Prelude.{◌≡◌, IfOk};
ghost use Rattle.js_phrase.specs.Covers as spec;
ghost use Rattle.js_phrase.specs.Phrases.{next_of};
ghost use Rattle.js_phrase.specs.Queues.{rest_of};

use crate::phrase::{Cover, Operands, Phrase};
use crate::phrases::parenthesized;
use crate::places::NO_PLACE;
use crate::queue::Queue;
use js_tree::tree::Expr;
use lava_base::memory::OutOfMemory;
use sqlite_items::{Boxed, Items};
use std::alloc::Global;

impl Queue<Phrase> {
    /// Takes what stands between parentheses; its place is that of nothing.
    pub fn cover(&mut self, alloc: Global) -> Result<Cover, OutOfMemory>
        ensures first { IfOk result (λ c. c ≡ spec.cover_of (next_of self.old)) }
        ensures rest { self.new ≡ rest_of self.old }
    {
        match self.next() {
            Phrase::Operands(cover) => Ok(cover.into_inner()),
            Phrase::Rest(pattern) => Ok(Cover {
                place: NO_PLACE,
                operands: Operands::NoOperand,
                rest: Some(pattern),
            }),
            phrase => Ok(Cover {
                place: NO_PLACE,
                operands: operands_of(alloc, phrase)?,
                rest: None,
            }),
        }
    }
}

fn operands_of(alloc: Global, phrase: Phrase) -> Result<Operands, OutOfMemory>
    ensures { IfOk result (λ o. o ≡ spec.operands_of phrase) }
{
    match phrase {
        Phrase::Expression(operand) => Ok(Operands::Single(operand)),
        Phrase::Covered(cover) => Ok(Operands::Single(parenthesized(alloc, cover)?)),
        other => {
            other.discard();
            Ok(Operands::NoOperand)
        }
    }
}

/// Operands with one more at their end.
pub fn with_operand(
    alloc: Global,
    operands: Operands,
    more: Boxed<Expr>,
) -> Result<Operands, OutOfMemory>
    ensures { IfOk result (λ o. o ≡ spec.with_operand operands more) }
{
    match operands {
        Operands::NoOperand => Ok(Operands::Single(more)),
        Operands::Single(first) => {
            let mut both = Items::new(alloc);
            both.push(first)?;
            both.push(more)?;
            Ok(Operands::Several(both))
        }
        Operands::Several(mut all) => {
            all.push(more)?;
            Ok(Operands::Several(all))
        }
    }
}
