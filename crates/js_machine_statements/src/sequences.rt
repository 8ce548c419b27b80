// Lists of forms, one after the other.

ghost use Rattle.std.specs.Prelude.{◌+◌, IfOk};
ghost use Rattle.js_code.specs.Decoded.{term_at, terms_of};
ghost use Rattle.js_machine.specs.js_run.Control.{in_order};
ghost use Rattle.js_machine.specs.Steps.{LeadsTo};
ghost use Rattle.js_machine.specs.Views.{party_of};

use js_machine::frame::{Frame, Mode};
use js_machine::machine::Machine;
use js_store::store::Store;
use js_text::value::Value;
use lava_base::memory::OutOfMemory;

/// Forms in their order; the last one takes the place of the list (ECMA-262, "Block").
#[inline]
pub fn in_order<S: Store>(
    machine: &mut Machine<S>,
    start: u32,
    count: u32,
) -> Result<Mode, OutOfMemory>
    ensures { let terms = terms_of machine.old.code (term_at machine.old.code) start count in
        IfOk result (LeadsTo (λ a. in_order terms (party_of a machine.old)) machine.old machine.new) }
{
    let there = machine.listed(start, count)?;
    if there == 0 {
        return machine.give(Value::Undefined);
    }
    let first = machine.number(start);
    if there == 1 {
        return machine.replace_by(first);
    }
    let rest = Frame::Seq {
        start: start + 1,
        count: count - 1,
    };
    machine.wait(rest, first)
}
