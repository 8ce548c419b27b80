// A jump comes to what waits.

ghost use Rattle.std.specs.Prelude.{◌≡◌, IfOk, true};
ghost use Rattle.js_machine.specs.Steps.{IsDelivered};
ghost use Rattle.js_machine.specs.Waking.{WakesBy, is_jump, passes_jumps};
ghost use Rattle.js_machine.specs.declared.frame.Frame.TheVariants as frame;

use crate::decisions::wake;
use js_desc::reply::Reply;
use js_machine::asked::Wait;
use js_machine::frame::Mode;
use js_machine::machine::Machine;
use js_store::store::Store;
use js_text::value::Value;
use lava_base::memory::OutOfMemory;

/// What waited is open no longer, and a jump comes to it.
fn wake_by<S: Store>(machine: &mut Machine<S>, wait: Wait, mode: Mode) -> Result<Mode, OutOfMemory>
    requires { is_jump mode ≡ true }
    ensures { IfOk result (WakesBy wait mode machine.old machine.new) }
{
    if wait.passes_jumps() {
        wait.discard();
        return Ok(mode);
    }
    machine.drop_value(mode);
    wake(machine, wait, Reply::Throw(Value::Undefined))
}

/// A jump comes to a decision that waits.
pub fn resume_jumped<S: Store>(machine: &mut Machine<S>, mode: Mode) -> Result<Mode, OutOfMemory>
    requires { is_jump mode ≡ true }
    ensures { IfOk result (IsDelivered frame.Decides mode machine.old machine.new) }
{
    let wait = machine.take_wait();
    machine.close_one();
    wake_by(machine, wait, mode)
}
