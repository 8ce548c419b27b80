// The newest frame.

ghost use Rattle.std.specs.Prelude.{◌≡◌, drop};
ghost use Rattle.js_machine.specs.Views.{newest};

use js_machine::frame::Frame;
use js_machine::machine::Machine;
use js_store::store::Store;

/// The newest frame, if there is one.
#[inline]
#[tactic(auto, using(crate::proofs::Newest::newest_is, crate::proofs::Newest::no_newest))]
pub fn newest_frame<S: Store>(machine: &Machine<S>) -> Option<Frame>
    ensures { result ≡ newest machine.now.frames }
{
    let count = machine.frames.len();
    if count == 0 {
        return None;
    }
    Some(machine.frames[count - 1])
}

/// The newest frame is taken off, if there is one.
#[inline]
#[tactic(auto, using(js_machine::proofs::Reversed::reverse_push))]
pub fn take_frame<S: Store>(machine: &mut Machine<S>) -> Option<Frame>
    ensures frame { result ≡ newest machine.old.frames }
    ensures rest { machine.new ≡ record machine.old { frames = drop 1 machine.old.frames } }
{
    machine.frames.pop()
}

/// The newest frame is let go.
#[inline]
pub fn take_off<S: Store>(machine: &mut Machine<S>)
    ensures { machine.new ≡ record machine.old { frames = drop 1 machine.old.frames } }
{
    let _frame = take_frame(machine);
}
