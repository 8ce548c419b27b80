// What a machine does with what comes from other parties.

ghost use Rattle.std.specs.Prelude.{◌≡◌, [], IfOk, OnOk, OnErr};
ghost use Rattle.lava_base.specs.Ids.{same_ref};
ghost use Rattle.js_operation.specs.js_run.NativeTurns.{served_units};
ghost use Rattle.js_store.specs.Foreign.{with_marks};
ghost use Rattle.js_machine.specs.Served.{IsServed};

use crate::frame::Mode;
use crate::machine::Machine;
use js_desc::ask::Ask;
use js_native::costs::native_cost;
use js_store::store::Store;
use js_text::value::Value;
use lava_base::ids::Ref;
use lava_base::marks::Marks;
use lava_base::memory::OutOfMemory;

/// The steps of an ask that came, without the one of each decision. Want of memory is answered too past 4,294,967,295.
fn served_units(ask: &Ask) -> Result<u32, OutOfMemory>
    ensures { IfOk result (λ n. n ≡ served_units ask.now) }
{
    match ask {
        Ask::Slot { which, args } => {
            let args = args.as_slice();
            if args.len() > u32::MAX as usize {
                return Err(OutOfMemory);
            }
            let cost = native_cost(*which, args, 0) - 1;
            if cost > u64::from(u32::MAX) {
                return Err(OutOfMemory);
            }
            Ok(cost as u32)
        }
        _ => Ok(0),
    }
}

impl<S: Store> Machine<S> {
    /// The marks of an object of another party are known; what is known of one stays.
    pub fn learn(&mut self, object: Ref, marks: Marks) -> Result<(), OutOfMemory>
        ensures known { let known = with_marks same_ref object marks self.old.known in
            OnOk result (self.new ≡ record self.old { known = known }) }
        ensures err { OnErr result (self.new ≡ self.old) }
    {
        self.foreign.add(object, marks)
    }

    /// An ask that another party sent is to be decided, and charged for; one at an object that is none of the party's does not come, and is a throw of undefined.
    pub fn serve(&mut self, target: Ref, ask: Ask) -> Result<Mode, OutOfMemory>
        requires { self.now.frames ≡ [] }
        ensures { IfOk result (IsServed target ask self.old self.new) }
    {
        if self.foreign_of(target).is_some() {
            return self.end_with(Value::Undefined, Mode::Throw);
        }
        let units = served_units(&ask)?;
        self.set_asked(Value::Ref(target), ask);
        Ok(Mode::Serve(units))
    }
}
