// The objects of a module.

ghost use Rattle.std.specs.Prelude.{◌≡◌};
ghost use Rattle.js_machine.specs.Views.{values_without};

use crate::frame::Mode;
use crate::machine::Machine;
use js_store::store::Store;

/// The numbers of the three objects of a module.
#[derive(Clone, Copy)]
pub struct ModuleObjects {
    pub exports: u32,
    pub object: u32,
    pub require: u32,
}

impl<S: Store> Machine<S> {
    /// The value of a completion is let go, if it has one.
    pub fn drop_value(&mut self, mode: Mode)
        ensures { let rest = values_without mode self.old.values in
            self.new ≡ record self.old { values = rest } }
    {
        if mode.has_value() {
            self.discard(1);
        }
    }
}
