// Which way an object decides of an ask.

ghost use Rattle.std.specs.Prelude.{◌≡◌};
ghost use Rattle.js_machine.specs.Ways.{way_called, way_collected, way_here, way_of};

use crate::machine::Machine;
use js_desc::ask::Ask;
use js_ordinary::target::{find_target, marks, slot};
use js_store::slot::{Held, Slot};
use js_store::store::Store;
use lava_base::ids::Ref;

/// Which way an object decides of an ask.
#[derive(Clone, Copy, Debug, PartialEq, Eq)]
pub enum Way {
    /// As every object does.
    Object,
    Proxy,
    /// A native looks into a collection.
    Collection,
    /// The `require` of a module.
    Module,
    /// The `require` of the texts that a compartment evaluates.
    Mapped,
    /// A function of the host.
    Host,
}

/// Which way an object decides of a call.
fn way_called(slot: &Slot, callable: bool) -> Way
    ensures { result ≡ way_called slot.now callable }
{
    match slot {
        Slot::Held(Held::Require { .. }) => Way::Module,
        Slot::Held(Held::ModuleMap) => Way::Mapped,
        Slot::Plain if callable => Way::Host,
        _ => Way::Object,
    }
}

/// Which way a collection decides.
fn way_collected(ask: &Ask) -> Way
    ensures { result ≡ way_collected ask.now }
{
    match ask {
        Ask::Slot { .. } => Way::Collection,
        _ => Way::Object,
    }
}

/// Which way an object with this slot decides.
fn way_of(slot: &Slot, callable: bool, ask: &Ask) -> Way
    ensures { result ≡ way_of slot.now callable ask.now }
{
    match slot {
        Slot::Proxy(_) => Way::Proxy,
        Slot::Table(_) => way_collected(ask),
        slot => match ask {
            Ask::Call { .. } => way_called(slot, callable),
            _ => Way::Object,
        },
    }
}

impl<S: Store> Machine<S> {
    /// Which way an object decides of the ask of the machine.
    #[tactic(auto, using(crate::proofs::Ways_laws::way_there, crate::proofs::Ways_laws::way_nowhere))]
    pub fn way(&self, me: Ref) -> Way
        ensures { result ≡ way_here self.now me }
    {
        match find_target(&self.store, &self.common, me) {
            None => Way::Object,
            Some(target) => {
                let slot = slot(&self.store, &self.common, target);
                let callable = marks(&self.store, &self.common, target).callable;
                way_of(slot, callable, &self.asked.ask)
            }
        }
    }
}
