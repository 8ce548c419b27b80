// A trace of the crossings: the newest one is kept, where a trace is wanted.

ghost use Rattle.std.specs.Prelude.{◌≡◌, option_map, OnOk, true};
ghost use Rattle.js_crossing.specs.js_run.Heap as heap;
ghost use Rattle.js_crossing.specs.js_run.Journal.{Application};
ghost use Rattle.js_world.specs.Crossings.{Rests};
ghost use Rattle.js_crossing.specs.Newest.{traced_ask, traced_import, traced_reply};
ghost use Rattle.js_world.specs.Worlds.{noted};

use crate::world::World;
use js_crossing::js_machine::asked::Imported;
use js_crossing::newest::{TracedCrossing, traced_ask, traced_import, traced_reply};
use js_desc::ask::Ask;
use js_desc::reply::Reply;
use js_store::store::Store;
use lava_base::ids::Ref;
use lava_base::memory::OutOfMemory;

impl<S: Store> World<S> {
    /// The newest crossing is kept from now on, with the marks of the references that it names. It is to be said before the first import.
    pub fn trace(&mut self)
        ensures traces { self.new ≡ record self.old { tracing = true } }
        ensures rests { (app : Application) → (w : heap.World) →
            Rests app w self.old → Rests app w self.new }
    {
        self.tracing = true;
    }

    /// Whether crossings are traced.
    pub fn is_tracing(&self) -> bool
        ensures { result ≡ self.now.tracing }
    {
        self.tracing
    }

    /// The newest crossing, where crossings are traced. An end within a party is none, and leaves the one before it.
    pub fn newest(&self) -> Option<&TracedCrossing>
        ensures { option_map (λ x. x.now) result ≡ self.now.newest }
    {
        self.newest.as_ref()
    }

    /// An ask that has left the party in the machine is kept, where crossings are traced.
    pub(crate) fn keep_ask(&mut self, target: Ref, ask: &Ask) -> Result<(), OutOfMemory>
        ensures { let x = traced_ask self.old.machine target ask.now in
            OnOk result (self.new ≡ noted x self.old) }
    {
        if self.tracing {
            let newest = traced_ask(self.alloc, &self.machine, target, ask)?;
            self.newest = Some(newest);
        }
        Ok(())
    }

    /// A reply that has left the party in the machine is kept, where crossings are traced.
    pub(crate) fn keep_reply(&mut self, to: u32, reply: &Reply) -> Result<(), OutOfMemory>
        ensures { let x = traced_reply self.old.machine to reply.now in
            OnOk result (self.new ≡ noted x self.old) }
    {
        if self.tracing {
            let newest = traced_reply(self.alloc, &self.machine, to, reply)?;
            self.newest = Some(newest);
        }
        Ok(())
    }

    /// An import is kept, where crossings are traced.
    pub(crate) fn keep_import(
        &mut self,
        from: u32,
        to: u32,
        imported: &Imported,
    ) -> Result<(), OutOfMemory>
        ensures { let i = imported.now in
            OnOk result (self.new ≡ noted (traced_import from to i.link i.path) self.old) }
    {
        if self.tracing {
            let newest = traced_import(self.alloc, from, to, imported)?;
            self.newest = Some(newest);
        }
        Ok(())
    }
}
