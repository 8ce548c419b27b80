// The first import of a run.

ghost use Rattle.std.specs.Prelude.{◌≡◌, [], false, IfOk, OnErr, OnOk, true};
ghost use Rattle.js_crossing.specs.js_run.Journal.{root_link};
ghost use Rattle.js_world.specs.First.{IsBegun};

use crate::crossing::HOST;
use crate::world::World;
use js_crossing::js_machine::asked::Imported;
use js_crossing::js_machine::frame::Mode;
use js_crossing::js_machine::requests::text_of;
use js_store::store::Store;
use lava_base::memory::OutOfMemory;
use std::alloc::Global;

/// The link of the host to the application's own package.
static ROOT_LINK: [u16; 6] = [36, 114, 111, 111, 116, 36];

/// The party of the application's own package.
const ROOT_PARTY: u32 = 1;

/// The import of the main module over the host's link.
fn first_import(alloc: Global) -> Result<Imported, OutOfMemory>
    ensures { IfOk result (λ x. x ≡ record { link = root_link; path = [] }) }
{
    let link = text_of(alloc, &ROOT_LINK)?;
    let path = text_of(alloc, &[])?;
    Ok(Imported { link, path })
}

impl<S: Store> World<S> {
    /// The host imports the application's own package.
    fn begin_on(&mut self, alloc: Global) -> Result<Mode, OutOfMemory>
        requires { self.now.machine.frames ≡ [] }
        ensures { IfOk result (IsBegun self.old self.new) }
    {
        let imported = first_import(alloc)?;
        self.keep_import(HOST, ROOT_PARTY, &imported)?;
        self.hand_import(ROOT_PARTY, &imported)
    }

    /// The host imports the application's own package, whose party runs then. Want of memory is
    /// answered too after want of memory.
    pub fn begin(&mut self, alloc: Global) -> Result<Mode, OutOfMemory>
        requires { self.now.machine.frames ≡ [] }
        ensures begins { IfOk result (IsBegun self.old self.new) }
        ensures enough { OnOk result (self.old.short ≡ false) }
        ensures short { OnErr result (self.new.short ≡ true) }
    {
        if self.short {
            return Err(OutOfMemory);
        }
        match self.begin_on(alloc) {
            Ok(mode) => Ok(mode),
            Err(short) => {
                self.short = true;
                Err(short)
            }
        }
    }
}
