// Imports of other parties.

ghost use Rattle.std.specs.Prelude.{◌≡◌, ◌<◌, [], length, slice_get, IfOk, OnOk, Some};
ghost use Rattle.js_crossing.specs.js_run.Runs.{Imports};
ghost use Rattle.js_crossing.specs.js_machine.Evaluated.{IsImported};
ghost use Rattle.js_crossing.specs.js_machine.declared.stop.Stop.TheVariants as stop;
ghost use Rattle.js_world.specs.Crossings.{Follows, IsTaken};
ghost use Rattle.js_crossing.specs.Leads.{leads_among};
ghost use Rattle.js_world.specs.Worlds.{import_away, leads_to};

use crate::world::World;
use js_crossing::ending::Turn;
use js_crossing::js_machine::asked::Imported;
use js_crossing::js_machine::frame::Mode;
use js_crossing::leads::{Lead, lead_of};
use js_machine_run::js_machine_modules::imports::{import, sent_import};
use js_store::store::Store;
use js_text::text::Text;
use lava_base::list::List;
use lava_base::memory::OutOfMemory;

/// The party to which a link leads, where a party's table has it.
fn lead_there(leads: &Vec<List<Lead>>, party: usize, link: &Text) -> Option<u32>
    ensures { result ≡ leads_among (slice_get leads.now.items party) link.now }
{
    match leads.get(party) {
        Some(leads) => lead_of(leads.as_slice(), link),
        None => None,
    }
}

impl<S: Store> World<S> {
    /// The party to which the link of the machine's import leads. Want of memory is answered where
    /// the table doesn't have it.
    fn linked_party(&self, link: &Text) -> Result<u32, OutOfMemory>
        ensures { IfOk result (λ q. leads_to self.now self.now.machine.me link.now ≡ Some q) }
    {
        match lead_there(&self.leads, self.machine.party().0 as usize, link) {
            Some(party) => Ok(party),
            None => Err(OutOfMemory),
        }
    }

    /// An import leaves the party in the machine, and the body that sent it waits.
    fn import_away(&mut self, steps: u64) -> Result<Imported, OutOfMemory>
        ensures import { IfOk result (λ x. x ≡ self.old.machine.imported) }
        ensures there { OnOk result (self.old.machine.me < length self.old.steps) }
        ensures sent { OnOk result (self.new ≡ import_away steps self.old) }
    {
        let party = self.machine.party().0;
        let imported = sent_import(&self.machine)?;
        self.charge(party, steps)?;
        self.set_aside()?;
        Ok(imported)
    }

    /// What the party in the machine runs for an import.
    fn import(&mut self, imported: &Imported) -> Result<Mode, OutOfMemory>
        requires { self.now.machine.frames ≡ [] }
        ensures imported { let x = imported.now in
            IfOk result (IsImported x.link x.path self.old.machine self.new.machine) }
        ensures rest { OnOk result (self.new ≡ record self.old { machine = self.new.machine }) }
    {
        import(&mut self.machine, &imported.link, &imported.path)
    }

    /// A party runs what another one imports from it.
    pub(crate) fn hand_import(
        &mut self,
        party: u32,
        imported: &Imported,
    ) -> Result<Mode, OutOfMemory>
        requires { self.now.machine.frames ≡ [] }
        ensures { let x = imported.now in
            IfOk result (IsTaken party (Imports x.link x.path) self.old self.new) }
    {
        self.turn_to(party)?;
        self.import(imported)
    }

    /// The number of the party in the machine.
    fn here(&self) -> u32
        ensures { result ≡ self.now.machine.me }
    {
        self.machine.party().0
    }

    /// The machine's import is sent over a link, and the party runs to which it leads.
    pub(crate) fn send_import(&mut self, steps: u64) -> Result<Turn, OutOfMemory>
        ensures { IfOk result (Follows (stop.Imports steps) self.old self.new) }
    {
        let imported = self.import_away(steps)?;
        let party = self.linked_party(&imported.link)?;
        let from = self.here();
        self.keep_import(from, party, &imported)?;
        let mode = self.hand_import(party, &imported)?;
        Ok(Turn::Runs(mode))
    }
}
