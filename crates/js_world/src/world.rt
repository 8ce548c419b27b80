// The machine of all parties, and whose things stand in it.

ghost use Rattle.std.specs.Prelude.{◌≡◌, ◌<◌, length, replicate, option_map, IfOk, OnOk};
ghost use Rattle.js_world.specs.First.{RestsFirst, as_new};
ghost use Rattle.js_crossing.specs.js_machine.Looks.{marks_in};
ghost use Rattle.js_crossing.specs.js_run.Heap as heap;
ghost use Rattle.js_crossing.specs.js_run.Journal.{Application};
ghost use Rattle.js_world.specs.Worlds.{HasOwn, Suits, aside, charged, exchanged, own_here, steps_of, turned};

use crate::waiting::Waiting;
use js_crossing::js_machine::machine::Machine;
use js_crossing::js_machine::own::Own;
use js_crossing::leads::Lead;
use js_crossing::newest::TracedCrossing;
use js_desc::reply::Reply;
use js_store::flat::FlatStore;
use js_store::store::Store;
use lava_base::ids::{PartyId, Ref};
use lava_base::list::List;
use lava_base::marks::Marks;
use lava_base::memory::OutOfMemory;
use std::alloc::Global;
use std::marker::Model;

/// The machine of all parties. The party that runs has its things in the machine, and each other
/// one has them in its place of a list.
#[derive(Drop)]
pub struct World<S: Store> {
    pub(crate) alloc: Global,
    pub(crate) machine: Machine<S>,
    pub(crate) others: Vec<Own<S>>,
    /// Where the links of each party lead.
    pub(crate) leads: Vec<List<Lead>>,
    /// The steps that each party has taken.
    pub(crate) steps: Vec<u64>,
    /// Those that all have taken.
    pub(crate) spent: u64,
    pub(crate) budget: u64,
    /// The bodies that wait, the newest last.
    pub(crate) stack: Vec<Waiting>,
    /// What the host's import was answered with, once it is.
    pub(crate) last: Option<Reply>,
    /// Whether the newest crossing is kept.
    pub(crate) tracing: bool,
    /// It, once there is one.
    pub(crate) newest: Option<TracedCrossing>,
    /// Whether memory was wanting, after which it always is.
    pub(crate) short: bool,
}

/// The machine of all parties whose objects stand in flat stores, which is the one that a command runs.
pub type FlatWorld = World<FlatStore>;

impl<S: Store> Model for World<S> {
    ghost use Rattle.std.specs.Prelude.{reverse};
    ghost use Rattle.js_world.specs.Worlds.{WorldView};

    ghost Value = { WorldView };

    ghost view = { λ w. record {
      machine = w.machine;
      others = w.others.items;
      leads = w.leads.items;
      steps = w.steps.items;
      spent = w.spent;
      budget = w.budget;
      stack = reverse w.stack.items;
      last = w.last;
      tracing = w.tracing;
      newest = w.newest;
      short = w.short;
    } };
}

/// How many places there are for parties.
fn count_of<S: Store>(others: &Vec<Own<S>>) -> usize
    ensures { result ≡ length others.now.items }
{
    others.len()
}

/// No party has taken steps.
fn no_steps(alloc: Global, count: usize) -> Result<Vec<u64>, OutOfMemory>
    ensures { IfOk result (λ v. v.items ≡ replicate count 0) }
{
    let mut steps = Vec::new(alloc);
    for _i in 0..count {
        steps.push(0)?;
    }
    Ok(steps)
}

impl<S: Store> World<S> {
    /// The machine of all parties that has nothing to do yet, with the things of each. The place of
    /// the party in the machine holds things that nothing reads.
    pub fn new(
        alloc: Global,
        machine: Machine<S>,
        others: Vec<Own<S>>,
        leads: Vec<List<Lead>>,
        budget: u64,
    ) -> Result<World<S>, OutOfMemory>
        ensures new { IfOk result (λ w. w ≡ as_new machine others.items leads.items budget) }
        ensures rests { IfOk result RestsFirst }
    {
        let steps = no_steps(alloc, count_of(&others))?;
        Ok(World {
            alloc,
            machine,
            others,
            leads,
            steps,
            spent: 0,
            budget,
            stack: Vec::new(alloc),
            last: None,
            tracing: false,
            newest: None,
            short: false,
        })
    }

    /// The steps that each party has taken, by their numbers.
    pub fn steps(&self) -> &[u64]
        ensures { result.now ≡ self.now.steps }
    {
        self.steps.as_slice()
    }

    /// The steps that a party has taken.
    pub fn steps_of(&self, party: PartyId) -> u64
        requires { party.0 < length self.now.steps }
        ensures { result ≡ steps_of self.now party.0 }
    {
        self.steps[party.0 as usize]
    }

    /// The store of a party, which stands in the machine or in its place.
    fn stored(&self, party: u32) -> &S
        requires { party < length self.now.others }
        ensures objects { S.objects result.now ≡ (own_here self.now party).objects }
        ensures owner { (S.owner result.now).0 ≡ (own_here self.now party).me }
    {
        if self.machine.party().0 == party {
            return self.machine.objects();
        }
        self.others[party as usize].store()
    }

    /// The store of a party. Wherever the machine stands as a world of the one heap does, it has that party's objects in that world.
    pub fn store_of(&self, party: PartyId) -> &S
        requires { party.0 < length self.now.others }
        ensures objects { S.objects result.now ≡ (own_here self.now party.0).objects }
        ensures heap { (app : Application) (w : heap.World) → HasOwn app w self.now party.0
            → S.objects result.now ≡ (w.own party.0).objects }
        ensures owner { (app : Application) → Suits app self.now → (S.owner result.now).0 ≡ party.0 }
    {
        self.stored(party.0)
    }

    /// What everyone may know of an object that a crossing has named, or that is the own one of the party in the machine or a common one; that of an ordinary object for any other.
    pub fn marks_of(&self, reference: Ref) -> Marks
        ensures { result ≡ marks_in self.now.machine reference }
    {
        self.machine.marks_of(reference)
    }

    /// What the host's import was answered with; nothing before it is.
    pub fn last(&self) -> Option<&Reply>
        ensures { option_map (λ r. r.now) result ≡ self.now.last }
    {
        self.last.as_ref()
    }

    /// The machine; the call that the outside is asked by is its newest one.
    pub fn machine(&self) -> &Machine<S>
        ensures { result.now ≡ self.now.machine }
    {
        &self.machine
    }

    /// The things of the party in the machine and those of a place change places.
    fn exchange_at(&mut self, at: usize)
        requires { at < length self.now.others }
        ensures { self.new ≡ exchanged at self.old }
    {
        self.machine.exchange(&mut self.others[at]);
    }

    /// The machine has the things of a party. Want of memory is answered where there is no such
    /// party.
    pub fn turn_to(&mut self, party: u32) -> Result<(), OutOfMemory>
        ensures turned { OnOk result (self.new ≡ turned party self.old) }
        ensures from { OnOk result (self.old.machine.me < length self.old.others) }
        ensures to { OnOk result (party < length self.old.others) }
    {
        let from = self.machine.party().0 as usize;
        let to = party as usize;
        let count = self.others.len();
        if from >= count || to >= count {
            return Err(OutOfMemory);
        }
        self.exchange_at(from);
        self.exchange_at(to);
        Ok(())
    }

    /// A party has taken so many steps in all. Want of memory is answered where there is no such
    /// party, and where the steps of all are too many to be counted.
    pub(crate) fn charge(&mut self, party: u32, steps: u64) -> Result<(), OutOfMemory>
        ensures charged { OnOk result (self.new ≡ charged party steps self.old) }
        ensures there { OnOk result (party < length self.old.steps) }
    {
        let at = party as usize;
        if at >= self.steps.len() {
            return Err(OutOfMemory);
        }
        let more = steps.saturating_sub(self.steps[at]);
        match self.spent.checked_add(more) {
            Some(spent) => {
                self.steps[at] = steps;
                self.spent = spent;
                Ok(())
            }
            None => Err(OutOfMemory),
        }
    }

    /// The body that runs waits.
    #[tactic(auto, using(js_crossing::proofs::Reversed::reverse_push))]
    pub(crate) fn set_aside(&mut self) -> Result<(), OutOfMemory>
        ensures { OnOk result (self.new ≡ aside self.old) }
    {
        let party = self.machine.party().0;
        let left = self.machine.set_aside();
        self.stack.push(Waiting { party, left })?;
        Ok(())
    }
}
