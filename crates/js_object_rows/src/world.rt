// A party's objects, and what is decided about them.

use crate::fault::Fault;
use js_desc::ask::Ask;
use js_desc::decision::Decision;
use js_desc::reply::Reply;
use js_exotic::decide::{decide, resume};
use js_exotic::next::Next;
use js_store::flat::FlatStore;
use js_store::foreign::Foreign;
use js_store::frozen::{FrozenStore, bare_common};
use js_store::store::Store;
use lava_base::ids::{PartyId, Ref};
use std::alloc::Global;

/// The party whose objects they are.
pub const PARTY: PartyId = PartyId(7);

/// The objects of a party, a bare common part, no foreign marks, what was decided last, and what waits for answers.
#[derive(Drop)]
pub struct World {
    pub alloc: Global,
    pub store: FlatStore,
    common: FrozenStore,
    foreign: Foreign,
    decision: Option<Decision<Next>>,
    waiting: Vec<Next>,
}

impl World {
    /// A world without objects of the party.
    pub fn empty(alloc: Global) -> Result<World, Fault> {
        Ok(World {
            alloc,
            store: FlatStore::empty(alloc, PARTY),
            common: bare_common(alloc)?,
            foreign: Foreign::new(alloc),
            decision: None,
            waiting: Vec::new(alloc),
        })
    }

    /// Has an object decide.
    pub fn ask(&mut self, target: Ref, ask: &Ask) -> Result<(), Fault> {
        let World {
            alloc,
            store,
            common,
            foreign,
            decision,
            ..
        } = self;
        let decided = decide(*alloc, store, common, foreign, target, ask)?;
        put(decision, decided);
        Ok(())
    }

    /// What was decided, once.
    pub fn decision(&mut self) -> Option<Decision<Next>> {
        self.decision.take()
    }

    /// What needs an answer to go on waits for it.
    pub fn wait(&mut self, next: Next) -> Result<(), Fault> {
        self.waiting.push(next)?;
        Ok(())
    }

    /// Nothing waits any more.
    pub fn wait_for_nothing(&mut self) {
        self.waiting.clear();
    }

    /// Hands an answer to what came to wait for it last, or gives it back where nothing waits.
    pub fn answer(&mut self, reply: Reply) -> Result<Option<Reply>, Fault> {
        match self.waiting.pop() {
            None => Ok(Some(reply)),
            Some(next) => self.resume(next, reply),
        }
    }

    /// Has a decision go on.
    fn resume(&mut self, next: Next, reply: Reply) -> Result<Option<Reply>, Fault> {
        let World {
            alloc,
            store,
            common,
            foreign,
            decision,
            ..
        } = self;
        let decided = resume(*alloc, store, common, foreign, next, reply)?;
        put(decision, decided);
        Ok(None)
    }
}

/// Puts a decision in its place.
fn put(place: &mut Option<Decision<Next>>, decision: Decision<Next>) {
    *place = Some(decision);
}
