// The marks of references of other parties.

ghost use Rattle.std.specs.Prelude.{◌≡◌, [], OnOk, OnErr};
ghost use Rattle.lava_base.specs.Ids.{same_ref};
ghost use Rattle.js_store.specs.Foreign.{marks_of, with_marks};

use crate::store::PLAIN_MARKS;
use indexmap::IndexMap;
use lava_base::ids::Ref;
use lava_base::marks::Marks;
use lava_base::memory::OutOfMemory;
use std::alloc::Global;
use std::marker::Model;

/// What is known of the objects of other parties: a list of references, each once, with the marks that it came with. Both calls take amortised constant time.
#[derive(Drop)]
pub struct Foreign {
    known: IndexMap<Ref, Marks>,
}

impl Model for Foreign {
    ghost use Rattle.std.specs.Prelude.{List};
    ghost use Rattle.lava_base.specs.declared.ids.Ref.{Ref};
    ghost use Rattle.lava_base.specs.declared.marks.Marks.{Marks};

    ghost Value = { List (Ref × Marks) };

    ghost view = { λ f. f.known.entries };
}

impl Foreign {
    /// Nothing is known. It takes no memory.
    pub fn new(alloc: Global) -> Foreign
        ensures { result ≡ [] }
    {
        Foreign {
            known: IndexMap::new(alloc),
        }
    }

    /// Adds a reference with its marks. One that is there already keeps the marks that it has. After a refusal all is as before.
    #[tactic(auto, using(crate::proofs::Marks_laws::added))]
    pub fn add(&mut self, reference: Ref, marks: Marks) -> Result<(), OutOfMemory>
        ensures ok { OnOk result (self.new ≡ with_marks same_ref reference marks self.old) }
        ensures err { OnErr result (self.new ≡ self.old) }
    {
        if self.known.contains_key(&reference) {
            return Ok(());
        }
        self.known.insert(reference, marks)?;
        Ok(())
    }

    /// The marks that were added for a reference, and those of an ordinary object that is not callable where none were.
    pub fn marks(&self, reference: Ref) -> Marks
        ensures { result ≡ marks_of same_ref reference self.now }
    {
        match self.known.get(&reference) {
            Some(marks) => *marks,
            None => PLAIN_MARKS,
        }
    }
}
