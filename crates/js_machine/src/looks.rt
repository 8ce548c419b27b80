// What the machine sees of objects.

ghost use Rattle.std.specs.Prelude.{◌≡◌};
ghost use Rattle.js_text.specs.Naming.{naming_of};
ghost use Rattle.js_store.specs.Objects.{object_at};
ghost use Rattle.js_machine.specs.Looks.{foreign_at, foreign_in, marks_in};

use crate::machine::Machine;
use js_store::store::{PLAIN_MARKS, Store};
use js_text::value::Value;
use lava_base::ids::{CommonId, ObjId, Ref};
use lava_base::marks::Marks;

impl<S: Store> Machine<S> {
    /// The marks of an own object.
    #[tactic(auto, using(crate::proofs::Looked::past_marks))]
    pub(crate) fn own_marks(&self, id: ObjId) -> Marks
        ensures { result ≡ (object_at self.now.objects id.0).marks }
    {
        if id.0 < self.store.count() {
            return self.store.marks(id);
        }
        PLAIN_MARKS
    }

    /// The marks of a common object.
    #[tactic(auto, using(crate::proofs::Looked::past_marks))]
    fn common_marks(&self, id: CommonId) -> Marks
        ensures { result ≡ (object_at self.now.common id.0).marks }
    {
        if id.0 < self.common.count() {
            return self.common.marks(id);
        }
        PLAIN_MARKS
    }

    /// What everyone may know of an object, and what is known of a foreign one.
    pub fn marks_of(&self, object: Ref) -> Marks
        ensures { result ≡ marks_in self.now object }
    {
        match object {
            Ref::Common(id) => self.common_marks(id),
            Ref::Own { party, id } => {
                if party.0 == self.store.party().0 {
                    self.own_marks(id)
                } else {
                    self.foreign.marks(object)
                }
            }
        }
    }

    /// The objects of the party that runs.
    pub fn objects(&self) -> &S
        ensures objects { S.objects result.now ≡ self.now.objects }
        ensures owner { (S.owner result.now).0 ≡ self.now.me }
    {
        &self.store
    }

    /// A reference, where its object is a foreign one.
    pub fn foreign_of(&self, object: Ref) -> Option<Ref>
        ensures { result ≡ foreign_at object ((naming_of self.now.me).origin object) }
    {
        match object {
            Ref::Own { party, .. } if party.0 != self.store.party().0 => Some(object),
            _ => None,
        }
    }

    /// The foreign object that the ask of the machine is sent to; every other ask is decided here.
    pub fn sent_to(&self) -> Option<Ref>
        ensures { result ≡ foreign_in (naming_of self.now.me) self.now.asked.target }
    {
        match &self.asked.target {
            Value::Ref(object) => self.foreign_of(*object),
            _ => None,
        }
    }
}
