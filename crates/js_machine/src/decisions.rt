// What decisions, and what goes on with answers, share.

ghost use Rattle.std.specs.Prelude.{◌≡◌, ◌-◌, Bool, IfOk};
ghost use Rattle.js_text.specs.Naming.{naming_of};
ghost use Rattle.js_operation.specs.js_run.Acts.{End};
ghost use Rattle.js_operation.specs.js_run.Following.{halt_of};
ghost use Rattle.js_machine.specs.Decisions.{object_of_value};
ghost use Rattle.js_machine.specs.Steps.{LeadsTo};
ghost use Rattle.js_machine.specs.Views.{reply_of_answer};
ghost use Rattle.js_machine.specs.declared.asked.Answer.TheVariants as answer_kind;

use crate::asked::Answer;
use crate::frame::{Halt, Mode};
use crate::machine::Machine;
use js_desc::decision::EndKind;
use js_desc::reply::Reply;
use js_store::store::Store;
use js_text::value::Value;
use lava_base::ids::{ObjId, Ref};
use lava_base::memory::OutOfMemory;
use std::mem;

/// The object that a value is.
pub fn object_of_value(value: &Value) -> Option<Ref>
    ensures { result ≡ object_of_value value.now }
{
    match value {
        Value::Ref(object) => Some(*object),
        _ => None,
    }
}

impl<S: Store> Machine<S> {
    /// The global of the party is its first object.
    pub fn global(&self) -> Ref
        ensures { result ≡ (naming_of self.now.me).own 0 }
    {
        Ref::Own {
            party: self.store.party(),
            id: ObjId(0),
        }
    }

    /// The run ends as a decision says.
    pub fn end_as(&mut self, kind: EndKind) -> Result<Mode, OutOfMemory>
        ensures { IfOk result (LeadsTo (λ a. End (halt_of kind)) self.old self.new) }
    {
        match kind {
            EndKind::Number => self.end_run(Halt::Number),
            EndKind::Text => self.end_run(Halt::Text),
        }
    }

    /// One thing less is open.
    pub fn close_one(&mut self)
        ensures { self.new ≡ record self.old { depth = self.old.depth - 1 } }
    {
        self.depth = self.depth.saturating_sub(1);
    }

    /// The answer of the machine, as a reply.
    pub fn take_answer(&mut self) -> Reply
        ensures value { result ≡ reply_of_answer self.old.answer }
        ensures rest { self.new ≡ record self.old { answer = answer_kind.Flag Bool.false } }
    {
        match mem::replace(&mut self.answer, Answer::Flag(false)) {
            Answer::Proto(proto) => Reply::Proto(proto),
            Answer::Flag(truth) => Reply::Flag(truth),
            Answer::Desc(property) => Reply::Desc(property),
            Answer::Keys(keys) => Reply::Keys(keys),
        }
    }
}
