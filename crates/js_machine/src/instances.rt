// An object is asked for its prototype, where another object is sought.

ghost use Rattle.std.specs.Prelude.{◌≡◌, IfOk, Some, if◌then◌else◌};
ghost use Rattle.lava_base.specs.Ids.{same_ref};
ghost use Rattle.js_text.specs.Naming.{naming_of};
ghost use Rattle.js_text.specs.declared.value.Value.TheVariants as value_kind;
ghost use Rattle.js_desc.specs.declared.ask.Ask.TheVariants as ask_kind;
ghost use Rattle.js_desc.specs.declared.reply.Reply.TheVariants as reply_kind;
ghost use Rattle.js_operation.specs.js_run.Acts.{Inherits, asks, give, inherits_from};
ghost use Rattle.js_operation.specs.js_run.Operators.{prototype_inherited};
ghost use Rattle.js_machine.specs.Replies.{deed_replied};
ghost use Rattle.js_machine.specs.Steps.{LeadsTo, under};
ghost use Rattle.js_machine.specs.Views.{below, object_on, party_of, prototype_in, top};
ghost use Rattle.js_machine.specs.declared.frame.Frame.TheVariants as frame_kind;

use crate::frame::{Frame, Mode};
use crate::machine::Machine;
use js_desc::ask::Ask;
use js_store::store::Store;
use js_text::value::Value;
use lava_base::ids::{CommonId, Ref};
use lava_base::memory::OutOfMemory;

/// The object that a value on the stack is.
fn object_on(value: &Value) -> Ref
    ensures { result ≡ object_on value.now }
{
    match value {
        Value::Ref(object) => *object,
        _ => Ref::Common(CommonId(0)),
    }
}

impl<S: Store> Machine<S> {
    /// The object on the stack of values is taken off.
    pub fn take_object(&mut self) -> Ref
        ensures object { result ≡ object_on (top self.old.values) }
        ensures rest { self.new ≡ record self.old { values = below self.old.values } }
    {
        let value = self.take();
        object_on(&value)
    }

    /// An object is asked for its prototype, where another object is sought.
    pub fn seek(&mut self, object: Ref, prototype: Ref) -> Result<Mode, OutOfMemory>
        ensures { let inherited = value_kind.Ref prototype in
            IfOk result (LeadsTo (λ a. prototype_inherited (naming_of self.old.me) a.shared object
            inherited (party_of a self.old)) self.old self.new) }
    {
        self.push(Value::Ref(prototype))?;
        self.ask(object, Ask::GetPrototypeOf, Frame::Inherits)
    }

    /// The prototype of an object is the one that is sought, or is asked for its own.
    fn found_or_sought(&mut self, sought: Ref, object: Ref) -> Result<Mode, OutOfMemory>
        ensures { let prototype = Some object in
            IfOk result (LeadsTo (λ a. inherits_from (naming_of self.old.me) sought prototype
            (party_of a self.old)) self.old self.new) }
    {
        if sought.is_same(object) {
            return self.give(Value::Bool(true));
        }
        self.seek(object, sought)
    }

    /// The prototype of an object is known, where another object is sought (ECMA-262, OrdinaryHasInstance, step 6).
    fn inherits_from(&mut self, sought: Ref, prototype: Option<Ref>) -> Result<Mode, OutOfMemory>
        ensures { IfOk result (LeadsTo (λ a. inherits_from (naming_of self.old.me) sought prototype
            (party_of a self.old)) self.old self.new) }
    {
        match prototype {
            None => self.give(Value::Bool(false)),
            Some(object) => self.found_or_sought(sought, object),
        }
    }

    /// The prototype of an object comes to the frame that has the object that is sought.
    pub fn deliver_inherits(&mut self, prototype: Option<Ref>) -> Result<Mode, OutOfMemory>
        ensures { let reply = reply_kind.Proto prototype in
            IfOk result (LeadsTo (deed_replied frame_kind.Inherits reply self.old)
            (under frame_kind.Inherits self.old) self.new) }
    {
        let sought = self.take_object();
        self.inherits_from(sought, prototype)
    }
}
