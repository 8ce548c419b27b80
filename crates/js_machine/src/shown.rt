// What goes to other parties.

ghost use Rattle.std.specs.Prelude.{◌≡◌, OnOk, true};
ghost use Rattle.js_operation.specs.js_run.Completions.{reply_of};
ghost use Rattle.js_machine.specs.Shown.{no_ask, shown, with_known};
ghost use Rattle.js_machine.specs.Views.{completion_of, is_handed};

use crate::asked::Asked;
use crate::frame::Mode;
use crate::machine::Machine;
use js_desc::ask::Ask;
use js_desc::reply::Reply;
use js_store::store::Store;
use js_text::value::Value;
use lava_base::ids::{PartyId, Ref};
use lava_base::memory::OutOfMemory;
use std::mem;

impl<S: Store> Machine<S> {
    /// The party that runs.
    pub fn party(&self) -> PartyId
        ensures { result.0 ≡ self.now.me }
    {
        self.store.party()
    }

    /// Others know the marks of an object from now on, if it is the party's own.
    pub fn show(&mut self, object: Ref) -> Result<(), OutOfMemory>
        ensures { OnOk result (self.new ≡ with_known (shown self.old object) self.old) }
    {
        match object {
            Ref::Own { party, id } if party.0 == self.store.party().0 => {
                let marks = self.own_marks(id);
                self.learn(object, marks)
            }
            _ => Ok(()),
        }
    }

    /// What is asked, which the machine keeps no longer.
    pub fn take_ask(&mut self) -> Ask
        ensures ask { result ≡ self.old.asked.ask }
        ensures rest { self.new ≡ record self.old { asked = no_ask } }
    {
        let none = Asked {
            target: Value::Undefined,
            ask: Ask::GetPrototypeOf,
        };
        mem::replace(&mut self.asked, none).ask
    }

    /// The reply that the completion of a body is. A jump is a throw of undefined.
    pub fn take_reply(&mut self, mode: Mode) -> Reply
        requires { is_handed mode ≡ true }
        ensures reply { result ≡ reply_of (completion_of self.old mode) }
        ensures rest { let answer = self.new.answer in
            self.new ≡ record self.old { values = self.new.values; answer = answer } }
    {
        match mode {
            Mode::Answer => self.take_answer(),
            Mode::Value => Reply::Value(self.take()),
            Mode::Throw => Reply::Throw(self.take()),
            _ => Reply::Throw(Value::Undefined),
        }
    }
}
