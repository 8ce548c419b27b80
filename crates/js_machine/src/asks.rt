// Asks at objects and at other values, and their answers.

ghost use Rattle.std.specs.Prelude.{◌≡◌, ◌+◌, ◌∷◌, IfOk, OnOk, true, false, nat_lt};
ghost use Rattle.js_text.specs.Naming.{naming_of};
ghost use Rattle.js_operation.specs.js_run.Acts.{Give};
ghost use Rattle.js_operation.specs.js_run.Asking.{waits_for};
ghost use Rattle.js_operation.specs.js_run.Completions.{Replied};
ghost use Rattle.js_operation.specs.js_run.declared.TheConstants.{MAX_DEPTH as most};
ghost use Rattle.js_machine.specs.Steps.{LeadsTo, Pays, WaitsFor, WaitsForValue};
ghost use Rattle.js_machine.specs.Views.{first_wait, next_of_wait, party_of, reply_of_answer, waits_under};
ghost use Rattle.js_machine.specs.declared.frame.Frame.TheVariants as frame;

use crate::asked::{Answer, Asked, Wait};
use crate::frame::{Frame, Halt, Mode};
use crate::machine::Machine;
use js_desc::ask::Ask;
use js_desc::reply::Reply;
use js_operation::js_exotic::next::Next as ExoticNext;
use js_operation::js_run::MAX_DEPTH;
use js_ordinary::next::Next as OrdinaryNext;
use js_store::store::Store;
use js_text::value::Value;
use lava_base::ids::{CommonId, Ref};
use lava_base::memory::OutOfMemory;

impl<S: Store> Machine<S> {
    /// What is asked.
    pub fn set_asked(&mut self, target: Value, ask: Ask)
        ensures { self.new ≡ record self.old { asked = record { target = target; ask = ask } } }
    {
        self.asked = Asked { target, ask };
    }

    /// A value is asked, and a frame waits for the answer.
    pub fn ask_value(&mut self, target: Value, ask: Ask, frame: Frame) -> Result<Mode, OutOfMemory>
        ensures { IfOk result (WaitsForValue frame target ask self.old self.new) }
    {
        self.push_frame(frame)?;
        self.set_asked(target, ask);
        Ok(Mode::Ask)
    }

    /// An object is asked, and a frame waits for the answer.
    pub fn ask(&mut self, target: Ref, ask: Ask, frame: Frame) -> Result<Mode, OutOfMemory>
        ensures { IfOk result (WaitsFor frame target ask self.old self.new) }
    {
        self.ask_value(Value::Ref(target), ask, frame)
    }

    /// An answer that is no value and no throw comes.
    pub fn answer(&mut self, answer: Answer) -> Result<Mode, OutOfMemory>
        ensures { let reply = reply_of_answer answer in
            IfOk result (LeadsTo (λ a. Give (Replied reply)
            (party_of a self.old)) self.old self.new) }
    {
        self.answer = answer;
        Ok(Mode::Answer)
    }

    /// A reply comes.
    pub fn reply(&mut self, reply: Reply) -> Result<Mode, OutOfMemory>
        ensures { IfOk result (LeadsTo (λ a. Give (Replied reply)
            (party_of a self.old)) self.old self.new) }
    {
        match reply {
            Reply::Value(value) => self.end_with(value, Mode::Value),
            Reply::Proto(proto) => self.answer(Answer::Proto(proto)),
            Reply::Flag(truth) => self.answer(Answer::Flag(truth)),
            Reply::Desc(property) => self.answer(Answer::Desc(property)),
            Reply::Keys(keys) => self.answer(Answer::Keys(keys)),
            Reply::Throw(value) => self.end_with(value, Mode::Throw),
        }
    }

    /// Something comes on the stack of what waits.
    #[tactic(auto, using(crate::proofs::Reversed::reverse_push))]
    pub fn push_wait(&mut self, wait: Wait) -> Result<(), OutOfMemory>
        ensures { OnOk result (self.new ≡ record self.old { waits = wait ∷ self.old.waits }) }
    {
        self.waits.push(wait)?;
        Ok(())
    }

    /// What waits is taken off; where nothing does, an answer is one.
    #[tactic(auto, using(crate::proofs::Reversed::reverse_push))]
    pub fn take_wait(&mut self) -> Wait
        ensures value { result ≡ first_wait self.old.waits }
        ensures rest { self.new ≡ record self.old { waits = waits_under frame.Decides self.old.waits } }
    {
        match self.waits.pop() {
            Some(wait) => wait,
            None => Wait::Object {
                me: Ref::Common(CommonId(0)),
                next: ExoticNext::Ordinary(OrdinaryNext::Answer),
            },
        }
    }

    /// One thing more is open, where that is not too deep.
    pub fn open_one(&mut self) -> bool
        ensures open { result ≡ nat_lt self.old.depth most }
        ensures deeper { result ≡ true → self.new ≡ record self.old { depth = self.old.depth + 1 } }
        ensures same { result ≡ false → self.new ≡ self.old }
    {
        if self.depth < MAX_DEPTH {
            self.depth += 1;
            return true;
        }
        false
    }

    /// An object is asked, and something waits that is open meanwhile.
    pub fn wait_for(&mut self, target: Ref, ask: Ask, wait: Wait) -> Result<Mode, OutOfMemory>
        ensures { let names = naming_of self.old.me in
            IfOk result (LeadsTo (λ a. waits_for names target ask (party_of a self.old)
            (next_of_wait names a.shared self.old.code wait)) self.old self.new) }
    {
        if !self.open_one() {
            return self.end_run(Halt::Depth);
        }
        self.push_wait(wait)?;
        self.ask(target, ask, Frame::Decides)
    }

    /// So much and one is to be paid, and a frame waits.
    pub fn pay(&mut self, cost: u32, frame: Frame) -> Result<Mode, OutOfMemory>
        ensures { IfOk result (Pays cost frame self.old self.new) }
    {
        self.push_frame(frame)?;
        Ok(Mode::Pay(cost))
    }
}
