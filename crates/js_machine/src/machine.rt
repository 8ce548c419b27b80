// The state of a machine that runs one party.

ghost use Rattle.std.specs.Prelude.{◌≡◌, ◌∷◌, IfOk, OnOk, drop, true};
ghost use Rattle.js_text.specs.declared.value.Value.TheVariants as value;
ghost use Rattle.js_operation.specs.js_run.Acts.{Become, Give, give};
ghost use Rattle.js_machine.specs.Steps.{IsDelivered, LeadsTo, Waits, WaitsWith};
ghost use Rattle.js_code.specs.Decoded.{term_at};
ghost use Rattle.js_machine.specs.Views.{below, completion_with, has_value, is_abrupt, party_of, takes_values, top};
ghost use Rattle.js_machine.specs.declared.frame.Mode.TheVariants as mode;

use crate::asked::{Answer, Asked, Imported, Wait};
use crate::body::Body;
use crate::frame::{Frame, Mode};
use crate::keys::KnownKeys;
use crate::outside::HostCall;
use crate::package::Package;
use js_code::code::Code;
use js_state::scopes::Scopes;
use js_store::foreign::Foreign;
use js_store::frozen::FrozenStore;
use js_store::store::Store;
use js_text::text::Text;
use js_text::value::Value;
use lava_base::memory::OutOfMemory;
use std::alloc::Global;
use std::marker::Model;

/// A machine.
#[derive(Drop)]
pub struct Machine<S: Store> {
    pub alloc: Global,
    pub code: Code,
    pub frames: Vec<Frame>,
    pub values: Vec<Value>,
    pub store: S,
    pub templates: Vec<u32>,
    pub scopes: Scopes,
    pub bodies: Vec<Body>,
    /// Where the newest body stands.
    pub scope: u32,
    pub depth: u32,
    /// What waits for answers, beside the frames that wait.
    pub waits: Vec<Wait>,
    pub asked: Asked,
    pub answer: Answer,
    pub common: FrozenStore,
    /// What is known of foreign objects.
    pub foreign: Foreign,
    /// The templates of the common part, as places in the code.
    pub common_templates: Vec<u32>,
    /// The place of the template that has nothing to do.
    pub empty_template: u32,
    /// The places of the templates that construct the objects of classes without a constructor, class by class.
    pub default_templates: Vec<u32>,
    pub keys: KnownKeys,
    pub own_package: Package,
    /// The links that the party may import over.
    pub allowed: Vec<Text>,
    pub imported: Imported,
    /// The calls of functions of the host so far.
    pub calls: Vec<HostCall>,
}

impl<S: Store> Model for Machine<S> {
    ghost use Rattle.std.specs.Prelude.{◌≡◌, reverse, true};
    ghost use Rattle.js_machine.specs.Bodies.{bodies_of, is_grounded};
    ghost use Rattle.js_machine.specs.Defaults.{KnowsTemplates};
    ghost use Rattle.js_machine.specs.Views.{View};

    ghost Value = { View };

    ghost view = { λ m. record {
      me = (S.owner m.store).0;
      code = m.code;
      frames = reverse m.frames.items;
      values = reverse m.values.items;
      objects = S.objects m.store;
      templates = m.templates.items;
      scopes = m.scopes;
      bodies = bodies_of m.scope (reverse m.bodies.items);
      depth = m.depth;
      waits = reverse m.waits.items;
      asked = m.asked;
      answer = m.answer;
      common = m.common;
      known = m.foreign;
      common_templates = m.common_templates.items;
      own_package = m.own_package;
      allowed = m.allowed.items;
      imported = m.imported;
      calls = reverse m.calls.items;
    } };

    ghost invariant = { λ m. (is_grounded m.scope (reverse m.bodies.items) ≡ true)
        × KnowsTemplates m.code m.empty_template m.default_templates.items };
}

impl<S: Store> Machine<S> {
    /// A frame waits.
    #[inline]
    #[tactic(auto, using(crate::proofs::Reversed::reverse_push))]
    pub fn push_frame(&mut self, frame: Frame) -> Result<(), OutOfMemory>
        ensures { OnOk result (self.new ≡ record self.old { frames = frame ∷ self.old.frames }) }
    {
        self.frames.push(frame)?;
        Ok(())
    }

    /// A form is begun, and a frame waits for it.
    #[inline]
    pub fn wait(&mut self, frame: Frame, at: u32) -> Result<Mode, OutOfMemory>
        ensures mode { IfOk result (λ m. m ≡ mode.Eval at) }
        ensures frame { OnOk result (self.new ≡ record self.old { frames = frame ∷ self.old.frames }) }
        ensures leads { IfOk result (Waits frame at self.old self.new) }
    {
        self.push_frame(frame)?;
        Ok(Mode::Eval(at))
    }

    /// A value comes on the stack.
    #[inline]
    #[tactic(auto, using(crate::proofs::Reversed::reverse_push))]
    pub fn push(&mut self, value: Value) -> Result<(), OutOfMemory>
        ensures { OnOk result (self.new ≡ record self.old { values = value ∷ self.old.values }) }
    {
        self.values.push(value)?;
        Ok(())
    }

    /// A value is given.
    #[inline]
    pub fn give(&mut self, value: Value) -> Result<Mode, OutOfMemory>
        ensures mode { IfOk result (λ m. m ≡ mode.Value) }
        ensures value { OnOk result (self.new ≡ record self.old { values = value ∷ self.old.values }) }
        ensures leads { IfOk result (LeadsTo (λ a. give value (party_of a self.old)) self.old self.new) }
    {
        self.push(value)?;
        Ok(Mode::Value)
    }

    /// A form takes the place of the one that was begun.
    #[tactic(auto, using(crate::proofs::Leads::became))]
    pub fn replace_by(&mut self, at: u32) -> Result<Mode, OutOfMemory>
        ensures { let term = term_at self.old.code at in
            IfOk result (LeadsTo (λ a. Become term (party_of a self.old)) self.old self.new) }
    {
        Ok(Mode::Eval(at))
    }

    /// A form is begun, and a frame waits for it that may have a value.
    #[inline]
    pub fn wait_with(&mut self, value: Value, frame: Frame, at: u32) -> Result<Mode, OutOfMemory>
        ensures { IfOk result (WaitsWith value frame at self.old self.new) }
    {
        self.push(value)?;
        self.wait(frame, at)
    }

    /// A form is begun, and a frame waits for it that has the newest value, which stays where it is.
    #[inline]
    #[tactic(auto, using(crate::proofs::Over::none_over, crate::proofs::Over::some_over))]
    pub fn wait_over(&mut self, frame: Frame, at: u32) -> Result<Mode, OutOfMemory>
        ensures { let value = top self.old.values in
            let rest = record self.old { values = below self.old.values } in
            IfOk result (WaitsWith value frame at rest self.new) }
    {
        if self.values.len() == 0 {
            return self.wait_with(Value::Undefined, frame, at);
        }
        self.wait(frame, at)
    }

    /// A completion that has a value comes.
    #[tactic(auto, using(crate::proofs::Leads::ended))]
    pub fn end_with(&mut self, value: Value, mode: Mode) -> Result<Mode, OutOfMemory>
        requires { has_value mode ≡ true }
        ensures { let completion = completion_with self.old.code mode value in
            IfOk result (LeadsTo (λ a. Give completion (party_of a self.old)) self.old self.new) }
    {
        self.push(value)?;
        Ok(mode)
    }

    /// The newest value is taken off; undefined where there is none.
    #[inline]
    #[tactic(auto, using(crate::proofs::Reversed::reverse_push))]
    pub fn take(&mut self) -> Value
        ensures value { result ≡ top self.old.values }
        ensures rest { self.new ≡ record self.old { values = below self.old.values } }
    {
        match self.values.pop() {
            Some(value) => value,
            None => Value::Undefined,
        }
    }

    /// So many values are let go.
    #[tactic(auto, using(crate::proofs::Dropped::drop_below))]
    pub fn discard(&mut self, count: u64)
        ensures { self.new ≡ record self.old { values = drop count self.old.values } }
    {
        for _i in 0..count {
            let _value = self.take();
        }
    }

    /// A completion that is no value passes a frame that takes values alone.
    pub fn pass(&mut self, frame: Frame, mode: Mode) -> Result<Mode, OutOfMemory>
        requires takes { takes_values frame ≡ true }
        requires abrupt { is_abrupt mode ≡ true }
        ensures { IfOk result (IsDelivered frame mode self.old self.new) }
    {
        if mode.has_value() {
            let value = self.take();
            self.discard(frame.owned());
            self.push(value)?;
        } else {
            self.discard(frame.owned());
        }
        Ok(mode)
    }
}
