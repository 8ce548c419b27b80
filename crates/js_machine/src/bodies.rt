// Bodies that run.

ghost use Rattle.std.specs.Prelude.{◌≡◌, ◌-◌, ◌++◌, ◌∷◌, [], IfOk, OnOk, None, Some, drop, length, true, false};
ghost use Rattle.js_text.specs.Naming.{naming_of};
ghost use Rattle.js_code.specs.Decoded.{term_at};
ghost use Rattle.js_operation.specs.js_run.Bodies.{prepared};
ghost use Rattle.js_term.specs.declared.term.Template.{out-Template};
ghost use Rattle.js_machine.specs.Bodies.{running_of};
ghost use Rattle.js_machine.specs.Made.{row_of};
ghost use Rattle.js_machine.specs.Opened.{runs, template_of, with_body, with_prepared, with_slots, without_body};
ghost use Rattle.js_machine.specs.Steps.{LeadsTo, over, under};
ghost use Rattle.js_machine.specs.Views.{args_on, party_of};

use crate::body::Body;
use crate::frame::{Frame, Halt, Mode};
use crate::machine::Machine;
use js_code::node::TemplateRow;
use js_operation::js_run::MAX_DEPTH;
use js_store::store::Store;
use js_text::value::Value;
use lava_base::memory::OutOfMemory;

impl<S: Store> Machine<S> {
    /// The row of a template.
    #[inline]
    pub fn template(&self, at: u32) -> TemplateRow
        ensures { result ≡ row_of self.now at }
    {
        self.code.template(at)
    }

    /// A body is open, and stands in a scope.
    #[inline(always)]
    #[tactic(auto, using(crate::proofs::Reversed::reverse_push))]
    fn push_body(&mut self, scope: u32, body: Body) -> Result<(), OutOfMemory>
        ensures { OnOk result (self.new ≡ with_body scope body self.old) }
    {
        if self.depth == u32::MAX {
            return Err(OutOfMemory);
        }
        let back = self.scope;
        self.bodies.push(Body { back, ..body })?;
        self.scope = scope;
        self.depth += 1;
        Ok(())
    }

    /// The newest body is over.
    #[inline]
    #[tactic(auto, using(crate::proofs::Reversed::reverse_push))]
    pub fn close_body(&mut self)
        ensures { self.new ≡ without_body self.old }
    {
        if let Some(body) = self.bodies.pop() {
            self.scope = body.back;
        }
        self.depth = self.depth.saturating_sub(1);
    }

    /// A body runs a form, and a frame waits for its end; the run ends where too much is open.
    #[inline(always)]
    pub fn open_body(
        &mut self,
        at: u32,
        scope: u32,
        body: Body,
        frame: Frame,
    ) -> Result<Mode, OutOfMemory>
        ensures { let term = term_at self.old.code at in
            IfOk result (LeadsTo (λ a. runs term (running_of scope (Some body))
            (party_of a self.old) (over frame self.old a)) (under frame self.old) self.new) }
    {
        if self.depth >= MAX_DEPTH {
            return self.end_run(Halt::Depth);
        }
        self.push_body(scope, body)?;
        self.wait(frame, at)
    }

    /// Opens the scope of a body without a rest parameter.
    #[inline]
    fn prepare_listed(&mut self, at: u32, outer: u32, count: u32) -> Result<u32, OutOfMemory>
        ensures number { IfOk result (λ s. s ≡ length self.old.scopes) }
        ensures prepared { OnOk result (self.new ≡ with_slots at outer count None self.old) }
    {
        let row = self.template(at);
        let scope = self.open_slots(row, row.params, outer)?;
        self.bind_arguments(row.params, count, scope);
        Ok(scope)
    }

    /// Opens the scope of a body with a rest parameter.
    #[inline(never)]
    fn prepare_rest(&mut self, at: u32, outer: u32, count: u32) -> Result<u32, OutOfMemory>
        ensures number { IfOk result (λ s. s ≡ length self.old.scopes) }
        ensures prepared { OnOk result (self.new ≡ with_prepared true at outer count self.old) }
    {
        let row = self.template(at);
        let fixed = row.params.saturating_sub(1);
        let array = self.make_rest(at, count)?;
        let scope = self.open_slots(row, fixed + 1, outer)?;
        self.write_slot(scope, fixed, Value::Ref(array));
        self.bind_arguments(fixed, count, scope);
        Ok(scope)
    }

    /// Opens the scope of a body (ECMA-262, PrepareForOrdinaryCall, FunctionDeclarationInstantiation).
    #[inline]
    fn prepare(&mut self, at: u32, outer: u32, count: u32) -> Result<u32, OutOfMemory>
        ensures number { IfOk result (λ s. s ≡ length self.old.scopes) }
        ensures prepared { let rest = (row_of self.old at).rest in
            OnOk result (self.new ≡ with_prepared rest at outer count self.old) }
    {
        if self.template(at).rest {
            return self.prepare_rest(at, outer, count);
        }
        self.prepare_listed(at, outer, count)
    }

    /// The body of a template runs with so many arguments, and a frame waits for its end.
    #[inline(always)]
    pub fn run_body(
        &mut self,
        at: u32,
        outer: u32,
        count: u32,
        body: Body,
        frame: Frame,
    ) -> Result<Mode, OutOfMemory>
        ensures { let term = (out-Template (template_of self.old at)).body in
            let opened = running_of (length self.old.scopes) (Some body) in
            let args = args_on count self.old.values in
            let below = record self.old { values = drop count self.old.values } in
            IfOk result (LeadsTo (λ a. runs term opened
            (prepared (naming_of self.old.me) a.shared (template_of self.old at) outer args
            (party_of a self.old)) (over frame below a)) (under frame below) self.new) }
    {
        let row = self.template(at);
        let scope = self.prepare(at, outer, count)?;
        self.open_body(row.body, scope, body, frame)
    }
}
