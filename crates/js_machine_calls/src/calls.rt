// What runs when a function is called or constructs.

ghost use Rattle.std.specs.Prelude.{◌≡◌, IfOk, None, Some, drop};
ghost use Rattle.js_text.specs.Naming.{naming_of};
ghost use Rattle.js_term.specs.declared.term.TemplateKind.TheVariants as template_kind;
ghost use Rattle.js_machine.specs.js_run.Bodies.{call_by_kind, construct_by_kind, run_template};
ghost use Rattle.js_machine.specs.Bodies.{running_of};
ghost use Rattle.js_machine.specs.Called.{called_body, needs_new, template_numbered};
ghost use Rattle.js_machine.specs.Made.{row_of};
ghost use Rattle.js_machine.specs.Opened.{template_of};
ghost use Rattle.js_machine.specs.Steps.{LeadsTo};
ghost use Rattle.js_machine.specs.Views.{args_on, party_of};

use crate::constructions::construct_base;
use js_desc::fault::FaultText;
use js_machine::asked::Construction;
use js_machine::body::Body;
use js_machine::frame::{Frame, Mode};
use js_machine::machine::Machine;
use js_store::slot::Lexical;
use js_store::store::Store;
use js_term::term::TemplateKind;
use js_text::value::Value;
use lava_base::ids::Ref;
use lava_base::memory::OutOfMemory;

/// Whether a function of a kind only constructs.
#[inline]
fn needs_new(kind: TemplateKind) -> bool
    ensures { result ≡ needs_new kind }
{
    matches!(kind, TemplateKind::Base | TemplateKind::Derived)
}

/// The body of a call, which has yet to stand in a scope (ECMA-262, OrdinaryCallBindThis).
#[inline(always)]
fn called_body(
    kind: TemplateKind,
    function: Ref,
    home: Option<Ref>,
    lexical: Option<Lexical>,
    this: Value,
) -> Body
    ensures { running_of 0 (Some result) ≡ called_body 0 kind function home lexical this }
{
    match lexical {
        None => Body {
            kind,
            back: 0,
            this: Some(this),
            new_target: None,
            function: Some(function),
            home,
        },
        Some(taken) => Body {
            kind,
            back: 0,
            this: taken.this,
            new_target: taken.new_target,
            function: taken.function,
            home,
        },
    }
}

/// The place of the template of a number.
#[inline]
#[tactic(auto, using(crate::proofs::Numbered::in_common, crate::proofs::Numbered::in_own, crate::proofs::Numbered::nowhere), unfolding(js_machine::specs::Defaults::KnowsTemplates))]
pub fn template_place<S: Store>(machine: &Machine<S>, number: u32) -> u32
    ensures { template_of machine.now result ≡ template_numbered machine.now number }
{
    let number = number as usize;
    let below = machine.common_templates.len();
    if number < below {
        return machine.common_templates[number];
    }
    if number - below < machine.templates.len() {
        return machine.templates[number - below];
    }
    machine.empty_template
}

/// The body of a function is called, by the kind of its template (ECMA-262, "ECMAScript Function Objects", [[Call]]).
#[inline(always)]
pub fn call_by_kind<S: Store>(
    machine: &mut Machine<S>,
    at: u32,
    function: Ref,
    outer: u32,
    home: Option<Ref>,
    lexical: Option<Lexical>,
    this: Value,
    count: u32,
) -> Result<Mode, OutOfMemory>
    ensures { let names = naming_of machine.old.me in
        let template = template_of machine.old at in
        let args = args_on count machine.old.values in
        let below = record machine.old { values = drop count machine.old.values } in
        IfOk result (LeadsTo (λ a. call_by_kind names a.shared (row_of machine.old at).kind function
        template outer home lexical this args (party_of a machine.old)) below machine.new) }
{
    let kind = machine.template(at).kind;
    if needs_new(kind) {
        machine.drop_arguments(count);
        return machine.fault(FaultText::ClassNeedsNew);
    }
    let body = called_body(kind, function, home, lexical, this);
    machine.run_body(at, outer, count, body, Frame::Called)
}

/// The body of the constructor of a class with a parent runs.
pub fn construct_derived<S: Store>(
    machine: &mut Machine<S>,
    at: u32,
    function: Ref,
    outer: u32,
    home: Option<Ref>,
    target: Ref,
    count: u32,
) -> Result<Mode, OutOfMemory>
    ensures { let names = naming_of machine.old.me in
        let template = template_of machine.old at in
        let args = args_on count machine.old.values in
        let below = record machine.old { values = drop count machine.old.values } in
        IfOk result (LeadsTo (λ a. construct_by_kind names a.shared template_kind.Derived
        function template outer home target args (party_of a machine.old)) below machine.new) }
{
    let body = Body {
        kind: machine.template(at).kind,
        back: 0,
        this: None,
        new_target: Some(target),
        function: Some(function),
        home,
    };
    machine.run_body(at, outer, count, body, Frame::Derived)
}

/// The body of a constructor of the common part runs.
pub fn construct_built<S: Store>(
    machine: &mut Machine<S>,
    at: u32,
    function: Ref,
    outer: u32,
    home: Option<Ref>,
    target: Ref,
    count: u32,
) -> Result<Mode, OutOfMemory>
    ensures { let names = naming_of machine.old.me in
        let template = template_of machine.old at in
        let args = args_on count machine.old.values in
        let below = record machine.old { values = drop count machine.old.values } in
        IfOk result (LeadsTo (λ a. construct_by_kind names a.shared template_kind.Built function
        template outer home target args (party_of a machine.old)) below machine.new) }
{
    let body = Body {
        kind: machine.template(at).kind,
        back: 0,
        this: Some(Value::Undefined),
        new_target: Some(target),
        function: Some(function),
        home,
    };
    machine.run_body(at, outer, count, body, Frame::Built)
}

/// The body of a constructor runs, by the kind of its template (ECMA-262, "ECMAScript Function Objects", [[Construct]]).
pub fn construct_by_kind<S: Store>(
    machine: &mut Machine<S>,
    at: u32,
    function: Ref,
    outer: u32,
    home: Option<Ref>,
    target: Ref,
    count: u32,
) -> Result<Mode, OutOfMemory>
    ensures { let names = naming_of machine.old.me in
        let template = template_of machine.old at in
        let args = args_on count machine.old.values in
        let below = record machine.old { values = drop count machine.old.values } in
        IfOk result (LeadsTo (λ a. construct_by_kind names a.shared (row_of machine.old at).kind
        function template outer home target args (party_of a machine.old)) below machine.new) }
{
    match machine.template(at).kind {
        TemplateKind::Derived => {
            construct_derived(machine, at, function, outer, home, target, count)
        }
        TemplateKind::Built => construct_built(machine, at, function, outer, home, target, count),
        _ => {
            let construction = Construction {
                at,
                function,
                outer,
                home,
                target,
            };
            construct_base(machine, construction, count)
        }
    }
}

/// The body of a function runs with so many arguments.
#[inline(always)]
pub fn run_template<S: Store>(
    machine: &mut Machine<S>,
    at: u32,
    function: Ref,
    outer: u32,
    home: Option<Ref>,
    lexical: Option<Lexical>,
    this: Value,
    target: Option<Ref>,
    count: u32,
) -> Result<Mode, OutOfMemory>
    ensures { let names = naming_of machine.old.me in
        let template = template_of machine.old at in
        let args = args_on count machine.old.values in
        let below = record machine.old { values = drop count machine.old.values } in
        IfOk result (LeadsTo (λ a. run_template names a.shared function template outer home
        lexical this args target (party_of a machine.old)) below machine.new) }
{
    match target {
        None => call_by_kind(machine, at, function, outer, home, lexical, this, count),
        Some(target) => construct_by_kind(machine, at, function, outer, home, target, count),
    }
}
