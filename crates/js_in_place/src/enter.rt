// The body of a plain function begins.

ghost use Rattle.std.specs.Prelude.{◌≡◌, ◌≤◌, ◌∷◌, ℕ, IfOk, None, OnOk, drop, false, length, replicate, suc, true};
ghost use Rattle.js_machine.specs.Called.{called_body, needs_new};
ghost use Rattle.js_machine.specs.Closures.{runs_closure};
ghost use Rattle.js_machine.specs.Filling.{with_arguments, with_open_scope};
ghost use Rattle.js_machine.specs.Made.{row_of};
ghost use Rattle.js_machine.specs.Opened.{with_slots};
ghost use Rattle.js_machine.specs.Steps.{LeadsTo};
ghost use Rattle.js_machine.specs.Views.{args_on, party_of};
ghost use Rattle.js_machine.specs.declared.closures.Closure.{Closure};
ghost use Rattle.js_text.specs.Naming.{naming_of};
ghost use Rattle.js_text.specs.declared.value.Value.TheVariants as value;

use js_code::node::TemplateRow;
use js_desc::decision::BodyId;
use js_machine::body::Body;
use js_machine::closures::Closure;
use js_machine::frame::{Frame, Mode};
use js_machine::js_run::MAX_DEPTH;
use js_machine::machine::Machine;
use js_machine_calls::calls::template_place;
use js_machine_calls::closures::run_listed;
use js_store::store::Store;
use js_term::term::TemplateKind;
use js_text::value::Value;
use lava_base::ids::Ref;
use lava_base::memory::OutOfMemory;

/// Whether a call of a function with this row opens a body, and gives each argument a slot of its own.
#[inline(always)]
fn is_plain(row: TemplateRow) -> bool
    ensures rest { result ≡ true → row.rest ≡ false }
    ensures kind { result ≡ true → needs_new row.kind ≡ false }
{
    if row.rest {
        return false;
    }
    match row.kind {
        TemplateKind::Base => false,
        TemplateKind::Derived => false,
        _ => true,
    }
}

/// So many arguments are taken off the stack of values, and are in the first slots of a scope.
#[inline(always)]
fn take_all<S: Store>(machine: &mut Machine<S>, count: u32, scope: u32)
    requires { count ≤ length machine.old.values }
    ensures { machine.new ≡ with_arguments count count scope machine.old }
{
    let mut left = count;
    while left > 0 {
        left -= 1;
        let value = machine.take();
        machine.write_slot(scope, left, value);
    }
}

/// Opens a scope in which no body stands yet.
#[inline(always)]
fn open_bare<S: Store>(machine: &mut Machine<S>, outer: u32, count: u32) -> Result<u32, OutOfMemory>
    ensures number { IfOk result (λ s. s ≡ length machine.old.scopes) }
    ensures opened { let slots = replicate count None in
        OnOk result (machine.new ≡ with_open_scope outer slots machine.old) }
{
    machine.scopes.open_empty(outer, count)
}

/// Opens the scope of a body where each parameter has an argument on the stack of values, and no other slot starts with a value.
#[inline(always)]
fn open_full<S: Store>(
    machine: &mut Machine<S>,
    row: TemplateRow,
    outer: u32,
) -> Result<u32, OutOfMemory>
    requires there { row.params ≤ length machine.old.values }
    requires slots { row.params ≤ row.slots }
    requires none { row.undefined_count ≡ 0 }
    ensures number { IfOk result (λ s. s ≡ length machine.old.scopes) }
    ensures opened { (at : ℕ) → row ≡ row_of machine.old at
        → OnOk result (machine.new ≡ with_slots at outer row.params None machine.old) }
{
    let scope = open_bare(machine, outer, row.slots)?;
    take_all(machine, row.params, scope);
    Ok(scope)
}

/// Opens the scope of a body without a rest parameter, with so many arguments from the stack of values.
#[inline]
fn open_any<S: Store>(
    machine: &mut Machine<S>,
    row: TemplateRow,
    outer: u32,
    count: u32,
) -> Result<u32, OutOfMemory>
    ensures number { IfOk result (λ s. s ≡ length machine.old.scopes) }
    ensures opened { (at : ℕ) → row ≡ row_of machine.old at
        → OnOk result (machine.new ≡ with_slots at outer count None machine.old) }
{
    let scope = machine.open_slots(row, row.params, outer)?;
    machine.bind_arguments(row.params, count, scope);
    Ok(scope)
}

/// Opens the scope of a body without a rest parameter, with so many arguments from the stack of values (ECMA-262, FunctionDeclarationInstantiation).
#[inline(always)]
fn open_scope<S: Store>(
    machine: &mut Machine<S>,
    row: TemplateRow,
    outer: u32,
    count: u32,
) -> Result<u32, OutOfMemory>
    ensures number { IfOk result (λ s. s ≡ length machine.old.scopes) }
    ensures opened { (at : ℕ) → row ≡ row_of machine.old at
        → OnOk result (machine.new ≡ with_slots at outer count None machine.old) }
{
    let there = machine.given(count);
    if there != row.params || row.params > row.slots || row.undefined_count != 0 {
        return open_any(machine, row, outer, count);
    }
    open_full(machine, row, outer)
}

/// The body of a function is open, and stands in a scope (ECMA-262, PrepareForOrdinaryCall).
#[inline(always)]
#[tactic(auto, using(js_machine::proofs::Reversed::reverse_push))]
fn push_body<S: Store>(
    machine: &mut Machine<S>,
    scope: u32,
    kind: TemplateKind,
    function: Ref,
    home: Option<Ref>,
) -> Result<(), OutOfMemory>
    ensures { let body = called_body scope kind function home None value.Undefined in
        let bodies = body ∷ machine.old.bodies in
        let depth = suc machine.old.depth in
        OnOk result (machine.new ≡ record machine.old { bodies = bodies; depth = depth }) }
{
    if machine.depth == u32::MAX {
        return Err(OutOfMemory);
    }
    let back = machine.scope;
    machine.bodies.push(Body {
        kind,
        back,
        this: Some(Value::Undefined),
        new_target: None,
        function: Some(function),
        home,
    })?;
    machine.scope = scope;
    machine.depth += 1;
    Ok(())
}

/// The body of a function that took nothing begins by the machine's own steps.
#[cold]
#[inline(never)]
fn enter_listed<S: Store>(
    machine: &mut Machine<S>,
    function: Ref,
    body: BodyId,
    home: Option<Ref>,
    count: u32,
) -> Result<Mode, OutOfMemory>
    ensures { let names = naming_of machine.old.me in
        let args = args_on count machine.old.values in
        let below = record machine.old { values = drop count machine.old.values } in
        let closure : Closure = record { home = home; lexical = None } in
        IfOk result (LeadsTo (λ a. runs_closure names a.shared function body closure
        value.Undefined args None (party_of a machine.old)) below machine.new) }
{
    let lexical = None;
    let closure = Closure { home, lexical };
    run_listed(
        machine,
        function,
        body,
        closure,
        Value::Undefined,
        None,
        count,
    )
}

/// The body of a function of the party that took nothing begins with so many arguments, which are on the stack of values (ECMA-262, "ECMAScript Function Objects", [[Call]]).
#[inline(always)]
pub fn enter_plain<S: Store>(
    machine: &mut Machine<S>,
    function: Ref,
    body: BodyId,
    home: Option<Ref>,
    count: u32,
) -> Result<Mode, OutOfMemory>
    ensures { (id : ℕ) → let names = naming_of machine.old.me in
        let args = args_on count machine.old.values in
        let below = record machine.old { values = drop count machine.old.values } in
        let closure : Closure = record { home = home; lexical = None } in
        function ≡ names.own id
        → IfOk result (LeadsTo (λ a. runs_closure names a.shared function body closure
        value.Undefined args None (party_of a machine.old)) below machine.new) }
{
    let at = template_place(machine, body.template);
    let row = machine.template(at);
    if machine.depth >= MAX_DEPTH || !is_plain(row) {
        return enter_listed(machine, function, body, home, count);
    }
    let scope = open_scope(machine, row, body.scope, count)?;
    push_body(machine, scope, row.kind, function, home)?;
    machine.wait(Frame::Called, row.body)
}

/// The body of a function of the party begins with so many arguments, which are on the stack of values.
#[inline(always)]
pub fn enter<S: Store>(
    machine: &mut Machine<S>,
    function: Ref,
    body: BodyId,
    closure: Closure,
    count: u32,
) -> Result<Mode, OutOfMemory>
    ensures { (id : ℕ) → let names = naming_of machine.old.me in
        let args = args_on count machine.old.values in
        let below = record machine.old { values = drop count machine.old.values } in
        function ≡ names.own id
        → IfOk result (LeadsTo (λ a. runs_closure names a.shared function body closure
        value.Undefined args None (party_of a machine.old)) below machine.new) }
{
    match &closure.lexical {
        None => enter_plain(machine, function, body, closure.home, count),
        Some(_) => run_listed(
            machine,
            function,
            body,
            closure,
            Value::Undefined,
            None,
            count,
        ),
    }
}
