// Functions of a source that run.

ghost use Rattle.std.specs.Prelude.{◌≡◌, IfOk, drop};
ghost use Rattle.js_text.specs.Naming.{naming_of};
ghost use Rattle.js_machine.specs.js_run.Bodies.{run_function};
ghost use Rattle.js_machine.specs.Closures.{closure_in, outer_of, runs_closure};
ghost use Rattle.js_machine.specs.Steps.{LeadsTo};
ghost use Rattle.js_machine.specs.Views.{args_on, party_of};
ghost use Rattle.js_machine.specs.Ways.{object_in};

use crate::calls::{run_template, template_place};
use js_desc::decision::BodyId;
use js_desc::fault::FaultText;
use js_machine::closures::Closure;
use js_machine::frame::Mode;
use js_machine::machine::Machine;
use js_ordinary::target::{find_target, slot};
use js_store::slot::{Lexical, Slot};
use js_store::store::Store;
use js_text::copy::copy_value;
use js_text::value::Value;
use lava_base::ids::Ref;
use lava_base::list::List;
use lava_base::memory::OutOfMemory;

/// The same value once more, if there is one.
fn copy_this(this: &Option<Value>) -> Result<Option<Value>, OutOfMemory>
    ensures { IfOk result (λ copy. copy ≡ this.now) }
{
    match this {
        None => Ok(None),
        Some(value) => Ok(Some(copy_value(value)?)),
    }
}

/// What an arrow took, once more.
#[inline]
fn copy_lexical(lexical: &Option<Lexical>) -> Result<Option<Lexical>, OutOfMemory>
    ensures { IfOk result (λ copy. copy ≡ lexical.now) }
{
    match lexical {
        None => Ok(None),
        Some(taken) => {
            let this = copy_this(&taken.this)?;
            Ok(Some(Lexical {
                this,
                new_target: taken.new_target,
                function: taken.function,
            }))
        }
    }
}

/// What a slot keeps for a function of a source.
#[inline]
pub fn closure_in(slot: &Slot) -> Result<Option<Closure>, OutOfMemory>
    ensures { IfOk result (λ closure. closure ≡ closure_in slot.now) }
{
    match slot {
        Slot::Closure { home, lexical, .. } => {
            let lexical = copy_lexical(lexical)?;
            Ok(Some(Closure {
                home: *home,
                lexical,
            }))
        }
        _ => Ok(None),
    }
}

/// What an object keeps, if it is a function of a source.
#[inline]
pub fn closure_at<S: Store>(machine: &Machine<S>, me: Ref) -> Result<Option<Closure>, OutOfMemory>
    ensures { let slot = (object_in machine.now me).slot in
        IfOk result (λ closure. closure ≡ closure_in slot) }
{
    match find_target(&machine.store, &machine.common, me) {
        None => Ok(None),
        Some(target) => closure_in(slot(&machine.store, &machine.common, target)),
    }
}

/// Where the body of a function stands: one of the common part in the outermost scope.
#[inline]
fn outer_scope<S: Store>(machine: &Machine<S>, me: Ref, scope: u32) -> u32
    ensures { result ≡ outer_of ((naming_of machine.now.me).origin me) scope }
{
    match me {
        Ref::Own { party, .. } if party.0 == machine.store.party().0 => scope,
        _ => 0,
    }
}

/// The body of a function runs (ECMA-262, "ECMAScript Function Objects", [[Call]] and [[Construct]]).
pub fn run_function<S: Store>(
    machine: &mut Machine<S>,
    me: Ref,
    body: BodyId,
    this: Value,
    args: List<Value>,
    target: Option<Ref>,
) -> Result<Mode, OutOfMemory>
    ensures { let names = naming_of machine.old.me in
        IfOk result (LeadsTo (λ a. run_function names a.shared me body this args target
        (party_of a machine.old)) machine.old machine.new) }
{
    match closure_at(machine, me)? {
        None => machine.fault(FaultText::NotAFunction),
        Some(closure) => run_closure(machine, me, body, closure, this, args, target),
    }
}

/// A function of a source runs with so many arguments, which are on the stack of values.
#[inline(always)]
pub fn run_listed<S: Store>(
    machine: &mut Machine<S>,
    me: Ref,
    body: BodyId,
    closure: Closure,
    this: Value,
    target: Option<Ref>,
    count: u32,
) -> Result<Mode, OutOfMemory>
    ensures { let names = naming_of machine.old.me in
        let args = args_on count machine.old.values in
        let below = record machine.old { values = drop count machine.old.values } in
        IfOk result (LeadsTo (λ a. runs_closure names a.shared me body closure this args target
        (party_of a machine.old)) below machine.new) }
{
    let at = template_place(machine, body.template);
    let outer = outer_scope(machine, me, body.scope);
    run_template(
        machine,
        at,
        me,
        outer,
        closure.home,
        closure.lexical,
        this,
        target,
        count,
    )
}

/// A function of a source runs with these arguments.
fn run_closure<S: Store>(
    machine: &mut Machine<S>,
    me: Ref,
    body: BodyId,
    closure: Closure,
    this: Value,
    args: List<Value>,
    target: Option<Ref>,
) -> Result<Mode, OutOfMemory>
    ensures { let names = naming_of machine.old.me in
        IfOk result (LeadsTo (λ a. runs_closure names a.shared me body closure this args target
        (party_of a machine.old)) machine.old machine.new) }
{
    if args.len() > u32::MAX as usize {
        return Err(OutOfMemory);
    }
    let count = args.len() as u32;
    machine.push_arguments(&args)?;
    run_listed(machine, me, body, closure, this, target, count)
}
