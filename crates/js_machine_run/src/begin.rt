// What the machine does first at each form.

ghost use Rattle.std.specs.Prelude.{◌≡◌, ◌+◌, IfOk, drop};
ghost use Rattle.lava_base.specs.declared.ids.Ref.TheVariants as ref;
ghost use Rattle.js_text.specs.Naming.{naming_of};
ghost use Rattle.js_text.specs.declared.value.Symbol.TheVariants as symbol;
ghost use Rattle.js_machine.specs.js_run.Control.{all_values};
ghost use Rattle.js_code.specs.Decoded.{layer_of, term_at, terms_of, text_at};
ghost use Rattle.js_term.specs.declared.term.Term.{out-Term};
ghost use Rattle.js_machine.specs.js_run.Acts.{give};
ghost use Rattle.js_text.specs.declared.value.Value.TheVariants as text_value;
ghost use Rattle.js_machine.specs.Steps.{IsBegun, LeadsTo, Waits};
ghost use Rattle.js_machine.specs.Views.{applied, args_on, held, party_of};
ghost use Rattle.js_machine.specs.declared.frame.Frame.TheVariants as frame_kind;
ghost use Rattle.js_machine.specs.declared.frame.Purpose.TheVariants as purpose_kind;

use crate::arguments::next_argument;
use js_code::node::Node;
use js_in_place::js_machine_calls::supers::begin_super_new;
use js_in_place::js_machine_statements::blocks::{begin_scope, refresh};
use js_in_place::js_machine_statements::jumps::{
    begin_break, begin_continue, begin_return, begin_return_value,
};
use js_in_place::js_machine_statements::loops::begin_loop;
use js_in_place::js_machine_statements::places::{begin_new_target, begin_this};
use js_in_place::js_machine_statements::sequences::in_order;
use js_in_place::js_machine_statements::slots::get_slot;
use js_in_place::js_machine_statements::tries::begin_try;
use js_machine::frame::{Frame, Halt, Mode, Purpose};
use js_machine::machine::Machine;
use js_machine_classes::classes::begin_class;
use js_machine_operators::globals::{begin_global, begin_set_global};
use js_store::store::Store;
use js_text::native::Native;
use js_text::value::{Symbol, Value};
use js_tree::operator::{BinaryOperator, LogicalOperator, UnaryOperator};
use lava_base::ids::{CommonId, Ref};
use lava_base::memory::OutOfMemory;

/// The row of a place.
pub fn node<S: Store>(machine: &Machine<S>, at: u32) -> Node
    ensures { let low = term_at machine.now.code in
        out-Term (low at) ≡ layer_of machine.now.code low result }
{
    machine.code.node(at)
}

/// A literal that is a text.
fn give_text<S: Store>(machine: &mut Machine<S>, at: u32) -> Result<Mode, OutOfMemory>
    ensures { let text = text_at machine.old.code at in
        IfOk result (LeadsTo (λ a. give (text_value.Text text) (party_of a machine.old)) machine.old
        machine.new) }
{
    let text = machine.code.text(at).copy()?;
    machine.give(Value::Text(text))
}

/// The value undefined.
#[inline]
fn give_undefined<S: Store>(machine: &mut Machine<S>) -> Result<Mode, OutOfMemory>
    ensures { IfOk result (LeadsTo (λ a. give (text_value.Undefined) (party_of a machine.old)) machine.old
        machine.new) }
{
    machine.give(Value::Undefined)
}

/// The value null.
#[inline]
fn give_null<S: Store>(machine: &mut Machine<S>) -> Result<Mode, OutOfMemory>
    ensures { IfOk result (LeadsTo (λ a. give (text_value.Null) (party_of a machine.old)) machine.old
        machine.new) }
{
    machine.give(Value::Null)
}

/// A truth value.
#[inline]
fn give_truth<S: Store>(machine: &mut Machine<S>, truth: bool) -> Result<Mode, OutOfMemory>
    ensures { IfOk result (LeadsTo (λ a. give (text_value.Bool truth) (party_of a machine.old)) machine.old
        machine.new) }
{
    machine.give(Value::Bool(truth))
}

/// An integer.
#[inline]
fn give_integer<S: Store>(machine: &mut Machine<S>, n: i64) -> Result<Mode, OutOfMemory>
    ensures { IfOk result (LeadsTo (λ a. give (text_value.Int n) (party_of a machine.old)) machine.old
        machine.new) }
{
    machine.give(Value::Int(n))
}

/// An object of the common part.
#[inline]
fn give_common<S: Store>(machine: &mut Machine<S>, id: u32) -> Result<Mode, OutOfMemory>
    ensures { IfOk result (LeadsTo (λ a. give (text_value.Ref (ref.Common (record { 0 = id }))) (party_of a machine.old)) machine.old
        machine.new) }
{
    machine.give(Value::Ref(Ref::Common(CommonId(id))))
}

/// The symbol of iterators.
#[inline]
fn give_iterator<S: Store>(machine: &mut Machine<S>) -> Result<Mode, OutOfMemory>
    ensures { IfOk result (LeadsTo (λ a. give (text_value.Symbol symbol.Iterator) (party_of a machine.old)) machine.old
        machine.new) }
{
    machine.give(Value::Symbol(Symbol::Iterator))
}

/// A slot waits for its value.
#[inline]
fn wait_local<S: Store>(
    machine: &mut Machine<S>,
    hops: u32,
    slot: u32,
    constant: bool,
    value: u32,
) -> Result<Mode, OutOfMemory>
    ensures { let frame = frame_kind.SetLocal hops slot constant in
        IfOk result (Waits frame value machine.old machine.new) }
{
    machine.wait(
        Frame::SetLocal {
            hops,
            slot,
            constant,
        },
        value,
    )
}

/// A slot waits for its first value.
#[inline]
fn wait_first<S: Store>(
    machine: &mut Machine<S>,
    hops: u32,
    slot: u32,
    value: u32,
) -> Result<Mode, OutOfMemory>
    ensures { let frame = frame_kind.Init hops slot in
        IfOk result (Waits frame value machine.old machine.new) }
{
    machine.wait(Frame::Init { hops, slot }, value)
}

/// An operator waits for its operand.
#[inline]
fn wait_operand<S: Store>(
    machine: &mut Machine<S>,
    operator: UnaryOperator,
    operand: u32,
) -> Result<Mode, OutOfMemory>
    ensures { let frame = frame_kind.Unary operator in
        IfOk result (Waits frame operand machine.old machine.new) }
{
    machine.wait(Frame::Unary { operator }, operand)
}

/// A binary operator waits for its left operand.
#[inline]
fn wait_left<S: Store>(
    machine: &mut Machine<S>,
    operator: BinaryOperator,
    left: u32,
    right: u32,
) -> Result<Mode, OutOfMemory>
    ensures { let frame = frame_kind.BinaryLeft operator right in
        IfOk result (Waits frame left machine.old machine.new) }
{
    machine.wait(Frame::BinaryLeft { operator, right }, left)
}

/// A logical operator waits for its left operand.
#[inline]
fn wait_short<S: Store>(
    machine: &mut Machine<S>,
    operator: LogicalOperator,
    left: u32,
    right: u32,
) -> Result<Mode, OutOfMemory>
    ensures { let frame = frame_kind.ShortLeft operator right in
        IfOk result (Waits frame left machine.old machine.new) }
{
    machine.wait(Frame::ShortLeft { operator, right }, left)
}

/// A branch without an alternate waits for its test.
#[inline]
fn wait_test<S: Store>(
    machine: &mut Machine<S>,
    test: u32,
    consequent: u32,
) -> Result<Mode, OutOfMemory>
    ensures { let frame = frame_kind.If consequent in
        IfOk result (Waits frame test machine.old machine.new) }
{
    machine.wait(Frame::If { consequent }, test)
}

/// A branch waits for its test.
#[inline]
fn wait_choice<S: Store>(
    machine: &mut Machine<S>,
    test: u32,
    consequent: u32,
    alternate: u32,
) -> Result<Mode, OutOfMemory>
    ensures { let frame = frame_kind.IfElse consequent alternate in
        IfOk result (Waits frame test machine.old machine.new) }
{
    machine.wait(
        Frame::IfElse {
            consequent,
            alternate,
        },
        test,
    )
}

/// A label waits for its body.
#[inline]
fn wait_label<S: Store>(
    machine: &mut Machine<S>,
    label: u32,
    body: u32,
) -> Result<Mode, OutOfMemory>
    ensures { let frame = frame_kind.Label label in
        IfOk result (Waits frame body machine.old machine.new) }
{
    machine.wait(Frame::Label { label }, body)
}

/// A throw waits for its value.
#[inline]
fn wait_thrown<S: Store>(machine: &mut Machine<S>, value: u32) -> Result<Mode, OutOfMemory>
    ensures { let frame = frame_kind.Throw in
        IfOk result (Waits frame value machine.old machine.new) }
{
    machine.wait(Frame::Throw, value)
}

/// A property waits for its object.
#[inline]
fn wait_object<S: Store>(
    machine: &mut Machine<S>,
    object: u32,
    key: u32,
) -> Result<Mode, OutOfMemory>
    ensures { let frame = frame_kind.GetObject key in
        IfOk result (Waits frame object machine.old machine.new) }
{
    machine.wait(Frame::GetObject { key }, object)
}

/// A property that is set waits for its object.
#[inline]
fn wait_target<S: Store>(
    machine: &mut Machine<S>,
    object: u32,
    key: u32,
    value: u32,
) -> Result<Mode, OutOfMemory>
    ensures { let frame = frame_kind.PutObject key value in
        IfOk result (Waits frame object machine.old machine.new) }
{
    machine.wait(Frame::PutObject { key, value }, object)
}

/// A property that is deleted waits for its object.
#[inline]
fn wait_deleted<S: Store>(
    machine: &mut Machine<S>,
    object: u32,
    key: u32,
) -> Result<Mode, OutOfMemory>
    ensures { let frame = frame_kind.DeleteObject key in
        IfOk result (Waits frame object machine.old machine.new) }
{
    machine.wait(Frame::DeleteObject { key }, object)
}

/// A property of `super` waits for its key.
#[inline]
fn wait_super<S: Store>(machine: &mut Machine<S>, key: u32) -> Result<Mode, OutOfMemory>
    ensures { let frame = frame_kind.SuperKey in
        IfOk result (Waits frame key machine.old machine.new) }
{
    machine.wait(Frame::SuperKey, key)
}

/// A call waits for what it calls.
#[inline]
fn wait_callee<S: Store>(
    machine: &mut Machine<S>,
    callee: u32,
    arguments: u32,
) -> Result<Mode, OutOfMemory>
    ensures { let frame = frame_kind.Callee arguments in
        IfOk result (Waits frame callee machine.old machine.new) }
{
    machine.wait(Frame::Callee { arguments }, callee)
}

/// A construction waits for what constructs.
#[inline]
fn wait_constructor<S: Store>(
    machine: &mut Machine<S>,
    callee: u32,
    arguments: u32,
) -> Result<Mode, OutOfMemory>
    ensures { let frame = frame_kind.NewCallee arguments in
        IfOk result (Waits frame callee machine.old machine.new) }
{
    machine.wait(Frame::NewCallee { arguments }, callee)
}

/// A call of a method waits for its object.
#[inline]
fn wait_receiver<S: Store>(
    machine: &mut Machine<S>,
    object: u32,
    key: u32,
    arguments: u32,
) -> Result<Mode, OutOfMemory>
    ensures { let frame = frame_kind.CallObject key arguments in
        IfOk result (Waits frame object machine.old machine.new) }
{
    machine.wait(Frame::CallObject { key, arguments }, object)
}

/// A call of a method of `super` waits for its key.
#[inline]
fn wait_method<S: Store>(
    machine: &mut Machine<S>,
    key: u32,
    arguments: u32,
) -> Result<Mode, OutOfMemory>
    ensures { let frame = frame_kind.CallSuperKey arguments in
        IfOk result (Waits frame key machine.old machine.new) }
{
    machine.wait(Frame::CallSuperKey { arguments }, key)
}

/// Parts wait for their object.
#[inline]
fn wait_defined<S: Store>(
    machine: &mut Machine<S>,
    object: u32,
    start: u32,
    count: u32,
) -> Result<Mode, OutOfMemory>
    ensures { let frame = frame_kind.Define start count in
        IfOk result (Waits frame object machine.old machine.new) }
{
    machine.wait(Frame::Define { start, count }, object)
}

/// The operands of a native begin.
#[inline]
fn begin_native<S: Store>(
    machine: &mut Machine<S>,
    which: Native,
    start: u32,
    count: u32,
) -> Result<Mode, OutOfMemory>
    ensures { let terms = terms_of machine.old.code (term_at machine.old.code) start count in
        let purpose = purpose_kind.Native which in
        let args = args_on 0 machine.old.values in
        let below = drop 0 machine.old.values in
        let rest = record machine.old { values = drop (0 + held purpose) machine.old.values } in
        IfOk result (LeadsTo (λ a. all_values terms args (party_of a machine.old)
        (applied (naming_of machine.old.me) a.shared purpose below)) rest machine.new) }
{
    next_argument(machine, Purpose::Native { which }, 0, start, count)
}

/// Begins a form, whose own step is paid.
#[tactic(auto, using(js_machine::proofs::Leads::begun_ok))]
pub fn begin<S: Store>(machine: &mut Machine<S>, at: u32) -> Result<Mode, OutOfMemory>
    ensures { IfOk result (IsBegun at machine.old machine.new) }
{
    match node(machine, at) {
        Node::Undefined => give_undefined(machine),
        Node::Null => give_null(machine),
        Node::Bool(truth) => give_truth(machine, truth),
        Node::Int(n) => give_integer(machine, n),
        Node::Text(text) => give_text(machine, text),
        Node::Iterator => give_iterator(machine),
        Node::Common(id) => give_common(machine, id),
        Node::Outside => machine.end_run(Halt::Number),
        Node::Local { hops, slot } => get_slot(machine, hops, slot),
        Node::SetLocal {
            hops,
            slot,
            constant,
            value,
        } => wait_local(machine, hops, slot, constant, value),
        Node::Init { hops, slot, value } => wait_first(machine, hops, slot, value),
        Node::Unary { operator, operand } => wait_operand(machine, operator, operand),
        Node::Binary {
            operator,
            left,
            right,
        } => wait_left(machine, operator, left, right),
        Node::Short {
            operator,
            left,
            right,
        } => wait_short(machine, operator, left, right),
        Node::If { test, consequent } => wait_test(machine, test, consequent),
        Node::IfElse {
            test,
            consequent,
            alternate,
        } => wait_choice(machine, test, consequent, alternate),
        Node::Scope { slots, body } => begin_scope(machine, slots, body),
        Node::Fresh => refresh(machine),
        Node::Loop { turns, tests_first } => begin_loop(machine, turns, tests_first),
        Node::Label { label, body } => wait_label(machine, label, body),
        Node::Throw { value } => wait_thrown(machine, value),
        Node::Seq { start, count } => in_order(machine, start, count),
        Node::This => begin_this(machine),
        Node::NewTarget => begin_new_target(machine),
        Node::Break { label } => begin_break(machine, label),
        Node::Continue { label } => begin_continue(machine, label),
        Node::Return => begin_return(machine),
        Node::ReturnValue { value } => begin_return_value(machine, value),
        Node::Try { guarded } => begin_try(machine, guarded),
        Node::Get { object, key } => wait_object(machine, object, key),
        Node::Put { object, key, value } => wait_target(machine, object, key, value),
        Node::Delete { object, key } => wait_deleted(machine, object, key),
        Node::SuperGet { key } => wait_super(machine, key),
        Node::Global { name, soft } => begin_global(machine, name, soft),
        Node::SetGlobal { name, value } => begin_set_global(machine, name, value),
        Node::Func { template } => machine.begin_function(template),
        Node::Call { callee, arguments } => wait_callee(machine, callee, arguments),
        Node::New { callee, arguments } => wait_constructor(machine, callee, arguments),
        Node::CallOn {
            object,
            key,
            arguments,
        } => wait_receiver(machine, object, key, arguments),
        Node::CallSuper { key, arguments } => wait_method(machine, key, arguments),
        Node::SuperNew { arguments } => begin_super_new(machine, arguments),
        Node::Define {
            object,
            start,
            count,
        } => wait_defined(machine, object, start, count),
        Node::Class { class } => begin_class(machine, class),
        Node::Native {
            native,
            start,
            count,
        } => begin_native(machine, native, start, count),
    }
}
