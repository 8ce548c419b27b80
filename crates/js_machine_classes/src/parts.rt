// The parts of objects, arrays and classes, one after the other.

ghost use Rattle.std.specs.Prelude.{◌≡◌, ◌+◌, ◌-◌, ◌≤◌, ◌<◌, ◌∷◌, [], IfOk, None, OnOk, drop, false, length, suc, true};
ghost use Rattle.js_text.specs.Naming.{naming_of};
ghost use Rattle.js_code.specs.Decoded.{parts_of, term_at};
ghost use Rattle.js_code.specs.Tables.{part_of};
ghost use Rattle.js_machine.specs.js_run.Parts.{adds_item, data_part, define_on, defines, holder, is_array};
ghost use Rattle.js_store.specs.Objects.{object_at};
ghost use Rattle.js_machine.specs.Definitions.{GoesOnAs, HasHole, HasItem, HasOtherObjects, IsDefined, helper_into, with_held};
ghost use Rattle.js_text.specs.declared.value.Value.TheVariants as value_kind;
ghost use Rattle.js_machine.specs.Conversions.{Reaches};
ghost use Rattle.js_machine.specs.Decisions.{object_of_value};
ghost use Rattle.js_machine.specs.Parts.{accessor_part, function_fields, function_then, has_key, holders_of, key_then, operand_of, part_at, part_comes, part_valued, parts_go, reference_in, spread_helper, spread_then};
ghost use Rattle.js_machine.specs.Steps.{LeadsTo, deed_with, under};
ghost use Rattle.js_machine.specs.Views.{holding_on, party_of};
ghost use Rattle.js_machine.specs.declared.frame.Frame.TheVariants as frame_kind;
ghost use Rattle.js_machine.specs.declared.frame.Goal.TheVariants as goal_kind;

use crate::definitions::{add_hole, add_item, define_own, own_id};
use js_code::node::PartRow;
use js_desc::ask::Ask;
use js_desc::descriptor::PartialDescriptor;
use js_desc::fault::FaultText;
use js_machine::decisions::object_of_value;
use js_machine::frame::{Frame, Goal, Mode};
use js_machine::holding::{FunctionPart, Holding};
use js_machine::js_run::intrinsics::{COPY, FUNCTION_PROTOTYPE, INTO};
use js_machine::machine::Machine;
use js_machine::plain_keys::plain_key;
use js_store::store::Store;
use js_text::value::{Key, Value};
use lava_base::ids::{CommonId, ObjId, Ref};
use lava_base::list::List;
use lava_base::marks::Class;
use lava_base::memory::OutOfMemory;
use std::alloc::Global;

/// The object that a value is, and a common one where it is none.
pub fn reference_in(value: &Value) -> Ref
    ensures { result ≡ reference_in value.now }
{
    match value {
        Value::Ref(object) => *object,
        _ => Ref::Common(CommonId(0)),
    }
}

/// The first form that a part evaluates.
fn operand_of(row: PartRow) -> Option<u32>
    ensures { result ≡ operand_of row }
{
    match row {
        PartRow::Data { key, .. }
        | PartRow::Method { key, .. }
        | PartRow::Getter { key, .. }
        | PartRow::Setter { key, .. } => Some(key),
        PartRow::Spread(operand) | PartRow::Item(operand) => Some(operand),
        PartRow::Hole => None,
    }
}

/// Whether the first form of a part is its key.
fn has_key(row: PartRow) -> bool
    ensures { result ≡ has_key row }
{
    match row {
        PartRow::Data { .. }
        | PartRow::Method { .. }
        | PartRow::Getter { .. }
        | PartRow::Setter { .. } => true,
        PartRow::Spread(_) | PartRow::Item(_) | PartRow::Hole => false,
    }
}

/// The object on which a part with a function is defined.
fn holder(is_static: bool, holding: Holding) -> Ref
    ensures { result ≡ holder is_static (holders_of holding) }
{
    if is_static {
        return holding.constructor;
    }
    holding.instance
}

/// The fields of a part with a function.
fn function_fields(part: FunctionPart, enumerable: bool, function: Ref) -> PartialDescriptor
    ensures { result ≡ function_fields part enumerable function }
{
    match part {
        FunctionPart::Method => data_fields(enumerable, Value::Ref(function)),
        FunctionPart::Getter => accessor_fields(enumerable, Some(Some(function)), None),
        FunctionPart::Setter => accessor_fields(enumerable, None, Some(Some(function))),
    }
}

/// The fields of a part with a getter or a setter.
fn accessor_fields(
    enumerable: bool,
    get: Option<Option<Ref>>,
    set: Option<Option<Ref>>,
) -> PartialDescriptor
    ensures { result ≡ accessor_part enumerable get set }
{
    PartialDescriptor {
        value: None,
        writable: None,
        get,
        set,
        enumerable: Some(enumerable),
        configurable: Some(true),
    }
}

/// The fields of a part with a value (ECMA-262, CreateDataProperty).
fn data_fields(enumerable: bool, value: Value) -> PartialDescriptor
    ensures { result ≡ data_part enumerable value }
{
    PartialDescriptor {
        value: Some(value),
        writable: Some(true),
        get: None,
        set: None,
        enumerable: Some(enumerable),
        configurable: Some(true),
    }
}

/// The helper that copies what is spread.
fn spread_helper(into_array: bool) -> Ref
    ensures { result ≡ spread_helper into_array }
{
    if into_array {
        return Ref::Common(CommonId(INTO));
    }
    Ref::Common(CommonId(COPY))
}

/// Two values as a list.
fn pair(alloc: Global, first: Value, second: Value) -> Result<List<Value>, OutOfMemory>
    ensures { IfOk result (λ values. values ≡ first ∷ second ∷ []) }
{
    let mut values = Vec::new(alloc);
    values.push(first)?;
    values.push(second)?;
    Ok(List::from_vec(values))
}

/// The row of a part.
fn part<S: Store>(machine: &Machine<S>, at: u32) -> PartRow
    ensures { result ≡ part_at machine.now.code at }
{
    machine.code.part(at)
}

/// How many there are of so many parts from a place on.
#[tactic(auto, using(crate::proofs::Parted::part_most, crate::proofs::Parted::part_within))]
fn parts_there<S: Store>(machine: &Machine<S>, start: u32, count: u32) -> Result<u32, OutOfMemory>
    ensures there { let part = part_of start count machine.now.code.parts in
        IfOk result (λ n. n ≡ length part) }
    ensures fits { IfOk result (λ n. start + n ≤ 4294967296) }
    ensures within { IfOk result (λ n. n ≤ length machine.now.code.parts - start) }
{
    let there = machine.code.parts(start, count).len();
    if there > 4294967296 - start as usize {
        return Err(OutOfMemory);
    }
    Ok(there as u32)
}

/// The objects on which parts are defined come on the stack of values.
fn hold<S: Store>(machine: &mut Machine<S>, holding: Holding) -> Result<(), OutOfMemory>
    ensures { OnOk result (machine.new ≡ with_held holding machine.old) }
{
    machine.push(Value::Ref(holding.instance))?;
    machine.push(Value::Ref(holding.constructor))
}

/// The objects on which parts are defined are taken off the stack of values.
fn take_holding<S: Store>(machine: &mut Machine<S>, enumerable: bool) -> Holding
    ensures held { result ≡ holding_on enumerable machine.old.values }
    ensures rest { machine.new ≡ record machine.old { values = drop 2 machine.old.values } }
{
    let constructor = reference_in(&machine.take());
    let instance = reference_in(&machine.take());
    Holding {
        instance,
        constructor,
        enumerable,
    }
}

/// An array has one place more, which is empty.
fn add_hole_to<S: Store>(machine: &mut Machine<S>, array: Ref) -> Result<(), OutOfMemory>
    ensures hole { OnOk result (HasHole array machine.old machine.new) }
    ensures rest { OnOk result (HasOtherObjects machine.old machine.new) }
{
    match own_id(machine, array) {
        Some(id) => add_hole(machine, id),
        // No form gives another object that items are added to.
        None => Err(OutOfMemory),
    }
}

/// An array has one item more.
fn add_item_to<S: Store>(
    machine: &mut Machine<S>,
    array: Ref,
    value: Value,
) -> Result<(), OutOfMemory>
    ensures item { OnOk result (HasItem array value machine.old machine.new) }
    ensures rest { OnOk result (HasOtherObjects machine.old machine.new) }
{
    match own_id(machine, array) {
        Some(id) => add_item(machine, id, value),
        // No form gives another object that items are added to.
        None => Err(OutOfMemory),
    }
}

/// A property is defined; whether nothing forbids it.
fn define_in<S: Store>(
    machine: &mut Machine<S>,
    object: Ref,
    key: Key,
    fields: &PartialDescriptor,
) -> Result<bool, OutOfMemory>
    ensures defined { IfOk result (λ b. IsDefined object key fields.now b machine.old machine.new) }
    ensures rest { OnOk result (HasOtherObjects machine.old machine.new) }
    ensures refused { IfOk result (λ b. b ≡ false → machine.new ≡ machine.old) }
{
    match own_id(machine, object) {
        Some(id) => define_own(machine, id, key, fields),
        // No form gives another object on which parts are defined.
        None => Err(OutOfMemory),
    }
}

/// The holes that stand first are added to an array, and how many these are.
fn add_holes<S: Store>(
    machine: &mut Machine<S>,
    holding: Holding,
    start: u32,
    count: u32,
) -> Result<u32, OutOfMemory>
    requires there { count ≤ length machine.old.code.parts - start }
    requires fits { start + count ≤ 4294967296 }
    ensures most { IfOk result (λ n. n ≤ count) }
    ensures goes { IfOk result (λ n.
        GoesOnAs holding start count (start + n) (count - n) machine.old machine.new) }
    ensures rest { OnOk result (HasOtherObjects machine.old machine.new) }
{
    for i in 0..count {
        if operand_of(part(machine, start + i)).is_some() {
            return Ok(i);
        }
        add_hole_to(machine, holding.instance)?;
    }
    Ok(count)
}

/// A part begins, behind which so many stand.
fn begin_part<S: Store>(
    machine: &mut Machine<S>,
    holding: Holding,
    at: u32,
    left: u32,
) -> Result<Mode, OutOfMemory>
    requires { at < length machine.old.code.parts }
    ensures { let names = naming_of machine.old.me in
        let code = machine.old.code in
        IfOk result (LeadsTo (λ a. parts_go names a.shared code holding at (suc left)
        (party_of a machine.old)) machine.old machine.new) }
{
    match operand_of(part(machine, at)) {
        Some(operand) => {
            hold(machine, holding)?;
            let enumerable = holding.enumerable;
            let frame = Frame::Part {
                enumerable,
                at,
                left,
            };
            machine.wait(frame, operand)
        }
        // The holes that stand first are added already.
        None => Err(OutOfMemory),
    }
}

/// The next part begins; what all are for is given where there is no other (ECMA-262, PropertyDefinitionEvaluation).
pub fn next_part<S: Store>(
    machine: &mut Machine<S>,
    holding: Holding,
    start: u32,
    count: u32,
) -> Result<Mode, OutOfMemory>
    ensures { let names = naming_of machine.old.me in
        let code = machine.old.code in
        IfOk result (LeadsTo (λ a. parts_go names a.shared code holding start count
        (party_of a machine.old)) machine.old machine.new) }
{
    let there = parts_there(machine, start, count)?;
    let holes = add_holes(machine, holding, start, there)?;
    if holes == there {
        return machine.give(Value::Ref(holding.constructor));
    }
    begin_part(machine, holding, start + holes, there - holes - 1)
}

/// The part behind one begins.
fn part_behind<S: Store>(
    machine: &mut Machine<S>,
    holding: Holding,
    at: u32,
    left: u32,
) -> Result<Mode, OutOfMemory>
    ensures { let names = naming_of machine.old.me in
        let code = machine.old.code in
        IfOk result (LeadsTo (λ a. parts_go names a.shared code holding (suc at) left
        (party_of a machine.old)) machine.old machine.new) }
{
    if at == u32::MAX {
        return Err(OutOfMemory);
    }
    next_part(machine, holding, at + 1, left)
}

/// A property is defined, and the part behind it begins.
fn define_part<S: Store>(
    machine: &mut Machine<S>,
    holding: Holding,
    at: u32,
    left: u32,
    object: Ref,
    key: Key,
    fields: PartialDescriptor,
) -> Result<Mode, OutOfMemory>
    ensures { let names = naming_of machine.old.me in
        let code = machine.old.code in
        IfOk result (LeadsTo (λ a. defines names a.shared object key fields (party_of a machine.old)
        (parts_go names a.shared code holding (suc at) left)) machine.old machine.new) }
{
    if define_in(machine, object, key, &fields)? {
        return part_behind(machine, holding, at, left);
    }
    machine.fault(FaultText::CannotDefine)
}

/// The value of a part comes, whose key is there.
fn define_value<S: Store>(
    machine: &mut Machine<S>,
    holding: Holding,
    at: u32,
    left: u32,
    key: Value,
    value: Value,
) -> Result<Mode, OutOfMemory>
    ensures { let names = naming_of machine.old.me in
        let code = machine.old.code in
        IfOk result (LeadsTo (λ a. part_valued names a.shared code holding at left key value
        (party_of a machine.old)) machine.old machine.new) }
{
    let key = plain_key(machine.alloc, &key)?;
    let fields = data_fields(holding.enumerable, value);
    define_part(machine, holding, at, left, holding.instance, key, fields)
}

/// The key of a part comes, whose value begins.
fn part_key_comes<S: Store>(
    machine: &mut Machine<S>,
    holding: Holding,
    at: u32,
    left: u32,
    operand: u32,
    key: Value,
) -> Result<Mode, OutOfMemory>
    ensures { let names = naming_of machine.old.me in
        let code = machine.old.code in
        IfOk result (LeadsTo (λ a. key_then names a.shared code holding at left operand key
        (party_of a machine.old)) machine.old machine.new) }
{
    if object_of_value(&key).is_some() {
        // The key of an object wants a conversion.
        return Err(OutOfMemory);
    }
    hold(machine, holding)?;
    machine.push(key)?;
    let enumerable = holding.enumerable;
    let frame = Frame::PartValue {
        enumerable,
        at,
        left,
    };
    machine.wait(frame, operand)
}

/// The key of a part with a function comes: the function is made, and defined on its home (ECMA-262, MethodDefinitionEvaluation).
fn function_comes<S: Store>(
    machine: &mut Machine<S>,
    holding: Holding,
    at: u32,
    left: u32,
    home: Ref,
    template: u32,
    part: FunctionPart,
    key: Value,
) -> Result<Mode, OutOfMemory>
    ensures { let names = naming_of machine.old.me in
        let code = machine.old.code in
        IfOk result (LeadsTo (λ a. function_then names a.shared code holding at left home template
        part key (party_of a machine.old)) machine.old machine.new) }
{
    let key = plain_key(machine.alloc, &key)?;
    let function = machine.next_own();
    let prototype = Some(Ref::Common(CommonId(FUNCTION_PROTOTYPE)));
    machine.make_function(template, prototype, Some(home))?;
    let fields = function_fields(part, holding.enumerable, function);
    define_part(machine, holding, at, left, home, key, fields)
}

/// Whether an own object is an array.
fn is_array<S: Store>(machine: &Machine<S>, id: ObjId) -> bool
    requires { id.0 < length machine.now.objects }
    ensures { result ≡ is_array (object_at machine.now.objects id.0) }
{
    matches!(machine.store.marks(id).class, Class::Array)
}

/// The helper that copies into an object.
fn helper_into<S: Store>(machine: &Machine<S>, object: Ref) -> Result<Ref, OutOfMemory>
    ensures { IfOk result (λ r. r ≡ helper_into machine.now object) }
{
    match own_id(machine, object) {
        Some(id) => Ok(spread_helper(is_array(machine, id))),
        // No form gives another object on which parts are defined.
        None => Err(OutOfMemory),
    }
}

/// What is spread comes: a helper copies its properties into an object, or its items into an array.
fn spread<S: Store>(
    machine: &mut Machine<S>,
    holding: Holding,
    at: u32,
    left: u32,
    value: Value,
) -> Result<Mode, OutOfMemory>
    ensures { let names = naming_of machine.old.me in
        let code = machine.old.code in
        IfOk result (LeadsTo (λ a. spread_then names a.shared code holding at left value
        (party_of a machine.old)) machine.old machine.new) }
{
    if at == u32::MAX {
        return Err(OutOfMemory);
    }
    let helper = helper_into(machine, holding.instance)?;
    let args = pair(machine.alloc, Value::Ref(holding.instance), value)?;
    hold(machine, holding)?;
    let frame = Frame::Parts {
        enumerable: holding.enumerable,
        start: at + 1,
        count: left,
    };
    let this = Value::Undefined;
    machine.ask(helper, Ask::Call { this, args }, frame)
}

/// An item comes (ECMA-262, ArrayAccumulation).
fn item_comes<S: Store>(
    machine: &mut Machine<S>,
    holding: Holding,
    at: u32,
    left: u32,
    value: Value,
) -> Result<Mode, OutOfMemory>
    ensures { let names = naming_of machine.old.me in
        let code = machine.old.code in
        IfOk result (LeadsTo (λ a. parts_go names a.shared code holding (suc at) left
        (adds_item names a.shared holding.instance value (party_of a machine.old)))
        machine.old machine.new) }
{
    add_item_to(machine, holding.instance, value)?;
    part_behind(machine, holding, at, left)
}

/// The key of a part is an object, which becomes a primitive value.
fn convert_part<S: Store>(
    machine: &mut Machine<S>,
    holding: Holding,
    at: u32,
    left: u32,
    object: Ref,
) -> Result<Mode, OutOfMemory>
    requires { has_key (part_at machine.now.code at) ≡ true }
    ensures { let names = naming_of machine.old.me in
        let code = machine.old.code in
        let row = part_at code at in
        IfOk result (LeadsTo (λ a. part_comes names a.shared code holding at left row
        (value_kind.Ref object) (party_of a machine.old)) machine.old machine.new) }
{
    hold(machine, holding)?;
    let goal = Goal::Part {
        enumerable: holding.enumerable,
        at,
        left,
    };
    machine.convert_object(object, goal)
}

/// The first operand of a part comes, which is a key and an object, or no object.
fn operand_comes_to<S: Store>(
    machine: &mut Machine<S>,
    holding: Holding,
    at: u32,
    left: u32,
    value: Value,
) -> Result<Mode, OutOfMemory>
    ensures { let names = naming_of machine.old.me in
        let code = machine.old.code in
        let row = part_at code at in
        IfOk result (LeadsTo (λ a. part_comes names a.shared code holding at left row value
        (party_of a machine.old)) machine.old machine.new) }
{
    if !has_key(part(machine, at)) {
        return part_comes(machine, holding, at, left, value);
    }
    match object_of_value(&value) {
        Some(object) => convert_part(machine, holding, at, left, object),
        None => part_comes(machine, holding, at, left, value),
    }
}

/// The key of a part has become a primitive value.
fn part_primitive<S: Store>(
    machine: &mut Machine<S>,
    enumerable: bool,
    at: u32,
    left: u32,
    value: Value,
) -> Result<Mode, OutOfMemory>
    requires { object_of_value value ≡ None }
    ensures { let goal = goal_kind.Part enumerable at left in
        IfOk result (Reaches goal value machine.old machine.new) }
{
    if !has_key(part(machine, at)) {
        // No other part has a key.
        return Err(OutOfMemory);
    }
    let holding = take_holding(machine, enumerable);
    part_comes(machine, holding, at, left, value)
}

/// What became of the key of a part goes on, where it is a primitive value (ECMA-262, ToPropertyKey, steps 2 and 3).
pub fn reach_part<S: Store>(
    machine: &mut Machine<S>,
    enumerable: bool,
    at: u32,
    left: u32,
    value: Value,
) -> Result<Mode, OutOfMemory>
    ensures { let goal = goal_kind.Part enumerable at left in
        IfOk result (Reaches goal value machine.old machine.new) }
{
    match object_of_value(&value) {
        Some(_) => {
            machine.discard(2);
            machine.fault(FaultText::CannotConvert)
        }
        None => part_primitive(machine, enumerable, at, left, value),
    }
}

/// The first operand of a part comes.
fn part_comes<S: Store>(
    machine: &mut Machine<S>,
    holding: Holding,
    at: u32,
    left: u32,
    value: Value,
) -> Result<Mode, OutOfMemory>
    ensures { let names = naming_of machine.old.me in
        let code = machine.old.code in
        let row = part_at code at in
        IfOk result (LeadsTo (λ a. part_comes names a.shared code holding at left row value
        (party_of a machine.old)) machine.old machine.new) }
{
    match part(machine, at) {
        PartRow::Data { value: operand, .. } => {
            part_key_comes(machine, holding, at, left, operand, value)
        }
        PartRow::Method {
            is_static,
            template,
            ..
        } => {
            let home = holder(is_static, holding);
            function_comes(
                machine,
                holding,
                at,
                left,
                home,
                template,
                FunctionPart::Method,
                value,
            )
        }
        PartRow::Getter {
            is_static,
            template,
            ..
        } => {
            let home = holder(is_static, holding);
            function_comes(
                machine,
                holding,
                at,
                left,
                home,
                template,
                FunctionPart::Getter,
                value,
            )
        }
        PartRow::Setter {
            is_static,
            template,
            ..
        } => {
            let home = holder(is_static, holding);
            function_comes(
                machine,
                holding,
                at,
                left,
                home,
                template,
                FunctionPart::Setter,
                value,
            )
        }
        PartRow::Spread(_) => spread(machine, holding, at, left, value),
        PartRow::Item(_) => item_comes(machine, holding, at, left, value),
        PartRow::Hole => part_behind(machine, holding, at, left),
    }
}

/// The object comes on which parts are defined (ECMA-262, "Object Initializer", "Array Initializer").
pub fn define_comes<S: Store>(
    machine: &mut Machine<S>,
    start: u32,
    count: u32,
    value: Value,
) -> Result<Mode, OutOfMemory>
    ensures { let names = naming_of machine.old.me in
        let parts = parts_of machine.old.code (term_at machine.old.code) start count in
        IfOk result (LeadsTo (λ a. define_on names a.shared parts value
        (party_of a machine.old)) machine.old machine.new) }
{
    match object_of_value(&value) {
        Some(object) => {
            let holding = Holding {
                instance: object,
                constructor: object,
                enumerable: true,
            };
            next_part(machine, holding, start, count)
        }
        None => machine.fault(FaultText::NotAnObject),
    }
}

/// The first operand of a part comes to the frame that has the objects on which parts are defined.
pub fn part_operand_comes<S: Store>(
    machine: &mut Machine<S>,
    enumerable: bool,
    at: u32,
    left: u32,
    value: Value,
) -> Result<Mode, OutOfMemory>
    ensures { let part = frame_kind.Part enumerable at left in
        IfOk result (LeadsTo (deed_with part value machine.old) (under part machine.old)
        machine.new) }
{
    let holding = take_holding(machine, enumerable);
    operand_comes_to(machine, holding, at, left, value)
}

/// The value of a part comes to the frame that has its key and the objects on which parts are defined.
pub fn part_value_comes<S: Store>(
    machine: &mut Machine<S>,
    enumerable: bool,
    at: u32,
    left: u32,
    value: Value,
) -> Result<Mode, OutOfMemory>
    ensures { let part = frame_kind.PartValue enumerable at left in
        IfOk result (LeadsTo (deed_with part value machine.old) (under part machine.old)
        machine.new) }
{
    let key = machine.take();
    let holding = take_holding(machine, enumerable);
    define_value(machine, holding, at, left, key, value)
}

/// The parts go on, whatever value comes.
pub fn parts_follow<S: Store>(
    machine: &mut Machine<S>,
    enumerable: bool,
    start: u32,
    count: u32,
    value: Value,
) -> Result<Mode, OutOfMemory>
    ensures { let parts = frame_kind.Parts enumerable start count in
        IfOk result (LeadsTo (deed_with parts value machine.old) (under parts machine.old)
        machine.new) }
{
    let holding = take_holding(machine, enumerable);
    next_part(machine, holding, start, count)
}
