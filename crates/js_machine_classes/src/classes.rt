// Classes.

ghost use Rattle.std.specs.Prelude.{◌≡◌, ◌++◌, ◌∷◌, [], IfOk, OnOk, Some, length, option_map, suc};
ghost use Rattle.js_text.specs.Naming.{naming_of};
ghost use Rattle.js_text.specs.declared.value.Value.TheVariants as value_kind;
ghost use Rattle.js_desc.specs.declared.ask.Ask.TheVariants as ask_kind;
ghost use Rattle.js_machine.specs.js_operations.Names.{proto_value};
ghost use Rattle.js_code.specs.Decoded.{term_at, text_at};
ghost use Rattle.js_machine.specs.js_run.Acts.{asks, with_value};
ghost use Rattle.js_machine.specs.js_run.Functions.{prototype_key};
ghost use Rattle.js_machine.specs.js_run.Parts.{class_defined, class_value};
ghost use Rattle.js_machine.specs.Classes.{class_parts, class_row, constructor_of, parent_comes, prototype_comes};
ghost use Rattle.js_machine.specs.Constructors.{IsTemplateOf, class_holding, class_instance, class_prototype, object_or_null, with_class};
ghost use Rattle.js_machine.specs.Made.{new_function, second_own};
ghost use Rattle.js_machine.specs.Steps.{LeadsTo, deed_with, under};
ghost use Rattle.js_machine.specs.Views.{party_of};
ghost use Rattle.js_machine.specs.declared.frame.Frame.TheVariants as frame_kind;

use crate::defaults::default_place;
use crate::parts::{next_part, reference_in};
use js_code::node::ClassRow;
use js_desc::ask::Ask;
use js_desc::fault::FaultText;
use js_machine::frame::{Frame, Mode};
use js_machine::functions::{add_function, constructs, hidden, own};
use js_machine::holding::Holding;
use js_machine::js_run::intrinsics::{FUNCTION_PROTOTYPE, OBJECT_PROTOTYPE};
use js_machine::keys::KnownKeys;
use js_machine::machine::Machine;
use js_store::slot::Slot;
use js_store::store::{PLAIN_MARKS, Store};
use js_text::text::Text;
use js_text::value::Value;
use lava_base::ids::{CommonId, Ref};
use lava_base::memory::OutOfMemory;

/// Makes the object that instances inherit from, and then the constructor (ECMA-262, MakeClassConstructor, MakeConstructor).
#[tactic(auto, using(js_machine::proofs::Faulted::last_within))]
fn add_class<S: Store>(
    store: &mut S,
    keys: &KnownKeys,
    above: Option<Ref>,
    over: Ref,
    constructor: bool,
    slot: Slot,
    arity: u32,
    name: Text,
) -> Result<(), OutOfMemory>
    ensures made { let count = length (S.objects store.old) in
        let names = naming_of (S.owner store.old).0 in
        let instance = class_instance above (names.own (suc count)) in
        let prototype = class_prototype (names.own count) in
        let function = new_function (Some over) constructor slot arity name (prototype ∷ []) in
        let made = (S.objects store.old ++ instance ∷ []) ++ function ∷ [] in
        OnOk result (S.objects store.new ≡ made) }
    ensures party { S.owner store.new ≡ S.owner store.old }
{
    let party = store.party();
    let instances = store.make(above, PLAIN_MARKS, Slot::Plain)?;
    let constructor_key = keys.constructor()?;
    let back = hidden(own(party, store.count()), true, true);
    store.apply(instances, constructor_key, back)?;
    let id = add_function(store, keys, Some(over), constructor, slot, arity, name)?;
    let prototype_key = keys.prototype()?;
    let prototype = hidden(own(party, instances.0), false, false);
    store.apply(id, prototype_key, prototype)?;
    Ok(())
}

/// The object or null that a value is.
fn object_or_null(value: &Value) -> Option<Option<Ref>>
    ensures { result ≡ object_or_null value.now }
{
    match value {
        Value::Ref(object) => Some(Some(*object)),
        Value::Null => Some(None),
        _ => None,
    }
}

/// The row of a class.
fn class_row<S: Store>(machine: &Machine<S>, class: u32) -> ClassRow
    ensures { result ≡ class_row machine.now.code class }
{
    machine.code.class(class)
}

/// The template of a class's constructor (ECMA-262, ClassDefinitionEvaluation, step 14). Want of memory is answered too where a class without one has been added to the code since the machine was made.
#[tactic(auto, unfolding(js_machine::specs::Defaults::KnowsTemplates))]
fn constructor_template<S: Store>(
    machine: &Machine<S>,
    class: u32,
    row: ClassRow,
    derived: bool,
) -> Result<u32, OutOfMemory>
    ensures { IfOk result (λ at. IsTemplateOf row derived at machine.now) }
{
    match row.constructor {
        Some(template) => Ok(template),
        None => default_place(
            &machine.code,
            &machine.default_templates,
            class,
            row.name,
            derived,
        ),
    }
}

/// The object after the next one.
fn second_own<S: Store>(machine: &Machine<S>) -> Result<Ref, OutOfMemory>
    ensures { IfOk result (λ r. r ≡ second_own machine.now) }
{
    let count = machine.store.count();
    if count == u32::MAX {
        return Err(OutOfMemory);
    }
    Ok(machine.own(count + 1))
}

/// Makes a class (ECMA-262, MakeClassConstructor).
#[tactic(auto, using(js_machine::proofs::Reversed::reverse_push))]
fn make_class<S: Store>(
    machine: &mut Machine<S>,
    template: u32,
    above: Option<Ref>,
    over: Ref,
) -> Result<Holding, OutOfMemory>
    ensures objects { IfOk result (λ h. h ≡ class_holding machine.old) }
    ensures made { OnOk result (machine.new ≡ with_class template above over machine.old) }
{
    let row = machine.code.template(template);
    let name = machine.code.text(row.name).copy()?;
    let instance = machine.next_own();
    let constructor = second_own(machine)?;
    let slot = machine.closure(row.kind, Some(instance))?;
    let constructs = constructs(row.kind);
    let (store, keys) = (&mut machine.store, &machine.keys);
    add_class(store, keys, above, over, constructs, slot, row.length, name)?;
    machine.templates.push(template)?;
    Ok(Holding {
        instance,
        constructor,
        enumerable: false,
    })
}

/// A class is made, and its parts begin (ECMA-262, ClassDefinitionEvaluation).
fn define_class<S: Store>(
    machine: &mut Machine<S>,
    class: u32,
    row: ClassRow,
    derived: bool,
    above: Option<Ref>,
    over: Ref,
) -> Result<Mode, OutOfMemory>
    ensures { let names = naming_of machine.old.me in
        let code = machine.old.code in
        let name = text_at code row.name in
        IfOk result (LeadsTo (λ a. class_defined names a.shared name derived (constructor_of code
        row) (class_parts code row) above over (party_of a machine.old)) machine.old machine.new) }
{
    let template = constructor_template(machine, class, row, derived)?;
    let holding = make_class(machine, template, above, over)?;
    next_part(machine, holding, row.start, row.count)
}

/// What `prototype` of the parent is, is there (ECMA-262, ClassDefinitionEvaluation, step 8).
fn class_above<S: Store>(
    machine: &mut Machine<S>,
    class: u32,
    parent: Ref,
    value: Value,
) -> Result<Mode, OutOfMemory>
    ensures { let names = naming_of machine.old.me in
        let code = machine.old.code in
        IfOk result (LeadsTo (λ a. prototype_comes names a.shared code class parent value
        (party_of a machine.old)) machine.old machine.new) }
{
    let row = class_row(machine, class);
    match object_or_null(&value) {
        Some(above) => define_class(machine, class, row, true, above, parent),
        None => machine.fault(FaultText::NotAnObject),
    }
}

/// A parent is asked for its `prototype`.
fn ask_prototype<S: Store>(
    machine: &mut Machine<S>,
    class: u32,
    parent: Ref,
) -> Result<Mode, OutOfMemory>
    ensures { let names = naming_of machine.old.me in
        let code = machine.old.code in
        let get = ask_kind.Get prototype_key (value_kind.Ref parent) in
        IfOk result (LeadsTo (λ a. asks names parent get (party_of a machine.old)
        (with_value (prototype_comes names a.shared code class parent))) machine.old machine.new) }
{
    let key = machine.keys.prototype()?;
    let receiver = Value::Ref(parent);
    machine.push(Value::Ref(parent))?;
    machine.ask(
        parent,
        Ask::Get { key, receiver },
        Frame::ClassPrototype { class },
    )
}

/// The parent of a class is an object: its `prototype` is asked for, where it constructs.
fn class_over<S: Store>(
    machine: &mut Machine<S>,
    class: u32,
    parent: Ref,
) -> Result<Mode, OutOfMemory>
    ensures { let names = naming_of machine.old.me in
        let code = machine.old.code in
        IfOk result (LeadsTo (λ a. parent_comes names a.shared code class (value_kind.Ref parent)
        (party_of a machine.old)) machine.old machine.new) }
{
    if machine.marks_of(parent).constructor {
        return ask_prototype(machine, class, parent);
    }
    machine.fault(FaultText::NotAConstructor)
}

/// The parent of a class is an object or null.
fn class_under<S: Store>(
    machine: &mut Machine<S>,
    class: u32,
    parent: Option<Ref>,
) -> Result<Mode, OutOfMemory>
    ensures { let names = naming_of machine.old.me in
        let code = machine.old.code in
        IfOk result (LeadsTo (λ a. parent_comes names a.shared code class (proto_value parent)
        (party_of a machine.old)) machine.old machine.new) }
{
    match parent {
        Some(parent) => class_over(machine, class, parent),
        None => {
            let row = class_row(machine, class);
            let over = Ref::Common(CommonId(FUNCTION_PROTOTYPE));
            define_class(machine, class, row, true, None, over)
        }
    }
}

/// The parent of a class comes (ECMA-262, ClassDefinitionEvaluation, step 8).
pub fn parent_comes<S: Store>(
    machine: &mut Machine<S>,
    class: u32,
    value: Value,
) -> Result<Mode, OutOfMemory>
    ensures { let names = naming_of machine.old.me in
        let code = machine.old.code in
        IfOk result (LeadsTo (λ a. parent_comes names a.shared code class value
        (party_of a machine.old)) machine.old machine.new) }
{
    match object_or_null(&value) {
        Some(parent) => class_under(machine, class, parent),
        None => machine.fault(FaultText::NotAConstructor),
    }
}

/// What `prototype` of the parent is comes to the frame that has the parent.
pub fn class_prototype_comes<S: Store>(
    machine: &mut Machine<S>,
    class: u32,
    value: Value,
) -> Result<Mode, OutOfMemory>
    ensures { let above = frame_kind.ClassPrototype class in
        IfOk result (LeadsTo (deed_with above value machine.old) (under above machine.old)
        machine.new) }
{
    let parent = reference_in(&machine.take());
    class_above(machine, class, parent, value)
}

/// A class begins.
pub fn begin_class<S: Store>(machine: &mut Machine<S>, class: u32) -> Result<Mode, OutOfMemory>
    ensures { let names = naming_of machine.old.me in
        let code = machine.old.code in
        let row = class_row code class in
        IfOk result (LeadsTo (λ a. class_value names a.shared (text_at code row.name)
        (option_map (term_at code) row.parent) (constructor_of code row) (class_parts code row)
        (party_of a machine.old)) machine.old machine.new) }
{
    let row = class_row(machine, class);
    match row.parent {
        Some(parent) => machine.wait(Frame::ClassParent { class }, parent),
        None => {
            let above = Some(Ref::Common(CommonId(OBJECT_PROTOTYPE)));
            let over = Ref::Common(CommonId(FUNCTION_PROTOTYPE));
            define_class(machine, class, row, false, above, over)
        }
    }
}
