// What a `require` does: which module a request names, and the errors where it names none.

ghost use Rattle.std.specs.Prelude.{◌≡◌, IfOk, OnOk, Some, slice_get};
ghost use Rattle.std.specs.Map.{lookup};
ghost use Rattle.js_text.specs.Naming.{naming_of};
ghost use Rattle.js_text.specs.Texts.{same_units};
ghost use Rattle.js_machine.specs.js_run.Modules.{loaded_at, mapped, not_allowed, requires_builtin, requires_by, requires_path, requires_there, throws_plain_error};
ghost use Rattle.js_machine.specs.js_run.Requests.{not_found_text};
ghost use Rattle.js_machine.specs.Requested.{begun_at, first_place, first_text, mapped_given, module_in, module_path, place_at, place_from, request_in, requires_given, with_plain_error};
ghost use Rattle.js_machine.specs.Steps.{LeadsTo};
ghost use Rattle.js_machine.specs.Views.{party_of};
ghost use Rattle.js_machine.specs.Ways.{object_in};
ghost use Rattle.js_machine.specs.declared.frame.Mode.TheVariants as mode_kind;

use crate::modules::{evaluate_module, require_package, wait_for_exports};
use crate::requests::{
    candidates, directory_of, is_builtin, is_relative, link_of, not_allowed_text, not_found_text,
    parts_of, resolved,
};
use js_desc::ask::Ask;
use js_desc::fault::FaultText;
use js_machine::faults::{add_error, message_key};
use js_machine::frame::{Halt, Mode, halt_number};
use js_machine::js_run::intrinsics::ERROR_PROTOTYPE;
use js_machine::machine::Machine;
use js_machine::package::Module;
use js_ordinary::target::{find_target, slot};
use js_store::slot::{Held, Slot};
use js_store::store::Store;
use js_text::copy::copy_value;
use js_text::fault::TextFault;
use js_text::text::{Text, from_units};
use js_text::value::Value;
use lava_base::ids::{CommonId, Ref};
use lava_base::list::List;
use lava_base::memory::OutOfMemory;

/// The first value, where it is a text.
fn first_text(values: &[Value]) -> Result<Option<Text>, OutOfMemory>
    ensures { IfOk result (λ text. text ≡ first_text values.now) }
{
    match values.first() {
        Some(Value::Text(text)) => Ok(Some(text.copy()?)),
        _ => Ok(None),
    }
}

/// The request of a call, where it is a text.
fn request_in(ask: &Ask) -> Result<Option<Text>, OutOfMemory>
    ensures { IfOk result (λ text. text ≡ request_in ask.now) }
{
    match ask {
        Ask::Call { args, .. } => first_text(args.as_slice()),
        _ => Ok(None),
    }
}

/// The module of a `require`.
fn module_in(slot: &Slot) -> u32
    ensures { result ≡ module_in slot.now }
{
    match slot {
        Slot::Held(Held::Require { module }) => *module,
        _ => 0,
    }
}

/// The number of the module with a path.
fn module_of(modules: &[Module], path: &Text) -> Option<usize>
    ensures { result ≡ place_from 0 modules.now path.now }
{
    for (place, module) in modules.iter().enumerate() {
        if module.path.is_same(path) {
            return Some(place);
        }
    }
    None
}

/// The value of a request, where there is one.
fn value_of(mapped: &[(Text, Value)], request: &Text) -> Result<Option<Value>, OutOfMemory>
    ensures { IfOk result (λ value. value ≡ lookup (same_units request.now) mapped.now) }
{
    for (name, value) in mapped {
        if request.is_same(name) {
            return Ok(Some(copy_value(value)?));
        }
    }
    Ok(None)
}

/// Makes an error of no other kind and throws it.
fn throw_plain_text<S: Store>(machine: &mut Machine<S>, message: Text) -> Result<Mode, OutOfMemory>
    ensures mode { IfOk result (λ m. m ≡ mode_kind.Throw) }
    ensures thrown { OnOk result (machine.new ≡ with_plain_error message machine.old) }
{
    let prototype = Ref::Common(CommonId(ERROR_PROTOTYPE));
    let key = message_key(machine.alloc)?;
    let id = add_error(&mut machine.store, prototype, key, message)?;
    let error = machine.own(id.0);
    machine.push(Value::Ref(error))?;
    Ok(Mode::Throw)
}

/// Makes an error of no other kind and throws it; the run ends where its text would be too long (ECMA-262, "Error Objects").
#[tactic(auto, using(crate::proofs::Required::plain_too_long))]
pub fn throw_plain<S: Store>(machine: &mut Machine<S>, message: &[u16]) -> Result<Mode, OutOfMemory>
    ensures { let names = naming_of machine.old.me in
        IfOk result (LeadsTo (λ a. throws_plain_error names message.now (party_of a machine.old))
        machine.old machine.new) }
{
    match from_units(machine.alloc, message) {
        Ok(text) => throw_plain_text(machine, text),
        Err(TextFault::TooLong) => Ok(Mode::End(halt_number(Halt::Text))),
        Err(_) => Err(OutOfMemory),
    }
}

/// A request names nothing.
pub fn not_found<S: Store>(machine: &mut Machine<S>, request: &[u16]) -> Result<Mode, OutOfMemory>
    ensures { let names = naming_of machine.old.me in
        let message = not_found_text request.now in
        IfOk result (LeadsTo (λ a. throws_plain_error names message (party_of a machine.old))
        machine.old machine.new) }
{
    let message = not_found_text(machine.alloc, request)?;
    throw_plain(machine, message.as_slice())
}

/// The canonical name of the party's package.
fn package_name<S: Store>(machine: &Machine<S>) -> Result<List<u16>, OutOfMemory>
    ensures { IfOk result (λ units. units ≡ machine.now.own_package.name) }
{
    machine.own_package.name.to_units(machine.alloc)
}

/// A request is not allowed.
pub fn not_allowed<S: Store>(machine: &mut Machine<S>, request: &[u16]) -> Result<Mode, OutOfMemory>
    ensures { let names = naming_of machine.old.me in
        IfOk result (LeadsTo (λ a. not_allowed names request.now (party_of a machine.old))
        machine.old machine.new) }
{
    let name = package_name(machine)?;
    let message = not_allowed_text(machine.alloc, name.as_slice(), request)?;
    throw_plain(machine, message.as_slice())
}

/// The number of the module with a path.
pub fn numbered<S: Store>(machine: &Machine<S>, path: &Text) -> Result<Option<u32>, OutOfMemory>
    ensures { IfOk result (λ n. n ≡ place_from 0 machine.now.own_package.modules path.now) }
{
    match module_of(&machine.own_package.modules, path) {
        None => Ok(None),
        Some(place) => {
            if place > u32::MAX as usize {
                return Err(OutOfMemory);
            }
            Ok(Some(place as u32))
        }
    }
}

/// The number of the module that has the first of these paths which any has.
fn first_module<S: Store>(machine: &Machine<S>, paths: &[Text]) -> Result<Option<u32>, OutOfMemory>
    ensures { IfOk result (λ n. n ≡ first_place machine.now.own_package.modules paths.now) }
{
    for path in paths {
        if let Some(number) = numbered(machine, path)? {
            return Ok(Some(number));
        }
    }
    Ok(None)
}

/// The number of the module that a path leads to from a directory of the package.
pub fn module_at<S: Store>(
    machine: &Machine<S>,
    dir: List<List<u16>>,
    path: &[u16],
) -> Result<Option<u32>, OutOfMemory>
    ensures { let modules = machine.now.own_package.modules in
        IfOk result (λ n. n ≡ place_at modules dir path.now) }
{
    match resolved(machine.alloc, dir, path)? {
        None => Ok(None),
        Some(there) => {
            let paths = candidates(machine.alloc, there.as_slice())?;
            first_module(machine, paths.as_slice())
        }
    }
}

/// The path of a module, and nothing where there is none.
fn path_of<S: Store>(machine: &Machine<S>, number: u32) -> Result<List<u16>, OutOfMemory>
    ensures { let there = slice_get machine.now.own_package.modules number in
        IfOk result (λ path. path ≡ module_path there) }
{
    match machine.own_package.modules.get(number as usize) {
        None => Ok(List::new(machine.alloc)),
        Some(module) => module.path.to_units(machine.alloc),
    }
}

/// The module object of a module, if it has begun, and where there is such a module.
pub fn begun<S: Store>(machine: &Machine<S>, number: u32) -> Option<Option<u32>>
    ensures { result ≡ begun_at machine.now number }
{
    match machine.own_package.modules.get(number as usize) {
        None => None,
        Some(module) => Some(module.begun),
    }
}

/// The module of a `require` that is an object.
fn module_here<S: Store>(machine: &Machine<S>, me: Ref) -> u32
    ensures { result ≡ module_in (object_in machine.now me).slot }
{
    match find_target(&machine.store, &machine.common, me) {
        None => 0,
        Some(target) => module_in(slot(&machine.store, &machine.common, target)),
    }
}

/// What the builtin gives, if it may be required (LavaMoat policy, builtin).
fn require_builtin<S: Store>(machine: &mut Machine<S>, request: &[u16]) -> Result<Mode, OutOfMemory>
    ensures { let names = naming_of machine.old.me in
        let builtin = machine.old.own_package.builtin in
        IfOk result (LeadsTo (λ a. requires_builtin names request.now builtin (party_of a
        machine.old)) machine.old machine.new) }
{
    match builtin(machine)? {
        None => not_allowed(machine, request),
        Some(value) => machine.give(value),
    }
}

/// The builtin of the package.
fn builtin<S: Store>(machine: &Machine<S>) -> Result<Option<Value>, OutOfMemory>
    ensures { IfOk result (λ value. value ≡ machine.now.own_package.builtin) }
{
    match &machine.own_package.builtin {
        None => Ok(None),
        Some(value) => Ok(Some(copy_value(value)?)),
    }
}

/// A module that is there is required.
fn require_numbered<S: Store>(
    machine: &mut Machine<S>,
    number: u32,
    request: &[u16],
) -> Result<Mode, OutOfMemory>
    ensures { let names = naming_of machine.old.me in
        IfOk result (LeadsTo (λ a. let p = party_of a machine.old in
        requires_there names request.now (Some number) (loaded_at names (Some number) p) p)
        machine.old machine.new) }
{
    match begun(machine, number) {
        None => not_found(machine, request),
        Some(None) => evaluate_module(machine, number),
        Some(Some(object)) => wait_for_exports(machine, object),
    }
}

/// The module that a path leads to is required, where there is one.
fn require_there<S: Store>(
    machine: &mut Machine<S>,
    number: Option<u32>,
    request: &[u16],
) -> Result<Mode, OutOfMemory>
    ensures { let names = naming_of machine.old.me in
        IfOk result (LeadsTo (λ a. let p = party_of a machine.old in
        requires_there names request.now number (loaded_at names number p) p) machine.old
        machine.new) }
{
    match number {
        None => not_found(machine, request),
        Some(number) => require_numbered(machine, number, request),
    }
}

/// A path is required that is relative to the directory of a module.
fn require_path<S: Store>(
    machine: &mut Machine<S>,
    number: u32,
    request: &[u16],
) -> Result<Mode, OutOfMemory>
    ensures { let names = naming_of machine.old.me in
        let path = module_path (slice_get machine.old.own_package.modules number) in
        IfOk result (LeadsTo (λ a. requires_path names path request.now (party_of a machine.old))
        machine.old machine.new) }
{
    let path = path_of(machine, number)?;
    let dir = directory_of(machine.alloc, path.as_slice())?;
    let there = module_at(machine, dir, request)?;
    require_there(machine, there, request)
}

/// A request of a module.
fn require<S: Store>(
    machine: &mut Machine<S>,
    number: u32,
    request: &[u16],
) -> Result<Mode, OutOfMemory>
    ensures { let names = naming_of machine.old.me in
        let path = module_path (slice_get machine.old.own_package.modules number) in
        IfOk result (LeadsTo (λ a. requires_by names path request.now (party_of a machine.old))
        machine.old machine.new) }
{
    let parts = parts_of(machine.alloc, request)?;
    if is_relative(parts.as_slice()) {
        return require_path(machine, number, request);
    }
    if is_builtin(request) {
        return require_builtin(machine, request);
    }
    let there = link_of(machine.alloc, parts.as_slice())?;
    require_package(machine, there.0, there.1, request)
}

/// The request of the call that is asked, where it is a text.
fn request<S: Store>(machine: &Machine<S>) -> Result<Option<Text>, OutOfMemory>
    ensures { IfOk result (λ text. text ≡ request_in machine.now.asked.ask) }
{
    request_in(&machine.asked.ask)
}

/// The value of a request of the texts that a compartment evaluates, where there is one.
fn mapped_value<S: Store>(
    machine: &Machine<S>,
    request: &Text,
) -> Result<Option<Value>, OutOfMemory>
    ensures { let own = machine.now.own_package in
        IfOk result (λ value. value ≡ lookup (same_units request.now) own.mapped) }
{
    value_of(&machine.own_package.mapped, request)
}

/// A module's `require` is called (LavaMoat, require).
pub fn call_require<S: Store>(machine: &mut Machine<S>, me: Ref) -> Result<Mode, OutOfMemory>
    ensures { let names = naming_of machine.old.me in
        let there = module_in (object_in machine.old me).slot in
        let request = request_in machine.old.asked.ask in
        IfOk result (LeadsTo (λ a. requires_given names there request (party_of a machine.old))
        machine.old machine.new) }
{
    let number = module_here(machine, me);
    match crate::require_calls::request(machine)? {
        None => machine.fault(FaultText::CannotConvert),
        Some(request) => {
            let units = request.to_units(machine.alloc)?;
            require(machine, number, units.as_slice())
        }
    }
}

/// A request of the texts that a compartment evaluates (SES, Compartment, modules).
fn require_mapped<S: Store>(machine: &mut Machine<S>, request: &Text) -> Result<Mode, OutOfMemory>
    ensures { let names = naming_of machine.old.me in
        let value = lookup (same_units request.now) machine.old.own_package.mapped in
        IfOk result (LeadsTo (λ a. mapped names request.now value (party_of a machine.old))
        machine.old machine.new) }
{
    match mapped_value(machine, request)? {
        Some(value) => machine.give(value),
        None => {
            let units = request.to_units(machine.alloc)?;
            not_found(machine, units.as_slice())
        }
    }
}

/// The `require` of a made party is called.
pub fn call_mapped<S: Store>(machine: &mut Machine<S>) -> Result<Mode, OutOfMemory>
    ensures { let names = naming_of machine.old.me in
        let request = request_in machine.old.asked.ask in
        IfOk result (LeadsTo (λ a. mapped_given names request (party_of a machine.old))
        machine.old machine.new) }
{
    match request(machine)? {
        None => machine.fault(FaultText::CannotConvert),
        Some(request) => require_mapped(machine, &request),
    }
}
