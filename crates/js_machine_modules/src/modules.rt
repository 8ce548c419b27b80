// Modules are evaluated, and import from other packages.

ghost use Rattle.std.specs.Prelude.{◌≡◌, ◌++◌, ◌∷◌, [], IfOk, OnOk, None, Some, length, true};
ghost use Rattle.js_text.specs.Naming.{naming_of};
ghost use Rattle.js_text.specs.declared.value.Value.TheVariants as value_kind;
ghost use Rattle.js_desc.specs.declared.ask.Ask.TheVariants as ask_kind;
ghost use Rattle.js_machine.specs.js_run.Requests.{is_link};
ghost use Rattle.js_machine.specs.js_run.Functions.{open_property, plain_object};
ghost use Rattle.js_machine.specs.js_run.Modules.{evaluates_module, exports_key, get_exports, require_function, requires_package};
ghost use Rattle.js_term.specs.declared.term.TemplateKind.TheVariants as kind;
ghost use Rattle.js_machine.specs.Evaluated.{import_sent, imports_over, module_numbered, module_over, module_threw, numbers_from, unbegun, waits_for_exports, with_module_objects, with_module_scope, with_standing};
ghost use Rattle.js_machine.specs.Made.{with_object};
ghost use Rattle.js_machine.specs.Steps.{IsDelivered, LeadsTo, over, under};
ghost use Rattle.js_machine.specs.Views.{below, is_completion, party_of, text_of, top};
ghost use Rattle.js_machine.specs.declared.frame.Frame.TheVariants as frame_kind;
ghost use Rattle.js_machine.specs.declared.frame.Mode.TheVariants as mode_kind;

use crate::requests::is_link;
use crate::require_calls::{not_allowed, not_found};
use js_code::node::TemplateRow;
use js_desc::ask::Ask;
use js_desc::descriptor::{Change, Descriptor};
use js_machine::asked::{Imported, Wait};
use js_machine::body::Body;
use js_machine::frame::{Frame, Halt, Mode};
use js_machine::functions::add_function;
use js_machine::js_run::MAX_DEPTH;
use js_machine::js_run::intrinsics::{FUNCTION_PROTOTYPE, OBJECT_PROTOTYPE};
use js_machine::machine::Machine;
use js_machine::modules::ModuleObjects;
use js_machine::package::Module;
use js_store::slot::{Held, Slot};
use js_store::store::{PLAIN_MARKS, Store};
use js_term::term::TemplateKind;
use js_text::text::{Text, from_units};
use js_text::value::{Key, Value};
use lava_base::ids::{CommonId, ObjId, Ref};
use lava_base::memory::OutOfMemory;
use std::alloc::Global;

/// The units of the name `exports`.
static EXPORTS: [u16; 7] = [101, 120, 112, 111, 114, 116, 115];

/// How many slots a module's scope has for what the module is given.
const GIVEN: u32 = 3;

/// The key `exports`.
fn exports_key(alloc: Global) -> Result<Key, OutOfMemory>
    ensures { IfOk result (λ k. k ≡ exports_key) }
{
    match from_units(alloc, &EXPORTS) {
        Ok(text) => Ok(Key::Text(text)),
        Err(_) => Err(OutOfMemory),
    }
}

/// Makes an object without properties (ECMA-262, OrdinaryObjectCreate).
fn add_plain<S: Store>(store: &mut S) -> Result<ObjId, OutOfMemory>
    ensures id { IfOk result (λ id. id.0 ≡ length (S.objects store.old)) }
    ensures made { let object = plain_object (naming_of (S.owner store.old).0) [] in
        OnOk result (S.objects store.new ≡ S.objects store.old ++ object ∷ []) }
    ensures party { S.owner store.new ≡ S.owner store.old }
{
    let root = Some(Ref::Common(CommonId(OBJECT_PROTOTYPE)));
    store.make(root, PLAIN_MARKS, Slot::Plain)
}

/// Makes a module object, which has `exports`.
#[tactic(auto, using(js_machine::proofs::Faulted::last_within))]
fn add_module<S: Store>(store: &mut S, key: Key, exports: Value) -> Result<ObjId, OutOfMemory>
    requires { key ≡ exports_key }
    ensures id { IfOk result (λ id. id.0 ≡ length (S.objects store.old)) }
    ensures made { let property = open_property exports_key exports in
        let object = plain_object (naming_of (S.owner store.old).0) (property ∷ []) in
        OnOk result (S.objects store.new ≡ S.objects store.old ++ object ∷ []) }
    ensures party { S.owner store.new ≡ S.owner store.old }
{
    let root = Some(Ref::Common(CommonId(OBJECT_PROTOTYPE)));
    let id = store.make(root, PLAIN_MARKS, Slot::Plain)?;
    let property = Descriptor::Data {
        value: exports,
        writable: true,
        enumerable: true,
        configurable: true,
    };
    store.apply(id, key, Change::Write(property))?;
    Ok(id)
}

/// What the body of a module runs with.
fn module_body(exports: Ref) -> Body
    ensures { result ≡ record {
      kind = kind.Module;
      back = 0;
      this = Some (value_kind.Ref exports);
      new_target = None;
      function = None;
      home = None;
    } }
{
    Body {
        kind: TemplateKind::Module,
        back: 0,
        this: Some(Value::Ref(exports)),
        new_target: None,
        function: None,
        home: None,
    }
}

/// Makes the `exports` of a module.
fn make_exports<S: Store>(machine: &mut Machine<S>) -> Result<u32, OutOfMemory>
    ensures number { IfOk result (λ n. n ≡ length machine.old.objects) }
    ensures made { let object = plain_object (naming_of machine.old.me) [] in
        OnOk result (machine.new ≡ with_object object machine.old) }
{
    let id = add_plain(&mut machine.store)?;
    Ok(id.0)
}

/// Makes the module object of a module, which has its `exports`.
fn make_module<S: Store>(machine: &mut Machine<S>, exports: u32) -> Result<u32, OutOfMemory>
    ensures number { IfOk result (λ n. n ≡ length machine.old.objects) }
    ensures made { let names = naming_of machine.old.me in
        let property = open_property exports_key (value_kind.Ref (names.own exports)) in
        OnOk result (machine.new ≡ with_object (plain_object names (property ∷ [])) machine.old) }
{
    let key = exports_key(machine.alloc)?;
    let value = Value::Ref(machine.own(exports));
    let id = add_module(&mut machine.store, key, value)?;
    Ok(id.0)
}

/// Makes the `require` of a module (LavaMoat, require).
fn make_require<S: Store>(machine: &mut Machine<S>, number: u32) -> Result<u32, OutOfMemory>
    ensures number { IfOk result (λ n. n ≡ length machine.old.objects) }
    ensures made { let object = require_function (naming_of machine.old.me) number in
        OnOk result (machine.new ≡ with_object object machine.old) }
{
    let above = Some(Ref::Common(CommonId(FUNCTION_PROTOTYPE)));
    let slot = Slot::Held(Held::Require { module: number });
    let name = match from_units(machine.alloc, &[]) {
        Ok(name) => name,
        Err(_) => return Err(OutOfMemory),
    };
    let (store, keys) = (&mut machine.store, &machine.keys);
    let id = add_function(store, keys, above, false, slot, 0, name)?;
    Ok(id.0)
}

/// Makes the three objects of a module.
fn make_module_objects<S: Store>(
    machine: &mut Machine<S>,
    number: u32,
) -> Result<ModuleObjects, OutOfMemory>
    ensures numbers { IfOk result (λ o. o ≡ numbers_from (length machine.old.objects)) }
    ensures made { OnOk result (machine.new ≡ with_module_objects number machine.old) }
{
    let exports = make_exports(machine)?;
    let object = make_module(machine, exports)?;
    let require = make_require(machine, number)?;
    Ok(ModuleObjects {
        exports,
        object,
        require,
    })
}

/// Opens the scope of a module's body, which has what the module is given (ECMA-262, InitializeEnvironment of a module).
fn open_module_scope<S: Store>(
    machine: &mut Machine<S>,
    at: u32,
    objects: ModuleObjects,
) -> Result<u32, OutOfMemory>
    ensures number { IfOk result (λ s. s ≡ length machine.old.scopes) }
    ensures opened { OnOk result (machine.new ≡ with_module_scope at objects machine.old) }
{
    let exports = machine.own(objects.exports);
    let require = machine.own(objects.require);
    let object = machine.own(objects.object);
    let row = machine.template(at);
    let bare = TemplateRow {
        params: GIVEN,
        ..row
    };
    let scope = machine.open_slots(bare, GIVEN, 0)?;
    machine.write_slot(scope, 0, Value::Ref(exports));
    machine.write_slot(scope, 1, Value::Ref(require));
    machine.write_slot(scope, 2, Value::Ref(object));
    Ok(scope)
}

/// A module has another standing. Want of memory is answered too where there is no such module.
fn set_module<S: Store>(
    machine: &mut Machine<S>,
    number: u32,
    path: Text,
    template: u32,
    begun: Option<u32>,
) -> Result<(), OutOfMemory>
    ensures { OnOk result (machine.new ≡ with_standing number path template begun machine.old) }
{
    let place = number as usize;
    if place >= machine.own_package.modules.len() {
        return Err(OutOfMemory);
    }
    machine.own_package.modules[place] = Module {
        path,
        template,
        begun,
    };
    Ok(())
}

/// The path of a module and the place of its template. Want of memory is answered too where there is no such module.
fn source<S: Store>(machine: &Machine<S>, number: u32) -> Result<(Text, u32), OutOfMemory>
    ensures path { let there = module_numbered machine.now number in
        IfOk result (λ s. s.0 ≡ there.path) }
    ensures template { let there = module_numbered machine.now number in
        IfOk result (λ s. s.1 ≡ there.template) }
{
    match machine.own_package.modules.get(number as usize) {
        None => Err(OutOfMemory),
        Some(module) => Ok((module.path.copy()?, module.template)),
    }
}

/// A module is evaluated that has not begun (ECMA-262, Evaluate of a module).
pub fn evaluate_module<S: Store>(machine: &mut Machine<S>, number: u32) -> Result<Mode, OutOfMemory>
    ensures { let names = naming_of machine.old.me in
        let loaded = unbegun machine.old number in
        IfOk result (LeadsTo (λ a. evaluates_module names number loaded (party_of a machine.old))
        machine.old machine.new) }
{
    let source = source(machine, number)?;
    let objects = make_module_objects(machine, number)?;
    let scope = open_module_scope(machine, source.1, objects)?;
    let begun = Some(objects.object);
    let path = source.0.copy()?;
    set_module(machine, number, path, source.1, begun)?;
    machine.push(Value::Text(source.0))?;
    let row = machine.template(source.1);
    let body = module_body(machine.own(objects.exports));
    let frame = Frame::ModuleBody {
        number,
        template: source.1,
        object: objects.object,
    };
    machine.open_body(row.body, scope, body, frame)
}

/// A Get of `exports` at a module object.
fn exports_ask<S: Store>(machine: &Machine<S>, object: u32) -> Result<Ask, OutOfMemory>
    ensures { let receiver = value_kind.Ref ((naming_of machine.now.me).own object) in
        IfOk result (λ x. x ≡ ask_kind.Get exports_key receiver) }
{
    let key = exports_key(machine.alloc)?;
    let receiver = Value::Ref(machine.own(object));
    Ok(Ask::Get { key, receiver })
}

/// The `exports` of a module that has begun is waited for.
pub fn wait_for_exports<S: Store>(
    machine: &mut Machine<S>,
    object: u32,
) -> Result<Mode, OutOfMemory>
    ensures { let names = naming_of machine.old.me in
        IfOk result (LeadsTo (λ a. waits_for_exports names object (party_of a machine.old))
        machine.old machine.new) }
{
    let ask = exports_ask(machine, object)?;
    machine.wait_for(machine.own(object), ask, Wait::Exports)
}

/// The `exports` of a module object is asked for, and a frame waits.
pub fn get_exports<S: Store>(
    machine: &mut Machine<S>,
    object: u32,
    frame: Frame,
) -> Result<Mode, OutOfMemory>
    ensures { let names = naming_of machine.old.me in
        IfOk result (LeadsTo (λ a. get_exports names object (party_of a machine.old)
        (over frame machine.old a)) (under frame machine.old) machine.new) }
{
    let ask = exports_ask(machine, object)?;
    machine.ask(machine.own(object), ask, frame)
}

/// An import is sent over a link, and what comes is waited for.
fn send_import<S: Store>(
    machine: &mut Machine<S>,
    link: Text,
    path: Text,
) -> Result<Mode, OutOfMemory>
    ensures mode { IfOk result (λ m. m ≡ mode_kind.Import) }
    ensures sent { OnOk result (machine.new ≡ import_sent link path machine.old) }
{
    if !machine.open_one() {
        // It was seen before that there is room.
        return Err(OutOfMemory);
    }
    machine.push_wait(Wait::Exports)?;
    machine.push_frame(Frame::Decides)?;
    machine.imported = Imported { link, path };
    Ok(Mode::Import)
}

/// Whether it is one of the package's links.
fn has_link<S: Store>(machine: &Machine<S>, link: &Text) -> bool
    ensures { result ≡ is_link link.now machine.now.own_package.links }
{
    is_link(link, &machine.own_package.links)
}

/// Whether the party may import over a link.
fn may_import<S: Store>(machine: &Machine<S>, link: &Text) -> bool
    ensures { result ≡ is_link link.now machine.now.allowed }
{
    is_link(link, &machine.allowed)
}

/// A module is imported over one of the package's links, where that is allowed.
fn import_over<S: Store>(
    machine: &mut Machine<S>,
    link: Text,
    path: Text,
    request: &[u16],
) -> Result<Mode, OutOfMemory>
    ensures { let names = naming_of machine.old.me in
        IfOk result (LeadsTo (λ a. imports_over names link path request.now
        (party_of a machine.old)) machine.old machine.new) }
{
    if machine.depth >= MAX_DEPTH {
        return machine.end_run(Halt::Depth);
    }
    if may_import(machine, &link) {
        return send_import(machine, link, path);
    }
    not_allowed(machine, request)
}

/// A module of another package is required (LavaMoat policy, packages).
pub fn require_package<S: Store>(
    machine: &mut Machine<S>,
    link: Text,
    path: Text,
    request: &[u16],
) -> Result<Mode, OutOfMemory>
    ensures { let names = naming_of machine.old.me in
        IfOk result (LeadsTo (λ a. requires_package names request.now (link, path)
        (party_of a machine.old)) machine.old machine.new) }
{
    if has_link(machine, &link) {
        return import_over(machine, link, path, request);
    }
    not_found(machine, request)
}

/// Takes a text off the stack. Want of memory is answered too where there is none.
fn take_text<S: Store>(machine: &mut Machine<S>) -> Result<Text, OutOfMemory>
    ensures text { IfOk result (λ t. t ≡ text_of (top machine.old.values)) }
    ensures rest { OnOk result (machine.new ≡ record machine.old {
      values = below machine.old.values;
    }) }
{
    match machine.take() {
        Value::Text(text) => Ok(text),
        _ => Err(OutOfMemory),
    }
}

/// A module whose body or whose `exports` threw counts as not begun.
fn module_throws<S: Store>(
    machine: &mut Machine<S>,
    number: u32,
    template: u32,
) -> Result<Mode, OutOfMemory>
    ensures mode { IfOk result (λ m. m ≡ mode_kind.Throw) }
    ensures state { OnOk result (machine.new ≡ module_threw number template machine.old) }
{
    let thrown = machine.take();
    let path = take_text(machine)?;
    set_module(machine, number, path, template, None)?;
    machine.close_body();
    machine.push(thrown)?;
    Ok(Mode::Throw)
}

/// A module is over, with its `exports`.
fn module_gives<S: Store>(machine: &mut Machine<S>) -> Result<Mode, OutOfMemory>
    ensures mode { IfOk result (λ m. m ≡ mode_kind.Value) }
    ensures state { OnOk result (machine.new ≡ module_over machine.old) }
{
    let exports = machine.take();
    machine.discard(1);
    machine.close_body();
    machine.push(exports)?;
    Ok(Mode::Value)
}

/// The body of a module is over, and `exports` is asked for.
pub fn deliver_module_body<S: Store>(
    machine: &mut Machine<S>,
    number: u32,
    template: u32,
    object: u32,
    mode: Mode,
) -> Result<Mode, OutOfMemory>
    requires { is_completion mode ≡ true }
    ensures { let frame = frame_kind.ModuleBody number template object in
        IfOk result (IsDelivered frame mode machine.old machine.new) }
{
    if mode.is_throw() {
        return module_throws(machine, number, template);
    }
    machine.drop_value(mode);
    get_exports(machine, object, Frame::ModuleEnds { number, template })
}

/// The `exports` of a module whose body is over comes.
pub fn deliver_module_ends<S: Store>(
    machine: &mut Machine<S>,
    number: u32,
    template: u32,
    mode: Mode,
) -> Result<Mode, OutOfMemory>
    requires { is_completion mode ≡ true }
    ensures { let frame = frame_kind.ModuleEnds number template in
        IfOk result (IsDelivered frame mode machine.old machine.new) }
{
    match mode {
        Mode::Value => module_gives(machine),
        Mode::Throw => module_throws(machine, number, template),
        // No ask is answered by a jump.
        _ => Err(OutOfMemory),
    }
}
