// The intrinsics: what the prelude makes, and lockdown takes.

ghost use Rattle.std.specs.Prelude.{◌≡◌, ◌≤◌, ◌<◌, ◌++◌, ◌∷◌, [], ℕ, pos, length, IfOk, OnOk, OnErr};
ghost use Rattle.js_text.specs.CommonPaths.{IsPathOf};
ghost use Rattle.js_text.specs.Length.{length_key};
ghost use Rattle.js_text.specs.declared.value.Value.TheVariants as value;
ghost use Rattle.js_store.specs.Objects.{at_place, with_slot};
ghost use Rattle.js_term.specs.declared.term.Template.{out-Template};
ghost use Rattle.ses_lockdown.specs.Entries.{HasTableMarks};
ghost use Rattle.ses_lockdown.specs.Permits.{count};
ghost use Rattle.ses_lockdown.specs.Intrinsics.{initial_objects, holding, body_of, copied, with_function, with_other};

use crate::copied::copy_objects;
use crate::initial::{holding, put_objects};
use crate::laws::marks_stay;
use crate::making::common;
use js_desc::decision::BodyId;
use js_desc::descriptor::Descriptor;
use js_store::flat::FlatStore;
use js_store::frozen::FrozenStore;
use js_store::slot::Slot;
use js_store::store::Store;
use js_term::term::Template;
use js_text::common::common_id;
use js_text::length::length_key;
use js_text::value::{Key, Value};
use lava_base::ids::ObjId;
use lava_base::list::List;
use lava_base::marks::{Class, Marks};
use lava_base::memory::OutOfMemory;
use lava_base::name::Name;
use std::alloc::Global;
use std::marker::Model;
use std::mem;

/// The place of `Function.prototype`.
const FUNCTION_PROTOTYPE: u32 = 39;

/// The common objects before lockdown, each at its place, and behind them the functions of other paths.
#[derive(Drop)]
pub struct Unlocked {
    store: FlatStore,
}

impl Model for Unlocked {
    ghost use Rattle.std.specs.Prelude.{List, ◌≤◌, length};
    ghost use Rattle.lava_base.specs.declared.ids.MadeSymbol.{MadeSymbol};
    ghost use Rattle.lava_base.specs.declared.ids.Ref.{Ref};
    ghost use Rattle.js_store.specs.Objects.{Object};
    ghost use Rattle.ses_lockdown.specs.Permits.{count};

    ghost Value = { List (Object Ref MadeSymbol) };

    ghost view = { λ u. u.store.objects };

    ghost invariant = { λ u. count ≤ length u.store.objects };
}

impl Unlocked {
    /// The objects, in a store.
    pub(crate) fn store(&self) -> &FlatStore
        ensures objects { result.now.objects ≡ self.now }
        ensures count { count ≤ length self.now }
    {
        &self.store
    }

    /// Gives the function of a place its body, and its `length`.
    fn put_function(
        &mut self,
        alloc: Global,
        place: u32,
        number: u32,
        parameters: u32,
    ) -> Result<(), OutOfMemory>
        requires { place < count }
        ensures ok { OnOk result (self.new ≡ with_function place number parameters self.old) }
        ensures err { OnErr result (self.new ≡ self.old) }
        ensures marks { HasTableMarks self.old → OnOk result (HasTableMarks self.new) }
    {
        marks_stay();
        let key = length_key(alloc)?;
        put_body(&mut self.store, place, number, parameters, key);
        Ok(())
    }

    /// Keeps a function of another path, behind the common objects.
    fn put_other(&mut self, number: u32) -> Result<(), OutOfMemory>
        ensures ok { OnOk result (self.new ≡ with_other number self.old) }
        ensures err { OnErr result (self.new ≡ self.old) }
        ensures marks { HasTableMarks self.old → OnOk result (HasTableMarks self.new) }
    {
        marks_stay();
        let marks = Marks {
            class: Class::Function,
            callable: true,
            constructor: false,
        };
        self.store
            .make(Some(common(FUNCTION_PROTOTYPE)), marks, body_of(number))?;
        Ok(())
    }
}

/// The slot of a function with the template of a number.
fn body_of(number: u32) -> Slot
    ensures { result ≡ body_of number }
{
    Slot::Closure {
        body: BodyId {
            template: number,
            scope: 0,
        },
        home: None,
        lexical: None,
    }
}

/// Puts another slot in place, and lets the old one go.
fn put_slot(store: &mut FlatStore, id: ObjId, slot: Slot)
    requires { id.0 < length store.old.objects }
    ensures { store.new.objects ≡ at_place store.old.objects id.0 (with_slot slot) }
{
    store.swap_slot(id, slot);
}

/// The property `length` of a function.
fn length_of(parameters: u32) -> Descriptor
    ensures { result ≡ holding (value.Int (pos parameters)) }
{
    holding(Value::Int(parameters as i64))
}

/// Gives the function of a place its body, and its `length`.
fn put_body(store: &mut FlatStore, place: u32, number: u32, parameters: u32, key: Key)
    requires place { place < length store.old.objects }
    requires key { key ≡ length_key }
    ensures { store.new.objects ≡ with_function place number parameters store.old.objects }
{
    let id = ObjId(place);
    put_slot(store, id, body_of(number));
    store.replace(id, key, length_of(parameters));
}

/// The common objects before lockdown, and the templates of their functions, by the numbers that these have.
#[derive(Drop)]
pub struct Intrinsics {
    pub objects: Unlocked,
    pub templates: List<Template>,
}

/// The number of the next template.
fn next_number(templates: &List<Template>) -> Result<u32, OutOfMemory>
    ensures { IfOk result (λ n. n ≡ length templates.now) }
{
    match u32::try_from(templates.len()) {
        Ok(number) => Ok(number),
        Err(_) => Err(OutOfMemory),
    }
}

impl Intrinsics {
    /// The common objects, each function without a body yet.
    pub fn new(alloc: Global) -> Result<Intrinsics, OutOfMemory>
        ensures objects { IfOk result (λ i. i.objects ≡ initial_objects) }
        ensures templates { IfOk result (λ i. i.templates ≡ []) }
        ensures marks { IfOk result (λ i. HasTableMarks i.objects) }
    {
        marks_stay();
        Ok(Intrinsics {
            objects: Unlocked {
                store: put_objects(alloc)?,
            },
            templates: List::new(alloc),
        })
    }

    /// The common objects of a locked list, without templates.
    pub fn of(alloc: Global, common: &FrozenStore) -> Result<Intrinsics, OutOfMemory>
        requires { count ≤ length common.now }
        ensures objects { IfOk result (λ i. i.objects ≡ copied common.now) }
        ensures templates { IfOk result (λ i. i.templates ≡ []) }
    {
        Ok(Intrinsics {
            objects: Unlocked {
                store: copy_objects(alloc, common)?,
            },
            templates: List::new(alloc),
        })
    }

    /// Gives the function of a path its template. One of a path that no common object has is kept too, and lockdown drops it.
    pub fn add(&mut self, alloc: Global, path: Name, template: Template) -> Result<(), OutOfMemory>
        ensures place { let n = length self.old.templates in
            let given = with_function in
            (place : ℕ) → IsPathOf path place → OnOk result
            (self.new.objects ≡ given place n (out-Template template).length self.old.objects) }
        ensures other { let n = length self.old.templates in
            ((place : ℕ) → IsPathOf path place → ⊥) → OnOk result
            (self.new.objects ≡ with_other n self.old.objects) }
        ensures templates { OnOk result (self.new.templates ≡ self.old.templates ++ template ∷ []) }
        ensures marks { HasTableMarks self.old.objects → OnOk result (HasTableMarks self.new.objects) }
    {
        let number = next_number(&self.templates)?;
        match common_id(path.as_str()) {
            Some(id) => self
                .objects
                .put_function(alloc, id.0, number, template.length)?,
            None => self.objects.put_other(number)?,
        }
        self.templates.push(template)?;
        Ok(())
    }

    /// Takes the templates out, in the order of their numbers.
    pub fn take_templates(&mut self, alloc: Global) -> List<Template>
        ensures given { result ≡ self.old.templates }
        ensures left { self.new.templates ≡ [] }
        ensures objects { self.new.objects ≡ self.old.objects }
    {
        mem::replace(&mut self.templates, List::new(alloc))
    }
}
