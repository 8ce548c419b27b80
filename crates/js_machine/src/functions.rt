// Functions that a form makes.

ghost use Rattle.std.specs.Prelude.{◌≡◌, ◌<◌, ◌++◌, ◌∷◌, [], IfOk, OnOk, None, Some, false, length, pos, suc};
ghost use Rattle.js_text.specs.Naming.{naming_of};
ghost use Rattle.js_text.specs.declared.value.Value.TheVariants as value_kind;
ghost use Rattle.js_desc.specs.declared.descriptor.Change.TheVariants as change;
ghost use Rattle.js_desc.specs.declared.descriptor.Descriptor.TheVariants.{Data};
ghost use Rattle.js_code.specs.Decoded.{template_at, term_at};
ghost use Rattle.js_operation.specs.js_run.Acts.{give};
ghost use Rattle.js_operation.specs.js_run.Functions.{constructs, function_made, home_of, is_plain, lexical_of, next_object};
ghost use Rattle.js_operation.specs.js_run.Parties.{first_body};
ghost use Rattle.js_machine.specs.Made.{closure_of, function_prototype, instance_prototype, new_function, next_number, next_own, prototype_property, row_of, with_function, with_function_by, with_plain_function};
ghost use Rattle.js_machine.specs.Steps.{LeadsTo};
ghost use Rattle.js_machine.specs.Views.{party_of};

use crate::frame::Mode;
use crate::keys::KnownKeys;
use crate::machine::Machine;
use js_desc::decision::BodyId;
use js_desc::descriptor::{Change, Descriptor};
use js_operation::js_run::intrinsics::{FUNCTION_PROTOTYPE, OBJECT_PROTOTYPE};
use js_store::slot::{Lexical, Slot};
use js_store::store::{PLAIN_MARKS, Store};
use js_term::term::TemplateKind;
use js_text::text::Text;
use js_text::value::Value;
use lava_base::ids::{CommonId, ObjId, PartyId, Ref};
use lava_base::marks::{Class, Marks};
use lava_base::memory::OutOfMemory;

/// Whether a function of a kind constructs (ECMA-262, MakeConstructor).
pub fn constructs(kind: TemplateKind) -> bool
    ensures { result ≡ constructs kind }
{
    matches!(
        kind,
        TemplateKind::Plain | TemplateKind::Base | TemplateKind::Derived | TemplateKind::Built
    )
}

/// Whether a kind is that of `function`.
fn is_plain(kind: TemplateKind) -> bool
    ensures { result ≡ is_plain kind }
{
    matches!(kind, TemplateKind::Plain)
}

/// A property that is not enumerable.
pub fn hidden(value: Value, writable: bool, configurable: bool) -> Change
    ensures { result ≡ change.Write (Data value writable false configurable) }
{
    Change::Write(Descriptor::Data {
        value,
        writable,
        enumerable: false,
        configurable,
    })
}

/// The object of a party.
pub fn own(party: PartyId, id: u32) -> Value
    ensures { result ≡ value_kind.Ref ((naming_of party.0).own id) }
{
    let id = ObjId(id);
    Value::Ref(Ref::Own { party, id })
}

/// Makes a function with its properties `length` and `name` (ECMA-262, OrdinaryFunctionCreate, SetFunctionLength, SetFunctionName).
#[tactic(auto, using(crate::proofs::Faulted::last_within))]
pub fn add_function<S: Store>(
    store: &mut S,
    keys: &KnownKeys,
    prototype: Option<Ref>,
    constructor: bool,
    slot: Slot,
    arity: u32,
    name: Text,
) -> Result<ObjId, OutOfMemory>
    ensures id { IfOk result (λ id. id.0 ≡ length (S.objects store.old)) }
    ensures made { let object = new_function prototype constructor slot arity name [] in
        OnOk result (S.objects store.new ≡ S.objects store.old ++ object ∷ []) }
    ensures party { S.owner store.new ≡ S.owner store.old }
{
    let marks = Marks {
        class: Class::Function,
        callable: true,
        constructor,
    };
    let id = store.make(prototype, marks, slot)?;
    let length_key = keys.length()?;
    let length = hidden(count_value(arity), false, true);
    store.apply(id, length_key, length)?;
    let name_key = keys.name()?;
    let name = hidden(Value::Text(name), false, true);
    store.apply(id, name_key, name)?;
    Ok(id)
}

/// Makes a function and the object that its instances inherit from (ECMA-262, InstantiateOrdinaryFunctionExpression, MakeConstructor).
#[tactic(auto, using(crate::proofs::Faulted::last_within))]
fn add_plain_function<S: Store>(
    store: &mut S,
    keys: &KnownKeys,
    constructor: bool,
    slot: Slot,
    arity: u32,
    name: Text,
) -> Result<ObjId, OutOfMemory>
    ensures id { IfOk result (λ id. id.0 ≡ length (S.objects store.old)) }
    ensures made { let count = length (S.objects store.old) in
        let names = naming_of (S.owner store.old).0 in
        let prototype = prototype_property (names.own (suc count)) in
        let function = new_function (Some (names.common FUNCTION_PROTOTYPE)) constructor slot arity
        name (prototype ∷ []) in
        OnOk result (S.objects store.new ≡ (S.objects store.old ++ function ∷ [])
        ++ instance_prototype (S.owner store.old).0 (names.own count) ∷ []) }
    ensures party { S.owner store.new ≡ S.owner store.old }
{
    let party = store.party();
    let above = Some(Ref::Common(CommonId(FUNCTION_PROTOTYPE)));
    let id = add_function(store, keys, above, constructor, slot, arity, name)?;
    let prototype_key = keys.prototype()?;
    let prototype = hidden(own(party, store.count()), true, false);
    store.apply(id, prototype_key, prototype)?;
    let root = Some(Ref::Common(CommonId(OBJECT_PROTOTYPE)));
    let instances = store.make(root, PLAIN_MARKS, Slot::Plain)?;
    let constructor_key = keys.constructor()?;
    let back = hidden(own(party, id.0), true, true);
    store.apply(instances, constructor_key, back)?;
    Ok(id)
}

/// A number of parameters.
fn count_value(count: u32) -> Value
    ensures { result ≡ value_kind.Int (pos count) }
{
    Value::Int(i64::from(count))
}

impl<S: Store> Machine<S> {
    /// What names an object of the party.
    pub fn own(&self, id: u32) -> Ref
        ensures { result ≡ (naming_of self.now.me).own id }
    {
        Ref::Own {
            party: self.store.party(),
            id: ObjId(id),
        }
    }

    /// What names the next object.
    pub fn next_own(&self) -> Ref
        ensures { result ≡ next_own self.now }
    {
        Ref::Own {
            party: self.store.party(),
            id: ObjId(self.store.count()),
        }
    }

    /// The number of the next template.
    fn next_template(&self) -> Result<u32, OutOfMemory>
        ensures { IfOk result (λ n. n ≡ next_number self.now) }
    {
        let below = self.common_templates.len();
        let own = self.templates.len();
        if below >= u32::MAX as usize || own >= u32::MAX as usize - below {
            return Err(OutOfMemory);
        }
        Ok((below + own) as u32)
    }

    /// What an arrow takes from the body that makes it (ECMA-262, InstantiateArrowFunctionExpression).
    fn lexical(&self, kind: TemplateKind) -> Result<Option<Lexical>, OutOfMemory>
        ensures { IfOk result (λ l. l ≡ lexical_of kind (first_body self.now.bodies)) }
    {
        match kind {
            TemplateKind::Arrow => Ok(Some(Lexical {
                this: self.this_value()?,
                new_target: self.target_of_body(),
                function: self.function(),
            })),
            _ => Ok(None),
        }
    }

    /// The home object of a new function: an arrow has that of the body that makes it.
    fn home_of(&self, kind: TemplateKind, home: Option<Ref>) -> Option<Ref>
        ensures { result ≡ home_of kind home (first_body self.now.bodies) }
    {
        match kind {
            TemplateKind::Arrow => self.home(),
            _ => home,
        }
    }

    /// What a new function keeps.
    pub fn closure(&self, kind: TemplateKind, home: Option<Ref>) -> Result<Slot, OutOfMemory>
        ensures { IfOk result (λ s. s ≡ closure_of (next_number self.now) kind home self.now) }
    {
        let template = self.next_template()?;
        let scope = self.standing();
        let lexical = self.lexical(kind)?;
        Ok(Slot::Closure {
            body: BodyId { template, scope },
            home: self.home_of(kind, home),
            lexical,
        })
    }

    /// Makes a function without a `prototype` (ECMA-262, DefineMethod).
    #[tactic(auto, using(crate::proofs::Reversed::reverse_push))]
    pub fn make_function(
        &mut self,
        at: u32,
        prototype: Option<Ref>,
        home: Option<Ref>,
    ) -> Result<ObjId, OutOfMemory>
        ensures id { IfOk result (λ id. id.0 ≡ length self.old.objects) }
        ensures made { OnOk result (self.new ≡ with_function at prototype home [] self.old) }
    {
        let row = self.code.template(at);
        let name = self.code.text(row.name).copy()?;
        let slot = self.closure(row.kind, home)?;
        let constructor = constructs(row.kind);
        let (store, keys) = (&mut self.store, &self.keys);
        let id = add_function(store, keys, prototype, constructor, slot, row.length, name)?;
        self.templates.push(at)?;
        Ok(id)
    }

    /// Makes a function and the object that its instances inherit from.
    pub fn make_plain_function(&mut self, at: u32) -> Result<ObjId, OutOfMemory>
        ensures id { IfOk result (λ id. id.0 ≡ length self.old.objects) }
        ensures made { OnOk result (self.new ≡ with_plain_function at self.old) }
    {
        let row = self.code.template(at);
        let name = self.code.text(row.name).copy()?;
        let slot = self.closure(row.kind, None)?;
        let constructor = constructs(row.kind);
        let (store, keys) = (&mut self.store, &self.keys);
        let id = add_plain_function(store, keys, constructor, slot, row.length, name)?;
        self.templates.push(at)?;
        Ok(id)
    }

    /// Makes the function of a form.
    fn add_function_of(&mut self, at: u32) -> Result<ObjId, OutOfMemory>
        ensures id { IfOk result (λ id. id.0 ≡ length self.old.objects) }
        ensures made { let plain = is_plain (row_of self.old at).kind in
            OnOk result (self.new ≡ with_function_by plain at self.old) }
    {
        let row = self.code.template(at);
        if is_plain(row.kind) {
            return self.make_plain_function(at);
        }
        let prototype = Some(Ref::Common(CommonId(FUNCTION_PROTOTYPE)));
        self.make_function(at, prototype, None)
    }

    /// A function of the party, over the scope where the body stands (ECMA-262, "Function Definitions", Evaluation).
    pub fn begin_function(&mut self, at: u32) -> Result<Mode, OutOfMemory>
        ensures { let names = naming_of self.old.me in
            let template = template_at self.old.code (term_at self.old.code) at in
            IfOk result (LeadsTo (λ a. let p = party_of a self.old in
            give (value_kind.Ref (next_object names a.shared p))
            (function_made names a.shared template p)) self.old self.new) }
    {
        let function = self.next_own();
        self.add_function_of(at)?;
        self.give(Value::Ref(function))
    }
}
