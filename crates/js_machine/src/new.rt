// A machine that has done nothing yet.

ghost use Rattle.std.specs.Prelude.{◌≡◌, IfOk, OnOk};
ghost use Rattle.js_code.specs.Settled.{Extends};
ghost use Rattle.js_operation.specs.js_run.Parties as parties;
ghost use Rattle.js_code.specs.Decoded.{template_at, term_at};
ghost use Rattle.js_machine.specs.Begun.{as_new, outermost, owned};
ghost use Rattle.js_machine.specs.Defaults.{KnowsTemplates};

use crate::asked::{Answer, Asked, Imported};
use crate::defaults::add_defaults;
use crate::keys::KnownKeys;
use crate::machine::Machine;
use crate::package::Package;
use crate::requests::text_of;
use js_code::code::Code;
use js_desc::ask::Ask;
use js_state::scopes::Scopes;
use js_store::foreign::Foreign;
use js_store::frozen::FrozenStore;
use js_store::store::Store;
use js_term::term::{Template, TemplateKind, Term};
use js_text::text::{Text, from_units};
use js_text::value::Value;
use lava_base::memory::OutOfMemory;
use sqlite_items::{Boxed, Items};
use std::alloc::Global;

/// The template that has nothing to do.
fn no_template(alloc: Global) -> Result<Template, OutOfMemory>
    ensures { IfOk result (λ t. t ≡ parties.no_template) }
{
    let name = match from_units(alloc, &[]) {
        Ok(text) => text,
        Err(_) => return Err(OutOfMemory),
    };
    let body = Boxed::new(alloc, Term::Seq(Items::new(alloc)))?;
    Ok(Template {
        kind: TemplateKind::Plain,
        name,
        length: 0,
        params: 0,
        rest: false,
        slots: 0,
        undefined: Items::new(alloc),
        body,
    })
}

/// Puts the template that has nothing to do into a code.
fn add_empty(alloc: Global, code: &mut Code) -> Result<u32, OutOfMemory>
    ensures place { let low = term_at code.new in
        IfOk result (λ at. template_at code.new low at ≡ parties.no_template) }
    ensures extends { Extends code.old code.new }
{
    let template = no_template(alloc)?;
    code.add_template(&template)
}

/// Puts into a code what the machine itself names: the constructors of classes that have none, and the template that has nothing to do.
#[tactic(auto, using(crate::proofs::Defaulted::kept_defaults), unfolding(crate::specs::Defaults::KnowsTemplates))]
fn add_templates(alloc: Global, code: &mut Code) -> Result<(u32, Vec<u32>), OutOfMemory>
    ensures knows { IfOk result (λ r. KnowsTemplates code.new r.0 r.1.items) }
    ensures extends { OnOk result (Extends code.old code.new) }
{
    let default_templates = add_defaults(alloc, code)?;
    let empty_template = add_empty(alloc, code)?;
    Ok((empty_template, default_templates))
}

/// The outermost scope of a party.
pub(crate) fn first_scope(alloc: Global) -> Result<Scopes, OutOfMemory>
    ensures { IfOk result (λ s. s ≡ outermost) }
{
    let mut scopes = Scopes::new(alloc);
    scopes.open(0)?;
    Ok(scopes)
}

/// What a machine begins with, beside what it is given.
#[derive(Drop)]
struct Begun {
    empty_template: u32,
    default_templates: Vec<u32>,
    scopes: Scopes,
    keys: KnownKeys,
    imported: Imported,
}

/// The import over no link, of no path.
fn no_import(alloc: Global) -> Result<Imported, OutOfMemory> {
    let link = text_of(alloc, &[])?;
    let path = text_of(alloc, &[])?;
    Ok(Imported { link, path })
}

/// What a machine begins with whose code this is.
fn start(alloc: Global, code: &mut Code) -> Result<Begun, OutOfMemory>
    ensures knows { IfOk result (λ s. KnowsTemplates code.new s.empty_template
        s.default_templates.items) }
    ensures scopes { IfOk result (λ s. s.scopes ≡ outermost) }
    ensures extends { OnOk result (Extends code.old code.new) }
{
    let (empty_template, default_templates) = add_templates(alloc, code)?;
    let scopes = first_scope(alloc)?;
    let keys = KnownKeys::new(alloc)?;
    let imported = no_import(alloc)?;
    Ok(Begun {
        empty_template,
        default_templates,
        scopes,
        keys,
        imported,
    })
}

impl<S: Store> Machine<S> {
    /// A machine of the party whose store this is, which runs nothing yet and has its outermost scope. The code gets templates more: one that has nothing to do, and the constructors of classes that have none; all that had a place there keeps it. Want of memory is answered too where the code is full.
    pub fn new(
        alloc: Global,
        code: Code,
        store: S,
        own_package: Package,
        allowed: Vec<Text>,
        common: FrozenStore,
        common_templates: Vec<u32>,
        foreign: Foreign,
    ) -> Result<Machine<S>, OutOfMemory>
        ensures code { IfOk result (λ m. Extends code m.code) }
        ensures new { let own = owned (S.owner store) (S.objects store) in
            let templates = common_templates.items in
            IfOk result (λ m. m ≡ as_new m.code own own_package allowed.items common templates
            foreign m.asked m.answer m.imported) }
    {
        let mut code = code;
        let Begun {
            empty_template,
            default_templates,
            scopes,
            keys,
            imported,
        } = start(alloc, &mut code)?;
        Ok(Machine {
            alloc,
            code,
            frames: Vec::new(alloc),
            values: Vec::new(alloc),
            store,
            templates: Vec::new(alloc),
            scopes,
            bodies: Vec::new(alloc),
            scope: 0,
            depth: 0,
            waits: Vec::new(alloc),
            asked: Asked {
                target: Value::Undefined,
                ask: Ask::GetPrototypeOf,
            },
            answer: Answer::Flag(false),
            common,
            foreign,
            common_templates,
            empty_template,
            default_templates,
            keys,
            own_package,
            allowed,
            imported,
            calls: Vec::new(alloc),
        })
    }
}
