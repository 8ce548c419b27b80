// The constructors of classes that have none, as templates of a code.

ghost use Rattle.std.specs.Prelude.{◌≡◌, ◌∷◌, [], Bool, IfOk, OnOk};
ghost use Rattle.js_code.specs.Settled.{Extends};
ghost use Rattle.js_machine.specs.Defaults.{AreDefaults, IsDefault, IsDefaultOf, array_term, derived_body, items_term};

use js_code::code::Code;
use js_operation::js_run::intrinsics::ARRAY_PROTOTYPE;
use js_term::term::{Arguments, Literal, Part, Template, TemplateKind, Term};
use js_text::native::Native;
use js_text::text::Text;
use lava_base::ids::CommonId;
use lava_base::memory::OutOfMemory;
use sqlite_items::{Boxed, Items};
use std::alloc::Global;

/// A new array.
fn array_term(alloc: Global) -> Result<Term, OutOfMemory>
    ensures { IfOk result (λ t. t ≡ array_term) }
{
    let prototype = Term::Lit(Literal::Common(CommonId(ARRAY_PROTOTYPE)));
    let mut operands = Items::new(alloc);
    operands.push(Boxed::new(alloc, prototype)?)?;
    operands.push(Boxed::new(alloc, Term::Lit(Literal::Int(0)))?)?;
    Ok(Term::Native {
        native: Native::MakeArray,
        operands,
    })
}

/// An array of what the first slot has.
fn items_term(alloc: Global) -> Result<Term, OutOfMemory>
    ensures { IfOk result (λ t. t ≡ items_term) }
{
    let object = Boxed::new(alloc, array_term(alloc)?)?;
    let rest = Boxed::new(alloc, Term::Local { hops: 0, slot: 0 })?;
    let mut parts = Items::new(alloc);
    parts.push(Part::Spread(rest))?;
    Ok(Term::Define { object, parts })
}

/// The parent constructs by the arguments.
fn derived_body(alloc: Global) -> Result<Term, OutOfMemory>
    ensures { IfOk result (λ t. t ≡ derived_body) }
{
    let arguments = Arguments::Of(Boxed::new(alloc, items_term(alloc)?)?);
    let parent = Boxed::new(alloc, Term::SuperNew { arguments })?;
    let mut terms = Items::new(alloc);
    terms.push(parent)?;
    Ok(Term::Seq(terms))
}

/// The constructor of a class without a parent (ECMA-262, ClassDefinitionEvaluation, step 14).
fn base_template(alloc: Global, name: Text) -> Result<Template, OutOfMemory>
    ensures { IfOk result (IsDefaultOf name Bool.false) }
{
    let body = Boxed::new(alloc, Term::Seq(Items::new(alloc)))?;
    Ok(Template {
        kind: TemplateKind::Base,
        name,
        length: 0,
        params: 0,
        rest: false,
        slots: 0,
        undefined: Items::new(alloc),
        body,
    })
}

/// The constructor of a class with a parent (ECMA-262, ClassDefinitionEvaluation, step 14).
fn derived_template(alloc: Global, name: Text) -> Result<Template, OutOfMemory>
    ensures { IfOk result (IsDefaultOf name Bool.true) }
{
    let body = Boxed::new(alloc, derived_body(alloc)?)?;
    Ok(Template {
        kind: TemplateKind::Derived,
        name,
        length: 0,
        params: 1,
        rest: true,
        slots: 1,
        undefined: Items::new(alloc),
        body,
    })
}

/// The constructor of a class that has none.
fn default_template(alloc: Global, name: Text, derived: bool) -> Result<Template, OutOfMemory>
    ensures { IfOk result (IsDefaultOf name derived) }
{
    if derived {
        return derived_template(alloc, name);
    }
    base_template(alloc, name)
}

/// Puts the constructor of a class that has none into a code.
fn add_default(alloc: Global, code: &mut Code, class: u32) -> Result<u32, OutOfMemory>
    ensures place { IfOk result (IsDefault code.new) }
    ensures extends { OnOk result (Extends code.old code.new) }
{
    let row = code.class(class);
    let name = code.text(row.name).copy()?;
    let template = default_template(alloc, name, row.parent.is_some())?;
    code.add_template(&template)
}

/// Puts the constructors of all classes into a code as if these had none, and gives their places.
pub fn add_defaults(alloc: Global, code: &mut Code) -> Result<Vec<u32>, OutOfMemory>
    ensures places { IfOk result (λ places. AreDefaults code.new places.items) }
    ensures extends { OnOk result (Extends code.old code.new) }
{
    let count = code.class_count();
    if count > u32::MAX as usize {
        return Err(OutOfMemory);
    }
    let mut places = Vec::new(alloc);
    for class in 0..count as u32 {
        let place = add_default(alloc, code, class)?;
        places.push(place)?;
    }
    Ok(places)
}
