// The templates of the functions of a prelude, and the intrinsics that have them.

ghost use Rattle.std.specs.Prelude.{◌≡◌, ◌∷◌, [], Some, IfOk, OnOk};
ghost use Rattle.std.specs.Option.{option_map};
ghost use Rattle.js_text.specs.CommonPaths.{IsPathOf};
ghost use Rattle.js_frames.specs.Frames.{Frame};
ghost use Rattle.js_lower_table.specs.Table.{low, built_template};
ghost use Rattle.js_lower_table.specs.Templates as table;
ghost use Rattle.ses_prelude.specs.Functions as spec;
ghost use Rattle.ses_prelude.specs.Helpers.{seen, added_to};

use crate::functions::{FoundFunction, declared, is_whole, shape};
use js_frames::scopes::Scopes;
use js_lower::entries::lower_to;
use js_lower::templates::template_row;
use js_lower_table::lowerer::Lowerer;
use js_lower_table::task::LOWERING_DEPTH;
use js_lower_table::words::word;
use js_term::term::{Template, TemplateKind};
use js_term_stack::stack::Stack;
use js_text::text::Text;
use js_tree::tree::{Function, Stmt};
use lava_base::memory::OutOfMemory;
use ses_lockdown::intrinsics::Intrinsics;
use ses_lockdown::rows::name_at;
use sqlite_items::Boxed;
use std::alloc::Global;

/// The template of a function of so many levels at most.
fn built_to(
    alloc: Global,
    depth: usize,
    scopes: &mut Scopes,
    kind: TemplateKind,
    name: &Text,
    function: &Function,
) -> Result<Template, OutOfMemory>
    ensures made { let b = low depth in
        IfOk result (λ t. t ≡ table.template_row b scopes.old kind name.now function.now) }
    ensures kept { OnOk result (scopes.new ≡ scopes.old) }
{
    let lowerer = Lowerer {
        depth,
        low: lower_to,
    };
    let mut terms = Stack::new(alloc);
    template_row(&lowerer, scopes, &mut terms, kind, Some(name), function)?;
    let made = terms.take_template()?;
    Ok(made.into_inner())
}

/// The template of a function, in the scope of the text's names.
#[tactic(auto, unfolding(js_lower_table::specs::Table::built_template))]
fn built(
    alloc: Global,
    scopes: &mut Scopes,
    kind: TemplateKind,
    name: &Text,
    function: &Function,
) -> Result<Template, OutOfMemory>
    ensures made { (frame : Frame) → scopes.old ≡ frame ∷ [] →
        IfOk result (λ t. t ≡ built_template frame kind name.now function.now) }
    ensures kept { OnOk result (scopes.new ≡ scopes.old) }
{
    built_to(alloc, LOWERING_DEPTH, scopes, kind, name, function)
}

/// Gives the common object of a function its template.
fn add_function(
    alloc: Global,
    scopes: &mut Scopes,
    intrinsics: &mut Intrinsics,
    function: FoundFunction<'_>,
) -> Result<(), OutOfMemory>
    requires { IsPathOf function.path function.place }
    ensures added { let d = seen function.entry in
        (frame : Frame) → scopes.old ≡ frame ∷ [] →
        OnOk result (intrinsics.new ≡ spec.added frame d intrinsics.old) }
    ensures kept { OnOk result (scopes.new ≡ scopes.old) }
{
    let name = word(alloc, name_at(function.place).as_bytes())?;
    let template = built(alloc, scopes, function.kind, &name, function.function)?;
    intrinsics.add(alloc, function.path, template)
}

/// The intrinsics with the functions that some statements declare. None where they declare anything else.
fn with_functions(
    alloc: Global,
    mut scopes: Scopes,
    mut intrinsics: Intrinsics,
    mut statements: &[Boxed<Stmt>],
) -> Result<Option<Intrinsics>, OutOfMemory>
    ensures { let functions = spec.functions_in statements.entry.now in
        (frame : Frame) → scopes ≡ frame ∷ [] →
        IfOk result (λ made. made ≡ option_map (added_to frame intrinsics) functions) }
{
    while let [first, rest @ ..] = statements {
        match declared(alloc, first.get())? {
            None => return Ok(None),
            Some(function) => add_function(alloc, &mut scopes, &mut intrinsics, function)?,
        }
        statements = rest;
    }
    Ok(Some(intrinsics))
}

/// The common objects without their bodies.
fn bodiless(alloc: Global) -> Result<Intrinsics, OutOfMemory>
    ensures { IfOk result (λ i. i ≡ spec.bodiless) }
{
    Intrinsics::new(alloc)
}

/// The intrinsics that the statements of a text make. None where it declares anything but functions of the common part, or lacks one.
pub(crate) fn intrinsics_of(
    alloc: Global,
    statements: &[Boxed<Stmt>],
) -> Result<Option<Intrinsics>, OutOfMemory>
    ensures { IfOk result (λ made. made ≡ spec.intrinsics_of statements.now) }
{
    let Some((places, frame)) = shape(alloc, statements)? else {
        return Ok(None);
    };
    if !is_whole(places.as_slice()) {
        return Ok(None);
    }
    let mut scopes = Scopes::new(alloc);
    scopes.open(frame)?;
    with_functions(alloc, scopes, bodiless(alloc)?, statements)
}
