// The functions that a prelude declares.

ghost use Rattle.std.specs.Prelude.{◌≡◌, Some, None, IfOk, IfSome};
ghost use Rattle.std.specs.Option.{option_map};
ghost use Rattle.js_text.specs.CommonPaths.{IsPathOf};
ghost use Rattle.js_text.specs.Texts.{utf8_of};
ghost use Rattle.js_tree.specs.declared.tree.Function.{out-Function};
ghost use Rattle.ses_lockdown.specs.Permits.{count};
ghost use Rattle.ses_prelude.specs.Functions as spec;
ghost use Rattle.ses_prelude.specs.Helpers.{seen, shape_of};
ghost use Rattle.ses_prelude.specs.Paths as paths;

use crate::operations::machine_frame;
use crate::paths::{path_of, place_of};
use js_frames::frame::{Frame, Referent, SlotName};
use js_term::term::TemplateKind;
use js_text::text::Text;
use js_tree::tree::{Function, Stmt};
use lava_base::ids::CommonId;
use lava_base::list::List;
use lava_base::memory::OutOfMemory;
use lava_base::name::Name;
use ses_lockdown::rows::place;
use ses_lockdown::table::{COUNT, Kind, Role};
use sqlite_items::Boxed;
use std::alloc::Global;

/// A function of the common part: its name in the text, the path and the place of its common object, and the kind of its template.
#[derive(Drop)]
pub(crate) struct FoundFunction<'a> {
    pub(crate) name: &'a Text,
    pub(crate) path: Name,
    pub(crate) place: u32,
    pub(crate) kind: TemplateKind,
    pub(crate) function: &'a Function,
}

/// The kind of the template of a function that the text gives its body.
fn body_kind(kind: Kind, role: Role) -> Option<TemplateKind>
    ensures { result ≡ spec.body_kind kind role }
{
    match (kind, role) {
        (Kind::Function, Role::Given) => Some(TemplateKind::Method),
        (Kind::Constructor, Role::Given) => Some(TemplateKind::Built),
        _ => None,
    }
}

/// The same of the common object of a place.
fn kind_at(at: u32) -> Option<TemplateKind>
    ensures { result ≡ spec.kind_at at }
{
    let (kind, _, role) = place(at);
    body_kind(kind, role)
}

/// The function of a name, if it is one of the common part.
fn of_name<'a>(
    alloc: Global,
    name: &'a Text,
    function: &'a Function,
) -> Result<Option<FoundFunction<'a>>, OutOfMemory>
    ensures found { let at = paths.place_of (paths.path_of (utf8_of name.now)) in
        IfOk result (λ d. option_map seen d ≡ spec.of_place name.now function.now at) }
    ensures path { IfOk result (λ d. IfSome d (λ f. IsPathOf f.path f.place)) }
{
    let path = path_of(alloc, name)?;
    let Some(place) = place_of(path.as_str()) else {
        return Ok(None);
    };
    let Some(kind) = kind_at(place) else {
        return Ok(None);
    };
    Ok(Some(FoundFunction {
        name,
        path,
        place,
        kind,
        function,
    }))
}

/// The function of the common part that a function declaration is.
fn of_function<'a>(
    alloc: Global,
    function: &'a Function,
) -> Result<Option<FoundFunction<'a>>, OutOfMemory>
    ensures found { let name = (out-Function function.now).name in
        IfOk result (λ d. option_map seen d ≡ spec.of_name function.now name) }
    ensures path { IfOk result (λ d. IfSome d (λ f. IsPathOf f.path f.place)) }
{
    match &function.name {
        None => Ok(None),
        Some(identifier) => of_name(alloc, &identifier.name, function),
    }
}

/// The function of the common part that a statement declares.
pub(crate) fn declared<'a>(
    alloc: Global,
    statement: &'a Stmt,
) -> Result<Option<FoundFunction<'a>>, OutOfMemory>
    ensures found { IfOk result (λ d. option_map seen d ≡ spec.declared statement.now) }
    ensures path { IfOk result (λ d. IfSome d (λ f. IsPathOf f.path f.place)) }
{
    match statement {
        Stmt::FunctionDeclaration(function) => of_function(alloc, function.get()),
        _ => Ok(None),
    }
}

/// The slot of a function's name.
fn function_slot(function: &FoundFunction<'_>) -> Result<SlotName, OutOfMemory>
    ensures { IfOk result (λ slot. slot ≡ spec.function_slot (seen function.now)) }
{
    Ok(SlotName {
        name: function.name.copy()?,
        referent: Referent::CommonObject(CommonId(function.place)),
    })
}

/// The places of the functions that a text declares, and the scope of their names. None where it declares anything else.
pub(crate) fn shape(
    alloc: Global,
    mut statements: &[Boxed<Stmt>],
) -> Result<Option<(List<u32>, Frame)>, OutOfMemory>
    ensures { let functions = spec.functions_in statements.entry.now in
        IfOk result (λ shape. shape ≡ option_map shape_of functions) }
{
    let mut places = List::new(alloc);
    let mut frame = machine_frame(alloc)?;
    while let [first, rest @ ..] = statements {
        match declared(alloc, first.get())? {
            None => return Ok(None),
            Some(function) => {
                places.push(function.place)?;
                frame.push(function_slot(&function)?)?;
            }
        }
        statements = rest;
    }
    Ok(Some((places, frame)))
}

/// Whether a place is among some.
fn is_in(place: u32, mut places: &[u32]) -> bool
    ensures { result ≡ spec.is_in place places.entry.now }
{
    while let [first, rest @ ..] = places {
        if *first == place {
            return true;
        }
        places = rest;
    }
    false
}

/// Whether a common object, if the text gives it a body, is among some.
fn is_met(places: &[u32], place: u32) -> bool
    ensures { result ≡ spec.is_met places.now place }
{
    match kind_at(place) {
        None => true,
        Some(_) => is_in(place, places),
    }
}

/// Whether each of the first common objects, if the text gives it a body, is among some.
fn all_met(places: &[u32], first: u32) -> bool
    ensures { result ≡ spec.all_met places.now first }
{
    let mut left = first;
    while left > 0 {
        left -= 1;
        if !is_met(places, left) {
            return false;
        }
    }
    true
}

/// Whether all common objects to which the text gives a body are among some.
#[tactic(auto, unfolding(ses_lockdown::specs::Permits::count))]
pub(crate) fn is_whole(places: &[u32]) -> bool
    ensures { result ≡ spec.all_met places.now count }
{
    all_met(places, COUNT)
}
