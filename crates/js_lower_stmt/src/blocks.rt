// Declarations and blocks.

ghost use Rattle.std.specs.Prelude.{◌≡◌, ◌+◌, ◌-◌, ◌++◌, ◌∷◌, [], map, length, true, false, IfOk, OnOk, Some, None, codes};
ghost use Rattle.std.specs.Option.{option_map};
ghost use Rattle.js_names.specs.Lists.{flat};
ghost use Rattle.js_term.specs.declared.term.Term.TheVariants as term;
ghost use Rattle.js_term.specs.declared.term.Part.TheVariants as part;
ghost use Rattle.js_term.specs.declared.term.TemplateKind.TheVariants as template;
ghost use Rattle.js_term_stack.specs.Stacks.{extended, extended_parts, function_part, on_one, on_list, taken, taken_pending};
ghost use Rattle.js_term_stack.specs.declared.piece.Piece.TheVariants as piece;
ghost use Rattle.js_term_stack.specs.declared.pending.Pending.TheVariants as pending;
ghost use Rattle.js_lower_table.specs.Values as values;
ghost use Rattle.js_lower_table.specs.Entries.{given, origin};
ghost use Rattle.js_lower_table.specs.Entries as entries;
ghost use Rattle.js_lower_table.specs.Nests.{Nests};
ghost use Rattle.js_lower_table.specs.Table.{low};
ghost use Rattle.std.specs.Prelude.{negsuc, pos};
ghost use Rattle.js_term.specs.declared.term.Jump.TheVariants as jump;
ghost use Rattle.js_term_stack.specs.Stacks.{looped};
ghost use Rattle.js_lower_table.specs.Expressions as expressions;
ghost use Rattle.js_lower_table.specs.Statements as spec;
ghost use Rattle.js_tree.specs.declared.tree.Function.{out-Function};

use crate::below::{lower_bind, lower_named, lower_stmt, lower_template};
use crate::frames::{block_frame, is_var};
use js_frames::frame::Frame;
use js_frames::scopes::Scopes;
use js_lower_patterns::js_lower_calls::functions::{class_term, named_class};
use js_lower_table::bindings::{init, set};
use js_lower_table::bound_value::BoundValue;
use js_lower_table::lowerer::Lowerer;
use js_lower_table::task::Task;
use js_lower_table::values::{scope_of, single};
use js_term::term::TemplateKind;
use js_term_stack::stack::Stack;
use js_text::text::Text;
use js_tree::tree::{
    Class, Declaration, DeclarationKind, Expr, Function, Pattern, PatternElement, Stmt,
};
use lava_base::memory::OutOfMemory;
use sqlite_items::Boxed;

#[tactic(auto, using(js_term_stack::specs::Stack_laws::extended_none, js_term_stack::specs::Stack_laws::extended_twice))]
fn declare_init<F: Fn(usize, &mut Scopes, &mut Stack, Task<'_>) -> Result<(), OutOfMemory>>(
    lowerer: &Lowerer<F>,
    scopes: &mut Scopes,
    terms: &mut Stack,
    kind: DeclarationKind,
    name: &Text,
) -> Result<(), OutOfMemory>
    requires { Nests lowerer.now.depth (F.pre lowerer.now.low) (F.post lowerer.now.low) }
    ensures ok { let b = low lowerer.now.depth in
        let made = spec.declare_init b scopes.old kind name.now in
        OnOk result (terms.new ≡ extended made terms.old) }
    ensures kept { OnOk result (scopes.new ≡ scopes.old) }
{
    if is_var(kind) {
        return Ok(());
    }
    terms.undefined()?;
    init(scopes, terms, name)?;
    terms.append()
}

#[tactic(auto, using(js_term_stack::specs::Stack_laws::extended_none, js_term_stack::specs::Stack_laws::extended_twice))]
fn declare_plain<F: Fn(usize, &mut Scopes, &mut Stack, Task<'_>) -> Result<(), OutOfMemory>>(
    lowerer: &Lowerer<F>,
    scopes: &mut Scopes,
    terms: &mut Stack,
    kind: DeclarationKind,
    pattern: &Pattern,
) -> Result<(), OutOfMemory>
    requires { Nests lowerer.now.depth (F.pre lowerer.now.low) (F.post lowerer.now.low) }
    ensures ok { let b = low lowerer.now.depth in
        let made = spec.declare_plain b scopes.old kind pattern.now in
        OnOk result (terms.new ≡ extended made terms.old) }
    ensures kept { OnOk result (scopes.new ≡ scopes.old) }
{
    match pattern {
        Pattern::Bound(identifier) => declare_init(lowerer, scopes, terms, kind, &identifier.name),
        _ => Ok(()),
    }
}

fn declare_name<F: Fn(usize, &mut Scopes, &mut Stack, Task<'_>) -> Result<(), OutOfMemory>>(
    lowerer: &Lowerer<F>,
    scopes: &mut Scopes,
    terms: &mut Stack,
    assigned: bool,
    name: &Text,
    tree: &Expr,
) -> Result<(), OutOfMemory>
    requires { Nests lowerer.now.depth (F.pre lowerer.now.low) (F.post lowerer.now.low) }
    ensures ok { let b = low lowerer.now.depth in
        let made = values.set scopes.old assigned name.now
        (b.expr scopes.old name.now tree.now) in
        OnOk result (terms.new ≡ piece.OneTerm made ∷ terms.old) }
    ensures kept { OnOk result (scopes.new ≡ scopes.old) }
{
    lower_named(lowerer, scopes, terms, Some(name), tree)?;
    set(scopes, terms, assigned, name)
}

fn declare_value<F: Fn(usize, &mut Scopes, &mut Stack, Task<'_>) -> Result<(), OutOfMemory>>(
    lowerer: &Lowerer<F>,
    scopes: &mut Scopes,
    terms: &mut Stack,
    kind: DeclarationKind,
    pattern: &Pattern,
    tree: &Expr,
) -> Result<(), OutOfMemory>
    requires { Nests lowerer.now.depth (F.pre lowerer.now.low) (F.post lowerer.now.low) }
    ensures ok { let b = low lowerer.now.depth in
        let made = spec.declare_value b scopes.old kind pattern.now tree.now in
        OnOk result (terms.new ≡ piece.OneTerm made ∷ terms.old) }
    ensures kept { OnOk result (scopes.new ≡ scopes.old) }
{
    let assigned = is_var(kind);
    match pattern {
        Pattern::Bound(identifier) => {
            declare_name(lowerer, scopes, terms, assigned, &identifier.name, tree)
        }
        _ => lower_bind(
            lowerer,
            scopes,
            terms,
            assigned,
            BoundValue::Valued(tree),
            pattern,
        ),
    }
}

fn declare<F: Fn(usize, &mut Scopes, &mut Stack, Task<'_>) -> Result<(), OutOfMemory>>(
    lowerer: &Lowerer<F>,
    scopes: &mut Scopes,
    terms: &mut Stack,
    kind: DeclarationKind,
    element: &PatternElement,
) -> Result<(), OutOfMemory>
    requires { Nests lowerer.now.depth (F.pre lowerer.now.low) (F.post lowerer.now.low) }
    ensures ok { let b = low lowerer.now.depth in
        let made = spec.declare b scopes.old kind element.now in
        OnOk result (terms.new ≡ extended made terms.old) }
    ensures kept { OnOk result (scopes.new ≡ scopes.old) }
{
    let pattern = element.pattern.get();
    match &element.default {
        None => declare_plain(lowerer, scopes, terms, kind, pattern),
        Some(tree) => {
            declare_value(lowerer, scopes, terms, kind, pattern, tree.get())?;
            terms.append()
        }
    }
}

#[tactic(auto, using(js_term_stack::specs::Stack_laws::extended_none, js_term_stack::specs::Stack_laws::extended_twice))]
fn declarators<F: Fn(usize, &mut Scopes, &mut Stack, Task<'_>) -> Result<(), OutOfMemory>>(
    lowerer: &Lowerer<F>,
    scopes: &mut Scopes,
    terms: &mut Stack,
    kind: DeclarationKind,
    mut list: &[PatternElement],
) -> Result<(), OutOfMemory>
    requires { Nests lowerer.now.depth (F.pre lowerer.now.low) (F.post lowerer.now.low) }
    ensures ok { let b = low lowerer.now.depth in
        let made = flat (spec.declare b scopes.old kind) list.entry.now in
        OnOk result (terms.new ≡ extended made terms.old) }
    ensures kept { OnOk result (scopes.new ≡ scopes.old) }
{
    while let [first, rest @ ..] = list {
        declare(lowerer, scopes, terms, kind, first)?;
        list = rest;
    }
    Ok(())
}

/// Appends the terms of `var`, `let` or `const`.
pub fn declaration<F: Fn(usize, &mut Scopes, &mut Stack, Task<'_>) -> Result<(), OutOfMemory>>(
    lowerer: &Lowerer<F>,
    scopes: &mut Scopes,
    terms: &mut Stack,
    declaration: &Declaration,
) -> Result<(), OutOfMemory>
    requires { Nests lowerer.now.depth (F.pre lowerer.now.low) (F.post lowerer.now.low) }
    ensures ok { let b = low lowerer.now.depth in
        let made = spec.declaration b scopes.old declaration.now in
        OnOk result (terms.new ≡ extended made terms.old) }
    ensures kept { OnOk result (scopes.new ≡ scopes.old) }
{
    let list = declaration.declarators.as_slice();
    declarators(lowerer, scopes, terms, declaration.kind, list)
}

fn class_named<F: Fn(usize, &mut Scopes, &mut Stack, Task<'_>) -> Result<(), OutOfMemory>>(
    lowerer: &Lowerer<F>,
    scopes: &mut Scopes,
    terms: &mut Stack,
    name: &Text,
    class: &Class,
) -> Result<(), OutOfMemory>
    requires { Nests lowerer.now.depth (F.pre lowerer.now.low) (F.post lowerer.now.low) }
    ensures ok { let b = low lowerer.now.depth in
        let made = values.init scopes.old name.now
        (expressions.named_class b scopes.old name.now class.now) in
        OnOk result (terms.new ≡ piece.OneTerm made ∷ terms.old) }
    ensures kept { OnOk result (scopes.new ≡ scopes.old) }
{
    named_class(lowerer, scopes, terms, name, class)?;
    init(scopes, terms, name)
}

pub fn class_declaration<
    F: Fn(usize, &mut Scopes, &mut Stack, Task<'_>) -> Result<(), OutOfMemory>,
>(
    lowerer: &Lowerer<F>,
    scopes: &mut Scopes,
    terms: &mut Stack,
    class: &Class,
) -> Result<(), OutOfMemory>
    requires { Nests lowerer.now.depth (F.pre lowerer.now.low) (F.post lowerer.now.low) }
    ensures ok { let b = low lowerer.now.depth in
        let made = spec.class_declaration b scopes.old class.now in
        OnOk result (terms.new ≡ piece.OneTerm made ∷ terms.old) }
    ensures kept { OnOk result (scopes.new ≡ scopes.old) }
{
    match &class.name {
        None => class_term(lowerer, scopes, terms, None, class),
        Some(own) => class_named(lowerer, scopes, terms, &own.name, class),
    }
}

fn hoisted_named<F: Fn(usize, &mut Scopes, &mut Stack, Task<'_>) -> Result<(), OutOfMemory>>(
    lowerer: &Lowerer<F>,
    scopes: &mut Scopes,
    terms: &mut Stack,
    name: &Text,
    function: &Function,
) -> Result<(), OutOfMemory>
    requires { Nests lowerer.now.depth (F.pre lowerer.now.low) (F.post lowerer.now.low) }
    ensures ok { let b = low lowerer.now.depth in
        let made = values.init scopes.old name.now (term.Func
        (b.template scopes.old template.Plain name.now function.now)) ∷ [] in
        OnOk result (terms.new ≡ extended made terms.old) }
    ensures kept { OnOk result (scopes.new ≡ scopes.old) }
{
    lower_template(
        lowerer,
        scopes,
        terms,
        TemplateKind::Plain,
        Some(name),
        function,
    )?;
    terms.func()?;
    init(scopes, terms, name)?;
    terms.append()
}

#[tactic(auto, using(js_term_stack::specs::Stack_laws::extended_none, js_term_stack::specs::Stack_laws::extended_twice))]
fn hoisted_function<F: Fn(usize, &mut Scopes, &mut Stack, Task<'_>) -> Result<(), OutOfMemory>>(
    lowerer: &Lowerer<F>,
    scopes: &mut Scopes,
    terms: &mut Stack,
    function: &Function,
) -> Result<(), OutOfMemory>
    requires { Nests lowerer.now.depth (F.pre lowerer.now.low) (F.post lowerer.now.low) }
    ensures ok { let b = low lowerer.now.depth in
        let made = spec.hoisted_as b scopes.old function.now
        (out-Function function.now).name in
        OnOk result (terms.new ≡ extended made terms.old) }
    ensures kept { OnOk result (scopes.new ≡ scopes.old) }
{
    match &function.name {
        None => Ok(()),
        Some(own) => hoisted_named(lowerer, scopes, terms, &own.name, function),
    }
}

#[tactic(auto, using(js_term_stack::specs::Stack_laws::extended_none, js_term_stack::specs::Stack_laws::extended_twice))]
fn hoisted<F: Fn(usize, &mut Scopes, &mut Stack, Task<'_>) -> Result<(), OutOfMemory>>(
    lowerer: &Lowerer<F>,
    scopes: &mut Scopes,
    terms: &mut Stack,
    statement: &Stmt,
) -> Result<(), OutOfMemory>
    requires { Nests lowerer.now.depth (F.pre lowerer.now.low) (F.post lowerer.now.low) }
    ensures ok { let b = low lowerer.now.depth in
        let made = spec.hoisted b scopes.old statement.now in
        OnOk result (terms.new ≡ extended made terms.old) }
    ensures kept { OnOk result (scopes.new ≡ scopes.old) }
{
    match statement {
        Stmt::FunctionDeclaration(function) => {
            hoisted_function(lowerer, scopes, terms, function.get())
        }
        _ => Ok(()),
    }
}

/// Appends an Init for each function that a list declares.
#[tactic(auto, using(js_term_stack::specs::Stack_laws::extended_none, js_term_stack::specs::Stack_laws::extended_twice))]
pub fn hoist_all<F: Fn(usize, &mut Scopes, &mut Stack, Task<'_>) -> Result<(), OutOfMemory>>(
    lowerer: &Lowerer<F>,
    scopes: &mut Scopes,
    terms: &mut Stack,
    mut list: &[Boxed<Stmt>],
) -> Result<(), OutOfMemory>
    requires { Nests lowerer.now.depth (F.pre lowerer.now.low) (F.post lowerer.now.low) }
    ensures ok { let b = low lowerer.now.depth in
        let made = flat (spec.hoisted b scopes.old) list.entry.now in
        OnOk result (terms.new ≡ extended made terms.old) }
    ensures kept { OnOk result (scopes.new ≡ scopes.old) }
{
    while let [first, rest @ ..] = list {
        hoisted(lowerer, scopes, terms, first.get())?;
        list = rest;
    }
    Ok(())
}

/// Appends the terms of statements.
#[tactic(auto, using(js_term_stack::specs::Stack_laws::extended_none, js_term_stack::specs::Stack_laws::extended_twice))]
pub fn statements<F: Fn(usize, &mut Scopes, &mut Stack, Task<'_>) -> Result<(), OutOfMemory>>(
    lowerer: &Lowerer<F>,
    scopes: &mut Scopes,
    terms: &mut Stack,
    mut list: &[Boxed<Stmt>],
) -> Result<(), OutOfMemory>
    requires { Nests lowerer.now.depth (F.pre lowerer.now.low) (F.post lowerer.now.low) }
    ensures ok { let b = low lowerer.now.depth in
        let made = flat (spec.stmt b scopes.old) list.entry.now in
        OnOk result (terms.new ≡ extended made terms.old) }
    ensures kept { OnOk result (scopes.new ≡ scopes.old) }
{
    while let [first, rest @ ..] = list {
        lower_stmt(lowerer, scopes, terms, first.get())?;
        list = rest;
    }
    Ok(())
}

/// Appends the terms of a list of statements, functions first.
#[tactic(auto, using(js_term_stack::specs::Stack_laws::extended_none, js_term_stack::specs::Stack_laws::extended_twice))]
pub fn list<F: Fn(usize, &mut Scopes, &mut Stack, Task<'_>) -> Result<(), OutOfMemory>>(
    lowerer: &Lowerer<F>,
    scopes: &mut Scopes,
    terms: &mut Stack,
    list: &[Boxed<Stmt>],
) -> Result<(), OutOfMemory>
    requires { Nests lowerer.now.depth (F.pre lowerer.now.low) (F.post lowerer.now.low) }
    ensures ok { let b = low lowerer.now.depth in
        let made = spec.list b scopes.old list.now in
        OnOk result (terms.new ≡ extended made terms.old) }
    ensures kept { OnOk result (scopes.new ≡ scopes.old) }
{
    hoist_all(lowerer, scopes, terms, list)?;
    statements(lowerer, scopes, terms, list)
}

/// The terms of a list of statements, functions first.
pub fn list_terms<F: Fn(usize, &mut Scopes, &mut Stack, Task<'_>) -> Result<(), OutOfMemory>>(
    lowerer: &Lowerer<F>,
    scopes: &mut Scopes,
    terms: &mut Stack,
    statements: &[Boxed<Stmt>],
) -> Result<(), OutOfMemory>
    requires { Nests lowerer.now.depth (F.pre lowerer.now.low) (F.post lowerer.now.low) }
    ensures ok { let b = low lowerer.now.depth in
        let made = spec.list b scopes.old statements.now in
        OnOk result (terms.new ≡ piece.TermList made ∷ terms.old) }
    ensures kept { OnOk result (scopes.new ≡ scopes.old) }
{
    terms.begin()?;
    list(lowerer, scopes, terms, statements)
}

fn list_inside<F: Fn(usize, &mut Scopes, &mut Stack, Task<'_>) -> Result<(), OutOfMemory>>(
    lowerer: &Lowerer<F>,
    scopes: &mut Scopes,
    terms: &mut Stack,
    frame: Frame,
    statements: &[Boxed<Stmt>],
) -> Result<(), OutOfMemory>
    requires { Nests lowerer.now.depth (F.pre lowerer.now.low) (F.post lowerer.now.low) }
    ensures ok { let b = low lowerer.now.depth in
        let made = spec.list b (frame ∷ scopes.old) statements.now in
        OnOk result (terms.new ≡ piece.TermList made ∷ terms.old) }
    ensures kept { OnOk result (scopes.new ≡ scopes.old) }
{
    scopes.open(frame)?;
    list_terms(lowerer, scopes, terms, statements)?;
    scopes.close();
    Ok(())
}

/// The term of a block (ECMA-262, Block).
pub fn block<F: Fn(usize, &mut Scopes, &mut Stack, Task<'_>) -> Result<(), OutOfMemory>>(
    lowerer: &Lowerer<F>,
    scopes: &mut Scopes,
    terms: &mut Stack,
    statements: &[Boxed<Stmt>],
) -> Result<(), OutOfMemory>
    requires { Nests lowerer.now.depth (F.pre lowerer.now.low) (F.post lowerer.now.low) }
    ensures ok { let b = low lowerer.now.depth in
        let made = spec.block b scopes.old statements.now in
        OnOk result (terms.new ≡ piece.OneTerm made ∷ terms.old) }
    ensures kept { OnOk result (scopes.new ≡ scopes.old) }
{
    let frame = block_frame(terms.alloc(), statements)?;
    let slots = frame.len();
    if slots == 0 {
        list_terms(lowerer, scopes, terms, statements)?;
        return terms.seq();
    }
    list_inside(lowerer, scopes, terms, frame, statements)?;
    scope_of(terms, slots)
}

/// One term of a statement.
pub fn one<F: Fn(usize, &mut Scopes, &mut Stack, Task<'_>) -> Result<(), OutOfMemory>>(
    lowerer: &Lowerer<F>,
    scopes: &mut Scopes,
    terms: &mut Stack,
    statement: &Stmt,
) -> Result<(), OutOfMemory>
    requires { Nests lowerer.now.depth (F.pre lowerer.now.low) (F.post lowerer.now.low) }
    ensures ok { let b = low lowerer.now.depth in
        let made = spec.one b scopes.old statement.now in
        OnOk result (terms.new ≡ piece.OneTerm made ∷ terms.old) }
    ensures kept { OnOk result (scopes.new ≡ scopes.old) }
{
    terms.begin()?;
    lower_stmt(lowerer, scopes, terms, statement)?;
    single(terms)
}

pub fn maybe_one<F: Fn(usize, &mut Scopes, &mut Stack, Task<'_>) -> Result<(), OutOfMemory>>(
    lowerer: &Lowerer<F>,
    scopes: &mut Scopes,
    terms: &mut Stack,
    statement: &Option<Boxed<Stmt>>,
) -> Result<(), OutOfMemory>
    requires { Nests lowerer.now.depth (F.pre lowerer.now.low) (F.post lowerer.now.low) }
    ensures ok { let b = low lowerer.now.depth in
        let made = option_map (spec.one b scopes.old) statement.now in
        OnOk result (terms.new ≡ piece.MaybeTerm made ∷ terms.old) }
    ensures kept { OnOk result (scopes.new ≡ scopes.old) }
{
    match statement {
        None => terms.none(),
        Some(statement) => {
            one(lowerer, scopes, terms, statement.get())?;
            terms.some()
        }
    }
}
