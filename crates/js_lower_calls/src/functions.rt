// Functions and classes.

ghost use Rattle.std.specs.Prelude.{◌≡◌, ◌+◌, ◌-◌, ◌++◌, ◌∷◌, [], map, length, true, false, IfOk, OnOk, Some, None, codes};
ghost use Rattle.std.specs.Option.{option_map};
ghost use Rattle.js_names.specs.Lists.{flat};
ghost use Rattle.js_term.specs.declared.term.Term.TheVariants as term;
ghost use Rattle.js_term.specs.declared.term.Part.TheVariants as part;
ghost use Rattle.js_term.specs.declared.term.TemplateKind.TheVariants as template;
ghost use Rattle.js_term_stack.specs.Stacks.{extended, extended_parts, function_part, on_one, on_list, taken, taken_pending};
ghost use Rattle.js_term_stack.specs.declared.piece.Piece.TheVariants as piece;
ghost use Rattle.js_term_stack.specs.declared.pending.Pending.TheVariants as pending;
ghost use Rattle.js_lower_table.specs.Values as values;
ghost use Rattle.js_lower_table.specs.Entries.{given, origin};
ghost use Rattle.js_lower_table.specs.Entries as entries;
ghost use Rattle.js_lower_table.specs.Nests.{Nests};
ghost use Rattle.js_lower_table.specs.Table.{low};
ghost use Rattle.js_lower_table.specs.Expressions as spec;

use crate::below::{lower_expr, lower_template};
use crate::parts::method;
use js_frames::scopes::Scopes;
use js_lower_table::bindings::{own_name, template_kind};
use js_lower_table::lowerer::Lowerer;
use js_lower_table::task::Task;
use js_lower_table::words::{is_word, word};
use js_term::term::TemplateKind;
use js_term_stack::stack::Stack;
use js_text::native::Native;
use js_text::text::Text;
use js_tree::tree::{Class, ClassMember, Expr, Function, FunctionKind, PropertyKey};
use lava_base::memory::OutOfMemory;
use sqlite_items::Boxed;
use std::alloc::Global;

fn plain_function<F: Fn(usize, &mut Scopes, &mut Stack, Task<'_>) -> Result<(), OutOfMemory>>(
    lowerer: &Lowerer<F>,
    scopes: &mut Scopes,
    terms: &mut Stack,
    name: Option<&Text>,
    function: &Function,
) -> Result<(), OutOfMemory>
    requires { Nests lowerer.now.depth (F.pre lowerer.now.low) (F.post lowerer.now.low) }
    ensures ok { let b = low lowerer.now.depth in
        let made = spec.plain_function b scopes.old (given name.entry) function.now in
        OnOk result (terms.new ≡ piece.OneTerm made ∷ terms.old) }
    ensures kept { OnOk result (scopes.new ≡ scopes.old) }
{
    let kind = template_kind(function.kind);
    lower_template(lowerer, scopes, terms, kind, name, function)?;
    terms.func()
}

fn inner_function<F: Fn(usize, &mut Scopes, &mut Stack, Task<'_>) -> Result<(), OutOfMemory>>(
    lowerer: &Lowerer<F>,
    scopes: &mut Scopes,
    terms: &mut Stack,
    name: &Text,
    function: &Function,
) -> Result<(), OutOfMemory>
    requires { Nests lowerer.now.depth (F.pre lowerer.now.low) (F.post lowerer.now.low) }
    ensures ok { let b = low lowerer.now.depth in
        let made = (let inner = entries.own_name name.now ∷ scopes.old in
        spec.plain_function b inner name.now function.now) in
        OnOk result (terms.new ≡ piece.OneTerm made ∷ terms.old) }
    ensures kept { OnOk result (scopes.new ≡ scopes.old) }
{
    scopes.open(own_name(terms.alloc(), name)?)?;
    plain_function(lowerer, scopes, terms, Some(name), function)?;
    scopes.close();
    Ok(())
}

fn named_function<F: Fn(usize, &mut Scopes, &mut Stack, Task<'_>) -> Result<(), OutOfMemory>>(
    lowerer: &Lowerer<F>,
    scopes: &mut Scopes,
    terms: &mut Stack,
    name: &Text,
    function: &Function,
) -> Result<(), OutOfMemory>
    requires { Nests lowerer.now.depth (F.pre lowerer.now.low) (F.post lowerer.now.low) }
    ensures ok { let b = low lowerer.now.depth in
        let made = spec.named_function b scopes.old name.now function.now in
        OnOk result (terms.new ≡ piece.OneTerm made ∷ terms.old) }
    ensures kept { OnOk result (scopes.new ≡ scopes.old) }
{
    inner_function(lowerer, scopes, terms, name, function)?;
    terms.init_here(0)?;
    terms.here(0)?;
    terms.list_two()?;
    terms.scope(1)
}

/// A function expression or an arrow (ECMA-262, InstantiateOrdinaryFunctionExpression).
pub fn function<F: Fn(usize, &mut Scopes, &mut Stack, Task<'_>) -> Result<(), OutOfMemory>>(
    lowerer: &Lowerer<F>,
    scopes: &mut Scopes,
    terms: &mut Stack,
    name: Option<&Text>,
    function: &Function,
) -> Result<(), OutOfMemory>
    requires { Nests lowerer.now.depth (F.pre lowerer.now.low) (F.post lowerer.now.low) }
    ensures ok { let b = low lowerer.now.depth in
        let made = spec.function b scopes.old (given name.entry) function.now in
        OnOk result (terms.new ≡ piece.OneTerm made ∷ terms.old) }
    ensures kept { OnOk result (scopes.new ≡ scopes.old) }
{
    match &function.name {
        None => plain_function(lowerer, scopes, terms, name, function),
        Some(own) => named_function(lowerer, scopes, terms, &own.name, function),
    }
}

fn is_method(kind: FunctionKind) -> bool
    ensures { result ≡ spec.is_method kind }
{
    match kind {
        FunctionKind::Method => true,
        _ => false,
    }
}

fn is_constructor_key(alloc: Global, key: &PropertyKey) -> Result<bool, OutOfMemory>
    ensures { IfOk result (λ made. made ≡ spec.is_constructor_key key.now) }
{
    match key {
        PropertyKey::Named(identifier) => is_word(alloc, &identifier.name, b"constructor"),
        _ => Ok(false),
    }
}

fn is_constructor(alloc: Global, member: &ClassMember) -> Result<bool, OutOfMemory>
    ensures { IfOk result (λ made. made ≡ spec.is_constructor member.now) }
{
    if member.is_static {
        return Ok(false);
    }
    if is_method(member.function.get().kind) {
        return is_constructor_key(alloc, &member.key);
    }
    Ok(false)
}

fn class_constructor<F: Fn(usize, &mut Scopes, &mut Stack, Task<'_>) -> Result<(), OutOfMemory>>(
    lowerer: &Lowerer<F>,
    scopes: &mut Scopes,
    terms: &mut Stack,
    kind: TemplateKind,
    name: Option<&Text>,
    mut list: &[ClassMember],
) -> Result<(), OutOfMemory>
    requires { Nests lowerer.now.depth (F.pre lowerer.now.low) (F.post lowerer.now.low) }
    ensures ok { let b = low lowerer.now.depth in
        let made = option_map (b.template scopes.old kind (given name.entry))
        (spec.constructor_in list.entry.now) in
        OnOk result (terms.new ≡ piece.MaybeTemplate made ∷ terms.old) }
    ensures kept { OnOk result (scopes.new ≡ scopes.old) }
{
    while let [first, rest @ ..] = list {
        if is_constructor(terms.alloc(), first)? {
            lower_template(lowerer, scopes, terms, kind, name, first.function.get())?;
            return terms.some_template();
        }
        list = rest;
    }
    terms.no_template()
}

#[tactic(auto, using(js_term_stack::specs::Stack_laws::extended_parts_none, js_term_stack::specs::Stack_laws::extended_parts_twice))]
fn member<F: Fn(usize, &mut Scopes, &mut Stack, Task<'_>) -> Result<(), OutOfMemory>>(
    lowerer: &Lowerer<F>,
    scopes: &mut Scopes,
    terms: &mut Stack,
    member: &ClassMember,
) -> Result<(), OutOfMemory>
    requires { Nests lowerer.now.depth (F.pre lowerer.now.low) (F.post lowerer.now.low) }
    ensures ok { let b = low lowerer.now.depth in
        let made = spec.member_parts b scopes.old member.now in
        OnOk result (terms.new ≡ extended_parts made terms.old) }
    ensures kept { OnOk result (scopes.new ≡ scopes.old) }
{
    if is_constructor(terms.alloc(), member)? {
        return Ok(());
    }
    method(
        lowerer,
        scopes,
        terms,
        member.is_static,
        &member.key,
        member.function.get(),
    )
}

#[tactic(auto, using(js_term_stack::specs::Stack_laws::extended_parts_none, js_term_stack::specs::Stack_laws::extended_parts_twice))]
fn members<F: Fn(usize, &mut Scopes, &mut Stack, Task<'_>) -> Result<(), OutOfMemory>>(
    lowerer: &Lowerer<F>,
    scopes: &mut Scopes,
    terms: &mut Stack,
    mut list: &[ClassMember],
) -> Result<(), OutOfMemory>
    requires { Nests lowerer.now.depth (F.pre lowerer.now.low) (F.post lowerer.now.low) }
    ensures ok { let b = low lowerer.now.depth in
        let made = flat (spec.member_parts b scopes.old) list.entry.now in
        OnOk result (terms.new ≡ extended_parts made terms.old) }
    ensures kept { OnOk result (scopes.new ≡ scopes.old) }
{
    while let [first, rest @ ..] = list {
        member(lowerer, scopes, terms, first)?;
        list = rest;
    }
    Ok(())
}

/// The term of an expression, if there is one.
pub fn maybe_expr<F: Fn(usize, &mut Scopes, &mut Stack, Task<'_>) -> Result<(), OutOfMemory>>(
    lowerer: &Lowerer<F>,
    scopes: &mut Scopes,
    terms: &mut Stack,
    tree: &Option<Boxed<Expr>>,
) -> Result<(), OutOfMemory>
    requires { Nests lowerer.now.depth (F.pre lowerer.now.low) (F.post lowerer.now.low) }
    ensures ok { let b = low lowerer.now.depth in
        let made = option_map (spec.expr b scopes.old) tree.now in
        OnOk result (terms.new ≡ piece.MaybeTerm made ∷ terms.old) }
    ensures kept { OnOk result (scopes.new ≡ scopes.old) }
{
    match tree {
        None => terms.none(),
        Some(tree) => {
            lower_expr(lowerer, scopes, terms, tree.get())?;
            terms.some()
        }
    }
}

fn constructor_kind(heritage: &Option<Boxed<Expr>>) -> TemplateKind
    ensures { result ≡ spec.constructor_kind heritage.now }
{
    match heritage {
        None => TemplateKind::Base,
        Some(_) => TemplateKind::Derived,
    }
}

/// The name of a function or class, which is empty where there is none.
pub fn name_text(alloc: Global, name: Option<&Text>) -> Result<Text, OutOfMemory>
    ensures { IfOk result (λ made. made ≡ given name.entry) }
{
    match name {
        None => word(alloc, b""),
        Some(name) => name.copy(),
    }
}

/// A class without the scope of its name.
pub fn class_term<F: Fn(usize, &mut Scopes, &mut Stack, Task<'_>) -> Result<(), OutOfMemory>>(
    lowerer: &Lowerer<F>,
    scopes: &mut Scopes,
    terms: &mut Stack,
    own: Option<&Text>,
    class: &Class,
) -> Result<(), OutOfMemory>
    requires { Nests lowerer.now.depth (F.pre lowerer.now.low) (F.post lowerer.now.low) }
    ensures ok { let b = low lowerer.now.depth in
        let made = spec.class_term b scopes.old (given own.entry) class.now in
        OnOk result (terms.new ≡ piece.OneTerm made ∷ terms.old) }
    ensures kept { OnOk result (scopes.new ≡ scopes.old) }
{
    let kind = constructor_kind(&class.heritage);
    let list = class.members.as_slice();
    maybe_expr(lowerer, scopes, terms, &class.heritage)?;
    class_constructor(lowerer, scopes, terms, kind, own, list)?;
    terms.begin_parts()?;
    members(lowerer, scopes, terms, list)?;
    let name = name_text(terms.alloc(), own)?;
    terms.class(name)
}

fn inner_class<F: Fn(usize, &mut Scopes, &mut Stack, Task<'_>) -> Result<(), OutOfMemory>>(
    lowerer: &Lowerer<F>,
    scopes: &mut Scopes,
    terms: &mut Stack,
    name: &Text,
    class: &Class,
) -> Result<(), OutOfMemory>
    requires { Nests lowerer.now.depth (F.pre lowerer.now.low) (F.post lowerer.now.low) }
    ensures ok { let b = low lowerer.now.depth in
        let made = (let inner = entries.own_name name.now ∷ scopes.old in
        spec.class_term b inner name.now class.now) in
        OnOk result (terms.new ≡ piece.OneTerm made ∷ terms.old) }
    ensures kept { OnOk result (scopes.new ≡ scopes.old) }
{
    scopes.open(own_name(terms.alloc(), name)?)?;
    class_term(lowerer, scopes, terms, Some(name), class)?;
    scopes.close();
    Ok(())
}

/// A class in the scope of its name.
pub fn named_class<F: Fn(usize, &mut Scopes, &mut Stack, Task<'_>) -> Result<(), OutOfMemory>>(
    lowerer: &Lowerer<F>,
    scopes: &mut Scopes,
    terms: &mut Stack,
    name: &Text,
    class: &Class,
) -> Result<(), OutOfMemory>
    requires { Nests lowerer.now.depth (F.pre lowerer.now.low) (F.post lowerer.now.low) }
    ensures ok { let b = low lowerer.now.depth in
        let made = spec.named_class b scopes.old name.now class.now in
        OnOk result (terms.new ≡ piece.OneTerm made ∷ terms.old) }
    ensures kept { OnOk result (scopes.new ≡ scopes.old) }
{
    inner_class(lowerer, scopes, terms, name, class)?;
    terms.init_here(0)?;
    terms.here(0)?;
    terms.list_two()?;
    terms.scope(1)
}

/// A class expression (ECMA-262, ClassDefinitionEvaluation).
pub fn class<F: Fn(usize, &mut Scopes, &mut Stack, Task<'_>) -> Result<(), OutOfMemory>>(
    lowerer: &Lowerer<F>,
    scopes: &mut Scopes,
    terms: &mut Stack,
    name: Option<&Text>,
    class: &Class,
) -> Result<(), OutOfMemory>
    requires { Nests lowerer.now.depth (F.pre lowerer.now.low) (F.post lowerer.now.low) }
    ensures ok { let b = low lowerer.now.depth in
        let made = spec.class b scopes.old (given name.entry) class.now in
        OnOk result (terms.new ≡ piece.OneTerm made ∷ terms.old) }
    ensures kept { OnOk result (scopes.new ≡ scopes.old) }
{
    match &class.name {
        None => class_term(lowerer, scopes, terms, name, class),
        Some(own) => named_class(lowerer, scopes, terms, &own.name, class),
    }
}
