// Arguments, arrays, objects and template literals.

ghost use Rattle.std.specs.Prelude.{◌≡◌, ◌+◌, ◌-◌, ◌++◌, ◌∷◌, [], map, length, true, false, IfOk, OnOk, Some, None, codes};
ghost use Rattle.std.specs.Option.{option_map};
ghost use Rattle.js_names.specs.Lists.{flat};
ghost use Rattle.js_term.specs.declared.term.Term.TheVariants as term;
ghost use Rattle.js_term.specs.declared.term.Part.TheVariants as part;
ghost use Rattle.js_term.specs.declared.term.TemplateKind.TheVariants as template;
ghost use Rattle.js_term_stack.specs.Stacks.{extended, extended_parts, function_part, on_one, on_list, taken, taken_pending};
ghost use Rattle.js_term_stack.specs.declared.piece.Piece.TheVariants as piece;
ghost use Rattle.js_term_stack.specs.declared.pending.Pending.TheVariants as pending;
ghost use Rattle.js_lower_table.specs.Values as values;
ghost use Rattle.js_lower_table.specs.Entries.{given, origin};
ghost use Rattle.js_lower_table.specs.Entries as entries;
ghost use Rattle.js_lower_table.specs.Nests.{Nests};
ghost use Rattle.js_lower_table.specs.Table.{low};
ghost use Rattle.js_lower_table.specs.Expressions as spec;

use crate::below::{lower_expr, lower_named, lower_template};
use js_frames::scopes::Scopes;
use js_lower_table::bindings::key_name;
use js_lower_table::lowerer::Lowerer;
use js_lower_table::task::Task;
use js_lower_table::values::{begin_array, number_key, to_text};
use js_term::term::TemplateKind;
use js_term_stack::stack::Stack;
use js_text::native::Native;
use js_text::text::Text;
use js_tree::tree::{Argument, ArrayElement, Expr, Function, FunctionKind, Property, PropertyKey};
use lava_base::memory::OutOfMemory;
use sqlite_items::Boxed;

fn element<F: Fn(usize, &mut Scopes, &mut Stack, Task<'_>) -> Result<(), OutOfMemory>>(
    lowerer: &Lowerer<F>,
    scopes: &mut Scopes,
    terms: &mut Stack,
    element: &ArrayElement,
) -> Result<(), OutOfMemory>
    requires { Nests lowerer.now.depth (F.pre lowerer.now.low) (F.post lowerer.now.low) }
    ensures ok { let b = low lowerer.now.depth in
        let made = spec.element b scopes.old element.now ∷ [] in
        OnOk result (terms.new ≡ extended_parts made terms.old) }
    ensures kept { OnOk result (scopes.new ≡ scopes.old) }
{
    match element {
        ArrayElement::Hole => terms.hole(),
        ArrayElement::Element(value) => {
            lower_expr(lowerer, scopes, terms, value.get())?;
            terms.item()
        }
        ArrayElement::SpreadElement(value) => {
            lower_expr(lowerer, scopes, terms, value.get())?;
            terms.spread()
        }
    }
}

/// The parts of an array literal (ECMA-262, ArrayAccumulation).
#[tactic(auto, using(js_term_stack::specs::Stack_laws::extended_parts_none, js_term_stack::specs::Stack_laws::extended_parts_twice))]
pub fn elements<F: Fn(usize, &mut Scopes, &mut Stack, Task<'_>) -> Result<(), OutOfMemory>>(
    lowerer: &Lowerer<F>,
    scopes: &mut Scopes,
    terms: &mut Stack,
    mut list: &[ArrayElement],
) -> Result<(), OutOfMemory>
    requires { Nests lowerer.now.depth (F.pre lowerer.now.low) (F.post lowerer.now.low) }
    ensures ok { let b = low lowerer.now.depth in
        let made = map (spec.element b scopes.old) list.entry.now in
        OnOk result (terms.new ≡ extended_parts made terms.old) }
    ensures kept { OnOk result (scopes.new ≡ scopes.old) }
{
    while let [first, rest @ ..] = list {
        element(lowerer, scopes, terms, first)?;
        list = rest;
    }
    Ok(())
}

fn is_spread(argument: &Argument) -> bool
    ensures { result ≡ spec.is_spread argument.now }
{
    match argument {
        Argument::Operand(_) => false,
        Argument::SpreadArgument(_) => true,
    }
}

fn has_spread(mut list: &[Argument]) -> bool
    ensures { result ≡ spec.has_spread list.entry.now }
{
    while let [first, rest @ ..] = list {
        if is_spread(first) {
            return true;
        }
        list = rest;
    }
    false
}

fn argument<F: Fn(usize, &mut Scopes, &mut Stack, Task<'_>) -> Result<(), OutOfMemory>>(
    lowerer: &Lowerer<F>,
    scopes: &mut Scopes,
    terms: &mut Stack,
    argument: &Argument,
) -> Result<(), OutOfMemory>
    requires { Nests lowerer.now.depth (F.pre lowerer.now.low) (F.post lowerer.now.low) }
    ensures ok { let b = low lowerer.now.depth in
        let made = spec.argument b scopes.old argument.now ∷ [] in
        OnOk result (terms.new ≡ extended_parts made terms.old) }
    ensures kept { OnOk result (scopes.new ≡ scopes.old) }
{
    match argument {
        Argument::Operand(value) => {
            lower_expr(lowerer, scopes, terms, value.get())?;
            terms.item()
        }
        Argument::SpreadArgument(value) => {
            lower_expr(lowerer, scopes, terms, value.get())?;
            terms.spread()
        }
    }
}

#[tactic(auto, using(js_term_stack::specs::Stack_laws::extended_parts_none, js_term_stack::specs::Stack_laws::extended_parts_twice))]
fn argument_parts<F: Fn(usize, &mut Scopes, &mut Stack, Task<'_>) -> Result<(), OutOfMemory>>(
    lowerer: &Lowerer<F>,
    scopes: &mut Scopes,
    terms: &mut Stack,
    mut list: &[Argument],
) -> Result<(), OutOfMemory>
    requires { Nests lowerer.now.depth (F.pre lowerer.now.low) (F.post lowerer.now.low) }
    ensures ok { let b = low lowerer.now.depth in
        let made = map (spec.argument b scopes.old) list.entry.now in
        OnOk result (terms.new ≡ extended_parts made terms.old) }
    ensures kept { OnOk result (scopes.new ≡ scopes.old) }
{
    while let [first, rest @ ..] = list {
        argument(lowerer, scopes, terms, first)?;
        list = rest;
    }
    Ok(())
}

fn plain_argument<F: Fn(usize, &mut Scopes, &mut Stack, Task<'_>) -> Result<(), OutOfMemory>>(
    lowerer: &Lowerer<F>,
    scopes: &mut Scopes,
    terms: &mut Stack,
    argument: &Argument,
) -> Result<(), OutOfMemory>
    requires { Nests lowerer.now.depth (F.pre lowerer.now.low) (F.post lowerer.now.low) }
    ensures ok { let b = low lowerer.now.depth in
        let made = spec.plain_argument b scopes.old argument.now ∷ [] in
        OnOk result (terms.new ≡ extended made terms.old) }
    ensures kept { OnOk result (scopes.new ≡ scopes.old) }
{
    match argument {
        Argument::Operand(value) => lower_expr(lowerer, scopes, terms, value.get())?,
        Argument::SpreadArgument(value) => lower_expr(lowerer, scopes, terms, value.get())?,
    }
    terms.append()
}

#[tactic(auto, using(js_term_stack::specs::Stack_laws::extended_none, js_term_stack::specs::Stack_laws::extended_twice))]
pub fn plain_arguments<F: Fn(usize, &mut Scopes, &mut Stack, Task<'_>) -> Result<(), OutOfMemory>>(
    lowerer: &Lowerer<F>,
    scopes: &mut Scopes,
    terms: &mut Stack,
    mut list: &[Argument],
) -> Result<(), OutOfMemory>
    requires { Nests lowerer.now.depth (F.pre lowerer.now.low) (F.post lowerer.now.low) }
    ensures ok { let b = low lowerer.now.depth in
        let made = map (spec.plain_argument b scopes.old) list.entry.now in
        OnOk result (terms.new ≡ extended made terms.old) }
    ensures kept { OnOk result (scopes.new ≡ scopes.old) }
{
    while let [first, rest @ ..] = list {
        plain_argument(lowerer, scopes, terms, first)?;
        list = rest;
    }
    Ok(())
}

/// The arguments of a call as an array.
pub fn argument_array<F: Fn(usize, &mut Scopes, &mut Stack, Task<'_>) -> Result<(), OutOfMemory>>(
    lowerer: &Lowerer<F>,
    scopes: &mut Scopes,
    terms: &mut Stack,
    list: &[Argument],
) -> Result<(), OutOfMemory>
    requires { Nests lowerer.now.depth (F.pre lowerer.now.low) (F.post lowerer.now.low) }
    ensures ok { let b = low lowerer.now.depth in
        let made = spec.argument_array b scopes.old list.now in
        OnOk result (terms.new ≡ piece.OneTerm made ∷ terms.old) }
    ensures kept { OnOk result (scopes.new ≡ scopes.old) }
{
    begin_array(terms)?;
    argument_parts(lowerer, scopes, terms, list)?;
    terms.define()
}

/// The arguments of a call (ECMA-262, ArgumentListEvaluation).
pub fn arguments<F: Fn(usize, &mut Scopes, &mut Stack, Task<'_>) -> Result<(), OutOfMemory>>(
    lowerer: &Lowerer<F>,
    scopes: &mut Scopes,
    terms: &mut Stack,
    list: &[Argument],
) -> Result<(), OutOfMemory>
    requires { Nests lowerer.now.depth (F.pre lowerer.now.low) (F.post lowerer.now.low) }
    ensures ok { let b = low lowerer.now.depth in
        let made = spec.arguments b scopes.old list.now in
        OnOk result (terms.new ≡ piece.ArgumentList made ∷ terms.old) }
    ensures kept { OnOk result (scopes.new ≡ scopes.old) }
{
    if has_spread(list) {
        argument_array(lowerer, scopes, terms, list)?;
        return terms.spread_out();
    }
    terms.begin()?;
    plain_arguments(lowerer, scopes, terms, list)?;
    terms.listed()
}

fn expression<F: Fn(usize, &mut Scopes, &mut Stack, Task<'_>) -> Result<(), OutOfMemory>>(
    lowerer: &Lowerer<F>,
    scopes: &mut Scopes,
    terms: &mut Stack,
    tree: &Boxed<Expr>,
) -> Result<(), OutOfMemory>
    requires { Nests lowerer.now.depth (F.pre lowerer.now.low) (F.post lowerer.now.low) }
    ensures ok { let b = low lowerer.now.depth in
        let made = spec.expr b scopes.old tree.now ∷ [] in
        OnOk result (terms.new ≡ extended made terms.old) }
    ensures kept { OnOk result (scopes.new ≡ scopes.old) }
{
    lower_expr(lowerer, scopes, terms, tree.get())?;
    terms.append()
}

#[tactic(auto, using(js_term_stack::specs::Stack_laws::extended_none, js_term_stack::specs::Stack_laws::extended_twice))]
pub fn expressions<F: Fn(usize, &mut Scopes, &mut Stack, Task<'_>) -> Result<(), OutOfMemory>>(
    lowerer: &Lowerer<F>,
    scopes: &mut Scopes,
    terms: &mut Stack,
    mut list: &[Boxed<Expr>],
) -> Result<(), OutOfMemory>
    requires { Nests lowerer.now.depth (F.pre lowerer.now.low) (F.post lowerer.now.low) }
    ensures ok { let b = low lowerer.now.depth in
        let made = map (spec.expr b scopes.old) list.entry.now in
        OnOk result (terms.new ≡ extended made terms.old) }
    ensures kept { OnOk result (scopes.new ≡ scopes.old) }
{
    while let [first, rest @ ..] = list {
        expression(lowerer, scopes, terms, first)?;
        list = rest;
    }
    Ok(())
}

fn substitution<F: Fn(usize, &mut Scopes, &mut Stack, Task<'_>) -> Result<(), OutOfMemory>>(
    lowerer: &Lowerer<F>,
    scopes: &mut Scopes,
    terms: &mut Stack,
    tree: &Boxed<Expr>,
) -> Result<(), OutOfMemory>
    requires { Nests lowerer.now.depth (F.pre lowerer.now.low) (F.post lowerer.now.low) }
    ensures ok { let b = low lowerer.now.depth in
        let made = values.to_text (spec.expr b scopes.old tree.now) ∷ [] in
        OnOk result (terms.new ≡ extended made terms.old) }
    ensures kept { OnOk result (scopes.new ≡ scopes.old) }
{
    lower_expr(lowerer, scopes, terms, tree.get())?;
    to_text(terms)?;
    terms.append()
}

fn string(terms: &mut Stack, value: &Text) -> Result<(), OutOfMemory>
    ensures { OnOk result (terms.new ≡ extended (values.text value.now ∷ []) terms.old) }
{
    terms.text_of(value)?;
    terms.append()
}

#[tactic(auto, using(js_term_stack::specs::Stack_laws::extended_none, js_term_stack::specs::Stack_laws::extended_twice))]
fn template_operands<F: Fn(usize, &mut Scopes, &mut Stack, Task<'_>) -> Result<(), OutOfMemory>>(
    lowerer: &Lowerer<F>,
    scopes: &mut Scopes,
    terms: &mut Stack,
    mut strings: &[Text],
    mut list: &[Boxed<Expr>],
) -> Result<(), OutOfMemory>
    requires { Nests lowerer.now.depth (F.pre lowerer.now.low) (F.post lowerer.now.low) }
    ensures ok { let b = low lowerer.now.depth in
        let made = spec.template_operands b scopes.old strings.entry.now list.entry.now in
        OnOk result (terms.new ≡ extended made terms.old) }
    ensures kept { OnOk result (scopes.new ≡ scopes.old) }
{
    while let [first, others @ ..] = strings {
        string(terms, first)?;
        if let [tree, rest @ ..] = list {
            substitution(lowerer, scopes, terms, tree)?;
            list = rest;
        }
        strings = others;
    }
    Ok(())
}

/// ECMA-262, TemplateLiteral.
pub fn template_literal<F: Fn(usize, &mut Scopes, &mut Stack, Task<'_>) -> Result<(), OutOfMemory>>(
    lowerer: &Lowerer<F>,
    scopes: &mut Scopes,
    terms: &mut Stack,
    strings: &[Text],
    list: &[Boxed<Expr>],
) -> Result<(), OutOfMemory>
    requires { Nests lowerer.now.depth (F.pre lowerer.now.low) (F.post lowerer.now.low) }
    ensures ok { let b = low lowerer.now.depth in
        let made = spec.template_literal b scopes.old strings.now list.now in
        OnOk result (terms.new ≡ piece.OneTerm made ∷ terms.old) }
    ensures kept { OnOk result (scopes.new ≡ scopes.old) }
{
    terms.begin()?;
    template_operands(lowerer, scopes, terms, strings, list)?;
    terms.native(Native::Concat)
}

/// The term of a key (ECMA-262, PropertyName).
pub fn key<F: Fn(usize, &mut Scopes, &mut Stack, Task<'_>) -> Result<(), OutOfMemory>>(
    lowerer: &Lowerer<F>,
    scopes: &mut Scopes,
    terms: &mut Stack,
    key: &PropertyKey,
) -> Result<(), OutOfMemory>
    requires { Nests lowerer.now.depth (F.pre lowerer.now.low) (F.post lowerer.now.low) }
    ensures ok { let b = low lowerer.now.depth in
        let made = spec.key b scopes.old key.now in
        OnOk result (terms.new ≡ piece.OneTerm made ∷ terms.old) }
    ensures kept { OnOk result (scopes.new ≡ scopes.old) }
{
    match key {
        PropertyKey::Named(identifier) => terms.text_of(&identifier.name),
        PropertyKey::Numbered { value, .. } => number_key(terms, *value),
        PropertyKey::Computed { key, .. } => lower_expr(lowerer, scopes, terms, key.get()),
    }
}

fn property_part(terms: &mut Stack, is_static: bool, kind: FunctionKind) -> Result<(), OutOfMemory>
    ensures { OnOk result (terms.new ≡ function_part
        (λ k t. spec.property_part is_static kind k t) terms.old) }
{
    match kind {
        FunctionKind::Getter => terms.getter(is_static),
        FunctionKind::Setter => terms.setter(is_static),
        FunctionKind::Plain => terms.method(is_static),
        FunctionKind::Arrow => terms.method(is_static),
        FunctionKind::Method => terms.method(is_static),
    }
}

fn method_template<F: Fn(usize, &mut Scopes, &mut Stack, Task<'_>) -> Result<(), OutOfMemory>>(
    lowerer: &Lowerer<F>,
    scopes: &mut Scopes,
    terms: &mut Stack,
    key: &PropertyKey,
    function: &Function,
) -> Result<(), OutOfMemory>
    requires { Nests lowerer.now.depth (F.pre lowerer.now.low) (F.post lowerer.now.low) }
    ensures ok { let b = low lowerer.now.depth in
        let made = b.template scopes.old template.Method (entries.key_name key.now) function.now in
        OnOk result (terms.new ≡ piece.OneTemplate made ∷ terms.old) }
    ensures kept { OnOk result (scopes.new ≡ scopes.old) }
{
    let name = key_name(terms.alloc(), key)?;
    lower_template(
        lowerer,
        scopes,
        terms,
        TemplateKind::Method,
        Some(&name),
        function,
    )
}

/// A method, getter or setter (ECMA-262, MethodDefinitionEvaluation).
pub fn method<F: Fn(usize, &mut Scopes, &mut Stack, Task<'_>) -> Result<(), OutOfMemory>>(
    lowerer: &Lowerer<F>,
    scopes: &mut Scopes,
    terms: &mut Stack,
    is_static: bool,
    name: &PropertyKey,
    function: &Function,
) -> Result<(), OutOfMemory>
    requires { Nests lowerer.now.depth (F.pre lowerer.now.low) (F.post lowerer.now.low) }
    ensures ok { let b = low lowerer.now.depth in
        let made = spec.method b scopes.old is_static name.now function.now ∷ [] in
        OnOk result (terms.new ≡ extended_parts made terms.old) }
    ensures kept { OnOk result (scopes.new ≡ scopes.old) }
{
    key(lowerer, scopes, terms, name)?;
    method_template(lowerer, scopes, terms, name, function)?;
    property_part(terms, is_static, function.kind)
}

fn property_value<F: Fn(usize, &mut Scopes, &mut Stack, Task<'_>) -> Result<(), OutOfMemory>>(
    lowerer: &Lowerer<F>,
    scopes: &mut Scopes,
    terms: &mut Stack,
    key: &PropertyKey,
    value: &Expr,
) -> Result<(), OutOfMemory>
    requires { Nests lowerer.now.depth (F.pre lowerer.now.low) (F.post lowerer.now.low) }
    ensures ok { let b = low lowerer.now.depth in
        let made = b.expr scopes.old (entries.key_name key.now) value.now in
        OnOk result (terms.new ≡ piece.OneTerm made ∷ terms.old) }
    ensures kept { OnOk result (scopes.new ≡ scopes.old) }
{
    let name = key_name(terms.alloc(), key)?;
    lower_named(lowerer, scopes, terms, Some(&name), value)
}

fn data_property<F: Fn(usize, &mut Scopes, &mut Stack, Task<'_>) -> Result<(), OutOfMemory>>(
    lowerer: &Lowerer<F>,
    scopes: &mut Scopes,
    terms: &mut Stack,
    name: &PropertyKey,
    tree: &Expr,
) -> Result<(), OutOfMemory>
    requires { Nests lowerer.now.depth (F.pre lowerer.now.low) (F.post lowerer.now.low) }
    ensures ok { let b = low lowerer.now.depth in
        let made = spec.data_property b scopes.old name.now tree.now ∷ [] in
        OnOk result (terms.new ≡ extended_parts made terms.old) }
    ensures kept { OnOk result (scopes.new ≡ scopes.old) }
{
    key(lowerer, scopes, terms, name)?;
    property_value(lowerer, scopes, terms, name, tree)?;
    terms.data()
}

fn property<F: Fn(usize, &mut Scopes, &mut Stack, Task<'_>) -> Result<(), OutOfMemory>>(
    lowerer: &Lowerer<F>,
    scopes: &mut Scopes,
    terms: &mut Stack,
    property: &Property,
) -> Result<(), OutOfMemory>
    requires { Nests lowerer.now.depth (F.pre lowerer.now.low) (F.post lowerer.now.low) }
    ensures ok { let b = low lowerer.now.depth in
        let made = spec.property b scopes.old property.now ∷ [] in
        OnOk result (terms.new ≡ extended_parts made terms.old) }
    ensures kept { OnOk result (scopes.new ≡ scopes.old) }
{
    match property {
        Property::Valued { key, value } => data_property(lowerer, scopes, terms, key, value.get()),
        Property::Defined { key, function } => method(
            lowerer,
            scopes,
            terms,
            false,
            key,
            function.get(),
        ),
        Property::SpreadProperty(value) => {
            lower_expr(lowerer, scopes, terms, value.get())?;
            terms.spread()
        }
        Property::Initialized { .. } => terms.hole(),
    }
}

/// The parts of an object literal (ECMA-262, PropertyDefinitionEvaluation).
#[tactic(auto, using(js_term_stack::specs::Stack_laws::extended_parts_none, js_term_stack::specs::Stack_laws::extended_parts_twice))]
pub fn properties<F: Fn(usize, &mut Scopes, &mut Stack, Task<'_>) -> Result<(), OutOfMemory>>(
    lowerer: &Lowerer<F>,
    scopes: &mut Scopes,
    terms: &mut Stack,
    mut list: &[Property],
) -> Result<(), OutOfMemory>
    requires { Nests lowerer.now.depth (F.pre lowerer.now.low) (F.post lowerer.now.low) }
    ensures ok { let b = low lowerer.now.depth in
        let made = map (spec.property b scopes.old) list.entry.now in
        OnOk result (terms.new ≡ extended_parts made terms.old) }
    ensures kept { OnOk result (scopes.new ≡ scopes.old) }
{
    while let [first, rest @ ..] = list {
        property(lowerer, scopes, terms, first)?;
        list = rest;
    }
    Ok(())
}
