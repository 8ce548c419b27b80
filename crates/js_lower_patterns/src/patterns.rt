// The terms of patterns.

ghost use Rattle.std.specs.Prelude.{◌≡◌, ◌+◌, ◌-◌, ◌++◌, ◌∷◌, [], map, length, true, false, IfOk, OnOk, Some, None, codes};
ghost use Rattle.std.specs.Option.{option_map};
ghost use Rattle.js_names.specs.Lists.{flat};
ghost use Rattle.js_term.specs.declared.term.Term.TheVariants as term;
ghost use Rattle.js_term.specs.declared.term.Part.TheVariants as part;
ghost use Rattle.js_term.specs.declared.term.TemplateKind.TheVariants as template;
ghost use Rattle.js_term_stack.specs.Stacks.{extended, extended_parts, function_part, on_one, on_list, taken, taken_pending};
ghost use Rattle.js_term_stack.specs.declared.piece.Piece.TheVariants as piece;
ghost use Rattle.js_term_stack.specs.declared.pending.Pending.TheVariants as pending;
ghost use Rattle.js_lower_table.specs.Values as values;
ghost use Rattle.js_lower_table.specs.Entries.{given, origin};
ghost use Rattle.js_lower_table.specs.Entries as entries;
ghost use Rattle.js_lower_table.specs.Nests.{Nests};
ghost use Rattle.js_lower_table.specs.Table.{low};
ghost use Rattle.js_tree.specs.declared.tree.PatternField.{out-PatternField};
ghost use Rattle.js_lower_table.specs.declared.commons.TheConstants.{OPEN};
ghost use Rattle.js_lower_table.specs.Expressions as expressions;
ghost use Rattle.js_lower_table.specs.Patterns as spec;

use crate::below::{lower_bind, lower_expr};
use crate::bound::{after_field, computed, key_slot, take_next, value};
use js_frames::frame::Frame;
use js_frames::scopes::Scopes;
use js_lower_expr::assignments::assign_to;
use js_lower_table::bindings::{bound_name, set};
use js_lower_table::bound_value::BoundValue;
use js_lower_table::commons::{BASE, OPEN};
use js_lower_table::held::Held;
use js_lower_table::lowerer::Lowerer;
use js_lower_table::task::Task;
use js_lower_table::values::{call_common_on, guard, next_held, scope_of, slot, to_key};
use js_lower_table::words::{after, count};
use js_term_stack::stack::Stack;
use js_text::text::Text;
use js_tree::tree::{Expr, Pattern, PatternElement, PatternField, PropertyKey};
use lava_base::memory::OutOfMemory;
use sqlite_items::Boxed;

fn with_default<F: Fn(usize, &mut Scopes, &mut Stack, Task<'_>) -> Result<(), OutOfMemory>>(
    lowerer: &Lowerer<F>,
    scopes: &mut Scopes,
    terms: &mut Stack,
    assigned: bool,
    from: BoundValue<'_>,
    pattern: &Pattern,
    default: &Expr,
) -> Result<(), OutOfMemory>
    requires { Nests lowerer.now.depth (F.pre lowerer.now.low) (F.post lowerer.now.low) }
    ensures ok { let b = low lowerer.now.depth in
        let made = spec.with_default b scopes.old assigned (origin from.entry)
        pattern.now default.now in
        OnOk result (terms.new ≡ piece.OneTerm made ∷ terms.old) }
    ensures kept { OnOk result (scopes.new ≡ scopes.old) }
{
    let given = next_held(scopes, 0);
    scopes.open(Frame::new(terms.alloc()))?;
    value(lowerer, scopes, terms, from)?;
    terms.init_here(0)?;
    let name = bound_name(pattern);
    let chosen = BoundValue::Defaulted {
        given,
        default,
        name,
    };
    lower_bind(lowerer, scopes, terms, assigned, chosen, pattern)?;
    scopes.close();
    terms.list_two()?;
    terms.scope(1)
}

fn pattern_element<F: Fn(usize, &mut Scopes, &mut Stack, Task<'_>) -> Result<(), OutOfMemory>>(
    lowerer: &Lowerer<F>,
    scopes: &mut Scopes,
    terms: &mut Stack,
    assigned: bool,
    from: BoundValue<'_>,
    element: &PatternElement,
) -> Result<(), OutOfMemory>
    requires { Nests lowerer.now.depth (F.pre lowerer.now.low) (F.post lowerer.now.low) }
    ensures ok { let b = low lowerer.now.depth in
        let made = spec.pattern_element b scopes.old assigned
        (origin from.entry) element.now in
        OnOk result (terms.new ≡ piece.OneTerm made ∷ terms.old) }
    ensures kept { OnOk result (scopes.new ≡ scopes.old) }
{
    let pattern = element.pattern.get();
    match &element.default {
        None => lower_bind(lowerer, scopes, terms, assigned, from, pattern),
        Some(default) => {
            with_default(
                lowerer,
                scopes,
                terms,
                assigned,
                from,
                pattern,
                default.get(),
            )
        }
    }
}

fn array_element<F: Fn(usize, &mut Scopes, &mut Stack, Task<'_>) -> Result<(), OutOfMemory>>(
    lowerer: &Lowerer<F>,
    scopes: &mut Scopes,
    terms: &mut Stack,
    assigned: bool,
    iterator: Held,
    element: &Option<PatternElement>,
) -> Result<(), OutOfMemory>
    requires { Nests lowerer.now.depth (F.pre lowerer.now.low) (F.post lowerer.now.low) }
    ensures ok { let b = low lowerer.now.depth in
        let made = spec.array_element b scopes.old assigned iterator element.now ∷ [] in
        OnOk result (terms.new ≡ extended made terms.old) }
    ensures kept { OnOk result (scopes.new ≡ scopes.old) }
{
    match element {
        None => take_next(scopes, terms, iterator)?,
        Some(element) => {
            let from = BoundValue::Taken(iterator);
            pattern_element(lowerer, scopes, terms, assigned, from, element)?
        }
    }
    terms.append()
}

#[tactic(auto, using(js_term_stack::specs::Stack_laws::extended_none, js_term_stack::specs::Stack_laws::extended_twice))]
fn array_elements<F: Fn(usize, &mut Scopes, &mut Stack, Task<'_>) -> Result<(), OutOfMemory>>(
    lowerer: &Lowerer<F>,
    scopes: &mut Scopes,
    terms: &mut Stack,
    assigned: bool,
    iterator: Held,
    mut list: &[Option<PatternElement>],
) -> Result<(), OutOfMemory>
    requires { Nests lowerer.now.depth (F.pre lowerer.now.low) (F.post lowerer.now.low) }
    ensures ok { let b = low lowerer.now.depth in
        let made = map (spec.array_element b scopes.old assigned iterator)
        list.entry.now in
        OnOk result (terms.new ≡ extended made terms.old) }
    ensures kept { OnOk result (scopes.new ≡ scopes.old) }
{
    while let [first, rest @ ..] = list {
        array_element(lowerer, scopes, terms, assigned, iterator, first)?;
        list = rest;
    }
    Ok(())
}

#[tactic(auto, using(js_term_stack::specs::Stack_laws::extended_none, js_term_stack::specs::Stack_laws::extended_twice))]
fn array_rest<F: Fn(usize, &mut Scopes, &mut Stack, Task<'_>) -> Result<(), OutOfMemory>>(
    lowerer: &Lowerer<F>,
    scopes: &mut Scopes,
    terms: &mut Stack,
    assigned: bool,
    iterator: Held,
    rest: &Option<Boxed<Pattern>>,
) -> Result<(), OutOfMemory>
    requires { Nests lowerer.now.depth (F.pre lowerer.now.low) (F.post lowerer.now.low) }
    ensures ok { let b = low lowerer.now.depth in
        let made = spec.array_rest b scopes.old assigned iterator rest.now in
        OnOk result (terms.new ≡ extended made terms.old) }
    ensures kept { OnOk result (scopes.new ≡ scopes.old) }
{
    match rest {
        None => Ok(()),
        Some(pattern) => {
            let from = BoundValue::Remaining(iterator);
            lower_bind(lowerer, scopes, terms, assigned, from, pattern.get())?;
            terms.append()
        }
    }
}

fn array_list<F: Fn(usize, &mut Scopes, &mut Stack, Task<'_>) -> Result<(), OutOfMemory>>(
    lowerer: &Lowerer<F>,
    scopes: &mut Scopes,
    terms: &mut Stack,
    assigned: bool,
    iterator: Held,
    list: &[Option<PatternElement>],
    rest: &Option<Boxed<Pattern>>,
) -> Result<(), OutOfMemory>
    requires { Nests lowerer.now.depth (F.pre lowerer.now.low) (F.post lowerer.now.low) }
    ensures ok { let b = low lowerer.now.depth in
        let made = term.Seq
        (spec.array_list b scopes.old assigned iterator list.now rest.now) in
        OnOk result (terms.new ≡ piece.OneTerm made ∷ terms.old) }
    ensures kept { OnOk result (scopes.new ≡ scopes.old) }
{
    terms.begin()?;
    array_elements(lowerer, scopes, terms, assigned, iterator, list)?;
    array_rest(lowerer, scopes, terms, assigned, iterator, rest)?;
    terms.seq()
}

/// The last term is gone over: its iterator stands in slot 0.
#[tactic(auto, using(js_term_stack::specs::Stack_laws::on_one_twice))]
pub fn opened(terms: &mut Stack) -> Result<(), OutOfMemory>
    ensures { OnOk result (terms.new ≡ on_one
        (λ t. values.init_here 0 (values.call_common OPEN (t ∷ []))) terms.old) }
{
    call_common_on(terms, OPEN)?;
    terms.init_here(0)
}

fn array_pattern<F: Fn(usize, &mut Scopes, &mut Stack, Task<'_>) -> Result<(), OutOfMemory>>(
    lowerer: &Lowerer<F>,
    scopes: &mut Scopes,
    terms: &mut Stack,
    assigned: bool,
    from: BoundValue<'_>,
    list: &[Option<PatternElement>],
    rest: &Option<Boxed<Pattern>>,
) -> Result<(), OutOfMemory>
    requires { Nests lowerer.now.depth (F.pre lowerer.now.low) (F.post lowerer.now.low) }
    ensures ok { let b = low lowerer.now.depth in
        let made = spec.array_pattern b scopes.old assigned (origin from.entry)
        list.now rest.now in
        OnOk result (terms.new ≡ piece.OneTerm made ∷ terms.old) }
    ensures kept { OnOk result (scopes.new ≡ scopes.old) }
{
    let iterator = next_held(scopes, 0);
    scopes.open(Frame::new(terms.alloc()))?;
    value(lowerer, scopes, terms, from)?;
    opened(terms)?;
    array_list(lowerer, scopes, terms, assigned, iterator, list, rest)?;
    scopes.close();
    guard(terms, after(scopes.len())?, iterator)?;
    terms.list_two()?;
    terms.scope(1)
}

fn keyed_value<F: Fn(usize, &mut Scopes, &mut Stack, Task<'_>) -> Result<(), OutOfMemory>>(
    lowerer: &Lowerer<F>,
    scopes: &mut Scopes,
    terms: &mut Stack,
    n: usize,
    key: &Expr,
) -> Result<(), OutOfMemory>
    requires { Nests lowerer.now.depth (F.pre lowerer.now.low) (F.post lowerer.now.low) }
    ensures ok { let b = low lowerer.now.depth in
        let made = values.init_here n
        (values.to_key (expressions.expr b scopes.old key.now)) ∷ [] in
        OnOk result (terms.new ≡ extended made terms.old) }
    ensures kept { OnOk result (scopes.new ≡ scopes.old) }
{
    lower_expr(lowerer, scopes, terms, key)?;
    to_key(terms)?;
    terms.init_here(count(n)?)?;
    terms.append()
}

fn named_field<F: Fn(usize, &mut Scopes, &mut Stack, Task<'_>) -> Result<(), OutOfMemory>>(
    lowerer: &Lowerer<F>,
    scopes: &mut Scopes,
    terms: &mut Stack,
    assigned: bool,
    object: Held,
    field: &PatternField,
) -> Result<(), OutOfMemory>
    requires { Nests lowerer.now.depth (F.pre lowerer.now.low) (F.post lowerer.now.low) }
    ensures ok { let b = low lowerer.now.depth in
        let made = spec.pattern_element b scopes.old assigned
        (entries.Named object (out-PatternField field.now).key)
        (out-PatternField field.now).element ∷ [] in
        OnOk result (terms.new ≡ extended made terms.old) }
    ensures kept { OnOk result (scopes.new ≡ scopes.old) }
{
    let from = BoundValue::Named(object, &field.key);
    pattern_element(lowerer, scopes, terms, assigned, from, &field.element)?;
    terms.append()
}

#[tactic(auto, using(js_term_stack::specs::Stack_laws::extended_none, js_term_stack::specs::Stack_laws::extended_twice))]
fn keyed_field<F: Fn(usize, &mut Scopes, &mut Stack, Task<'_>) -> Result<(), OutOfMemory>>(
    lowerer: &Lowerer<F>,
    scopes: &mut Scopes,
    terms: &mut Stack,
    assigned: bool,
    object: Held,
    held: Held,
    key: &Expr,
    element: &PatternElement,
) -> Result<(), OutOfMemory>
    requires { Nests lowerer.now.depth (F.pre lowerer.now.low) (F.post lowerer.now.low) }
    ensures ok { let b = low lowerer.now.depth in
        let made = values.init_here held.slot
        (values.to_key (expressions.expr b scopes.old key.now)) ∷
        spec.pattern_element b scopes.old assigned
        (entries.Keyed object held) element.now ∷ [] in
        OnOk result (terms.new ≡ extended made terms.old) }
    ensures kept { OnOk result (scopes.new ≡ scopes.old) }
{
    keyed_value(lowerer, scopes, terms, held.slot, key)?;
    let from = BoundValue::Keyed(object, held);
    pattern_element(lowerer, scopes, terms, assigned, from, element)?;
    terms.append()
}

fn field<F: Fn(usize, &mut Scopes, &mut Stack, Task<'_>) -> Result<(), OutOfMemory>>(
    lowerer: &Lowerer<F>,
    scopes: &mut Scopes,
    terms: &mut Stack,
    assigned: bool,
    object: Held,
    keys: usize,
    n: usize,
    field: &PatternField,
) -> Result<(), OutOfMemory>
    requires { Nests lowerer.now.depth (F.pre lowerer.now.low) (F.post lowerer.now.low) }
    ensures ok { let b = low lowerer.now.depth in
        let made = spec.field b scopes.old assigned object keys n field.now in
        OnOk result (terms.new ≡ extended made terms.old) }
    ensures kept { OnOk result (scopes.new ≡ scopes.old) }
{
    match &field.key {
        PropertyKey::Named(_) => named_field(lowerer, scopes, terms, assigned, object, field),
        PropertyKey::Numbered { .. } => {
            named_field(lowerer, scopes, terms, assigned, object, field)
        }
        PropertyKey::Computed { key, .. } => {
            let (held, element) = (key_slot(keys, n), &field.element);
            keyed_field(
                lowerer,
                scopes,
                terms,
                assigned,
                object,
                held,
                key.get(),
                element,
            )
        }
    }
}

#[tactic(auto, using(js_term_stack::specs::Stack_laws::extended_none, js_term_stack::specs::Stack_laws::extended_twice))]
fn fields<F: Fn(usize, &mut Scopes, &mut Stack, Task<'_>) -> Result<(), OutOfMemory>>(
    lowerer: &Lowerer<F>,
    scopes: &mut Scopes,
    terms: &mut Stack,
    assigned: bool,
    object: Held,
    keys: usize,
    mut list: &[PatternField],
) -> Result<(), OutOfMemory>
    requires { Nests lowerer.now.depth (F.pre lowerer.now.low) (F.post lowerer.now.low) }
    ensures ok { let b = low lowerer.now.depth in
        let made = spec.fields b list.entry.now scopes.old assigned object keys 0 in
        OnOk result (terms.new ≡ extended made terms.old) }
    ensures kept { OnOk result (scopes.new ≡ scopes.old) }
{
    let mut n = 0;
    while let [first, rest @ ..] = list {
        field(lowerer, scopes, terms, assigned, object, keys, n, first)?;
        n = after_field(n, first)?;
        list = rest;
    }
    Ok(())
}

#[tactic(auto, using(js_term_stack::specs::Stack_laws::extended_none, js_term_stack::specs::Stack_laws::extended_twice))]
fn object_rest<F: Fn(usize, &mut Scopes, &mut Stack, Task<'_>) -> Result<(), OutOfMemory>>(
    lowerer: &Lowerer<F>,
    scopes: &mut Scopes,
    terms: &mut Stack,
    assigned: bool,
    object: Held,
    keys: usize,
    fields: &[PatternField],
    rest: &Option<Boxed<Pattern>>,
) -> Result<(), OutOfMemory>
    requires { Nests lowerer.now.depth (F.pre lowerer.now.low) (F.post lowerer.now.low) }
    ensures ok { let b = low lowerer.now.depth in
        let made = spec.object_rest b scopes.old assigned object keys
        fields.now rest.now in
        OnOk result (terms.new ≡ extended made terms.old) }
    ensures kept { OnOk result (scopes.new ≡ scopes.old) }
{
    match rest {
        None => Ok(()),
        Some(pattern) => {
            let from = BoundValue::Omitted {
                object,
                keys,
                fields,
            };
            lower_bind(lowerer, scopes, terms, assigned, from, pattern.get())?;
            terms.append()
        }
    }
}

fn object_list<F: Fn(usize, &mut Scopes, &mut Stack, Task<'_>) -> Result<(), OutOfMemory>>(
    lowerer: &Lowerer<F>,
    scopes: &mut Scopes,
    terms: &mut Stack,
    assigned: bool,
    object: Held,
    keys: usize,
    list: &[PatternField],
    rest: &Option<Boxed<Pattern>>,
) -> Result<(), OutOfMemory>
    requires { Nests lowerer.now.depth (F.pre lowerer.now.low) (F.post lowerer.now.low) }
    ensures ok { let b = low lowerer.now.depth in
        let made = spec.object_list b scopes.old assigned object keys list.now rest.now in
        OnOk result (terms.new ≡ piece.TermList made ∷ terms.old) }
    ensures kept { OnOk result (scopes.new ≡ scopes.old) }
{
    terms.begin()?;
    slot(scopes, terms, object)?;
    call_common_on(terms, BASE)?;
    terms.append()?;
    fields(lowerer, scopes, terms, assigned, object, keys, list)?;
    object_rest(lowerer, scopes, terms, assigned, object, keys, list, rest)
}

fn object_inside<F: Fn(usize, &mut Scopes, &mut Stack, Task<'_>) -> Result<(), OutOfMemory>>(
    lowerer: &Lowerer<F>,
    scopes: &mut Scopes,
    terms: &mut Stack,
    assigned: bool,
    object: Held,
    list: &[PatternField],
    rest: &Option<Boxed<Pattern>>,
) -> Result<(), OutOfMemory>
    requires { Nests lowerer.now.depth (F.pre lowerer.now.low) (F.post lowerer.now.low) }
    ensures ok { let b = low lowerer.now.depth in
        let made = spec.object_list b ([] ∷ scopes.old) assigned object
        (length scopes.old) list.now rest.now in
        OnOk result (terms.new ≡ piece.TermList made ∷ terms.old) }
    ensures kept { OnOk result (scopes.new ≡ scopes.old) }
{
    let keys = scopes.len();
    scopes.open(Frame::new(terms.alloc()))?;
    object_list(lowerer, scopes, terms, assigned, object, keys, list, rest)?;
    scopes.close();
    Ok(())
}

fn object_pattern<F: Fn(usize, &mut Scopes, &mut Stack, Task<'_>) -> Result<(), OutOfMemory>>(
    lowerer: &Lowerer<F>,
    scopes: &mut Scopes,
    terms: &mut Stack,
    assigned: bool,
    object: Held,
    list: &[PatternField],
    rest: &Option<Boxed<Pattern>>,
) -> Result<(), OutOfMemory>
    requires { Nests lowerer.now.depth (F.pre lowerer.now.low) (F.post lowerer.now.low) }
    ensures ok { let b = low lowerer.now.depth in
        let made = spec.object_pattern b scopes.old assigned object list.now rest.now in
        OnOk result (terms.new ≡ piece.OneTerm made ∷ terms.old) }
    ensures kept { OnOk result (scopes.new ≡ scopes.old) }
{
    let keys = computed(list)?;
    if 0 < keys {
        object_inside(lowerer, scopes, terms, assigned, object, list, rest)?;
        return scope_of(terms, keys);
    }
    let level = scopes.len();
    object_list(lowerer, scopes, terms, assigned, object, level, list, rest)?;
    terms.seq()
}

fn object_held<F: Fn(usize, &mut Scopes, &mut Stack, Task<'_>) -> Result<(), OutOfMemory>>(
    lowerer: &Lowerer<F>,
    scopes: &mut Scopes,
    terms: &mut Stack,
    assigned: bool,
    from: BoundValue<'_>,
    list: &[PatternField],
    rest: &Option<Boxed<Pattern>>,
) -> Result<(), OutOfMemory>
    requires { Nests lowerer.now.depth (F.pre lowerer.now.low) (F.post lowerer.now.low) }
    ensures ok { let b = low lowerer.now.depth in
        let made = spec.object_held b scopes.old assigned (origin from.entry)
        list.now rest.now in
        OnOk result (terms.new ≡ piece.OneTerm made ∷ terms.old) }
    ensures kept { OnOk result (scopes.new ≡ scopes.old) }
{
    let held = next_held(scopes, 0);
    scopes.open(Frame::new(terms.alloc()))?;
    value(lowerer, scopes, terms, from)?;
    terms.init_here(0)?;
    object_pattern(lowerer, scopes, terms, assigned, held, list, rest)?;
    scopes.close();
    terms.list_two()?;
    terms.scope(1)
}

fn object_from<F: Fn(usize, &mut Scopes, &mut Stack, Task<'_>) -> Result<(), OutOfMemory>>(
    lowerer: &Lowerer<F>,
    scopes: &mut Scopes,
    terms: &mut Stack,
    assigned: bool,
    from: BoundValue<'_>,
    list: &[PatternField],
    rest: &Option<Boxed<Pattern>>,
) -> Result<(), OutOfMemory>
    requires { Nests lowerer.now.depth (F.pre lowerer.now.low) (F.post lowerer.now.low) }
    ensures ok { let b = low lowerer.now.depth in
        let made = spec.object_from b scopes.old assigned (origin from.entry)
        list.now rest.now in
        OnOk result (terms.new ≡ piece.OneTerm made ∷ terms.old) }
    ensures kept { OnOk result (scopes.new ≡ scopes.old) }
{
    if let BoundValue::InSlot(held) = from {
        return object_pattern(lowerer, scopes, terms, assigned, held, list, rest);
    }
    object_held(lowerer, scopes, terms, assigned, from, list, rest)
}

fn bind_name<F: Fn(usize, &mut Scopes, &mut Stack, Task<'_>) -> Result<(), OutOfMemory>>(
    lowerer: &Lowerer<F>,
    scopes: &mut Scopes,
    terms: &mut Stack,
    assigned: bool,
    from: BoundValue<'_>,
    name: &Text,
) -> Result<(), OutOfMemory>
    requires { Nests lowerer.now.depth (F.pre lowerer.now.low) (F.post lowerer.now.low) }
    ensures ok { let b = low lowerer.now.depth in
        let made = values.set scopes.old assigned name.now
        (spec.value b scopes.old (origin from.entry)) in
        OnOk result (terms.new ≡ piece.OneTerm made ∷ terms.old) }
    ensures kept { OnOk result (scopes.new ≡ scopes.old) }
{
    value(lowerer, scopes, terms, from)?;
    set(scopes, terms, assigned, name)
}

fn bind_target<F: Fn(usize, &mut Scopes, &mut Stack, Task<'_>) -> Result<(), OutOfMemory>>(
    lowerer: &Lowerer<F>,
    scopes: &mut Scopes,
    terms: &mut Stack,
    from: BoundValue<'_>,
    target: &Expr,
) -> Result<(), OutOfMemory>
    requires { Nests lowerer.now.depth (F.pre lowerer.now.low) (F.post lowerer.now.low) }
    ensures ok { let b = low lowerer.now.depth in
        let made = expressions.assign_to b scopes.old
        (spec.value b scopes.old (origin from.entry)) target.now in
        OnOk result (terms.new ≡ piece.OneTerm made ∷ terms.old) }
    ensures kept { OnOk result (scopes.new ≡ scopes.old) }
{
    value(lowerer, scopes, terms, from)?;
    assign_to(lowerer, scopes, terms, target)
}

/// The term that binds a pattern to a value (ECMA-262, BindingInitialization and DestructuringAssignmentEvaluation).
pub fn bind_row<F: Fn(usize, &mut Scopes, &mut Stack, Task<'_>) -> Result<(), OutOfMemory>>(
    lowerer: &Lowerer<F>,
    scopes: &mut Scopes,
    terms: &mut Stack,
    assigned: bool,
    from: BoundValue<'_>,
    pattern: &Pattern,
) -> Result<(), OutOfMemory>
    requires { Nests lowerer.now.depth (F.pre lowerer.now.low) (F.post lowerer.now.low) }
    ensures ok { let b = low lowerer.now.depth in
        let made = spec.bind_row b scopes.old assigned (origin from.entry) pattern.now in
        OnOk result (terms.new ≡ piece.OneTerm made ∷ terms.old) }
    ensures kept { OnOk result (scopes.new ≡ scopes.old) }
{
    match pattern {
        Pattern::Bound(identifier) => {
            bind_name(lowerer, scopes, terms, assigned, from, &identifier.name)
        }
        Pattern::Target(target) => bind_target(lowerer, scopes, terms, from, target.get()),
        Pattern::ObjectPattern { fields, rest, .. } => {
            object_from(
                lowerer,
                scopes,
                terms,
                assigned,
                from,
                fields.as_slice(),
                rest,
            )
        }
        Pattern::ArrayPattern { elements, rest, .. } => {
            array_pattern(
                lowerer,
                scopes,
                terms,
                assigned,
                from,
                elements.as_slice(),
                rest,
            )
        }
    }
}
