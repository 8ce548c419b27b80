// Where the values come from that patterns bind.

ghost use Rattle.std.specs.Prelude.{◌≡◌, ◌+◌, ◌-◌, ◌++◌, ◌∷◌, [], map, length, true, false, IfOk, OnOk, Some, None, codes};
ghost use Rattle.std.specs.Option.{option_map};
ghost use Rattle.js_names.specs.Lists.{flat};
ghost use Rattle.js_term.specs.declared.term.Term.TheVariants as term;
ghost use Rattle.js_term.specs.declared.term.Part.TheVariants as part;
ghost use Rattle.js_term.specs.declared.term.TemplateKind.TheVariants as template;
ghost use Rattle.js_term_stack.specs.Stacks.{extended, extended_parts, function_part, on_one, on_list, taken, taken_pending};
ghost use Rattle.js_term_stack.specs.declared.piece.Piece.TheVariants as piece;
ghost use Rattle.js_term_stack.specs.declared.pending.Pending.TheVariants as pending;
ghost use Rattle.js_lower_table.specs.Values as values;
ghost use Rattle.js_lower_table.specs.Entries.{given, origin};
ghost use Rattle.js_lower_table.specs.Entries as entries;
ghost use Rattle.js_lower_table.specs.Nests.{Nests};
ghost use Rattle.js_lower_table.specs.Table.{low};
ghost use Rattle.js_tree.specs.declared.tree.PatternField.{out-PatternField};
ghost use Rattle.js_lower_table.specs.declared.commons.TheConstants.{OPEN};
ghost use Rattle.js_lower_table.specs.Expressions as expressions;
ghost use Rattle.js_lower_table.specs.Patterns as spec;

use crate::below::{lower_expr, lower_named};
use js_frames::scopes::Scopes;
use js_lower_table::bindings::plain_key;
use js_lower_table::bound_value::BoundValue;
use js_lower_table::commons::OMIT;
use js_lower_table::held::Held;
use js_lower_table::lowerer::Lowerer;
use js_lower_table::task::Task;
use js_lower_table::values::{begin_array, call_common, call_name, slot, word_term};
use js_lower_table::words::after;
use js_term_stack::stack::Stack;
use js_text::text::Text;
use js_tree::operator::BinaryOperator;
use js_tree::tree::{Expr, PatternField, PropertyKey};
use lava_base::memory::OutOfMemory;

/// How many computed keys there are up to a field, where so many are before it.
pub fn after_field(n: usize, field: &PatternField) -> Result<usize, OutOfMemory>
    ensures { IfOk result (λ made. made ≡ spec.after_field n field.now) }
{
    match &field.key {
        PropertyKey::Named(_) => Ok(n),
        PropertyKey::Numbered { .. } => Ok(n),
        PropertyKey::Computed { .. } => after(n),
    }
}

/// How many keys are computed.
pub fn computed(mut list: &[PatternField]) -> Result<usize, OutOfMemory>
    ensures { IfOk result (λ made. made ≡ spec.computed list.entry.now) }
{
    let mut n = 0;
    while let [first, rest @ ..] = list {
        n = after_field(n, first)?;
        list = rest;
    }
    Ok(n)
}

pub fn key_slot(keys: usize, n: usize) -> Held
    ensures { result ≡ spec.key_slot keys n }
{
    Held {
        level: keys,
        slot: n,
    }
}

fn omitted_key(
    scopes: &Scopes,
    terms: &mut Stack,
    keys: usize,
    n: usize,
    field: &PatternField,
) -> Result<(), OutOfMemory>
    ensures { OnOk result (terms.new ≡ extended_parts
        (spec.omitted_key scopes.now keys n field.now ∷ []) terms.old) }
{
    match &field.key {
        PropertyKey::Named(_) => plain_key(terms, &field.key)?,
        PropertyKey::Numbered { .. } => plain_key(terms, &field.key)?,
        PropertyKey::Computed { .. } => slot(scopes, terms, key_slot(keys, n))?,
    }
    terms.item()
}

#[tactic(auto, using(js_term_stack::specs::Stack_laws::extended_parts_none, js_term_stack::specs::Stack_laws::extended_parts_twice))]
fn omitted_keys(
    scopes: &Scopes,
    terms: &mut Stack,
    keys: usize,
    mut list: &[PatternField],
) -> Result<(), OutOfMemory>
    ensures { OnOk result (terms.new ≡ extended_parts
        (spec.omitted_keys list.entry.now scopes.now keys 0) terms.old) }
{
    let mut n = 0;
    while let [first, rest @ ..] = list {
        omitted_key(scopes, terms, keys, n, first)?;
        n = after_field(n, first)?;
        list = rest;
    }
    Ok(())
}

fn omitting(
    scopes: &Scopes,
    terms: &mut Stack,
    object: Held,
    keys: usize,
    fields: &[PatternField],
) -> Result<(), OutOfMemory>
    ensures { OnOk result (terms.new ≡ piece.OneTerm
        (spec.omitting scopes.now object keys fields.now) ∷ terms.old) }
{
    slot(scopes, terms, object)?;
    begin_array(terms)?;
    omitted_keys(scopes, terms, keys, fields)?;
    terms.define()?;
    terms.list_two()?;
    call_common(terms, OMIT)
}

fn call_held(scopes: &Scopes, terms: &mut Stack, held: Held, name: &[u8]) -> Result<(), OutOfMemory>
    ensures { OnOk result (terms.new ≡ piece.OneTerm
        (values.call_name (values.slot scopes.now held) name.now) ∷ terms.old) }
{
    slot(scopes, terms, held)?;
    call_name(terms, name)
}

/// The next item of an opened iterator.
pub fn take_next(scopes: &Scopes, terms: &mut Stack, iterator: Held) -> Result<(), OutOfMemory>
    ensures { OnOk result (terms.new ≡ piece.OneTerm (spec.take_next scopes.now iterator) ∷ terms.old) }
{
    call_held(scopes, terms, iterator, b"take")
}

fn get_current(scopes: &Scopes, terms: &mut Stack, iterator: Held) -> Result<(), OutOfMemory>
    ensures { OnOk result (terms.new ≡ piece.OneTerm (term.Get
        (values.slot scopes.now iterator) (values.text (codes "value"))) ∷ terms.old) }
{
    slot(scopes, terms, iterator)?;
    word_term(terms, b"value")?;
    terms.get()
}

fn get_named(
    scopes: &Scopes,
    terms: &mut Stack,
    held: Held,
    key: &PropertyKey,
) -> Result<(), OutOfMemory>
    ensures { OnOk result (terms.new ≡ piece.OneTerm (term.Get
        (values.slot scopes.now held) (entries.plain_key key.now)) ∷ terms.old) }
{
    slot(scopes, terms, held)?;
    plain_key(terms, key)?;
    terms.get()
}

fn get_keyed(scopes: &Scopes, terms: &mut Stack, held: Held, key: Held) -> Result<(), OutOfMemory>
    ensures { OnOk result (terms.new ≡ piece.OneTerm (term.Get
        (values.slot scopes.now held) (values.slot scopes.now key)) ∷ terms.old) }
{
    slot(scopes, terms, held)?;
    slot(scopes, terms, key)?;
    terms.get()
}

fn defaulted<F: Fn(usize, &mut Scopes, &mut Stack, Task<'_>) -> Result<(), OutOfMemory>>(
    lowerer: &Lowerer<F>,
    scopes: &mut Scopes,
    terms: &mut Stack,
    held: Held,
    tree: &Expr,
    name: Option<&Text>,
) -> Result<(), OutOfMemory>
    requires { Nests lowerer.now.depth (F.pre lowerer.now.low) (F.post lowerer.now.low) }
    ensures ok { let b = low lowerer.now.depth in
        let made = spec.defaulted b scopes.old held tree.now (given name.entry) in
        OnOk result (terms.new ≡ piece.OneTerm made ∷ terms.old) }
    ensures kept { OnOk result (scopes.new ≡ scopes.old) }
{
    slot(scopes, terms, held)?;
    terms.undefined()?;
    terms.binary(BinaryOperator::StrictlyEqual)?;
    lower_named(lowerer, scopes, terms, name, tree)?;
    slot(scopes, terms, held)?;
    terms.some()?;
    terms.choice()
}

/// The term of a value that a pattern binds.
pub fn value<F: Fn(usize, &mut Scopes, &mut Stack, Task<'_>) -> Result<(), OutOfMemory>>(
    lowerer: &Lowerer<F>,
    scopes: &mut Scopes,
    terms: &mut Stack,
    from: BoundValue<'_>,
) -> Result<(), OutOfMemory>
    requires { Nests lowerer.now.depth (F.pre lowerer.now.low) (F.post lowerer.now.low) }
    ensures ok { let b = low lowerer.now.depth in
        let made = spec.value b scopes.old (origin from.entry) in
        OnOk result (terms.new ≡ piece.OneTerm made ∷ terms.old) }
    ensures kept { OnOk result (scopes.new ≡ scopes.old) }
{
    match from {
        BoundValue::InSlot(held) => slot(scopes, terms, held),
        BoundValue::Taken(held) => take_next(scopes, terms, held),
        BoundValue::Remaining(held) => call_held(scopes, terms, held, b"rest"),
        BoundValue::Current(held) => get_current(scopes, terms, held),
        BoundValue::Named(held, key) => get_named(scopes, terms, held, key),
        BoundValue::Keyed(held, key) => get_keyed(scopes, terms, held, key),
        BoundValue::Omitted {
            object,
            keys,
            fields,
        } => omitting(scopes, terms, object, keys, fields),
        BoundValue::Valued(tree) => lower_expr(lowerer, scopes, terms, tree),
        BoundValue::Defaulted {
            given,
            default,
            name,
        } => defaulted(lowerer, scopes, terms, given, default, name),
    }
}
