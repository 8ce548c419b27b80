// `++` and `--`.

ghost use Rattle.std.specs.Prelude.{◌≡◌, ◌+◌, ◌-◌, ◌++◌, ◌∷◌, [], map, length, true, false, IfOk, OnOk, Some, None, codes};
ghost use Rattle.std.specs.Option.{option_map};
ghost use Rattle.js_names.specs.Lists.{flat};
ghost use Rattle.js_term.specs.declared.term.Term.TheVariants as term;
ghost use Rattle.js_term.specs.declared.term.Part.TheVariants as part;
ghost use Rattle.js_term.specs.declared.term.TemplateKind.TheVariants as template;
ghost use Rattle.js_term_stack.specs.Stacks.{extended, extended_parts, function_part, on_one, on_list, taken, taken_pending};
ghost use Rattle.js_term_stack.specs.declared.piece.Piece.TheVariants as piece;
ghost use Rattle.js_term_stack.specs.declared.pending.Pending.TheVariants as pending;
ghost use Rattle.js_lower_table.specs.Values as values;
ghost use Rattle.js_lower_table.specs.Entries.{given, origin};
ghost use Rattle.js_lower_table.specs.Entries as entries;
ghost use Rattle.js_lower_table.specs.Nests.{Nests};
ghost use Rattle.js_lower_table.specs.Table.{low};
ghost use Rattle.js_tree.specs.declared.tree.Expr.{out-Expr};
ghost use Rattle.js_term.specs.declared.term.Literal.TheVariants as literal;
ghost use Rattle.js_tree.specs.declared.operator.UnaryOperator.TheVariants as unary;
ghost use Rattle.js_lower_table.specs.Expressions as spec;

use crate::assignments::{get_here, index_inits, member_inits, references_here};
use crate::below::lower_expr;
use js_frames::frame::Frame;
use js_frames::scopes::Scopes;
use js_lower_table::bindings::{bare, name_of, read, write};
use js_lower_table::bound_value::BoundValue;
use js_lower_table::lowerer::Lowerer;
use js_lower_table::task::Task;
use js_lower_table::values::{next_held, to_key};
use js_term_stack::stack::Stack;
use js_text::text::Text;
use js_tree::operator::{
    AssignmentOperator, BinaryOperator, LogicalOperator, UnaryOperator, UpdateOperator,
};
use js_tree::tree::{Expr, Pattern};
use lava_base::memory::OutOfMemory;

fn step_of(operator: UpdateOperator) -> BinaryOperator
    ensures { result ≡ spec.step_of operator }
{
    match operator {
        UpdateOperator::Increment => BinaryOperator::Add,
        UpdateOperator::Decrement => BinaryOperator::Subtract,
    }
}

fn stepped(terms: &mut Stack, operator: UpdateOperator) -> Result<(), OutOfMemory>
    ensures { OnOk result (terms.new ≡ on_one (λ t. spec.stepped operator t) terms.old) }
{
    terms.integer(1)?;
    terms.binary(step_of(operator))
}

fn numeric(terms: &mut Stack) -> Result<(), OutOfMemory>
    ensures { OnOk result (terms.new ≡ on_one (λ t. spec.numeric t) terms.old) }
{
    terms.unary(UnaryOperator::Plus)
}

fn update_name_first(
    scopes: &Scopes,
    terms: &mut Stack,
    operator: UpdateOperator,
    name: &Text,
) -> Result<(), OutOfMemory>
    ensures { OnOk result (terms.new ≡ piece.OneTerm
        (spec.update_name_first scopes.now operator name.now) ∷ terms.old) }
{
    read(scopes, terms, name, false)?;
    numeric(terms)?;
    stepped(terms, operator)?;
    write(scopes, terms, name)
}

fn update_name_last(
    scopes: &mut Scopes,
    terms: &mut Stack,
    operator: UpdateOperator,
    name: &Text,
) -> Result<(), OutOfMemory>
    ensures ok { let made = spec.update_name_last scopes.old operator name.now in
        OnOk result (terms.new ≡ piece.OneTerm made ∷ terms.old) }
    ensures kept { OnOk result (scopes.new ≡ scopes.old) }
{
    scopes.open(Frame::new(terms.alloc()))?;
    read(scopes, terms, name, false)?;
    numeric(terms)?;
    terms.init_here(0)?;
    terms.here(0)?;
    stepped(terms, operator)?;
    write(scopes, terms, name)?;
    scopes.close();
    terms.here(0)?;
    terms.list_three()?;
    terms.scope(1)
}

fn update_name(
    scopes: &mut Scopes,
    terms: &mut Stack,
    operator: UpdateOperator,
    prefix: bool,
    name: &Text,
) -> Result<(), OutOfMemory>
    ensures ok { let made = spec.update_name scopes.old operator prefix name.now in
        OnOk result (terms.new ≡ piece.OneTerm made ∷ terms.old) }
    ensures kept { OnOk result (scopes.new ≡ scopes.old) }
{
    if prefix {
        return update_name_first(scopes, terms, operator, name);
    }
    update_name_last(scopes, terms, operator, name)
}

fn outer_get(terms: &mut Stack) -> Result<(), OutOfMemory>
    ensures { OnOk result (terms.new ≡ piece.OneTerm spec.outer_get ∷ terms.old) }
{
    terms.local(1, 0)?;
    terms.local(1, 1)?;
    terms.get()
}

fn update_last(terms: &mut Stack, operator: UpdateOperator) -> Result<(), OutOfMemory>
    ensures { OnOk result (terms.new ≡ piece.OneTerm (spec.update_last operator) ∷ terms.old) }
{
    outer_get(terms)?;
    numeric(terms)?;
    terms.init_here(0)?;
    terms.local(1, 0)?;
    terms.local(1, 1)?;
    terms.here(0)?;
    stepped(terms, operator)?;
    terms.put()?;
    terms.here(0)?;
    terms.list_three()?;
    terms.scope(1)
}

fn update_first(terms: &mut Stack, operator: UpdateOperator) -> Result<(), OutOfMemory>
    ensures { OnOk result (terms.new ≡ piece.OneTerm (spec.update_first operator) ∷ terms.old) }
{
    references_here(terms)?;
    get_here(terms)?;
    numeric(terms)?;
    stepped(terms, operator)?;
    terms.put()
}

fn update_here(terms: &mut Stack, operator: UpdateOperator, prefix: bool) -> Result<(), OutOfMemory>
    ensures { OnOk result (terms.new ≡ piece.OneTerm (spec.update_here operator prefix) ∷ terms.old) }
{
    if prefix {
        return update_first(terms, operator);
    }
    update_last(terms, operator)
}

fn update_member<F: Fn(usize, &mut Scopes, &mut Stack, Task<'_>) -> Result<(), OutOfMemory>>(
    lowerer: &Lowerer<F>,
    scopes: &mut Scopes,
    terms: &mut Stack,
    operator: UpdateOperator,
    prefix: bool,
    object: &Expr,
    name: &Text,
) -> Result<(), OutOfMemory>
    requires { Nests lowerer.now.depth (F.pre lowerer.now.low) (F.post lowerer.now.low) }
    ensures ok { let b = low lowerer.now.depth in
        let made = spec.update_member b scopes.old operator prefix object.now name.now in
        OnOk result (terms.new ≡ piece.OneTerm made ∷ terms.old) }
    ensures kept { OnOk result (scopes.new ≡ scopes.old) }
{
    scopes.open(Frame::new(terms.alloc()))?;
    member_inits(lowerer, scopes, terms, object, name)?;
    scopes.close();
    update_here(terms, operator, prefix)?;
    terms.list_three()?;
    terms.scope(2)
}

fn update_index<F: Fn(usize, &mut Scopes, &mut Stack, Task<'_>) -> Result<(), OutOfMemory>>(
    lowerer: &Lowerer<F>,
    scopes: &mut Scopes,
    terms: &mut Stack,
    operator: UpdateOperator,
    prefix: bool,
    object: &Expr,
    key: &Expr,
) -> Result<(), OutOfMemory>
    requires { Nests lowerer.now.depth (F.pre lowerer.now.low) (F.post lowerer.now.low) }
    ensures ok { let b = low lowerer.now.depth in
        let made = spec.update_index b scopes.old operator prefix object.now key.now in
        OnOk result (terms.new ≡ piece.OneTerm made ∷ terms.old) }
    ensures kept { OnOk result (scopes.new ≡ scopes.old) }
{
    scopes.open(Frame::new(terms.alloc()))?;
    index_inits(lowerer, scopes, terms, object, key)?;
    scopes.close();
    update_here(terms, operator, prefix)?;
    terms.list_three()?;
    terms.scope(2)
}

/// `++` and `--` (ECMA-262, UpdateExpression).
pub fn update<F: Fn(usize, &mut Scopes, &mut Stack, Task<'_>) -> Result<(), OutOfMemory>>(
    lowerer: &Lowerer<F>,
    scopes: &mut Scopes,
    terms: &mut Stack,
    operator: UpdateOperator,
    prefix: bool,
    tree: &Expr,
) -> Result<(), OutOfMemory>
    requires { Nests lowerer.now.depth (F.pre lowerer.now.low) (F.post lowerer.now.low) }
    ensures ok { let b = low lowerer.now.depth in
        let made = spec.update b scopes.old operator prefix tree.now in
        OnOk result (terms.new ≡ piece.OneTerm made ∷ terms.old) }
    ensures kept { OnOk result (scopes.new ≡ scopes.old) }
{
    match bare(tree) {
        Expr::Name(identifier) => update_name(scopes, terms, operator, prefix, &identifier.name),
        Expr::Member { object, name, .. } => {
            update_member(
                lowerer,
                scopes,
                terms,
                operator,
                prefix,
                object.get(),
                &name.name,
            )
        }
        Expr::Index { object, key, .. } => {
            update_index(
                lowerer,
                scopes,
                terms,
                operator,
                prefix,
                object.get(),
                key.get(),
            )
        }
        _ => lower_expr(lowerer, scopes, terms, tree),
    }
}
