// Operators, and the term of each form of an expression.

ghost use Rattle.std.specs.Prelude.{◌≡◌, ◌+◌, ◌-◌, ◌++◌, ◌∷◌, [], map, length, true, false, IfOk, OnOk, Some, None, codes};
ghost use Rattle.std.specs.Option.{option_map};
ghost use Rattle.js_names.specs.Lists.{flat};
ghost use Rattle.js_term.specs.declared.term.Term.TheVariants as term;
ghost use Rattle.js_term.specs.declared.term.Part.TheVariants as part;
ghost use Rattle.js_term.specs.declared.term.TemplateKind.TheVariants as template;
ghost use Rattle.js_term_stack.specs.Stacks.{extended, extended_parts, function_part, on_one, on_list, taken, taken_pending};
ghost use Rattle.js_term_stack.specs.declared.piece.Piece.TheVariants as piece;
ghost use Rattle.js_term_stack.specs.declared.pending.Pending.TheVariants as pending;
ghost use Rattle.js_lower_table.specs.Values as values;
ghost use Rattle.js_lower_table.specs.Entries.{given, origin};
ghost use Rattle.js_lower_table.specs.Entries as entries;
ghost use Rattle.js_lower_table.specs.Nests.{Nests};
ghost use Rattle.js_lower_table.specs.Table.{low};
ghost use Rattle.js_tree.specs.declared.tree.Expr.{out-Expr};
ghost use Rattle.js_term.specs.declared.term.Literal.TheVariants as literal;
ghost use Rattle.js_tree.specs.declared.operator.UnaryOperator.TheVariants as unary;
ghost use Rattle.js_lower_table.specs.Expressions as spec;
ghost use Rattle.js_lower_expr.specs.Rows as rows;

use crate::assignments::{assign, operate};
use crate::below::{lower_expr, lower_named};
use crate::updates::update;
use js_frames::scopes::Scopes;
use js_lower_calls::calls::{
    call, get_index, get_member, new_term, super_call, super_index, super_member,
};
use js_lower_calls::chains::{chain, is_call};
use js_lower_calls::functions::{class, function};
use js_lower_calls::parts::{elements, expressions, properties, template_literal};
use js_lower_table::bindings::{bare, read};
use js_lower_table::lowerer::Lowerer;
use js_lower_table::task::Task;
use js_lower_table::values::{begin_array, begin_object, number};
use js_term_stack::stack::Stack;
use js_text::text::Text;
use js_tree::operator::{BinaryOperator, LogicalOperator, UnaryOperator};
use js_tree::tree::{ArrayElement, Expr, Link, Property};
use lava_base::memory::OutOfMemory;
use sqlite_items::Boxed;

fn typeof_operand<F: Fn(usize, &mut Scopes, &mut Stack, Task<'_>) -> Result<(), OutOfMemory>>(
    lowerer: &Lowerer<F>,
    scopes: &mut Scopes,
    terms: &mut Stack,
    tree: &Expr,
) -> Result<(), OutOfMemory>
    requires { Nests lowerer.now.depth (F.pre lowerer.now.low) (F.post lowerer.now.low) }
    ensures ok { let b = low lowerer.now.depth in
        let made = spec.typeof b scopes.old tree.now in
        OnOk result (terms.new ≡ piece.OneTerm made ∷ terms.old) }
    ensures kept { OnOk result (scopes.new ≡ scopes.old) }
{
    match bare(tree) {
        Expr::Name(identifier) => read(scopes, terms, &identifier.name, true),
        _ => lower_expr(lowerer, scopes, terms, tree),
    }
}

fn type_of<F: Fn(usize, &mut Scopes, &mut Stack, Task<'_>) -> Result<(), OutOfMemory>>(
    lowerer: &Lowerer<F>,
    scopes: &mut Scopes,
    terms: &mut Stack,
    tree: &Expr,
) -> Result<(), OutOfMemory>
    requires { Nests lowerer.now.depth (F.pre lowerer.now.low) (F.post lowerer.now.low) }
    ensures ok { let b = low lowerer.now.depth in
        let made = term.Unary unary.Typeof (spec.typeof b scopes.old tree.now) in
        OnOk result (terms.new ≡ piece.OneTerm made ∷ terms.old) }
    ensures kept { OnOk result (scopes.new ≡ scopes.old) }
{
    typeof_operand(lowerer, scopes, terms, tree)?;
    terms.unary(UnaryOperator::Typeof)
}

fn and_true<F: Fn(usize, &mut Scopes, &mut Stack, Task<'_>) -> Result<(), OutOfMemory>>(
    lowerer: &Lowerer<F>,
    scopes: &mut Scopes,
    terms: &mut Stack,
    tree: &Expr,
) -> Result<(), OutOfMemory>
    requires { Nests lowerer.now.depth (F.pre lowerer.now.low) (F.post lowerer.now.low) }
    ensures ok { let b = low lowerer.now.depth in
        let made = spec.and_true b scopes.old tree.now in
        OnOk result (terms.new ≡ piece.OneTerm made ∷ terms.old) }
    ensures kept { OnOk result (scopes.new ≡ scopes.old) }
{
    lower_expr(lowerer, scopes, terms, tree)?;
    terms.truth(true)?;
    terms.list_two()?;
    terms.seq()
}

fn void<F: Fn(usize, &mut Scopes, &mut Stack, Task<'_>) -> Result<(), OutOfMemory>>(
    lowerer: &Lowerer<F>,
    scopes: &mut Scopes,
    terms: &mut Stack,
    tree: &Expr,
) -> Result<(), OutOfMemory>
    requires { Nests lowerer.now.depth (F.pre lowerer.now.low) (F.post lowerer.now.low) }
    ensures ok { let b = low lowerer.now.depth in
        let made = term.Seq (spec.expr b scopes.old tree.now ∷ values.undefined ∷ []) in
        OnOk result (terms.new ≡ piece.OneTerm made ∷ terms.old) }
    ensures kept { OnOk result (scopes.new ≡ scopes.old) }
{
    lower_expr(lowerer, scopes, terms, tree)?;
    terms.undefined()?;
    terms.list_two()?;
    terms.seq()
}

fn delete_bare<F: Fn(usize, &mut Scopes, &mut Stack, Task<'_>) -> Result<(), OutOfMemory>>(
    lowerer: &Lowerer<F>,
    scopes: &mut Scopes,
    terms: &mut Stack,
    tree: &Expr,
) -> Result<(), OutOfMemory>
    requires { Nests lowerer.now.depth (F.pre lowerer.now.low) (F.post lowerer.now.low) }
    ensures ok { let b = low lowerer.now.depth in
        let made = spec.delete_bare b scopes.old tree.now
        (out-Expr (entries.bare tree.now)) in
        OnOk result (terms.new ≡ piece.OneTerm made ∷ terms.old) }
    ensures kept { OnOk result (scopes.new ≡ scopes.old) }
{
    match bare(tree) {
        Expr::Member { object, name, .. } => {
            lower_expr(lowerer, scopes, terms, object.get())?;
            terms.text_of(&name.name)?;
            terms.delete()
        }
        Expr::Index { object, key, .. } => {
            lower_expr(lowerer, scopes, terms, object.get())?;
            lower_expr(lowerer, scopes, terms, key.get())?;
            terms.delete()
        }
        _ => and_true(lowerer, scopes, terms, tree),
    }
}

fn ends_in_call(mut list: &[Link]) -> bool
    ensures { result ≡ spec.ends_in_call list.entry.now }
{
    while let [first, rest @ ..] = list {
        match rest {
            [] => return is_call(&first.step),
            [_, ..] => list = rest,
        }
    }
    false
}

fn delete_chain<F: Fn(usize, &mut Scopes, &mut Stack, Task<'_>) -> Result<(), OutOfMemory>>(
    lowerer: &Lowerer<F>,
    scopes: &mut Scopes,
    terms: &mut Stack,
    tree: &Expr,
    base: &Expr,
    list: &[Link],
) -> Result<(), OutOfMemory>
    requires { Nests lowerer.now.depth (F.pre lowerer.now.low) (F.post lowerer.now.low) }
    ensures ok { let b = low lowerer.now.depth in
        let made = spec.delete_chain b scopes.old tree.now base.now list.now in
        OnOk result (terms.new ≡ piece.OneTerm made ∷ terms.old) }
    ensures kept { OnOk result (scopes.new ≡ scopes.old) }
{
    if ends_in_call(list) {
        return and_true(lowerer, scopes, terms, tree);
    }
    chain(lowerer, scopes, terms, true, base, list)
}

fn delete<F: Fn(usize, &mut Scopes, &mut Stack, Task<'_>) -> Result<(), OutOfMemory>>(
    lowerer: &Lowerer<F>,
    scopes: &mut Scopes,
    terms: &mut Stack,
    tree: &Expr,
) -> Result<(), OutOfMemory>
    requires { Nests lowerer.now.depth (F.pre lowerer.now.low) (F.post lowerer.now.low) }
    ensures ok { let b = low lowerer.now.depth in
        let made = spec.delete b scopes.old tree.now in
        OnOk result (terms.new ≡ piece.OneTerm made ∷ terms.old) }
    ensures kept { OnOk result (scopes.new ≡ scopes.old) }
{
    match tree {
        Expr::Chain { base, links, .. } => {
            delete_chain(lowerer, scopes, terms, tree, base.get(), links.as_slice())
        }
        _ => delete_bare(lowerer, scopes, terms, tree),
    }
}

fn unary_value<F: Fn(usize, &mut Scopes, &mut Stack, Task<'_>) -> Result<(), OutOfMemory>>(
    lowerer: &Lowerer<F>,
    scopes: &mut Scopes,
    terms: &mut Stack,
    operator: UnaryOperator,
    tree: &Expr,
) -> Result<(), OutOfMemory>
    requires { Nests lowerer.now.depth (F.pre lowerer.now.low) (F.post lowerer.now.low) }
    ensures ok { let b = low lowerer.now.depth in
        let made = term.Unary operator (spec.expr b scopes.old tree.now) in
        OnOk result (terms.new ≡ piece.OneTerm made ∷ terms.old) }
    ensures kept { OnOk result (scopes.new ≡ scopes.old) }
{
    lower_expr(lowerer, scopes, terms, tree)?;
    terms.unary(operator)
}

fn unary_term<F: Fn(usize, &mut Scopes, &mut Stack, Task<'_>) -> Result<(), OutOfMemory>>(
    lowerer: &Lowerer<F>,
    scopes: &mut Scopes,
    terms: &mut Stack,
    operator: UnaryOperator,
    tree: &Expr,
) -> Result<(), OutOfMemory>
    requires { Nests lowerer.now.depth (F.pre lowerer.now.low) (F.post lowerer.now.low) }
    ensures ok { let b = low lowerer.now.depth in
        let made = spec.unary_term b scopes.old operator tree.now in
        OnOk result (terms.new ≡ piece.OneTerm made ∷ terms.old) }
    ensures kept { OnOk result (scopes.new ≡ scopes.old) }
{
    match operator {
        UnaryOperator::Delete => delete(lowerer, scopes, terms, tree),
        UnaryOperator::Void => void(lowerer, scopes, terms, tree),
        UnaryOperator::Typeof => type_of(lowerer, scopes, terms, tree),
        _ => unary_value(lowerer, scopes, terms, operator, tree),
    }
}

fn binary_term<F: Fn(usize, &mut Scopes, &mut Stack, Task<'_>) -> Result<(), OutOfMemory>>(
    lowerer: &Lowerer<F>,
    scopes: &mut Scopes,
    terms: &mut Stack,
    operator: BinaryOperator,
    left: &Expr,
    right: &Expr,
) -> Result<(), OutOfMemory>
    requires { Nests lowerer.now.depth (F.pre lowerer.now.low) (F.post lowerer.now.low) }
    ensures ok { let b = low lowerer.now.depth in
        let made = term.Binary operator (spec.expr b scopes.old left.now)
        (spec.expr b scopes.old right.now) in
        OnOk result (terms.new ≡ piece.OneTerm made ∷ terms.old) }
    ensures kept { OnOk result (scopes.new ≡ scopes.old) }
{
    lower_expr(lowerer, scopes, terms, left)?;
    lower_expr(lowerer, scopes, terms, right)?;
    terms.binary(operator)
}

fn logical_term<F: Fn(usize, &mut Scopes, &mut Stack, Task<'_>) -> Result<(), OutOfMemory>>(
    lowerer: &Lowerer<F>,
    scopes: &mut Scopes,
    terms: &mut Stack,
    operator: LogicalOperator,
    left: &Expr,
    right: &Expr,
) -> Result<(), OutOfMemory>
    requires { Nests lowerer.now.depth (F.pre lowerer.now.low) (F.post lowerer.now.low) }
    ensures ok { let b = low lowerer.now.depth in
        let made = term.Short operator (spec.expr b scopes.old left.now)
        (spec.expr b scopes.old right.now) in
        OnOk result (terms.new ≡ piece.OneTerm made ∷ terms.old) }
    ensures kept { OnOk result (scopes.new ≡ scopes.old) }
{
    lower_expr(lowerer, scopes, terms, left)?;
    lower_expr(lowerer, scopes, terms, right)?;
    terms.short(operator)
}

fn conditional<F: Fn(usize, &mut Scopes, &mut Stack, Task<'_>) -> Result<(), OutOfMemory>>(
    lowerer: &Lowerer<F>,
    scopes: &mut Scopes,
    terms: &mut Stack,
    test: &Expr,
    consequent: &Expr,
    alternate: &Expr,
) -> Result<(), OutOfMemory>
    requires { Nests lowerer.now.depth (F.pre lowerer.now.low) (F.post lowerer.now.low) }
    ensures ok { let b = low lowerer.now.depth in
        let made = term.If (spec.expr b scopes.old test.now)
        (spec.expr b scopes.old consequent.now)
        (Some (spec.expr b scopes.old alternate.now)) in
        OnOk result (terms.new ≡ piece.OneTerm made ∷ terms.old) }
    ensures kept { OnOk result (scopes.new ≡ scopes.old) }
{
    lower_expr(lowerer, scopes, terms, test)?;
    lower_expr(lowerer, scopes, terms, consequent)?;
    lower_expr(lowerer, scopes, terms, alternate)?;
    terms.some()?;
    terms.choice()
}

fn array_literal<F: Fn(usize, &mut Scopes, &mut Stack, Task<'_>) -> Result<(), OutOfMemory>>(
    lowerer: &Lowerer<F>,
    scopes: &mut Scopes,
    terms: &mut Stack,
    list: &[ArrayElement],
) -> Result<(), OutOfMemory>
    requires { Nests lowerer.now.depth (F.pre lowerer.now.low) (F.post lowerer.now.low) }
    ensures ok { let b = low lowerer.now.depth in
        let made = values.array (map (spec.element b scopes.old) list.now) in
        OnOk result (terms.new ≡ piece.OneTerm made ∷ terms.old) }
    ensures kept { OnOk result (scopes.new ≡ scopes.old) }
{
    begin_array(terms)?;
    elements(lowerer, scopes, terms, list)?;
    terms.define()
}

fn object_literal<F: Fn(usize, &mut Scopes, &mut Stack, Task<'_>) -> Result<(), OutOfMemory>>(
    lowerer: &Lowerer<F>,
    scopes: &mut Scopes,
    terms: &mut Stack,
    list: &[Property],
) -> Result<(), OutOfMemory>
    requires { Nests lowerer.now.depth (F.pre lowerer.now.low) (F.post lowerer.now.low) }
    ensures ok { let b = low lowerer.now.depth in
        let made = values.object (map (spec.property b scopes.old) list.now) in
        OnOk result (terms.new ≡ piece.OneTerm made ∷ terms.old) }
    ensures kept { OnOk result (scopes.new ≡ scopes.old) }
{
    begin_object(terms)?;
    properties(lowerer, scopes, terms, list)?;
    terms.define()
}

fn comma<F: Fn(usize, &mut Scopes, &mut Stack, Task<'_>) -> Result<(), OutOfMemory>>(
    lowerer: &Lowerer<F>,
    scopes: &mut Scopes,
    terms: &mut Stack,
    list: &[Boxed<Expr>],
) -> Result<(), OutOfMemory>
    requires { Nests lowerer.now.depth (F.pre lowerer.now.low) (F.post lowerer.now.low) }
    ensures ok { let b = low lowerer.now.depth in
        let made = term.Seq (map (spec.expr b scopes.old) list.now) in
        OnOk result (terms.new ≡ piece.OneTerm made ∷ terms.old) }
    ensures kept { OnOk result (scopes.new ≡ scopes.old) }
{
    terms.begin()?;
    expressions(lowerer, scopes, terms, list)?;
    terms.seq()
}

/// The term of an expression (ECMA-262, Evaluation of an Expression).
pub fn expr_row<F: Fn(usize, &mut Scopes, &mut Stack, Task<'_>) -> Result<(), OutOfMemory>>(
    lowerer: &Lowerer<F>,
    scopes: &mut Scopes,
    terms: &mut Stack,
    name: Option<&Text>,
    tree: &Expr,
) -> Result<(), OutOfMemory>
    requires { Nests lowerer.now.depth (F.pre lowerer.now.low) (F.post lowerer.now.low) }
    ensures ok { let b = low lowerer.now.depth in
        let made = spec.expr_row b scopes.old (given name.entry) tree.now in
        OnOk result (terms.new ≡ piece.OneTerm made ∷ terms.old) }
    ensures kept { OnOk result (scopes.new ≡ scopes.old) }
{
    match tree {
        Expr::Name(own) => read(scopes, terms, &own.name, false),
        Expr::This { .. } => terms.this(),
        Expr::Null { .. } => terms.null(),
        Expr::Bool { value, .. } => terms.truth(*value),
        Expr::Number { value, .. } => number(terms, *value),
        Expr::String { value, .. } => terms.text_of(value),
        Expr::NewTarget { .. } => terms.new_target(),
        Expr::SuperMember { name, .. } => super_member(terms, &name.name),
        Expr::Function(own) => function(lowerer, scopes, terms, name, own.get()),
        Expr::Class(own) => class(lowerer, scopes, terms, name, own.get()),
        Expr::Parenthesized { inner, .. } => lower_named(lowerer, scopes, terms, name, inner.get()),
        _ => unnamed_row(lowerer, scopes, terms, tree),
    }
}

fn unnamed_row<F: Fn(usize, &mut Scopes, &mut Stack, Task<'_>) -> Result<(), OutOfMemory>>(
    lowerer: &Lowerer<F>,
    scopes: &mut Scopes,
    terms: &mut Stack,
    tree: &Expr,
) -> Result<(), OutOfMemory>
    requires { Nests lowerer.now.depth (F.pre lowerer.now.low) (F.post lowerer.now.low) }
    ensures ok { let b = low lowerer.now.depth in
        let made = rows.unnamed_row b scopes.old tree.now in
        OnOk result (terms.new ≡ piece.OneTerm made ∷ terms.old) }
    ensures kept { OnOk result (scopes.new ≡ scopes.old) }
{
    match tree {
        Expr::Template {
            strings,
            substitutions,
            ..
        } => {
            let (texts, values) = (strings.as_slice(), substitutions.as_slice());
            template_literal(lowerer, scopes, terms, texts, values)
        }
        Expr::Array { elements, .. } => array_literal(lowerer, scopes, terms, elements.as_slice()),
        Expr::Object { properties, .. } => {
            object_literal(lowerer, scopes, terms, properties.as_slice())
        }
        Expr::Member { object, name, .. } => {
            get_member(lowerer, scopes, terms, object.get(), &name.name)
        }
        Expr::Index { object, key, .. } => get_index(
            lowerer,
            scopes,
            terms,
            object.get(),
            key.get(),
        ),
        Expr::SuperIndex { key, .. } => super_index(lowerer, scopes, terms, key.get()),
        _ => call_row(lowerer, scopes, terms, tree),
    }
}

fn call_row<F: Fn(usize, &mut Scopes, &mut Stack, Task<'_>) -> Result<(), OutOfMemory>>(
    lowerer: &Lowerer<F>,
    scopes: &mut Scopes,
    terms: &mut Stack,
    tree: &Expr,
) -> Result<(), OutOfMemory>
    requires { Nests lowerer.now.depth (F.pre lowerer.now.low) (F.post lowerer.now.low) }
    ensures ok { let b = low lowerer.now.depth in
        let made = rows.call_row b scopes.old tree.now in
        OnOk result (terms.new ≡ piece.OneTerm made ∷ terms.old) }
    ensures kept { OnOk result (scopes.new ≡ scopes.old) }
{
    match tree {
        Expr::Call {
            callee,
            arguments,
            ..
        } => call(lowerer, scopes, terms, callee.get(), arguments.as_slice()),
        Expr::SuperCall { arguments, .. } => super_call(
            lowerer,
            scopes,
            terms,
            arguments.as_slice(),
        ),
        Expr::New {
            callee,
            arguments,
            ..
        } => new_term(lowerer, scopes, terms, callee.get(), arguments.as_slice()),
        Expr::Chain { base, links, .. } => {
            chain(lowerer, scopes, terms, false, base.get(), links.as_slice())
        }
        _ => operator_row(lowerer, scopes, terms, tree),
    }
}

fn operator_row<F: Fn(usize, &mut Scopes, &mut Stack, Task<'_>) -> Result<(), OutOfMemory>>(
    lowerer: &Lowerer<F>,
    scopes: &mut Scopes,
    terms: &mut Stack,
    tree: &Expr,
) -> Result<(), OutOfMemory>
    requires { Nests lowerer.now.depth (F.pre lowerer.now.low) (F.post lowerer.now.low) }
    ensures ok { let b = low lowerer.now.depth in
        let made = rows.operator_row b scopes.old tree.now in
        OnOk result (terms.new ≡ piece.OneTerm made ∷ terms.old) }
    ensures kept { OnOk result (scopes.new ≡ scopes.old) }
{
    match tree {
        Expr::Unary {
            operator,
            operand,
            ..
        } => unary_term(lowerer, scopes, terms, *operator, operand.get()),
        Expr::Binary {
            operator,
            left,
            right,
            ..
        } => binary_term(lowerer, scopes, terms, *operator, left.get(), right.get()),
        Expr::Logical {
            operator,
            left,
            right,
            ..
        } => logical_term(lowerer, scopes, terms, *operator, left.get(), right.get()),
        Expr::Comma { operands, .. } => comma(lowerer, scopes, terms, operands.as_slice()),
        _ => assign_row(lowerer, scopes, terms, tree),
    }
}

fn assign_row<F: Fn(usize, &mut Scopes, &mut Stack, Task<'_>) -> Result<(), OutOfMemory>>(
    lowerer: &Lowerer<F>,
    scopes: &mut Scopes,
    terms: &mut Stack,
    tree: &Expr,
) -> Result<(), OutOfMemory>
    requires { Nests lowerer.now.depth (F.pre lowerer.now.low) (F.post lowerer.now.low) }
    ensures ok { let b = low lowerer.now.depth in
        let made = rows.assign_row b scopes.old tree.now in
        OnOk result (terms.new ≡ piece.OneTerm made ∷ terms.old) }
    ensures kept { OnOk result (scopes.new ≡ scopes.old) }
{
    match tree {
        Expr::Conditional {
            test,
            consequent,
            alternate,
            ..
        } => conditional(
            lowerer,
            scopes,
            terms,
            test.get(),
            consequent.get(),
            alternate.get(),
        ),
        Expr::Assign { target, value, .. } => {
            assign(lowerer, scopes, terms, target.get(), value.get())
        }
        Expr::OperatorAssign {
            operator,
            target,
            value,
            ..
        } => operate(lowerer, scopes, terms, *operator, target.get(), value.get()),
        Expr::Update {
            operator,
            prefix,
            operand,
            ..
        } => update(lowerer, scopes, terms, *operator, *prefix, operand.get()),
        _ => terms.undefined(),
    }
}
