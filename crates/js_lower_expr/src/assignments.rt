// Assignments.

ghost use Rattle.std.specs.Prelude.{◌≡◌, ◌+◌, ◌-◌, ◌++◌, ◌∷◌, [], map, length, true, false, IfOk, OnOk, Some, None, codes};
ghost use Rattle.std.specs.Option.{option_map};
ghost use Rattle.js_names.specs.Lists.{flat};
ghost use Rattle.js_term.specs.declared.term.Term.TheVariants as term;
ghost use Rattle.js_term.specs.declared.term.Part.TheVariants as part;
ghost use Rattle.js_term.specs.declared.term.TemplateKind.TheVariants as template;
ghost use Rattle.js_term_stack.specs.Stacks.{extended, extended_parts, function_part, on_one, on_list, taken, taken_pending};
ghost use Rattle.js_term_stack.specs.declared.piece.Piece.TheVariants as piece;
ghost use Rattle.js_term_stack.specs.declared.pending.Pending.TheVariants as pending;
ghost use Rattle.js_lower_table.specs.Values as values;
ghost use Rattle.js_lower_table.specs.Entries.{given, origin};
ghost use Rattle.js_lower_table.specs.Entries as entries;
ghost use Rattle.js_lower_table.specs.Nests.{Nests};
ghost use Rattle.js_lower_table.specs.Table.{low};
ghost use Rattle.js_tree.specs.declared.tree.Expr.{out-Expr};
ghost use Rattle.js_term.specs.declared.term.Literal.TheVariants as literal;
ghost use Rattle.js_tree.specs.declared.operator.UnaryOperator.TheVariants as unary;
ghost use Rattle.js_lower_table.specs.Expressions as spec;

use crate::below::{lower_bind, lower_expr, lower_named};
use js_frames::frame::Frame;
use js_frames::scopes::Scopes;
use js_lower_table::bindings::{bare, name_of, read, write};
use js_lower_table::bound_value::BoundValue;
use js_lower_table::lowerer::Lowerer;
use js_lower_table::task::Task;
use js_lower_table::values::{next_held, to_key};
use js_term_stack::piece::Piece;
use js_term_stack::stack::Stack;
use js_text::text::Text;
use js_tree::operator::{
    AssignmentOperator, BinaryOperator, LogicalOperator, UnaryOperator, UpdateOperator,
};
use js_tree::tree::{Expr, Pattern};
use lava_base::memory::OutOfMemory;

fn assign_member<F: Fn(usize, &mut Scopes, &mut Stack, Task<'_>) -> Result<(), OutOfMemory>>(
    lowerer: &Lowerer<F>,
    scopes: &mut Scopes,
    terms: &mut Stack,
    object: &Expr,
    name: &Text,
) -> Result<(), OutOfMemory>
    requires { Nests lowerer.now.depth (F.pre lowerer.now.low) (F.post lowerer.now.low) }
    ensures ok { let b = low lowerer.now.depth in
        OnOk result (terms.new ≡ on_one (λ t. term.Put (spec.expr b scopes.old object.now)
        (values.text name.now) t) terms.old) }
    ensures kept { OnOk result (scopes.new ≡ scopes.old) }
{
    lower_expr(lowerer, scopes, terms, object)?;
    terms.text_of(name)?;
    terms.put_first()
}

fn assign_index<F: Fn(usize, &mut Scopes, &mut Stack, Task<'_>) -> Result<(), OutOfMemory>>(
    lowerer: &Lowerer<F>,
    scopes: &mut Scopes,
    terms: &mut Stack,
    object: &Expr,
    key: &Expr,
) -> Result<(), OutOfMemory>
    requires { Nests lowerer.now.depth (F.pre lowerer.now.low) (F.post lowerer.now.low) }
    ensures ok { let b = low lowerer.now.depth in
        OnOk result (terms.new ≡ on_one (λ t. term.Put (spec.expr b scopes.old object.now)
        (spec.expr b scopes.old key.now) t) terms.old) }
    ensures kept { OnOk result (scopes.new ≡ scopes.old) }
{
    lower_expr(lowerer, scopes, terms, object)?;
    lower_expr(lowerer, scopes, terms, key)?;
    terms.put_first()
}

fn no_target(terms: &mut Stack) -> Result<(), OutOfMemory>
    ensures { OnOk result (terms.new ≡ on_one (λ t. t) terms.old) }
{
    let value = terms.take_term()?;
    terms.push(Piece::OneTerm(value))
}

/// A target gets the last term as its value (ECMA-262, PutValue).
pub fn assign_to<F: Fn(usize, &mut Scopes, &mut Stack, Task<'_>) -> Result<(), OutOfMemory>>(
    lowerer: &Lowerer<F>,
    scopes: &mut Scopes,
    terms: &mut Stack,
    tree: &Expr,
) -> Result<(), OutOfMemory>
    requires { Nests lowerer.now.depth (F.pre lowerer.now.low) (F.post lowerer.now.low) }
    ensures ok { let b = low lowerer.now.depth in
        OnOk result (terms.new ≡ on_one (λ t. spec.assign_to b scopes.old t tree.now) terms.old) }
    ensures kept { OnOk result (scopes.new ≡ scopes.old) }
{
    match bare(tree) {
        Expr::Name(identifier) => write(scopes, terms, &identifier.name),
        Expr::Member { object, name, .. } => {
            assign_member(lowerer, scopes, terms, object.get(), &name.name)
        }
        Expr::Index { object, key, .. } => {
            assign_index(lowerer, scopes, terms, object.get(), key.get())
        }
        _ => no_target(terms),
    }
}

fn assign_pattern<F: Fn(usize, &mut Scopes, &mut Stack, Task<'_>) -> Result<(), OutOfMemory>>(
    lowerer: &Lowerer<F>,
    scopes: &mut Scopes,
    terms: &mut Stack,
    pattern: &Pattern,
    tree: &Expr,
) -> Result<(), OutOfMemory>
    requires { Nests lowerer.now.depth (F.pre lowerer.now.low) (F.post lowerer.now.low) }
    ensures ok { let b = low lowerer.now.depth in
        let made = spec.assign_pattern b scopes.old pattern.now tree.now in
        OnOk result (terms.new ≡ piece.OneTerm made ∷ terms.old) }
    ensures kept { OnOk result (scopes.new ≡ scopes.old) }
{
    let held = next_held(scopes, 0);
    scopes.open(Frame::new(terms.alloc()))?;
    lower_expr(lowerer, scopes, terms, tree)?;
    terms.init_here(0)?;
    lower_bind(
        lowerer,
        scopes,
        terms,
        true,
        BoundValue::InSlot(held),
        pattern,
    )?;
    scopes.close();
    terms.here(0)?;
    terms.list_three()?;
    terms.scope(1)
}

fn assign_name<F: Fn(usize, &mut Scopes, &mut Stack, Task<'_>) -> Result<(), OutOfMemory>>(
    lowerer: &Lowerer<F>,
    scopes: &mut Scopes,
    terms: &mut Stack,
    name: &Text,
    tree: &Expr,
) -> Result<(), OutOfMemory>
    requires { Nests lowerer.now.depth (F.pre lowerer.now.low) (F.post lowerer.now.low) }
    ensures ok { let b = low lowerer.now.depth in
        let made = values.write scopes.old name.now
        (b.expr scopes.old name.now tree.now) in
        OnOk result (terms.new ≡ piece.OneTerm made ∷ terms.old) }
    ensures kept { OnOk result (scopes.new ≡ scopes.old) }
{
    lower_named(lowerer, scopes, terms, Some(name), tree)?;
    write(scopes, terms, name)
}

fn assign_target<F: Fn(usize, &mut Scopes, &mut Stack, Task<'_>) -> Result<(), OutOfMemory>>(
    lowerer: &Lowerer<F>,
    scopes: &mut Scopes,
    terms: &mut Stack,
    target: &Expr,
    tree: &Expr,
) -> Result<(), OutOfMemory>
    requires { Nests lowerer.now.depth (F.pre lowerer.now.low) (F.post lowerer.now.low) }
    ensures ok { let b = low lowerer.now.depth in
        let made = spec.assign_to b scopes.old (spec.expr b scopes.old tree.now) target.now in
        OnOk result (terms.new ≡ piece.OneTerm made ∷ terms.old) }
    ensures kept { OnOk result (scopes.new ≡ scopes.old) }
{
    lower_expr(lowerer, scopes, terms, tree)?;
    assign_to(lowerer, scopes, terms, target)
}

/// An assignment with `=` (ECMA-262, AssignmentExpression).
pub fn assign<F: Fn(usize, &mut Scopes, &mut Stack, Task<'_>) -> Result<(), OutOfMemory>>(
    lowerer: &Lowerer<F>,
    scopes: &mut Scopes,
    terms: &mut Stack,
    pattern: &Pattern,
    tree: &Expr,
) -> Result<(), OutOfMemory>
    requires { Nests lowerer.now.depth (F.pre lowerer.now.low) (F.post lowerer.now.low) }
    ensures ok { let b = low lowerer.now.depth in
        let made = spec.assign b scopes.old pattern.now tree.now in
        OnOk result (terms.new ≡ piece.OneTerm made ∷ terms.old) }
    ensures kept { OnOk result (scopes.new ≡ scopes.old) }
{
    match pattern {
        Pattern::Bound(identifier) => assign_name(lowerer, scopes, terms, &identifier.name, tree),
        Pattern::Target(target) => assign_target(lowerer, scopes, terms, target.get(), tree),
        _ => assign_pattern(lowerer, scopes, terms, pattern, tree),
    }
}

fn operate_binary<F: Fn(usize, &mut Scopes, &mut Stack, Task<'_>) -> Result<(), OutOfMemory>>(
    lowerer: &Lowerer<F>,
    scopes: &mut Scopes,
    terms: &mut Stack,
    operator: BinaryOperator,
    name: &Text,
    tree: &Expr,
) -> Result<(), OutOfMemory>
    requires { Nests lowerer.now.depth (F.pre lowerer.now.low) (F.post lowerer.now.low) }
    ensures ok { let b = low lowerer.now.depth in
        let made = values.write scopes.old name.now (term.Binary operator
        (values.read scopes.old name.now false) (spec.expr b scopes.old tree.now)) in
        OnOk result (terms.new ≡ piece.OneTerm made ∷ terms.old) }
    ensures kept { OnOk result (scopes.new ≡ scopes.old) }
{
    read(scopes, terms, name, false)?;
    lower_expr(lowerer, scopes, terms, tree)?;
    terms.binary(operator)?;
    write(scopes, terms, name)
}

fn operate_logical<F: Fn(usize, &mut Scopes, &mut Stack, Task<'_>) -> Result<(), OutOfMemory>>(
    lowerer: &Lowerer<F>,
    scopes: &mut Scopes,
    terms: &mut Stack,
    operator: LogicalOperator,
    name: &Text,
    hint: Option<&Text>,
    tree: &Expr,
) -> Result<(), OutOfMemory>
    requires { Nests lowerer.now.depth (F.pre lowerer.now.low) (F.post lowerer.now.low) }
    ensures ok { let b = low lowerer.now.depth in
        let made = term.Short operator (values.read scopes.old name.now false)
        (values.write scopes.old name.now
        (b.expr scopes.old (given hint.entry) tree.now)) in
        OnOk result (terms.new ≡ piece.OneTerm made ∷ terms.old) }
    ensures kept { OnOk result (scopes.new ≡ scopes.old) }
{
    read(scopes, terms, name, false)?;
    lower_named(lowerer, scopes, terms, hint, tree)?;
    write(scopes, terms, name)?;
    terms.short(operator)
}

fn operate_name<F: Fn(usize, &mut Scopes, &mut Stack, Task<'_>) -> Result<(), OutOfMemory>>(
    lowerer: &Lowerer<F>,
    scopes: &mut Scopes,
    terms: &mut Stack,
    operator: AssignmentOperator,
    name: &Text,
    hint: Option<&Text>,
    tree: &Expr,
) -> Result<(), OutOfMemory>
    requires { Nests lowerer.now.depth (F.pre lowerer.now.low) (F.post lowerer.now.low) }
    ensures ok { let b = low lowerer.now.depth in
        let made = spec.operate_name b scopes.old operator name.now (given hint.entry) tree.now in
        OnOk result (terms.new ≡ piece.OneTerm made ∷ terms.old) }
    ensures kept { OnOk result (scopes.new ≡ scopes.old) }
{
    match operator {
        AssignmentOperator::Binary(operator) => {
            operate_binary(lowerer, scopes, terms, operator, name, tree)
        }
        AssignmentOperator::Logical(operator) => {
            operate_logical(lowerer, scopes, terms, operator, name, hint, tree)
        }
    }
}

pub fn get_here(terms: &mut Stack) -> Result<(), OutOfMemory>
    ensures { OnOk result (terms.new ≡ piece.OneTerm spec.get_here ∷ terms.old) }
{
    terms.here(0)?;
    terms.here(1)?;
    terms.get()
}

pub fn references_here(terms: &mut Stack) -> Result<(), OutOfMemory>
    ensures { OnOk result (terms.new ≡ piece.OneTerm (values.here 1) ∷
        piece.OneTerm (values.here 0) ∷ terms.old) }
{
    terms.here(0)?;
    terms.here(1)
}

fn operate_here_binary<F: Fn(usize, &mut Scopes, &mut Stack, Task<'_>) -> Result<(), OutOfMemory>>(
    lowerer: &Lowerer<F>,
    scopes: &mut Scopes,
    terms: &mut Stack,
    operator: BinaryOperator,
    tree: &Expr,
) -> Result<(), OutOfMemory>
    requires { Nests lowerer.now.depth (F.pre lowerer.now.low) (F.post lowerer.now.low) }
    ensures ok { let b = low lowerer.now.depth in
        let made = spec.put_here (term.Binary operator spec.get_here
        (spec.expr b scopes.old tree.now)) in
        OnOk result (terms.new ≡ piece.OneTerm made ∷ terms.old) }
    ensures kept { OnOk result (scopes.new ≡ scopes.old) }
{
    references_here(terms)?;
    get_here(terms)?;
    lower_expr(lowerer, scopes, terms, tree)?;
    terms.binary(operator)?;
    terms.put()
}

fn operate_here_logical<F: Fn(usize, &mut Scopes, &mut Stack, Task<'_>) -> Result<(), OutOfMemory>>(
    lowerer: &Lowerer<F>,
    scopes: &mut Scopes,
    terms: &mut Stack,
    operator: LogicalOperator,
    tree: &Expr,
) -> Result<(), OutOfMemory>
    requires { Nests lowerer.now.depth (F.pre lowerer.now.low) (F.post lowerer.now.low) }
    ensures ok { let b = low lowerer.now.depth in
        let made = term.Short operator spec.get_here
        (spec.put_here (spec.expr b scopes.old tree.now)) in
        OnOk result (terms.new ≡ piece.OneTerm made ∷ terms.old) }
    ensures kept { OnOk result (scopes.new ≡ scopes.old) }
{
    get_here(terms)?;
    references_here(terms)?;
    lower_expr(lowerer, scopes, terms, tree)?;
    terms.put()?;
    terms.short(operator)
}

fn operate_here<F: Fn(usize, &mut Scopes, &mut Stack, Task<'_>) -> Result<(), OutOfMemory>>(
    lowerer: &Lowerer<F>,
    scopes: &mut Scopes,
    terms: &mut Stack,
    operator: AssignmentOperator,
    tree: &Expr,
) -> Result<(), OutOfMemory>
    requires { Nests lowerer.now.depth (F.pre lowerer.now.low) (F.post lowerer.now.low) }
    ensures ok { let b = low lowerer.now.depth in
        let made = spec.operate_here operator (spec.expr b scopes.old tree.now) in
        OnOk result (terms.new ≡ piece.OneTerm made ∷ terms.old) }
    ensures kept { OnOk result (scopes.new ≡ scopes.old) }
{
    match operator {
        AssignmentOperator::Binary(operator) => {
            operate_here_binary(lowerer, scopes, terms, operator, tree)
        }
        AssignmentOperator::Logical(operator) => {
            operate_here_logical(lowerer, scopes, terms, operator, tree)
        }
    }
}

pub fn member_inits<F: Fn(usize, &mut Scopes, &mut Stack, Task<'_>) -> Result<(), OutOfMemory>>(
    lowerer: &Lowerer<F>,
    scopes: &mut Scopes,
    terms: &mut Stack,
    object: &Expr,
    name: &Text,
) -> Result<(), OutOfMemory>
    requires { Nests lowerer.now.depth (F.pre lowerer.now.low) (F.post lowerer.now.low) }
    ensures ok { let b = low lowerer.now.depth in
        OnOk result (terms.new ≡ (let first = values.init_here 0 (spec.expr b scopes.old object.now) in
        let second = values.init_here 1 (values.text name.now) in
        piece.OneTerm second ∷ piece.OneTerm first ∷ terms.old)) }
    ensures kept { OnOk result (scopes.new ≡ scopes.old) }
{
    lower_expr(lowerer, scopes, terms, object)?;
    terms.init_here(0)?;
    terms.text_of(name)?;
    terms.init_here(1)
}

pub fn index_inits<F: Fn(usize, &mut Scopes, &mut Stack, Task<'_>) -> Result<(), OutOfMemory>>(
    lowerer: &Lowerer<F>,
    scopes: &mut Scopes,
    terms: &mut Stack,
    object: &Expr,
    key: &Expr,
) -> Result<(), OutOfMemory>
    requires { Nests lowerer.now.depth (F.pre lowerer.now.low) (F.post lowerer.now.low) }
    ensures ok { let b = low lowerer.now.depth in
        OnOk result (terms.new ≡ (let first = values.init_here 0 (spec.expr b scopes.old object.now) in
        let second = values.init_here 1 (values.to_key (spec.expr b scopes.old key.now)) in
        piece.OneTerm second ∷ piece.OneTerm first ∷ terms.old)) }
    ensures kept { OnOk result (scopes.new ≡ scopes.old) }
{
    lower_expr(lowerer, scopes, terms, object)?;
    terms.init_here(0)?;
    lower_expr(lowerer, scopes, terms, key)?;
    to_key(terms)?;
    terms.init_here(1)
}

fn operate_member<F: Fn(usize, &mut Scopes, &mut Stack, Task<'_>) -> Result<(), OutOfMemory>>(
    lowerer: &Lowerer<F>,
    scopes: &mut Scopes,
    terms: &mut Stack,
    operator: AssignmentOperator,
    object: &Expr,
    name: &Text,
    tree: &Expr,
) -> Result<(), OutOfMemory>
    requires { Nests lowerer.now.depth (F.pre lowerer.now.low) (F.post lowerer.now.low) }
    ensures ok { let b = low lowerer.now.depth in
        let made = spec.operate_member b scopes.old operator object.now name.now tree.now in
        OnOk result (terms.new ≡ piece.OneTerm made ∷ terms.old) }
    ensures kept { OnOk result (scopes.new ≡ scopes.old) }
{
    scopes.open(Frame::new(terms.alloc()))?;
    member_inits(lowerer, scopes, terms, object, name)?;
    operate_here(lowerer, scopes, terms, operator, tree)?;
    scopes.close();
    terms.list_three()?;
    terms.scope(2)
}

fn operate_index<F: Fn(usize, &mut Scopes, &mut Stack, Task<'_>) -> Result<(), OutOfMemory>>(
    lowerer: &Lowerer<F>,
    scopes: &mut Scopes,
    terms: &mut Stack,
    operator: AssignmentOperator,
    object: &Expr,
    key: &Expr,
    tree: &Expr,
) -> Result<(), OutOfMemory>
    requires { Nests lowerer.now.depth (F.pre lowerer.now.low) (F.post lowerer.now.low) }
    ensures ok { let b = low lowerer.now.depth in
        let made = spec.operate_index b scopes.old operator object.now key.now tree.now in
        OnOk result (terms.new ≡ piece.OneTerm made ∷ terms.old) }
    ensures kept { OnOk result (scopes.new ≡ scopes.old) }
{
    scopes.open(Frame::new(terms.alloc()))?;
    index_inits(lowerer, scopes, terms, object, key)?;
    operate_here(lowerer, scopes, terms, operator, tree)?;
    scopes.close();
    terms.list_three()?;
    terms.scope(2)
}

/// An assignment with an operator (ECMA-262, AssignmentExpression).
pub fn operate<F: Fn(usize, &mut Scopes, &mut Stack, Task<'_>) -> Result<(), OutOfMemory>>(
    lowerer: &Lowerer<F>,
    scopes: &mut Scopes,
    terms: &mut Stack,
    operator: AssignmentOperator,
    target: &Expr,
    tree: &Expr,
) -> Result<(), OutOfMemory>
    requires { Nests lowerer.now.depth (F.pre lowerer.now.low) (F.post lowerer.now.low) }
    ensures ok { let b = low lowerer.now.depth in
        let made = spec.operate b scopes.old operator target.now tree.now in
        OnOk result (terms.new ≡ piece.OneTerm made ∷ terms.old) }
    ensures kept { OnOk result (scopes.new ≡ scopes.old) }
{
    match bare(target) {
        Expr::Name(identifier) => {
            let hint = name_of(target);
            operate_name(
                lowerer,
                scopes,
                terms,
                operator,
                &identifier.name,
                hint,
                tree,
            )
        }
        Expr::Member { object, name, .. } => {
            operate_member(
                lowerer,
                scopes,
                terms,
                operator,
                object.get(),
                &name.name,
                tree,
            )
        }
        Expr::Index { object, key, .. } => {
            operate_index(
                lowerer,
                scopes,
                terms,
                operator,
                object.get(),
                key.get(),
                tree,
            )
        }
        _ => lower_expr(lowerer, scopes, terms, tree),
    }
}
