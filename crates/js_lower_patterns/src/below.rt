// What lies below the trees of this crate's rules: the lowering that a rule is given, by form.
//
// Each crate of rules has these functions of its own: a call of a generic function of another crate costs the check seconds.

ghost use Rattle.std.specs.Prelude.{◌≡◌, ◌∷◌, [], OnOk};
ghost use Rattle.js_term_stack.specs.Stacks.{extended};
ghost use Rattle.js_term_stack.specs.declared.piece.Piece.TheVariants as piece;
ghost use Rattle.js_lower_table.specs.Entries.{given, origin};
ghost use Rattle.js_lower_table.specs.Expressions as expressions;
ghost use Rattle.js_lower_table.specs.Statements as statements;
ghost use Rattle.js_lower_table.specs.Nests.{Nests};
ghost use Rattle.js_lower_table.specs.Table.{low};

use js_frames::scopes::Scopes;
use js_lower_table::bound_value::BoundValue;
use js_lower_table::lowerer::Lowerer;
use js_lower_table::task::Task;
use js_term_stack::stack::Stack;
use js_text::text::Text;
use js_tree::tree::{Expr, Pattern};
use lava_base::memory::OutOfMemory;

/// Puts the term of an expression on the stack.
pub fn lower_expr<F: Fn(usize, &mut Scopes, &mut Stack, Task<'_>) -> Result<(), OutOfMemory>>(
    lowerer: &Lowerer<F>,
    scopes: &mut Scopes,
    terms: &mut Stack,
    tree: &Expr,
) -> Result<(), OutOfMemory>
    requires { Nests lowerer.now.depth (F.pre lowerer.now.low) (F.post lowerer.now.low) }
    ensures ok { let b = low lowerer.now.depth in
        let made = expressions.expr b scopes.old tree.now in
        OnOk result (terms.new ≡ piece.OneTerm made ∷ terms.old) }
    ensures kept { OnOk result (scopes.new ≡ scopes.old) }
{
    (lowerer.low)(
        lowerer.depth,
        scopes,
        terms,
        Task::Expression { name: None, tree },
    )
}

/// Puts the term of an expression on the stack; the name is for a function or class that has none.
pub fn lower_named<F: Fn(usize, &mut Scopes, &mut Stack, Task<'_>) -> Result<(), OutOfMemory>>(
    lowerer: &Lowerer<F>,
    scopes: &mut Scopes,
    terms: &mut Stack,
    name: Option<&Text>,
    tree: &Expr,
) -> Result<(), OutOfMemory>
    requires { Nests lowerer.now.depth (F.pre lowerer.now.low) (F.post lowerer.now.low) }
    ensures ok { let b = low lowerer.now.depth in
        let made = b.expr scopes.old (given name.entry) tree.now in
        OnOk result (terms.new ≡ piece.OneTerm made ∷ terms.old) }
    ensures kept { OnOk result (scopes.new ≡ scopes.old) }
{
    (lowerer.low)(
        lowerer.depth,
        scopes,
        terms,
        Task::Expression { name, tree },
    )
}

/// Puts the term that binds a pattern to a value on the stack.
pub fn lower_bind<F: Fn(usize, &mut Scopes, &mut Stack, Task<'_>) -> Result<(), OutOfMemory>>(
    lowerer: &Lowerer<F>,
    scopes: &mut Scopes,
    terms: &mut Stack,
    assigned: bool,
    from: BoundValue<'_>,
    tree: &Pattern,
) -> Result<(), OutOfMemory>
    requires { Nests lowerer.now.depth (F.pre lowerer.now.low) (F.post lowerer.now.low) }
    ensures ok { let b = low lowerer.now.depth in
        let made = b.bind scopes.old assigned (origin from.entry) tree.now in
        OnOk result (terms.new ≡ piece.OneTerm made ∷ terms.old) }
    ensures kept { OnOk result (scopes.new ≡ scopes.old) }
{
    (lowerer.low)(
        lowerer.depth,
        scopes,
        terms,
        Task::Binding {
            assigned,
            from,
            tree,
        },
    )
}
