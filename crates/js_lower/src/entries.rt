// The recursion of the table.

ghost use Rattle.std.specs.Prelude.{◌≡◌, ◌+◌, ◌-◌, ◌++◌, ◌∷◌, [], map, length, true, false, IfOk, OnOk, Some, None, codes};
ghost use Rattle.std.specs.Option.{option_map};
ghost use Rattle.js_names.specs.Lists.{flat};
ghost use Rattle.js_term.specs.declared.term.Term.TheVariants as term;
ghost use Rattle.js_term.specs.declared.term.Part.TheVariants as part;
ghost use Rattle.js_term.specs.declared.term.TemplateKind.TheVariants as template;
ghost use Rattle.js_term_stack.specs.Stacks.{extended, extended_parts, function_part, on_one, on_list, taken, taken_pending};
ghost use Rattle.js_term_stack.specs.declared.piece.Piece.TheVariants as piece;
ghost use Rattle.js_term_stack.specs.declared.pending.Pending.TheVariants as pending;
ghost use Rattle.js_lower_table.specs.Values as values;
ghost use Rattle.js_lower_table.specs.Entries.{given, origin};
ghost use Rattle.js_lower_table.specs.Entries as entries;
ghost use Rattle.js_lower_table.specs.Nests.{Nests};
ghost use Rattle.js_lower_table.specs.Table.{low};
ghost use Rattle.std.specs.Prelude.{suc};
ghost use Rattle.js_lower_table.specs.Table as table;

use crate::templates::template_row;
use js_frames::scopes::Scopes;
use js_lower_stmt::js_lower_expr::expressions::expr_row;
use js_lower_stmt::js_lower_patterns::patterns::bind_row;
use js_lower_stmt::statements::stmt_row;
use js_lower_table::lowerer::Lowerer;
use js_lower_table::task::Task;
use js_lower_table::words::word;
use js_term::term::{Template, TemplateKind};
use js_term_stack::piece::Piece;
use js_term_stack::stack::Stack;
use lava_base::memory::OutOfMemory;
use sqlite_items::{Boxed, Items};

fn bottom_template(terms: &mut Stack, kind: TemplateKind) -> Result<(), OutOfMemory>
    ensures { OnOk result (terms.new ≡ piece.OneTemplate (table.no_template kind) ∷ terms.old) }
{
    let name = word(terms.alloc(), b"")?;
    terms.undefined()?;
    let body = terms.take_term()?;
    let template = Template {
        kind,
        name,
        length: 0,
        params: 0,
        rest: false,
        slots: 0,
        undefined: Items::new(terms.alloc()),
        body,
    };
    let made = Boxed::new(terms.alloc(), template)?;
    terms.push(Piece::OneTemplate(made))
}

/// What is given where the depth is used up.
#[tactic(auto, using(js_term_stack::specs::Stack_laws::extended_none, js_term_stack::specs::Stack_laws::extended_twice))]
fn bottom(scopes: &Scopes, terms: &mut Stack, task: Task<'_>) -> Result<(), OutOfMemory>
    ensures { OnOk result (terms.new ≡ table.put_on (low 0) scopes.now task.entry terms.old) }
{
    match task {
        Task::Expression { .. } => terms.undefined(),
        Task::Statement { .. } => Ok(()),
        Task::Binding { .. } => terms.undefined(),
        Task::Body { kind, .. } => bottom_template(terms, kind),
    }
}

fn row<F: Fn(usize, &mut Scopes, &mut Stack, Task<'_>) -> Result<(), OutOfMemory>>(
    lowerer: &Lowerer<F>,
    scopes: &mut Scopes,
    terms: &mut Stack,
    task: Task<'_>,
) -> Result<(), OutOfMemory>
    requires { Nests lowerer.now.depth (F.pre lowerer.now.low) (F.post lowerer.now.low) }
    ensures ok { let b = low (suc lowerer.now.depth) in
        OnOk result (terms.new ≡ table.put_on b scopes.old task.entry terms.old) }
    ensures kept { OnOk result (scopes.new ≡ scopes.old) }
{
    match task {
        Task::Expression { name, tree } => expr_row(lowerer, scopes, terms, name, tree),
        Task::Statement { labels, tree } => stmt_row(lowerer, scopes, terms, labels, tree),
        Task::Binding {
            assigned,
            from,
            tree,
        } => bind_row(lowerer, scopes, terms, assigned, from, tree),
        Task::Body { kind, name, tree } => template_row(lowerer, scopes, terms, kind, name, tree),
    }
}

/// Puts on the stack what the table gives for a tree that is so many levels deep.
#[cycle(lower_to)]
pub fn lower_to(
    depth: usize,
    scopes: &mut Scopes,
    terms: &mut Stack,
    task: Task<'_>,
) -> Result<(), OutOfMemory>
    ensures ok { let made = table.put_on (low depth) scopes.old task.entry terms.old in
        OnOk result (terms.new ≡ made) }
    ensures kept { OnOk result (scopes.new ≡ scopes.old) }
{
    if depth == 0 {
        return bottom(scopes, terms, task);
    }
    let lowerer = Lowerer {
        depth: depth - 1,
        low: lower_to,
    };
    row(&lowerer, scopes, terms, task)
}
