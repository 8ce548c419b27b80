// `switch` and its clauses.

ghost use Rattle.std.specs.Prelude.{◌≡◌, ◌∷◌, IfOk};
ghost use Rattle.js_stmt.specs.Switches as spec;

use crate::statements::statement_phrase;
use js_phrase::phrase::Phrase;
use js_phrase::queue::Queue;
use js_tree::tree::{Clause, Stmt};
use lava_base::memory::OutOfMemory;
use sqlite_items::{Boxed, Items};
use std::alloc::Global;

/// `case` (ECMA-262, CaseClause).
pub fn case_clause(alloc: Global, parts: &mut Queue<Phrase>) -> Result<Phrase, OutOfMemory>
    ensures { IfOk result (λ p. p ≡ spec.case_clause parts.old) }
{
    parts.skip();
    let test = parts.expression(alloc)?;
    let body = parts.statement_list(alloc)?;
    let clause = Clause {
        test: Some(test),
        body,
    };
    Ok(Phrase::Clause(Boxed::new(alloc, clause)?))
}

/// A clause, and others behind it.
fn clauses_from(
    alloc: Global,
    first: Clause,
    behind: Items<Clause>,
) -> Result<Items<Clause>, OutOfMemory>
    ensures { IfOk result (λ l. l ≡ first ∷ behind) }
{
    let mut clauses = Items::new(alloc);
    clauses.push(first)?;
    clauses.append(behind)?;
    Ok(clauses)
}

/// `default`, and the clauses behind it (ECMA-262, DefaultClause).
pub fn default_clause(alloc: Global, parts: &mut Queue<Phrase>) -> Result<Phrase, OutOfMemory>
    ensures { IfOk result (λ p. p ≡ spec.default_clause parts.old) }
{
    let mut body = Items::new(alloc);
    let mut behind = Items::new(alloc);
    parts.statements_and_clauses(&mut body, &mut behind)?;
    let clause = Clause { test: None, body };
    Ok(Phrase::Clauses(clauses_from(alloc, clause, behind)?))
}

/// `switch` (ECMA-262, SwitchStatement).
pub fn switch_statement(alloc: Global, parts: &mut Queue<Phrase>) -> Result<Phrase, OutOfMemory>
    ensures { IfOk result (λ p. p ≡ spec.switch_statement parts.old) }
{
    let place = parts.token().start;
    parts.skip();
    let value = parts.expression(alloc)?;
    let clauses = parts.clauses(alloc)?;
    let made = Stmt::Switch {
        place,
        value,
        clauses,
    };
    statement_phrase(alloc, made)
}
