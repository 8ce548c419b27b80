// The lines of a term.

ghost use Rattle.std.specs.Prelude.{◌≡◌, ◌+◌, ◌++◌, ◌∷◌, [], map, List as Listed, ℕ, IfOk, OnOk};
ghost use Rattle.js_term.specs.declared.term.Template.{Template as OneTemplate};
ghost use Rattle.js_tree_lines.specs.Lines as spec;
ghost use Rattle.js_tree_lines.specs.Lines.{AreLinesOf, node_of};
ghost use Rattle.js_tree_lines.specs.Pending_lines.{AreRest, at_depth, pending};

use crate::heads::line;
use crate::node::{Node, PendingLine};
use crate::operands::{operands, pop, push};
use js_term::term::Template;
use lava_base::list::List;
use lava_base::memory::OutOfMemory;
use std::alloc::Global;

fn one_line<'a>(
    stack: &mut Vec<PendingLine<'a>>,
    out: &mut List<u8>,
    next: PendingLine<'a>,
) -> Result<(), OutOfMemory>
    ensures line { let node = node_of next.entry.node in
        OnOk result (out.new ≡ out.old ++ spec.line next.entry.depth node) }
    ensures below { let node = node_of next.entry.node in
        let more = map (at_depth (next.entry.depth + 1)) (spec.operands_of node) in
        OnOk result (pending stack.new.items ≡ more ++ pending stack.old.items) }
{
    line(out, next.depth, next.node)?;
    match next.depth.checked_add(1) {
        None => Err(OutOfMemory),
        Some(below) => operands(stack, below, next.node),
    }
}

fn all_lines<'a>(stack: &mut Vec<PendingLine<'a>>, out: &mut List<u8>) -> Result<(), OutOfMemory>
    ensures { OnOk result ((bytes : Listed ℕ) × (out.new ≡ out.old ++ bytes)
        × AreRest (pending stack.old.items) bytes) }
{
    let mut left = u64::MAX;
    while 0 < left {
        left -= 1;
        match pop(stack) {
            None => return Ok(()),
            Some(next) => one_line(stack, out, next)?,
        }
    }
    Err(OutOfMemory)
}

/// The lines of a template's body.
pub fn template_lines(alloc: Global, template: &Template) -> Result<List<u8>, OutOfMemory>
    ensures { IfOk result (λ bytes. AreLinesOf template.now bytes) }
{
    let mut out = List::new(alloc);
    let mut stack = Vec::new(alloc);
    push(&mut stack, 0, Node::OneTerm(template.body.get()))?;
    all_lines(&mut stack, &mut out)?;
    Ok(out)
}

/// A template has one text of lines.
pub fn one_text()
    ensures { (t : OneTemplate) (a b : Listed ℕ) → AreLinesOf t a → AreLinesOf t b → a ≡ b }
{}
