// What stands directly below each part.

ghost use Rattle.std.specs.Prelude.{◌≡◌, ◌++◌, OnOk, IfOk};
ghost use Rattle.js_walk.specs.Parts.{Adds, part_of, parts_below, parts_of};

use crate::classes::{class_parts, function_parts};
use crate::expressions::expression_parts;
use crate::patterns::pattern_parts;
use crate::statements::{catch_parts, clauses, statement_parts, statements};
use crate::subtree::{Subtree, add};
use lava_base::memory::OutOfMemory;
use sqlite_items::Items;
use std::alloc::Global;

fn add_parts<'a>(part: &Subtree<'a>, out: &mut Items<Subtree<'a>>) -> Result<(), OutOfMemory>
    ensures { OnOk result (Adds out.old out.new (parts_below (part_of part.now))) }
{
    match *part {
        Subtree::Module(source) => statements(source.body.as_slice(), out),
        Subtree::Expression(expression) => expression_parts(expression, out),
        Subtree::Update(_, expression) => expression_parts(expression, out),
        Subtree::Pattern(assigns, pattern) => pattern_parts(assigns, pattern, out),
        Subtree::Function(_, function) => function_parts(function, out),
        Subtree::Class(class) => class_parts(class, out),
        Subtree::Statement(statement) => statement_parts(statement, out),
        Subtree::Loop(statement) => add(Subtree::Statement(statement), out),
        Subtree::Block(list) => statements(list.as_slice(), out),
        Subtree::Cases(list) => clauses(list.as_slice(), out),
        Subtree::Catch(catch) => catch_parts(catch, out),
        Subtree::Head(_, pattern) => add(Subtree::Pattern(false, pattern), out),
        Subtree::Each(_, _, body) => add(Subtree::Loop(body), out),
    }
}

/// What stands directly below a part, in the order of the text. It takes time linear in what it gives, but for the paths that it tells.
pub fn parts_below<'a>(alloc: Global, part: &Subtree<'a>) -> Result<Items<Subtree<'a>>, OutOfMemory>
    ensures { IfOk result (λ parts. parts_of parts ≡ parts_below (part_of part.now)) }
{
    let mut parts = Items::new(alloc);
    add_parts(part, &mut parts)?;
    Ok(parts)
}
