// Templates, parts and classes.

ghost use Rattle.std.specs.Prelude.{◌≡◌, ◌<◌, length, IfOk};
ghost use Rattle.std.specs.Option.{option_map};
ghost use Rattle.js_code.specs.Decoded.{class_at, part_of_row, parts_of, template_at};
ghost use Rattle.js_code.specs.Settled.{Extends, Gives, Holds};
ghost use Rattle.js_term.specs.declared.term.Arguments.TheOpen.{Term-F};

use crate::code::Code;
use crate::compile::place;
use crate::node::{ClassRow, PartRow, TemplateRow};
use crate::operands::{maybe, named, two};
use js_term::term::{Part, Template, Term};
use js_text::text::Text;
use lava_base::memory::OutOfMemory;
use sqlite_items::{Boxed, Items};

/// Appends a template.
#[cycle(compile)]
pub(crate) fn template_to(
    depth: usize,
    code: &mut Code,
    template: &Template,
) -> Result<u32, OutOfMemory>
    ensures extends { Extends code.old code.new }
    ensures template { Gives result (λ at. λ c low. template_at c low at) code.new template.now }
    ensures within { IfOk result (λ at. at < length code.new.templates) }
{
    let (name, body) = named(depth, code, &template.name, &template.body)?;
    let (undefined_start, undefined_count) = code.push_numbers(template.undefined.as_slice())?;
    code.push_template(TemplateRow {
        kind: template.kind,
        name,
        length: template.length,
        params: template.params,
        rest: template.rest,
        slots: template.slots,
        undefined_start,
        undefined_count,
        body,
    })
}

/// Appends a template, if there is one.
#[cycle(compile)]
pub(crate) fn maybe_template(
    depth: usize,
    code: &mut Code,
    slot: &Option<Boxed<Template>>,
) -> Result<Option<u32>, OutOfMemory>
    ensures extends { Extends code.old code.new }
    ensures template { Gives result (λ at. λ c low. option_map (template_at c low) at) code.new
        slot.now }
{
    match slot {
        None => Ok(None),
        Some(template) => {
            let at = template_to(depth, code, template.get())?;
            Ok(Some(at))
        }
    }
}

/// Appends a key and a template.
#[cycle(compile)]
pub(crate) fn method(
    depth: usize,
    code: &mut Code,
    key: &Boxed<Term>,
    template: &Boxed<Template>,
) -> Result<(u32, u32), OutOfMemory>
    ensures extends { Extends code.old code.new }
    ensures key { Gives result (λ at. λ c low. low at.0) code.new key.now }
    ensures template { Gives result (λ at. λ c low. template_at c low at.1) code.new
        template.now }
{
    let key = place(depth, code, key)?;
    let template = template_to(depth, code, template.get())?;
    Ok((key, template))
}

/// The row of a part, of which all that it names is appended.
#[cycle(compile)]
pub(crate) fn part(depth: usize, code: &mut Code, part: &Part) -> Result<PartRow, OutOfMemory>
    ensures extends { Extends code.old code.new }
    ensures part { Gives result (λ row. λ c low. part_of_row c low row) code.new part.now }
{
    match part {
        Part::Data { key, value } => {
            let (key, value) = two(depth, code, key, value)?;
            Ok(PartRow::Data { key, value })
        }
        Part::Method {
            is_static,
            key,
            template,
        } => {
            let (key, template) = method(depth, code, key, template)?;
            Ok(PartRow::Method {
                is_static: *is_static,
                key,
                template,
            })
        }
        Part::Getter {
            is_static,
            key,
            template,
        } => {
            let (key, template) = method(depth, code, key, template)?;
            Ok(PartRow::Getter {
                is_static: *is_static,
                key,
                template,
            })
        }
        Part::Setter {
            is_static,
            key,
            template,
        } => {
            let (key, template) = method(depth, code, key, template)?;
            Ok(PartRow::Setter {
                is_static: *is_static,
                key,
                template,
            })
        }
        Part::Spread(term) => {
            let term = place(depth, code, term)?;
            Ok(PartRow::Spread(term))
        }
        Part::Item(term) => {
            let term = place(depth, code, term)?;
            Ok(PartRow::Item(term))
        }
        Part::Hole => Ok(PartRow::Hole),
    }
}

/// Appends parts, one after the other.
#[cycle(compile)]
pub(crate) fn parts(
    depth: usize,
    code: &mut Code,
    list: &Items<Part>,
) -> Result<(u32, u32), OutOfMemory>
    ensures extends { Extends code.old code.new }
    ensures parts { Gives result (λ at. λ c low. parts_of c low at.0 at.1) code.new list.now }
{
    let mut rows = Vec::new(code.alloc());
    let items = list.as_slice();
    for item in items {
        let row = part(depth, code, item)?;
        rows.push(row)?;
    }
    code.push_parts(&rows)
}

/// Appends an object and what is defined on it.
#[cycle(compile)]
pub(crate) fn defined(
    depth: usize,
    code: &mut Code,
    object: &Boxed<Term>,
    list: &Items<Part>,
) -> Result<(u32, u32, u32), OutOfMemory>
    ensures extends { Extends code.old code.new }
    ensures object { Gives result (λ at. λ c low. low at.0) code.new object.now }
    ensures parts { Gives result (λ at. λ c low. parts_of c low at.1 at.2) code.new list.now }
{
    let object = place(depth, code, object)?;
    let (start, count) = parts(depth, code, list)?;
    Ok((object, start, count))
}

/// Appends what a class has, and its row.
#[cycle(compile)]
pub(crate) fn class(
    depth: usize,
    code: &mut Code,
    name: &Text,
    parent: &Option<Boxed<Term>>,
    constructor: &Option<Boxed<Template>>,
    list: &Items<Part>,
) -> Result<u32, OutOfMemory>
    ensures extends { Extends code.old code.new }
    ensures class { Gives result (λ at. λ c low. class_at c low at) code.new
        (Term-F.Class name.now parent.now constructor.now list.now) }
{
    let parent = maybe(depth, code, parent)?;
    let constructor = maybe_template(depth, code, constructor)?;
    let (start, count) = parts(depth, code, list)?;
    let name = code.push_text(name)?;
    code.push_class(ClassRow {
        name,
        parent,
        constructor,
        start,
        count,
    })
}
