// How the tables grow: rows are appended, each of which names places before it.

ghost use Rattle.std.specs.Prelude.{◌≡◌, ◌<◌, length, map, IfOk};
ghost use Rattle.std.specs.Option.{option_map};
ghost use Rattle.js_code.specs.Tables.{part_of};
ghost use Rattle.js_code.specs.Decoded.{arguments_at, arguments_of, class_at, class_of, layer_of, loop_at, loop_of, part_of_row, parts_of, template_at, template_of, term_at, terms_of, text_at, texts_of, try_at, try_of};
ghost use Rattle.js_code.specs.Settled.{Added, AddedRows, Extends, Gives, HasTerm, Holds, IsSettled, Places};
ghost use Rattle.js_term.specs.declared.term.Term.{roll-Term};

use crate::code::Code;
use crate::node::{ArgumentRow, ClassRow, GuardedRow, Node, PartRow, TemplateRow, TurnRow};
use js_text::text::Text;
use lava_base::memory::OutOfMemory;

/// Appends a row, and gives its place. Want of memory is answered too where there are 4,294,967,295 rows.
fn add_row<T: Drop>(table: &mut Vec<T>, row: T) -> Result<u32, OutOfMemory>
    ensures { Added table.old.items table.new.items row result }
{
    let at = table.len();
    if at >= u32::MAX as usize {
        return Err(OutOfMemory);
    }
    table.push(row)?;
    Ok(at as u32)
}

/// Appends rows, and gives the place of the first and how many they are. Want of memory is answered too where there would be more than 4,294,967,295 rows.
fn add_rows<T: Copy>(table: &mut Vec<T>, rows: &[T]) -> Result<(u32, u32), OutOfMemory>
    ensures { AddedRows table.old.items table.new.items rows.now result }
{
    let start = table.len();
    let most = u32::MAX as usize;
    if start > most || rows.len() > most - start {
        return Err(OutOfMemory);
    }
    table.extend_from_slice(rows)?;
    Ok((start as u32, rows.len() as u32))
}

impl Code {
    /// Appends a node.
    pub(crate) fn push_node(&mut self, row: Node) -> Result<u32, OutOfMemory>
        requires { IsSettled (λ c low. layer_of c low row) self.old (length self.old.nodes) }
        ensures extends { Extends self.old self.new }
        ensures term { let layer = layer_of self.old (term_at self.old) row in
            Places result self.new (roll-Term layer) }
    {
        add_row(&mut self.nodes, row)
    }

    /// Appends a text.
    pub(crate) fn push_text(&mut self, text: &Text) -> Result<u32, OutOfMemory>
        ensures extends { Extends self.old self.new }
        ensures text { Gives result (λ at. λ c low. text_at c at) self.new text.now }
        ensures within { IfOk result (λ at. at < length self.new.texts) }
    {
        let text = text.copy()?;
        add_row(&mut self.texts, text)
    }

    /// Appends numbers.
    pub(crate) fn push_numbers(&mut self, rows: &[u32]) -> Result<(u32, u32), OutOfMemory>
        ensures extends { Extends self.old self.new }
        ensures numbers { Gives result (λ at. λ c low. part_of at.0 at.1 c.numbers) self.new
            rows.now }
        ensures terms { IsSettled (λ c low. map low rows.now) self.old (length self.old.nodes)
            → Gives result (λ at. λ c low. terms_of c low at.0 at.1) self.new
            (map (term_at self.old) rows.now) }
        ensures labels { IsSettled (λ c low. map (text_at c) rows.now) self.old
            (length self.old.nodes)
            → Gives result (λ at. λ c low. texts_of c at.0 at.1) self.new
            (map (text_at self.old) rows.now) }
    {
        add_rows(&mut self.numbers, rows)
    }

    /// Appends parts.
    pub(crate) fn push_parts(&mut self, rows: &[PartRow]) -> Result<(u32, u32), OutOfMemory>
        requires { IsSettled (λ c low. map (part_of_row c low) rows.now) self.old
            (length self.old.nodes) }
        ensures extends { Extends self.old self.new }
        ensures parts { Gives result (λ at. λ c low. parts_of c low at.0 at.1) self.new
            (map (part_of_row self.old (term_at self.old)) rows.now) }
    {
        add_rows(&mut self.parts, rows)
    }

    /// Appends what a call is given.
    pub(crate) fn push_arguments(&mut self, row: ArgumentRow) -> Result<u32, OutOfMemory>
        requires { IsSettled (λ c low. arguments_of c low row) self.old (length self.old.nodes) }
        ensures extends { Extends self.old self.new }
        ensures arguments { Gives result (λ at. λ c low. arguments_at c low at) self.new
            (arguments_of self.old (term_at self.old) row) }
    {
        add_row(&mut self.arguments, row)
    }

    /// Appends a template.
    pub(crate) fn push_template(&mut self, row: TemplateRow) -> Result<u32, OutOfMemory>
        requires { IsSettled (λ c low. template_of c low row) self.old (length self.old.nodes) }
        ensures extends { Extends self.old self.new }
        ensures template { Gives result (λ at. λ c low. template_at c low at) self.new
            (template_of self.old (term_at self.old) row) }
        ensures within { IfOk result (λ at. at < length self.new.templates) }
    {
        add_row(&mut self.templates, row)
    }

    /// Appends a class.
    pub(crate) fn push_class(&mut self, row: ClassRow) -> Result<u32, OutOfMemory>
        requires { IsSettled (λ c low. class_of c low row) self.old (length self.old.nodes) }
        ensures extends { Extends self.old self.new }
        ensures class { Gives result (λ at. λ c low. class_at c low at) self.new
            (class_of self.old (term_at self.old) row) }
    {
        add_row(&mut self.classes, row)
    }

    /// Appends what a loop does each turn.
    pub(crate) fn push_turn(&mut self, tests_first: bool, row: TurnRow) -> Result<u32, OutOfMemory>
        requires { IsSettled (λ c low. loop_of c low tests_first row) self.old
            (length self.old.nodes) }
        ensures extends { Extends self.old self.new }
        ensures turn { Gives result (λ at. λ c low. loop_at c low tests_first at) self.new
            (loop_of self.old (term_at self.old) tests_first row) }
    {
        let _ = tests_first;
        add_row(&mut self.turns, row)
    }

    /// Appends a `try`.
    pub(crate) fn push_guarded(&mut self, row: GuardedRow) -> Result<u32, OutOfMemory>
        requires { IsSettled (λ c low. try_of c low row) self.old (length self.old.nodes) }
        ensures extends { Extends self.old self.new }
        ensures guarded { Gives result (λ at. λ c low. try_at c low at) self.new
            (try_of self.old (term_at self.old) row) }
    {
        add_row(&mut self.guarded, row)
    }
}
