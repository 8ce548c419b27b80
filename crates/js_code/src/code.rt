// The terms of a run as tables of rows.

ghost use Rattle.std.specs.Prelude.{◌≡◌, [], get_or, length, IfOk};
ghost use Rattle.js_code.specs.Tables.{no_tables, node_at, part_of};
ghost use Rattle.js_code.specs.Decoded.{layer_of, no_argument_row, no_class_row, no_guarded_row, no_template_row, no_turn_row, term_at, text_at};
ghost use Rattle.js_code.specs.declared.node.PartRow.TheVariants as part_row;
ghost use Rattle.js_term.specs.declared.term.Term.{out-Term};

use crate::node::{ArgumentRow, ClassRow, GuardedRow, Node, PartRow, TemplateRow, TurnRow};
use js_term::term::TemplateKind;
use js_text::text::{Text, from_units};
use lava_base::memory::OutOfMemory;
use std::alloc::Global;
use std::marker::Model;

/// The terms and templates of a run, as tables of small rows. Each place has a term, which stays as it is while others are added. A table has at most 4,294,967,295 rows.
#[derive(Drop)]
pub struct Code {
    pub(crate) nodes: Vec<Node>,
    pub(crate) texts: Vec<Text>,
    pub(crate) numbers: Vec<u32>,
    pub(crate) arguments: Vec<ArgumentRow>,
    pub(crate) parts: Vec<PartRow>,
    pub(crate) templates: Vec<TemplateRow>,
    pub(crate) classes: Vec<ClassRow>,
    pub(crate) turns: Vec<TurnRow>,
    pub(crate) guarded: Vec<GuardedRow>,
    /// The empty text.
    no_text: Text,
    alloc: Global,
}

impl Model for Code {
    ghost use Rattle.std.specs.Prelude.{◌≡◌, []};
    ghost use Rattle.js_code.specs.Tables.{Tables};
    ghost use Rattle.js_code.specs.Settled.{IsFounded};

    ghost Value = { Tables };

    ghost view = { λ c. record {
      nodes = c.nodes.items;
      texts = c.texts.items;
      numbers = c.numbers.items;
      arguments = c.arguments.items;
      parts = c.parts.items;
      templates = c.templates.items;
      classes = c.classes.items;
      turns = c.turns.items;
      guarded = c.guarded.items;
    } };

    ghost invariant = { λ c. IsFounded (record {
      nodes = c.nodes.items;
      texts = c.texts.items;
      numbers = c.numbers.items;
      arguments = c.arguments.items;
      parts = c.parts.items;
      templates = c.templates.items;
      classes = c.classes.items;
      turns = c.turns.items;
      guarded = c.guarded.items;
    }) × (c.no_text ≡ []) };
}

/// The row at a place, and another one where there is none.
#[inline]
fn row_at<T: Copy>(table: &[T], at: u32, none: T) -> T
    ensures { result ≡ get_or table.now at none }
{
    if (at as usize) < table.len() {
        table[at as usize]
    } else {
        none
    }
}

/// So many rows from one on, or those of them that are there.
#[inline]
#[tactic(auto, using(std::proofs::lemmas::List::drop_all, std::proofs::lemmas::List::take_all))]
fn rows_from<T: Copy>(table: &[T], start: u32, count: u32) -> &[T]
    ensures { result.now ≡ part_of start count table.now }
{
    if start as usize >= table.len() {
        return &table[..0];
    }
    let rows = &table[start as usize..];
    if count as usize >= rows.len() {
        return rows;
    }
    &rows[..count as usize]
}

/// The text without units.
fn empty_text(alloc: Global) -> Result<Text, OutOfMemory>
    ensures { IfOk result (λ text. text ≡ []) }
{
    match from_units(alloc, &[]) {
        Ok(text) => Ok(text),
        Err(_) => Err(OutOfMemory),
    }
}

impl Code {
    /// A code without places.
    pub fn new(alloc: Global) -> Result<Code, OutOfMemory>
        ensures { IfOk result (λ code. code ≡ no_tables) }
    {
        let no_text = empty_text(alloc)?;
        Ok(Code {
            nodes: Vec::new(alloc),
            texts: Vec::new(alloc),
            numbers: Vec::new(alloc),
            arguments: Vec::new(alloc),
            parts: Vec::new(alloc),
            templates: Vec::new(alloc),
            classes: Vec::new(alloc),
            turns: Vec::new(alloc),
            guarded: Vec::new(alloc),
            no_text,
            alloc,
        })
    }

    /// Where memory is taken.
    pub(crate) fn alloc(&self) -> Global {
        self.alloc
    }

    /// The row of a place: one level of its term. A place without a row is `Outside`.
    #[inline]
    #[tactic(auto, using(crate::proofs::Founded::opens))]
    pub fn node(&self, at: u32) -> Node
        ensures row { result ≡ node_at self.now at }
        ensures term { let low = term_at self.now in
            out-Term (low at) ≡ layer_of self.now low result }
    {
        row_at(&self.nodes, at, Node::Outside)
    }

    /// A text; the empty one where there is none.
    pub fn text(&self, at: u32) -> &Text
        ensures { result.now ≡ text_at self.now at }
    {
        match self.texts.get(at as usize) {
            None => &self.no_text,
            Some(text) => text,
        }
    }

    /// A number of a list: the place of a node or of a label, or a slot. 0 where there is none.
    #[inline]
    pub fn number(&self, at: u32) -> u32
        ensures { result ≡ get_or self.now.numbers at 0 }
    {
        let none = 0;
        row_at(&self.numbers, at, none)
    }

    /// So many numbers of a list from one on, or those of them that are there.
    #[inline]
    pub fn numbers(&self, start: u32, count: u32) -> &[u32]
        ensures { result.now ≡ part_of start count self.now.numbers }
    {
        rows_from(&self.numbers, start, count)
    }

    /// So many parts from one on, or those of them that are there.
    pub fn parts(&self, start: u32, count: u32) -> &[PartRow]
        ensures { result.now ≡ part_of start count self.now.parts }
    {
        rows_from(&self.parts, start, count)
    }

    /// What a call is given; nothing where there is no such row.
    pub fn arguments(&self, at: u32) -> ArgumentRow
        ensures { result ≡ get_or self.now.arguments at no_argument_row }
    {
        let none = ArgumentRow::Listed { start: 0, count: 0 };
        row_at(&self.arguments, at, none)
    }

    /// A part of an object, an array or a class; a hole where there is none.
    pub fn part(&self, at: u32) -> PartRow
        ensures { result ≡ get_or self.now.parts at part_row.Hole }
    {
        let none = PartRow::Hole;
        row_at(&self.parts, at, none)
    }

    /// A template; one without slots, whose body is place 0, where there is none.
    pub fn template(&self, at: u32) -> TemplateRow
        ensures { result ≡ get_or self.now.templates at no_template_row }
    {
        let none = TemplateRow {
            kind: TemplateKind::Plain,
            name: 0,
            length: 0,
            params: 0,
            rest: false,
            slots: 0,
            undefined_start: 0,
            undefined_count: 0,
            body: 0,
        };
        row_at(&self.templates, at, none)
    }

    /// A class; an empty one where there is none.
    pub fn class(&self, at: u32) -> ClassRow
        ensures { result ≡ get_or self.now.classes at no_class_row }
    {
        let none = ClassRow {
            name: 0,
            parent: None,
            constructor: None,
            start: 0,
            count: 0,
        };
        row_at(&self.classes, at, none)
    }

    /// How many classes there are.
    pub fn class_count(&self) -> usize
        ensures { result ≡ length self.now.classes }
    {
        self.classes.len()
    }

    /// What a loop does each turn; all at place 0 where there is no such row.
    pub fn turn(&self, at: u32) -> TurnRow
        ensures { result ≡ get_or self.now.turns at no_turn_row }
    {
        let none = TurnRow {
            labels_start: 0,
            labels_count: 0,
            test: 0,
            update: None,
            body: 0,
        };
        row_at(&self.turns, at, none)
    }

    /// A `try` with what follows it; a body at place 0 alone where there is none.
    pub fn guarded(&self, at: u32) -> GuardedRow
        ensures { result ≡ get_or self.now.guarded at no_guarded_row }
    {
        let none = GuardedRow {
            body: 0,
            handler: None,
            finalizer: None,
        };
        row_at(&self.guarded, at, none)
    }
}
