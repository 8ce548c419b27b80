// A line that is being written, with what the trace has named.

ghost use Rattle.std.specs.Prelude.{◌≡◌, ◌++◌, [], false, OnOk};
ghost use Rattle.std.specs.Map.{lookup};
ghost use Rattle.lava_base.specs.Ids.{same_ref};
ghost use Rattle.lava_base.specs.declared.ids.Ref.{Ref as Reference};
ghost use Rattle.lava_journal.specs.Alike.{AreAlike};
ghost use Rattle.lava_journal.specs.Lines.{crossing_line};
ghost use Rattle.lava_journal.specs.Quotes as quote;
ghost use Rattle.lava_journal.specs.Sheets.{blank, is_shown, no_names, with_marks_of, with_name};

use crate::bodies::write_line;
use crate::numbers::Numbers;
use crate::page::Page;
use crate::quotes::{push_common, push_marks, push_quoted, push_quoted_number};
use indexmap::IndexMap;
use itoa::Buffer;
use js_desc::crossing::Crossing;
use js_text::text::Text;
use lava_base::ids::{MadeSymbol, PartyId, Ref};
use lava_base::list::List;
use lava_base::marks::Marks;
use lava_base::memory::OutOfMemory;
use std::alloc::Global;
use std::marker::Model;

/// A line that is being written. Contracts see its text, what is named, and the marks of the references that the crossing names.
#[derive(Drop)]
pub(crate) struct Pen {
    numbers: Numbers,
    marks: IndexMap<Ref, Marks>,
    text: List<u8>,
}

impl Model for Pen {
    ghost use Rattle.lava_journal.specs.Sheets.{Sheet};

    ghost Value = { Sheet };

    ghost view = { λ p. record { text = p.text; names = p.numbers; marks = p.marks.entries } };
}

impl Pen {
    /// Nothing is written and nothing named. It takes no memory.
    pub(crate) fn new(alloc: Global) -> Pen
        ensures { result ≡ blank no_names [] }
    {
        Pen {
            numbers: Numbers::new(alloc),
            marks: IndexMap::new(alloc),
            text: List::new(alloc),
        }
    }

    /// Begins a line, with the marks of the references that its crossing names.
    pub(crate) fn begin(&mut self, marks: &List<(Ref, Marks)>) -> Result<(), OutOfMemory>
        ensures { OnOk result (AreAlike self.new (blank self.old.names marks.now)) }
    {
        self.text.truncate(0);
        self.marks.clear();
        list_marks(&mut self.marks, marks)
    }

    /// What is written.
    pub(crate) fn text(&self) -> &[u8]
        ensures { result.now ≡ self.now.text }
    {
        self.text.as_slice()
    }

    /// Writes the line of a crossing, and nothing else. The marks of the references that it names are listed.
    pub(crate) fn fresh_line(
        &mut self,
        number: u64,
        crossing: &Crossing,
        marks: &List<(Ref, Marks)>,
    ) -> Result<(), OutOfMemory>
        ensures { let line = crossing_line self.old.names number crossing.now marks.now in
            OnOk result (AreAlike self.new line) }
    {
        self.begin(marks)?;
        write_line(self, number, crossing)
    }

    /// Writes the name of an object.
    fn name(&mut self, reference: Ref) -> Result<(), OutOfMemory>
        ensures { OnOk result (self.new ≡ with_name self.old reference) }
    {
        match reference {
            Ref::Common(id) => push_common(&mut self.text, id),
            Ref::Own { party, id } => {
                let number = self.numbers.object(party, id)?;
                self.text.push(b'#')?;
                push_pair(&mut self.text, party, number)
            }
        }
    }

    /// Writes the marks of a reference that stands for the first time.
    fn marks_of(&mut self, reference: Ref) -> Result<(), OutOfMemory>
        requires { is_shown self.old.names reference ≡ false }
        ensures { OnOk result (self.new ≡ with_marks_of false self.old reference) }
    {
        if let Some(marks) = self.marks.get(&reference) {
            push_marks(&mut self.text, *marks)?;
        }
        self.numbers.show(reference)
    }
}

impl Page for Pen {
    ghost use Rattle.lava_journal.specs.Sheets as sheet;

    ghost with_piece = { sheet.with_piece };

    #[tactic(auto, unfolding(crate::specs::Pages::with_each))]
    fn bytes(&mut self, bytes: &[u8]) -> Result<(), OutOfMemory> {
        self.text.extend_from_slice(bytes)
    }

    #[tactic(auto, unfolding(crate::specs::Pages::with_each))]
    fn quoted(&mut self, text: &Text) -> Result<(), OutOfMemory> {
        push_quoted(&mut self.text, text)
    }

    #[tactic(auto, unfolding(crate::specs::Pages::with_each))]
    fn quoted_number(&mut self, number: u32) -> Result<(), OutOfMemory> {
        push_quoted_number(&mut self.text, number)
    }

    /// A reference has its marks behind its name where it stands for the first time.
    #[tactic(auto, unfolding(crate::specs::Pages::with_each))]
    fn object(&mut self, reference: Ref) -> Result<(), OutOfMemory> {
        let is_shown = self.numbers.is_shown(reference);
        self.name(reference)?;
        if is_shown {
            return Ok(());
        }
        self.marks_of(reference)
    }

    #[tactic(auto, unfolding(crate::specs::Pages::with_each))]
    fn symbol(&mut self, symbol: MadeSymbol) -> Result<(), OutOfMemory> {
        let number = self.numbers.symbol(symbol)?;
        self.text.push(b'@')?;
        push_pair(&mut self.text, symbol.party, number)
    }
}

/// Appends a party and a number in it.
fn push_pair(out: &mut List<u8>, party: PartyId, number: u64) -> Result<(), OutOfMemory>
    ensures { OnOk result (out.new ≡ out.old ++ quote.pair_text party.0 number) }
{
    let mut buffer = Buffer::new();
    out.extend_from_slice(buffer.format(party.0).as_bytes())?;
    out.push(b'.')?;
    out.extend_from_slice(buffer.format(number).as_bytes())
}

/// Puts the listed marks into a table that is empty. Of two at one reference the first is kept.
fn list_marks(
    table: &mut IndexMap<Ref, Marks>,
    marks: &List<(Ref, Marks)>,
) -> Result<(), OutOfMemory>
    requires { table.old.entries ≡ [] }
    ensures { OnOk result ((r : Reference) → lookup (same_ref r) table.new.entries
        ≡ lookup (same_ref r) marks.now) }
{
    let mut at = marks.len();
    while 0 < at {
        at -= 1;
        let (reference, own) = marks.item(at);
        table.insert(*reference, *own)?;
    }
    Ok(())
}
