// The bodies of a view, as they are written.

ghost use Rattle.std.specs.Prelude.{◌≡◌, ◌==◌, ◌++◌, ◌∷◌, [], decimal, false, IfOk, OnOk};
ghost use Rattle.std.specs.List.{list_any};
ghost use Rattle.lava_base.specs.Ids.{same_ref};
ghost use Rattle.js_text.specs.Identities.{Of_object};
ghost use Rattle.lava_journal.specs.Alike.{FindsAlike};
ghost use Rattle.lava_journal.specs.Bodies.{body_pieces};
ghost use Rattle.lava_view.specs.Naming.{identity_of};
ghost use Rattle.lava_view.specs.Sides.{blank_view, with_marks_by, with_side};
ghost use Rattle.lava_view.specs.Views as spec;
ghost use Rattle.lava_view.specs.Views.{is_shown, names_at_start, object_side, side_by, viewed_names, viewed_text};

use crate::named::Named;
use crate::starts::{references_left, references_of};
use crate::view_names::{name_all, place_of};
use indexmap::{IndexMap, IndexSet};
use itoa::Buffer;
use js_desc::crossing::CrossBody;
use js_desc::start::Start;
use js_text::text::Text;
use lava_base::ids::{MadeSymbol, PartyId, Ref};
use lava_base::list::List;
use lava_base::marks::Marks;
use lava_base::memory::OutOfMemory;
use lava_journal::bodies::write_body;
use lava_journal::page::Page;
use lava_journal::quotes::{push_common, push_marks, push_quoted, push_quoted_number};
use lava_trace::line::TraceLine;
use std::alloc::Global;
use std::marker::Model;
use std::mem;

/// A body of a view that is being written. Contracts see whose view it is, the text, what is named, and the marks that the trace has given.
#[derive(Drop)]
pub(crate) struct ViewPage {
    party: PartyId,
    /// The party's own that left it.
    mine: IndexSet<Named>,
    /// Those of others that came to it.
    theirs: IndexSet<Named>,
    /// The references of the start, of which there are at most thirteen.
    start: List<Ref>,
    /// The references that have stood in the view.
    shown: IndexSet<Ref>,
    marks: IndexMap<Ref, Marks>,
    text: List<u8>,
}

impl Model for ViewPage {
    ghost use Rattle.std.specs.Prelude.{◌++◌};
    ghost use Rattle.lava_view.specs.Naming.{identities};
    ghost use Rattle.lava_view.specs.Sides.{ViewSheet};

    ghost Value = { ViewSheet };

    ghost view = { λ p. record {
      party = p.party.0;
      text = p.text;
      names = record {
        mine = identities p.mine.keys;
        theirs = identities p.theirs.keys;
        shown = p.start ++ p.shown.keys;
      };
      marks = p.marks.entries;
    } };
}

impl ViewPage {
    /// A view on which nothing is written, of a party with this start.
    pub(crate) fn new(alloc: Global, party: PartyId, start: &Start) -> Result<ViewPage, OutOfMemory>
        ensures { let names = names_at_start party.0 (spec.references_of start.now) in
            IfOk result (λ p. p ≡ blank_view party.0 names) }
    {
        let left = references_left(alloc, party)?;
        let given = references_of(alloc, start)?;
        let mut mine = IndexSet::new(alloc);
        name_all(&mut mine, left.as_slice())?;
        let mut theirs = IndexSet::new(alloc);
        name_all(&mut theirs, given.as_slice())?;
        Ok(ViewPage {
            party,
            mine,
            theirs,
            start: given,
            shown: IndexSet::new(alloc),
            marks: IndexMap::new(alloc),
            text: List::new(alloc),
        })
    }

    /// Takes the marks that a line of the trace gives.
    pub(crate) fn learn(&mut self, marks: &[(Ref, Marks)]) -> Result<(), OutOfMemory>
        ensures party { OnOk result (self.new.party ≡ self.old.party) }
        ensures names { OnOk result (self.new.names ≡ self.old.names) }
        ensures marks { OnOk result (FindsAlike self.new.marks (self.old.marks ++ marks.now)) }
    {
        add_marks(&mut self.marks, marks)
    }

    /// Whether the party takes part in a crossing.
    pub(crate) fn takes_part(&self, line: &TraceLine) -> bool
        ensures { result ≡ spec.takes_part self.now.party line.now }
    {
        line.crossing.from.0 == self.party.0 || line.crossing.to.0 == self.party.0
    }

    /// Whether the party sent it.
    pub(crate) fn is_sender(&self, line: &TraceLine) -> bool
        ensures { result ≡ (line.now.crossing.from.0 == self.now.party) }
    {
        line.crossing.from.0 == self.party.0
    }

    /// The text of what crosses, as the party sees it behind what it has seen.
    #[tactic(auto, using(crate::proofs::Page_laws::all_pieces))]
    pub(crate) fn body(&mut self, alloc: Global, body: &CrossBody) -> Result<List<u8>, OutOfMemory>
        ensures text { let s = self.old in let ps = body_pieces body.now in
            IfOk result (λ t. t ≡ viewed_text s.party s.names s.marks ps) }
        ensures names { let s = self.old in let ps = body_pieces body.now in
            OnOk result (self.new.names ≡ viewed_names s.party s.names ps) }
        ensures party { OnOk result (self.new.party ≡ self.old.party) }
        ensures marks { OnOk result (self.new.marks ≡ self.old.marks) }
    {
        self.text.truncate(0);
        write_body(self, body)?;
        Ok(mem::replace(&mut self.text, List::new(alloc)))
    }

    /// Whether a reference has stood in the view, or is one of the start.
    #[tactic(auto, using(crate::proofs::Known_laws::in_either))]
    fn is_shown(&self, reference: Ref) -> bool
        ensures { result ≡ is_shown self.now.names reference }
    {
        is_among(self.start.as_slice(), reference) || self.shown.contains(&reference)
    }

    /// Writes the name of one that is the party's own, or of one that is not.
    fn own_name(&mut self, is_mine: bool, named: Named) -> Result<(), OutOfMemory>
        ensures { let side = side_by is_mine in
            OnOk result (self.new ≡ with_side self.old side (identity_of named)) }
    {
        if is_mine {
            let place = place_of(&mut self.mine, named)?;
            push_place(&mut self.text, "mine.", place)
        } else {
            let place = place_of(&mut self.theirs, named)?;
            push_place(&mut self.text, "their.", place)
        }
    }

    /// Writes the name of an object.
    fn name(&mut self, reference: Ref) -> Result<(), OutOfMemory>
        ensures { let side = object_side self.old.party reference in
            OnOk result (self.new ≡ with_side self.old side (Of_object reference)) }
    {
        match reference {
            Ref::Common(id) => push_common(&mut self.text, id),
            Ref::Own { party, .. } => {
                self.own_name(party.0 == self.party.0, Named::AnObject(reference))
            }
        }
    }

    /// Writes the marks of a reference that stands for the first time.
    #[tactic(auto, using(crate::proofs::Known_laws::last_of_all))]
    fn marks_of(&mut self, reference: Ref) -> Result<(), OutOfMemory>
        requires { is_shown self.old.names reference ≡ false }
        ensures { OnOk result (self.new ≡ with_marks_by false self.old reference) }
    {
        if let Some(marks) = self.marks.get(&reference) {
            push_marks(&mut self.text, *marks)?;
        }
        self.shown.insert(reference)?;
        Ok(())
    }
}

impl Page for ViewPage {
    ghost use Rattle.lava_view.specs.Sides.{with_viewed};

    ghost with_piece = { with_viewed };

    #[tactic(auto, unfolding(lava_journal::specs::Pages::with_each))]
    fn bytes(&mut self, bytes: &[u8]) -> Result<(), OutOfMemory> {
        self.text.extend_from_slice(bytes)
    }

    #[tactic(auto, unfolding(lava_journal::specs::Pages::with_each))]
    fn quoted(&mut self, text: &Text) -> Result<(), OutOfMemory> {
        push_quoted(&mut self.text, text)
    }

    #[tactic(auto, unfolding(lava_journal::specs::Pages::with_each))]
    fn quoted_number(&mut self, number: u32) -> Result<(), OutOfMemory> {
        push_quoted_number(&mut self.text, number)
    }

    /// A reference has its marks behind its name where it stands in the view for the first time.
    #[tactic(auto, unfolding(lava_journal::specs::Pages::with_each), using(crate::proofs::Page_laws::shown_stays))]
    fn object(&mut self, reference: Ref) -> Result<(), OutOfMemory> {
        let is_shown = self.is_shown(reference);
        self.name(reference)?;
        if is_shown {
            return Ok(());
        }
        self.marks_of(reference)
    }

    #[tactic(auto, unfolding(lava_journal::specs::Pages::with_each))]
    fn symbol(&mut self, symbol: MadeSymbol) -> Result<(), OutOfMemory> {
        self.text.push(b'@')?;
        self.own_name(symbol.party.0 == self.party.0, Named::ASymbol(symbol))
    }
}

/// Appends the kind of a name, and its number.
fn push_place(out: &mut List<u8>, kind: &str, number: u64) -> Result<(), OutOfMemory>
    ensures { OnOk result (out.new ≡ out.old ++ (kind.now ++ decimal number)) }
{
    let mut buffer = Buffer::new();
    out.extend_from_slice(kind.as_bytes())?;
    out.extend_from_slice(buffer.format(number).as_bytes())
}

/// Adds marks to a table. Of two at one reference the first is kept.
fn add_marks(table: &mut IndexMap<Ref, Marks>, marks: &[(Ref, Marks)]) -> Result<(), OutOfMemory>
    ensures { OnOk result (FindsAlike table.new.entries (table.old.entries ++ marks.now)) }
{
    for entry in marks {
        add_one(table, entry)?;
    }
    Ok(())
}

/// Adds the marks of a reference, if it has none.
fn add_one(table: &mut IndexMap<Ref, Marks>, entry: &(Ref, Marks)) -> Result<(), OutOfMemory>
    ensures { OnOk result (FindsAlike table.new.entries (table.old.entries ++ entry.now ∷ [])) }
{
    match table.get(&entry.0) {
        Some(_) => Ok(()),
        None => {
            table.insert(entry.0, entry.1)?;
            Ok(())
        }
    }
}

/// Whether a reference is among these.
fn is_among(references: &[Ref], reference: Ref) -> bool
    ensures { result ≡ list_any (same_ref reference) references.now }
{
    references.iter().any(|other| reference.is_same(*other))
}
