// References, with their marks, and symbols.

ghost use Rattle.std.specs.Prelude.{◌≡◌, ◌||◌, nat_eq, IfOk, OnOk};
ghost use Rattle.js_text.specs.Texts.{same_units};
ghost use Rattle.lava_trace.specs.Left.{byte_at};
ghost use Rattle.lava_trace.specs.Items as spec;

use crate::left::{LineReader, MAX_ID, narrowed};
use js_text::common::common_path;
use js_text::value::Symbol;
use lava_base::ids::{CommonId, MadeSymbol, ObjId, Ref};
use lava_base::marks::{Class, Marks};
use lava_base::memory::OutOfMemory;

/// Whether bytes are those of a word.
pub(crate) fn is_word(bytes: &[u8], word: &str) -> bool
    ensures { result ≡ same_units bytes.now word.now }
{
    bytes == word.as_bytes()
}

/// The common object with a path, and the first one where none has it.
#[tactic(auto, unfolding(crate::specs::Items::place_of))]
fn place_of(path: &[u8]) -> u32
    ensures { result ≡ spec.place_of path.now }
{
    let mut place = 0;
    while let Some(known) = common_path(CommonId(place)) {
        if is_word(path, known) {
            return place;
        }
        place += 1;
    }
    0
}

/// The class with a name, and `Object` where none has it.
fn class_of(word: &[u8]) -> Class
    ensures { result ≡ spec.class_of word.now }
{
    if is_word(word, "Array") {
        return Class::Array;
    }
    if is_word(word, "Function") {
        return Class::Function;
    }
    if is_word(word, "Error") {
        return Class::Error;
    }
    if is_word(word, "Map") {
        return Class::Map;
    }
    if is_word(word, "Set") {
        return Class::Set;
    }
    if is_word(word, "WeakMap") {
        return Class::WeakMap;
    }
    if is_word(word, "Compartment") {
        return Class::Compartment;
    }
    if is_word(word, "Global") {
        return Class::Global;
    }
    if is_word(word, "Proxy") {
        return Class::Proxy;
    }
    if is_word(word, "Promise") {
        return Class::Promise;
    }
    if is_word(word, "Module") {
        return Class::Module;
    }
    Class::Object
}

impl<'a> LineReader<'a> {
    /// Reads the marks behind a `/`.
    #[tactic(auto, unfolding(crate::specs::Items::marks_at))]
    fn marks(&mut self) -> Marks
        ensures value { result ≡ (spec.marks_at self.old).0 }
        ensures left { self.new ≡ (spec.marks_at self.old).1 }
    {
        let word = self.word();
        self.skip(word.len());
        let callable = self.mark("+call");
        let constructor = self.mark("+new");
        Marks {
            class: class_of(word),
            callable,
            constructor,
        }
    }

    /// Reads a party and a number.
    #[tactic(auto, unfolding(crate::specs::Items::pair_at))]
    fn pair(&mut self) -> MadeSymbol
        ensures value { result ≡ (spec.pair_at self.old).0 }
        ensures left { self.new ≡ (spec.pair_at self.old).1 }
    {
        let party = self.party();
        self.skip(1);
        let number = self.number();
        MadeSymbol {
            party,
            id: ObjId(narrowed(MAX_ID, number)),
        }
    }

    /// Reads the name of an object.
    #[tactic(auto, unfolding(crate::specs::Items::name_at))]
    fn name(&mut self) -> Ref
        ensures value { result ≡ (spec.name_at self.old).0 }
        ensures left { self.new ≡ (spec.name_at self.old).1 }
    {
        let first = self.byte(0);
        self.skip(1);
        if first == b'%' {
            let path = self.path();
            self.skip(path.len() + 1);
            return Ref::Common(CommonId(place_of(path)));
        }
        let pair = self.pair();
        Ref::Own {
            party: pair.party,
            id: pair.id,
        }
    }

    /// Reads what stands behind the name of an object: its marks, or none.
    #[tactic(auto, unfolding(crate::specs::Items::behind_name))]
    fn behind_name(&mut self, reference: Ref) -> Result<(), OutOfMemory>
        ensures { OnOk result (self.new ≡ spec.behind_name reference self.old) }
    {
        if self.byte(0) == b'/' {
            self.skip(1);
            let marks = self.marks();
            return self.with_marks(reference, marks);
        }
        self.without_marks(reference)
    }

    /// Reads a reference.
    #[tactic(auto, unfolding(crate::specs::Items::object_at))]
    pub(crate) fn object(&mut self) -> Result<Ref, OutOfMemory>
        ensures value { IfOk result (λ r. r ≡ (spec.object_at self.old).0) }
        ensures left { OnOk result (self.new ≡ (spec.object_at self.old).1) }
    {
        let reference = self.name();
        self.behind_name(reference)?;
        Ok(reference)
    }

    /// Reads a reference, or passes over a word of so many letters.
    #[tactic(auto, unfolding(crate::specs::Items::object_or_word_at))]
    pub(crate) fn object_or_word(&mut self, letters: usize) -> Result<Option<Ref>, OutOfMemory>
        ensures value { IfOk result (λ r. r ≡ (spec.object_or_word_at letters self.old).0) }
        ensures left { OnOk result (self.new ≡ (spec.object_or_word_at letters self.old).1) }
    {
        if self.is_at_object() {
            return Ok(Some(self.object()?));
        }
        self.skip(letters);
        Ok(None)
    }

    /// Whether a reference begins here.
    pub(crate) fn is_at_object(&self) -> bool
        ensures { result ≡ (nat_eq (byte_at self.now 0) 35 || nat_eq (byte_at self.now 0) 37) }
    {
        self.byte(0) == b'#' || self.byte(0) == b'%'
    }

    /// Reads a symbol.
    #[tactic(auto, unfolding(crate::specs::Items::symbol_at))]
    pub(crate) fn symbol(&mut self) -> Result<Symbol, OutOfMemory>
        ensures value { IfOk result (λ s. s ≡ (spec.symbol_at self.old).0) }
        ensures left { OnOk result (self.new ≡ (spec.symbol_at self.old).1) }
    {
        let second = self.byte(1);
        if second == b'i' {
            self.skip(9);
            return Ok(Symbol::Iterator);
        }
        if second == b'f' {
            self.skip(4);
            return Ok(Symbol::Registered(self.text()?));
        }
        self.skip(1);
        Ok(Symbol::Made(self.pair()))
    }
}
