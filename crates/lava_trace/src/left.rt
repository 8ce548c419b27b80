// What is left of a line.

ghost use Rattle.std.specs.Prelude.{◌≡◌, ◌<◌, ◌^◌, length, take, OnOk};
ghost use Rattle.std.specs.Option.{unwrap_or};
ghost use Rattle.lava_trace.specs.Left as spec;
ghost use Rattle.lava_trace.specs.Items as items;

use lava_base::ids::{PartyId, Ref};
use lava_base::list::List;
use lava_base::marks::{Class, Marks};
use lava_base::memory::OutOfMemory;
use std::alloc::Global;
use std::marker::Model;

/// The greatest number of a party.
pub const MAX_PARTY: u64 = 4095;

/// The greatest number of an object or a made symbol that an id holds.
pub const MAX_ID: u64 = 4_294_967_295;

/// A line that is read from left to right, with the references that were read. Each reading takes what stands there for what it reads: whether it is written just so is looked at afterwards.
#[derive(Drop)]
pub(crate) struct LineReader<'a> {
    pub(crate) alloc: Global,
    left: &'a [u8],
    marks: List<(Ref, Marks)>,
    named: List<(Ref, Marks)>,
}

impl<'a> Model for LineReader<'a> {
    ghost use Rattle.lava_trace.specs.Left.{Left};

    ghost Value = { Left };

    ghost view = { λ r. record { bytes = r.left.now; marks = r.marks; named = r.named } };
}

impl<'a> LineReader<'a> {
    /// At the start of a line. It takes no memory.
    pub(crate) fn new(alloc: Global, line: &'a [u8]) -> LineReader<'a>
        ensures { result ≡ spec.whole line.now }
    {
        LineReader {
            alloc,
            left: line,
            marks: List::new(alloc),
            named: List::new(alloc),
        }
    }

    /// How many bytes are left.
    pub(crate) fn len(&self) -> usize
        ensures { result ≡ length self.now.bytes }
    {
        self.left.len()
    }

    /// Whether no byte is left.
    pub(crate) fn is_at_end(&self) -> bool
        ensures { result ≡ spec.at_end self.now }
    {
        self.left.is_empty()
    }

    /// The byte at a place, counted from 0, and 0 behind the last one.
    pub(crate) fn byte(&self, at: usize) -> u8
        ensures { result ≡ spec.byte_at self.now at }
    {
        if at < self.left.len() {
            self.left[at]
        } else {
            0
        }
    }

    /// Passes over so many bytes, at most over all.
    pub(crate) fn skip(&mut self, count: usize)
        ensures { self.new ≡ spec.skipped count self.old }
    {
        self.left = if count < self.left.len() {
            &self.left[count..]
        } else {
            &[]
        };
    }

    /// Reads a number by its decimal digits.
    #[tactic(auto, using(crate::proofs::Left_laws::digit_more, crate::proofs::Left_laws::digit_end), unfolding(crate::specs::Left::number_at))]
    pub(crate) fn number(&mut self) -> u64
        ensures value { result ≡ (spec.number_at self.old).0 }
        ensures left { self.new ≡ (spec.number_at self.old).1 }
    {
        let mut value: u64 = 0;
        let mut digit = self.byte(0);
        while is_digit(digit) {
            value = value.wrapping_mul(10).wrapping_add((digit - 48) as u64);
            self.skip(1);
            digit = self.byte(0);
        }
        value
    }

    /// Reads a party by its number.
    #[tactic(auto, unfolding(crate::specs::Left::party_at))]
    pub(crate) fn party(&mut self) -> PartyId
        ensures value { result ≡ (spec.party_at self.old).0 }
        ensures left { self.new ≡ (spec.party_at self.old).1 }
    {
        let number = self.number();
        PartyId(narrowed(MAX_PARTY, number))
    }

    /// The letters up to the first byte that is none.
    #[tactic(auto, unfolding(crate::specs::Left::word_at))]
    pub(crate) fn word(&self) -> &'a [u8]
        ensures { result.now ≡ spec.word_at self.now }
    {
        front(self.left, first_other(self.left))
    }

    /// The bytes up to the first `%`.
    #[tactic(auto, unfolding(crate::specs::Left::path_at))]
    pub(crate) fn path(&self) -> &'a [u8]
        ensures { result.now ≡ spec.path_at self.now }
    {
        front(self.left, first_percent(self.left))
    }

    /// Passes over a word, if it stands here, and says whether it does.
    #[tactic(auto, unfolding(crate::specs::Items::mark_at))]
    pub(crate) fn mark(&mut self, word: &str) -> bool
        ensures value { result ≡ (items.mark_at word.now self.old).0 }
        ensures left { self.new ≡ (items.mark_at word.now self.old).1 }
    {
        let stands = self.left.starts_with(word.as_bytes());
        if stands {
            self.skip(word.len());
        }
        stands
    }

    /// Passes over a space, if one stands here.
    #[tactic(auto, unfolding(crate::specs::Items::behind_space))]
    pub(crate) fn space(&mut self)
        ensures { self.new ≡ items.behind_space self.old }
    {
        if self.byte(0) == b' ' {
            self.skip(1);
        }
    }

    /// Keeps a reference behind which its marks stand.
    pub(crate) fn with_marks(&mut self, reference: Ref, marks: Marks) -> Result<(), OutOfMemory>
        ensures { OnOk result (self.new ≡ items.with_marks reference marks self.old) }
    {
        self.marks.push((reference, marks))?;
        self.named.push((reference, marks))
    }

    /// Keeps a reference behind which no marks stand.
    pub(crate) fn without_marks(&mut self, reference: Ref) -> Result<(), OutOfMemory>
        ensures { OnOk result (self.new ≡ items.without_marks reference self.old) }
    {
        let marks = Marks {
            class: Class::Object,
            callable: false,
            constructor: false,
        };
        self.named.push((reference, marks))
    }

    /// The marks that were read, each with its reference, and all references that were read.
    pub(crate) fn into_marks(self) -> (List<(Ref, Marks)>, List<(Ref, Marks)>)
        ensures marks { result.0 ≡ self.entry.marks }
        ensures named { result.1 ≡ self.entry.named }
    {
        (self.marks, self.named)
    }
}

/// The place of the first byte that is no letter.
fn first_other(bytes: &[u8]) -> Option<usize>
    ensures { result ≡ spec.first_other bytes.now }
{
    bytes.iter().position(|byte| !is_letter(*byte))
}

/// The place of the first `%`.
fn first_percent(bytes: &[u8]) -> Option<usize>
    ensures { result ≡ spec.first_percent bytes.now }
{
    bytes.iter().position(|byte| *byte == 37)
}

/// The bytes up to a place, or all.
fn front<'a>(bytes: &'a [u8], end: Option<usize>) -> &'a [u8]
    ensures { result.now ≡ take (unwrap_or end (length bytes.now)) bytes.now }
{
    match end {
        Some(end) if end < bytes.len() => &bytes[..end],
        _ => bytes,
    }
}

/// Whether a byte is a decimal digit.
fn is_digit(byte: u8) -> bool
    ensures { result ≡ spec.is_digit byte }
{
    48 <= byte && byte < 58
}

/// Whether a byte is a letter.
fn is_letter(byte: u8) -> bool
    ensures { result ≡ spec.is_letter byte }
{
    65 <= byte && byte < 91 || 97 <= byte && byte < 123
}

/// A number, or 0 where it is more than it may be.
pub(crate) fn narrowed(most: u64, number: u64) -> u32
    requires { most < 2 ^ 32 }
    ensures { result ≡ spec.narrowed most number }
{
    if number <= most { number as u32 } else { 0 }
}
