// What pieces are written on.

ghost use Rattle.std.specs.Prelude.{◌≡◌, ◌∷◌, [], decimal, OnOk};
ghost use Rattle.std.specs.Fmt.{signed_decimal};
ghost use Rattle.lava_base.specs.declared.ids.MadeSymbol.{MadeSymbol as Made};
ghost use Rattle.lava_base.specs.declared.ids.Ref.{Ref as Reference};
ghost use Rattle.lava_journal.specs.Bodies.{plain};
ghost use Rattle.lava_journal.specs.Pages.{with_each};
ghost use Rattle.lava_journal.specs.Quotes as quote;
ghost use Rattle.lava_journal.specs.Sheets.{An_object, A_symbol, Piece};

use itoa::Buffer;
use js_text::text::Text;
use lava_base::ids::{MadeSymbol, Ref};
use lava_base::memory::OutOfMemory;

/// What the pieces of a body are written on, from left to right. Each page has its own way to name objects and made symbols.
pub trait Page {
    /// A page with one piece more.
    ghost with_piece: { Self → Piece Reference Made → Self };

    /// Writes bytes as they stand.
    fn bytes(&mut self, bytes: &[u8]) -> Result<(), OutOfMemory>
        ensures { OnOk result (self.new ≡ with_each with_piece self.old (plain bytes.now)) };

    /// Writes a quoted text.
    fn quoted(&mut self, text: &Text) -> Result<(), OutOfMemory>
        ensures { OnOk result (self.new ≡ with_each with_piece self.old
            (plain (quote.quoted text.now))) };

    /// Writes the digits of a number between two `"`.
    fn quoted_number(&mut self, number: u32) -> Result<(), OutOfMemory>
        ensures { OnOk result (self.new ≡ with_each with_piece self.old
            (plain (quote.quoted_number number))) };

    /// Writes a reference.
    fn object(&mut self, reference: Ref) -> Result<(), OutOfMemory>
        ensures { OnOk result (self.new ≡ with_each with_piece self.old
            (An_object reference ∷ [])) };

    /// Writes a made symbol.
    fn symbol(&mut self, symbol: MadeSymbol) -> Result<(), OutOfMemory>
        ensures { OnOk result (self.new ≡ with_each with_piece self.old
            (A_symbol symbol ∷ [])) };
}

/// Writes a word.
pub(crate) fn write_word<P: Page>(page: &mut P, word: &str) -> Result<(), OutOfMemory>
    ensures { OnOk result (page.new ≡ with_each P.with_piece page.old (plain word.now)) }
{
    page.bytes(word.as_bytes())
}

/// Writes a number in decimal.
pub(crate) fn write_number<P: Page>(page: &mut P, number: u64) -> Result<(), OutOfMemory>
    ensures { OnOk result (page.new ≡ with_each P.with_piece page.old (plain (decimal number))) }
{
    let mut buffer = Buffer::new();
    write_word(page, buffer.format(number))
}

/// Writes an integer in decimal.
pub(crate) fn write_integer<P: Page>(page: &mut P, integer: i64) -> Result<(), OutOfMemory>
    ensures { OnOk result (page.new ≡ with_each P.with_piece page.old
        (plain (signed_decimal integer))) }
{
    let mut buffer = Buffer::new();
    write_word(page, buffer.format(integer))
}
