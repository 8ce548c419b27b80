// How far a source is read, as lines, units and bytes.

ghost use Rattle.std.specs.Prelude.{◌≡◌, ◌+◌, ◌≤◌, length};
ghost use Rattle.std.specs.Char.{encode_utf8};
ghost use Rattle.js_lexer.specs.Spots.{over, place_over, IsSound};

use crate::characters::is_line_terminator;
use lava_base::place::Place;

/// How many bytes a source has at most: with more, places and offsets might not fit in 32 bits.
pub const MAX_SOURCE: u32 = 4_294_967_280;

/// How far a source is read.
#[derive(Clone, Copy, Debug, PartialEq, Eq)]
pub struct Spot {
    /// The place of the next character.
    pub place: Place,
    /// How many bytes stand before it.
    pub offset: u32,
    /// Whether the character before it is a CR, to which an LF belongs.
    pub after_return: bool,
    /// Whether a line terminator stands behind the last token.
    pub after_line: bool,
}

impl Spot {
    /// The spot behind a character.
    pub fn over(self, c: char) -> Spot
        requires sound { IsSound self }
        requires room { self.offset + length (encode_utf8 c) ≤ MAX_SOURCE }
        ensures over { result ≡ over self c }
        ensures sound { IsSound result }
    {
        Spot {
            place: self.place_over(c),
            offset: self.offset + c.len_utf8() as u32,
            after_return: c == '\r',
            after_line: self.after_line || is_line_terminator(c),
        }
    }

    /// The place behind a character. A line ends with a line terminator, and LF behind CR belongs to it.
    fn place_over(self, c: char) -> Place
        requires sound { IsSound self }
        requires room { self.offset + length (encode_utf8 c) ≤ MAX_SOURCE }
        ensures { result ≡ place_over self c }
    {
        let Place { line, unit } = self.place;
        if c == '\n' && self.after_return {
            Place { line, unit }
        } else if is_line_terminator(c) {
            Place {
                line: line + 1,
                unit: 1,
            }
        } else {
            Place {
                line,
                unit: unit + c.len_utf16() as u32,
            }
        }
    }
}
