// What is left of a source.

ghost use Rattle.std.specs.Prelude.{◌≡◌, ◌↔◌, ℕ, List, ◌++◌, [], length, IsTrue};
ghost use Rattle.std.specs.Str.{encode_utf8_all};
ghost use Rattle.std.specs.Str.{chars};
ghost use Rattle.js_lexer.specs.Characters.{first_of, TakesFirst};

use std::marker::Model;
use std::str::Chars;

/// What is left of a source, which contracts see as the list of its characters.
#[derive(Drop)]
pub struct Cursor<'a> {
    rest: Chars<'a>,
}

impl<'a> Model for Cursor<'a> {
    ghost use Rattle.std.specs.Prelude.{List, ℕ};
    ghost use Rattle.std.specs.Str.{chars};
    ghost use Rattle.std.specs.Str.Iter.{chars_rest};

    ghost Value = { List ℕ };

    ghost view = { λ c. chars (chars_rest c.rest) };
}

impl<'a> Cursor<'a> {
    /// At the start of a text.
    pub fn new(text: &'a str) -> Cursor<'a>
        ensures { result ≡ chars text.now }
    {
        Cursor { rest: text.chars() }
    }

    /// Another cursor at the same place.
    pub fn copy(&self) -> Cursor<'a>
        ensures { result ≡ self.now }
    {
        Cursor {
            rest: self.rest.as_str().chars(),
        }
    }

    /// The next character, which stays there.
    pub fn peek(&self) -> Option<char>
        ensures { result ≡ first_of self.now }
    {
        self.rest.as_str().chars().next()
    }

    /// Takes the next character.
    #[tactic(auto, using(crate::proofs::Texts::next_character, crate::proofs::Texts::no_characters))]
    pub fn bump(&mut self) -> Option<char>
        ensures { TakesFirst self.old result self.new }
    {
        let bytes = self.rest.as_str().as_bytes();
        if bytes.is_empty() {
            return None;
        }
        self.rest.next()
    }

    /// Whether no character is left.
    pub fn is_at_end(&self) -> bool
        ensures { IsTrue result ↔ (self.now ≡ []) }
    {
        self.peek().is_none()
    }

    /// How many bytes are left.
    #[tactic(auto, using(crate::proofs::Texts::bytes_left))]
    pub fn left(&self) -> usize
        ensures { result ≡ length (encode_utf8_all self.now) }
    {
        self.rest.as_str().as_bytes().len()
    }

    /// The bytes that stand between two cursors of one text.
    #[tactic(auto, using(crate::proofs::Texts::bytes_between, crate::proofs::Texts::fits_between))]
    pub fn bytes_to(&self, behind: &Cursor) -> &'a [u8]
        requires { (w : List ℕ) × (self.now ≡ w ++ behind.now) }
        ensures { (w : List ℕ) → self.now ≡ w ++ behind.now → result.now ≡ encode_utf8_all w }
    {
        let bytes = self.rest.as_str().as_bytes();
        &bytes[..bytes.len() - behind.left()]
    }
}
