// What is left of a literal.

ghost use Rattle.std.specs.Prelude.{◌≡◌, ◌≤◌, ℕ, drop, length};
ghost use Rattle.std.specs.Str.{chars};
ghost use Rattle.js_lexer.specs.Characters.{first_of};

use std::marker::Model;
use std::str::Chars;

/// What is left of a literal, which contracts see as the list of its characters.
#[derive(Drop)]
pub struct Characters<'a> {
    rest: Chars<'a>,
}

impl<'a> Model for Characters<'a> {
    ghost use Rattle.std.specs.Prelude.{List, ℕ};
    ghost use Rattle.std.specs.Str.{chars};
    ghost use Rattle.std.specs.Str.Iter.{chars_rest};

    ghost Value = { List ℕ };

    ghost view = { λ c. chars (chars_rest c.rest) };
}

impl<'a> Characters<'a> {
    /// At the start of a text.
    pub fn new(text: &'a str) -> Characters<'a>
        ensures { result ≡ chars text.now }
    {
        Characters { rest: text.chars() }
    }

    /// The next character, which stays there.
    pub fn peek(&self) -> Option<char>
        ensures { result ≡ first_of self.now }
    {
        self.rest.as_str().chars().next()
    }

    /// The character behind the next one.
    pub fn second(&self) -> Option<char>
        ensures { result ≡ first_of (drop 1 self.now) }
    {
        let mut ahead = self.copy();
        ahead.bump();
        ahead.peek()
    }

    /// The same once more.
    pub fn copy(&self) -> Characters<'a>
        ensures { result ≡ self.now }
    {
        Characters {
            rest: self.rest.as_str().chars(),
        }
    }

    /// Takes the next character.
    #[tactic(auto, using(crate::proofs::Characters_laws::next_character, crate::proofs::Characters_laws::no_characters, crate::proofs::Characters_laws::no_rest))]
    pub fn bump(&mut self) -> Option<char>
        ensures first { result ≡ first_of self.old }
        ensures rest { self.new ≡ drop 1 self.old }
    {
        let bytes = self.rest.as_str().as_bytes();
        if bytes.is_empty() {
            return None;
        }
        self.rest.next()
    }

    /// No fewer than the characters that are left.
    #[tactic(auto, using(crate::proofs::Characters_laws::at_most_bytes))]
    pub fn most(&self) -> usize
        ensures { length self.now ≤ result }
    {
        self.rest.as_str().as_bytes().len()
    }
}
