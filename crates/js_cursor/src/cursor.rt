// The tokens of a source that are left.
ghost use Rattle.std.specs.Prelude.{◌≡◌, ◌≤◌, length};
ghost use Rattle.js_cursor.specs.Cursors.{standing_at, passed, stopped};
ghost use Rattle.js_lexer.specs.declared.spot.TheConstants.{MAX_SOURCE};
ghost use Rattle.js_lexer.specs.Sources.{IsTokens};

use js_lexer::lexer::end_of;
use js_lexer::token::Token;
use js_reader::halt::Halt;
use lava_base::place::Place;
use std::alloc::Global;
use std::marker::Model;

/// The tokens of a source that are left, and the refusal that is repeated, if there was one.
#[derive(Drop)]
pub struct Cursor<'a> {
    source: &'a [u8],
    left: &'a [Token],
    end: Place,
    refusal: Option<Halt>,
}

impl<'a> Model for Cursor<'a> {
    ghost use Rattle.js_cursor.specs.Cursors.{Standing, standing};

    ghost Value = { Standing };

    ghost view = { λ c. standing c.source.now c.left.now c.end c.refusal };
}

impl<'a> Cursor<'a> {
    /// At the first of the tokens of a source, as js_lexer's `tokens` gives them.
    pub fn new(alloc: Global, tokens: &'a [Token], source: &'a [u8]) -> Cursor<'a>
        requires size { length source.now ≤ MAX_SOURCE }
        requires tokens { IsTokens source.now tokens.now }
        ensures { result ≡ standing_at source.now tokens.now }
    {
        Cursor {
            source,
            left: tokens,
            end: end_of(alloc, source),
            refusal: None,
        }
    }

    /// The source.
    pub fn source(&self) -> &'a [u8]
        ensures { result.now ≡ self.now.source }
    {
        self.source
    }

    /// The tokens that are left.
    pub fn left(&self) -> &'a [Token]
        ensures { result.now ≡ self.now.left }
    {
        self.left
    }

    /// The place at which the source ends.
    pub fn end(&self) -> Place
        ensures { result ≡ self.now.end }
    {
        self.end
    }

    /// Why and where an earlier reading stopped.
    pub fn refusal(&self) -> Option<Halt>
        ensures { result ≡ self.now.refusal }
    {
        self.refusal
    }

    /// Goes on behind so many tokens.
    pub(crate) fn pass_tokens(&mut self, count: u32)
        requires { count ≤ length self.old.left }
        ensures { self.new ≡ passed self.old count }
    {
        self.left = &self.left[count as usize..];
    }

    /// Keeps a refusal.
    pub(crate) fn keep_refusal(&mut self, halt: Halt)
        ensures { self.new ≡ stopped self.old halt }
    {
        self.refusal = Some(halt);
    }
}
