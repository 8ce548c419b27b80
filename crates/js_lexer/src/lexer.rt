// The tokens of a source.

ghost use Rattle.std.specs.Prelude.{◌≡◌, ◌+◌, ◌≤◌, ℕ, ◌++◌, [], length, List as Listed, All, IfOk, IfErr, OnOk, OnErr};
ghost use Rattle.std.specs.Str.{IsUtf8, IsValidUpTo, chars, encode_utf8_all};
ghost use Rattle.lava_base.specs.declared.place.Place.{Place};
ghost use Rattle.js_fault.specs.declared.fault.SyntaxFault.TheVariants as faults;
ghost use Rattle.js_fault.specs.declared.fault.SyntaxWhat.{SyntaxWhat};
ghost use Rattle.js_fault.specs.declared.fault.SyntaxWhat.TheVariants as what;
ghost use Rattle.js_lexer.specs.Answers.{HasCause, GivesTokens, Refuses, IsFault, StandInOrder};
ghost use Rattle.js_lexer.specs.Lexing.{AfterTake, AfterRun, IsFaultOf, IsBrokenFault};
ghost use Rattle.js_lexer.specs.Sources.{State, IsKind, IsTokens, end_place, pushed, opening, behind_mark, begins_hashbang, behind_hashbang};
ghost use Rattle.js_lexer.specs.Spelled.{IsTextOf};
ghost use Rattle.js_lexer.specs.Spots.{IsSound, over_all, size_of};
ghost use Rattle.js_lexer.specs.declared.element.Element.{Element};
ghost use Rattle.js_lexer.specs.declared.element.Element.TheVariants as elements;
ghost use Rattle.js_lexer.specs.declared.lexer.Refusal.TheVariants as refusals;
ghost use Rattle.js_lexer.specs.declared.token.Token.{Token};

use crate::comments::skip_line;
use crate::cursor::Cursor;
use crate::element::{Element, NoElement, take_element};
use crate::keywords::keyword_of;
use crate::machine::Stop;
use crate::nesting::Nesting;
use crate::passing::passed;
use crate::spot::{MAX_SOURCE, Spot};
use crate::token::{Token, TokenKind};
use js_fault::fault::{SyntaxFault, SyntaxWhat};
use lava_base::list::List;
use lava_base::memory::OutOfMemory;
use lava_base::name::Name;
use lava_base::place::Place;
use std::alloc::Global;
use std::marker::Model;

/// How far a source is read.
#[derive(Drop)]
pub struct Lexer<'a> {
    rest: Cursor<'a>,
    spot: Spot,
    nesting: Nesting,
    tokens: List<Token>,
}

impl<'a> Model for Lexer<'a> {
    ghost use Rattle.std.specs.Prelude.{◌≤◌};
    ghost use Rattle.js_lexer.specs.Sources.{State};
    ghost use Rattle.js_lexer.specs.Spots.{IsSound, size_of};
    ghost use Rattle.js_lexer.specs.declared.spot.TheConstants.{MAX_SOURCE};

    ghost Value = { State };

    ghost view = { λ l. record { rest = l.rest; spot = l.spot; opens = l.nesting; tokens = l.tokens } };

    ghost invariant = { λ l. IsSound l.spot × (size_of l.spot l.rest ≤ MAX_SOURCE) };
}

/// Why no more elements are taken.
#[derive(Drop)]
pub enum Refusal {
    /// None could be.
    NoElement(NoElement),
    /// There is no memory left.
    OutOfMemory,
}

impl From<OutOfMemory> for Refusal {
    ghost from_gives = { λ _ e. e ≡ refusals.OutOfMemory };

    fn from(_: OutOfMemory) -> Refusal {
        Refusal::OutOfMemory
    }
}

impl<'a> Lexer<'a> {
    /// At the start of a text, behind a byte order mark and a `#!` line.
    pub fn new(alloc: Global, text: &'a str) -> Lexer<'a>
        requires { length text.now ≤ MAX_SOURCE }
        ensures { result ≡ opening (chars text.now) }
    {
        let mut lexer = Lexer::at_start(alloc, text);
        lexer.pass_hashbang();
        lexer
    }

    /// At the start of a text, behind a byte order mark.
    #[tactic(auto, using(crate::proofs::Lexer_laws::room_behind_mark, crate::proofs::Lexer_laws::room_at_start))]
    fn at_start(alloc: Global, text: &'a str) -> Lexer<'a>
        requires { length text.now ≤ MAX_SOURCE }
        ensures { result ≡ behind_mark (chars text.now) }
    {
        let mut rest = Cursor::new(text);
        let mut offset = 0;
        if rest.peek() == Some('\u{feff}') {
            rest.bump();
            offset = 3;
        }
        let place = Place { line: 1, unit: 1 };
        let spot = Spot {
            place,
            offset,
            after_return: false,
            after_line: false,
        };
        Lexer {
            rest,
            spot,
            nesting: Nesting::new(alloc),
            tokens: List::new(alloc),
        }
    }

    /// Passes a `#!` line, but not its end.
    #[tactic(auto, using(crate::proofs::Lexer_laws::keep_skip))]
    fn pass_hashbang(&mut self)
        ensures { self.new ≡ behind_hashbang self.old }
    {
        if !self.is_at_hashbang() {
            return;
        }
        let mut rest = self.rest.copy();
        skip_line(&mut rest);
        self.spot = passed(self.spot, &self.rest, &rest);
        self.rest = rest;
    }

    fn is_at_hashbang(&self) -> bool
        ensures { result ≡ begins_hashbang self.now.rest }
    {
        let mut ahead = self.rest.copy();
        ahead.bump() == Some('#') && ahead.bump() == Some('!')
    }

    /// The place of what is left.
    fn place(&self) -> Place
        ensures { result ≡ self.now.spot.place }
    {
        self.spot.place
    }

    /// The place behind all that is left.
    fn end(&self) -> Place
        ensures { result ≡ (over_all self.now.spot self.now.rest).place }
    {
        let end = Cursor::new("");
        passed(self.spot, &self.rest, &end).place
    }

    /// Takes all elements.
    #[tactic(auto, using(crate::proofs::Lexer_laws::takes_shorter))]
    fn run(&mut self) -> Result<(), Refusal>
        ensures { AfterRun self.old result self.new }
    {
        while !self.rest.is_at_end() {
            self.take()?;
        }
        Ok(())
    }

    /// Takes the next element.
    fn take(&mut self) -> Result<(), Refusal>
        ensures { AfterTake self.old result self.new }
    {
        let mut rest = self.rest.copy();
        let element = match take_element(&mut rest, self.nesting.is_inside()) {
            Ok(element) => element,
            Err(none) => return Err(Refusal::NoElement(none)),
        };
        let spot = passed(self.spot, &self.rest, &rest);
        if let Element::Gap = element {
            self.spot = spot;
            self.rest = rest;
            return Ok(());
        }
        let kind = kind_of(element, self.rest.bytes_to(&rest));
        self.push(element, kind, rest, spot)?;
        Ok(())
    }

    /// Passes an element that is a token.
    fn push(
        &mut self,
        element: Element,
        kind: TokenKind,
        rest: Cursor<'a>,
        spot: Spot,
    ) -> Result<(), OutOfMemory>
        requires sound { IsSound spot }
        requires room { size_of spot rest ≤ MAX_SOURCE }
        ensures { OnOk result (self.new ≡ pushed self.old element kind rest.entry spot) }
    {
        self.nesting.pass(element)?;
        self.tokens.push(Token {
            start: self.spot.place,
            from: self.spot.offset,
            to: spot.offset,
            kind,
            after_line: self.spot.after_line,
        })?;
        self.rest = rest;
        self.spot = Spot {
            after_line: false,
            ..spot
        };
        Ok(())
    }
}

/// The kind of the token that an element with these bytes is.
fn kind_of(element: Element, bytes: &[u8]) -> TokenKind
    requires { ¬ (element ≡ elements.Gap) }
    ensures { (w : Listed ℕ) → bytes.now ≡ encode_utf8_all w → IsKind element w result }
{
    match element {
        Element::Word => match keyword_of(bytes) {
            Some(keyword) => TokenKind::Keyword(keyword),
            None => TokenKind::Name,
        },
        Element::Number => TokenKind::Number,
        Element::String => TokenKind::String,
        Element::Template(part) => TokenKind::Template(part),
        Element::Punctuator(mark) => TokenKind::Punctuator(mark),
        Element::Gap => unreachable!(),
    }
}

/// The tokens of a source, by ECMA-262's lexical grammar in the profile of the language.
///
/// It answers `NotUtf8`, `BadToken` or `Unsupported` (`bigint`, `separator`, `escape`, `private`, `decorator`)
/// at the first byte or token that is so, and `OutOfMemory` also for a source of more than `MAX_SOURCE` bytes.
#[tactic(auto, using(crate::proofs::Answers_laws::only_tokens, crate::proofs::Answers_laws::only_fault, crate::proofs::Slices::in_order, crate::proofs::Slices::texts_are_slices))]
pub fn tokens(alloc: Global, source: &[u8]) -> Result<List<Token>, SyntaxFault>
    ensures tokens { IfOk result (λ tokens. IsTokens source.now tokens) }
    ensures only { (list : Listed Token) → IsTokens source.now list → GivesTokens result list }
    ensures cause { IfErr result (HasCause source.now) }
    ensures refused { (p : Place) (w : SyntaxWhat) → IsFault source.now p w → Refuses result p w }
    ensures in_order { IfOk result (λ tokens. StandInOrder 0 tokens (length source.now)) }
    ensures texts_are_slices { IfOk result (λ tokens. All (IsTextOf source.now) tokens) }
{
    if source.len() > MAX_SOURCE as usize {
        return Err(SyntaxFault::OutOfMemory);
    }
    match str::from_utf8(source) {
        Ok(text) => whole_tokens(alloc, text),
        Err(error) => Err(broken_fault(alloc, source, error.valid_up_to())),
    }
}

/// The place behind the last character of a source that is UTF-8.
pub fn end_of(alloc: Global, source: &[u8]) -> Place
    requires { length source.now ≤ MAX_SOURCE }
    ensures { IsUtf8 source.now → result ≡ end_place source.now }
{
    match str::from_utf8(source) {
        Ok(text) => Lexer::new(alloc, text).end(),
        Err(_) => Place { line: 1, unit: 1 },
    }
}

/// The tokens of a source that is UTF-8.
#[tactic(auto, using(crate::proofs::Answers_laws::whole_cause_at))]
fn whole_tokens(alloc: Global, text: &str) -> Result<List<Token>, SyntaxFault>
    requires { length text.now ≤ MAX_SOURCE }
    ensures tokens { IfOk result (λ tokens. IsTokens text.now tokens) }
    ensures cause { IfErr result (HasCause text.now) }
{
    let mut lexer = Lexer::new(alloc, text);
    match lexer.run() {
        Ok(()) => Ok(lexer.tokens),
        Err(Refusal::NoElement(none)) => Err(fault_of(alloc, none, lexer.place())),
        Err(Refusal::OutOfMemory) => Err(SyntaxFault::OutOfMemory),
    }
}

#[tactic(auto, using(crate::proofs::Answers_laws::broken_cause_at, crate::proofs::Answers_laws::end_cause_at))]
/// What is wrong with a source that is not UTF-8, of which the first `valid` bytes are the longest front that is.
fn broken_fault(alloc: Global, source: &[u8], valid: usize) -> SyntaxFault
    requires front { IsValidUpTo source.now valid }
    requires short { length source.now ≤ MAX_SOURCE }
    requires broken { ¬ (IsUtf8 source.now) }
    ensures { HasCause source.now result }
{
    let Ok(text) = str::from_utf8(&source[..valid]) else {
        unreachable!();
    };
    let mut lexer = Lexer::new(alloc, text);
    match lexer.run() {
        Ok(()) => not_utf8(lexer.place()),
        Err(Refusal::NoElement(none)) => broken_fault_of(alloc, none, &lexer),
        Err(Refusal::OutOfMemory) => SyntaxFault::OutOfMemory,
    }
}

/// The fault that it is that no element is taken, where the source is no longer UTF-8 behind the text: an element that runs into that is no bad token.
fn broken_fault_of(alloc: Global, none: NoElement, lexer: &Lexer) -> SyntaxFault
    ensures { IsBrokenFault lexer.now none result }
{
    match none {
        NoElement::Stopped(Stop::Cut) => not_utf8(lexer.end()),
        NoElement::Stopped(Stop::Bad) => fault_of(alloc, none, lexer.place()),
        NoElement::LeftOut(_) => fault_of(alloc, none, lexer.place()),
    }
}

fn not_utf8(place: Place) -> SyntaxFault
    ensures { result ≡ faults.At place what.NotUtf8 }
{
    SyntaxFault::At {
        place,
        what: SyntaxWhat::NotUtf8,
    }
}

/// The fault that it is at a place that no element is taken.
fn fault_of(alloc: Global, none: NoElement, place: Place) -> SyntaxFault
    ensures { IsFaultOf none place result }
{
    let what = match none {
        NoElement::Stopped(_) => SyntaxWhat::BadToken,
        NoElement::LeftOut(form) => match Name::of(alloc, form.name()) {
            Ok(name) => SyntaxWhat::Unsupported(name),
            Err(OutOfMemory) => return SyntaxFault::OutOfMemory,
        },
    };
    SyntaxFault::At { place, what }
}
