// Which braces and substitutions are open.

ghost use Rattle.std.specs.Prelude.{◌≡◌, [], OnOk};
ghost use Rattle.js_lexer.specs.Nestings.{inside, nested, closed};

use crate::element::Element;
use crate::punctuators::Punctuator;
use crate::token::TemplatePart;
use lava_base::memory::OutOfMemory;
use std::alloc::Global;
use std::marker::Model;

/// What a `}` closes.
#[derive(Clone, Copy, Debug, PartialEq, Eq)]
pub enum Open {
    /// A `{`.
    Brace,
    /// The `${` of a template.
    Substitution,
}

/// What is open, which contracts see as a list with the innermost first.
#[derive(Drop)]
pub struct Nesting {
    open: Vec<Open>,
}

impl Model for Nesting {
    ghost use Rattle.std.specs.Prelude.{List, reverse};
    ghost use Rattle.js_lexer.specs.declared.nesting.Open.{Open};

    ghost Value = { List Open };

    ghost view = { λ n. reverse n.open.items };
}

impl Nesting {
    /// Nothing is open.
    pub fn new(alloc: Global) -> Nesting
        ensures { result ≡ [] }
    {
        Nesting {
            open: Vec::new(alloc),
        }
    }

    /// Whether a `}` closes a substitution.
    pub fn is_inside(&self) -> bool
        ensures { result ≡ inside self.now }
    {
        match self.open.last() {
            Some(Open::Substitution) => true,
            Some(Open::Brace) => false,
            None => false,
        }
    }

    /// What is open behind a token.
    pub fn pass(&mut self, element: Element) -> Result<(), OutOfMemory>
        ensures { OnOk result (self.new ≡ nested element self.old) }
    {
        match element {
            Element::Punctuator(Punctuator::LeftBrace) => self.open.push(Open::Brace)?,
            Element::Template(TemplatePart::Head) => self.open.push(Open::Substitution)?,
            Element::Punctuator(Punctuator::RightBrace) => self.close(),
            Element::Template(TemplatePart::Tail) => self.close(),
            _ => {}
        }
        Ok(())
    }

    fn close(&mut self)
        ensures { self.new ≡ closed self.old }
    {
        self.open.pop();
    }
}
