// A stack of terms.

ghost use Rattle.std.specs.Prelude.{◌≡◌, [], ◌∷◌, IfOk, OnOk, MatchOption};
ghost use Rattle.js_term_stack.specs.Stacks as spec;
ghost use Rattle.js_term_stack.specs.declared.piece.Piece.TheVariants as piece;

use crate::pending::Pending;
use crate::piece::Piece;
use js_term::term::{Arguments, Part, Template, Term};
use lava_base::memory::OutOfMemory;
use sqlite_items::{Boxed, Items};
use std::alloc::Global;
use std::marker::Model;

/// The terms that are being made, the last one first.
#[derive(Drop)]
pub struct Stack {
    pieces: Vec<Piece>,
    alloc: Global,
}

impl Model for Stack {
    ghost use Rattle.std.specs.Prelude.{List, reverse};
    ghost use Rattle.js_term_stack.specs.declared.piece.Piece.{Piece};
    ghost use Rattle.std.specs.Coded.{codes};
    ghost use Rattle.js_term.specs.contracts.term.Term as one;
    ghost use Rattle.js_term.specs.contracts.term.Part as parts;
    ghost use Rattle.js_term.specs.contracts.term.Template as templates;
    ghost use Rattle.js_term.specs.contracts.term.Arguments as arguments;

    ghost Value = { List Piece };

    ghost coded = { Prim.hlevel (codes, one.the_row.coded, parts.the_row.coded, templates.the_row.coded, arguments.the_row.coded) };

    ghost view = { λ s. reverse s.pieces.items };
}

impl Stack {
    /// Nothing. It takes no memory.
    pub fn new(alloc: Global) -> Stack
        ensures { result ≡ [] }
    {
        Stack {
            pieces: Vec::new(alloc),
            alloc,
        }
    }

    /// What memory is taken from.
    pub fn alloc(&self) -> Global {
        self.alloc
    }

    #[tactic(auto, using(crate::proofs::Reversed::reverse_push))]
    pub fn push(&mut self, piece: Piece) -> Result<(), OutOfMemory>
        ensures { OnOk result (self.new ≡ piece ∷ self.old) }
    {
        self.pieces.push(piece)?;
        Ok(())
    }

    #[tactic(auto, using(crate::proofs::Reversed::reverse_push))]
    pub fn pop(&mut self) -> Option<Piece>
        ensures { MatchOption result (self.old ≡ []) (λ top. self.old ≡ top ∷ self.new) }
    {
        self.pieces.pop()
    }

    /// Puts a term on the stack.
    pub fn add(&mut self, term: Term) -> Result<(), OutOfMemory>
        ensures { OnOk result (self.new ≡ piece.OneTerm term ∷ self.old) }
    {
        let made = Boxed::new(self.alloc, term)?;
        self.push(Piece::OneTerm(made))
    }

    /// Takes the term that stands last.
    pub fn take_term(&mut self) -> Result<Boxed<Term>, OutOfMemory>
        ensures { IfOk result (λ made. self.old ≡ piece.OneTerm made ∷ self.new) }
    {
        match self.pop() {
            Some(Piece::OneTerm(made)) => Ok(made),
            _ => Err(OutOfMemory),
        }
    }

    pub fn take_maybe(&mut self) -> Result<Option<Boxed<Term>>, OutOfMemory>
        ensures { IfOk result (λ made. self.old ≡ piece.MaybeTerm made ∷ self.new) }
    {
        match self.pop() {
            Some(Piece::MaybeTerm(made)) => Ok(made),
            _ => Err(OutOfMemory),
        }
    }

    pub fn take_list(&mut self) -> Result<Items<Boxed<Term>>, OutOfMemory>
        ensures { IfOk result (λ made. self.old ≡ piece.TermList made ∷ self.new) }
    {
        match self.pop() {
            Some(Piece::TermList(made)) => Ok(made),
            _ => Err(OutOfMemory),
        }
    }

    pub fn take_parts(&mut self) -> Result<Items<Part>, OutOfMemory>
        ensures { IfOk result (λ made. self.old ≡ piece.PartList made ∷ self.new) }
    {
        match self.pop() {
            Some(Piece::PartList(made)) => Ok(made),
            _ => Err(OutOfMemory),
        }
    }

    pub fn take_arguments(&mut self) -> Result<Arguments, OutOfMemory>
        ensures { IfOk result (λ made. self.old ≡ piece.ArgumentList made ∷ self.new) }
    {
        match self.pop() {
            Some(Piece::ArgumentList(made)) => Ok(made),
            _ => Err(OutOfMemory),
        }
    }

    pub fn take_template(&mut self) -> Result<Boxed<Template>, OutOfMemory>
        ensures { IfOk result (λ made. self.old ≡ piece.OneTemplate made ∷ self.new) }
    {
        match self.pop() {
            Some(Piece::OneTemplate(made)) => Ok(made),
            _ => Err(OutOfMemory),
        }
    }

    pub fn take_maybe_template(&mut self) -> Result<Option<Boxed<Template>>, OutOfMemory>
        ensures { IfOk result (λ made. self.old ≡ piece.MaybeTemplate made ∷ self.new) }
    {
        match self.pop() {
            Some(Piece::MaybeTemplate(made)) => Ok(made),
            _ => Err(OutOfMemory),
        }
    }

    pub fn take_pending(&mut self) -> Result<Pending, OutOfMemory>
        ensures { IfOk result (λ made. self.old ≡ piece.OnePending made ∷ self.new) }
    {
        match self.pop() {
            Some(Piece::OnePending(made)) => Ok(made),
            _ => Err(OutOfMemory),
        }
    }
}
