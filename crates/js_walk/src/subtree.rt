// The parts of a tree that are looked at one by one.

ghost use Rattle.std.specs.Prelude.{◌≡◌, [], ◌∷◌, ◌++◌, OnOk};
ghost use Rattle.js_walk.specs.Parts.{Adds, part_of};

use js_tree::tree::{Catch, Class, Clause, DeclarationKind, Expr, Function, Module, Pattern, Stmt};
use lava_base::memory::OutOfMemory;
use lava_base::place::Place;
use sqlite_items::{Boxed, Items};

/// A part of a tree that rules look at by itself.
#[derive(Clone, Copy)]
pub enum Subtree<'a> {
    /// A whole source.
    Module(&'a Module),
    /// An expression that is evaluated.
    Expression(&'a Expr),
    /// What `++`, `--` or an assignment with an operator changes, and the place of that form.
    Update(Place, &'a Expr),
    /// What an assignment or a declaration gives values to; true for an assignment.
    Pattern(bool, &'a Pattern),
    /// The parameters and the body of a function; true where it is the constructor of a class with heritage.
    Function(bool, &'a Function),
    /// Heritage and members of a class.
    Class(&'a Class),
    Statement(&'a Stmt),
    /// The body of a loop.
    Loop(&'a Stmt),
    /// Statements between braces.
    Block(&'a Items<Boxed<Stmt>>),
    /// The clauses of a `switch`.
    Cases(&'a Items<Clause>),
    Catch(&'a Catch),
    /// What a for-in or for-of statement declares, before the word `in` or `of`.
    Head(DeclarationKind, &'a Pattern),
    /// Its body, in the scope of what it declares.
    Each(DeclarationKind, &'a Pattern, &'a Stmt),
}

/// Appends a part.
#[tactic(auto, using(crate::proofs::Parts_laws::parts_push))]
pub fn add<'a>(part: Subtree<'a>, out: &mut Items<Subtree<'a>>) -> Result<(), OutOfMemory>
    ensures { OnOk result (Adds out.old out.new (part_of part.entry ∷ [])) }
{
    out.push(part)?;
    Ok(())
}
