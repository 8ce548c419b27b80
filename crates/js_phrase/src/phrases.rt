// What a form takes of its parts, one after the other.

ghost use Rattle.std.specs.Prelude.{◌≡◌, IfOk};
ghost use Rattle.js_phrase.specs.Phrases as spec;
ghost use Rattle.js_phrase.specs.Queues.{rest_of};

use crate::phrase::{Cover, ForHead, Operands, Parameters, Phrase, TryTail};
use crate::places::{NO_PLACE, NO_TOKEN, place_of};
use crate::queue::Queue;
use js_lexer::token::Token;
use js_text::text::from_units;
use js_tree::tree::{
    ArrayElement, Body, Declaration, DeclarationKind, Expr, ForInit, Function, FunctionKind,
    Identifier, LinkStep, Pattern, PatternElement, PropertyKey, Stmt,
};
use lava_base::memory::OutOfMemory;
use sqlite_items::{Boxed, Items};
use std::alloc::Global;

impl Queue<Phrase> {
    /// Takes the first phrase; an absent one where there is none.
    pub fn next(&mut self) -> Phrase
        ensures first { result ≡ spec.next_of self.old }
        ensures rest { self.new ≡ rest_of self.old }
    {
        match self.pop() {
            Some(phrase) => phrase,
            None => Phrase::Absent,
        }
    }

    /// Passes the first phrase over.
    pub fn skip(&mut self)
        ensures { self.new ≡ rest_of self.old }
    {
        self.next().discard();
    }

    /// Takes a token; the first one of no source where there is none.
    pub fn token(&mut self) -> Token
        ensures first { result ≡ spec.token_of (spec.next_of self.old) }
        ensures rest { self.new ≡ rest_of self.old }
    {
        match self.next() {
            Phrase::Token(token) => token,
            other => {
                other.discard();
                NO_TOKEN
            }
        }
    }

    /// Takes an expression.
    pub fn expression(&mut self, alloc: Global) -> Result<Boxed<Expr>, OutOfMemory>
        ensures first { IfOk result (λ e. e ≡ spec.expression_of (spec.next_of self.old)) }
        ensures rest { self.new ≡ rest_of self.old }
    {
        expression_of(alloc, self.next())
    }

    /// Takes an expression that may be left out.
    pub fn optional_expression(&mut self, alloc: Global) -> Result<Option<Boxed<Expr>>, OutOfMemory>
        ensures first { IfOk result (λ e. e ≡ spec.optional_expression_of (spec.next_of self.old)) }
        ensures rest { self.new ≡ rest_of self.old }
    {
        match self.next() {
            Phrase::Expression(expression) => Ok(Some(expression)),
            Phrase::Covered(cover) => Ok(Some(parenthesized(alloc, cover)?)),
            other => {
                other.discard();
                Ok(None)
            }
        }
    }

    /// Takes the value of an initializer, if one stands.
    pub fn default(&mut self) -> Option<Boxed<Expr>>
        ensures first { result ≡ spec.default_of (spec.next_of self.old) }
        ensures rest { self.new ≡ rest_of self.old }
    {
        match self.next() {
            Phrase::Initializer(value) => Some(value),
            other => {
                other.discard();
                None
            }
        }
    }

    /// Takes a name.
    pub fn name(&mut self, alloc: Global) -> Result<Identifier, OutOfMemory>
        ensures first { IfOk result (λ n. n ≡ spec.name_of (spec.next_of self.old)) }
        ensures rest { self.new ≡ rest_of self.old }
    {
        match self.next() {
            Phrase::Name(name) => Ok(name),
            other => {
                other.discard();
                Ok(no_name(alloc)?)
            }
        }
    }

    /// Takes a name that may be left out.
    pub fn optional_name(&mut self) -> Option<Identifier>
        ensures first { result ≡ spec.optional_name_of (spec.next_of self.old) }
        ensures rest { self.new ≡ rest_of self.old }
    {
        match self.next() {
            Phrase::Name(name) => Some(name),
            other => {
                other.discard();
                None
            }
        }
    }

    /// Takes a name or pattern that is bound.
    pub fn pattern(&mut self, alloc: Global) -> Result<Boxed<Pattern>, OutOfMemory>
        ensures first { IfOk result (λ p. p ≡ spec.pattern_of (spec.next_of self.old)) }
        ensures rest { self.new ≡ rest_of self.old }
    {
        match self.next() {
            Phrase::Name(name) => Ok(Boxed::new(alloc, Pattern::Bound(name))?),
            Phrase::Pattern(pattern) => Ok(pattern),
            other => {
                other.discard();
                Ok(no_pattern(alloc)?)
            }
        }
    }

    /// Takes a name or pattern that is bound, and that may be left out.
    pub fn optional_pattern(&mut self, alloc: Global) -> Result<Option<Boxed<Pattern>>, OutOfMemory>
        ensures first { IfOk result (λ p. p ≡ spec.optional_pattern_of (spec.next_of self.old)) }
        ensures rest { self.new ≡ rest_of self.old }
    {
        match self.next() {
            Phrase::Name(name) => Ok(Some(Boxed::new(alloc, Pattern::Bound(name))?)),
            Phrase::Pattern(pattern) => Ok(Some(pattern)),
            other => {
                other.discard();
                Ok(None)
            }
        }
    }

    /// Takes a pattern with its default.
    pub fn element(&mut self, alloc: Global) -> Result<PatternElement, OutOfMemory>
        ensures first { IfOk result (λ x. x ≡ spec.element_of (spec.next_of self.old)) }
        ensures rest { self.new ≡ rest_of self.old }
    {
        match self.next() {
            Phrase::Element(element) => Ok(element),
            other => {
                other.discard();
                Ok(no_element(alloc)?)
            }
        }
    }

    /// Takes what a property is called.
    pub fn key(&mut self) -> PropertyKey
        ensures first { result ≡ spec.key_of (spec.next_of self.old) }
        ensures rest { self.new ≡ rest_of self.old }
    {
        match self.next() {
            Phrase::Key(key) => key,
            other => {
                other.discard();
                PropertyKey::Numbered {
                    place: NO_PLACE,
                    value: None,
                }
            }
        }
    }

    /// Takes a step of a chain.
    pub fn step(&mut self, alloc: Global) -> Result<LinkStep, OutOfMemory>
        ensures first { IfOk result (λ s. s ≡ spec.step_of (spec.next_of self.old)) }
        ensures rest { self.new ≡ rest_of self.old }
    {
        match self.next() {
            Phrase::Step(step) => Ok(step),
            other => {
                other.discard();
                Ok(LinkStep::MemberLink(no_name(alloc)?))
            }
        }
    }

    /// Takes an element of an array literal; a hole where none stands.
    pub fn slot(&mut self, alloc: Global) -> Result<ArrayElement, OutOfMemory>
        ensures first { IfOk result (λ x. x ≡ spec.slot_of (spec.next_of self.old)) }
        ensures rest { self.new ≡ rest_of self.old }
    {
        match self.next() {
            Phrase::Expression(element) => Ok(ArrayElement::Element(element)),
            Phrase::Covered(cover) => Ok(ArrayElement::Element(parenthesized(alloc, cover)?)),
            Phrase::Spread(spread) => Ok(ArrayElement::SpreadElement(spread)),
            other => {
                other.discard();
                Ok(ArrayElement::Hole)
            }
        }
    }

    /// Takes a statement.
    pub fn statement(&mut self, alloc: Global) -> Result<Boxed<Stmt>, OutOfMemory>
        ensures first { IfOk result (λ s. s ≡ spec.statement_of (spec.next_of self.old)) }
        ensures rest { self.new ≡ rest_of self.old }
    {
        match self.next() {
            Phrase::Statement(statement) => Ok(statement),
            other => {
                other.discard();
                Ok(Boxed::new(alloc, Stmt::Empty { place: NO_PLACE })?)
            }
        }
    }

    /// Takes the statements of a body.
    pub fn statements(&mut self, alloc: Global) -> Items<Boxed<Stmt>>
        ensures first { result ≡ spec.statements_of (spec.next_of self.old) }
        ensures rest { self.new ≡ rest_of self.old }
    {
        match self.next() {
            Phrase::Statements(statements) => statements,
            other => {
                other.discard();
                Items::new(alloc)
            }
        }
    }

    /// Takes the statements of a block.
    pub fn block(&mut self, alloc: Global) -> Items<Boxed<Stmt>>
        ensures first { result ≡ spec.block_of (spec.next_of self.old) }
        ensures rest { self.new ≡ rest_of self.old }
    {
        match self.next() {
            Phrase::Statement(statement) => statements_in(alloc, statement.into_inner()),
            other => {
                other.discard();
                Items::new(alloc)
            }
        }
    }

    /// Takes the body of a function, after `=>` too.
    pub fn body(&mut self, alloc: Global) -> Result<Body, OutOfMemory>
        ensures first { IfOk result (λ b. b ≡ spec.body_of (spec.next_of self.old)) }
        ensures rest { self.new ≡ rest_of self.old }
    {
        match self.next() {
            Phrase::Expression(value) => Ok(Body::Concise(value)),
            Phrase::Covered(cover) => Ok(Body::Concise(parenthesized(alloc, cover)?)),
            Phrase::Statements(statements) => Ok(Body::Statements(statements)),
            other => {
                other.discard();
                Ok(Body::Statements(Items::new(alloc)))
            }
        }
    }

    /// Takes the parameters of a function.
    pub fn parameters(&mut self, alloc: Global) -> Result<Boxed<Parameters>, OutOfMemory>
        ensures first { IfOk result (λ p. p ≡ spec.parameters_of (spec.next_of self.old)) }
        ensures rest { self.new ≡ rest_of self.old }
    {
        match self.next() {
            Phrase::Parameters(parameters) => Ok(parameters),
            other => {
                other.discard();
                Ok(no_parameters(alloc)?)
            }
        }
    }

    /// Takes a function.
    pub fn function(&mut self, alloc: Global) -> Result<Boxed<Function>, OutOfMemory>
        ensures first { IfOk result (λ f. f ≡ spec.function_of (spec.next_of self.old)) }
        ensures rest { self.new ≡ rest_of self.old }
    {
        match self.next() {
            Phrase::Function(function) => Ok(function),
            other => {
                other.discard();
                Ok(no_function(alloc)?)
            }
        }
    }

    /// Takes a declaration.
    pub fn declaration(&mut self, alloc: Global) -> Result<Boxed<Declaration>, OutOfMemory>
        ensures first { IfOk result (λ d. d ≡ spec.declaration_of (spec.next_of self.old)) }
        ensures rest { self.new ≡ rest_of self.old }
    {
        match self.next() {
            Phrase::Declaration(declaration) => Ok(declaration),
            other => {
                other.discard();
                Ok(no_declaration(alloc)?)
            }
        }
    }

    /// Takes what stands first in the head of a `for`.
    pub fn for_init(&mut self, alloc: Global) -> Result<ForInit, OutOfMemory>
        ensures first { IfOk result (λ i. i ≡ spec.for_init_of (spec.next_of self.old)) }
        ensures rest { self.new ≡ rest_of self.old }
    {
        match self.next() {
            Phrase::Declaration(declaration) => {
                Ok(ForInit::InitDeclaration(declaration.into_inner()))
            }
            Phrase::Expression(init) => Ok(ForInit::InitExpression(init)),
            Phrase::Covered(cover) => Ok(ForInit::InitExpression(parenthesized(alloc, cover)?)),
            other => {
                other.discard();
                Ok(ForInit::NoInit)
            }
        }
    }

    /// Takes the head of a `for`.
    pub fn head(&mut self) -> ForHead
        ensures first { result ≡ spec.head_of (spec.next_of self.old) }
        ensures rest { self.new ≡ rest_of self.old }
    {
        match self.next() {
            Phrase::Head(head) => head.into_inner(),
            other => {
                other.discard();
                ForHead::Loop {
                    init: ForInit::NoInit,
                    test: None,
                    update: None,
                }
            }
        }
    }

    /// Takes what stands behind the block of a `try`.
    pub fn tail(&mut self) -> TryTail
        ensures first { result ≡ spec.tail_of (spec.next_of self.old) }
        ensures rest { self.new ≡ rest_of self.old }
    {
        match self.next() {
            Phrase::Tail(tail) => tail.into_inner(),
            other => {
                other.discard();
                TryTail {
                    parameter: None,
                    handler: None,
                    finalizer: None,
                }
            }
        }
    }
}

/// The expression that a phrase is.
pub fn expression_of(alloc: Global, phrase: Phrase) -> Result<Boxed<Expr>, OutOfMemory>
    ensures { IfOk result (λ e. e ≡ spec.expression_of phrase) }
{
    match phrase {
        Phrase::Expression(expression) => Ok(expression),
        Phrase::Covered(cover) => Ok(parenthesized(alloc, cover)?),
        other => {
            other.discard();
            Ok(no_expression(alloc)?)
        }
    }
}

fn no_expression(alloc: Global) -> Result<Boxed<Expr>, OutOfMemory>
    ensures { IfOk result (λ e. e ≡ spec.no_expression) }
{
    Ok(Boxed::new(alloc, Expr::This { place: NO_PLACE })?)
}

/// What stands between parentheses, as an expression.
pub fn parenthesized(alloc: Global, cover: Boxed<Cover>) -> Result<Boxed<Expr>, OutOfMemory>
    ensures { IfOk result (λ e. e ≡ spec.parenthesized cover) }
{
    let Cover {
        place,
        operands,
        ..
    } = cover.into_inner();
    let inner = operand(alloc, operands)?;
    Ok(Boxed::new(alloc, Expr::Parenthesized { place, inner })?)
}

fn operand(alloc: Global, operands: Operands) -> Result<Boxed<Expr>, OutOfMemory>
    ensures { IfOk result (λ e. e ≡ spec.operand operands) }
{
    match operands {
        Operands::NoOperand => no_expression(alloc),
        Operands::Single(operand) => Ok(operand),
        Operands::Several(operands) => comma(alloc, operands),
    }
}

fn comma(alloc: Global, operands: Items<Boxed<Expr>>) -> Result<Boxed<Expr>, OutOfMemory>
    ensures { IfOk result (λ e. e ≡ spec.comma operands) }
{
    let place = match operands.as_slice() {
        [] => NO_PLACE,
        [first, ..] => place_of(first.get()),
    };
    Ok(Boxed::new(alloc, Expr::Comma { place, operands })?)
}

fn no_name(alloc: Global) -> Result<Identifier, OutOfMemory>
    ensures { IfOk result (λ n. n ≡ spec.no_name) }
{
    match from_units(alloc, &[]) {
        Ok(name) => Ok(Identifier {
            place: NO_PLACE,
            name,
        }),
        Err(_) => Err(OutOfMemory),
    }
}

/// What is bound where nothing is: a name without characters at no place.
pub fn no_pattern(alloc: Global) -> Result<Boxed<Pattern>, OutOfMemory>
    ensures { IfOk result (λ p. p ≡ spec.no_pattern) }
{
    Ok(Boxed::new(alloc, Pattern::Bound(no_name(alloc)?))?)
}

fn no_element(alloc: Global) -> Result<PatternElement, OutOfMemory>
    ensures { IfOk result (λ x. x ≡ spec.plain_element spec.no_pattern) }
{
    Ok(PatternElement {
        pattern: no_pattern(alloc)?,
        default: None,
    })
}

fn statements_in(alloc: Global, statement: Stmt) -> Items<Boxed<Stmt>>
    ensures { result ≡ spec.statements_of_block statement }
{
    match statement {
        Stmt::Block { body, .. } => body,
        _ => Items::new(alloc),
    }
}

/// No parameters, at no place.
pub fn no_parameters(alloc: Global) -> Result<Boxed<Parameters>, OutOfMemory>
    ensures { IfOk result (λ p. p ≡ spec.no_parameters) }
{
    let parameters = Parameters {
        place: NO_PLACE,
        elements: Items::new(alloc),
        rest: None,
    };
    Ok(Boxed::new(alloc, parameters)?)
}

fn no_function(alloc: Global) -> Result<Boxed<Function>, OutOfMemory>
    ensures { IfOk result (λ f. f ≡ spec.no_function) }
{
    let function = Function {
        place: NO_PLACE,
        kind: FunctionKind::Plain,
        name: None,
        parameters: Items::new(alloc),
        rest: None,
        body: Body::Statements(Items::new(alloc)),
    };
    Ok(Boxed::new(alloc, function)?)
}

fn no_declaration(alloc: Global) -> Result<Boxed<Declaration>, OutOfMemory>
    ensures { IfOk result (λ d. d ≡ spec.no_declaration) }
{
    let declaration = Declaration {
        place: NO_PLACE,
        kind: DeclarationKind::Var,
        declarators: Items::new(alloc),
    };
    Ok(Boxed::new(alloc, declaration)?)
}
