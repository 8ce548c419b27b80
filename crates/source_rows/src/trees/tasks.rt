// What is still to be printed, the next one last: trees of any depth without a recursion.

use js_text::text::Text;
use js_tree::tree::{
    Argument, ArrayElement, Class, ClassMember, Clause, Declaration, Expr, Function, Link, Pattern,
    PatternElement, PatternField, Property, PropertyKey, Stmt,
};
use lava_base::place::Place;
use sqlite_items::Boxed;
use std::alloc::{AllocError, Global};

/// A part that is to be printed.
#[derive(Clone, Copy, Drop)]
pub enum Task<'a> {
    Word(&'static str),
    At(Place),
    Quoted(&'a Text),
    Plain(&'a Text),
    Number(Option<i64>),
    Expr(&'a Expr),
    Argument(&'a Argument),
    Element(&'a ArrayElement),
    Property(&'a Property),
    Key(&'a PropertyKey),
    Link(&'a Link),
    Pattern(&'a Pattern),
    PatternElement(&'a PatternElement),
    Field(&'a PatternField),
    Function(&'a Function),
    Class(&'a Class),
    Member(&'a ClassMember),
    Declaration(&'a Declaration),
    Clause(&'a Clause),
    Stmt(&'a Stmt),
}

/// The parts that are to be printed.
#[derive(Drop)]
pub struct Tasks<'a> {
    stack: Vec<Task<'a>>,
    fresh: Vec<Task<'a>>,
}

impl<'a> Tasks<'a> {
    pub fn new(alloc: Global) -> Tasks<'a> {
        Tasks {
            stack: Vec::new(alloc),
            fresh: Vec::new(alloc),
        }
    }

    /// The next part, if there is one; what was added since comes before the others, in its order.
    pub fn next(&mut self) -> Result<Option<Task<'a>>, AllocError> {
        while let Some(task) = self.fresh.pop() {
            self.stack.push(task)?;
        }
        Ok(self.stack.pop())
    }

    pub fn add(&mut self, task: Task<'a>) -> Result<(), AllocError> {
        self.fresh.push(task)?;
        Ok(())
    }

    pub fn word(&mut self, word: &'static str) -> Result<(), AllocError> {
        self.add(Task::Word(word))
    }

    /// A form's name and place; its parts and `)` are to follow.
    pub fn form(&mut self, name: &'static str, place: Place) -> Result<(), AllocError> {
        self.word("(")?;
        self.word(name)?;
        self.add(Task::At(place))
    }

    pub fn end(&mut self) -> Result<(), AllocError> {
        self.word(")")
    }

    pub fn expr(&mut self, expr: &'a Boxed<Expr>) -> Result<(), AllocError> {
        self.add(Task::Expr(expr.get()))
    }

    /// An expression, or `-` for none.
    pub fn optional_expr(&mut self, expr: &'a Option<Boxed<Expr>>) -> Result<(), AllocError> {
        match expr {
            Some(expr) => self.expr(expr),
            None => self.word("-"),
        }
    }

    pub fn exprs(&mut self, exprs: &'a [Boxed<Expr>]) -> Result<(), AllocError> {
        for expr in exprs {
            self.expr(expr)?;
        }
        Ok(())
    }

    pub fn pattern(&mut self, pattern: &'a Boxed<Pattern>) -> Result<(), AllocError> {
        self.add(Task::Pattern(pattern.get()))
    }

    /// What stands behind `...` in a pattern or in parameters, if there is one.
    pub fn rest(&mut self, rest: &'a Option<Boxed<Pattern>>) -> Result<(), AllocError> {
        match rest {
            Some(rest) => {
                self.word("(rest")?;
                self.pattern(rest)?;
                self.end()
            }
            None => Ok(()),
        }
    }

    pub fn stmt(&mut self, stmt: &'a Boxed<Stmt>) -> Result<(), AllocError> {
        self.add(Task::Stmt(stmt.get()))
    }

    pub fn stmts(&mut self, stmts: &'a [Boxed<Stmt>]) -> Result<(), AllocError> {
        for stmt in stmts {
            self.stmt(stmt)?;
        }
        Ok(())
    }

    pub fn block(
        &mut self,
        name: &'static str,
        stmts: &'a [Boxed<Stmt>],
    ) -> Result<(), AllocError> {
        self.word("(")?;
        self.word(name)?;
        self.stmts(stmts)?;
        self.end()
    }

    pub fn arguments(&mut self, arguments: &'a [Argument]) -> Result<(), AllocError> {
        for argument in arguments {
            self.add(Task::Argument(argument))?;
        }
        self.end()
    }
}
