// Statements, functions and patterns as they are printed.

use super::tasks::{Task, Tasks};
use js_tree::tree::{
    Body, Catch, Class, ClassMember, Clause, Declaration, DeclarationKind, ForInit, ForTarget,
    Function, FunctionKind, Identifier, Pattern, PatternElement, PatternField, Stmt,
};
use sqlite_items::{Boxed, Items};
use std::alloc::AllocError;

fn show_name<'a>(tasks: &mut Tasks<'a>, name: &'a Option<Identifier>) -> Result<(), AllocError> {
    match name {
        Some(name) => tasks.add(Task::Plain(&name.name)),
        None => tasks.word("-"),
    }
}

pub fn show_pattern<'a>(tasks: &mut Tasks<'a>, pattern: &'a Pattern) -> Result<(), AllocError> {
    match pattern {
        Pattern::Bound(name) => tasks.add(Task::Plain(&name.name)),
        Pattern::Target(expr) => {
            tasks.word("(target")?;
            tasks.expr(expr)?;
            tasks.end()
        }
        Pattern::ObjectPattern {
            place,
            fields,
            rest,
        } => {
            tasks.form("objectpattern", *place)?;
            for field in fields.as_slice() {
                tasks.add(Task::Field(field))?;
            }
            tasks.rest(rest)?;
            tasks.end()
        }
        Pattern::ArrayPattern {
            place,
            elements,
            rest,
        } => {
            tasks.form("arraypattern", *place)?;
            for element in elements.as_slice() {
                show_slot(tasks, element)?;
            }
            tasks.rest(rest)?;
            tasks.end()
        }
    }
}

fn show_slot<'a>(
    tasks: &mut Tasks<'a>,
    element: &'a Option<PatternElement>,
) -> Result<(), AllocError> {
    match element {
        Some(element) => tasks.add(Task::PatternElement(element)),
        None => tasks.word("hole"),
    }
}

pub fn show_pattern_element<'a>(
    tasks: &mut Tasks<'a>,
    element: &'a PatternElement,
) -> Result<(), AllocError> {
    match &element.default {
        Some(default) => {
            tasks.word("(default")?;
            tasks.pattern(&element.pattern)?;
            tasks.expr(default)?;
            tasks.end()
        }
        None => tasks.pattern(&element.pattern),
    }
}

pub fn show_field<'a>(tasks: &mut Tasks<'a>, field: &'a PatternField) -> Result<(), AllocError> {
    tasks.word("(:")?;
    tasks.add(Task::Key(&field.key))?;
    tasks.add(Task::PatternElement(&field.element))?;
    tasks.end()
}

fn kind_word(kind: FunctionKind) -> &'static str {
    match kind {
        FunctionKind::Plain => "function",
        FunctionKind::Arrow => "arrow",
        FunctionKind::Method => "method",
        FunctionKind::Getter => "getter",
        FunctionKind::Setter => "setter",
    }
}

pub fn show_function<'a>(tasks: &mut Tasks<'a>, function: &'a Function) -> Result<(), AllocError> {
    tasks.form(kind_word(function.kind), function.place)?;
    show_name(tasks, &function.name)?;
    tasks.word("(parameters")?;
    for element in function.parameters.as_slice() {
        tasks.add(Task::PatternElement(element))?;
    }
    tasks.rest(&function.rest)?;
    tasks.end()?;
    match &function.body {
        Body::Statements(stmts) => tasks.block("body", stmts.as_slice())?,
        Body::Concise(expr) => tasks.expr(expr)?,
    }
    tasks.end()
}

pub fn show_class<'a>(tasks: &mut Tasks<'a>, class: &'a Class) -> Result<(), AllocError> {
    tasks.form("class", class.place)?;
    show_name(tasks, &class.name)?;
    tasks.optional_expr(&class.heritage)?;
    for member in class.members.as_slice() {
        tasks.add(Task::Member(member))?;
    }
    tasks.end()
}

pub fn show_member<'a>(tasks: &mut Tasks<'a>, member: &'a ClassMember) -> Result<(), AllocError> {
    let name = if member.is_static { "static" } else { "member" };
    tasks.form(name, member.place)?;
    tasks.add(Task::Key(&member.key))?;
    tasks.add(Task::Function(member.function.get()))?;
    tasks.end()
}

fn declaration_word(kind: DeclarationKind) -> &'static str {
    match kind {
        DeclarationKind::Var => "var",
        DeclarationKind::Let => "let",
        DeclarationKind::Const => "const",
    }
}

pub fn show_declaration<'a>(
    tasks: &mut Tasks<'a>,
    declaration: &'a Declaration,
) -> Result<(), AllocError> {
    tasks.form(declaration_word(declaration.kind), declaration.place)?;
    for declarator in declaration.declarators.as_slice() {
        tasks.add(Task::PatternElement(declarator))?;
    }
    tasks.end()
}

fn show_init<'a>(tasks: &mut Tasks<'a>, init: &'a ForInit) -> Result<(), AllocError> {
    match init {
        ForInit::NoInit => tasks.word("-"),
        ForInit::InitDeclaration(declaration) => tasks.add(Task::Declaration(declaration)),
        ForInit::InitExpression(expr) => tasks.expr(expr),
    }
}

fn show_target<'a>(tasks: &mut Tasks<'a>, target: &'a ForTarget) -> Result<(), AllocError> {
    match target {
        ForTarget::ForBinding { kind, pattern } => {
            tasks.word("(")?;
            tasks.word(declaration_word(*kind))?;
            tasks.pattern(pattern)?;
            tasks.end()
        }
        ForTarget::ForAssignment(pattern) => tasks.pattern(pattern),
    }
}

pub fn show_clause<'a>(tasks: &mut Tasks<'a>, clause: &'a Clause) -> Result<(), AllocError> {
    tasks.word("(case")?;
    tasks.optional_expr(&clause.test)?;
    tasks.stmts(clause.body.as_slice())?;
    tasks.end()
}

/// The parts of a statement.
pub fn show_stmt<'a>(tasks: &mut Tasks<'a>, stmt: &'a Stmt) -> Result<(), AllocError> {
    match stmt {
        Stmt::Declare(declaration) => tasks.add(Task::Declaration(declaration)),
        Stmt::FunctionDeclaration(function) => {
            tasks.word("(declare")?;
            tasks.add(Task::Function(function.get()))?;
            tasks.end()
        }
        Stmt::ClassDeclaration(class) => {
            tasks.word("(declare")?;
            tasks.add(Task::Class(class.get()))?;
            tasks.end()
        }
        Stmt::Expression(expr) => {
            tasks.word("(expression")?;
            tasks.expr(expr)?;
            tasks.end()
        }
        Stmt::Block { place, body } => {
            tasks.form("block", *place)?;
            tasks.stmts(body.as_slice())?;
            tasks.end()
        }
        Stmt::Empty { place } => {
            tasks.form("empty", *place)?;
            tasks.end()
        }
        Stmt::Debugger { place } => {
            tasks.form("debugger", *place)?;
            tasks.end()
        }
        Stmt::While { .. }
        | Stmt::DoWhile { .. }
        | Stmt::For { .. }
        | Stmt::ForOf { .. }
        | Stmt::ForIn { .. } => show_loop(tasks, stmt),
        Stmt::Continue { .. } | Stmt::Break { .. } | Stmt::Return { .. } | Stmt::Throw { .. } => {
            show_jump(tasks, stmt)
        }
        _ => show_branch(tasks, stmt),
    }
}

fn show_loop<'a>(tasks: &mut Tasks<'a>, stmt: &'a Stmt) -> Result<(), AllocError> {
    match stmt {
        Stmt::While { place, test, body } => {
            tasks.form("while", *place)?;
            tasks.expr(test)?;
            tasks.stmt(body)?;
            tasks.end()
        }
        Stmt::DoWhile { place, body, test } => {
            tasks.form("do", *place)?;
            tasks.stmt(body)?;
            tasks.expr(test)?;
            tasks.end()
        }
        Stmt::For {
            place,
            init,
            test,
            update,
            body,
        } => {
            tasks.form("for", *place)?;
            show_init(tasks, init)?;
            tasks.optional_expr(test)?;
            tasks.optional_expr(update)?;
            tasks.stmt(body)?;
            tasks.end()
        }
        Stmt::ForOf {
            place,
            target,
            iterated,
            body,
        } => {
            tasks.form("forof", *place)?;
            show_target(tasks, target)?;
            tasks.expr(iterated)?;
            tasks.stmt(body)?;
            tasks.end()
        }
        Stmt::ForIn {
            place,
            target,
            object,
            body,
        } => {
            tasks.form("forin", *place)?;
            show_target(tasks, target)?;
            tasks.expr(object)?;
            tasks.stmt(body)?;
            tasks.end()
        }
        _ => Ok(()),
    }
}

fn show_jump<'a>(tasks: &mut Tasks<'a>, stmt: &'a Stmt) -> Result<(), AllocError> {
    match stmt {
        Stmt::Continue { place, label } => {
            tasks.form("continue", *place)?;
            show_name(tasks, label)?;
            tasks.end()
        }
        Stmt::Break { place, label } => {
            tasks.form("break", *place)?;
            show_name(tasks, label)?;
            tasks.end()
        }
        Stmt::Return { place, value } => {
            tasks.form("return", *place)?;
            tasks.optional_expr(value)?;
            tasks.end()
        }
        Stmt::Throw { place, value } => {
            tasks.form("throw", *place)?;
            tasks.expr(value)?;
            tasks.end()
        }
        _ => Ok(()),
    }
}

fn show_branch<'a>(tasks: &mut Tasks<'a>, stmt: &'a Stmt) -> Result<(), AllocError> {
    match stmt {
        Stmt::If {
            place,
            test,
            consequent,
            alternate,
        } => {
            tasks.form("if", *place)?;
            tasks.expr(test)?;
            tasks.stmt(consequent)?;
            show_alternate(tasks, alternate)?;
            tasks.end()
        }
        Stmt::Switch {
            place,
            value,
            clauses,
        } => {
            tasks.form("switch", *place)?;
            tasks.expr(value)?;
            for clause in clauses.as_slice() {
                tasks.add(Task::Clause(clause))?;
            }
            tasks.end()
        }
        Stmt::Try {
            place,
            block,
            handler,
            finalizer,
        } => {
            tasks.form("try", *place)?;
            tasks.stmts(block.as_slice())?;
            show_handler(tasks, handler)?;
            show_finalizer(tasks, finalizer)?;
            tasks.end()
        }
        Stmt::Labelled { label, body } => {
            tasks.form("label", label.place)?;
            tasks.add(Task::Plain(&label.name))?;
            tasks.stmt(body)?;
            tasks.end()
        }
        _ => Ok(()),
    }
}

fn show_alternate<'a>(
    tasks: &mut Tasks<'a>,
    alternate: &'a Option<Boxed<Stmt>>,
) -> Result<(), AllocError> {
    match alternate {
        Some(alternate) => tasks.stmt(alternate),
        None => tasks.word("-"),
    }
}

fn show_handler<'a>(
    tasks: &mut Tasks<'a>,
    handler: &'a Option<Boxed<Catch>>,
) -> Result<(), AllocError> {
    match handler {
        Some(handler) => {
            tasks.word("(catch")?;
            match &handler.get().parameter {
                Some(parameter) => tasks.pattern(parameter)?,
                None => tasks.word("-")?,
            }
            tasks.stmts(handler.get().body.as_slice())?;
            tasks.end()
        }
        None => Ok(()),
    }
}

fn show_finalizer<'a>(
    tasks: &mut Tasks<'a>,
    finalizer: &'a Option<Items<Boxed<Stmt>>>,
) -> Result<(), AllocError> {
    match finalizer {
        Some(body) => tasks.block("finally", body.as_slice()),
        None => Ok(()),
    }
}
