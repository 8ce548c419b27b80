// Sources and their syntax trees.

mod expressions;
mod statements;
mod tasks;

use self::expressions::{
    show_argument, show_element, show_expr, show_key, show_link, show_property,
};
use self::statements::{
    show_class, show_clause, show_declaration, show_field, show_function, show_member,
    show_pattern, show_pattern_element, show_stmt,
};
use self::tasks::{Task, Tasks};
use crate::fault::Fault;
use crate::refusals::push_refusal;
use js_text::text::Text;
use js_tree::tree::{Module, SourceKind};
use ses_prelude::js_parser::parse::discard;
use ses_prelude::js_program::program::read_program;
use std::alloc::{AllocError, Global};

/// `tree SOURCE`: its tree, or the refusal.
pub fn push_row(alloc: Global, out: &mut String, line: &str) -> Result<(), Fault> {
    let source = line.replace(alloc, '¶', "\n")?;
    match read_program(alloc, SourceKind::Module, source.as_bytes()) {
        Ok(program) => {
            let pushed = push_tree(alloc, out, &program);
            discard(program);
            pushed?;
        }
        Err(fault) => push_refusal(out, &fault)?,
    }
    Ok(())
}

/// How many parts of a tree are printed.
const MAX_TASKS: u32 = u32::MAX;

fn push_tree(alloc: Global, out: &mut String, module: &Module) -> Result<(), AllocError> {
    let mut tasks = Tasks::new(alloc);
    tasks.stmts(module.body.as_slice())?;
    for _ in 0..MAX_TASKS {
        match tasks.next()? {
            Some(task) => show_task(out, &mut tasks, task)?,
            None => return Ok(()),
        }
    }
    Ok(())
}

fn show_task<'a>(
    out: &mut String,
    tasks: &mut Tasks<'a>,
    task: Task<'a>,
) -> Result<(), AllocError> {
    match task {
        Task::Word(word) => show_word(out, word),
        Task::At(place) => push_number(out, '@', place.line, place.unit),
        Task::Quoted(text) => show_quoted(out, text),
        Task::Plain(text) => show_plain(out, text),
        Task::Number(value) => show_number(out, value),
        Task::Expr(expr) => show_expr(tasks, expr),
        Task::Argument(argument) => show_argument(tasks, argument),
        Task::Element(element) => show_element(tasks, element),
        Task::Property(property) => show_property(tasks, property),
        Task::Key(key) => show_key(tasks, key),
        Task::Link(link) => show_link(tasks, link),
        Task::Pattern(pattern) => show_pattern(tasks, pattern),
        Task::PatternElement(element) => show_pattern_element(tasks, element),
        Task::Field(field) => show_field(tasks, field),
        Task::Function(function) => show_function(tasks, function),
        Task::Class(class) => show_class(tasks, class),
        Task::Member(member) => show_member(tasks, member),
        Task::Declaration(declaration) => show_declaration(tasks, declaration),
        Task::Clause(clause) => show_clause(tasks, clause),
        Task::Stmt(stmt) => show_stmt(tasks, stmt),
    }
}

/// Words stand a space apart, but for what follows `(` and comes before `)`.
fn show_word(out: &mut String, word: &str) -> Result<(), AllocError> {
    if !matches!(word, ")") {
        show_space(out)?;
    }
    out.push_str(word)
}

fn show_space(out: &mut String) -> Result<(), AllocError> {
    if out.is_empty() || out.as_str().ends_with('(') {
        return Ok(());
    }
    out.push_str(" ")
}

fn push_number(out: &mut String, mark: char, line: u32, unit: u32) -> Result<(), AllocError> {
    out.push(mark)?;
    write!(out, "{line}:{unit}")
}

fn show_number(out: &mut String, value: Option<i64>) -> Result<(), AllocError> {
    show_space(out)?;
    match value {
        Some(value) => write!(out, "#{value}"),
        None => out.push_str("#none"),
    }
}

/// A text with what is not printable as `\u` and four hexadecimal numerals.
fn show_quoted(out: &mut String, text: &Text) -> Result<(), AllocError> {
    show_space(out)?;
    out.push('"')?;
    show_units(out, text)?;
    out.push('"')
}

fn show_plain(out: &mut String, text: &Text) -> Result<(), AllocError> {
    show_space(out)?;
    show_units(out, text)
}

fn show_units(out: &mut String, text: &Text) -> Result<(), AllocError> {
    for at in 0..text.len() {
        show_unit(out, text.unit(at))?;
    }
    Ok(())
}

fn show_unit(out: &mut String, unit: u16) -> Result<(), AllocError> {
    if (33..127).contains(&unit) && unit != 34 && unit != 92 {
        match char::from_u32(u32::from(unit)) {
            Some(character) => return out.push(character),
            None => return Ok(()),
        }
    }
    write!(out, "\\u{unit:04x}")
}
