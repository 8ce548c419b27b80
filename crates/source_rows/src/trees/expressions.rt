// Expressions as they are printed.

use super::tasks::{Task, Tasks};
use js_tree::operator::{
    AssignmentOperator, BinaryOperator, LogicalOperator, UnaryOperator, UpdateOperator,
};
use js_tree::tree::{Argument, ArrayElement, Expr, Link, LinkStep, Property, PropertyKey};
use sqlite_items::Boxed;
use std::alloc::AllocError;

/// The parts of an expression.
pub fn show_expr<'a>(tasks: &mut Tasks<'a>, expr: &'a Expr) -> Result<(), AllocError> {
    match expr {
        Expr::Name(name) => tasks.add(Task::Plain(&name.name)),
        Expr::This { .. } => tasks.word("this"),
        Expr::Null { .. } => tasks.word("null"),
        Expr::Bool { value, .. } => tasks.word(if *value { "true" } else { "false" }),
        Expr::Number { value, .. } => tasks.add(Task::Number(*value)),
        Expr::String { value, .. } => tasks.add(Task::Quoted(value)),
        Expr::Function(function) => tasks.add(Task::Function(function.get())),
        Expr::Class(class) => tasks.add(Task::Class(class.get())),
        Expr::Template { .. } | Expr::Array { .. } | Expr::Object { .. } => {
            show_literal(tasks, expr)
        }
        Expr::Member { .. }
        | Expr::Index { .. }
        | Expr::SuperMember { .. }
        | Expr::SuperIndex { .. } => show_member(tasks, expr),
        Expr::Call { .. } | Expr::SuperCall { .. } | Expr::New { .. } | Expr::Chain { .. } => {
            show_call(tasks, expr)
        }
        _ => show_operation(tasks, expr),
    }
}

fn show_literal<'a>(tasks: &mut Tasks<'a>, expr: &'a Expr) -> Result<(), AllocError> {
    match expr {
        Expr::Template {
            place,
            strings,
            substitutions,
        } => {
            tasks.form("template", *place)?;
            for string in strings.as_slice() {
                tasks.add(Task::Quoted(string))?;
            }
            tasks.exprs(substitutions.as_slice())?;
            tasks.end()
        }
        Expr::Array { place, elements } => {
            tasks.form("array", *place)?;
            for element in elements.as_slice() {
                tasks.add(Task::Element(element))?;
            }
            tasks.end()
        }
        Expr::Object { place, properties } => {
            tasks.form("object", *place)?;
            for property in properties.as_slice() {
                tasks.add(Task::Property(property))?;
            }
            tasks.end()
        }
        _ => Ok(()),
    }
}

fn show_member<'a>(tasks: &mut Tasks<'a>, expr: &'a Expr) -> Result<(), AllocError> {
    match expr {
        Expr::Member {
            place,
            object,
            name,
        } => {
            tasks.form("member", *place)?;
            tasks.expr(object)?;
            tasks.add(Task::Plain(&name.name))?;
            tasks.end()
        }
        Expr::Index { place, object, key } => {
            tasks.form("index", *place)?;
            tasks.expr(object)?;
            tasks.expr(key)?;
            tasks.end()
        }
        Expr::SuperMember { place, name } => {
            tasks.form("supermember", *place)?;
            tasks.add(Task::Plain(&name.name))?;
            tasks.end()
        }
        Expr::SuperIndex { place, key } => {
            tasks.form("superindex", *place)?;
            tasks.expr(key)?;
            tasks.end()
        }
        _ => Ok(()),
    }
}

fn show_call<'a>(tasks: &mut Tasks<'a>, expr: &'a Expr) -> Result<(), AllocError> {
    match expr {
        Expr::Call {
            place,
            callee,
            arguments,
        } => {
            tasks.form("call", *place)?;
            tasks.expr(callee)?;
            tasks.arguments(arguments.as_slice())
        }
        Expr::SuperCall { place, arguments } => {
            tasks.form("supercall", *place)?;
            tasks.arguments(arguments.as_slice())
        }
        Expr::New {
            place,
            callee,
            arguments,
        } => {
            tasks.form("new", *place)?;
            tasks.expr(callee)?;
            tasks.arguments(arguments.as_slice())
        }
        Expr::Chain { place, base, links } => {
            tasks.form("chain", *place)?;
            tasks.expr(base)?;
            for link in links.as_slice() {
                tasks.add(Task::Link(link))?;
            }
            tasks.end()
        }
        _ => Ok(()),
    }
}

fn show_operation<'a>(tasks: &mut Tasks<'a>, expr: &'a Expr) -> Result<(), AllocError> {
    match expr {
        Expr::Parenthesized { place, inner } => {
            tasks.form("paren", *place)?;
            tasks.expr(inner)?;
            tasks.end()
        }
        Expr::NewTarget { place } => {
            tasks.form("newtarget", *place)?;
            tasks.end()
        }
        Expr::Unary {
            place,
            operator,
            operand,
        } => {
            tasks.form(unary_word(*operator), *place)?;
            tasks.expr(operand)?;
            tasks.end()
        }
        Expr::Update {
            place,
            operator,
            prefix,
            operand,
        } => {
            tasks.form(update_word(*operator, *prefix), *place)?;
            tasks.expr(operand)?;
            tasks.end()
        }
        Expr::Binary {
            place,
            operator,
            left,
            right,
        } => {
            tasks.form(binary_word(*operator), *place)?;
            tasks.expr(left)?;
            tasks.expr(right)?;
            tasks.end()
        }
        Expr::Logical {
            place,
            operator,
            left,
            right,
        } => {
            tasks.form(logical_word(*operator), *place)?;
            tasks.expr(left)?;
            tasks.expr(right)?;
            tasks.end()
        }
        _ => show_choice(tasks, expr),
    }
}

fn show_choice<'a>(tasks: &mut Tasks<'a>, expr: &'a Expr) -> Result<(), AllocError> {
    match expr {
        Expr::Conditional {
            place,
            test,
            consequent,
            alternate,
        } => {
            tasks.form("?", *place)?;
            tasks.expr(test)?;
            tasks.expr(consequent)?;
            tasks.expr(alternate)?;
            tasks.end()
        }
        Expr::Assign {
            place,
            target,
            value,
        } => {
            tasks.form("=", *place)?;
            tasks.pattern(target)?;
            tasks.expr(value)?;
            tasks.end()
        }
        Expr::OperatorAssign {
            place,
            operator,
            target,
            value,
        } => {
            tasks.form("op=", *place)?;
            tasks.word(assignment_word(*operator))?;
            tasks.expr(target)?;
            tasks.expr(value)?;
            tasks.end()
        }
        Expr::Comma { place, operands } => {
            tasks.form(",", *place)?;
            tasks.exprs(operands.as_slice())?;
            tasks.end()
        }
        _ => Ok(()),
    }
}

pub fn show_argument<'a>(tasks: &mut Tasks<'a>, argument: &'a Argument) -> Result<(), AllocError> {
    match argument {
        Argument::Operand(operand) => tasks.expr(operand),
        Argument::SpreadArgument(operand) => show_spread(tasks, operand),
    }
}

fn show_spread<'a>(tasks: &mut Tasks<'a>, operand: &'a Boxed<Expr>) -> Result<(), AllocError> {
    tasks.word("(spread")?;
    tasks.expr(operand)?;
    tasks.end()
}

pub fn show_element<'a>(
    tasks: &mut Tasks<'a>,
    element: &'a ArrayElement,
) -> Result<(), AllocError> {
    match element {
        ArrayElement::Hole => tasks.word("hole"),
        ArrayElement::Element(operand) => tasks.expr(operand),
        ArrayElement::SpreadElement(operand) => show_spread(tasks, operand),
    }
}

pub fn show_property<'a>(tasks: &mut Tasks<'a>, property: &'a Property) -> Result<(), AllocError> {
    match property {
        Property::Valued { key, value } => {
            tasks.word("(:")?;
            tasks.add(Task::Key(key))?;
            tasks.expr(value)?;
            tasks.end()
        }
        Property::Defined { key, function } => {
            tasks.word("(define")?;
            tasks.add(Task::Key(key))?;
            tasks.add(Task::Function(function.get()))?;
            tasks.end()
        }
        Property::SpreadProperty(operand) => show_spread(tasks, operand),
        Property::Initialized { name, default } => {
            tasks.word("(initialized")?;
            tasks.add(Task::Plain(&name.name))?;
            tasks.expr(default)?;
            tasks.end()
        }
    }
}

pub fn show_key<'a>(tasks: &mut Tasks<'a>, key: &'a PropertyKey) -> Result<(), AllocError> {
    match key {
        PropertyKey::Named(name) => tasks.add(Task::Quoted(&name.name)),
        PropertyKey::Numbered { value, .. } => tasks.add(Task::Number(*value)),
        PropertyKey::Computed { key, .. } => {
            tasks.word("(computed")?;
            tasks.expr(key)?;
            tasks.end()
        }
    }
}

pub fn show_link<'a>(tasks: &mut Tasks<'a>, link: &'a Link) -> Result<(), AllocError> {
    tasks.word(if link.optional { "(?." } else { "(." })?;
    match &link.step {
        LinkStep::MemberLink(name) => {
            tasks.add(Task::Plain(&name.name))?;
            tasks.end()
        }
        LinkStep::IndexLink(key) => {
            tasks.word("[")?;
            tasks.expr(key)?;
            tasks.end()
        }
        LinkStep::CallLink(arguments) => {
            tasks.word("call")?;
            tasks.arguments(arguments.as_slice())
        }
    }
}

fn unary_word(operator: UnaryOperator) -> &'static str {
    match operator {
        UnaryOperator::Delete => "delete",
        UnaryOperator::Void => "void",
        UnaryOperator::Typeof => "typeof",
        UnaryOperator::Plus => "unary+",
        UnaryOperator::Minus => "unary-",
        UnaryOperator::BitwiseNot => "~",
        UnaryOperator::LogicalNot => "!",
    }
}

fn update_word(operator: UpdateOperator, prefix: bool) -> &'static str {
    match (operator, prefix) {
        (UpdateOperator::Increment, true) => "++_",
        (UpdateOperator::Increment, false) => "_++",
        (UpdateOperator::Decrement, true) => "--_",
        (UpdateOperator::Decrement, false) => "_--",
    }
}

fn binary_word(operator: BinaryOperator) -> &'static str {
    match operator {
        BinaryOperator::Exponentiate => "**",
        BinaryOperator::Multiply => "*",
        BinaryOperator::Divide => "/",
        BinaryOperator::Remainder => "%",
        BinaryOperator::Add => "+",
        BinaryOperator::Subtract => "-",
        BinaryOperator::LeftShift => "<<",
        BinaryOperator::SignedRightShift => ">>",
        BinaryOperator::UnsignedRightShift => ">>>",
        BinaryOperator::Less => "<",
        BinaryOperator::Greater => ">",
        BinaryOperator::LessOrEqual => "<=",
        BinaryOperator::GreaterOrEqual => ">=",
        BinaryOperator::Instanceof => "instanceof",
        BinaryOperator::In => "in",
        BinaryOperator::LooselyEqual => "==",
        BinaryOperator::LooselyUnequal => "!=",
        BinaryOperator::StrictlyEqual => "===",
        BinaryOperator::StrictlyUnequal => "!==",
        BinaryOperator::BitwiseAnd => "&",
        BinaryOperator::BitwiseXor => "^",
        BinaryOperator::BitwiseOr => "|",
    }
}

fn logical_word(operator: LogicalOperator) -> &'static str {
    match operator {
        LogicalOperator::And => "&&",
        LogicalOperator::Or => "||",
        LogicalOperator::Coalesce => "??",
    }
}

fn assignment_word(operator: AssignmentOperator) -> &'static str {
    match operator {
        AssignmentOperator::Binary(operator) => binary_word(operator),
        AssignmentOperator::Logical(operator) => logical_word(operator),
    }
}
