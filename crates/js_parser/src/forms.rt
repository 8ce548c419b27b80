// What each production makes of what its parts have become.

ghost use Rattle.std.specs.Prelude.{◌≡◌, IfOk};
ghost use Rattle.js_parser.specs.Forms as spec;

use crate::expression_forms::expression_form;
use js_grammar::symbols::Production;
use js_phrase::phrase::Phrase;
use js_phrase::queue::Queue;
use js_stmt::bindings::{
    array_binding_pattern, binding_element, binding_identifier, binding_rest,
    comma_binding_element, initializer, keyed_binding_property, named_binding_property,
    object_binding_pattern, second_part,
};
use js_stmt::branches::{if_else_statement, if_statement};
use js_stmt::classes::{class_declaration, class_expression, class_heritage};
use js_stmt::declarations::{declaration_statement, for_declaration};
use js_stmt::for_heads::{for_in, for_of, for_with_init, for_without_init};
use js_stmt::functions::{
    formal_parameters, function_body, function_declaration, function_expression,
};
use js_stmt::jumps::{break_or_continue, return_statement, throw_statement};
use js_stmt::labels::labelled_statement;
use js_stmt::loops::{do_while_statement, for_statement, while_statement};
use js_stmt::methods::{getter, method, method_tail, setter, static_element, static_named_method};
use js_stmt::statements::{block, debugger_statement, empty_statement, expression_statement};
use js_stmt::switches::{case_clause, default_clause, switch_statement};
use js_stmt::tries::{catch_clause, finally_clause, try_statement};
use lava_base::memory::OutOfMemory;
use std::alloc::Global;

/// The form of a production of the grammar: what it makes of what its parts have become. What the language leaves out makes nothing.
#[tactic(auto, unfolding(crate::specs::Forms::form))]
pub fn form(
    alloc: Global,
    source: &[u8],
    production: Production,
    parts: &mut Queue<Phrase>,
) -> Result<Phrase, OutOfMemory>
    ensures { IfOk result (λ p. p ≡ spec.form source.now production parts.old) }
{
    match production {
        Production::VariableStatement => declaration_statement(alloc, parts),
        Production::Block => block(alloc, parts),
        Production::EmptyStatement => empty_statement(alloc, parts),
        Production::ExpressionStatement => expression_statement(alloc, parts),
        Production::IfStatement => if_statement(alloc, parts),
        Production::IfElseStatement => if_else_statement(alloc, parts),
        Production::WhileStatement => while_statement(alloc, parts),
        Production::DoWhileStatement => do_while_statement(alloc, parts),
        Production::ForStatement => for_statement(alloc, parts),
        Production::BreakOrContinueStatement => break_or_continue(alloc, parts),
        Production::ReturnStatement => return_statement(alloc, parts),
        Production::ThrowStatement => throw_statement(alloc, parts),
        Production::SwitchStatement => switch_statement(alloc, parts),
        Production::TryStatement => try_statement(alloc, parts),
        Production::LabelledStatement => labelled_statement(alloc, source, parts),
        Production::DebuggerStatement => debugger_statement(alloc, parts),
        Production::FunctionDeclaration => function_declaration(alloc, parts),
        Production::ClassDeclaration => class_declaration(alloc, parts),
        Production::LexicalDeclaration => declaration_statement(alloc, parts),
        _ => part_form(alloc, source, production, parts),
    }
}

/// The form of a part of a statement, or as `binding_form` says.
#[tactic(auto, unfolding(crate::specs::Forms::part_form))]
fn part_form(
    alloc: Global,
    source: &[u8],
    production: Production,
    parts: &mut Queue<Phrase>,
) -> Result<Phrase, OutOfMemory>
    ensures { IfOk result (λ p. p ≡ spec.part_form source.now production parts.old) }
{
    match production {
        Production::ForVar => for_declaration(alloc, parts),
        Production::ForLexical => for_declaration(alloc, parts),
        Production::ForWithoutInit => for_without_init(alloc, parts),
        Production::ForWithInit => for_with_init(alloc, parts),
        Production::ForOf => for_of(alloc, parts),
        Production::ForIn => for_in(alloc, parts),
        Production::LabelIdentifier => binding_identifier(alloc, source, parts),
        Production::CaseClause => case_clause(alloc, parts),
        Production::DefaultClause => default_clause(alloc, parts),
        Production::CatchClause => catch_clause(alloc, parts),
        Production::CatchParameter => Ok(second_part(parts)),
        Production::FinallyClause => finally_clause(alloc, parts),
        Production::Module => function_body(alloc, parts),
        Production::Source => Ok(parts.next()),
        _ => binding_form(alloc, source, production, parts),
    }
}

/// The form of a binding, or as `class_form` says.
#[tactic(auto, unfolding(crate::specs::Forms::binding_form))]
fn binding_form(
    alloc: Global,
    source: &[u8],
    production: Production,
    parts: &mut Queue<Phrase>,
) -> Result<Phrase, OutOfMemory>
    ensures { IfOk result (λ p. p ≡ spec.binding_form source.now production parts.old) }
{
    match production {
        Production::BindingIdentifier => binding_identifier(alloc, source, parts),
        Production::ObjectBindingPattern => object_binding_pattern(alloc, parts),
        Production::ArrayBindingPattern => array_binding_pattern(alloc, parts),
        Production::CommaBindingElement => Ok(comma_binding_element(parts)),
        Production::BindingElement => binding_element(alloc, parts),
        Production::BindingRestElement => binding_rest(alloc, parts),
        Production::CommaBindingRestElement => Ok(second_part(parts)),
        Production::BindingRestProperty => binding_rest(alloc, parts),
        Production::NamedBindingProperty => named_binding_property(alloc, source, parts),
        Production::KeyedBindingProperty => keyed_binding_property(alloc, parts),
        Production::BindingPropertyValue => Ok(second_part(parts)),
        Production::Initializer => initializer(alloc, parts),
        Production::InitializerNoIn => initializer(alloc, parts),
        Production::VariableDeclaration => binding_element(alloc, parts),
        Production::VariableDeclarationNoIn => binding_element(alloc, parts),
        Production::CommaVariableDeclaration => Ok(second_part(parts)),
        Production::CommaVariableDeclarationNoIn => Ok(second_part(parts)),
        _ => class_form(alloc, source, production, parts),
    }
}

/// The form of a function, a class or a part of one.
#[tactic(auto, unfolding(crate::specs::Forms::class_form))]
fn class_form(
    alloc: Global,
    source: &[u8],
    production: Production,
    parts: &mut Queue<Phrase>,
) -> Result<Phrase, OutOfMemory>
    ensures { IfOk result (λ p. p ≡ spec.class_form source.now production parts.old) }
{
    match production {
        Production::FunctionExpression => function_expression(alloc, parts),
        Production::FormalParameters => formal_parameters(alloc, parts),
        Production::FunctionBody => function_body(alloc, parts),
        Production::ClassExpression => class_expression(alloc, parts),
        Production::ClassHeritage => class_heritage(alloc, parts),
        Production::MethodTail => method_tail(alloc, parts),
        Production::Method => method(alloc, parts),
        Production::StaticMethod => method(alloc, parts),
        Production::StaticNamedMethod => static_named_method(alloc, source, parts),
        Production::StaticElement => static_element(alloc, parts),
        Production::EmptyClassElement => Ok(Phrase::Absent),
        Production::Getter => getter(alloc, parts),
        Production::Setter => setter(alloc, parts),
        _ => expression_form(alloc, source, production, parts),
    }
}
