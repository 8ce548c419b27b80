// What each production of an expression makes of what its parts have become.

ghost use Rattle.std.specs.Prelude.{◌≡◌, IfOk};
ghost use Rattle.js_parser.specs.ExpressionForms as spec;

use js_grammar::symbols::Production;
use js_phrase::phrase::Phrase;
use js_phrase::queue::Queue;
use js_stmt::js_expr::arrays::{array_literal, comma_element, spread};
use js_stmt::js_expr::arrows::{arrow_function, expression_body};
use js_stmt::js_expr::assignments::{assignment, operator_assignment};
use js_stmt::js_expr::commas::comma_expression;
use js_stmt::js_expr::covers::{cover_comma, cover_parenthesized, cover_rest};
use js_stmt::js_expr::literals::{
    null_or_boolean, numeric_literal, string_literal, this_expression,
};
use js_stmt::js_expr::members::{
    call_expression, call_step, key_step, member_key, member_name, optional_expression,
    optional_name,
};
use js_stmt::js_expr::names::identifier_reference;
use js_stmt::js_expr::news::{
    new_expression, new_target, new_with_arguments, super_expression, super_name,
};
use js_stmt::js_expr::objects::{
    cover_initialized_name, keyed_property, named_property, object_literal, property_value,
};
use js_stmt::js_expr::operations::{
    binary, conditional, logical, postfix_update, prefix_update, unary,
};
use js_stmt::js_expr::property_names::{
    computed_property_name, numeric_name, string_name, word_name,
};
use js_stmt::js_expr::templates::{
    no_substitution_template, substitution_template, template_middle,
};
use lava_base::memory::OutOfMemory;
use std::alloc::Global;

/// Names and literals, and what stands between parentheses; an absent phrase for other productions.
fn literal_form(
    alloc: Global,
    source: &[u8],
    production: Production,
    parts: &mut Queue<Phrase>,
) -> Result<Phrase, OutOfMemory>
    ensures { IfOk result (λ p. p ≡ spec.literal_form source.now production parts.old) }
{
    match production {
        Production::IdentifierReference => identifier_reference(alloc, source, parts),
        Production::This => this_expression(alloc, parts),
        Production::NumericLiteral => numeric_literal(alloc, source, parts),
        Production::StringLiteral => string_literal(alloc, source, parts),
        Production::NullOrBooleanLiteral => null_or_boolean(alloc, parts),
        Production::NoSubstitutionTemplate => no_substitution_template(alloc, source, parts),
        Production::SubstitutionTemplate => substitution_template(alloc, source, parts),
        Production::TemplateMiddle => template_middle(alloc, source, parts),
        Production::ArrayLiteral => array_literal(alloc, parts),
        Production::CommaElement => comma_element(alloc, parts),
        Production::SpreadElement | Production::SpreadProperty | Production::SpreadArgument =>
            spread(alloc, parts),
        Production::ObjectLiteral => object_literal(alloc, parts),
        Production::CoverParenthesized => cover_parenthesized(alloc, parts),
        Production::CoverComma => cover_comma(alloc, parts),
        Production::CoverRest => cover_rest(alloc, parts),
        _ => Ok(Phrase::Absent),
    }
}

/// Properties, and what they are called.
fn property_form(
    alloc: Global,
    source: &[u8],
    production: Production,
    parts: &mut Queue<Phrase>,
) -> Result<Phrase, OutOfMemory>
    ensures { IfOk result (λ p. p ≡ spec.property_form source.now production parts.old) }
{
    match production {
        Production::AnyWordName
        | Production::ReservedWordName
        | Production::ClassWordName
        | Production::StaticWordName => word_name(alloc, source, parts),
        Production::StringName => string_name(alloc, source, parts),
        Production::NumericName => numeric_name(alloc, source, parts),
        Production::ComputedPropertyName => computed_property_name(alloc, parts),
        Production::NamedProperty => named_property(alloc, source, parts),
        Production::KeyedProperty => keyed_property(alloc, parts),
        Production::PropertyValue => property_value(alloc, parts),
        Production::CoverInitializedName => cover_initialized_name(alloc, parts),
        _ => literal_form(alloc, source, production, parts),
    }
}

/// Members and calls, `new` and `super`.
fn member_form(
    alloc: Global,
    source: &[u8],
    production: Production,
    parts: &mut Queue<Phrase>,
) -> Result<Phrase, OutOfMemory>
    ensures { IfOk result (λ p. p ≡ spec.member_form source.now production parts.old) }
{
    match production {
        Production::NewMemberName | Production::MemberName => member_name(alloc, source, parts),
        Production::NewMemberKey | Production::MemberKey => member_key(alloc, parts),
        Production::Call => call_expression(alloc, parts),
        Production::OptionalChain => optional_expression(alloc, parts),
        Production::OptionalName => optional_name(alloc, source, parts),
        Production::SuperName => super_name(alloc, source, parts),
        Production::OptionalKey | Production::SuperKey => key_step(alloc, parts),
        Production::OptionalCall | Production::SuperCall => call_step(alloc, parts),
        Production::NewSuperProperty | Production::SuperPropertyOrCall => super_expression(
            alloc, parts,
        ),
        Production::NewTarget => new_target(alloc, parts),
        Production::New => new_expression(alloc, parts),
        Production::NewWithArguments => new_with_arguments(alloc, parts),
        _ => property_form(alloc, source, production, parts),
    }
}

/// Operators between two operands.
fn operation_form(
    alloc: Global,
    source: &[u8],
    production: Production,
    parts: &mut Queue<Phrase>,
) -> Result<Phrase, OutOfMemory>
    ensures { IfOk result (λ p. p ≡ spec.operation_form source.now production parts.old) }
{
    match production {
        Production::Exponentiation
        | Production::Multiplicative
        | Production::Additive
        | Production::Shift
        | Production::Relational
        | Production::RelationalNoIn
        | Production::In
        | Production::Equality
        | Production::EqualityNoIn
        | Production::BitwiseAnd
        | Production::BitwiseAndNoIn
        | Production::BitwiseXor
        | Production::BitwiseXorNoIn
        | Production::BitwiseOr
        | Production::BitwiseOrNoIn => binary(alloc, parts),
        Production::LogicalAnd
        | Production::LogicalAndNoIn
        | Production::LogicalOr
        | Production::LogicalOrNoIn
        | Production::Coalesce
        | Production::CoalesceNoIn => logical(alloc, parts),
        _ => member_form(alloc, source, production, parts),
    }
}

/// What a production of an expression makes of its parts, the first one first; an absent phrase for any other production.
///
/// It takes what it needs of the parts, and need not leave the queue empty. A token that is no text of the source, or one of more units
/// than a text may have, is answered by want of memory.
pub fn expression_form(
    alloc: Global,
    source: &[u8],
    production: Production,
    parts: &mut Queue<Phrase>,
) -> Result<Phrase, OutOfMemory>
    ensures { IfOk result (λ p. p ≡ spec.expression_form source.now production parts.old) }
{
    match production {
        Production::Unary => unary(alloc, parts),
        Production::PrefixUpdate => prefix_update(alloc, parts),
        Production::PostfixUpdate => postfix_update(alloc, parts),
        Production::Conditional | Production::ConditionalNoIn => conditional(alloc, parts),
        Production::Assignment | Production::AssignmentNoIn => assignment(alloc, parts),
        Production::OperatorAssignment | Production::OperatorAssignmentNoIn => operator_assignment(
            alloc, parts,
        ),
        Production::ArrowFunction | Production::ArrowFunctionNoIn => arrow_function(alloc, parts),
        Production::ExpressionBody | Production::ExpressionBodyNoIn => expression_body(
            alloc, parts,
        ),
        Production::Comma | Production::CommaNoIn => comma_expression(alloc, parts),
        _ => operation_form(alloc, source, production, parts),
    }
}
