// How deep what stands is, and which form of those that are left out stands in it.
ghost use Rattle.std.specs.Prelude.{◌≡◌, ◌&&◌, max};
ghost use Rattle.js_grammar.specs.Nesting.{bounded, height_of, step_by, first_form, is_update, takes_pattern, takes_parameters, is_undecided, has_proto_value, when, left_out_by, forms_in, outermost, nested};
ghost use Rattle.js_grammar.specs.declared.left_out.LeftOut.TheVariants.{Super, Proto};

use crate::left_out::LeftOut;
use crate::rules::{lead_levels, left_out_form, levels};
use crate::summary::Summary;
use crate::symbols::Production;

/// How many levels a tree may have; one more is too deep.
pub const MAX_LEVELS: u16 = 256;

/// What is to be known of what is open around a production.
#[derive(Clone, Copy, Drop)]
pub struct Nesting {
    /// How many levels the production stands below; one more than a tree may have where something open around it is too deep.
    pub level: u16,
    /// A form that is left out, where one stands.
    pub left_out: Option<LeftOut>,
}

/// Levels, and one more than a tree may have for all that are too many.
fn bounded(levels: u32) -> u16
    ensures { result ≡ bounded levels }
{
    if levels <= MAX_LEVELS as u32 {
        levels as u16
    } else {
        MAX_LEVELS + 1
    }
}

/// The greater of two heights.
pub fn deeper(a: u16, b: u16) -> u16
    ensures { result ≡ max a b }
{
    if a < b { b } else { a }
}

fn greater(a: u32, b: u32) -> u32
    ensures { result ≡ max a b }
{
    if a < b { b } else { a }
}

/// How many levels a tree is by itself, from its production and its parts.
pub fn height(production: Production, summary: Summary) -> u16
    ensures { result ≡ height_of production summary }
{
    let others = levels(production) as u32 + summary.height as u32;
    let first = lead_levels(production) as u32 + summary.first_height as u32;
    bounded(greater(others, first))
}

/// How many levels the next part of a production stands below what the production stands in.
fn step(production: Production, summary: Summary) -> u8
    ensures { result ≡ step_by production summary }
{
    if summary.has_part {
        levels(production)
    } else {
        lead_levels(production)
    }
}

pub fn first_form(before: Option<LeftOut>, form: Option<LeftOut>) -> Option<LeftOut>
    ensures { result ≡ first_form before form }
{
    match before {
        Some(first) => Some(first),
        None => form,
    }
}

/// The form that is left out and that a production with these parts is.
fn left_out_by(production: Production, summary: Summary) -> Option<LeftOut>
    ensures { result ≡ left_out_by production summary }
{
    match left_out_form(production) {
        Some(form) => Some(form),
        None => left_out_parts(production, summary),
    }
}

/// A part with `__proto__: v` stands as a value.
fn has_proto_value(production: Production, summary: Summary) -> bool
    ensures { result ≡ has_proto_value production summary }
{
    if is_undecided(production) {
        return false;
    }
    if takes_pattern(production) {
        return summary.proto_rest || summary.proto_value;
    }
    summary.proto_rest || !takes_parameters(production) && summary.proto_first
}

/// The form that is left out and that the parts of a production show.
fn left_out_parts(production: Production, summary: Summary) -> Option<LeftOut>
    ensures { let update = is_update production && summary.super_first in
        result ≡ first_form (when update Super) (when (has_proto_value production summary) Proto) }
{
    if is_update(production) && summary.super_first {
        return Some(LeftOut::Super);
    }
    if has_proto_value(production, summary) {
        Some(LeftOut::Proto)
    } else {
        None
    }
}

/// What changes the value of its first part.
#[tactic(auto, unfolding(crate::specs::Nesting::is_update))]
fn is_update(production: Production) -> bool
    ensures { result ≡ is_update production }
{
    matches!(
        production,
        Production::Assignment
            | Production::AssignmentNoIn
            | Production::OperatorAssignment
            | Production::OperatorAssignmentNoIn
            | Production::PostfixUpdate
            | Production::PrefixUpdate
            | Production::ForOf
            | Production::ForIn
    )
}

/// What may have a literal as its first part that is an assignment pattern.
#[tactic(auto, unfolding(crate::specs::Nesting::takes_pattern))]
fn takes_pattern(production: Production) -> bool
    ensures { result ≡ takes_pattern production }
{
    matches!(
        production,
        Production::Assignment | Production::AssignmentNoIn | Production::ForOf | Production::ForIn
    )
}

/// What has parameters as its first part.
#[tactic(auto, unfolding(crate::specs::Nesting::takes_parameters))]
fn takes_parameters(production: Production) -> bool
    ensures { result ≡ takes_parameters production }
{
    matches!(
        production,
        Production::ArrowFunction | Production::ArrowFunctionNoIn
    )
}

/// What may yet be a pattern, and its parts with it.
#[tactic(auto, unfolding(crate::specs::Nesting::is_undecided))]
fn is_undecided(production: Production) -> bool
    ensures { result ≡ is_undecided production }
{
    matches!(
        production,
        Production::ArrayLiteral
            | Production::CommaElement
            | Production::SpreadElement
            | Production::SpreadProperty
            | Production::ObjectLiteral
            | Production::NamedProperty
            | Production::KeyedProperty
            | Production::PropertyValue
            | Production::CoverParenthesized
            | Production::CoverComma
    )
}

/// A form that is left out, in a production or in its parts.
pub fn forms_in(production: Production, summary: Summary) -> Option<LeftOut>
    ensures { result ≡ forms_in production summary }
{
    match summary.left_out {
        Some(form) => Some(form),
        None => left_out_by(production, summary),
    }
}

/// Nothing is open around.
pub fn outermost() -> Nesting
    ensures { result ≡ outermost }
{
    Nesting {
        level: 0,
        left_out: None,
    }
}

/// What is to be known around the next part of an open production.
pub fn nested(production: Production, summary: Summary, nesting: Nesting) -> Nesting
    ensures { result ≡ nested production summary nesting }
{
    let reached = nesting.level as u32 + height(production, summary) as u32;
    let level = if reached <= MAX_LEVELS as u32 {
        bounded(nesting.level as u32 + step(production, summary) as u32)
    } else {
        MAX_LEVELS + 1
    };
    Nesting {
        level,
        left_out: first_form(nesting.left_out, forms_in(production, summary)),
    }
}
