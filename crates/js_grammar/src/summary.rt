// What is to be known of the parts of a production.
ghost use Rattle.std.specs.Prelude.{◌≡◌, ◌&&◌, ◌||◌, not, cond, max};
ghost use Rattle.js_grammar.specs.Fits.{is_cover, is_initialized_name, is_parenthesized, is_cover_comma, is_cover_rest, is_property, is_literal, is_identifier, is_inner, is_free, is_spread_element, is_spread_property, is_assignment, is_comma_element, is_super, is_super_call, is_new, is_if, ends_with_statement, is_binding_pattern, is_initializer, is_for_binding, is_for_declaration, is_closing_parenthesis, is_comma, is_async_of, is_proto, first_some, if_first, is_async_first, is_proto_first, ends_well, is_proper, is_super_property, super_part, is_value_or_pattern, is_target, is_bindable, rest_pattern, rest_binding, part_pattern, part_binding, ends_pattern, is_closed, empty_summary, one_more, with_absent, with_leaf, with_node, is_lone_declaration, is_super_target, has_proto, is_literal_pattern, refined_by};
ghost use Rattle.js_grammar.specs.Guarded.{is_guarded};
ghost use Rattle.js_grammar.specs.Flat.{led_by, fit_by};

use crate::constituents::Lookahead;
use crate::left_out::LeftOut;
use crate::lexeme::Lexeme;
use crate::nesting::{deeper, first_form, forms_in, height};
use crate::rules::{guard, guard_at_start, has_production};
use crate::symbols::{Nonterminal, Production, Terminal};

/// Up to how many parts of a production are counted.
pub const MAX_PARTS: u32 = u32::MAX;

/// What is to be known of the parts of a production that stand.
#[derive(Clone, Copy, Drop)]
pub struct Summary {
    /// They are expressions, and none is a pattern alone.
    pub proper: bool,
    /// Parentheses, or a comma in them, end with a value.
    pub valued: bool,
    /// No `if` without `else` stands at the right edge.
    pub closed: bool,
    /// The last part is no `new` without arguments.
    pub called_new: bool,
    /// A literal's parts may be those of an assignment pattern.
    pub pattern: bool,
    /// A literal's or a pair of parentheses' parts may be those of a binding pattern or of parameters.
    pub binding: bool,
    /// A spread element or property stands.
    pub ended: bool,
    /// The last part may be assigned to.
    pub target: bool,
    /// The last part may be bound.
    pub bindable: bool,
    /// The last part is an array or object literal.
    pub literal: bool,
    /// The first part may be bound.
    pub first_bindable: bool,
    /// The last part is the arguments of `super`.
    pub called: bool,
    /// The last part is `super.a` or `super[a]`.
    pub super_property: bool,
    /// A part would be a property of `super` to assign to, if the literal were a pattern.
    pub super_target: bool,
    /// The last part is a binding pattern.
    pub binding_pattern: bool,
    /// An initializer stands.
    pub initialized: bool,
    /// One binding of a `for` stands, without an initializer.
    pub lone: bool,
    /// A binding of a `for` is a pattern without an initializer.
    pub lacks: bool,
    /// A part stands.
    pub has_part: bool,
    /// How many levels the first part is.
    pub first_height: u16,
    /// How many levels the deepest of the other parts is.
    pub height: u16,
    /// The first part may be assigned to in ECMA-262 alone: it is a property of `super`, or has one to assign to.
    pub super_first: bool,
    /// The first part has a property `__proto__: v`, and may be no assignment pattern itself.
    pub proto_value: bool,
    /// The first part has a property `__proto__: v`.
    pub proto_first: bool,
    /// Another part has a property `__proto__: v`.
    pub proto_rest: bool,
    /// A form that is left out and that stands in a part.
    pub left_out: Option<LeftOut>,
    /// How many parts stand, tokens and parts that are left out among them; `MAX_PARTS` stands for as many and more.
    pub parts: u32,
    /// The first token.
    pub first: Option<Lexeme>,
}

/// Literals, parentheses and what stands in them, which may be patterns.
#[tactic(auto, unfolding(crate::specs::Fits::is_cover))]
fn is_cover(production: Production) -> bool
    ensures { result ≡ is_cover production }
{
    matches!(
        production,
        Production::ArrayLiteral
            | Production::CommaElement
            | Production::SpreadElement
            | Production::SpreadProperty
            | Production::ObjectLiteral
            | Production::NamedProperty
            | Production::KeyedProperty
            | Production::PropertyValue
            | Production::CoverInitializedName
            | Production::CoverParenthesized
            | Production::CoverComma
    )
}

/// A name with an initializer, which only a pattern has.
#[tactic(auto, unfolding(crate::specs::Fits::is_initialized_name))]
fn is_initialized_name(production: Production) -> bool
    ensures { result ≡ is_initialized_name production }
{
    matches!(production, Production::CoverInitializedName)
}

/// A pair of parentheses.
#[tactic(auto, unfolding(crate::specs::Fits::is_parenthesized))]
fn is_parenthesized(production: Production) -> bool
    ensures { result ≡ is_parenthesized production }
{
    matches!(production, Production::CoverParenthesized)
}

/// A comma in parentheses.
#[tactic(auto, unfolding(crate::specs::Fits::is_cover_comma))]
fn is_cover_comma(production: Production) -> bool
    ensures { result ≡ is_cover_comma production }
{
    matches!(production, Production::CoverComma)
}

/// A rest parameter in parentheses.
#[tactic(auto, unfolding(crate::specs::Fits::is_cover_rest))]
fn is_cover_rest(production: Production) -> bool
    ensures { result ≡ is_cover_rest production }
{
    matches!(production, Production::CoverRest)
}

/// A property that may be a `__proto__: v`.
#[tactic(auto, unfolding(crate::specs::Fits::is_property))]
fn is_property(production: Production) -> bool
    ensures { result ≡ is_property production }
{
    matches!(
        production,
        Production::NamedProperty | Production::KeyedProperty
    )
}

/// An array or object literal.
#[tactic(auto, unfolding(crate::specs::Fits::is_literal))]
fn is_literal(production: Production) -> bool
    ensures { result ≡ is_literal production }
{
    matches!(
        production,
        Production::ArrayLiteral | Production::ObjectLiteral
    )
}

/// A name.
#[tactic(auto, unfolding(crate::specs::Fits::is_identifier))]
fn is_identifier(production: Production) -> bool
    ensures { result ≡ is_identifier production }
{
    matches!(production, Production::IdentifierReference)
}

/// What is a pattern as far as its own parts are.
#[tactic(auto, unfolding(crate::specs::Fits::is_inner))]
fn is_inner(production: Production) -> bool
    ensures { result ≡ is_inner production }
{
    matches!(
        production,
        Production::CommaElement
            | Production::NamedProperty
            | Production::KeyedProperty
            | Production::PropertyValue
            | Production::CoverComma
    )
}

/// What stands in a pattern as it does in a literal.
#[tactic(auto, unfolding(crate::specs::Fits::is_free))]
fn is_free(production: Production) -> bool
    ensures { result ≡ is_free production }
{
    matches!(
        production,
        Production::CoverInitializedName
            | Production::ReservedWordName
            | Production::StringName
            | Production::NumericName
            | Production::ComputedPropertyName
            | Production::CoverRest
    )
}

/// `...` in an array.
#[tactic(auto, unfolding(crate::specs::Fits::is_spread_element))]
fn is_spread_element(production: Production) -> bool
    ensures { result ≡ is_spread_element production }
{
    matches!(production, Production::SpreadElement)
}

/// `...` in an object.
#[tactic(auto, unfolding(crate::specs::Fits::is_spread_property))]
fn is_spread_property(production: Production) -> bool
    ensures { result ≡ is_spread_property production }
{
    matches!(production, Production::SpreadProperty)
}

/// An assignment.
#[tactic(auto, unfolding(crate::specs::Fits::is_assignment))]
fn is_assignment(production: Production) -> bool
    ensures { result ≡ is_assignment production }
{
    matches!(production, Production::Assignment)
}

/// An element of an array, but the first.
#[tactic(auto, unfolding(crate::specs::Fits::is_comma_element))]
fn is_comma_element(production: Production) -> bool
    ensures { result ≡ is_comma_element production }
{
    matches!(production, Production::CommaElement)
}

/// A property or call of `super`.
#[tactic(auto, unfolding(crate::specs::Fits::is_super))]
fn is_super(production: Production) -> bool
    ensures { result ≡ is_super production }
{
    matches!(production, Production::SuperPropertyOrCall)
}

/// The arguments of `super`.
#[tactic(auto, unfolding(crate::specs::Fits::is_super_call))]
fn is_super_call(production: Production) -> bool
    ensures { result ≡ is_super_call production }
{
    matches!(production, Production::SuperCall)
}

/// `new` without arguments.
#[tactic(auto, unfolding(crate::specs::Fits::is_new))]
fn is_new(production: Production) -> bool
    ensures { result ≡ is_new production }
{
    matches!(production, Production::New)
}

/// `if` without `else`.
#[tactic(auto, unfolding(crate::specs::Fits::is_if))]
fn is_if(production: Production) -> bool
    ensures { result ≡ is_if production }
{
    matches!(production, Production::IfStatement)
}

/// A statement that ends with a statement.
#[tactic(auto, unfolding(crate::specs::Fits::ends_with_statement))]
fn ends_with_statement(production: Production) -> bool
    ensures { result ≡ ends_with_statement production }
{
    matches!(
        production,
        Production::IfStatement
            | Production::IfElseStatement
            | Production::WhileStatement
            | Production::ForStatement
            | Production::LabelledStatement
    )
}

/// A binding pattern.
#[tactic(auto, unfolding(crate::specs::Fits::is_binding_pattern))]
fn is_binding_pattern(production: Production) -> bool
    ensures { result ≡ is_binding_pattern production }
{
    matches!(
        production,
        Production::ObjectBindingPattern | Production::ArrayBindingPattern
    )
}

/// An initializer.
#[tactic(auto, unfolding(crate::specs::Fits::is_initializer))]
fn is_initializer(production: Production) -> bool
    ensures { result ≡ is_initializer production }
{
    matches!(
        production,
        Production::Initializer | Production::InitializerNoIn
    )
}

/// A binding of a `for`.
#[tactic(auto, unfolding(crate::specs::Fits::is_for_binding))]
fn is_for_binding(production: Production) -> bool
    ensures { result ≡ is_for_binding production }
{
    matches!(production, Production::VariableDeclarationNoIn)
}

/// The bindings of a `for`.
#[tactic(auto, unfolding(crate::specs::Fits::is_for_declaration))]
fn is_for_declaration(production: Production) -> bool
    ensures { result ≡ is_for_declaration production }
{
    matches!(production, Production::ForVar | Production::ForLexical)
}

/// `)`.
#[tactic(auto, unfolding(crate::specs::Fits::is_closing_parenthesis))]
fn is_closing_parenthesis(terminal: Terminal) -> bool
    ensures { result ≡ is_closing_parenthesis terminal }
{
    matches!(terminal, Terminal::RightParenthesis)
}

/// A comma.
#[tactic(auto, unfolding(crate::specs::Fits::is_comma))]
fn is_comma(terminal: Terminal) -> bool
    ensures { result ≡ is_comma terminal }
{
    matches!(terminal, Terminal::Comma | Terminal::CommaRest)
}

/// `async` before `of`.
#[tactic(auto, unfolding(crate::specs::Fits::is_async_of))]
fn is_async_of(terminal: Terminal) -> bool
    ensures { result ≡ is_async_of terminal }
{
    matches!(terminal, Terminal::AsyncOf)
}

/// `__proto__` before `:`.
#[tactic(auto, unfolding(crate::specs::Fits::is_proto))]
fn is_proto(terminal: Terminal) -> bool
    ensures { result ≡ is_proto terminal }
{
    matches!(terminal, Terminal::ProtoColon | Terminal::ProtoString)
}

fn is_guarded(nonterminal: Nonterminal) -> bool
    ensures { result ≡ is_guarded nonterminal }
{
    !matches!(guard_at_start(nonterminal), Lookahead::Any)
}

fn first_some(before: Option<Lexeme>, lexeme: Option<Lexeme>) -> Option<Lexeme>
    ensures { result ≡ first_some before lexeme }
{
    match before {
        Some(first) => Some(first),
        None => lexeme,
    }
}

fn if_first(first: Option<Lexeme>, a: bool, b: bool) -> bool
    ensures { result ≡ if_first first a b }
{
    match first {
        None => a,
        Some(_) => b,
    }
}

fn is_async_first(first: Option<Lexeme>) -> bool
    ensures { result ≡ is_async_first first }
{
    match first {
        None => false,
        Some(lexeme) => is_async_of(lexeme.terminal),
    }
}

fn is_proto_first(first: Option<Lexeme>) -> bool
    ensures { result ≡ is_proto_first first }
{
    match first {
        None => false,
        Some(lexeme) => is_proto(lexeme.terminal),
    }
}

fn ends_well(production: Production, summary: Summary) -> bool
    ensures { result ≡ ends_well production summary }
{
    !(is_parenthesized(production) || is_cover_comma(production)) || summary.valued
}

/// Whether a tree is an expression, and no pattern alone.
fn is_proper(production: Production, summary: Summary) -> bool
    ensures { result ≡ is_proper production summary }
{
    !is_cover(production)
        || !is_initialized_name(production) && ends_well(production, summary) && summary.proper
}

fn is_super_property(production: Production, summary: Summary) -> bool
    ensures { result ≡ is_super_property production summary }
{
    is_super(production) && !summary.called
        || is_parenthesized(production) && summary.super_property
}

fn super_part(production: Production, parts: Summary) -> bool
    ensures { result ≡ super_part production parts }
{
    is_super_property(production, parts)
        || (is_inner(production)
            || is_spread_element(production)
            || is_spread_property(production)
            || is_literal(production))
            && parts.super_target
}

fn is_value_or_pattern(production: Production, summary: Summary) -> bool
    ensures { result ≡ is_value_or_pattern production summary }
{
    is_proper(production, summary) || is_literal(production) && summary.pattern
}

/// Whether a tree may be assigned to.
fn is_target(production: Production, summary: Summary) -> bool
    ensures { result ≡ is_target production summary }
{
    has_production(Nonterminal::LeftHandSideExpression, production)
        && is_value_or_pattern(production, summary)
}

/// Whether a tree may be bound.
fn is_bindable(production: Production, summary: Summary) -> bool
    ensures { result ≡ is_bindable production summary }
{
    is_identifier(production) || is_literal(production) && summary.binding
}

fn rest_pattern(production: Production, parts: Summary) -> bool
    ensures { result ≡ rest_pattern production parts }
{
    is_spread_element(production) && parts.target
        || is_spread_property(production) && parts.target && !parts.literal
}

fn rest_binding(production: Production, parts: Summary) -> bool
    ensures { result ≡ rest_binding production parts }
{
    is_spread_element(production) && parts.bindable
        || is_spread_property(production) && parts.bindable && !parts.literal
}

fn part_pattern(production: Production, parts: Summary) -> bool
    ensures { result ≡ part_pattern production parts }
{
    is_free(production)
        || is_inner(production) && parts.pattern
        || rest_pattern(production, parts)
        || is_assignment(production)
        || is_target(production, parts)
}

fn part_binding(production: Production, parts: Summary) -> bool
    ensures { result ≡ part_binding production parts }
{
    is_free(production)
        || is_inner(production) && parts.binding
        || rest_binding(production, parts)
        || is_assignment(production) && parts.first_bindable
        || is_bindable(production, parts)
}

/// The summary of no parts.
pub fn empty_summary() -> Summary
    ensures { result ≡ empty_summary }
{
    Summary {
        proper: true,
        valued: false,
        closed: true,
        called_new: false,
        pattern: true,
        binding: true,
        ended: false,
        target: false,
        bindable: false,
        literal: false,
        first_bindable: false,
        called: false,
        super_property: false,
        super_target: false,
        binding_pattern: false,
        initialized: false,
        lone: false,
        lacks: false,
        has_part: false,
        first_height: 0,
        height: 0,
        super_first: false,
        proto_value: false,
        proto_first: false,
        proto_rest: false,
        left_out: None,
        parts: 0,
        first: None,
    }
}

/// One more part, as far as parts are counted.
fn one_more(parts: u32) -> u32
    ensures { result ≡ one_more parts }
{
    if parts < MAX_PARTS { parts + 1 } else { parts }
}

/// The summary of some parts and one that is left out.
pub fn with_absent(summary: Summary) -> Summary
    ensures { result ≡ with_absent summary }
{
    let mut longer = summary;
    longer.parts = one_more(summary.parts);
    longer
}

/// The summary of some parts and a token.
pub fn with_leaf(summary: Summary, lexeme: Lexeme) -> Summary
    ensures { result ≡ with_leaf summary lexeme }
{
    let over = summary.ended && is_comma(lexeme.terminal);
    Summary {
        proper: summary.proper,
        valued: summary.valued && is_closing_parenthesis(lexeme.terminal),
        closed: true,
        called_new: false,
        pattern: summary.pattern && !over,
        binding: summary.binding && !over,
        ended: summary.ended,
        target: summary.target,
        bindable: summary.bindable,
        literal: summary.literal,
        first_bindable: summary.first_bindable,
        called: summary.called,
        super_property: summary.super_property && is_closing_parenthesis(lexeme.terminal),
        super_target: summary.super_target,
        binding_pattern: summary.binding_pattern,
        initialized: summary.initialized,
        lone: summary.lone,
        lacks: summary.lacks,
        has_part: summary.has_part,
        first_height: summary.first_height,
        height: summary.height,
        super_first: summary.super_first,
        proto_value: summary.proto_value,
        proto_first: summary.proto_first,
        proto_rest: summary.proto_rest,
        left_out: summary.left_out,
        parts: one_more(summary.parts),
        first: first_some(summary.first, Some(lexeme)),
    }
}

fn proper_with(summary: Summary, production: Production, parts: Summary) -> bool
    ensures { result ≡ (summary.proper && is_proper production parts) }
{
    summary.proper && is_proper(production, parts)
}

fn is_closed(production: Production, parts: Summary) -> bool
    ensures { result ≡ is_closed production parts }
{
    !ends_with_statement(production) || !is_if(production) && parts.closed
}

fn pattern_with(summary: Summary, production: Production, parts: Summary) -> bool
    ensures { result ≡ (summary.pattern && (not summary.ended && part_pattern production parts)) }
{
    summary.pattern && !summary.ended && part_pattern(production, parts)
}

fn binding_with(summary: Summary, production: Production, parts: Summary) -> bool
    ensures { result ≡ (summary.binding && (not summary.ended && part_binding production parts)) }
{
    summary.binding && !summary.ended && part_binding(production, parts)
}

fn ended_with(summary: Summary, production: Production, parts: Summary) -> bool
    ensures { result ≡ (summary.ended || ends_pattern production parts) }
{
    summary.ended
        || is_spread_element(production)
        || is_spread_property(production)
        || is_comma_element(production) && parts.ended
}

fn super_target_with(summary: Summary, production: Production, parts: Summary) -> bool
    ensures { result ≡ (summary.super_target || super_part production parts) }
{
    summary.super_target || super_part(production, parts)
}

fn initialized_with(summary: Summary, production: Production) -> bool
    ensures { result ≡ (summary.initialized || is_initializer production) }
{
    summary.initialized || is_initializer(production)
}

fn lone_node(production: Production, parts: Summary) -> bool
    ensures { result ≡ (is_for_binding production && not parts.initialized) }
{
    is_for_binding(production) && !parts.initialized
}

fn lacks_with(summary: Summary, production: Production, parts: Summary) -> bool
    ensures { result ≡ (summary.lacks || (is_for_binding production && parts.binding_pattern)) }
{
    summary.lacks || is_for_binding(production) && parts.binding_pattern
}

fn first_height_with(summary: Summary, deep: u16) -> u16
    ensures { result ≡ cond summary.has_part summary.first_height deep }
{
    if summary.has_part {
        summary.first_height
    } else {
        deep
    }
}

fn height_with(summary: Summary, deep: u16) -> u16
    ensures { result ≡ cond summary.has_part (max summary.height deep) summary.height }
{
    if summary.has_part {
        deeper(summary.height, deep)
    } else {
        summary.height
    }
}

fn is_super_target(production: Production, parts: Summary) -> bool
    ensures { result ≡ is_super_target production parts }
{
    is_super_property(production, parts) || is_literal(production) && parts.super_target
}

fn super_first_with(summary: Summary, production: Production, parts: Summary) -> bool
    ensures { let led = not summary.has_part && is_super_target production parts in
        result ≡ (summary.super_first || led) }
{
    summary.super_first || !summary.has_part && is_super_target(production, parts)
}

fn has_proto(production: Production, parts: Summary) -> bool
    ensures { result ≡ has_proto production parts }
{
    is_property(production) && is_proto_first(parts.first)
        || is_cover(production) && (parts.proto_first || parts.proto_rest)
}

fn proto_value_with(summary: Summary, proto: bool, production: Production, parts: Summary) -> bool
    ensures { let value = proto && not (is_literal_pattern production parts) in
        result ≡ (summary.proto_value || (not summary.has_part && value)) }
{
    summary.proto_value || !summary.has_part && proto && !(is_literal(production) && parts.pattern)
}

/// The summary of some parts and a tree.
pub fn with_node(summary: Summary, production: Production, parts: Summary) -> Summary
    ensures { result ≡ with_node summary production parts }
{
    let deep = height(production, parts);
    let proto = has_proto(production, parts);
    Summary {
        proper: proper_with(summary, production, parts),
        valued: !is_cover_rest(production),
        closed: is_closed(production, parts),
        called_new: !is_new(production),
        pattern: pattern_with(summary, production, parts),
        binding: binding_with(summary, production, parts),
        ended: ended_with(summary, production, parts),
        target: is_target(production, parts),
        bindable: is_bindable(production, parts),
        literal: is_literal(production),
        first_bindable: if_first(
            summary.first,
            is_bindable(production, parts),
            summary.first_bindable,
        ),
        called: is_super_call(production),
        super_property: is_super_property(production, parts),
        super_target: super_target_with(summary, production, parts),
        binding_pattern: is_binding_pattern(production),
        initialized: initialized_with(summary, production),
        lone: lone_node(production, parts),
        lacks: lacks_with(summary, production, parts),
        has_part: true,
        first_height: first_height_with(summary, deep),
        height: height_with(summary, deep),
        super_first: super_first_with(summary, production, parts),
        proto_value: proto_value_with(summary, proto, production, parts),
        proto_first: summary.proto_first || !summary.has_part && proto,
        proto_rest: summary.proto_rest || summary.has_part && proto,
        left_out: first_form(summary.left_out, forms_in(production, parts)),
        parts: one_more(summary.parts),
        first: first_some(summary.first, parts.first),
    }
}

fn is_lone_declaration(production: Production, summary: Summary) -> bool
    ensures { result ≡ is_lone_declaration production summary }
{
    is_for_declaration(production) && summary.lone
}

/// Whether a tree is what a nonterminal asks for, beside being of one of its productions.
#[tactic(auto, unfolding(crate::specs::Fits::refined_by))]
fn is_refined(nonterminal: Nonterminal, production: Production, summary: Summary) -> bool
    ensures { result ≡ refined_by nonterminal production summary }
{
    match nonterminal {
        Nonterminal::IfWithoutElse => summary.closed,
        Nonterminal::NewWithoutArguments => summary.called_new,
        Nonterminal::CoverAssignmentExpression
        | Nonterminal::CoverElement
        | Nonterminal::CoverExpression
        | Nonterminal::CoverCommaTail
        | Nonterminal::PropertyDefinition
        | Nonterminal::PropertyTail
        | Nonterminal::KeyedPropertyTail
        | Nonterminal::CommaElement => true,
        Nonterminal::CoverCommaHead => !is_cover_comma(production) || summary.valued,
        Nonterminal::AssignmentTarget => is_target(production, summary),
        Nonterminal::ArrowParameters => is_identifier(production) || summary.binding,
        Nonterminal::VariableDeclaration | Nonterminal::VariableDeclarationNoIn =>
            !summary.binding_pattern,
        Nonterminal::ForOfTarget => is_lone_declaration(production, summary)
            || is_target(production, summary)
                && !(is_identifier(production) && is_async_first(summary.first)),
        Nonterminal::ForInTarget => is_lone_declaration(production, summary)
            || is_target(production, summary),
        Nonterminal::ForInit => is_proper(production, summary) && !summary.lacks,
        _ => is_proper(production, summary),
    }
}

/// Whether a tree begins as a nonterminal may.
#[tactic(auto, using(crate::proofs::Pushed::led_unguarded))]
fn begins_as_asked(nonterminal: Nonterminal, first: Option<Lexeme>) -> bool
    ensures { result ≡ led_by nonterminal first }
{
    if !is_guarded(nonterminal) {
        return true;
    }
    match first {
        Some(lexeme) => guard(nonterminal, lexeme.terminal, lexeme.after_line),
        None => true,
    }
}

/// Whether a whole tree of a production is in a nonterminal.
pub fn fits(nonterminal: Nonterminal, production: Production, summary: Summary) -> bool
    ensures { result ≡ fit_by nonterminal production summary }
{
    has_production(nonterminal, production)
        && is_refined(nonterminal, production, summary)
        && begins_as_asked(nonterminal, summary.first)
}
