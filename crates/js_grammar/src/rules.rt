// What the table says of productions, nonterminals and terminals.
ghost use Rattle.std.specs.Prelude.{◌≡◌};
ghost use Rattle.js_grammar.specs.Table.{rule_of, levels_of, lead_levels_of, form_of, ends_of, stands_of, members_of, may_members, has_members, may_of, has_of, guards, guard_at_start, guard_of, heads_of, operators_at, firsts_of, pick, wrap_of, first_in, inner_of, opened_by, start_of, forms_of};

use crate::constituents::{Constituent, Lookahead, Productions, Terminals};
use crate::heads::HEADS;
use crate::left_out::LeftOut;
use crate::symbols::{Nonterminal, Production, Terminal};
use crate::table::{LAST, LEFT_OUT, LEVELS, NONTERMINALS, RULES};

/// The parts of a production.
#[tactic(auto, unfolding(crate::specs::Table::rule_of))]
pub fn rule(production: Production) -> &'static [Constituent]
    ensures { result.now ≡ rule_of production }
{
    RULES[production as usize].1
}

/// How many levels a production is by itself.
#[tactic(auto, unfolding(crate::specs::Table::levels_of))]
pub fn levels(production: Production) -> u8
    ensures { result ≡ levels_of production }
{
    LEVELS[production as usize]
}

/// How many levels the first part of a production stands below what the production stands in.
#[tactic(auto, unfolding(crate::specs::Table::lead_levels_of))]
pub fn lead_levels(production: Production) -> u8
    ensures { result ≡ lead_levels_of production }
{
    match production {
        Production::IfElseStatement | Production::NewWithArguments => 0,
        _ => levels(production),
    }
}

/// The form that a production is, of those that the language leaves out.
#[tactic(auto, unfolding(crate::specs::Table::form_of))]
pub fn left_out_form(production: Production) -> Option<LeftOut>
    ensures { result ≡ form_of production }
{
    LEFT_OUT[production as usize]
}

/// Whether a list is over after the production.
#[tactic(auto, unfolding(crate::specs::Table::ends_of))]
pub fn ends_list(production: Production) -> bool
    ensures { result ≡ ends_of production }
{
    is_member(LAST, production)
}

/// Whether a terminal is what a set stands for.
#[tactic(auto, unfolding(crate::specs::Table::stands_of))]
pub fn is_among(terminal: Terminal, set: Terminals) -> bool
    ensures { result ≡ stands_of set terminal }
{
    let terminal = terminal as u8;
    match set {
        Terminals::Is(one) => one as u8 == terminal,
        Terminals::Between(from, to) => from as u8 <= terminal && terminal <= to as u8,
        Terminals::Either(a, b, c, d) => a as u8 <= terminal && terminal <= b as u8
            || c as u8 <= terminal && terminal <= d as u8,
    }
}

/// Whether a production is among these.
#[tactic(auto, unfolding(crate::specs::Table::members_of))]
fn is_member(productions: Productions, production: Production) -> bool
    ensures { result ≡ members_of productions production }
{
    let production = production as u8;
    match productions {
        Productions::Run(from, to) => from as u8 <= production && production <= to as u8,
        Productions::Runs(a, b, c, d) => a as u8 <= production && production <= b as u8
            || c as u8 <= production && production <= d as u8,
    }
}

/// The productions that a partial tree of a nonterminal may have.
#[tactic(auto, unfolding(crate::specs::Table::may_members))]
fn may_members(nonterminal: Nonterminal) -> Productions
    ensures { result ≡ may_members nonterminal }
{
    NONTERMINALS[nonterminal as usize].may
}

/// The productions of a nonterminal.
#[tactic(auto, unfolding(crate::specs::Table::has_members))]
fn has_members(nonterminal: Nonterminal) -> Productions
    ensures { result ≡ has_members nonterminal }
{
    NONTERMINALS[nonterminal as usize].has
}

/// How a nonterminal may begin.
#[tactic(auto, unfolding(crate::specs::Table::guard_at_start))]
pub fn guard_at_start(nonterminal: Nonterminal) -> Lookahead
    ensures { result ≡ guard_at_start nonterminal }
{
    NONTERMINALS[nonterminal as usize].lookahead
}

/// Whether a partial tree of a nonterminal may be of a production.
pub fn may_be(nonterminal: Nonterminal, production: Production) -> bool
    ensures { result ≡ may_of nonterminal production }
{
    is_member(may_members(nonterminal), production)
}

/// Whether a nonterminal has a production.
pub fn has_production(nonterminal: Nonterminal, production: Production) -> bool
    ensures { result ≡ has_of nonterminal production }
{
    is_member(has_members(nonterminal), production)
}

/// Whether a guard lets a lexeme pass.
#[tactic(auto, unfolding(crate::specs::Table::guards))]
fn may_begin(guard: Lookahead, terminal: Terminal, after_line: bool) -> bool
    ensures { result ≡ guards guard terminal after_line }
{
    match guard {
        Lookahead::Any => true,
        Lookahead::NotBrace => !matches!(terminal, Terminal::LeftBrace),
        Lookahead::NotDeclaration => !matches!(
            terminal,
            Terminal::LeftBrace
                | Terminal::Function
                | Terminal::Class
                | Terminal::OfColon
                | Terminal::NameColon
                | Terminal::ProtoColon
                | Terminal::TargetColon
        ),
        Lookahead::SameLine => !after_line,
    }
}

/// Whether a tree of a nonterminal may begin with a lexeme.
pub fn guard(nonterminal: Nonterminal, terminal: Terminal, after_line: bool) -> bool
    ensures { result ≡ guard_of nonterminal terminal after_line }
{
    may_begin(guard_at_start(nonterminal), terminal, after_line)
}

/// The production of a nonterminal that begins by a part.
#[tactic(auto, unfolding(crate::specs::Table::inner_of))]
fn through(nonterminal: Nonterminal) -> Option<Production>
    ensures { result ≡ inner_of nonterminal }
{
    NONTERMINALS[nonterminal as usize].through
}

/// The productions that begin by a terminal.
#[tactic(auto, unfolding(crate::specs::Table::heads_of))]
fn heads(terminal: Terminal) -> &'static [Production]
    ensures { result.now ≡ heads_of terminal }
{
    HEADS[terminal as usize].1
}

/// The productions that go on by a terminal behind their first part.
#[tactic(auto, unfolding(crate::specs::Table::operators_at))]
fn operators(terminal: Terminal) -> &'static [Production]
    ensures { result.now ≡ operators_at terminal }
{
    HEADS[terminal as usize].2
}

/// The first of these productions that a nonterminal may be.
fn first_in(nonterminal: Nonterminal, productions: &[Production]) -> Option<Production>
    ensures { result ≡ first_in nonterminal productions.now }
{
    match productions {
        [] => None,
        [production, rest @ ..] => {
            if may_be(nonterminal, *production) {
                Some(*production)
            } else {
                first_in(nonterminal, rest)
            }
        }
    }
}

/// Whether the first part of a production may be of another.
fn leads_with(production: Production, inner: Production) -> bool
    ensures { result ≡ firsts_of (rule_of production) inner }
{
    match rule(production) {
        [Constituent::Part(nonterminal), ..] => has_production(*nonterminal, inner),
        _ => false,
    }
}

fn pick_operator(
    nonterminal: Nonterminal,
    production: Production,
    operators: &[Production],
) -> Option<Production>
    ensures { result ≡ pick nonterminal production operators.now }
{
    match operators {
        [] => None,
        [operator, rest @ ..] => {
            if may_be(nonterminal, *operator) && leads_with(*operator, production) {
                Some(*operator)
            } else {
                pick_operator(nonterminal, production, rest)
            }
        }
    }
}

/// The production that a tree goes on as where a nonterminal is wanted, before a lexeme.
#[tactic(auto, unfolding(crate::specs::Table::wrap_of))]
pub fn operator(
    nonterminal: Nonterminal,
    production: Production,
    terminal: Terminal,
) -> Option<Production>
    ensures { result ≡ wrap_of nonterminal production terminal }
{
    pick_operator(nonterminal, production, operators(terminal))
}

/// The productions that a lexeme opens, the outermost first.
#[derive(Clone, Copy, Drop)]
pub enum Opening {
    Nothing,
    One(Production),
    Both(Production, Production),
}

/// What a lexeme opens as the first part of a production.
fn opened_by(production: Production, terminal: Terminal, after_line: bool) -> Opening
    ensures { forms_of result ≡ opened_by production (rule_of production) terminal after_line }
{
    match rule(production) {
        [Constituent::Part(nonterminal), ..] => {
            if guard(*nonterminal, terminal, after_line) {
                match first_in(*nonterminal, heads(terminal)) {
                    Some(inner) => Opening::Both(production, inner),
                    None => Opening::Nothing,
                }
            } else {
                Opening::Nothing
            }
        }
        _ => Opening::Nothing,
    }
}

/// The productions that a lexeme opens where a nonterminal is wanted.
#[tactic(auto, unfolding(crate::specs::Table::start_of, crate::specs::Table::opens_of))]
pub fn openings(nonterminal: Nonterminal, terminal: Terminal, after_line: bool) -> Opening
    ensures { forms_of result ≡ start_of nonterminal terminal after_line }
{
    if !guard(nonterminal, terminal, after_line) {
        return Opening::Nothing;
    }
    match first_in(nonterminal, heads(terminal)) {
        Some(production) => Opening::One(production),
        None => match through(nonterminal) {
            Some(production) => opened_by(production, terminal, after_line),
            None => Opening::Nothing,
        },
    }
}
