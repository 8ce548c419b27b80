// Whether a lexeme would be taken, without a change.
ghost use Rattle.std.specs.Prelude.{◌≡◌, ◌∷◌, []};
ghost use Rattle.js_grammar.specs.Table.{rule_of, forms_of};
ghost use Rattle.js_grammar.specs.Would.{opened_would, onward_would, wrapped_would, put_would, complete_would, would};
ghost use Rattle.js_grammar.specs.Moves.{shapes_of, rest_of};
ghost use Rattle.js_grammar.specs.Looks.{Looks_so, put_looks, stood_looks};

use crate::constituents::Constituent;
use crate::lexeme::Lexeme;
use crate::open::{OpenProduction, Remainder, remainder_after, remainder_of};
use crate::rules::{Opening, ends_list, is_among, openings, operator, rule};
use crate::summary::{Summary, fits, with_absent, with_node};
use crate::symbols::{Nonterminal, Production};

#[derive(Clone, Copy, Drop)]
pub enum Prospect {
    Yes,
    No,
    Ended(Production, Summary),
}

/// Whether a production begins with the lexeme.
fn would_begin(production: Production, lexeme: Lexeme) -> bool
    ensures { result ≡ opened_would (production ∷ []) lexeme }
{
    match rule(production) {
        [Constituent::Token(set), ..] => is_among(lexeme.terminal, *set),
        _ => false,
    }
}

/// Whether the last of these productions begins with the lexeme.
pub fn would_open(opening: Opening, lexeme: Lexeme) -> bool
    ensures { result ≡ opened_would (forms_of opening) lexeme }
{
    match opening {
        Opening::Nothing => false,
        Opening::One(production) | Opening::Both(_, production) => would_begin(production, lexeme),
    }
}

fn would_advance(
    production: Production,
    summary: Summary,
    to_come: Remainder,
    lexeme: Lexeme,
) -> Prospect
    ensures { Looks_so (λ k. onward_would k production summary (rest_of to_come) lexeme) result }
{
    let later = to_come.later;
    match to_come.next {
        None => Prospect::Ended(production, summary),
        Some(Constituent::Token(set)) => {
            if is_among(lexeme.terminal, set) {
                Prospect::Yes
            } else {
                Prospect::No
            }
        },
        Some(Constituent::Part(nonterminal)) => {
            if would_open(
                openings(nonterminal, lexeme.terminal, lexeme.after_line),
                lexeme,
            ) {
                Prospect::Yes
            } else {
                Prospect::No
            }
        },
        Some(Constituent::Optional(nonterminal, _)) => {
            let opened = openings(nonterminal, lexeme.terminal, lexeme.after_line);
            if matches!(opened, Opening::Nothing) {
                let passed = with_absent(summary);
                return would_advance(production, passed, remainder_of(later), lexeme);
            }
            {
                if would_open(opened, lexeme) {
                    Prospect::Yes
                } else {
                    Prospect::No
                }
            }
        }
        Some(Constituent::Further(_, set)) => {
            if is_among(lexeme.terminal, set) {
                return Prospect::Yes;
            }
            let passed = with_absent(summary);
            would_advance(production, passed, remainder_of(later), lexeme)
        }
    }
}

fn would_wrap(outer: Production, inner: Production, parts: Summary, lexeme: Lexeme) -> bool
    ensures { result ≡ wrapped_would (rule_of outer) inner parts lexeme }
{
    match rule(outer) {
        [Constituent::Part(nonterminal), Constituent::Token(set), ..] => fits(
            *nonterminal,
            inner,
            parts,
        ) && is_among(lexeme.terminal, *set),
        _ => false,
    }
}

fn would_stand(
    top: OpenProduction,
    nonterminal: Nonterminal,
    behind: Remainder,
    inner: Production,
    parts: Summary,
    lexeme: Lexeme,
) -> Prospect
    ensures { Looks_so (stood_looks top nonterminal behind inner parts lexeme) result }
{
    if let Some(outer) = operator(nonterminal, inner, lexeme.terminal) {
        return if would_wrap(outer, inner, parts, lexeme) {
            Prospect::Yes
        } else {
            Prospect::No
        };
    }
    if !fits(nonterminal, inner, parts) {
        return Prospect::No;
    }
    let summary = with_node(top.summary, inner, parts);
    would_advance(top.production, summary, behind, lexeme)
}

fn would_place(top: OpenProduction, inner: Production, parts: Summary, lexeme: Lexeme) -> Prospect
    ensures { Looks_so (put_looks top inner parts lexeme) result }
{
    let later = top.rest.later;
    match top.rest.next {
        Some(Constituent::Part(nonterminal)) => {
            would_stand(top, nonterminal, remainder_of(later), inner, parts, lexeme)
        }
        Some(Constituent::Optional(nonterminal, repetition)) => {
            let behind = remainder_after(ends_list(inner), nonterminal, repetition, later);
            would_stand(top, nonterminal, behind, inner, parts, lexeme)
        }
        _ => Prospect::No,
    }
}

#[tactic(auto, using(crate::proofs::Reversed::reverse_push))]
fn would_complete(
    items: &[OpenProduction],
    inner: Production,
    parts: Summary,
    lexeme: Lexeme,
) -> bool
    ensures { result ≡ complete_would (shapes_of items.now) inner parts lexeme }
{
    match items {
        [] => false,
        [below @ .., top] => match would_place(*top, inner, parts, lexeme) {
            Prospect::Yes => true,
            Prospect::No => false,
            Prospect::Ended(production, summary) => would_complete(
                below, production, summary, lexeme,
            ),
        },
    }
}

/// Whether a lexeme would be taken.
#[tactic(auto, using(crate::proofs::Reversed::reverse_push))]
pub fn is_taken(items: &[OpenProduction], lexeme: Lexeme) -> bool
    ensures { result ≡ would (shapes_of items.now) lexeme }
{
    match items {
        [] => false,
        [below @ .., top] => match would_advance(top.production, top.summary, top.rest, lexeme) {
            Prospect::Yes => true,
            Prospect::No => false,
            Prospect::Ended(production, summary) => would_complete(
                below, production, summary, lexeme,
            ),
        },
    }
}
