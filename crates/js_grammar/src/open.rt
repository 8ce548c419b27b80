// Open productions: those of a partial tree that are not over.
ghost use Rattle.std.specs.Prelude.{◌≡◌};
ghost use Rattle.js_grammar.specs.Grammar.{follow};
ghost use Rattle.js_grammar.specs.Fits.{with_absent};
ghost use Rattle.js_grammar.specs.Flat.{nesting_on};
ghost use Rattle.js_grammar.specs.Moves.{rest_of, shapes_of};

use crate::constituents::{Constituent, Repetition};
use crate::nesting::{Nesting, nested, outermost};
use crate::summary::{Summary, with_absent};
use crate::symbols::{Nonterminal, Production};

/// The constituents of a production that are to come: the next one, and those behind it.
#[derive(Clone, Copy, Drop)]
pub struct Remainder {
    pub next: Option<Constituent>,
    pub later: &'static [Constituent],
}

/// An open production: what is to be known of its parts that stand and of what is open around it, and the constituents to come.
#[derive(Clone, Copy, Drop)]
pub struct OpenProduction {
    pub production: Production,
    pub summary: Summary,
    pub nesting: Nesting,
    pub rest: Remainder,
}

/// The same production with its parts so far, before these constituents.
pub fn with_remainder(top: OpenProduction, rest: Remainder) -> OpenProduction
    ensures { result ≡ record top { rest = rest } }
{
    OpenProduction {
        production: top.production,
        summary: top.summary,
        nesting: top.nesting,
        rest,
    }
}

/// The same production with one part more, which is left out, before these constituents.
pub fn without_part(top: OpenProduction, rest: Remainder) -> OpenProduction
    ensures { result ≡ record top { summary = with_absent top.summary; rest = rest } }
{
    OpenProduction {
        production: top.production,
        summary: with_absent(top.summary),
        nesting: top.nesting,
        rest,
    }
}

/// What is to be known around what is opened next.
#[tactic(auto, using(crate::proofs::Reversed::reverse_push))]
pub fn nesting_on(stack: &[OpenProduction]) -> Nesting
    ensures { result ≡ nesting_on (shapes_of stack.now) }
{
    match stack {
        [] => outermost(),
        [.., top] => nested(top.production, top.summary, top.nesting),
    }
}

/// The constituents as they stand in a rule.
pub fn remainder_of(rule: &'static [Constituent]) -> Remainder
    ensures { rest_of result ≡ rule.now }
{
    match rule {
        [] => Remainder {
            next: None,
            later: &[],
        },
        [next, later @ ..] => Remainder {
            next: Some(*next),
            later,
        },
    }
}

/// The constituents that are to come after an optional part that stands. `over` says that it is the last of its list.
pub fn remainder_after(
    over: bool,
    nonterminal: Nonterminal,
    repetition: Repetition,
    later: &'static [Constituent],
) -> Remainder
    ensures { rest_of result ≡ follow over nonterminal repetition later.now }
{
    match repetition {
        Repetition::Once => {
            if over {
                match later {
                    [] => remainder_of(later),
                    [_, behind @ ..] => remainder_of(behind),
                }
            } else {
                remainder_of(later)
            }
        }
        Repetition::Many => {
            if over {
                remainder_of(later)
            } else {
                Remainder {
                    next: Some(Constituent::Optional(nonterminal, repetition)),
                    later,
                }
            }
        }
        Repetition::Listed(set) => {
            if over {
                remainder_of(later)
            } else {
                Remainder {
                    next: Some(Constituent::Further(nonterminal, set)),
                    later,
                }
            }
        }
    }
}
