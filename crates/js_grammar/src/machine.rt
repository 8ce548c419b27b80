// The reader: a partial tree that takes one token after the other.
ghost use Rattle.std.specs.Prelude.{◌≡◌, ◌∷◌, [], ◌+◌, ◌<◌, length, take, true, Some, IfOk, reverse};
ghost use Rattle.js_grammar.specs.Flat.{fed_in};
ghost use Rattle.js_grammar.specs.Expressions.{expression_flat};
ghost use Rattle.js_grammar.specs.Laws.{from_flat};
ghost use Rattle.js_grammar.specs.Moves.{flat_in, shapes_of, shape_in, latest, begun_at, opened_at, leaf_at, part_at, stood_at, onward_at, turned_at, put_at, fed_at, Grows, Comes, Opens, Takes};
ghost use Rattle.js_grammar.specs.Profile.{is_too_deep, Tells_deep, left_out, Tells_form};
ghost use Rattle.js_grammar.specs.Table.{forms_of};
ghost use Rattle.js_grammar.specs.Would.{opened_would, would};

use crate::constituents::{Constituent, Repetition, Terminals};
use crate::event::Event;
use crate::left_out::LeftOut;
use crate::lexeme::Lexeme;
use crate::nesting::{MAX_LEVELS, outermost};
use crate::open::{
    OpenProduction, Remainder, nesting_on, remainder_after, remainder_of, with_remainder,
    without_part,
};
use crate::prospect::{is_taken, would_open};
use crate::rules::{Opening, ends_list, is_among, openings, operator, rule};
use crate::summary::{Summary, empty_summary, fits, with_leaf, with_node};
use crate::symbols::{Nonterminal, Production, Terminal};
use std::alloc::{AllocError, Global};
use std::marker::Model;

/// The partial tree of the tokens that were taken: its open productions, and what stands, in the order of the text.
#[derive(Drop)]
pub struct PartialTree {
    stack: Vec<OpenProduction>,
    events: Vec<Event>,
}

impl Model for PartialTree {
    ghost use Rattle.js_grammar.specs.Flat.{Flat};
    ghost use Rattle.js_grammar.specs.Moves.{flat_in};

    ghost Value = { Flat };

    ghost view = { λ x. flat_in x.stack.items x.events.items };
}

impl PartialTree {
    /// The partial tree of no tokens.
    #[tactic(auto, using(crate::proofs::Reversed::reverse_push))]
    pub fn new(alloc: Global) -> Result<PartialTree, AllocError>
        ensures { IfOk result (λ tree. tree ≡ from_flat) }
    {
        let mut stack = Vec::new(alloc);
        stack.push(OpenProduction {
            production: Production::Source,
            summary: empty_summary(),
            nesting: outermost(),
            rest: Remainder {
                next: Some(Constituent::Part(Nonterminal::Module)),
                later: &[],
            },
        })?;
        Ok(PartialTree {
            stack,
            events: Vec::new(alloc),
        })
    }

    /// The partial tree of no tokens of an expression: tokens of an expression may come, and then the end of the source.
    #[tactic(auto, using(crate::proofs::Reversed::reverse_push))]
    pub fn of_expression(alloc: Global) -> Result<PartialTree, AllocError>
        ensures { IfOk result (λ tree. tree ≡ expression_flat) }
    {
        let mut stack = Vec::new(alloc);
        stack.push(OpenProduction {
            production: Production::Source,
            summary: empty_summary(),
            nesting: outermost(),
            rest: Remainder {
                next: Some(Constituent::Part(Nonterminal::Expression)),
                later: &[Constituent::Token(Terminals::Is(Terminal::End))],
            },
        })?;
        Ok(PartialTree {
            stack,
            events: Vec::new(alloc),
        })
    }

    /// Whether the token would be taken.
    pub fn would_take(&self, lexeme: Lexeme) -> bool
        ensures { result ≡ would self.now.items lexeme }
    {
        is_taken(&self.stack, lexeme)
    }

    /// Takes a token, or refuses it and leaves the tree as it was. Where memory runs out, it is left open what is left.
    pub fn take(&mut self, lexeme: Lexeme) -> Result<bool, AllocError>
        ensures { IfOk result (Takes (fed_in self.old lexeme) self.old self.new) }
    {
        take_next(&mut self.stack, &mut self.events, lexeme)
    }

    /// Whether no partial tree of the tokens that were taken has as few levels as a tree may have, `MAX_LEVELS`.
    #[tactic(auto, using(crate::proofs::Told::tells_deep))]
    pub fn is_too_deep(&self) -> bool
        ensures told { result ≡ is_too_deep self.now }
        ensures exactly { Tells_deep self.now result }
    {
        self.passes_levels()
    }

    fn passes_levels(&self) -> bool
        ensures { result ≡ is_too_deep self.now }
    {
        nesting_on(&self.stack).level > MAX_LEVELS
    }

    /// The form that is left out and that each partial tree of the tokens that were taken has, if there is one.
    #[tactic(auto, using(crate::proofs::Told::tells_form))]
    pub fn left_out(&self) -> Option<LeftOut>
        ensures told { result ≡ left_out self.now }
        ensures exactly { Tells_form self.now result }
    {
        self.form_in()
    }

    fn form_in(&self) -> Option<LeftOut>
        ensures { result ≡ left_out self.now }
    {
        nesting_on(&self.stack).left_out
    }

    /// What stands, in the order of the text, each production behind its parts. What is open has no event yet.
    pub fn events(&self) -> &[Event]
        ensures { reverse result.now ≡ self.now.out }
    {
        &self.events
    }
}

/// How far a move has come.
#[derive(Clone, Copy, Drop)]
pub enum Progress {
    /// The token is taken.
    Taken,
    /// It is refused.
    Refused,
    /// A whole tree stands before it.
    Ended(Production, Summary),
}

/// What stands grows by an event.
#[tactic(auto, using(crate::proofs::Reversed::reverse_push, crate::proofs::Undone::grows_push))]
fn add_event(out: &mut Vec<Event>, event: Event) -> Result<(), AllocError>
    ensures moves { IfOk result (λ _. latest out.new.items ≡ event ∷ latest out.old.items) }
    ensures grows { IfOk result (λ _. Grows out.old.items out.new.items) }
{
    out.push(event)?;
    Ok(())
}

/// What is open above so many productions is over, and one is open there.
#[tactic(auto, using(crate::proofs::Reversed::reverse_push))]
fn push_above(
    stack: &mut Vec<OpenProduction>,
    below: usize,
    opened: OpenProduction,
) -> Result<(), AllocError>
    ensures { let under = shapes_of (take below stack.old.items) in
        IfOk result (λ _. shapes_of stack.new.items ≡ shape_in opened ∷ under) }
{
    stack.truncate(below);
    stack.push(opened)?;
    Ok(())
}

/// A production takes the token as its first constituent.
#[tactic(auto, using(crate::proofs::Reversed::reverse_push))]
fn begin_production(
    stack: &mut Vec<OpenProduction>,
    out: &mut Vec<Event>,
    production: Production,
    lexeme: Lexeme,
) -> Result<(), AllocError>
    requires { opened_would (production ∷ []) lexeme ≡ true }
    ensures moves { let there = begun_at stack.old.items out.old production lexeme in
        IfOk result (λ _. there ≡ Some (flat_in stack.new.items out.new.items)) }
    ensures grows { IfOk result (λ _. Grows out.old.items out.new.items) }
{
    match rule(production) {
        [Constituent::Token(_), later @ ..] => {
            let nesting = nesting_on(stack);
            add_event(out, Event::Leaf(lexeme))?;
            stack.push(OpenProduction {
                production,
                summary: with_leaf(empty_summary(), lexeme),
                nesting,
                rest: remainder_of(later),
            })?;
            Ok(())
        }
        _ => Ok(()),
    }
}

/// Opens productions, the outermost first.
#[tactic(auto, using(crate::proofs::Reversed::reverse_push))]
fn open_each(
    stack: &mut Vec<OpenProduction>,
    out: &mut Vec<Event>,
    opening: Opening,
    lexeme: Lexeme,
) -> Result<(), AllocError>
    requires { opened_would (forms_of opening) lexeme ≡ true }
    ensures moves { let there = opened_at stack.old.items out.old opening lexeme in
        IfOk result (λ _. there ≡ Some (flat_in stack.new.items out.new.items)) }
    ensures grows { IfOk result (λ _. Grows out.old.items out.new.items) }
{
    match opening {
        Opening::Nothing => Ok(()),
        Opening::One(production) => begin_production(stack, out, production, lexeme),
        Opening::Both(production, inner) => {
            let nesting = nesting_on(stack);
            stack.push(OpenProduction {
                production,
                summary: empty_summary(),
                nesting,
                rest: remainder_of(rule(production)),
            })?;
            begin_production(stack, out, inner, lexeme)
        }
    }
}

/// The token stands as the next constituent of a production, before those behind it.
#[tactic(auto, using(crate::proofs::Reversed::reverse_push))]
fn put_leaf(
    stack: &mut Vec<OpenProduction>,
    below: usize,
    out: &mut Vec<Event>,
    behind: OpenProduction,
    lexeme: Lexeme,
) -> Result<(), AllocError>
    ensures moves { let there = leaf_at (take below stack.old.items) out.old behind lexeme in
        IfOk result (λ _. flat_in stack.new.items out.new.items ≡ there) }
    ensures grows { IfOk result (λ _. Grows out.old.items out.new.items) }
{
    add_event(out, Event::Leaf(lexeme))?;
    push_above(
        stack,
        below,
        OpenProduction {
            production: behind.production,
            summary: with_leaf(behind.summary, lexeme),
            nesting: behind.nesting,
            rest: behind.rest,
        },
    )
}

/// A production stays open, and its next part begins with the token, if it may.
#[tactic(auto, using(crate::proofs::Reversed::reverse_push, crate::proofs::Looking::not_opened))]
fn open_part(
    stack: &mut Vec<OpenProduction>,
    below: usize,
    out: &mut Vec<Event>,
    top: OpenProduction,
    opening: Opening,
    lexeme: Lexeme,
) -> Result<bool, AllocError>
    ensures moves { let there = part_at (take below stack.old.items) out.old top opening lexeme in
        IfOk result (Opens there stack.old stack.new out.new) }
    ensures grows { IfOk result (λ _. Grows out.old.items out.new.items) }
{
    if !would_open(opening, lexeme) {
        return Ok(false);
    }
    push_above(stack, below, top)?;
    open_each(stack, out, opening, lexeme)?;
    Ok(true)
}

/// A production with its parts so far, before a token.
#[tactic(auto, using(crate::proofs::Reversed::reverse_push))]
fn advance_production(
    stack: &mut Vec<OpenProduction>,
    below: usize,
    out: &mut Vec<Event>,
    top: OpenProduction,
    lexeme: Lexeme,
) -> Result<Progress, AllocError>
    ensures moves { let under = take below stack.old.items in
        IfOk result (Comes under stack.old out.old (onward_at top lexeme) stack.new out.new) }
    ensures grows { IfOk result (λ _. Grows out.old.items out.new.items) }
{
    let later = top.rest.later;
    match top.rest.next {
        None => {
            add_event(out, Event::Node(top.production, top.summary.parts))?;
            Ok(Progress::Ended(top.production, top.summary))
        }
        Some(Constituent::Token(set)) => {
            if !is_among(lexeme.terminal, set) {
                return Ok(Progress::Refused);
            }
            let behind = with_remainder(top, remainder_of(later));
            put_leaf(stack, below, out, behind, lexeme)?;
            Ok(Progress::Taken)
        }
        Some(Constituent::Part(nonterminal)) => {
            let opening = openings(nonterminal, lexeme.terminal, lexeme.after_line);
            let taken = open_part(stack, below, out, top, opening, lexeme)?;
            Ok(if taken {
                Progress::Taken
            } else {
                Progress::Refused
            })
        }
        Some(Constituent::Optional(nonterminal, _)) => {
            let opening = openings(nonterminal, lexeme.terminal, lexeme.after_line);
            if matches!(opening, Opening::Nothing) {
                add_event(out, Event::Absent)?;
                let behind = without_part(top, remainder_of(later));
                return advance_production(stack, below, out, behind, lexeme);
            }
            let taken = open_part(stack, below, out, top, opening, lexeme)?;
            Ok(if taken {
                Progress::Taken
            } else {
                Progress::Refused
            })
        }
        Some(Constituent::Further(nonterminal, set)) => {
            if !is_among(lexeme.terminal, set) {
                add_event(out, Event::Absent)?;
                let behind = without_part(top, remainder_of(later));
                return advance_production(stack, below, out, behind, lexeme);
            }
            let next = Some(Constituent::Optional(nonterminal, Repetition::Listed(set)));
            let behind = with_remainder(top, Remainder { next, later });
            put_leaf(stack, below, out, behind, lexeme)?;
            Ok(Progress::Taken)
        }
    }
}

/// A tree becomes the first part of a production, whose second constituent is the token, if it may.
#[tactic(auto, using(crate::proofs::Reversed::reverse_push))]
fn wrap_tree(
    stack: &mut Vec<OpenProduction>,
    below: usize,
    out: &mut Vec<Event>,
    top: OpenProduction,
    outer: Production,
    inner: Production,
    parts: Summary,
    lexeme: Lexeme,
) -> Result<bool, AllocError>
    ensures moves { let there = turned_at (take below stack.old.items) out.old top outer inner parts lexeme in
        IfOk result (Opens there stack.old stack.new out.new) }
    ensures grows { IfOk result (λ _. Grows out.old.items out.new.items) }
{
    match rule(outer) {
        [
            Constituent::Part(nonterminal),
            Constituent::Token(set),
            later @ ..,
        ] => {
            if !fits(*nonterminal, inner, parts) || !is_among(lexeme.terminal, *set) {
                return Ok(false);
            }
            push_above(stack, below, top)?;
            let nesting = nesting_on(stack);
            add_event(out, Event::Leaf(lexeme))?;
            stack.push(OpenProduction {
                production: outer,
                summary: with_leaf(with_node(empty_summary(), inner, parts), lexeme),
                nesting,
                rest: remainder_of(later),
            })?;
            Ok(true)
        }
        _ => Ok(false),
    }
}

/// A whole tree becomes a part of an open production, before these constituents, or of one that stands there and goes on with the token.
#[tactic(auto, using(crate::proofs::Reversed::reverse_push))]
fn stand_part(
    stack: &mut Vec<OpenProduction>,
    below: usize,
    out: &mut Vec<Event>,
    top: OpenProduction,
    nonterminal: Nonterminal,
    behind: Remainder,
    inner: Production,
    parts: Summary,
    lexeme: Lexeme,
) -> Result<Progress, AllocError>
    ensures moves { let there = stood_at top nonterminal behind inner parts lexeme in
        IfOk result (Comes (take below stack.old.items) stack.old out.old there stack.new out.new) }
    ensures grows { IfOk result (λ _. Grows out.old.items out.new.items) }
{
    if let Some(outer) = operator(nonterminal, inner, lexeme.terminal) {
        let taken = wrap_tree(stack, below, out, top, outer, inner, parts, lexeme)?;
        return Ok(if taken {
            Progress::Taken
        } else {
            Progress::Refused
        });
    }
    if !fits(nonterminal, inner, parts) {
        return Ok(Progress::Refused);
    }
    let placed = OpenProduction {
        production: top.production,
        summary: with_node(top.summary, inner, parts),
        nesting: top.nesting,
        rest: behind,
    };
    advance_production(stack, below, out, placed, lexeme)
}

/// A whole tree stands where an open production wants a part.
#[tactic(auto, using(crate::proofs::Reversed::reverse_push))]
fn place_tree(
    stack: &mut Vec<OpenProduction>,
    below: usize,
    out: &mut Vec<Event>,
    top: OpenProduction,
    inner: Production,
    parts: Summary,
    lexeme: Lexeme,
) -> Result<Progress, AllocError>
    ensures moves { let there = put_at top inner parts lexeme in
        IfOk result (Comes (take below stack.old.items) stack.old out.old there stack.new out.new) }
    ensures grows { IfOk result (λ _. Grows out.old.items out.new.items) }
{
    let later = top.rest.later;
    match top.rest.next {
        Some(Constituent::Part(nonterminal)) => {
            let behind = remainder_of(later);
            stand_part(
                stack,
                below,
                out,
                top,
                nonterminal,
                behind,
                inner,
                parts,
                lexeme,
            )
        }
        Some(Constituent::Optional(nonterminal, repetition)) => {
            let behind = remainder_after(ends_list(inner), nonterminal, repetition, later);
            stand_part(
                stack,
                below,
                out,
                top,
                nonterminal,
                behind,
                inner,
                parts,
                lexeme,
            )
        }
        _ => Ok(Progress::Refused),
    }
}

/// The open production that stands above so many.
#[tactic(auto, using(crate::proofs::Undone::above))]
fn open_above(stack: &[OpenProduction], below: usize) -> OpenProduction
    requires { below < length stack.now }
    ensures { let under = shapes_of (take below stack.now) in
        shapes_of (take (below + 1) stack.now) ≡ shape_in result ∷ under }
{
    stack[below]
}

/// Takes a token, or refuses it: then nothing has changed but that there may be further events.
#[tactic(auto, using(crate::proofs::Reversed::reverse_push))]
fn walk_down(
    stack: &mut Vec<OpenProduction>,
    out: &mut Vec<Event>,
    lexeme: Lexeme,
) -> Result<bool, AllocError>
    ensures moves { let there = fed_at stack.old.items out.old lexeme in
        IfOk result (Opens there stack.old stack.new out.new) }
    ensures grows { IfOk result (λ _. Grows out.old.items out.new.items) }
{
    if stack.is_empty() {
        return Ok(false);
    }
    let mut below = stack.len() - 1;
    let top = open_above(stack, below);
    let mut progress = advance_production(stack, below, out, top, lexeme)?;
    loop {
        match progress {
            Progress::Taken => return Ok(true),
            Progress::Refused => return Ok(false),
            Progress::Ended(inner, parts) => {
                if below == 0 {
                    return Ok(false);
                }
                below -= 1;
                let top = open_above(stack, below);
                progress = place_tree(stack, below, out, top, inner, parts, lexeme)?;
            }
        }
    }
}

/// Takes a token, or refuses it and leaves all as it was.
#[tactic(auto, using(crate::proofs::Undone::undone))]
fn take_next(
    stack: &mut Vec<OpenProduction>,
    out: &mut Vec<Event>,
    lexeme: Lexeme,
) -> Result<bool, AllocError>
    ensures { let there = fed_at stack.old.items out.old lexeme in
        IfOk result (Takes there (flat_in stack.old.items out.old.items) (flat_in stack.new.items out.new.items)) }
{
    let start = out.len();
    let taken = walk_down(stack, out, lexeme)?;
    if !taken {
        out.truncate(start);
    }
    Ok(taken)
}
