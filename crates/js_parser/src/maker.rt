// From the events of a tree to what the tree becomes.

ghost use Rattle.std.specs.Prelude.{◌≡◌, ◌∷◌, ◌++◌, [], ◌<◌, take, drop, reverse, IfOk, OnOk};
ghost use Rattle.js_phrase.specs.Queues as queue;
ghost use Rattle.js_parser.specs.Trees.{token_at, made, made_on, IsCounted, AllCounted, expression_in};
ghost use Rattle.js_parser.specs.Forms.{form};
ghost use Rattle.js_grammar.specs.Grammar.{Tree};
ghost use Rattle.js_grammar.specs.declared.symbols.Production.TheVariants as production;
ghost use Rattle.js_reader.specs.Runs.{expression_events};

use crate::forms::form;
use js_grammar::event::Event;
use js_grammar::summary::MAX_PARTS;
use js_grammar::symbols::Production;
use js_lexer::token::Token;
use js_phrase::phrase::Phrase;
use js_phrase::places::NO_TOKEN;
use js_phrase::queue::Queue;
use js_tree::tree::Expr;
use lava_base::memory::OutOfMemory;
use sqlite_items::Boxed;
use std::alloc::Global;

fn token_at(tokens: &[Token], at: u32) -> Token
    ensures { result ≡ token_at tokens.now at }
{
    match tokens.get(at as usize) {
        Some(token) => *token,
        None => NO_TOKEN,
    }
}

/// Moves the first phrases that stand to the parts, so that the last of them is the first part.
fn move_parts(
    stack: &mut Queue<Phrase>,
    count: u32,
    parts: &mut Queue<Phrase>,
) -> Result<(), OutOfMemory>
    ensures parts { OnOk result (parts.new ≡ reverse (take count stack.old) ++ parts.old) }
    ensures stack { OnOk result (stack.new ≡ drop count stack.old) }
{
    let mut left = count;
    while left > 0 {
        match stack.pop() {
            Some(phrase) => parts.push(phrase)?,
            None => return Ok(()),
        }
        left -= 1;
    }
    Ok(())
}

/// What a production becomes stands in the place of its parts.
fn close_production(
    alloc: Global,
    source: &[u8],
    stack: &mut Queue<Phrase>,
    parts: &mut Queue<Phrase>,
    production: Production,
    count: u32,
) -> Result<(), OutOfMemory>
    ensures counted { OnOk result (count < MAX_PARTS) }
    ensures stands { let above = reverse (take count stack.old) in
        OnOk result (stack.new ≡ form source.now production above ∷ drop count stack.old) }
{
    if count >= MAX_PARTS {
        return Err(OutOfMemory);
    }
    parts.clear();
    move_parts(stack, count, parts)?;
    let phrase = form(alloc, source, production, parts)?;
    stack.push(phrase)
}

/// One event more.
fn take_event(
    alloc: Global,
    source: &[u8],
    tokens: &[Token],
    stack: &mut Queue<Phrase>,
    parts: &mut Queue<Phrase>,
    event: Event,
) -> Result<(), OutOfMemory>
    ensures counted { OnOk result (IsCounted event) }
    ensures stands { OnOk result (stack.new ≡ made_on source.now tokens.now event stack.old) }
{
    match event {
        Event::Leaf(lexeme) => stack.push(Phrase::Token(token_at(tokens, lexeme.at))),
        Event::Absent => stack.push(Phrase::Absent),
        Event::Node(production, count) => {
            close_production(alloc, source, stack, parts, production, count)
        }
    }
}

/// What stands when all events are taken, the latest first.
fn take_events(
    alloc: Global,
    source: &[u8],
    tokens: &[Token],
    events: &[Event],
) -> Result<Queue<Phrase>, OutOfMemory>
    ensures counted { OnOk result (AllCounted (reverse events.now)) }
    ensures stands { IfOk result (λ q. q ≡ made source.now tokens.now (reverse events.now)) }
{
    let mut stack = Queue::new(alloc);
    let mut parts = Queue::new(alloc);
    let mut rest = events;
    while let [event, later @ ..] = rest {
        take_event(alloc, source, tokens, &mut stack, &mut parts, *event)?;
        rest = later;
    }
    Ok(stack)
}

/// The same phrases, the last one first.
fn turned(alloc: Global, mut stack: Queue<Phrase>) -> Result<Queue<Phrase>, OutOfMemory>
    ensures { IfOk result (λ q. q ≡ reverse stack) }
{
    let mut parts = Queue::new(alloc);
    while let Some(phrase) = stack.pop() {
        parts.push(phrase)?;
    }
    Ok(parts)
}

/// The phrase of a module, from the events of its parts.
pub fn module_phrase(
    alloc: Global,
    source: &[u8],
    tokens: &[Token],
    events: &[Event],
) -> Result<Phrase, OutOfMemory>
    ensures counted { OnOk result (AllCounted (reverse events.now)) }
    ensures made { let parts = reverse (made source.now tokens.now (reverse events.now)) in
        IfOk result (λ p. p ≡ form source.now production.Module parts) }
{
    let stack = take_events(alloc, source, tokens, events)?;
    let mut parts = turned(alloc, stack)?;
    form(alloc, source, Production::Module, &mut parts)
}

/// The expression that the events of its tree make, with the end behind it.
pub fn expression_made(
    alloc: Global,
    source: &[u8],
    tokens: &[Token],
    events: &[Event],
) -> Result<Boxed<Expr>, OutOfMemory>
    ensures { (x : Tree) → reverse events.now ≡ expression_events x →
        IfOk result (λ e. e ≡ expression_in source.now tokens.now x) }
{
    let stack = take_events(alloc, source, tokens, events)?;
    let mut parts = turned(alloc, stack)?;
    parts.expression(alloc)
}
