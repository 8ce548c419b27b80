// What objects decide: asks are followed until they are answered.

use crate::fault::Fault;
use crate::kinds::make;
use crate::methods::ask_of;
use crate::outcomes::{push_fault, push_reply};
use crate::words::{reference_of, two_of};
use crate::world::World;
use js_desc::ask::Ask;
use js_desc::decision::Decision;
use js_desc::reply::Reply;
use js_exotic::next::Next;
use lava_base::ids::Ref;
use std::alloc::Global;

/// How many asks are followed at most.
const MOST_ASKS: u32 = 100;

/// `decide STEP; STEP; ..`: what the asks are answered with that objects of party 7 and of a bare common part are asked in turn.
pub fn steps(alloc: Global, out: &mut String, words: &str) -> Result<(), Fault> {
    let mut world = World::empty(alloc)?;
    for step in words.split("; ") {
        push_step(out, &mut world, step)?;
    }
    Ok(())
}

/// Makes an object, or asks one.
fn push_step(out: &mut String, world: &mut World, step: &str) -> Result<(), Fault> {
    let (target, words) = two_of(step)?;
    if target == "make" {
        return make(world.alloc, &mut world.store, words);
    }
    ask_first(world, reference_of(target)?, words)?;
    follow(out, world)
}

/// Asks an object while nothing waits.
fn ask_first(world: &mut World, target: Ref, words: &str) -> Result<(), Fault> {
    let ask = ask_of(world.alloc, words)?;
    world.wait_for_nothing();
    world.ask(target, &ask)
}

/// Follows what was decided, until something comes of it.
fn follow(out: &mut String, world: &mut World) -> Result<(), Fault> {
    for _ in 0..MOST_ASKS {
        match world.decision() {
            None => return Ok(()),
            Some(decision) => go_on(out, world, decision)?,
        }
    }
    Err(Fault::Line)
}

/// Goes on with a decision, or appends what comes of it.
fn go_on(out: &mut String, world: &mut World, decision: Decision<Next>) -> Result<(), Fault> {
    match decision {
        Decision::Done(reply) => answered(out, world, reply),
        Decision::Fault(text) => push_fault(out, &text),
        Decision::Ask { target, ask, next } => asked(world, target, &ask, next),
        Decision::Number { .. } | Decision::Run { .. } | Decision::End(_) => Err(Fault::Line),
    }
}

/// Hands an answer to what waits for it, or appends it.
fn answered(out: &mut String, world: &mut World, reply: Reply) -> Result<(), Fault> {
    match world.answer(reply)? {
        None => Ok(()),
        Some(reply) => push_reply(world.alloc, out, &reply),
    }
}

/// Asks an object, for which a decision waits.
fn asked(world: &mut World, target: Option<Ref>, ask: &Ask, next: Next) -> Result<(), Fault> {
    world.wait(next)?;
    match target {
        None => Err(Fault::Line),
        Some(target) => world.ask(target, ask),
    }
}
