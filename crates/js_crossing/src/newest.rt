// The newest crossing, kept while crossings are traced.

ghost use Rattle.std.specs.Prelude.{◌≡◌, ◌∷◌, IfOk};
ghost use Rattle.js_machine.specs.js_run.Journal.{owner_of};
ghost use Rattle.js_machine.specs.Looks.{marks_in};
ghost use Rattle.js_crossing.specs.Newest.{ask_references, reply_references, traced_ask, traced_import, traced_reply, with_their_marks};

use crate::references::{push_ask, push_reply};
use js_desc::ask::Ask;
use js_desc::copy::{copy_ask, copy_reply};
use js_desc::crossing::{CrossBody, Crossing};
use js_desc::reply::Reply;
use js_machine::asked::Imported;
use js_machine::machine::Machine;
use js_store::store::Store;
use lava_base::ids::{PartyId, Ref};
use lava_base::list::List;
use lava_base::marks::Marks;
use lava_base::memory::OutOfMemory;
use std::alloc::Global;

/// A crossing, and the marks of the references that it names.
#[derive(Drop)]
pub struct TracedCrossing {
    pub crossing: Crossing,
    pub marks: List<(Ref, Marks)>,
}

/// The party that an object is of; the common part counts as the host's.
pub fn owner_of(object: Ref) -> u32
    ensures { result ≡ owner_of object }
{
    match object {
        Ref::Common(_) => 0,
        Ref::Own { party, .. } => party.0,
    }
}

/// The references in an ask and its target. Want of memory is answered where the ask makes a party.
fn references_of_ask(alloc: Global, target: Ref, ask: &Ask) -> Result<List<Ref>, OutOfMemory>
    ensures { IfOk result (λ rs. rs ≡ target ∷ ask_references ask.now) }
{
    let mut references = List::new(alloc);
    references.push(target)?;
    push_ask(&mut references, ask)?;
    Ok(references)
}

/// The references in a reply.
fn references_of_reply(alloc: Global, reply: &Reply) -> Result<List<Ref>, OutOfMemory>
    ensures { IfOk result (λ rs. rs ≡ reply_references reply.now) }
{
    let mut references = List::new(alloc);
    push_reply(&mut references, reply)?;
    Ok(references)
}

/// Each reference with the marks that the party in the machine sees.
fn list_marks<S: Store>(
    alloc: Global,
    machine: &Machine<S>,
    references: &List<Ref>,
) -> Result<List<(Ref, Marks)>, OutOfMemory>
    ensures { IfOk result (λ m. m ≡ with_their_marks (marks_in machine.now) references.now) }
{
    let mut listed = List::new(alloc);
    for reference in references.as_slice() {
        listed.push((*reference, machine.marks_of(*reference)))?;
    }
    Ok(listed)
}

/// An ask as the party in the machine sends it.
pub fn traced_ask<S: Store>(
    alloc: Global,
    machine: &Machine<S>,
    target: Ref,
    ask: &Ask,
) -> Result<TracedCrossing, OutOfMemory>
    ensures { IfOk result (λ x. x ≡ traced_ask machine.now target ask.now) }
{
    let references = references_of_ask(alloc, target, ask)?;
    let marks = list_marks(alloc, machine, &references)?;
    Ok(TracedCrossing {
        crossing: Crossing {
            from: machine.party(),
            to: PartyId(owner_of(target)),
            body: CrossBody::Ask {
                target: Some(target),
                ask: copy_ask(alloc, ask)?,
            },
        },
        marks,
    })
}

/// A reply as the party in the machine sends it.
pub fn traced_reply<S: Store>(
    alloc: Global,
    machine: &Machine<S>,
    to: u32,
    reply: &Reply,
) -> Result<TracedCrossing, OutOfMemory>
    ensures { IfOk result (λ x. x ≡ traced_reply machine.now to reply.now) }
{
    let references = references_of_reply(alloc, reply)?;
    let marks = list_marks(alloc, machine, &references)?;
    Ok(TracedCrossing {
        crossing: Crossing {
            from: machine.party(),
            to: PartyId(to),
            body: CrossBody::Answer(copy_reply(alloc, reply)?),
        },
        marks,
    })
}

/// An import over a link.
pub fn traced_import(
    alloc: Global,
    from: u32,
    to: u32,
    imported: &Imported,
) -> Result<TracedCrossing, OutOfMemory>
    ensures { let i = imported.now in
        IfOk result (λ x. x ≡ traced_import from to i.link i.path) }
{
    let link = imported.link.copy()?;
    let path = imported.path.copy()?;
    Ok(TracedCrossing {
        crossing: Crossing {
            from: PartyId(from),
            to: PartyId(to),
            body: CrossBody::Ask {
                target: None,
                ask: Ask::Import { link, path },
            },
        },
        marks: List::new(alloc),
    })
}
