// What is known of the objects of other parties.

use crate::fault::Fault;
use crate::stores::{FUNCTION, push_marks};
use crate::words::{reference_of, two_of};
use js_store::foreign::Foreign;
use js_store::store::PLAIN_MARKS;
use lava_base::ids::Ref;
use std::alloc::Global;

/// `foreign STEP; STEP; ..`: what the steps answer.
pub fn steps(alloc: Global, out: &mut String, words: &str) -> Result<(), Fault> {
    let mut known = Foreign::new(alloc);
    for step in words.split("; ") {
        let (reference, name) = two_of(step)?;
        push_step(out, &mut known, reference_of(reference)?, name)?;
    }
    Ok(())
}

/// Adds the marks of a reference, or appends them.
fn push_step(
    out: &mut String,
    known: &mut Foreign,
    reference: Ref,
    name: &str,
) -> Result<(), Fault> {
    match name {
        "function" => Ok(known.add(reference, FUNCTION)?),
        "plain" => Ok(known.add(reference, PLAIN_MARKS)?),
        "marks" => push_marks(out, known.marks(reference)),
        _ => Err(Fault::Line),
    }
}
