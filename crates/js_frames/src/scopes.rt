// The scopes round a place of a source.

ghost use Rattle.std.specs.Prelude.{◌≡◌, ◌<◌, ◌^◌, [], ◌∷◌, length, OnOk, OnErr};
ghost use Rattle.js_frames.specs.Frames as spec;

use crate::frame::{Frame, Referent};
use js_text::text::Text;
use lava_base::memory::OutOfMemory;
use std::alloc::Global;
use std::marker::Model;

/// A name that was found: how many scopes outwards, in which slot, and what it stands for.
#[derive(Clone, Copy, Debug)]
pub struct FoundReferent {
    pub hops: usize,
    pub slot: usize,
    pub referent: Referent,
}

/// The frames of the scopes round a place, the innermost first.
#[derive(Drop)]
pub struct Scopes {
    frames: Vec<Frame>,
}

impl Model for Scopes {
    ghost use Rattle.std.specs.Prelude.{List, reverse};
    ghost use Rattle.js_frames.specs.declared.frame.SlotName.{SlotName};

    ghost Value = { List (List SlotName) };

    ghost view = { λ s. reverse s.frames.items };
}

fn found_there(hops: usize, frame: &Frame, name: &Text) -> Option<FoundReferent>
    ensures { result ≡ spec.found_there name.now hops frame.now }
{
    match frame.find(name) {
        None => None,
        Some(found) => Some(FoundReferent {
            hops,
            slot: found.slot,
            referent: found.referent,
        }),
    }
}

impl Scopes {
    /// No scope. It takes no memory.
    pub fn new(alloc: Global) -> Scopes
        ensures { result ≡ [] }
    {
        Scopes {
            frames: Vec::new(alloc),
        }
    }

    /// How many scopes there are.
    #[tactic(auto, using(crate::proofs::Reversed::reverse_length))]
    pub fn len(&self) -> usize
        ensures value { result ≡ length self.now }
        ensures within { result < 2 ^ 63 }
    {
        self.frames.len()
    }

    /// Opens a scope. After a refusal the scopes are as before.
    #[tactic(auto, using(crate::proofs::Reversed::reverse_push))]
    pub fn open(&mut self, frame: Frame) -> Result<(), OutOfMemory>
        ensures ok { OnOk result (self.new ≡ frame ∷ self.old) }
        ensures err { OnErr result (self.new ≡ self.old) }
    {
        self.frames.push(frame)?;
        Ok(())
    }

    /// Closes the innermost scope.
    #[tactic(auto, using(crate::proofs::Reversed::reverse_push))]
    pub fn close(&mut self)
        ensures { self.new ≡ spec.tail_of self.old }
    {
        self.frames.pop();
    }

    /// The innermost declaration of a name (ECMA-262, ResolveBinding). It takes a look-up for each scope that is passed.
    pub fn find(&self, name: &Text) -> Option<FoundReferent>
        ensures { result ≡ spec.find name.now self.now }
    {
        let mut at = self.frames.len();
        let mut hops = 0;
        while at > 0 {
            at -= 1;
            if let Some(found) = found_there(hops, &self.frames[at], name) {
                return Some(found);
            }
            hops += 1;
        }
        None
    }
}
