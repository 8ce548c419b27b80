// Texts, which are shared and not copied.

ghost use Rattle.std.specs.Prelude.{◌≡◌, ◌≢◌, ℕ, ◌+◌, ◌<◌, ◌≤◌, ◌↔◌, ◌++◌, ◌∷◌, length, take, drop, slice_index, IsTrue, IfOk, IsErrOf, IsOkUnless, OnOk, OnErr};
ghost use Rattle.std.specs.Char.Utf16.{utf16_lossy_chars};
ghost use Rattle.js_text.specs.Search.{order_of_units, substring, StandsAt, IsFirstPlace};
ghost use Rattle.js_text.specs.Texts.{same_units, utf8_of, AddsPartOf};

use crate::characters::{is_lead, is_trail, lone_character, pair_character, push_character};
use crate::fault::TextFault;
use crate::fingerprint::fingerprint_of;
use crate::rope::{copied, joined, shared};
use crate::runs::{are_same, count_before, even_runs};
use crate::search::first_place;
use lava_base::list::List;
use lava_base::memory::OutOfMemory;
use std::alloc::Global;
use std::cmp::Ordering;
use std::marker::Model;
use std::rc::Rc;

/// How many units a text has at most.
pub const MAX_UNITS: u32 = 1_048_576;

/// How many units are still few: so many are copied rather than shared, and neighbours with so many together are kept in one piece.
pub(crate) const FEW_UNITS: u32 = 256;

/// A text: a list of at most `MAX_UNITS` 16-bit units, as an ECMA-262 String. A surrogate may stand without its partner.
#[cycle(text)]
#[derive(Drop)]
pub struct Text {
    pub(crate) node: Rc<Node>,
}

/// What a text is made of.
#[cycle(text)]
#[derive(Drop)]
pub(crate) enum Node {
    /// Units of its own, with their fingerprint.
    Whole {
        units: Vec<u16>,
        fingerprint: u32,
    },
    /// The units of a shared list from one place up to another.
    Part {
        units: Rc<Vec<u16>>,
        from: u32,
        to: u32,
    },
    /// Two texts, one after the other, which are not empty. `height` counts the joins above one another.
    Join {
        left: Text,
        right: Text,
        len: u32,
        height: u8,
    },
}

impl Model for Text {
    ghost use Rattle.std.specs.Prelude.{List, ℕ, length};

    ghost Value = { List ℕ };

    ghost use Rattle.js_text.specs.Nodes.{node_units, IsSound};

    ghost view = { λ t. node_units t.node.value };

    ghost invariant = { λ t. IsSound t.node.value };

    ghost size = { length };

    ghost use Rattle.js_text.specs.NodesFall.{deep-le-length};

    ghost size_decreases = { λ t h. deep-le-length t.node.value h };
}

/// The text of these units. `TooLong` comes exactly where there are more than `MAX_UNITS`.
pub fn from_units(alloc: Global, units: &[u16]) -> Result<Text, TextFault>
    ensures units { IfOk result (λ text. text ≡ units.now) }
    ensures too_long { IsErrOf result TextFault.TooLong ↔ (MAX_UNITS < length units.now) }
    ensures memory { length units.now ≤ MAX_UNITS → IsOkUnless result TextFault.OutOfMemory }
{
    if units.len() > MAX_UNITS as usize {
        return Err(TextFault::TooLong);
    }
    let items = units.to_vec(alloc)?;
    Ok(text_of_vec(alloc, items)?)
}

/// The text of a vector's units.
pub(crate) fn text_of_vec(alloc: Global, units: Vec<u16>) -> Result<Text, OutOfMemory>
    requires { length units.items ≤ MAX_UNITS }
    ensures { IfOk result (λ text. text ≡ units.items) }
{
    let to = units.len() as u32;
    let node = if to <= FEW_UNITS {
        let fingerprint = fingerprint_of(&units);
        Node::Whole { units, fingerprint }
    } else {
        Node::Part {
            units: Rc::new(alloc, units)?,
            from: 0,
            to,
        }
    };
    Ok(Text {
        node: Rc::new(alloc, node)?,
    })
}

impl Text {
    /// How many units there are.
    pub fn len(&self) -> u32
        ensures len { result ≡ length self.now }
        ensures within { result ≤ MAX_UNITS }
    {
        match &*self.node {
            Node::Whole { units, .. } => units.len() as u32,
            Node::Part { from, to, .. } => *to - *from,
            Node::Join { len, .. } => *len,
        }
    }

    /// The unit at a place, counted from 0.
    pub fn unit(&self, at: u32) -> u16
        requires { at < length self.now }
        ensures { result ≡ slice_index self.now at }
    {
        self.run_at(at)[0]
    }

    /// The units that are stored in one piece from a place on.
    pub(crate) fn run_at(&self, at: u32) -> &[u16]
        requires { at < length self.now }
        ensures run { result.now ≡ take (length result.now) (drop at self.now) }
        ensures some { 0 < length result.now }
        ensures within { at + length result.now ≤ length self.now }
    {
        match &*self.node {
            Node::Whole { units, .. } => &units[at as usize..],
            Node::Part { units, from, to } => {
                let (from, to) = (*from, *to);
                &units[(from + at) as usize..to as usize]
            }
            Node::Join { left, right, .. } => {
                let middle = left.len();
                if at < middle {
                    left.run_at(at)
                } else {
                    right.run_at(at - middle)
                }
            }
        }
    }

    /// The same text once more. It shares the units.
    pub fn copy(&self) -> Result<Text, OutOfMemory>
        ensures { IfOk result (λ copy. copy ≡ self.now) }
    {
        Ok(Text {
            node: self.node.clone()?,
        })
    }

    /// All units, one after the other.
    pub fn to_units(&self, alloc: Global) -> Result<List<u16>, OutOfMemory>
        ensures units { IfOk result (λ units. units ≡ self.now) }
    {
        let mut units = Vec::with_capacity(alloc, self.len() as usize)?;
        self.push_units(&mut units)?;
        Ok(List::from_vec(units))
    }

    /// Appends the units to a vector. After want of memory it has got some of them.
    pub(crate) fn push_units(&self, units: &mut Vec<u16>) -> Result<(), OutOfMemory>
        ensures { OnOk result (units.new.items ≡ units.old.items ++ self.now) }
    {
        let mut at = 0;
        while at < self.len() {
            let run = self.run_at(at);
            units.extend_from_slice(run)?;
            at += run.len() as u32;
        }
        Ok(())
    }

    /// Whether both have the same units.
    pub fn is_same(&self, other: &Text) -> bool
        ensures test { result ≡ same_units self.now other.now }
        ensures equal { IsTrue result ↔ (self.now ≡ other.now) }
    {
        self.fingerprint() == other.fingerprint() && self.has_same_units(other)
    }

    /// The same, without a look at the fingerprints.
    #[inline]
    pub fn has_same_units(&self, other: &Text) -> bool
        ensures test { result ≡ same_units self.now other.now }
        ensures equal { IsTrue result ↔ (self.now ≡ other.now) }
    {
        match (&*self.node, &*other.node) {
            (Node::Whole { units, .. }, Node::Whole { units: others, .. }) => are_same(
                units, others,
            ),
            _ => self.has_same_runs(other),
        }
    }

    /// The same, where the units may be in several pieces.
    #[inline(never)]
    fn has_same_runs(&self, other: &Text) -> bool
        ensures { IsTrue result ↔ (self.now ≡ other.now) }
    {
        self.len() == other.len() && self.has_at(0, other)
    }

    /// Whether a part that is not too long for it stands at a place.
    fn has_at(&self, at: u32, part: &Text) -> bool
        requires { (at + length part.now ≤ length self.now) × (length self.now ≤ MAX_UNITS) }
        ensures { IsTrue result ↔ StandsAt self.now part.now at }
    {
        let mut done = 0;
        while done < part.len() {
            let (units, wanted) = even_runs(self, at + done, part, done);
            if units != wanted {
                return false;
            }
            done += wanted.len() as u32;
        }
        true
    }

    /// Which text comes first, by their units (ECMA-262, IsLessThan): the first unit that is not equal decides, and else the lengths do.
    pub fn compare(&self, other: &Text) -> Ordering
        ensures order { result ≡ order_of_units self.now other.now }
    {
        let mut at = 0;
        while at < self.len() && at < other.len() {
            let (units, others) = even_runs(self, at, other, at);
            match units.cmp(&others) {
                Ordering::Equal => at += units.len() as u32,
                order => return order,
            }
        }
        self.len().cmp(&other.len())
    }

    /// The least place at `from` or after it where `part` stands (ECMA-262, StringIndexOf). An empty part stands at every place up to the length.
    pub fn find(&self, part: &Text, from: u32) -> Option<u32>
        ensures first { IsFirstPlace self.now part.now from result }
    {
        let len = self.len();
        let wanted = part.len();
        if wanted > len || from > len - wanted {
            return None;
        }
        if wanted == 0 {
            return Some(from);
        }
        first_place(self, part, from)
    }

    /// The first place at `from` or after it where the unit stands, or the length.
    pub(crate) fn next_place(&self, from: u32, unit: u16) -> u32
        requires { from ≤ length self.now }
        ensures bound { (from ≤ result) × (result ≤ length self.now) }
        ensures before { (k : ℕ) → from ≤ k → k < result → slice_index self.now k ≢ unit }
    {
        let mut at = from;
        while at < self.len() {
            let run = self.run_at(at);
            let count = count_before(run, unit);
            at += count as u32;
            if count < run.len() {
                return at;
            }
        }
        at
    }

    /// The text of the units from one place up to another. Where they are many, it shares them and copies few.
    pub fn slice(&self, alloc: Global, from: u32, to: u32) -> Result<Text, OutOfMemory>
        requires { (from ≤ to) × (to ≤ length self.now) }
        ensures units { IfOk result (λ text. text ≡ substring self.now from to) }
    {
        if from == 0 && to == self.len() {
            return self.copy();
        }
        match &*self.node {
            Node::Whole { units, .. } => copied(alloc, units, from, to),
            Node::Part {
                units,
                from: start,
                to: end,
            } => {
                // The end is read so that its 32 bits are known: no place here is past it.
                let (start, _end) = (*start, *end);
                shared(alloc, units, start + from, start + to)
            }
            Node::Join { left, right, .. } => {
                let middle = left.len();
                if to <= middle {
                    left.slice(alloc, from, to)
                } else if middle <= from {
                    right.slice(alloc, from - middle, to - middle)
                } else {
                    let front = left.slice(alloc, from, middle)?;
                    let back = right.slice(alloc, 0, to - middle)?;
                    joined(alloc, &front, &back)
                }
            }
        }
    }

    /// The units of this text, and then those of the other. `TooLong` comes exactly where they are more than `MAX_UNITS`.
    pub fn concat(&self, alloc: Global, other: &Text) -> Result<Text, TextFault>
        ensures units { IfOk result (λ text. text ≡ self.now ++ other.now) }
        ensures too_long { IsErrOf result TextFault.TooLong
            ↔ (MAX_UNITS < length self.now + length other.now) }
        ensures memory { length self.now + length other.now ≤ MAX_UNITS
            → IsOkUnless result TextFault.OutOfMemory }
    {
        if self.len() + other.len() > MAX_UNITS {
            return Err(TextFault::TooLong);
        }
        Ok(joined(alloc, self, other)?)
    }

    /// How many joins stand above one another.
    pub(crate) fn height(&self) -> u8 {
        match &*self.node {
            Node::Join { height, .. } => *height,
            _ => 0,
        }
    }

    /// Appends the text in UTF-8, with U+FFFD for a surrogate without its partner. After want of memory `out` is as before.
    pub fn write_utf8(&self, out: &mut List<u8>) -> Result<(), OutOfMemory>
        ensures ok { OnOk result (out.new ≡ out.old ++ utf8_of self.now) }
        ensures err { OnErr result (out.new ≡ out.old) }
    {
        let len = out.len();
        let written = self.push_utf8(out);
        if written.is_err() {
            out.truncate(len);
        }
        written
    }

    /// Appends the text in UTF-8. After want of memory `out` has got some first part of these bytes.
    fn push_utf8(&self, out: &mut List<u8>) -> Result<(), OutOfMemory>
        ensures ok { OnOk result (out.new ≡ out.old ++ utf8_of self.now) }
        ensures err { OnErr result (AddsPartOf out.old out.new (utf8_of self.now)) }
    {
        let mut at = 0;
        while at < self.len() {
            let (character, next) = self.character_at(at);
            push_character(out, character)?;
            at = next;
        }
        Ok(())
    }

    /// The character that begins at a unit, and where the next one begins.
    fn character_at(&self, at: u32) -> (char, u32)
        requires { at < length self.now }
        ensures bound { (at < result.1) × (result.1 ≤ length self.now) }
        ensures first { utf16_lossy_chars (drop at self.now)
            ≡ result.0 ∷ utf16_lossy_chars (drop result.1 self.now) }
    {
        let len = self.len();
        let unit = self.unit(at);
        if is_lead(unit) && at + 1 < len {
            let next = self.unit(at + 1);
            if is_trail(next) {
                return (pair_character(unit, next), at + 2);
            }
        }
        (lone_character(unit), at + 1)
    }
}
