// How texts are cut and joined: trees, whose leaves have the units, and whose sides differ in height as little as those of Adelson-Velsky and Landis.

ghost use Rattle.std.specs.Prelude.{◌≡◌, ◌+◌, ◌<◌, ◌≤◌, ◌++◌, length, IfOk};
ghost use Rattle.js_text.specs.Search.{substring};
ghost use Rattle.js_text.specs.declared.text.TheConstants.{MAX_UNITS};

use crate::text::{FEW_UNITS, Node, Text, text_of_vec};
use lava_base::memory::OutOfMemory;
use std::alloc::Global;
use std::rc::Rc;

/// A copy of the units from one place up to another.
pub(crate) fn copied(alloc: Global, units: &[u16], from: u32, to: u32) -> Result<Text, OutOfMemory>
    requires { (from ≤ to) × (to ≤ length units.now) × (to ≤ from + MAX_UNITS) }
    ensures { IfOk result (λ text. text ≡ substring units.now from to) }
{
    let items = units[from as usize..to as usize].to_vec(alloc)?;
    text_of_vec(alloc, items)
}

/// The units from one place up to another. They are shared where they are many and at least a quarter of the list, so that a small text keeps no large list.
pub(crate) fn shared(
    alloc: Global,
    units: &Rc<Vec<u16>>,
    from: u32,
    to: u32,
) -> Result<Text, OutOfMemory>
    requires { (from ≤ to) × (to ≤ length units.now.value.items) × (to ≤ from + MAX_UNITS) }
    ensures { IfOk result (λ text. text ≡ substring units.now.value.items from to) }
{
    let len = to - from;
    if len <= FEW_UNITS || (len as usize) < units.len() / 4 {
        return copied(alloc, units, from, to);
    }
    let node = Node::Part {
        units: units.clone()?,
        from,
        to,
    };
    Ok(Text {
        node: Rc::new(alloc, node)?,
    })
}

/// The two texts, one after the other. They go into one piece where they have few units, and else the lower one joins the higher one at its side.
pub(crate) fn joined(alloc: Global, left: &Text, right: &Text) -> Result<Text, OutOfMemory>
    requires { length left.now + length right.now ≤ MAX_UNITS }
    ensures { IfOk result (λ text. text ≡ left.now ++ right.now) }
{
    if left.len() == 0 {
        return right.copy();
    }
    if right.len() == 0 {
        return left.copy();
    }
    if left.len() + right.len() <= FEW_UNITS {
        return merged(alloc, left, right);
    }
    let (l, r) = (left.height(), right.height());
    match (&*left.node, &*right.node) {
        (
            Node::Join {
                left: a,
                right: b,
                ..
            },
            _,
        ) if l > r => { balanced(alloc, a, &joined(alloc, b, right)?) }
        (
            _,
            Node::Join {
                left: a,
                right: b,
                ..
            },
        ) if r > l => { balanced(alloc, &joined(alloc, left, a)?, b) }
        _ => pair(alloc, left.copy()?, right.copy()?),
    }
}

/// The units of both texts in one piece.
fn merged(alloc: Global, left: &Text, right: &Text) -> Result<Text, OutOfMemory>
    requires { length left.now + length right.now ≤ MAX_UNITS }
    ensures { IfOk result (λ text. text ≡ left.now ++ right.now) }
{
    let mut units = Vec::with_capacity(alloc, (left.len() + right.len()) as usize)?;
    left.push_units(&mut units)?;
    right.push_units(&mut units)?;
    text_of_vec(alloc, units)
}

/// The two texts, one after the other, which are not empty.
fn pair(alloc: Global, left: Text, right: Text) -> Result<Text, OutOfMemory>
    requires { (0 < length left) × (0 < length right) × (length left + length right ≤ MAX_UNITS) }
    ensures { IfOk result (λ text. text ≡ left ++ right) }
{
    let len = left.len() + right.len();
    let height = left.height().max(right.height()).saturating_add(1);
    let node = Node::Join {
        left,
        right,
        len,
        height,
    };
    Ok(Text {
        node: Rc::new(alloc, node)?,
    })
}

/// The two texts, one after the other, where one may be two joins higher than the other: then it is turned, as in a tree of Adelson-Velsky and Landis.
fn balanced(alloc: Global, left: &Text, right: &Text) -> Result<Text, OutOfMemory>
    requires { (0 < length left.now) × (0 < length right.now)
        × (length left.now + length right.now ≤ MAX_UNITS) }
    ensures { IfOk result (λ text. text ≡ left.now ++ right.now) }
{
    let (l, r) = (left.height(), right.height());
    match (&*left.node, &*right.node) {
        (
            Node::Join {
                left: a,
                right: b,
                ..
            },
            _,
        ) if l > r.saturating_add(1) => { turned_right(alloc, a, b, right) }
        (
            _,
            Node::Join {
                left: b,
                right: c,
                ..
            },
        ) if r > l.saturating_add(1) => { turned_left(alloc, left, b, c) }
        _ => pair(alloc, left.copy()?, right.copy()?),
    }
}

/// The three texts, of which the first stood together with the second. Where the second is the higher one, it is taken apart.
fn turned_right(alloc: Global, a: &Text, b: &Text, c: &Text) -> Result<Text, OutOfMemory>
    requires some { (0 < length a.now) × (0 < length b.now) × (0 < length c.now) }
    requires few { length a.now + length b.now + length c.now ≤ MAX_UNITS }
    ensures { IfOk result (λ text. text ≡ (a.now ++ b.now) ++ c.now) }
{
    match &*b.node {
        Node::Join { left, right, .. } if b.height() > a.height() => {
            let front = pair(alloc, a.copy()?, left.copy()?)?;
            let back = pair(alloc, right.copy()?, c.copy()?)?;
            pair(alloc, front, back)
        }
        _ => {
            let back = pair(alloc, b.copy()?, c.copy()?)?;
            pair(alloc, a.copy()?, back)
        }
    }
}

/// The three texts, of which the second stood together with the third. Where the second is the higher one, it is taken apart.
fn turned_left(alloc: Global, a: &Text, b: &Text, c: &Text) -> Result<Text, OutOfMemory>
    requires some { (0 < length a.now) × (0 < length b.now) × (0 < length c.now) }
    requires few { length a.now + length b.now + length c.now ≤ MAX_UNITS }
    ensures { IfOk result (λ text. text ≡ a.now ++ (b.now ++ c.now)) }
{
    match &*b.node {
        Node::Join { left, right, .. } if b.height() > c.height() => {
            let front = pair(alloc, a.copy()?, left.copy()?)?;
            let back = pair(alloc, right.copy()?, c.copy()?)?;
            pair(alloc, front, back)
        }
        _ => {
            let front = pair(alloc, a.copy()?, b.copy()?)?;
            pair(alloc, front, c.copy()?)
        }
    }
}
