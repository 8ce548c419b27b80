// The terms, lists and arguments that a row names.

ghost use Rattle.std.specs.Prelude.{◌≡◌, IfOk};
ghost use Rattle.std.specs.Option.{option_map};
ghost use Rattle.js_code.specs.Decoded.{arguments_at, terms_of, text_at};
ghost use Rattle.js_code.specs.Settled.{Extends, Gives, Holds};

use crate::code::Code;
use crate::compile::place;
use crate::node::ArgumentRow;
use js_term::term::{Arguments, Term};
use js_text::text::Text;
use lava_base::memory::OutOfMemory;
use sqlite_items::{Boxed, Items};

/// Appends two terms.
#[cycle(compile)]
pub(crate) fn two(
    depth: usize,
    code: &mut Code,
    a: &Boxed<Term>,
    b: &Boxed<Term>,
) -> Result<(u32, u32), OutOfMemory>
    ensures extends { Extends code.old code.new }
    ensures first { Gives result (λ at. λ c low. low at.0) code.new a.now }
    ensures second { Gives result (λ at. λ c low. low at.1) code.new b.now }
{
    let first = place(depth, code, a)?;
    let second = place(depth, code, b)?;
    Ok((first, second))
}

/// Appends three terms.
#[cycle(compile)]
pub(crate) fn three(
    depth: usize,
    code: &mut Code,
    a: &Boxed<Term>,
    b: &Boxed<Term>,
    c: &Boxed<Term>,
) -> Result<(u32, u32, u32), OutOfMemory>
    ensures extends { Extends code.old code.new }
    ensures first { Gives result (λ at. λ c low. low at.0) code.new a.now }
    ensures second { Gives result (λ at. λ c low. low at.1) code.new b.now }
    ensures third { Gives result (λ at. λ c low. low at.2) code.new c.now }
{
    let (first, second) = two(depth, code, a, b)?;
    let third = place(depth, code, c)?;
    Ok((first, second, third))
}

/// Appends a term, if there is one.
#[cycle(compile)]
pub(crate) fn maybe(
    depth: usize,
    code: &mut Code,
    slot: &Option<Boxed<Term>>,
) -> Result<Option<u32>, OutOfMemory>
    ensures extends { Extends code.old code.new }
    ensures term { Gives result (λ at. λ c low. option_map low at) code.new slot.now }
{
    match slot {
        None => Ok(None),
        Some(term) => {
            let at = place(depth, code, term)?;
            Ok(Some(at))
        }
    }
}

/// Appends terms, and then the list of their places.
#[cycle(compile)]
pub(crate) fn terms(
    depth: usize,
    code: &mut Code,
    list: &Items<Boxed<Term>>,
) -> Result<(u32, u32), OutOfMemory>
    ensures extends { Extends code.old code.new }
    ensures terms { Gives result (λ at. λ c low. terms_of c low at.0 at.1) code.new list.now }
{
    let mut places = Vec::new(code.alloc());
    let items = list.as_slice();
    for term in items {
        let at = place(depth, code, term)?;
        places.push(at)?;
    }
    code.push_numbers(&places)
}

/// Appends what a call is given.
#[cycle(compile)]
pub(crate) fn arguments(
    depth: usize,
    code: &mut Code,
    given: &Arguments,
) -> Result<u32, OutOfMemory>
    ensures extends { Extends code.old code.new }
    ensures given { Gives result (λ at. λ c low. arguments_at c low at) code.new given.now }
{
    match given {
        Arguments::Listed(list) => {
            let (start, count) = terms(depth, code, list)?;
            code.push_arguments(ArgumentRow::Listed { start, count })
        }
        Arguments::Of(array) => {
            let array = place(depth, code, array)?;
            code.push_arguments(ArgumentRow::Of(array))
        }
    }
}

/// Appends a term, and what a call is given.
#[cycle(compile)]
pub(crate) fn called(
    depth: usize,
    code: &mut Code,
    callee: &Boxed<Term>,
    given: &Arguments,
) -> Result<(u32, u32), OutOfMemory>
    ensures extends { Extends code.old code.new }
    ensures callee { Gives result (λ at. λ c low. low at.0) code.new callee.now }
    ensures given { Gives result (λ at. λ c low. arguments_at c low at.1) code.new given.now }
{
    let callee = place(depth, code, callee)?;
    let given = arguments(depth, code, given)?;
    Ok((callee, given))
}

/// Appends an object, a key, and what a call is given.
#[cycle(compile)]
pub(crate) fn called_on(
    depth: usize,
    code: &mut Code,
    object: &Boxed<Term>,
    key: &Boxed<Term>,
    given: &Arguments,
) -> Result<(u32, u32, u32), OutOfMemory>
    ensures extends { Extends code.old code.new }
    ensures object { Gives result (λ at. λ c low. low at.0) code.new object.now }
    ensures key { Gives result (λ at. λ c low. low at.1) code.new key.now }
    ensures given { Gives result (λ at. λ c low. arguments_at c low at.2) code.new given.now }
{
    let (object, key) = two(depth, code, object, key)?;
    let given = arguments(depth, code, given)?;
    Ok((object, key, given))
}

/// Appends a name and a term.
#[cycle(compile)]
pub(crate) fn named(
    depth: usize,
    code: &mut Code,
    name: &Text,
    term: &Boxed<Term>,
) -> Result<(u32, u32), OutOfMemory>
    ensures extends { Extends code.old code.new }
    ensures name { Gives result (λ at. λ c low. text_at c at.0) code.new name.now }
    ensures term { Gives result (λ at. λ c low. low at.1) code.new term.now }
{
    let term = place(depth, code, term)?;
    let name = code.push_text(name)?;
    Ok((name, term))
}
