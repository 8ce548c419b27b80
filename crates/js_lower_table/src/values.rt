// Terms that stand often in the table, made on a stack.

ghost use Rattle.std.specs.Prelude.{◌≡◌, ◌+◌, pos, [], ◌∷◌, codes, length, OnOk, Some, None};
ghost use Rattle.js_lower_table.specs.Values as spec;
ghost use Rattle.js_term.specs.declared.term.Term.TheVariants as term;
ghost use Rattle.js_term_stack.specs.Stacks as stack;
ghost use Rattle.js_term_stack.specs.declared.piece.Piece.TheVariants as piece;
ghost use Rattle.js_text.specs.declared.native.Native.TheVariants as native;
ghost use Rattle.js_lower_table.specs.declared.commons.TheConstants.{ARRAY_PROTOTYPE, OBJECT_PROTOTYPE};

use crate::commons::{ARRAY_PROTOTYPE, OBJECT_PROTOTYPE};
use crate::held::Held;
use crate::words::{after, count, decimal, word};
use js_frames::scopes::Scopes;
use js_term::term::Term;
use js_term_stack::piece::Piece;
use js_term_stack::stack::Stack;
use js_text::native::Native;
use js_tree::operator::BinaryOperator;
use lava_base::ids::CommonId;
use lava_base::memory::OutOfMemory;

/// A text that the lowering itself writes.
pub fn word_term(terms: &mut Stack, known: &[u8]) -> Result<(), OutOfMemory>
    ensures { OnOk result (terms.new ≡ piece.OneTerm (spec.text known.now) ∷ terms.old) }
{
    let text = word(terms.alloc(), known)?;
    terms.text(text)
}

/// A number that counts.
pub fn count_term(terms: &mut Stack, n: usize) -> Result<(), OutOfMemory>
    ensures { OnOk result (terms.new ≡ piece.OneTerm (spec.integer (pos n)) ∷ terms.old) }
{
    terms.integer(i64::from(count(n)?))
}

pub fn common_term(terms: &mut Stack, place: u32) -> Result<(), OutOfMemory>
    ensures { OnOk result (terms.new ≡ piece.OneTerm (spec.common_term place) ∷ terms.old) }
{
    terms.common(CommonId(place))
}

/// A held slot, where so many scopes stand.
pub fn slot_at(terms: &mut Stack, scopes: usize, held: Held) -> Result<(), OutOfMemory>
    ensures { OnOk result (terms.new ≡ piece.OneTerm (spec.slot_at scopes held) ∷ terms.old) }
{
    let hops = count(scopes.saturating_sub(held.level).saturating_sub(1))?;
    let slot = count(held.slot)?;
    terms.local(hops, slot)
}

/// A held slot.
pub fn slot(scopes: &Scopes, terms: &mut Stack, held: Held) -> Result<(), OutOfMemory>
    ensures { OnOk result (terms.new ≡ piece.OneTerm (spec.slot scopes.now held) ∷ terms.old) }
{
    slot_at(terms, scopes.len(), held)
}

/// A slot of the scope that is opened next.
pub fn next_held(scopes: &Scopes, slot: usize) -> Held
    ensures { result ≡ spec.next_held scopes.now slot }
{
    Held {
        level: scopes.len(),
        slot,
    }
}

/// A call of a method of the last term, without arguments.
pub fn call_name(terms: &mut Stack, name: &[u8]) -> Result<(), OutOfMemory>
    ensures { OnOk result (terms.new ≡ stack.on_one
        (λ t. spec.call_name t name.now) terms.old) }
{
    word_term(terms, name)?;
    terms.begin()?;
    terms.listed()?;
    terms.call_on()
}

/// A call of a common function with the last list as its arguments.
pub fn call_common(terms: &mut Stack, place: u32) -> Result<(), OutOfMemory>
    ensures { OnOk result (terms.new ≡ stack.on_list
        (λ l. spec.call_common place l) terms.old) }
{
    terms.call_common(CommonId(place))
}

/// A call of a common function with the last term as its argument.
pub fn call_common_on(terms: &mut Stack, place: u32) -> Result<(), OutOfMemory>
    ensures { OnOk result (terms.new ≡ stack.on_one
        (λ t. spec.call_common place (t ∷ [])) terms.old) }
{
    terms.call_common_on(CommonId(place))
}

/// Begins an array: its parts follow, and then `define`.
pub fn begin_array(terms: &mut Stack) -> Result<(), OutOfMemory>
    ensures { let operands = spec.common_term ARRAY_PROTOTYPE ∷ spec.integer (pos 0) ∷ [] in
        let array = term.Native native.MakeArray operands in
        OnOk result (terms.new ≡ piece.PartList [] ∷ piece.OneTerm array ∷ terms.old) }
{
    common_term(terms, ARRAY_PROTOTYPE)?;
    terms.integer(0)?;
    terms.list_two()?;
    terms.native(Native::MakeArray)?;
    terms.begin_parts()
}

/// Begins an object: its parts follow, and then `define`.
pub fn begin_object(terms: &mut Stack) -> Result<(), OutOfMemory>
    ensures { let object = term.Native native.MakeObject (spec.common_term OBJECT_PROTOTYPE ∷ []) in
        OnOk result (terms.new ≡ piece.PartList [] ∷ piece.OneTerm object ∷ terms.old) }
{
    common_term(terms, OBJECT_PROTOTYPE)?;
    terms.native_of_one(Native::MakeObject)?;
    terms.begin_parts()
}

pub fn to_text(terms: &mut Stack) -> Result<(), OutOfMemory>
    ensures { OnOk result (terms.new ≡ stack.on_one (λ t. spec.to_text t) terms.old) }
{
    terms.native_of_one(Native::ToText)
}

pub fn to_key(terms: &mut Stack) -> Result<(), OutOfMemory>
    ensures { OnOk result (terms.new ≡ stack.on_one (λ t. spec.to_key t) terms.old) }
{
    terms.native_of_one(Native::ToKey)
}

pub fn number_key(terms: &mut Stack, number: Option<i64>) -> Result<(), OutOfMemory>
    ensures { OnOk result (terms.new ≡ piece.OneTerm (spec.number_key number) ∷ terms.old) }
{
    match number {
        None => terms.outside(),
        Some(n) => {
            let text = decimal(terms.alloc(), n)?;
            terms.text(text)
        }
    }
}

pub fn number(terms: &mut Stack, number: Option<i64>) -> Result<(), OutOfMemory>
    ensures { OnOk result (terms.new ≡ piece.OneTerm (spec.number number) ∷ terms.old) }
{
    match number {
        None => terms.outside(),
        Some(n) => terms.integer(n),
    }
}

/// The last list in a scope of so many slots.
pub fn scope_of(terms: &mut Stack, slots: usize) -> Result<(), OutOfMemory>
    ensures { OnOk result (terms.new ≡ stack.on_list
        (λ l. spec.scope_of slots l) terms.old) }
{
    let slots = count(slots)?;
    terms.scope(slots)
}

/// Whether a slot of the innermost scope is undefined or null.
pub fn is_null(terms: &mut Stack, slot: u32) -> Result<(), OutOfMemory>
    ensures { let test = spec.is_null (spec.here slot) in
        OnOk result (terms.new ≡ piece.OneTerm test ∷ terms.old) }
{
    terms.here(slot)?;
    terms.null()?;
    terms.binary(BinaryOperator::LooselyEqual)
}

/// The last list: its term alone, or one after the other.
pub fn single(terms: &mut Stack) -> Result<(), OutOfMemory>
    ensures { OnOk result (terms.new ≡ stack.on_list (λ l. spec.single l) terms.old) }
{
    let list = terms.take_list()?;
    if list.len() != 1 {
        return terms.add(Term::Seq(list));
    }
    let mut rest = list;
    match rest.pop() {
        Some(term) => terms.push(Piece::OneTerm(term)),
        None => terms.add(Term::Seq(rest)),
    }
}

fn quiet_handler(terms: &mut Stack, scopes: usize, iterator: Held) -> Result<(), OutOfMemory>
    ensures { let shutting = spec.call_name (spec.slot_at (scopes + 1) iterator) (codes "quiet") in
        let handler = term.Seq (shutting ∷ term.Throw (spec.here 0) ∷ []) in
        OnOk result (terms.new ≡ piece.OneTerm handler ∷ terms.old) }
{
    slot_at(terms, after(scopes)?, iterator)?;
    call_name(terms, b"quiet")?;
    terms.here(0)?;
    terms.throw()?;
    terms.list_two()?;
    terms.seq()
}

/// The last term, which runs over an iterator, with what shuts the iterator however that ends.
#[tactic(auto, using(js_term_stack::specs::Stack_laws::on_one_twice))]
pub fn guard(terms: &mut Stack, scopes: usize, iterator: Held) -> Result<(), OutOfMemory>
    ensures { OnOk result (terms.new ≡ stack.on_one
        (λ t. spec.guard scopes iterator t) terms.old) }
{
    quiet_handler(terms, scopes, iterator)?;
    terms.some()?;
    terms.none()?;
    terms.try_term()?;
    terms.none()?;
    slot_at(terms, scopes, iterator)?;
    call_name(terms, b"shut")?;
    terms.some()?;
    terms.try_term()
}
