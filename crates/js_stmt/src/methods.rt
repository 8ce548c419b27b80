// Methods, getters and setters, of object literals and of classes.

ghost use Rattle.std.specs.Prelude.{◌≡◌, [], ◌∷◌, IfOk};
ghost use Rattle.js_stmt.specs.Methods as spec;

use crate::functions::function;
use js_expr::names::identifier;
use js_expr::objects::{key_place, moved_function};
use js_phrase::phrase::{Parameters, Phrase};
use js_phrase::queue::Queue;
use js_tree::tree::{ClassMember, Function, FunctionKind, PatternElement, PropertyKey};
use lava_base::memory::OutOfMemory;
use lava_base::place::Place;
use sqlite_items::{Boxed, Items};
use std::alloc::Global;

/// The parameters and the body of a method (ECMA-262, MethodDefinition).
pub fn method_tail(alloc: Global, parts: &mut Queue<Phrase>) -> Result<Phrase, OutOfMemory>
    ensures { IfOk result (λ p. p ≡ spec.method_tail parts.old) }
{
    let Parameters {
        place,
        elements,
        rest,
    } = parts.parameters(alloc)?.into_inner();
    let statements = parts.statements(alloc);
    let made = function(
        place,
        FunctionKind::Method,
        None,
        elements,
        rest,
        statements,
    );
    Ok(Phrase::Function(Boxed::new(alloc, made)?))
}

/// A member, as a phrase.
fn member_phrase(
    alloc: Global,
    place: Place,
    is_static: bool,
    key: PropertyKey,
    function: Boxed<Function>,
) -> Result<Phrase, OutOfMemory>
    ensures { IfOk result (λ p. p ≡ Phrase.Member (spec.member place is_static key function)) }
{
    let made = ClassMember {
        place,
        is_static,
        key,
        function,
    };
    Ok(Phrase::Member(Boxed::new(alloc, made)?))
}

/// A method with this key.
fn method_member(
    alloc: Global,
    key: PropertyKey,
    function: Boxed<Function>,
) -> Result<Phrase, OutOfMemory>
    ensures { IfOk result (λ p. p ≡ Phrase.Member (spec.method_member key function)) }
{
    let place = key_place(&key);
    let function = moved_function(alloc, place, function)?;
    member_phrase(alloc, place, false, key, function)
}

/// A method, behind `static` too (ECMA-262, MethodDefinition).
pub fn method(alloc: Global, parts: &mut Queue<Phrase>) -> Result<Phrase, OutOfMemory>
    ensures { IfOk result (λ p. p ≡ spec.method parts.old) }
{
    let key = parts.key();
    let function = parts.function(alloc)?;
    method_member(alloc, key, function)
}

/// A method that is called `static` (ECMA-262, MethodDefinition).
pub fn static_named_method(
    alloc: Global,
    source: &[u8],
    parts: &mut Queue<Phrase>,
) -> Result<Phrase, OutOfMemory>
    ensures { IfOk result (λ p. p ≡ spec.static_named_method source.now parts.old) }
{
    let name = identifier(alloc, source, parts.token())?;
    let function = parts.function(alloc)?;
    method_member(alloc, PropertyKey::Named(name), function)
}

/// A getter or setter, of which its `)` and its body are left.
fn accessor(
    alloc: Global,
    place: Place,
    kind: FunctionKind,
    key: PropertyKey,
    parameters: Items<PatternElement>,
    parts: &mut Queue<Phrase>,
) -> Result<Phrase, OutOfMemory>
    ensures { IfOk result (λ p. p ≡ spec.accessor place kind key parameters parts.old) }
{
    parts.skip();
    let statements = parts.statements(alloc);
    let made = function(place, kind, None, parameters, None, statements);
    member_phrase(alloc, place, false, key, Boxed::new(alloc, made)?)
}

/// A getter (ECMA-262, MethodDefinition).
pub fn getter(alloc: Global, parts: &mut Queue<Phrase>) -> Result<Phrase, OutOfMemory>
    ensures { IfOk result (λ p. p ≡ spec.getter parts.old) }
{
    let place = parts.token().start;
    let key = parts.key();
    parts.skip();
    accessor(
        alloc,
        place,
        FunctionKind::Getter,
        key,
        Items::new(alloc),
        parts,
    )
}

/// The parameters that are one alone.
fn one_parameter(
    alloc: Global,
    parameter: PatternElement,
) -> Result<Items<PatternElement>, OutOfMemory>
    ensures { IfOk result (λ l. l ≡ parameter ∷ []) }
{
    let mut parameters = Items::new(alloc);
    parameters.push(parameter)?;
    Ok(parameters)
}

/// A setter (ECMA-262, MethodDefinition).
pub fn setter(alloc: Global, parts: &mut Queue<Phrase>) -> Result<Phrase, OutOfMemory>
    ensures { IfOk result (λ p. p ≡ spec.setter parts.old) }
{
    let place = parts.token().start;
    let key = parts.key();
    parts.skip();
    let parameter = parts.element(alloc)?;
    let parameters = one_parameter(alloc, parameter)?;
    accessor(alloc, place, FunctionKind::Setter, key, parameters, parts)
}

/// A member, behind `static` at a place.
fn static_member(alloc: Global, place: Place, member: ClassMember) -> Result<Phrase, OutOfMemory>
    ensures { IfOk result (λ p. p ≡ Phrase.Member (spec.static_member place member)) }
{
    let ClassMember { key, function, .. } = member;
    let function = moved_function(alloc, place, function)?;
    member_phrase(alloc, place, true, key, function)
}

/// A member behind `static` (ECMA-262, ClassElement).
pub fn static_element(alloc: Global, parts: &mut Queue<Phrase>) -> Result<Phrase, OutOfMemory>
    ensures { IfOk result (λ p. p ≡ spec.static_element parts.old) }
{
    let place = parts.token().start;
    match parts.next() {
        Phrase::Member(member) => static_member(alloc, place, member.into_inner()),
        other => {
            other.discard();
            Ok(Phrase::Absent)
        }
    }
}
