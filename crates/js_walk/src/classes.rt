// What stands below functions and classes.

ghost use Rattle.std.specs.Prelude.{◌≡◌, ◌++◌, OnOk};
ghost use Rattle.js_text.specs.Texts.{same_units};
ghost use Rattle.js_walk.specs.Parts.{Adds};
ghost use Rattle.js_walk.specs.Parts as spec;
ghost use Rattle.js_names.specs.Lists.{flat, from_option};

use crate::expressions::{key, maybe_operand, operand};
use crate::patterns::{elements, maybe_pattern};
use crate::statements::statements;
use crate::subtree::{Subtree, add};
use crate::words::is_word;
use js_tree::tree::{Body, Class, ClassMember, Function, FunctionKind, PropertyKey};
use lava_base::memory::OutOfMemory;
use sqlite_items::Items;

fn body<'a>(body: &'a Body, out: &mut Items<Subtree<'a>>) -> Result<(), OutOfMemory>
    ensures { OnOk result (Adds out.old out.new (spec.body body.now)) }
{
    match body {
        Body::Statements(list) => statements(list.as_slice(), out),
        Body::Concise(expression) => operand(expression.get(), out),
    }
}

pub(crate) fn function_parts<'a>(
    function: &'a Function,
    out: &mut Items<Subtree<'a>>,
) -> Result<(), OutOfMemory>
    ensures { OnOk result (Adds out.old out.new (spec.function_parts function.now)) }
{
    elements(false, function.parameters.as_slice(), out)?;
    maybe_pattern(false, &function.rest, out)?;
    body(&function.body, out)
}

fn is_method(kind: FunctionKind) -> bool
    ensures { result ≡ spec.is_method kind }
{
    match kind {
        FunctionKind::Method => true,
        FunctionKind::Plain => false,
        FunctionKind::Arrow => false,
        FunctionKind::Getter => false,
        FunctionKind::Setter => false,
    }
}

fn is_constructor_key(key: &PropertyKey) -> bool
    ensures { result ≡ spec.is_constructor_key key.now }
{
    match key {
        PropertyKey::Named(identifier) => is_word(&identifier.name, b"constructor"),
        PropertyKey::Numbered { .. } => false,
        PropertyKey::Computed { .. } => false,
    }
}

/// Whether a member is the constructor of its class (ECMA-262, ConstructorMethod).
pub fn is_constructor(member: &ClassMember) -> bool
    ensures { result ≡ spec.is_constructor member.now }
{
    !member.is_static && is_method(member.function.get().kind) && is_constructor_key(&member.key)
}

fn member<'a>(
    derived: bool,
    member: &'a ClassMember,
    out: &mut Items<Subtree<'a>>,
) -> Result<(), OutOfMemory>
    ensures { OnOk result (Adds out.old out.new (spec.member derived member.now)) }
{
    key(&member.key, out)?;
    let calls_super = derived && is_constructor(member);
    add(Subtree::Function(calls_super, member.function.get()), out)
}

fn members<'a>(
    derived: bool,
    mut list: &'a [ClassMember],
    out: &mut Items<Subtree<'a>>,
) -> Result<(), OutOfMemory>
    ensures { OnOk result (Adds out.old out.new (flat (spec.member derived) list.entry.now)) }
{
    while let [first, rest @ ..] = list {
        member(derived, first, out)?;
        list = rest;
    }
    Ok(())
}

pub(crate) fn class_parts<'a>(
    class: &'a Class,
    out: &mut Items<Subtree<'a>>,
) -> Result<(), OutOfMemory>
    ensures { OnOk result (Adds out.old out.new (spec.class_parts class.now)) }
{
    maybe_operand(&class.heritage, out)?;
    members(class.heritage.is_some(), class.members.as_slice(), out)
}
