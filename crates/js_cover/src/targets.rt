// What covers become: targets and parameters.

ghost use Rattle.std.specs.Prelude.{◌≡◌, ◌++◌, IfOk, OnOk};
ghost use Rattle.js_cover.specs.Targets as spec;

use crate::refined::{MAX_LEVELS, element, refined};
use js_phrase::phrase::{Cover, Operands, Parameters, Phrase};
use js_phrase::phrases::{no_parameters, no_pattern, parenthesized};
use js_phrase::places::place_of;
use js_phrase::queue::Queue;
use js_tree::tree::{Declaration, Expr, ForTarget, Pattern, PatternElement};
use lava_base::memory::OutOfMemory;
use sqlite_items::{Boxed, Items};
use std::alloc::Global;

/// What an assignment gives its value to (ECMA-262, DestructuringAssignmentTarget).
pub fn target_of(alloc: Global, phrase: Phrase) -> Result<Boxed<Pattern>, OutOfMemory>
    ensures { IfOk result (λ p. p ≡ spec.target_of phrase) }
{
    match phrase {
        Phrase::Expression(expression) => refined(alloc, expression),
        Phrase::Covered(cover) => {
            let expression = parenthesized(alloc, cover)?;
            Ok(Boxed::new(alloc, Pattern::Target(expression))?)
        }
        other => {
            other.discard();
            no_pattern(alloc)
        }
    }
}

/// What a for-in or for-of statement gives its values to (ECMA-262, ForInOfStatement).
pub fn for_target_of(alloc: Global, phrase: Phrase) -> Result<ForTarget, OutOfMemory>
    ensures { IfOk result (λ t. t ≡ spec.for_target_of phrase) }
{
    match phrase {
        Phrase::Declaration(declaration) => { declared_target(alloc, declaration.into_inner()) }
        other => Ok(ForTarget::ForAssignment(target_of(alloc, other)?)),
    }
}

/// The parameters of an arrow function: what parentheses cover, or a name (ECMA-262, ArrowParameters).
pub fn arrow_parameters_of(alloc: Global, phrase: Phrase) -> Result<Boxed<Parameters>, OutOfMemory>
    ensures { IfOk result (λ p. p ≡ spec.arrow_parameters_of phrase) }
{
    match phrase {
        Phrase::Expression(name) => lone_parameter(alloc, name.into_inner()),
        Phrase::Covered(cover) => covered_parameters(alloc, cover.into_inner()),
        other => {
            other.discard();
            no_parameters(alloc)
        }
    }
}

fn declared_target(alloc: Global, declaration: Declaration) -> Result<ForTarget, OutOfMemory>
    ensures { IfOk result (λ t. t ≡ spec.declared_target declaration) }
{
    let Declaration {
        kind,
        declarators,
        ..
    } = declaration;
    let pattern = first_bound(alloc, declarators)?;
    Ok(ForTarget::ForBinding { kind, pattern })
}

fn first_bound(
    alloc: Global,
    declarators: Items<PatternElement>,
) -> Result<Boxed<Pattern>, OutOfMemory>
    ensures { IfOk result (λ p. p ≡ spec.first_bound declarators) }
{
    match Queue::of(alloc, declarators)?.pop() {
        Some(first) => Ok(first.pattern),
        None => no_pattern(alloc),
    }
}

fn lone_parameter(alloc: Global, name: Expr) -> Result<Boxed<Parameters>, OutOfMemory>
    ensures { IfOk result (λ p. p ≡ spec.lone_parameter name) }
{
    let place = place_of(&name);
    let mut elements = Items::new(alloc);
    add_parameter(alloc, name, &mut elements)?;
    let parameters = Parameters {
        place,
        elements,
        rest: None,
    };
    Ok(Boxed::new(alloc, parameters)?)
}

fn covered_parameters(alloc: Global, cover: Cover) -> Result<Boxed<Parameters>, OutOfMemory>
    ensures { IfOk result (λ p. p ≡ spec.covered_parameters cover) }
{
    let Cover {
        place,
        operands,
        rest,
    } = cover;
    let parameters = Parameters {
        place,
        elements: parameters_in(alloc, operands)?,
        rest,
    };
    Ok(Boxed::new(alloc, parameters)?)
}

fn parameters_in(alloc: Global, operands: Operands) -> Result<Items<PatternElement>, OutOfMemory>
    ensures { IfOk result (λ l. l ≡ spec.parameters_in operands) }
{
    match operands {
        Operands::NoOperand => Ok(Items::new(alloc)),
        Operands::Single(operand) => {
            let mut elements = Items::new(alloc);
            add_parameter(alloc, operand.into_inner(), &mut elements)?;
            Ok(elements)
        }
        Operands::Several(operands) => all_parameters(alloc, operands),
    }
}

fn all_parameters(
    alloc: Global,
    operands: Items<Boxed<Expr>>,
) -> Result<Items<PatternElement>, OutOfMemory>
    ensures { IfOk result (λ l. l ≡ spec.all_parameters operands) }
{
    let mut elements = Items::new(alloc);
    let mut left = Queue::of(alloc, operands)?;
    while let Some(operand) = left.pop() {
        add_parameter(alloc, operand.into_inner(), &mut elements)?;
    }
    Ok(elements)
}

fn add_parameter(
    alloc: Global,
    operand: Expr,
    elements: &mut Items<PatternElement>,
) -> Result<(), OutOfMemory>
    ensures { OnOk result (elements.new ≡ elements.old ++ spec.parameter_list_of operand) }
{
    let element = element(alloc, operand, MAX_LEVELS)?;
    Ok(elements.push(element)?)
}
