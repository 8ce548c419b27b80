// Faults against early rules, and the one that is told.

ghost use Rattle.std.specs.Prelude.{◌≡◌, ◌++◌, OnOk};
ghost use Rattle.js_early.specs.Faults as spec;

use js_walk::places::is_before;
use lava_base::memory::OutOfMemory;
use lava_base::place::Place;
use sqlite_items::Items;

/// An early rule, in the order in which rules are told at one place.
#[derive(Clone, Copy)]
pub enum EarlyRule {
    Duplicate,
    Parameter,
    Label,
    Break,
    Continue,
    Return,
    NewTarget,
    Super,
    Binding,
    Delete,
    Const,
    Assignment,
    Constructor,
    Function,
}

/// A rule that is broken, and where.
#[derive(Clone, Copy)]
pub struct EarlyFault {
    pub rule: EarlyRule,
    pub place: Place,
}

/// Appends a fault.
pub(crate) fn put(
    rule: EarlyRule,
    place: Place,
    out: &mut Items<EarlyFault>,
) -> Result<(), OutOfMemory>
    ensures { OnOk result (out.new ≡ out.old ++ spec.fault rule place) }
{
    out.push(EarlyFault { rule, place })?;
    Ok(())
}

/// Appends a fault where something does not hold.
pub(crate) fn unless(
    ok: bool,
    rule: EarlyRule,
    place: Place,
    out: &mut Items<EarlyFault>,
) -> Result<(), OutOfMemory>
    ensures { OnOk result (out.new ≡ out.old ++ spec.unless ok rule place) }
{
    if ok {
        return Ok(());
    }
    put(rule, place, out)
}

/// The name of a rule.
pub fn rule_name(rule: EarlyRule) -> &'static str
    ensures { result.now ≡ spec.rule_name rule }
{
    match rule {
        EarlyRule::Duplicate => "duplicate",
        EarlyRule::Parameter => "parameter",
        EarlyRule::Label => "label",
        EarlyRule::Break => "break",
        EarlyRule::Continue => "continue",
        EarlyRule::Return => "return",
        EarlyRule::NewTarget => "new.target",
        EarlyRule::Super => "super",
        EarlyRule::Binding => "binding",
        EarlyRule::Delete => "delete",
        EarlyRule::Const => "const",
        EarlyRule::Assignment => "assignment",
        EarlyRule::Constructor => "constructor",
        EarlyRule::Function => "function",
    }
}

fn rank(rule: EarlyRule) -> u32
    ensures { result ≡ spec.rank rule }
{
    match rule {
        EarlyRule::Duplicate => 0,
        EarlyRule::Parameter => 1,
        EarlyRule::Label => 2,
        EarlyRule::Break => 3,
        EarlyRule::Continue => 4,
        EarlyRule::Return => 5,
        EarlyRule::NewTarget => 6,
        EarlyRule::Super => 7,
        EarlyRule::Binding => 8,
        EarlyRule::Delete => 9,
        EarlyRule::Const => 10,
        EarlyRule::Assignment => 11,
        EarlyRule::Constructor => 12,
        EarlyRule::Function => 13,
    }
}

fn is_same_place(a: Place, b: Place) -> bool
    ensures { result ≡ spec.is_same_place a b }
{
    a.line == b.line && a.unit == b.unit
}

fn is_sooner(f: EarlyFault, g: EarlyFault) -> bool
    ensures { result ≡ spec.is_sooner f g }
{
    is_before(f.place, g.place) || (is_same_place(f.place, g.place) && rank(f.rule) < rank(g.rule))
}

fn sooner(best: Option<EarlyFault>, f: EarlyFault) -> Option<EarlyFault>
    ensures { result ≡ spec.sooner best f }
{
    match best {
        None => Some(f),
        Some(g) => { if is_sooner(f, g) { Some(f) } else { Some(g) } }
    }
}

/// The fault at the least place, and at one place that whose rule comes first.
pub(crate) fn least(mut list: &[EarlyFault]) -> Option<EarlyFault>
    ensures { result ≡ spec.least list.entry.now }
{
    let mut best = None;
    while let [first, rest @ ..] = list {
        best = sooner(best, *first);
        list = rest;
    }
    best
}
