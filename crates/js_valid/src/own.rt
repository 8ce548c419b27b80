// The rules on one term, part or template.

ghost use Rattle.std.specs.Prelude.{◌≡◌};
ghost use Rattle.js_term.specs.declared.term.Jump.{out-Jump};
ghost use Rattle.js_term.specs.declared.term.Term.{out-Term};
ghost use Rattle.js_valid.specs.Surroundings.{place};
ghost use Rattle.js_valid.specs.Valid as spec;
ghost use Rattle.js_valid.specs.Work.{item_of};

use crate::question::{Question, first_answer};
use crate::surrounding::{Surrounding, is_slot};
use crate::work::TermItem;
use js_term::term::{Jump, Literal, Template, TemplateKind, Term};
use js_text::common::common_path;
use js_text::native::Native;

fn literal_fits(of: &Literal) -> bool
    ensures { result ≡ spec.literal_fits of.now }
{
    match of {
        Literal::Common(id) => common_path(*id).is_some(),
        _ => true,
    }
}

fn has_operands(native: Native, count: usize) -> bool
    ensures { result ≡ spec.has_operands native count }
{
    match native.operands() {
        None => true,
        Some(wanted) => count == wanted as usize,
    }
}

fn term_fits(round: &[Surrounding<'_>], of: &Term) -> bool
    ensures { result ≡ spec.term_fits (place round.now) (out-Term of.now) }
{
    match of {
        Term::Lit(value) => literal_fits(value),
        Term::Local { hops, slot } => is_slot(round, *hops, *slot),
        Term::SetLocal { hops, slot, .. } => is_slot(round, *hops, *slot),
        Term::Init { hops, slot, .. } => is_slot(round, *hops, *slot),
        Term::Native { native, operands } => has_operands(*native, operands.len()),
        Term::Fresh => first_answer(round, Question::FreshScope),
        _ => true,
    }
}

fn rest_parameters(rest: bool) -> u32
    ensures { result ≡ spec.rest_parameters rest }
{
    if rest { 1 } else { 0 }
}

fn least_slots(kind: TemplateKind) -> u32
    ensures { result ≡ spec.least_slots kind }
{
    match kind {
        TemplateKind::Plain => 0,
        TemplateKind::Arrow => 0,
        TemplateKind::Method => 0,
        TemplateKind::Base => 0,
        TemplateKind::Derived => 0,
        TemplateKind::Built => 0,
        TemplateKind::Module => 3,
        TemplateKind::Text => 1,
    }
}

fn all_below(slots: u32, list: &[u32]) -> bool
    ensures { result ≡ spec.all_below slots list.now }
{
    let mut at = 0;
    while at < list.len() {
        if list[at] >= slots {
            return false;
        }
        at += 1;
    }
    true
}

fn template_fits(of: &Template) -> bool
    ensures { result ≡ spec.template_fits of.now }
{
    of.params <= of.slots
        && rest_parameters(of.rest) <= of.params
        && least_slots(of.kind) <= of.slots
        && all_below(of.slots, of.undefined.as_slice())
}

fn jump_targeted(round: &[Surrounding<'_>], of: &Jump) -> bool
    ensures { result ≡ spec.jump_targeted (place round.now) (out-Jump of.now) }
{
    match of {
        Jump::Break(label) => first_answer(round, Question::BreakTarget(label)),
        Jump::Continue(label) => first_answer(round, Question::ContinueTarget(label)),
        Jump::Return(_) => true,
    }
}

fn term_targeted(round: &[Surrounding<'_>], of: &Term) -> bool
    ensures { result ≡ spec.term_targeted (place round.now) (out-Term of.now) }
{
    match of {
        Term::SuperGet { .. } => first_answer(round, Question::SuperProperty),
        Term::CallSuper { .. } => first_answer(round, Question::SuperProperty),
        Term::SuperNew { .. } => first_answer(round, Question::SuperCall),
        Term::Jump(jump) => jump_targeted(round, jump),
        _ => true,
    }
}

/// Whether an item keeps the rules, with what stands round it; what stands innermost is last.
pub fn stands(round: &[Surrounding<'_>], item: TermItem<'_>) -> bool
    ensures { result ≡ spec.stands (place round.now) (item_of item.entry) }
{
    match item {
        TermItem::OneTerm(of) => term_fits(round, of) && term_targeted(round, of),
        TermItem::OnePart(_) => true,
        TermItem::OneTemplate(of) => template_fits(of),
    }
}
