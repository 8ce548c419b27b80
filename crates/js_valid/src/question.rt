// What a term asks of what stands round it.

ghost use Rattle.std.specs.Prelude.{◌≡◌};
ghost use Rattle.js_valid.specs.Surroundings as spec;
ghost use Rattle.js_valid.specs.Surroundings.{place};

use crate::surrounding::Surrounding;
use js_term::term::TemplateKind;
use js_text::text::Text;

/// What may be asked, from the innermost outwards.
#[derive(Clone, Copy, Drop)]
pub enum Question<'a> {
    /// Whether a `Break` of a label has its target.
    BreakTarget(&'a Text),
    /// Whether a `Continue` of a label has its target.
    ContinueTarget(&'a Text),
    /// Whether a property of `super` may stand there.
    SuperProperty,
    /// Whether a call of `super` may stand there.
    SuperCall,
    /// Whether the innermost scope is that of a `Scope`.
    FreshScope,
}

fn has_text(list: &[Text], text: &Text) -> bool
    ensures { result ≡ spec.has_text text.now list.now }
{
    let mut at = 0;
    while at < list.len() {
        if list[at].is_same(text) {
            return true;
        }
        at += 1;
    }
    false
}

fn if_true(found: bool) -> Option<bool>
    ensures { result ≡ spec.if_true found }
{
    if found { Some(true) } else { None }
}

fn break_at(label: &Text, of: Surrounding<'_>) -> Option<bool>
    ensures { result ≡ spec.break_at label.now (spec.round_of of.entry) }
{
    match of {
        Surrounding::Scope(_) => None,
        Surrounding::Handler => None,
        Surrounding::Body { .. } => Some(false),
        Surrounding::Loop(labels) => if_true(has_text(labels, label)),
        Surrounding::Label(own) => if_true(own.is_same(label)),
    }
}

fn continue_at(label: &Text, of: Surrounding<'_>) -> Option<bool>
    ensures { result ≡ spec.continue_at label.now (spec.round_of of.entry) }
{
    match of {
        Surrounding::Scope(_) => None,
        Surrounding::Handler => None,
        Surrounding::Body { .. } => Some(false),
        Surrounding::Loop(labels) => if_true(has_text(labels, label)),
        Surrounding::Label(_) => None,
    }
}

fn property_in(kind: TemplateKind) -> Option<bool>
    ensures { result ≡ spec.property_in kind }
{
    match kind {
        TemplateKind::Plain => Some(false),
        TemplateKind::Arrow => None,
        TemplateKind::Method => Some(true),
        TemplateKind::Base => Some(true),
        TemplateKind::Derived => Some(true),
        TemplateKind::Built => Some(false),
        TemplateKind::Module => Some(false),
        TemplateKind::Text => Some(false),
    }
}

fn call_in(kind: TemplateKind) -> Option<bool>
    ensures { result ≡ spec.call_in kind }
{
    match kind {
        TemplateKind::Plain => Some(false),
        TemplateKind::Arrow => None,
        TemplateKind::Method => Some(false),
        TemplateKind::Base => Some(false),
        TemplateKind::Derived => Some(true),
        TemplateKind::Built => Some(false),
        TemplateKind::Module => Some(false),
        TemplateKind::Text => Some(false),
    }
}

fn super_property_at(of: Surrounding<'_>) -> Option<bool>
    ensures { result ≡ spec.super_property_at (spec.round_of of.entry) }
{
    match of {
        Surrounding::Body { kind, .. } => property_in(kind),
        _ => None,
    }
}

fn super_call_at(of: Surrounding<'_>) -> Option<bool>
    ensures { result ≡ spec.super_call_at (spec.round_of of.entry) }
{
    match of {
        Surrounding::Body { kind, .. } => call_in(kind),
        _ => None,
    }
}

fn fresh_at(of: Surrounding<'_>) -> Option<bool>
    ensures { result ≡ spec.fresh_at (spec.round_of of.entry) }
{
    match of {
        Surrounding::Scope(_) => Some(true),
        Surrounding::Handler => Some(false),
        Surrounding::Body { .. } => Some(false),
        Surrounding::Loop(_) => None,
        Surrounding::Label(_) => None,
    }
}

fn answer(question: Question<'_>, of: Surrounding<'_>) -> Option<bool>
    ensures { result ≡ spec.answer (spec.question_of question.entry) (spec.round_of of.entry) }
{
    match question {
        Question::BreakTarget(label) => break_at(label, of),
        Question::ContinueTarget(label) => continue_at(label, of),
        Question::SuperProperty => super_property_at(of),
        Question::SuperCall => super_call_at(of),
        Question::FreshScope => fresh_at(of),
    }
}

/// What the first of the surroundings says that answers; false where none does.
pub fn first_answer(round: &[Surrounding<'_>], question: Question<'_>) -> bool
    ensures { result ≡ spec.first_answer (spec.question_of question.entry) (place round.now) }
{
    let mut at = round.len();
    while 0 < at {
        at -= 1;
        if let Some(said) = answer(question, round[at]) {
            return said;
        }
    }
    false
}
