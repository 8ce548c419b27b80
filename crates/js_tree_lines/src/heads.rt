// A node's own line.

ghost use Rattle.std.specs.Prelude.{◌≡◌, ◌++◌, ◌∷◌, [], zero, suc, codes, decimal, map, OnOk};
ghost use Rattle.js_text.specs.Texts.{utf8_of};
ghost use Rattle.js_names.specs.Lists.{flat};
ghost use Rattle.js_term.specs.declared.term.Part.{out-Part};
ghost use Rattle.js_term.specs.declared.term.Term.{out-Term};
ghost use Rattle.js_tree_lines.specs.Atoms as atom;
ghost use Rattle.js_tree_lines.specs.Lines as spec;

use crate::atoms::{marked, name, number, quoted, quoted_all, truth, value, word};
use crate::node::Node;
use crate::words::{binary_word, kind_word, part_word, short_word, term_word, unary_word};
use js_term::term::{Jump, Part, Template, Term};
use js_text::text::Text;
use lava_base::list::List;
use lava_base::memory::OutOfMemory;

fn two_numbers(out: &mut List<u8>, a: u32, b: u32) -> Result<(), OutOfMemory>
    ensures { OnOk result (out.new ≡ out.old ++ flat spec.spaced (decimal a ∷ decimal b ∷ [])) }
{
    number(out, a)?;
    number(out, b)
}

fn jump_to(out: &mut List<u8>, kind: &str, label: &Text) -> Result<(), OutOfMemory>
    ensures { OnOk result (out.new ≡ out.old ++ flat spec.spaced
        (kind.now ∷ atom.quoted label.now ∷ [])) }
{
    word(out, kind)?;
    quoted(out, label)
}

fn jump_atoms(out: &mut List<u8>, jump: &Jump) -> Result<(), OutOfMemory>
    ensures { OnOk result (out.new ≡ out.old ++ flat spec.spaced (spec.jump_atoms jump.now)) }
{
    match jump {
        Jump::Break(label) => jump_to(out, "Break", label),
        Jump::Continue(label) => jump_to(out, "Continue", label),
        Jump::Return(_) => word(out, "Return"),
    }
}

fn loop_atoms(out: &mut List<u8>, labels: &[Text], tests_first: bool) -> Result<(), OutOfMemory>
    ensures { OnOk result (out.new ≡ out.old ++ flat spec.spaced
        (map atom.quoted labels.now ++ atom.truth tests_first ∷ [])) }
{
    quoted_all(out, labels)?;
    truth(out, tests_first)
}

fn term_atoms(out: &mut List<u8>, term: &Term) -> Result<(), OutOfMemory>
    ensures { OnOk result (out.new ≡ out.old ++ flat spec.spaced (spec.atoms_of_term (out-Term term.now))) }
{
    match term {
        Term::Lit(literal) => value(out, literal),
        Term::Local { hops, slot } => two_numbers(out, *hops, *slot),
        Term::Global { name: own, soft } => {
            name(out, own)?;
            marked(out, "soft", *soft)
        }
        Term::SetLocal {
            hops,
            slot,
            constant,
            ..
        } => {
            two_numbers(out, *hops, *slot)?;
            marked(out, "constant", *constant)
        }
        Term::SetGlobal { name: own, .. } => name(out, own),
        Term::Init { hops, slot, .. } => two_numbers(out, *hops, *slot),
        Term::Unary { operator, .. } => word(out, unary_word(*operator)),
        Term::Binary { operator, .. } => word(out, binary_word(*operator)),
        Term::Short { operator, .. } => word(out, short_word(*operator)),
        Term::Class { name: own, .. } => quoted(out, own),
        Term::Native { native, .. } => word(out, native.name()),
        Term::Scope { slots, .. } => number(out, *slots),
        Term::Loop {
            labels,
            tests_first,
            ..
        } => loop_atoms(out, labels.as_slice(), *tests_first),
        Term::Label { label, .. } => quoted(out, label),
        Term::Jump(jump) => jump_atoms(out, jump),
        _ => Ok(()),
    }
}

fn part_atoms(out: &mut List<u8>, part: &Part) -> Result<(), OutOfMemory>
    ensures { OnOk result (out.new ≡ out.old ++ flat spec.spaced (spec.atoms_of_part (out-Part part.now))) }
{
    match part {
        Part::Method { is_static, .. } => marked(out, "static", *is_static),
        Part::Getter { is_static, .. } => marked(out, "static", *is_static),
        Part::Setter { is_static, .. } => marked(out, "static", *is_static),
        _ => Ok(()),
    }
}

fn template_atoms(out: &mut List<u8>, template: &Template) -> Result<(), OutOfMemory>
    ensures { OnOk result (out.new ≡ out.old ++ flat spec.spaced (spec.atoms_of_template template.now)) }
{
    word(out, kind_word(template.kind))?;
    quoted(out, &template.name)?;
    two_numbers(out, template.length, template.slots)
}

fn node_atoms(out: &mut List<u8>, node: Node<'_>) -> Result<(), OutOfMemory>
    ensures { OnOk result (out.new ≡ out.old ++ flat spec.spaced (spec.atoms_of (spec.node_of node.entry))) }
{
    match node {
        Node::OneTerm(term) => term_atoms(out, term),
        Node::OnePart(part) => part_atoms(out, part),
        Node::OneTemplate(template) => template_atoms(out, template),
        Node::SpreadArray(_) => Ok(()),
        Node::Absent => Ok(()),
    }
}

fn node_word(node: Node<'_>) -> &'static str
    ensures { result.now ≡ spec.word_of (spec.node_of node.entry) }
{
    match node {
        Node::OneTerm(term) => term_word(term),
        Node::OnePart(part) => part_word(part),
        Node::OneTemplate(_) => "Template",
        Node::SpreadArray(_) => "Of",
        Node::Absent => "None",
    }
}

fn indent(out: &mut List<u8>, depth: usize) -> Result<(), OutOfMemory>
    ensures { OnOk result (out.new ≡ out.old ++ spec.indent depth) }
{
    let mut left = depth;
    while 0 < left {
        out.extend_from_slice(&[32, 32])?;
        left -= 1;
    }
    Ok(())
}

/// The line of a node.
pub fn line(out: &mut List<u8>, depth: usize, node: Node<'_>) -> Result<(), OutOfMemory>
    ensures { OnOk result (out.new ≡ out.old ++ spec.line depth (spec.node_of node.entry)) }
{
    indent(out, depth)?;
    out.extend_from_slice(node_word(node).as_bytes())?;
    node_atoms(out, node)?;
    out.push(10)
}
