// The words of operators, kinds and forms.

ghost use Rattle.std.specs.Prelude.{◌≡◌};
ghost use Rattle.js_term.specs.declared.term.Term.{out-Term};
ghost use Rattle.js_term.specs.declared.term.Part.{out-Part};
ghost use Rattle.js_tree_lines.specs.Atoms as atoms;
ghost use Rattle.js_tree_lines.specs.Lines as spec;

use js_term::term::{Part, TemplateKind, Term};
use js_tree::operator::{BinaryOperator, LogicalOperator, UnaryOperator};

pub fn binary_word(of: BinaryOperator) -> &'static str
    ensures { result.now ≡ atoms.binary_word of }
{
    match of {
        BinaryOperator::Exponentiate => "**",
        BinaryOperator::Multiply => "*",
        BinaryOperator::Divide => "/",
        BinaryOperator::Remainder => "%",
        BinaryOperator::Add => "+",
        BinaryOperator::Subtract => "-",
        BinaryOperator::LeftShift => "<<",
        BinaryOperator::SignedRightShift => ">>",
        BinaryOperator::UnsignedRightShift => ">>>",
        BinaryOperator::Less => "<",
        BinaryOperator::Greater => ">",
        BinaryOperator::LessOrEqual => "<=",
        BinaryOperator::GreaterOrEqual => ">=",
        BinaryOperator::Instanceof => "instanceof",
        BinaryOperator::In => "in",
        BinaryOperator::LooselyEqual => "==",
        BinaryOperator::LooselyUnequal => "!=",
        BinaryOperator::StrictlyEqual => "===",
        BinaryOperator::StrictlyUnequal => "!==",
        BinaryOperator::BitwiseAnd => "&",
        BinaryOperator::BitwiseXor => "^",
        BinaryOperator::BitwiseOr => "|",
    }
}

pub fn unary_word(of: UnaryOperator) -> &'static str
    ensures { result.now ≡ atoms.unary_word of }
{
    match of {
        UnaryOperator::Delete => "delete",
        UnaryOperator::Void => "void",
        UnaryOperator::Typeof => "typeof",
        UnaryOperator::Plus => "+",
        UnaryOperator::Minus => "-",
        UnaryOperator::BitwiseNot => "~",
        UnaryOperator::LogicalNot => "!",
    }
}

pub fn short_word(of: LogicalOperator) -> &'static str
    ensures { result.now ≡ atoms.short_word of }
{
    match of {
        LogicalOperator::And => "&&",
        LogicalOperator::Or => "||",
        LogicalOperator::Coalesce => "??",
    }
}

pub fn kind_word(of: TemplateKind) -> &'static str
    ensures { result.now ≡ atoms.kind_word of }
{
    match of {
        TemplateKind::Plain => "Plain",
        TemplateKind::Arrow => "Arrow",
        TemplateKind::Method => "Method",
        TemplateKind::Base => "Base",
        TemplateKind::Derived => "Derived",
        TemplateKind::Built => "Built",
        TemplateKind::Module => "Module",
        TemplateKind::Text => "Text",
    }
}

pub fn term_word(of: &Term) -> &'static str
    ensures { result.now ≡ spec.word_of_term (out-Term of.now) }
{
    match of {
        Term::Lit(_) => "Lit",
        Term::Outside => "Outside",
        Term::This => "This",
        Term::NewTarget => "NewTarget",
        Term::Local { .. } => "Local",
        Term::Global { .. } => "Global",
        Term::SetLocal { .. } => "SetLocal",
        Term::SetGlobal { .. } => "SetGlobal",
        Term::Init { .. } => "Init",
        Term::Get { .. } => "Get",
        Term::Put { .. } => "Put",
        Term::Delete { .. } => "Delete",
        Term::SuperGet { .. } => "SuperGet",
        Term::Call { .. } => "Call",
        Term::CallOn { .. } => "CallOn",
        Term::CallSuper { .. } => "CallSuper",
        Term::New { .. } => "New",
        Term::SuperNew { .. } => "SuperNew",
        Term::Unary { .. } => "Unary",
        Term::Binary { .. } => "Binary",
        Term::Short { .. } => "Short",
        Term::If { .. } => "If",
        Term::Func(_) => "Func",
        Term::Define { .. } => "Define",
        Term::Class { .. } => "Class",
        Term::Native { .. } => "Native",
        Term::Seq(_) => "Seq",
        Term::Scope { .. } => "Scope",
        Term::Fresh => "Fresh",
        Term::Loop { .. } => "Loop",
        Term::Label { .. } => "Label",
        Term::Jump(_) => "Jump",
        Term::Throw(_) => "Throw",
        Term::Try { .. } => "Try",
    }
}

pub fn part_word(of: &Part) -> &'static str
    ensures { result.now ≡ spec.word_of_part (out-Part of.now) }
{
    match of {
        Part::Data { .. } => "Data",
        Part::Method { .. } => "Method",
        Part::Getter { .. } => "Getter",
        Part::Setter { .. } => "Setter",
        Part::Spread(_) => "Spread",
        Part::Item(_) => "Item",
        Part::Hole => "Hole",
    }
}
