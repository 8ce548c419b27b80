// The kinds of answers.

ghost use Rattle.std.specs.Prelude.{◌≡◌, true};
ghost use Rattle.js_desc.specs.declared.reply.Reply.TheVariants as reply;
ghost use Rattle.lava_ranges.specs.Kinds.{OfKind};
ghost use Rattle.lava_trace_laws.specs.Sound.{IsOfKind};

use js_desc::crossing::CrossBody;
use js_desc::reply::Reply;
use js_text::value::Value;
use lava_base::list::List;
use lava_trace::answers::{AnswerKind, wanted};

/// Whether a value is one of a kind.
fn is_value_of(kind: AnswerKind, value: &Value) -> bool
    ensures { result ≡ true → IsOfKind kind (reply.Value value.now) }
{
    match kind {
        AnswerKind::Value => true,
        AnswerKind::Object => match value {
            Value::Ref(_) => true,
            _ => false,
        },
        AnswerKind::Undefined => match value {
            Value::Undefined => true,
            _ => false,
        },
        _ => false,
    }
}

/// Whether an answer is one of a kind, or a throw.
fn is_of_kind(kind: AnswerKind, reply: &Reply) -> bool
    ensures { result ≡ true → IsOfKind kind reply.now }
{
    match reply {
        Reply::Throw(_) => true,
        Reply::Value(value) => is_value_of(kind, value),
        Reply::Proto(_) => match kind {
            AnswerKind::Prototype => true,
            _ => false,
        },
        Reply::Flag(_) => match kind {
            AnswerKind::Truth => true,
            _ => false,
        },
        Reply::Desc(_) => match kind {
            AnswerKind::Property => true,
            _ => false,
        },
        Reply::Keys(_) => match kind {
            AnswerKind::Keys => true,
            _ => false,
        },
    }
}

/// Whether what crosses is an ask, or an answer of the kind that the latest open ask wants.
pub fn is_wanted(asks: &List<AnswerKind>, body: &CrossBody) -> bool
    ensures { result ≡ true → OfKind asks.now body.now }
{
    match body {
        CrossBody::Ask { .. } => true,
        CrossBody::Answer(reply) => is_of_kind(wanted(asks), reply),
    }
}
