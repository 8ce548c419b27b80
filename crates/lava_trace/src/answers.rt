// Answers, and whole crossings.

ghost use Rattle.std.specs.Prelude.{◌≡◌, IfOk, OnOk};
ghost use Rattle.lava_trace.specs.Asks as spec;
ghost use Rattle.lava_trace.specs.Courses.{opened, opens, wanted};

use crate::left::LineReader;
use js_desc::ask::Ask;
use js_desc::crossing::{CrossBody, Crossing};
use js_desc::reply::Reply;
use js_text::value::Value;
use lava_base::list::List;
use lava_base::memory::OutOfMemory;

/// What a method is answered with.
#[derive(Clone, Copy)]
pub enum AnswerKind {
    /// A value.
    Value,
    /// A reference.
    Object,
    /// The value undefined.
    Undefined,
    /// A reference, or null.
    Prototype,
    /// A truth value.
    Truth,
    /// A property with all its fields, or none.
    Property,
    /// The keys of an object.
    Keys,
}

/// The kind of the answer to an ask.
fn kind_of(ask: &Ask) -> AnswerKind
    ensures { result ≡ spec.kind_of ask.now }
{
    match ask {
        Ask::GetPrototypeOf => AnswerKind::Prototype,
        Ask::SetPrototypeOf { .. } => AnswerKind::Truth,
        Ask::IsExtensible => AnswerKind::Truth,
        Ask::PreventExtensions => AnswerKind::Truth,
        Ask::GetOwnProperty { .. } => AnswerKind::Property,
        Ask::DefineOwnProperty { .. } => AnswerKind::Truth,
        Ask::HasProperty { .. } => AnswerKind::Truth,
        Ask::Get { .. } => AnswerKind::Value,
        Ask::Set { .. } => AnswerKind::Truth,
        Ask::Delete { .. } => AnswerKind::Truth,
        Ask::OwnPropertyKeys => AnswerKind::Keys,
        Ask::Call { .. } => AnswerKind::Value,
        Ask::Construct { .. } => AnswerKind::Object,
        Ask::Import { .. } => AnswerKind::Value,
        Ask::Slot { .. } => AnswerKind::Value,
        Ask::Make { .. } => AnswerKind::Object,
        Ask::Queue => AnswerKind::Undefined,
        Ask::Turn => AnswerKind::Undefined,
    }
}

/// The kind of the answer to what is asked, if it is an ask.
pub fn opens(body: &CrossBody) -> Option<AnswerKind>
    ensures { result ≡ opens body.now }
{
    match body {
        CrossBody::Ask { ask, .. } => Some(kind_of(ask)),
        CrossBody::Answer(_) => None,
    }
}

/// The kind of answer that the latest open ask wants, and a value where none is open.
#[tactic(auto, using(crate::proofs::Left_laws::same_item))]
pub fn wanted(asks: &List<AnswerKind>) -> AnswerKind
    ensures { result ≡ wanted asks.now }
{
    if asks.is_empty() {
        AnswerKind::Value
    } else {
        *asks.item(asks.len() - 1)
    }
}

/// Opens an ask, or closes the latest one.
pub fn open_or_close(
    asks: &mut List<AnswerKind>,
    opens: Option<AnswerKind>,
) -> Result<(), OutOfMemory>
    ensures { OnOk result (asks.new ≡ opened asks.old opens) }
{
    match opens {
        Some(kind) => asks.push(kind),
        None => {
            let count = asks.len().saturating_sub(1);
            asks.truncate(count);
            Ok(())
        }
    }
}

impl<'a> LineReader<'a> {
    /// Reads an answer of a kind.
    #[tactic(auto, unfolding(crate::specs::Asks::answer_at))]
    fn answer(&mut self, kind: AnswerKind) -> Result<Reply, OutOfMemory>
        ensures value { IfOk result (λ r. r ≡ (spec.answer_at kind self.old).0) }
        ensures left { OnOk result (self.new ≡ (spec.answer_at kind self.old).1) }
    {
        match kind {
            AnswerKind::Value => Ok(Reply::Value(self.value()?)),
            AnswerKind::Object => Ok(Reply::Value(Value::Ref(self.object()?))),
            AnswerKind::Undefined => {
                self.skip(9);
                Ok(Reply::Value(Value::Undefined))
            }
            AnswerKind::Prototype => Ok(Reply::Proto(self.object_or_word(4)?)),
            AnswerKind::Truth => Ok(Reply::Flag(self.truth())),
            AnswerKind::Property => Ok(Reply::Desc(self.property()?)),
            AnswerKind::Keys => Ok(Reply::Keys(self.keys()?)),
        }
    }

    /// Reads what crosses, where an answer is one of this kind.
    #[tactic(auto, unfolding(crate::specs::Asks::body_at))]
    fn body(&mut self, kind: AnswerKind) -> Result<CrossBody, OutOfMemory>
        ensures value { IfOk result (λ b. b ≡ (spec.body_at kind self.old).0) }
        ensures left { OnOk result (self.new ≡ (spec.body_at kind self.old).1) }
    {
        if self.byte(0) == b't' {
            self.skip(6);
            return Ok(CrossBody::Answer(Reply::Throw(self.value()?)));
        }
        if self.byte(1) == b's' {
            self.skip(4);
            return self.ask();
        }
        self.skip(7);
        Ok(CrossBody::Answer(self.answer(kind)?))
    }

    /// Reads the line of a crossing, where an answer is one of this kind.
    #[tactic(auto, unfolding(crate::specs::Asks::crossing_at))]
    pub(crate) fn crossing(&mut self, kind: AnswerKind) -> Result<Crossing, OutOfMemory>
        ensures value { IfOk result (λ x. x ≡ (spec.crossing_at kind self.old).0) }
        ensures left { OnOk result (self.new ≡ (spec.crossing_at kind self.old).1) }
    {
        self.number();
        self.skip(1);
        let from = self.party();
        self.skip(1);
        let to = self.party();
        self.skip(1);
        let body = self.body(kind)?;
        Ok(Crossing { from, to, body })
    }
}
