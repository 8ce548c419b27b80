// What waits for a completion, and what is next. A frame's own values stand on the stack of values.

ghost use Rattle.std.specs.Prelude.{◌≡◌};
ghost use Rattle.js_machine.specs.Halts.{halt_coded, halt_number};
ghost use Rattle.js_machine.specs.Views.{has_value, is_completion, is_handed, owned, takes_answers, takes_values, held, is_throw, as_text, goal_held, key_held};

use js_operation::operation::Rest;
use js_text::native::Native;
use js_tree::operator::{BinaryOperator, LogicalOperator, UnaryOperator};

/// How a run ends within a party. None of these can be caught.
#[derive(Clone, Copy, Debug, PartialEq, Eq)]
pub enum Halt {
    Number,
    Text,
    Depth,
    Meter,
    Outside,
}

/// The number of an end, as a `Mode` has it: a word of its own. (A single byte next to the number of the mode would be read together with that, and what is written in two pieces and read in one waits for both.)
pub fn halt_number(halt: Halt) -> u32
    ensures { result ≡ halt_number halt }
{
    match halt {
        Halt::Number => 0,
        Halt::Text => 1,
        Halt::Depth => 2,
        Halt::Meter => 3,
        Halt::Outside => 4,
    }
}

/// The end of a number.
pub fn halt_coded(number: u32) -> Halt
    ensures { result ≡ halt_coded number }
{
    if number == 0 {
        Halt::Number
    } else if number == 1 {
        Halt::Text
    } else if number == 2 {
        Halt::Depth
    } else if number == 3 {
        Halt::Meter
    } else {
        Halt::Outside
    }
}

/// What the arguments of a call are for. It has values on the stack, below the arguments.
#[derive(Clone, Copy)]
pub enum Purpose {
    /// Has the function, and `this` below it.
    Call,
    /// Has the function, which is called with the `this` of the body that runs.
    SuperCall,
    /// Has the function that constructs.
    New,
    /// Has the parent that constructs.
    SuperNew,
    /// Has nothing: the operands of a native.
    Native { which: Native },
}

/// What is next: a form, an ask, a completion that comes to the newest frame, or the end of the run. A completion's value is the newest one; a label is a place in the table of texts. What is asked, and an answer that is no value, stand in the machine.
#[derive(Clone, Copy)]
pub enum Mode {
    Eval(u32),
    Ask,
    Answer,
    Value,
    Throw,
    Return,
    Break(u32),
    Continue(u32),
    /// The run ends, by this number of a `Halt`.
    End(u32),
    /// So much and one is to be paid, before undefined is given.
    Pay(u32),
    /// So much and one is to be paid for an ask that came from another party.
    Serve(u32),
    /// An import over a link is sent, which stands in the machine.
    Import,
    /// The outside is asked, by the newest call.
    Outside,
}

/// What a body does once a completion comes: each frame stands for what follows in the rows of the core forms.
#[derive(Clone, Copy)]
pub enum Frame {
    SetLocal {
        hops: u32,
        slot: u32,
        constant: bool,
    },
    Init {
        hops: u32,
        slot: u32,
    },
    Unary {
        operator: UnaryOperator,
    },
    BinaryLeft {
        operator: BinaryOperator,
        right: u32,
    },
    /// Has the left operand.
    BinaryRight {
        operator: BinaryOperator,
    },
    ShortLeft {
        operator: LogicalOperator,
        right: u32,
    },
    If {
        consequent: u32,
    },
    IfElse {
        consequent: u32,
        alternate: u32,
    },
    /// The places that follow in a list.
    Seq {
        start: u32,
        count: u32,
    },
    /// The scope where the body stood.
    ScopeExit {
        scope: u32,
    },
    /// The test of a loop's turn comes.
    Tested {
        turns: u32,
    },
    /// A turn is over.
    Turned {
        turns: u32,
    },
    /// What a loop does after a turn is done.
    Updated {
        turns: u32,
    },
    Label {
        label: u32,
    },
    Return,
    Throw,
    /// The body of a `try`.
    Guarded {
        guarded: u32,
    },
    /// The handler of a `try`, and the scope where the body stood.
    Handled {
        guarded: u32,
        scope: u32,
    },
    /// What stands last in a `try` runs; it has the value of the earlier completion.
    Finally {
        earlier: Mode,
    },
    /// What comes is given.
    Given,
    /// The object of a property comes.
    GetObject {
        key: u32,
    },
    /// Has the object.
    GetKey,
    PutObject {
        key: u32,
        value: u32,
    },
    /// Has the object.
    PutKey {
        value: u32,
    },
    /// Has the object and the key.
    PutValue,
    DeleteObject {
        key: u32,
    },
    /// Has the object.
    DeleteKey,
    /// Whether a property was set comes; has the value.
    HasSet,
    /// Whether a property was deleted comes.
    HasDeleted,
    /// The key of a property of `super` comes.
    SuperKey,
    /// The object where `super` looks comes; has the key.
    SuperHome,
    /// Whether there is a global comes, which is read.
    Global {
        name: u32,
        soft: bool,
    },
    /// Whether there is a global comes, which is written.
    SetGlobal {
        name: u32,
        value: u32,
    },
    /// The value of a global comes.
    PutGlobal {
        name: u32,
        there: bool,
    },
    /// A decision waits for an answer; what it needs then stands on the stack of what waits. It is open meanwhile.
    Decides,
    /// The body of a call.
    Called,
    /// The body of a constructor, for which the party made an object.
    Constructed {
        object: u32,
    },
    /// The body of the constructor of a class with a parent.
    Derived,
    /// The body of a constructor of the common part.
    Built,
    /// So many arguments are there, and so many follow from one on. Has those that are there, and what they are for.
    Arguments {
        purpose: Purpose,
        done: u32,
        start: u32,
        left: u32,
    },
    /// The array of all arguments. Has what they are for.
    ArgumentsOf {
        purpose: Purpose,
    },
    Callee {
        arguments: u32,
    },
    NewCallee {
        arguments: u32,
    },
    CallObject {
        key: u32,
        arguments: u32,
    },
    /// Has the object.
    CallMethod {
        arguments: u32,
    },
    /// The key of a method comes. Has the object.
    CallKey {
        arguments: u32,
    },
    /// The key of a method of `super` comes.
    CallSuperKey {
        arguments: u32,
    },
    /// The object where `super` looks comes. Has the key of a method.
    CallSuperHome {
        arguments: u32,
    },
    /// A method of `super` comes.
    CallSuperMethod {
        arguments: u32,
    },
    /// What constructs in a `super` call comes.
    SuperParent {
        arguments: u32,
    },
    /// What a `super` call constructs comes, and is `this`.
    BindThis,
    /// What was charged for is paid; has the value that is given then.
    Paid,
    /// A truth value comes, which is given.
    Told,
    /// What a function has as `prototype` comes; has the object that may inherit from it.
    InstanceOf,
    /// The prototype of an object comes; has the object that is sought.
    Inherits,
    /// A method that makes an object a primitive value comes. Has the object, and below it what that value is for.
    MethodGot {
        last: bool,
        goal: Goal,
    },
    /// What such a method gives comes. Has the object, and below it what the primitive value is for.
    MethodCalled {
        last: bool,
        goal: Goal,
    },
    /// The object comes on which so many parts from one on are defined.
    Define {
        start: u32,
        count: u32,
    },
    /// The first operand of a part comes, behind which so many parts stand. Has the constructor, and below it the object on which parts are defined.
    Part {
        enumerable: bool,
        at: u32,
        left: u32,
    },
    /// The value of a part comes. Has its key, and below it what `Part` has.
    PartValue {
        enumerable: bool,
        at: u32,
        left: u32,
    },
    /// So many parts follow from one on, whatever value comes. Has what `Part` has.
    Parts {
        enumerable: bool,
        start: u32,
        count: u32,
    },
    /// The parent of a class comes.
    ClassParent {
        class: u32,
    },
    /// What `prototype` of the parent is comes. Has the parent.
    ClassPrototype {
        class: u32,
    },
    /// A native is charged; has so many operands.
    Charged {
        which: Native,
        count: u32,
    },
    /// A text that was made is charged; has the text.
    Made,
    /// The body of a module: its number, the place of its template and the number of its module object. Has the path of the module.
    ModuleBody {
        number: u32,
        template: u32,
        object: u32,
    },
    /// The `exports` of a module whose body is over comes. Has the path of the module.
    ModuleEnds {
        number: u32,
        template: u32,
    },
    /// A native that asks a `Slot` is charged; has so many operands, and asks the first one.
    SlotCharged {
        which: Native,
        count: u32,
    },
    /// A native is charged that is refused.
    Refused {
        converts: bool,
    },
}

/// What a property key is for. It has values on the stack.
#[derive(Clone, Copy)]
pub enum KeyGoal {
    /// A property is read. Has the object.
    Get,
    /// A property is set. Has the value, and the object below it.
    Put,
    /// A property is deleted. Has the object.
    Delete,
    /// A method is called. Has the object.
    Method { arguments: u32 },
    /// A property of `super` is read, or called with these arguments. Has the object where `super` looks.
    Super { call: Option<u32> },
}

/// What the primitive value that an object becomes is for. It has values on the stack.
#[derive(Clone, Copy)]
pub enum Goal {
    /// An operator goes on. Has the operand that is held.
    Operand(Rest),
    /// The value becomes a property key.
    Key(KeyGoal),
    /// The value becomes the key of a part. Has the objects on which parts are defined.
    Part {
        enumerable: bool,
        at: u32,
        left: u32,
    },
}

impl Purpose {
    /// How many values are its own.
    pub fn held(self) -> u64
        ensures { result ≡ held self }
    {
        match self {
            Purpose::Call => 2,
            Purpose::Native { .. } => 0,
            _ => 1,
        }
    }
}

impl KeyGoal {
    /// How many values are its own.
    pub fn held(self) -> u64
        ensures { result ≡ key_held self }
    {
        match self {
            KeyGoal::Put => 2,
            _ => 1,
        }
    }
}

impl Goal {
    /// How many values are its own.
    pub fn held(self) -> u64
        ensures { result ≡ goal_held self }
    {
        match self {
            Goal::Operand(_) => 1,
            Goal::Key(goal) => goal.held(),
            Goal::Part { .. } => 2,
        }
    }

    /// Whether the methods of a text are tried first (ECMA-262, ToPrimitive).
    pub fn as_text(self) -> bool
        ensures { result ≡ as_text self }
    {
        match self {
            Goal::Operand(rest) => matches!(rest, Rest::Key),
            Goal::Key(_) | Goal::Part { .. } => true,
        }
    }
}

impl Mode {
    /// Whether it is a completion.
    pub fn is_completion(self) -> bool
        ensures { result ≡ is_completion self }
    {
        !matches!(
            self,
            Mode::Eval(_)
                | Mode::Ask
                | Mode::Answer
                | Mode::End(_)
                | Mode::Pay(_)
                | Mode::Serve(_)
                | Mode::Import
                | Mode::Outside
        )
    }

    /// Whether it is handed to a frame: a completion, or an answer that is no value.
    pub fn is_handed(self) -> bool
        ensures { result ≡ is_handed self }
    {
        !matches!(
            self,
            Mode::Eval(_)
                | Mode::Ask
                | Mode::End(_)
                | Mode::Pay(_)
                | Mode::Serve(_)
                | Mode::Import
                | Mode::Outside
        )
    }

    /// Whether it is a throw.
    pub fn is_throw(self) -> bool
        ensures { result ≡ is_throw self }
    {
        matches!(self, Mode::Throw)
    }

    /// Whether a completion has a value.
    pub fn has_value(self) -> bool
        ensures { result ≡ has_value self }
    {
        matches!(self, Mode::Value | Mode::Throw | Mode::Return)
    }
}

impl Frame {
    /// How many values are the frame's own.
    pub fn owned(self) -> u64
        ensures { result ≡ owned self }
    {
        match self {
            Frame::BinaryRight { .. }
            | Frame::GetKey
            | Frame::PutKey { .. }
            | Frame::DeleteKey
            | Frame::HasSet
            | Frame::SuperHome
            | Frame::CallMethod { .. }
            | Frame::Made => 1,
            Frame::ModuleBody { .. } | Frame::ModuleEnds { .. } => 1,
            Frame::PutValue => 2,
            Frame::Finally { earlier } => u64::from(earlier.has_value()),
            Frame::Arguments { purpose, done, .. } => u64::from(done) + purpose.held(),
            Frame::ArgumentsOf { purpose } => purpose.held(),
            Frame::CallKey { .. } | Frame::CallSuperHome { .. } => 1,
            Frame::Paid | Frame::InstanceOf | Frame::Inherits => 1,
            Frame::MethodGot { goal, .. } | Frame::MethodCalled { goal, .. } => 1 + goal.held(),
            Frame::Part { .. } | Frame::Parts { .. } => 2,
            Frame::PartValue { .. } => 3,
            Frame::ClassPrototype { .. } => 1,
            Frame::Charged { count, .. } => u64::from(count),
            Frame::SlotCharged { count, .. } => u64::from(count),
            _ => 0,
        }
    }

    /// Whether it goes on with an answer that is no value.
    pub fn takes_answers(self) -> bool
        ensures { result ≡ takes_answers self }
    {
        matches!(
            self,
            Frame::HasSet
                | Frame::HasDeleted
                | Frame::SuperHome
                | Frame::Global { .. }
                | Frame::SetGlobal { .. }
                | Frame::CallSuperHome { .. }
                | Frame::SuperParent { .. }
                | Frame::Told
                | Frame::Inherits
        )
    }

    /// Whether it goes on with a value or an answer alone, so that every throw and every jump passes it.
    pub fn takes_values(self) -> bool
        ensures { result ≡ takes_values self }
    {
        match self {
            Frame::ScopeExit { .. } | Frame::Turned { .. } | Frame::Label { .. } => false,
            Frame::Guarded { .. } | Frame::Handled { .. } => false,
            Frame::Decides | Frame::Paid | Frame::Charged { .. } | Frame::Made => false,
            Frame::ModuleBody { .. } | Frame::ModuleEnds { .. } => false,
            Frame::SlotCharged { .. } | Frame::Refused { .. } => false,
            Frame::Called | Frame::Constructed { .. } | Frame::Derived | Frame::Built => false,
            _ => true,
        }
    }
}
