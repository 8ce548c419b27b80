// Core terms: the 34 forms that every source is lowered to, and the templates that hold them. Operands are evaluated from left to right.

use js_text::native::Native;
use js_text::text::Text;
use js_tree::operator::{BinaryOperator, LogicalOperator, UnaryOperator};
use lava_base::ids::CommonId;
use sqlite_items::{Boxed, Items};

/// A value that stands in a term: no object of a party, and no made symbol.
#[derive(Drop)]
pub enum Literal {
    Undefined,
    Null,
    Bool(bool),
    /// A safe integer.
    Int(i64),
    Text(Text),
    /// `Symbol.iterator`
    Iterator,
    /// An object of the common part.
    Common(CommonId),
}

/// A core form.
#[cycle(term)]
#[derive(Drop)]
pub enum Term {
    /// Gives the value.
    Lit(Literal),
    /// Ends the run with `Number`: a literal that writes no safe integer.
    Outside,
    /// `this`; a ReferenceError before `super` returned.
    This,
    /// The new target, or undefined.
    NewTarget,
    /// A slot of the scope that is so many hops outwards; a ReferenceError where it is not initialised.
    Local {
        hops: u32,
        slot: u32,
    },
    /// A free name, at the running party's global; one that is not there is undefined where it is soft, and else a ReferenceError.
    Global {
        name: Text,
        soft: bool,
    },
    /// Gives an initialised slot a value, which it gives; a TypeError where the slot is constant.
    SetLocal {
        hops: u32,
        slot: u32,
        constant: bool,
        value: Boxed<Term>,
    },
    /// Sets a free name, which has to be there before the value is evaluated.
    SetGlobal {
        name: Text,
        value: Boxed<Term>,
    },
    /// Initialises a slot, and gives undefined.
    Init {
        hops: u32,
        slot: u32,
        value: Boxed<Term>,
    },
    /// The value of a property.
    Get {
        object: Boxed<Term>,
        key: Boxed<Term>,
    },
    /// Sets a property to a value, which it gives.
    Put {
        object: Boxed<Term>,
        key: Boxed<Term>,
        value: Boxed<Term>,
    },
    /// Deletes a property, and gives true.
    Delete {
        object: Boxed<Term>,
        key: Boxed<Term>,
    },
    /// The value of a property of the home object's prototype, for `this`.
    SuperGet {
        key: Boxed<Term>,
    },
    /// Calls a function, with `this` undefined.
    Call {
        callee: Boxed<Term>,
        arguments: Arguments,
    },
    /// Calls what a property of an object is, with `this` the object.
    CallOn {
        object: Boxed<Term>,
        key: Boxed<Term>,
        arguments: Arguments,
    },
    /// Calls what `SuperGet` gives, with `this`.
    CallSuper {
        key: Boxed<Term>,
        arguments: Arguments,
    },
    /// Constructs by a function, which is the new target.
    New {
        callee: Boxed<Term>,
        arguments: Arguments,
    },
    /// Constructs by the prototype of the running function, for the new target, and binds `this`.
    SuperNew {
        arguments: Arguments,
    },
    Unary {
        operator: UnaryOperator,
        operand: Boxed<Term>,
    },
    Binary {
        operator: BinaryOperator,
        left: Boxed<Term>,
        right: Boxed<Term>,
    },
    /// `&&`, `||`, `??`
    Short {
        operator: LogicalOperator,
        left: Boxed<Term>,
        right: Boxed<Term>,
    },
    If {
        test: Boxed<Term>,
        consequent: Boxed<Term>,
        /// None gives undefined.
        alternate: Option<Boxed<Term>>,
    },
    /// A function of the running party, over the present scope.
    Func(Boxed<Template>),
    /// Defines each part on a fresh object, which it gives.
    Define {
        object: Boxed<Term>,
        parts: Items<Part>,
    },
    /// A class: its parent, the template of its constructor if it has one, and its parts.
    Class {
        name: Text,
        parent: Option<Boxed<Term>>,
        constructor: Option<Boxed<Template>>,
        parts: Items<Part>,
    },
    /// An operation of the machine.
    Native {
        native: Native,
        operands: Items<Boxed<Term>>,
    },
    /// One after the other: the last one's value, and undefined where there is none.
    Seq(Items<Boxed<Term>>),
    /// The body in a new scope of so many slots, none of which is initialised.
    Scope {
        slots: u32,
        body: Boxed<Term>,
    },
    /// A copy of the innermost scope, with its values, takes its place.
    Fresh,
    /// Tests before each turn, but not before the first where `tests_first` is false; updates after each.
    Loop {
        labels: Items<Text>,
        tests_first: bool,
        test: Boxed<Term>,
        update: Option<Boxed<Term>>,
        body: Boxed<Term>,
    },
    /// Its body, which ends where a `Break` of the label comes.
    Label {
        label: Text,
        body: Boxed<Term>,
    },
    Jump(Jump),
    Throw(Boxed<Term>),
    /// The handler has a scope whose slot 0 is what was thrown. What stands last runs on each completion.
    Try {
        body: Boxed<Term>,
        handler: Option<Boxed<Term>>,
        finalizer: Option<Boxed<Term>>,
    },
}

/// What a call is given: terms, or one that makes an array of the running party.
#[cycle(term)]
#[derive(Drop)]
pub enum Arguments {
    Listed(Items<Boxed<Term>>),
    Of(Boxed<Term>),
}

/// Where a jump goes. A jump without a label has the empty one.
#[cycle(term)]
#[derive(Drop)]
pub enum Jump {
    Break(Text),
    Continue(Text),
    /// None gives undefined.
    Return(Option<Boxed<Term>>),
}

/// What is defined on an object, an array or a class; a static part stands at the class's constructor.
#[cycle(term)]
#[derive(Drop)]
pub enum Part {
    Data {
        key: Boxed<Term>,
        value: Boxed<Term>,
    },
    Method {
        is_static: bool,
        key: Boxed<Term>,
        template: Boxed<Template>,
    },
    Getter {
        is_static: bool,
        key: Boxed<Term>,
        template: Boxed<Template>,
    },
    Setter {
        is_static: bool,
        key: Boxed<Term>,
        template: Boxed<Template>,
    },
    /// All properties of an object, or all items that an iterable gives.
    Spread(Boxed<Term>),
    /// The next item of an array.
    Item(Boxed<Term>),
    /// The next item of an array, which is not there.
    Hole,
}

/// Which templates there are.
#[derive(Clone, Copy, Debug, PartialEq, Eq)]
pub enum TemplateKind {
    /// A function by `function`.
    Plain,
    Arrow,
    /// A method, getter or setter.
    Method,
    /// The constructor of a class without a parent.
    Base,
    /// The constructor of a class with a parent.
    Derived,
    /// A function of the common part.
    Built,
    Module,
    /// An evaluated text.
    Text,
}

/// What a function, a module or an evaluated text runs.
#[cycle(term)]
#[derive(Drop)]
pub struct Template {
    pub kind: TemplateKind,
    pub name: Text,
    /// The parameters before the first with a default.
    pub length: u32,
    /// The parameters, a rest parameter included.
    pub params: u32,
    /// Whether the last parameter is a rest parameter.
    pub rest: bool,
    /// The slots of its scope, those of the parameters first.
    pub slots: u32,
    /// The slots that start as undefined.
    pub undefined: Items<u32>,
    pub body: Boxed<Term>,
}
