// Core terms as nodes of a table: each is `Copy`, has at most 16 bytes, and names what it has by places.

use js_term::term::TemplateKind;
use js_text::native::Native;
use js_tree::operator::{BinaryOperator, LogicalOperator, UnaryOperator};

/// A core form. Its operands are places of nodes, which stand before it; texts, arguments, parts, templates, classes, loops and guarded bodies are places in tables of their own. A list is so many numbers, or so many parts, from one on.
#[derive(Clone, Copy)]
pub enum Node {
    Undefined,
    Null,
    Bool(bool),
    Int(i64),
    Text(u32),
    Iterator,
    Common(u32),
    Outside,
    This,
    NewTarget,
    Local {
        hops: u32,
        slot: u32,
    },
    Global {
        name: u32,
        soft: bool,
    },
    SetLocal {
        hops: u32,
        slot: u32,
        constant: bool,
        value: u32,
    },
    SetGlobal {
        name: u32,
        value: u32,
    },
    Init {
        hops: u32,
        slot: u32,
        value: u32,
    },
    Get {
        object: u32,
        key: u32,
    },
    Put {
        object: u32,
        key: u32,
        value: u32,
    },
    Delete {
        object: u32,
        key: u32,
    },
    SuperGet {
        key: u32,
    },
    Call {
        callee: u32,
        arguments: u32,
    },
    CallOn {
        object: u32,
        key: u32,
        arguments: u32,
    },
    CallSuper {
        key: u32,
        arguments: u32,
    },
    New {
        callee: u32,
        arguments: u32,
    },
    SuperNew {
        arguments: u32,
    },
    Unary {
        operator: UnaryOperator,
        operand: u32,
    },
    Binary {
        operator: BinaryOperator,
        left: u32,
        right: u32,
    },
    Short {
        operator: LogicalOperator,
        left: u32,
        right: u32,
    },
    If {
        test: u32,
        consequent: u32,
    },
    IfElse {
        test: u32,
        consequent: u32,
        alternate: u32,
    },
    Func {
        template: u32,
    },
    Define {
        object: u32,
        start: u32,
        count: u32,
    },
    Class {
        class: u32,
    },
    Native {
        native: Native,
        start: u32,
        count: u32,
    },
    Seq {
        start: u32,
        count: u32,
    },
    Scope {
        slots: u32,
        body: u32,
    },
    Fresh,
    Loop {
        turns: u32,
        tests_first: bool,
    },
    Label {
        label: u32,
        body: u32,
    },
    Break {
        label: u32,
    },
    Continue {
        label: u32,
    },
    Return,
    ReturnValue {
        value: u32,
    },
    Throw {
        value: u32,
    },
    Try {
        guarded: u32,
    },
}

/// What a call is given: nodes whose places stand in the table of numbers, or a node that makes an array.
#[derive(Clone, Copy)]
pub enum ArgumentRow {
    Listed { start: u32, count: u32 },
    Of(u32),
}

/// What a loop does each turn. Its labels are texts, whose places stand in the table of numbers.
#[derive(Clone, Copy)]
pub struct TurnRow {
    pub labels_start: u32,
    pub labels_count: u32,
    pub test: u32,
    pub update: Option<u32>,
    pub body: u32,
}

/// A `try` with what follows it.
#[derive(Clone, Copy)]
pub struct GuardedRow {
    pub body: u32,
    pub handler: Option<u32>,
    pub finalizer: Option<u32>,
}

/// A part of an object, an array or a class.
#[derive(Clone, Copy)]
pub enum PartRow {
    Data {
        key: u32,
        value: u32,
    },
    Method {
        is_static: bool,
        key: u32,
        template: u32,
    },
    Getter {
        is_static: bool,
        key: u32,
        template: u32,
    },
    Setter {
        is_static: bool,
        key: u32,
        template: u32,
    },
    Spread(u32),
    Item(u32),
    Hole,
}

/// A class: its name, parent, constructor and parts.
#[derive(Clone, Copy)]
pub struct ClassRow {
    pub name: u32,
    pub parent: Option<u32>,
    pub constructor: Option<u32>,
    pub start: u32,
    pub count: u32,
}

/// A template. The slots that start as undefined stand in the table of numbers.
#[derive(Clone, Copy)]
pub struct TemplateRow {
    pub kind: TemplateKind,
    pub name: u32,
    pub length: u32,
    pub params: u32,
    pub rest: bool,
    pub slots: u32,
    pub undefined_start: u32,
    pub undefined_count: u32,
    pub body: u32,
}
