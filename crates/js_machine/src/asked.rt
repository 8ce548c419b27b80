// What is asked, what is answered, and what waits for an answer.

use js_desc::ask::Ask;
use js_desc::descriptor::Descriptor;
use js_native_steps::next::NativeNext;
use js_operation::js_exotic::next::Next as ExoticNext;
use js_operation::js_traps::next::Next as ProxyNext;
use js_text::native::Native;
use js_text::text::Text;
use js_text::value::{Key, Value};
use lava_base::ids::Ref;
use lava_base::list::List;

/// An ask and the value that is asked.
#[derive(Drop)]
pub struct Asked {
    pub target: Value,
    pub ask: Ask,
}

/// An import: the name of a link, and a path in the package that it leads to.
#[derive(Drop)]
pub struct Imported {
    pub link: Text,
    pub path: Text,
}

/// An answer that is no value and no throw.
#[derive(Drop)]
pub enum Answer {
    /// A prototype; None is null.
    Proto(Option<Ref>),
    /// A truth value.
    Flag(bool),
    /// A property; None is undefined.
    Desc(Option<Descriptor>),
    /// Property keys.
    Keys(List<Key>),
}

/// What constructs: a function with the place of its template, the scope around it and its home object, and the new target.
#[derive(Clone, Copy)]
pub struct Construction {
    pub at: u32,
    pub function: Ref,
    pub outer: u32,
    pub home: Option<Ref>,
    pub target: Ref,
}

/// What goes on with a number that it wants.
#[derive(Drop)]
pub enum NumberFor {
    /// The decision of an object.
    Object {
        me: Ref,
        next: ExoticNext,
    },
    /// The decision of a proxy.
    Proxy {
        next: ProxyNext,
    },
    /// `fromUnits`, with the units that are there and its items; an item becomes a number, behind which this one stands.
    Units {
        units: List<u16>,
        items: List<Value>,
        next: usize,
    },
}

impl NumberFor {
    /// It goes on no longer.
    pub fn discard(self) {}
}

/// What a decision needs once its answer comes.
#[derive(Drop)]
pub enum Wait {
    /// The decision of an object.
    Object {
        me: Ref,
        next: ExoticNext,
    },
    /// A construction with these arguments; the prototype of what it makes comes.
    Construct {
        construction: Construction,
        args: List<Value>,
    },
    /// A native.
    Native {
        which: Native,
        next: NativeNext,
    },
    /// The `exports` of another module.
    Exports,
    /// The decision of a proxy.
    Proxy {
        next: ProxyNext,
    },
    /// A method of an object that is to become a number; `last` tells that it is the last of the two.
    MethodGot {
        object: Ref,
        last: bool,
        wanted: NumberFor,
    },
    /// What such a method gives.
    MethodCalled {
        object: Ref,
        last: bool,
        wanted: NumberFor,
    },
    /// What the target of a proxy tells that a native asked.
    SlotTold {
        which: Native,
        next: NativeNext,
    },
}

impl Wait {
    /// It waits no longer.
    pub fn discard(self) {}
}
