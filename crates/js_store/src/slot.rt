// What an object keeps besides its properties: its internal slots, over any types of references and of made symbols.

use js_desc::decision::BodyId;
use js_text::text::Text;
use js_text::value::{Key, Value};
use lava_base::ids::{MadeSymbol, Ref};
use lava_base::list::List;

/// What an object keeps besides its properties (ECMA-262, "Object Internal Methods and Internal Slots").
#[derive(Drop)]
pub enum Slot<R = Ref, S = MadeSymbol> {
    /// Nothing.
    Plain,
    /// A function of a source (ECMA-262, "ECMAScript Function Objects"). The home object is that of a method; the lexical things are those of an arrow.
    Closure {
        body: BodyId,
        home: Option<R>,
        lexical: Option<Lexical<R, S>>,
    },
    /// A function of the machine.
    Held(Held<R, S>),
    /// A bound function (ECMA-262, "Bound Function Exotic Objects").
    Bound {
        target: R,
        this: Value<R, S>,
        args: List<Value<R, S>>,
    },
    /// A proxy (ECMA-262, "Proxy Object Internal Methods and Internal Slots"); None once it is revoked.
    Proxy(Option<Proxied<R>>),
    /// What a Map, a Set or a WeakMap holds, in order of insertion (ECMA-262, "Keyed Collections").
    Table(List<Entry<R, S>>),
    /// A compartment (SES, Compartment), with its global.
    Chamber {
        global: R,
    },
    /// A promise (ECMA-262, "Promise Objects").
    Promised(Promise<R, S>),
    /// A module namespace (ECMA-262, "Module Namespace Exotic Objects"): the module's scope, and its exports in the order of their names' units.
    Namespace {
        scope: u32,
        exports: List<Export>,
    },
}

/// What an arrow takes from the body that made it, as it stood then.
#[derive(Drop)]
pub struct Lexical<R = Ref, S = MadeSymbol> {
    /// None before the `super` call of a derived constructor.
    pub this: Option<Value<R, S>>,
    /// The constructor that `new` was called with, if any.
    pub new_target: Option<R>,
    /// The function that was running, whose prototype `super` looks at.
    pub function: Option<R>,
}

/// What a function of the machine does, and what it keeps for that.
#[derive(Drop)]
pub enum Held<R = Ref, S = MadeSymbol> {
    /// The `require` of a module, by the module's number in its package.
    Require { module: u32 },
    /// The `require` of the texts that a compartment evaluates.
    ModuleMap,
    /// Reads a global of the application's own package.
    LiveGetter(Live<R, S>),
    /// Writes a global of the application's own package.
    LiveSetter(Live<R, S>),
    /// Gives the value of a property of a locked prototype (SES, enablePropertyOverrides).
    RepairGetter { value: Value<R, S> },
    /// Sets a property over that of a locked prototype, on what inherits from it (SES, enablePropertyOverrides).
    RepairSetter { prototype: R, key: Key<S> },
}

/// A global of the application's own package, or a member of it.
#[derive(Drop)]
pub struct Live<R = Ref, S = MadeSymbol> {
    /// The global object of the application's own package.
    pub global: R,
    /// The key of the global there.
    pub name: Key<S>,
    /// The key of the member of that, if one is meant.
    pub member: Option<Key<S>>,
}

/// What a proxy stands before.
#[derive(Drop)]
pub struct Proxied<R = Ref> {
    pub target: R,
    pub handler: R,
}

/// One place of a keyed collection. A place that is not live was deleted; it stays, so that the places after it keep their numbers.
#[derive(Drop)]
pub struct Entry<R = Ref, S = MadeSymbol> {
    pub key: Value<R, S>,
    pub value: Value<R, S>,
    pub live: bool,
}

/// A promise: how it stands, its value once it is settled, and what waits for it, in order.
#[derive(Drop)]
pub struct Promise<R = Ref, S = MadeSymbol> {
    pub state: PromiseState,
    pub value: Value<R, S>,
    pub reactions: List<Reaction<R>>,
}

/// How a promise stands.
#[derive(Clone, Copy, Debug, PartialEq, Eq)]
pub enum PromiseState {
    Pending,
    Fulfilled,
    Rejected,
}

/// What is called once a promise is fulfilled, and what once it is rejected.
#[derive(Drop)]
pub struct Reaction<R = Ref> {
    pub fulfilled: R,
    pub rejected: R,
}

/// An export of a module: its name, and the slot of the module's scope that has it. Where it was imported, the slot has the other module's value, and `imported` is its name there.
#[derive(Drop)]
pub struct Export {
    pub name: Text,
    pub slot: u32,
    pub imported: Option<Text>,
}
