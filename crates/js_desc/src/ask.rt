// What is asked of an object or of a party.

ghost use Rattle.std.specs.Prelude.{◌≡◌};
ghost use Rattle.js_desc.specs.Asks.{ask_name};

use crate::descriptor::PartialDescriptor;
use js_text::native::Native;
use js_text::text::Text;
use js_text::value::{Key, Value};
use lava_base::ids::{MadeSymbol, Ref};
use lava_base::list::List;

/// An ask: one of the eighteen methods with its items. The target, an object that is asked, stands beside it.
///
/// The first thirteen are ECMA-262's internal methods of objects ("Object Internal Methods and Internal Slots"), the others are what parties ask of each other.
#[derive(Drop)]
pub enum Ask<R = Ref, S = MadeSymbol> {
    GetPrototypeOf,
    /// None is null.
    SetPrototypeOf {
        proto: Option<R>,
    },
    IsExtensible,
    PreventExtensions,
    GetOwnProperty {
        key: Key<S>,
    },
    DefineOwnProperty {
        key: Key<S>,
        descriptor: PartialDescriptor<R, S>,
    },
    HasProperty {
        key: Key<S>,
    },
    Get {
        key: Key<S>,
        receiver: Value<R, S>,
    },
    Set {
        key: Key<S>,
        value: Value<R, S>,
        receiver: Value<R, S>,
    },
    Delete {
        key: Key<S>,
    },
    OwnPropertyKeys,
    Call {
        this: Value<R, S>,
        args: List<Value<R, S>>,
    },
    Construct {
        new_target: R,
        args: List<Value<R, S>>,
    },
    /// A module of a linked package, by the name of the link and the path in the package, which is empty for its main module.
    Import {
        link: Text,
        path: Text,
    },
    /// A native that looks into what the target keeps, with its operands after the target.
    Slot {
        which: Native,
        args: List<Value<R, S>>,
    },
    /// A new party with these globals and modules. It has no target.
    Make {
        globals: List<(Key<S>, Value<R, S>)>,
        modules: List<(Text, Value<R, S>)>,
    },
    /// A later turn is asked of the host. It has no target.
    Queue,
    /// The host gives a turn. It has no target.
    Turn,
}

impl Ask {
    /// The name of the method, as a trace writes it.
    pub fn name(&self) -> &'static str
        ensures { result.now ≡ ask_name self.now }
    {
        match self {
            Ask::GetPrototypeOf => "GetPrototypeOf",
            Ask::SetPrototypeOf { .. } => "SetPrototypeOf",
            Ask::IsExtensible => "IsExtensible",
            Ask::PreventExtensions => "PreventExtensions",
            Ask::GetOwnProperty { .. } => "GetOwnProperty",
            Ask::DefineOwnProperty { .. } => "DefineOwnProperty",
            Ask::HasProperty { .. } => "HasProperty",
            Ask::Get { .. } => "Get",
            Ask::Set { .. } => "Set",
            Ask::Delete { .. } => "Delete",
            Ask::OwnPropertyKeys => "OwnPropertyKeys",
            Ask::Call { .. } => "Call",
            Ask::Construct { .. } => "Construct",
            Ask::Import { .. } => "Import",
            Ask::Slot { .. } => "Slot",
            Ask::Make { .. } => "Make",
            Ask::Queue => "Queue",
            Ask::Turn => "Turn",
        }
    }
}
