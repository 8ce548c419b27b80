// The natives by their names.

ghost use Rattle.std.specs.Prelude.{◌≡◌};
ghost use Rattle.lava_trace.specs.Asks as spec;

use crate::names::is_word;
use js_text::native::Native;

/// All natives.
static NATIVES: [Native; 52] = [
    Native::GetProto,
    Native::SetProto,
    Native::IsExtensible,
    Native::PreventExt,
    Native::GetOwn,
    Native::DefineOwn,
    Native::Has,
    Native::Get,
    Native::Set,
    Native::Delete,
    Native::OwnKeys,
    Native::Apply,
    Native::Construct,
    Native::MakeObject,
    Native::MakeArray,
    Native::IsArray,
    Native::ClassOf,
    Native::IsCommon,
    Native::Bind,
    Native::MakeProxy,
    Native::Revoke,
    Native::UnitAt,
    Native::FromUnits,
    Native::Slice,
    Native::IndexIn,
    Native::Concat,
    Native::ToText,
    Native::ToNumber,
    Native::ToKey,
    Native::Ascii,
    Native::SortTexts,
    Native::MakeSymbol,
    Native::SymbolFor,
    Native::MakeError,
    Native::MakeMap,
    Native::MapGet,
    Native::MapSet,
    Native::MapHas,
    Native::MapDelete,
    Native::MapClear,
    Native::MapNext,
    Native::MapKeyAt,
    Native::MapSize,
    Native::MakeCompartment,
    Native::Evaluate,
    Native::CompartmentGlobal,
    Native::MakePromise,
    Native::Settle,
    Native::React,
    Native::Queue,
    Native::ImportModule,
    Native::IsModule,
];

/// The native with a name, and the first one where none has it.
#[tactic(auto, unfolding(crate::specs::Asks::native_of))]
pub(crate) fn native_of(word: &[u8]) -> Native
    ensures { result ≡ spec.native_of word.now }
{
    first_named(&NATIVES, word)
}

/// The first of these natives that has the name.
fn first_named(natives: &[Native], word: &[u8]) -> Native
    ensures { result ≡ spec.native_from Native.GetProto word.now natives.now }
{
    for native in natives {
        if is_word(word, native.name()) {
            return *native;
        }
    }
    Native::GetProto
}
