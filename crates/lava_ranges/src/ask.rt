// Asks.

ghost use Rattle.std.specs.Prelude.{◌≡◌, true, Option};
ghost use Rattle.std.specs.List.{AllByRecursion};
ghost use Rattle.lava_base.specs.declared.ids.Ref.{Ref};
ghost use Rattle.js_desc.specs.declared.crossing.CrossBody.TheVariants as body;
ghost use Rattle.lava_trace.specs.Courses.{is_make};
ghost use Rattle.lava_trace_laws.specs.Sound as spec;
ghost use Rattle.lava_trace_laws.specs.Sound.{HasTarget, Sound_ask, Sound_key, Sound_partial, Sound_value};

use crate::text::{is_sound_key, read_text};
use crate::value::{are_sound_values, is_sound_partial, is_sound_value};
use js_desc::ask::Ask;
use js_desc::descriptor::PartialDescriptor;
use js_text::value::{Key, Value};
use lava_base::ids::Ref;

/// Whether an ask takes a target: all but four do.
fn takes_target(ask: &Ask) -> bool
    ensures { result ≡ spec.takes_target ask.now }
{
    match ask {
        Ask::Import { .. } | Ask::Make { .. } | Ask::Queue | Ask::Turn => false,
        _ => true,
    }
}

/// Whether an ask has a target where its method wants one, and there alone.
pub(crate) fn has_target(target: &Option<Ref>, ask: &Ask) -> bool
    ensures { result ≡ true → HasTarget target.now ask.now }
{
    target.is_some() == takes_target(ask)
}

/// Whether a key and a value are sound.
fn is_sound_pair(key: &Key, value: &Value) -> bool
    ensures { result ≡ true → Sound_key key.now × Sound_value value.now }
{
    is_sound_key(key) && is_sound_value(value)
}

/// Whether a key and a definition are sound.
fn is_sound_definition(key: &Key, descriptor: &PartialDescriptor) -> bool
    ensures { result ≡ true → Sound_key key.now × Sound_partial descriptor.now }
{
    is_sound_key(key) && is_sound_partial(descriptor)
}

/// Whether a value and some more are sound.
fn is_sound_call(this: &Value, args: &[Value]) -> bool
    ensures { result ≡ true → Sound_value this.now × AllByRecursion Sound_value args.now }
{
    is_sound_value(this) && are_sound_values(args)
}

/// Whether an ask makes a party.
pub(crate) fn makes_party(ask: &Ask) -> bool
    ensures { (target : Option Ref) → result ≡ is_make (body.Ask target ask.now) }
{
    match ask {
        Ask::Make { .. } => true,
        _ => false,
    }
}

/// Whether what an ask says is in range, and it makes no party.
pub(crate) fn is_sound_ask(ask: &Ask) -> bool
    ensures { result ≡ true → Sound_ask ask.now }
{
    match ask {
        Ask::GetPrototypeOf
        | Ask::SetPrototypeOf { .. }
        | Ask::IsExtensible
        | Ask::PreventExtensions
        | Ask::OwnPropertyKeys
        | Ask::Queue
        | Ask::Turn => true,
        Ask::GetOwnProperty { key } | Ask::HasProperty { key } | Ask::Delete { key } => {
            is_sound_key(key)
        }
        Ask::DefineOwnProperty { key, descriptor } => is_sound_definition(key, descriptor),
        Ask::Get { key, receiver } => is_sound_pair(key, receiver),
        Ask::Set {
            key,
            value,
            receiver,
        } => is_sound_pair(key, value) && is_sound_value(receiver),
        Ask::Call { this, args } => is_sound_call(this, args.as_slice()),
        Ask::Construct { args, .. } | Ask::Slot { args, .. } => are_sound_values(args.as_slice()),
        Ask::Import { link, path } => {
            read_text(link);
            read_text(path);
            true
        }
        Ask::Make { .. } => false,
    }
}
