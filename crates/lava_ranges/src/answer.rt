// Answers.

ghost use Rattle.std.specs.Prelude.{◌≡◌, true};
ghost use Rattle.std.specs.List.{AllByRecursion};
ghost use Rattle.lava_trace_laws.specs.Sound.{Sound_key, Sound_reply};

use crate::text::is_sound_key;
use crate::value::{is_sound_property, is_sound_value};
use js_desc::reply::Reply;
use js_text::value::Key;

/// Whether keys are indices where they can be.
fn are_sound_keys(keys: &[Key]) -> bool
    ensures { result ≡ true → AllByRecursion Sound_key keys.now }
{
    for key in keys {
        if !is_sound_key(key) {
            return false;
        }
    }
    true
}

/// Whether what an answer says is in range.
pub(crate) fn is_sound_reply(reply: &Reply) -> bool
    ensures { result ≡ true → Sound_reply reply.now }
{
    match reply {
        Reply::Value(value) | Reply::Throw(value) => is_sound_value(value),
        Reply::Proto(_) | Reply::Flag(_) => true,
        Reply::Desc(property) => is_sound_property(property),
        Reply::Keys(keys) => are_sound_keys(keys.as_slice()),
    }
}
