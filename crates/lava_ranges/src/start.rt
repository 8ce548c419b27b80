// The names of the parties of the start.

ghost use Rattle.std.specs.Prelude.{◌≡◌, ◌<◌, [], true, get_or, length, IfOk};
ghost use Rattle.std.specs.Ordering.{is_lt};
ghost use Rattle.js_text.specs.Search.{order_of_units};
ghost use Rattle.js_text.specs.Texts.{same_units, utf8_of};
ghost use Rattle.lava_ranges.specs.Starts.{MayBeginTrace, MayStandAt, may_stand_at};
ghost use Rattle.lava_trace_laws.specs.Written.{IsName};

use crate::crossing::LAST_PARTY;
use crate::text::read_text;
use js_text::fault::TextFault;
use js_text::text::Text;
use js_text::utf8::from_utf8;
use lava_base::list::List;
use lava_base::memory::OutOfMemory;
use lava_base::name::Name;
use std::alloc::Global;
use std::cmp::Ordering;

/// Whether bytes are the same.
fn is_same(bytes: &[u8], others: &[u8]) -> bool
    ensures { result ≡ same_units bytes.now others.now }
{
    bytes == others
}

/// Whether a name stands before another in byte order.
fn rises(name: &[u8], next: &[u8]) -> bool
    ensures { result ≡ is_lt (order_of_units name.now next.now) }
{
    name.cmp(&next) == Ordering::Less
}

/// Whether a text is written by these bytes.
#[tactic(auto, using(crate::proofs::Start_laws::same_from))]
fn is_written(alloc: Global, text: &Text, name: &[u8]) -> Result<bool, OutOfMemory>
    ensures { IfOk result (λ b. b ≡ true → utf8_of text.now ≡ name.now) }
{
    let mut written = List::new(alloc);
    text.write_utf8(&mut written)?;
    Ok(is_same(written.as_slice(), name))
}

/// Whether a name is a text in UTF-8.
fn is_name(alloc: Global, name: &[u8]) -> Result<bool, OutOfMemory>
    ensures { IfOk result (λ b. b ≡ true → IsName name.now) }
{
    match from_utf8(alloc, name) {
        Ok(text) => {
            read_text(&text);
            is_written(alloc, &text, name)
        }
        Err(TextFault::OutOfMemory) => Err(OutOfMemory),
        Err(_) => Ok(false),
    }
}

/// The name of a party.
#[tactic(auto, using(crate::proofs::Start_laws::same_item))]
fn name_at(parties: &List<Name>, at: usize) -> &[u8]
    requires { at < length parties.now }
    ensures { result.now ≡ get_or parties.now at [] }
{
    parties.item(at).as_str().as_bytes()
}

/// Whether the name of a party may stand behind those before it.
fn may_follow(parties: &List<Name>, at: usize) -> bool
    requires { at < length parties.now }
    ensures { result ≡ may_stand_at parties.now at }
{
    let name = name_at(parties, at);
    if at == 0 {
        return is_same(name, b"$host$");
    }
    if at == 1 {
        return is_same(name, b"$root$");
    }
    if at == 2 {
        return true;
    }
    rises(name_at(parties, at - 1), name)
}

/// Whether the line of a party may stand there.
fn may_stand(alloc: Global, parties: &List<Name>, at: usize) -> Result<bool, OutOfMemory>
    requires { at < length parties.now }
    ensures { IfOk result (λ b. b ≡ true → MayStandAt parties.now at) }
{
    if at > LAST_PARTY as usize || !may_follow(parties, at) {
        return Ok(false);
    }
    is_name(alloc, name_at(parties, at))
}

/// Whether the names of parties begin a trace: the first two are fixed, those behind them stand in byte order, each is a text in UTF-8, and there are no more than a line can number.
pub fn may_begin(alloc: Global, parties: &List<Name>) -> Result<bool, OutOfMemory>
    ensures { IfOk result (λ b. b ≡ true → MayBeginTrace parties.now) }
{
    for at in 0..parties.len() {
        if !may_stand(alloc, parties, at)? {
            return Ok(false);
        }
    }
    Ok(true)
}
