// Answers.

ghost use Rattle.std.specs.Prelude.{◌≡◌, ◌∷◌, false, map, OnOk};
ghost use Rattle.lava_journal.specs.Bodies as spec;
ghost use Rattle.lava_journal.specs.Bodies.{parted};
ghost use Rattle.lava_journal.specs.Pages.{with_each};
ghost use Rattle.lava_journal.specs.Sheets.{Plain};

use crate::fields::write_property;
use crate::page::{Page, write_word};
use crate::values::{write_key, write_object_or_null, write_spaced_keys, write_truth, write_value};
use js_desc::reply::Reply;
use js_text::value::Key;
use lava_base::memory::OutOfMemory;

/// Writes keys parted by one space.
fn write_parted_keys<P: Page>(page: &mut P, keys: &[Key]) -> Result<(), OutOfMemory>
    ensures { OnOk result (page.new ≡ with_each P.with_piece page.old
        (parted false (map spec.key_pieces keys.now))) }
{
    if keys.is_empty() {
        return Ok(());
    }
    write_key(page, &keys[0])?;
    write_spaced_keys(page, &keys[1..])
}

/// Writes what OwnPropertyKeys is answered with.
fn write_keys<P: Page>(page: &mut P, keys: &[Key]) -> Result<(), OutOfMemory>
    ensures { OnOk result (page.new ≡ with_each P.with_piece page.old
        (spec.keys_pieces keys.now)) }
{
    write_word(page, "[")?;
    write_parted_keys(page, keys)?;
    write_word(page, "]")
}

/// Writes the item of an answer.
fn write_answer_item<P: Page>(page: &mut P, reply: &Reply) -> Result<(), OutOfMemory>
    ensures { OnOk result (page.new ≡ with_each P.with_piece page.old
        (spec.answer_pieces reply.now)) }
{
    match reply {
        Reply::Value(value) => write_value(page, value),
        Reply::Proto(proto) => write_object_or_null(page, *proto),
        Reply::Flag(flag) => write_truth(page, *flag),
        Reply::Desc(property) => write_property(page, property),
        Reply::Keys(keys) => write_keys(page, keys.as_slice()),
        Reply::Throw(value) => write_value(page, value),
    }
}

/// Writes an answer, or a throw.
#[tactic(auto, using(crate::proofs::Piece_laws::first_piece))]
pub(crate) fn write_answer<P: Page>(page: &mut P, reply: &Reply) -> Result<(), OutOfMemory>
    ensures { OnOk result (page.new ≡ with_each P.with_piece page.old
        (Plain (spec.answer_word reply.now) ∷ spec.answer_pieces reply.now)) }
{
    write_word(page, answer_word(reply))?;
    write_answer_item(page, reply)
}

/// The first word of an answer, or of a throw.
fn answer_word(reply: &Reply) -> &'static str
    ensures { result.now ≡ spec.answer_word reply.now }
{
    match reply {
        Reply::Throw(_) => "throw ",
        _ => "answer ",
    }
}
