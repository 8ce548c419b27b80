// The answers of the host.

ghost use Rattle.std.specs.Prelude.{◌≡◌, IfOk, IsUtf8};
ghost use Rattle.js_text.specs.Utf8.{units_of};
ghost use Rattle.lava_host.specs.Replies.{throws, gives_text, IsTextReply, IsLineReply, IsFileReply};

use js_desc::reply::Reply;
use js_text::text::{Text, from_units};
use js_text::utf8::from_utf8;
use js_text::value::Value;
use lava_base::memory::OutOfMemory;
use lava_streams::folder::FileRead;
use lava_streams::source::Line;
use std::alloc::Global;

/// A throw of a text of ASCII characters.
pub(crate) fn throw_of(alloc: Global, message: &str) -> Result<Reply, OutOfMemory>
    ensures { IfOk result (λ reply. reply ≡ throws message.now) }
{
    let text = ascii_text(alloc, message)?;
    Ok(Reply::Throw(Value::Text(text)))
}

/// The text whose units are the bytes of an ASCII text.
fn ascii_text(alloc: Global, text: &str) -> Result<Text, OutOfMemory>
    ensures { IfOk result (λ made. made ≡ text.now) }
{
    let mut units = Vec::with_capacity(alloc, text.len())?;
    for byte in text.as_bytes() {
        units.push(u16::from(*byte))?;
    }
    match from_units(alloc, &units) {
        Ok(text) => Ok(text),
        Err(_) => Err(OutOfMemory),
    }
}

/// The text of these bytes, at most as many as a text has units, or a throw where they are not UTF-8.
fn text_reply(alloc: Global, bytes: &[u8]) -> Result<Reply, OutOfMemory>
    ensures { IfOk result (λ reply. IsTextReply bytes.now reply) }
{
    match str::from_utf8(bytes) {
        Err(_) => throw_of(alloc, "not UTF-8"),
        Ok(_) => text_reply_of(alloc, bytes),
    }
}

/// The text of these bytes, which are UTF-8.
fn text_reply_of(alloc: Global, bytes: &[u8]) -> Result<Reply, OutOfMemory>
    ensures { IfOk result (λ r. IsUtf8 bytes.now × (r ≡ gives_text (units_of bytes.now))) }
{
    match from_utf8(alloc, bytes) {
        Ok(text) => Ok(Reply::Value(Value::Text(text))),
        Err(_) => Err(OutOfMemory),
    }
}

/// What a line gives.
pub(crate) fn line_reply(alloc: Global, line: &Line) -> Result<Reply, OutOfMemory>
    ensures { IfOk result (λ reply. IsLineReply line.now reply) }
{
    match line {
        Line::End => Ok(Reply::Value(Value::Null)),
        Line::TooLong => throw_of(alloc, "line too long"),
        Line::Bytes(bytes) => text_reply(alloc, bytes.as_slice()),
    }
}

/// What a reading of a file gives.
pub(crate) fn file_reply(alloc: Global, file: &FileRead) -> Result<Reply, OutOfMemory>
    ensures { IfOk result (λ reply. IsFileReply file.now reply) }
{
    match file {
        FileRead::Absent => throw_of(alloc, "no such file"),
        FileRead::Longer => throw_of(alloc, "file too long"),
        FileRead::Bytes(bytes) => text_reply(alloc, bytes.as_slice()),
    }
}
