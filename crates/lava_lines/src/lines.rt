// The lines on the errors, each with its LF.

ghost use Rattle.std.specs.Prelude.{◌≡◌, ◌++◌, IfOk, OnOk};
ghost use Rattle.std.specs.Fmt.{decimal};
ghost use Rattle.lava_lines.specs.Lines as spec;

use crate::status::{
    BAD_TOKEN, EARLY, ENDED_IN, LEFT_OUT, LINE_START, MANIFEST_START, MISSING_START, NOT_UTF8,
    OUTSIDE_START, POLICY_START, SYNTAX_START, TOO_DEEP, TOO_MANY_START, UNCAUGHT_START,
    UNEXPECTED,
};
use itoa::Buffer;
use js_fault::fault::SyntaxWhat;
use lava_base::list::List;
use lava_base::memory::OutOfMemory;
use lava_base::name::Name;
use lava_base::place::Place;
use std::alloc::Global;

/// Appends a number in decimal.
fn push_number(out: &mut List<u8>, number: u32) -> Result<(), OutOfMemory>
    ensures { OnOk result (out.new ≡ out.old ++ decimal number) }
{
    let mut digits = Buffer::new();
    out.extend_from_slice(digits.format(number).as_bytes())
}

/// Appends a count in decimal.
fn push_count(out: &mut List<u8>, count: u64) -> Result<(), OutOfMemory>
    ensures { OnOk result (out.new ≡ out.old ++ decimal count) }
{
    let mut digits = Buffer::new();
    out.extend_from_slice(digits.format(count).as_bytes())
}

/// Appends a text and a name.
fn push_named(out: &mut List<u8>, text: &str, name: &Name) -> Result<(), OutOfMemory>
    ensures { OnOk result (out.new ≡ out.old ++ (text.now ++ name.now)) }
{
    out.extend_from_slice(text.as_bytes())?;
    out.extend_from_slice(name.as_str().as_bytes())
}

/// Appends what is wrong with a source.
pub fn push_what(out: &mut List<u8>, what: &SyntaxWhat) -> Result<(), OutOfMemory>
    ensures { OnOk result (out.new ≡ out.old ++ spec.what_text what.now) }
{
    match what {
        SyntaxWhat::NotUtf8 => out.extend_from_slice(NOT_UTF8.as_bytes()),
        SyntaxWhat::BadToken => out.extend_from_slice(BAD_TOKEN.as_bytes()),
        SyntaxWhat::Unsupported(name) => push_named(out, LEFT_OUT, name),
        SyntaxWhat::Unexpected => out.extend_from_slice(UNEXPECTED.as_bytes()),
        SyntaxWhat::TooDeep => out.extend_from_slice(TOO_DEEP.as_bytes()),
        SyntaxWhat::Early(name) => push_named(out, EARLY, name),
    }
}

/// The line of a source that is refused: its package and its path there, the place, and what is wrong.
pub fn syntax_line(
    alloc: Global,
    owner: &str,
    path: &str,
    place: Place,
    what: &SyntaxWhat,
) -> Result<List<u8>, OutOfMemory>
    ensures { let line = spec.syntax_line owner.now path.now place what.now in
        IfOk result (λ made. made ≡ line) }
{
    let mut line = List::new(alloc);
    line.extend_from_slice(SYNTAX_START.as_bytes())?;
    line.extend_from_slice(owner.as_bytes())?;
    line.push(b' ')?;
    line.extend_from_slice(path.as_bytes())?;
    line.push(b':')?;
    push_number(&mut line, place.line)?;
    line.push(b':')?;
    push_number(&mut line, place.unit)?;
    line.push(b' ')?;
    push_what(&mut line, what)?;
    line.push(b'\n')?;
    Ok(line)
}

/// A line of a text and two words.
fn two_words(alloc: Global, start: &str, first: &str, second: &str) -> Result<List<u8>, OutOfMemory>
    ensures { let line = spec.two_words start.now first.now second.now in
        IfOk result (λ made. made ≡ line) }
{
    let mut line = List::new(alloc);
    line.extend_from_slice(start.as_bytes())?;
    line.extend_from_slice(first.as_bytes())?;
    line.push(b' ')?;
    line.extend_from_slice(second.as_bytes())?;
    line.push(b'\n')?;
    Ok(line)
}

/// The line where something has no file: the package that asks for it, and the request.
pub fn missing_line(alloc: Global, owner: &str, request: &str) -> Result<List<u8>, OutOfMemory>
    ensures { let line = spec.missing_line owner.now request.now in
        IfOk result (λ made. made ≡ line) }
{
    two_words(alloc, MISSING_START, owner, request)
}

/// The line of a manifest: its directory, and the field that has not its form.
pub fn manifest_line(alloc: Global, dir: &str, field: &str) -> Result<List<u8>, OutOfMemory>
    ensures { let line = spec.manifest_line dir.now field.now in
        IfOk result (λ made. made ≡ line) }
{
    two_words(alloc, MANIFEST_START, dir, field)
}

/// The line of a policy file that is refused: the file, the row and the key as they are shown, and what is wrong.
pub fn policy_line(
    alloc: Global,
    file: &str,
    row: &str,
    key: &str,
    what: &str,
) -> Result<List<u8>, OutOfMemory>
    ensures { let line = spec.policy_line file.now row.now key.now what.now in
        IfOk result (λ made. made ≡ line) }
{
    let mut line = List::new(alloc);
    line.extend_from_slice(POLICY_START.as_bytes())?;
    line.extend_from_slice(file.as_bytes())?;
    line.push(b' ')?;
    line.extend_from_slice(row.as_bytes())?;
    line.push(b' ')?;
    line.extend_from_slice(key.as_bytes())?;
    line.push(b' ')?;
    line.extend_from_slice(what.as_bytes())?;
    line.push(b'\n')?;
    Ok(line)
}

/// The line of a limit: what is counted, and the count that passed it.
pub fn too_many_line(alloc: Global, what: &str, count: u64) -> Result<List<u8>, OutOfMemory>
    ensures { let line = spec.too_many_line what.now count in
        IfOk result (λ made. made ≡ line) }
{
    let mut line = List::new(alloc);
    line.extend_from_slice(TOO_MANY_START.as_bytes())?;
    line.extend_from_slice(what.as_bytes())?;
    line.push(b' ')?;
    push_count(&mut line, count)?;
    line.push(b'\n')?;
    Ok(line)
}

/// A line of a text and bytes.
fn with_start(alloc: Global, start: &str, bytes: &[u8]) -> Result<List<u8>, OutOfMemory>
    ensures { let line = spec.with_start start.now bytes.now in
        IfOk result (λ made. made ≡ line) }
{
    let mut line = List::new(alloc);
    line.extend_from_slice(start.as_bytes())?;
    line.extend_from_slice(bytes)?;
    line.push(b'\n')?;
    Ok(line)
}

/// The line of a thrown value that nothing caught, as `console` prints it.
pub fn uncaught_line(alloc: Global, value: &[u8]) -> Result<List<u8>, OutOfMemory>
    ensures { let line = spec.uncaught_line value.now in
        IfOk result (λ made. made ≡ line) }
{
    with_start(alloc, UNCAUGHT_START, value)
}

/// The line of a fault of the outside: the object that failed.
pub fn outside_line(alloc: Global, object: &str) -> Result<List<u8>, OutOfMemory>
    ensures { let line = spec.outside_line object.now in
        IfOk result (λ made. made ≡ line) }
{
    with_start(alloc, OUTSIDE_START, object.as_bytes())
}

/// The line of a run that was ended: how, and in which package.
pub fn ended_line(alloc: Global, ending: &str, owner: &str) -> Result<List<u8>, OutOfMemory>
    ensures { let line = spec.ended_line ending.now owner.now in
        IfOk result (λ made. made ≡ line) }
{
    let mut line = List::new(alloc);
    line.extend_from_slice(LINE_START.as_bytes())?;
    line.extend_from_slice(ending.as_bytes())?;
    line.extend_from_slice(ENDED_IN.as_bytes())?;
    line.extend_from_slice(owner.as_bytes())?;
    line.push(b'\n')?;
    Ok(line)
}
