// A reader of sources that are words: each word of a source is a request, and one that begins with `!` is refused.

ghost use Rattle.std.specs.Prelude.{◌≡◌, ◌++◌, IfOk, OnOk};
ghost use Rattle.std.specs.List.{slice_split};
ghost use Rattle.package_rows.specs.Words.{is_space, has_space, first_word, other_words, is_bad, refused_as, text_read, bytes_read};

use js_fault::fault::SyntaxWhat;
use lava_base::list::List;
use lava_base::memory::OutOfMemory;
use lava_base::name::Name;
use lava_base::place::Place;
use pkg_load::reader::{ModuleKind, ModuleRead, ModuleReader};
use std::alloc::Global;

/// The reader of words.
pub struct Words;

fn has_space(text: &str) -> bool
    ensures { result ≡ has_space text.now }
{
    match text.split_once(' ') {
        Some(_) => true,
        None => false,
    }
}

fn first_word(text: &str) -> &str
    ensures { result.now ≡ first_word text.now }
{
    match text.split_once(' ') {
        Some((first, _)) => first,
        None => text,
    }
}

fn other_words(text: &str) -> &str
    ensures { result.now ≡ other_words text.now }
{
    match text.split_once(' ') {
        Some((_, rest)) => rest,
        None => "",
    }
}

// Adds the words of a text.
fn add_words(alloc: Global, words: &mut List<Name>, text: &str) -> Result<(), OutOfMemory>
    ensures { OnOk result (words.new ≡ words.old ++ slice_split is_space text.now) }
{
    if !has_space(text) {
        words.push(Name::of(alloc, text)?)?;
        return Ok(());
    }
    words.push(Name::of(alloc, first_word(text))?)?;
    add_words(alloc, words, other_words(text))
}

fn is_bad(text: &[u8]) -> bool
    ensures { result ≡ is_bad text.now }
{
    !text.is_empty() && text[0] == b'!'
}

fn refused_as(what: SyntaxWhat) -> ModuleRead<usize>
    ensures { result ≡ refused_as what }
{
    let place = Place { line: 1, unit: 1 };
    ModuleRead::Refused { place, what }
}

fn text_read(alloc: Global, text: &str) -> Result<ModuleRead<usize>, OutOfMemory>
    ensures { IfOk result (λ r. r ≡ text_read text.now) }
{
    if is_bad(text.as_bytes()) {
        return Ok(refused_as(SyntaxWhat::Unexpected));
    }
    let mut requests = List::new(alloc);
    add_words(alloc, &mut requests, text)?;
    let code = text.len();
    Ok(ModuleRead::Module { requests, code })
}

impl ModuleReader for Words {
    type Code = usize;

    ghost Reads = { λ _ _ bytes r. r ≡ bytes_read bytes };

    fn read(
        &self,
        alloc: Global,
        _: ModuleKind,
        bytes: &[u8],
    ) -> Result<ModuleRead<usize>, OutOfMemory> {
        match str::from_utf8(bytes) {
            Ok(text) => text_read(alloc, text),
            Err(_) => Ok(refused_as(SyntaxWhat::NotUtf8)),
        }
    }
}
