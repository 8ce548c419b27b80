// Sources of the language.

ghost use Rattle.std.specs.Prelude.{◌≡◌, None, IfOk};
ghost use Rattle.js_early.specs.Walks.{early_error};
ghost use Rattle.js_scope.specs.Resolutions as scope;
ghost use Rattle.js_text.specs.Texts.{utf8_of};
ghost use Rattle.pkg_source.specs.Reading.{IsSourceRead, IsRefusedBy, module_of, requests_of, request_names};

use crate::code::ModuleCode;
use js_fault::fault::SyntaxFault;
use js_program::program::read_program;
use js_scope::finding::ModuleRequest;
use js_scope::requests::requests;
use js_scope::resolve::{Resolved, resolve};
use js_text::text::Text;
use js_tree::tree::{Module, SourceKind};
use lava_base::list::List;
use lava_base::memory::OutOfMemory;
use lava_base::name::Name;
use pkg_load::reader::ModuleRead;
use std::alloc::Global;

/// The module that a source is, or one of its faults.
pub(crate) fn read_source(
    alloc: Global,
    bytes: &[u8],
) -> Result<ModuleRead<ModuleCode>, OutOfMemory>
    ensures { IfOk result (IsSourceRead bytes.now) }
{
    match read_program(alloc, SourceKind::Module, bytes) {
        Ok(tree) => module_of_tree(alloc, tree),
        Err(fault) => refused_by(fault),
    }
}

/// A refusal with this fault, unless there was no memory.
fn refused_by(fault: SyntaxFault) -> Result<ModuleRead<ModuleCode>, OutOfMemory>
    ensures { IfOk result (IsRefusedBy fault) }
{
    match fault {
        SyntaxFault::At { place, what } => Ok(ModuleRead::Refused { place, what }),
        SyntaxFault::OutOfMemory => Err(OutOfMemory),
    }
}

/// The module of a syntax tree without an early error.
fn module_of_tree(alloc: Global, tree: Module) -> Result<ModuleRead<ModuleCode>, OutOfMemory>
    requires { early_error tree ≡ None }
    ensures { IfOk result (λ r. r ≡ module_of (scope.resolved tree)) }
{
    match resolve(alloc, tree) {
        Ok(resolved) => module_of_names(alloc, resolved),
        Err(_) => Err(OutOfMemory),
    }
}

/// The module of a source whose names are resolved.
fn module_of_names(alloc: Global, resolved: Resolved) -> Result<ModuleRead<ModuleCode>, OutOfMemory>
    ensures { IfOk result (λ r. r ≡ module_of resolved) }
{
    match request_list(alloc, &resolved) {
        Ok(requests) => Ok(ModuleRead::Module {
            requests,
            code: ModuleCode::Source(resolved),
        }),
        Err(OutOfMemory) => {
            resolved.discard();
            Err(OutOfMemory)
        }
    }
}

/// The literal requests of a source.
fn request_list(alloc: Global, resolved: &Resolved) -> Result<List<Name>, OutOfMemory>
    ensures { IfOk result (λ names. names ≡ requests_of resolved.now) }
{
    let found = requests(alloc, resolved)?;
    names_of(alloc, found.as_slice())
}

/// Requests as names.
fn names_of(alloc: Global, requests: &[ModuleRequest]) -> Result<List<Name>, OutOfMemory>
    ensures { IfOk result (λ names. names ≡ request_names requests.now) }
{
    let mut names = List::new(alloc);
    for request in requests {
        names.push(name_of(alloc, &request.text)?)?;
    }
    Ok(names)
}

/// A text as a name.
fn name_of(alloc: Global, text: &Text) -> Result<Name, OutOfMemory>
    ensures { IfOk result (λ name. name ≡ utf8_of text.now) }
{
    let mut bytes = List::new(alloc);
    text.write_utf8(&mut bytes)?;
    match str::from_utf8(bytes.as_slice()) {
        Ok(name) => Name::of(alloc, name),
        Err(_) => Err(OutOfMemory),
    }
}
