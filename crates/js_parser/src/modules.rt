// stub
ghost use Rattle.std.specs.Prelude.{◌≡◌};
ghost use Rattle.js_parser.specs.Modules as spec;

use js_phrase::phrase::Phrase;
use js_tree::tree::{Module, SourceKind};
use sqlite_items::Items;
use std::alloc::Global;

/// The module whose statements a phrase is.
pub fn module_from(alloc: Global, kind: SourceKind, phrase: Phrase) -> Module
    ensures { result ≡ spec.module_from kind phrase }
{
    match phrase {
        Phrase::Statements(body) => Module { kind, body },
        other => {
            other.discard();
            Module {
                kind,
                body: Items::new(alloc),
            }
        }
    }
}
