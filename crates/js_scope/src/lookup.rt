// Where a name is declared.

ghost use Rattle.std.specs.Prelude.{◌≡◌};
ghost use Rattle.js_scope.specs.Resolutions as spec;

use crate::finding::Binding;
use js_names::scope::NameScope;
use js_text::text::Text;

/// The innermost declaration of a name, or none where it is free (ECMA-262, ResolveBinding).
pub(crate) fn resolve_name(name: &Text, scopes: &[NameScope]) -> Option<Binding>
    ensures { result ≡ spec.resolve_name name.now scopes.now }
{
    let mut level = scopes.len();
    while level > 0 {
        level -= 1;
        if let Some(found) = scopes[level].find(name) {
            return Some(Binding {
                scope: level,
                at: found.at,
            });
        }
    }
    None
}
