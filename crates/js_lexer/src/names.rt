// Names (ECMA-262, "Names and Keywords").

ghost use Rattle.std.specs.Prelude.{◌≡◌};
ghost use Rattle.js_lexer.specs.Characters.{is_name_part};
ghost use Rattle.js_lexer.specs.Skipping.{skip};

use crate::characters::is_name_part;
use crate::cursor::Cursor;

/// Takes what is left of a name.
pub fn skip_name(cursor: &mut Cursor)
    ensures { cursor.new ≡ skip is_name_part cursor.old }
{
    while let Some(c) = cursor.peek() {
        if !is_name_part(c) {
            break;
        }
        cursor.bump();
    }
}
