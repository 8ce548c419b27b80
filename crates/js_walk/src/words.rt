// Texts that are words.

ghost use Rattle.std.specs.Prelude.{◌≡◌};
ghost use Rattle.js_text.specs.Texts.{same_units};

use js_text::text::Text;

/// Whether a text is an ASCII word.
pub fn is_word(text: &Text, word: &[u8]) -> bool
    ensures { result ≡ same_units text.now word.now }
{
    let len = text.len();
    if len as usize != word.len() {
        return false;
    }
    let mut at = 0;
    while at < len {
        if text.unit(at) != word[at as usize] as u16 {
            return false;
        }
        at += 1;
    }
    true
}
