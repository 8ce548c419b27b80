// White space at the ends of a text.

ghost use Rattle.std.specs.Prelude.{◌≡◌, ◌-◌, length, take, drop};
ghost use Rattle.std.specs.List.{prefix_len, suffix_len};
ghost use Rattle.js_num.specs.White.{is_white};

/// Whether a unit is white space or a line terminator (ECMA-262, StrWhiteSpaceChar).
fn is_white_unit(unit: u16) -> bool
    ensures { result ≡ is_white unit }
{
    matches!(unit, 9..=13 | 32 | 160 | 0x1680 | 0x2000..=0x200a | 0x2028 | 0x2029 | 0x202f | 0x205f | 0x3000 | 0xfeff)
}

/// The text from its first unit that is not white space.
pub fn without_leading_white(text: &[u16]) -> &[u16]
    ensures { result.now ≡ drop (prefix_len is_white text.now) text.now }
{
    let mut start = 0;
    while start < text.len() && is_white_unit(text[start]) {
        start += 1;
    }
    &text[start..]
}

/// The text up to its last unit that is not white space.
pub fn without_trailing_white(text: &[u16]) -> &[u16]
    ensures { result.now ≡ take (length text.now - suffix_len is_white text.now) text.now }
{
    let mut end = text.len();
    while end > 0 && is_white_unit(text[end - 1]) {
        end -= 1;
    }
    &text[..end]
}
