// The parts of a literal, read off its text.

ghost use Rattle.std.specs.Prelude.{◌≡◌};
ghost use Rattle.js_num.specs.Views.{parts_view, IsViewOf};
ghost use Rattle.js_num.specs.Reading.{front_digits, after_digits, read_sign, read_fraction, read_exponent, read_parts, read_radix};

/// The parts of a decimal literal: its sign, its digits before and behind the point, and its exponent, whose digits are none where there is no exponent.
#[derive(Clone, Copy)]
pub struct DecimalParts<'a> {
    pub negative: bool,
    pub integer: &'a [u16],
    pub fraction: &'a [u16],
    pub down: bool,
    pub exponent: &'a [u16],
}

/// The digits at the front, and what follows them.
fn split_digits(text: &[u16]) -> (&[u16], &[u16])
    ensures digits { result.0.now ≡ front_digits text.now }
    ensures rest { result.1.now ≡ after_digits text.now }
{
    let mut end = 0;
    while end < text.len() && matches!(text[end], 0x30..=0x39) {
        end += 1;
    }
    text.split_at(end)
}

/// Whether a minus stands in front, and what follows the sign.
fn split_sign(text: &[u16]) -> (bool, &[u16])
    ensures { (result.0, result.1.now) ≡ read_sign text.now }
{
    match text {
        [0x2d, rest @ ..] => (true, rest),
        [0x2b, rest @ ..] => (false, rest),
        _ => (false, text),
    }
}

/// The digits after a point, and what follows them.
fn split_fraction(text: &[u16]) -> (&[u16], &[u16])
    ensures { (result.0.now, result.1.now) ≡ read_fraction text.now }
{
    match text {
        [0x2e, rest @ ..] => split_digits(rest),
        _ => (&[], text),
    }
}

/// Whether the exponent is negative, and its digits, where the text is an exponent or empty.
fn exponent_of(text: &[u16]) -> Option<(bool, &[u16])>
    ensures { IsViewOf result (λ x. (x.0, x.1.now)) (read_exponent text.now) }
{
    match text {
        [] => Some((false, text)),
        [0x65 | 0x45, rest @ ..] => {
            let (down, digits) = split_sign(rest);
            if digits.is_empty() || !split_digits(digits).1.is_empty() {
                return None;
            }
            Some((down, digits))
        }
        _ => None,
    }
}

/// The parts of the decimal literal that the whole text is.
pub fn parts_of(text: &[u16]) -> Option<DecimalParts<'_>>
    ensures { IsViewOf result parts_view (read_parts text.now) }
{
    let (negative, unsigned) = split_sign(text);
    let (integer, rest) = split_digits(unsigned);
    let (fraction, rest) = split_fraction(rest);
    let (down, exponent) = exponent_of(rest)?;
    if integer.is_empty() && fraction.is_empty() {
        return None;
    }
    Some(DecimalParts {
        negative,
        integer,
        fraction,
        down,
        exponent,
    })
}

/// The radix that `0x`, `0o` or `0b` in front gives, and what follows.
pub fn split_radix(text: &[u16]) -> Option<(u64, &[u16])>
    ensures { IsViewOf result (λ x. (x.0, x.1.now)) (read_radix text.now) }
{
    match text {
        [0x30, 0x78 | 0x58, digits @ ..] => Some((16, digits)),
        [0x30, 0x6f | 0x4f, digits @ ..] => Some((8, digits)),
        [0x30, 0x62 | 0x42, digits @ ..] => Some((2, digits)),
        _ => None,
    }
}
