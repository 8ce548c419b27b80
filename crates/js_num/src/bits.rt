// The operators on 32 bits.

ghost use Rattle.std.specs.Prelude.{◌≡◌};
ghost use Rattle.js_num.specs.Bits.{to_uint32, to_int32, bitwise};
ghost use Rattle.lava_base.specs.SafeIntegers.{IsSafe};

/// An operator on 32 bits: `&`, `|`, `^`, `<<`, `>>` and `>>>`.
#[derive(Clone, Copy, Debug, PartialEq, Eq)]
pub enum BitOp {
    And,
    Or,
    Xor,
    Shl,
    Shr,
    ShrUnsigned,
}

/// The integer modulo 2^32 (ECMA-262, ToUint32).
fn to_uint32(number: i64) -> u32
    ensures { result ≡ to_uint32 number }
{
    number.rem_euclid(0x1_0000_0000) as u32
}

/// The same as an integer of 32 bits with a sign (ECMA-262, ToInt32).
fn to_int32(number: i64) -> i32
    ensures { result ≡ to_int32 number }
{
    to_uint32(number).cast_signed()
}

/// What the operator gives: an integer of 32 bits, without sign at `>>>` and else with one.
pub(crate) fn bitwise(op: BitOp, left: i64, right: i64) -> i64
    ensures value { result ≡ bitwise op left right }
    ensures safe { IsSafe result }
{
    let integer = to_int32(left);
    let other = to_int32(right);
    let count = to_uint32(right);
    match op {
        BitOp::And => i64::from(integer & other),
        BitOp::Or => i64::from(integer | other),
        BitOp::Xor => i64::from(integer ^ other),
        BitOp::Shl => i64::from(integer.wrapping_shl(count)),
        BitOp::Shr => i64::from(integer.wrapping_shr(count)),
        BitOp::ShrUnsigned => i64::from(to_uint32(left).wrapping_shr(count)),
    }
}
