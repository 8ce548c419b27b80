// Exact powers.

ghost use Rattle.std.specs.Prelude.{◌≡◌, ℤ, ◌*◌, ◌%◌, ◌^◌, ◌<◌, ◌≤◌, ◌&&◌, ◌==◌, IfOk, OnErr};
ghost use Rattle.std.specs.Int.{is_negative};
ghost use Rattle.js_num.specs.Arithmetic.{IsPower};
ghost use Rattle.lava_base.specs.SafeIntegers.{IsSafe};
ghost use Rattle.js_num.specs.SafeRange.{NoSafe, IsSafeNatural, max_safe};

use crate::literal::signed_integer;
use crate::safe::NotSafe;
use lava_base::limits::MAX_SAFE_INTEGER;

/// The product, where it is safe.
fn safe_product(left: u64, right: u64) -> Result<u64, NotSafe>
    ensures ok { IfOk result (IsSafeNatural (left * right)) }
    ensures err { OnErr result (max_safe < left * right) }
{
    match left.checked_mul(right) {
        Some(product) if product <= MAX_SAFE_INTEGER => Ok(product),
        _ => Err(NotSafe),
    }
}

/// The power of a base of 2 at least, where it is safe. That it is past the limit shows after 53 steps at most.
fn growing_power(base: u64, exponent: u64) -> Result<u64, NotSafe>
    requires { 2 ≤ base }
    ensures ok { IfOk result (IsSafeNatural (base ^ exponent)) }
    ensures err { OnErr result (max_safe < base ^ exponent) }
{
    let mut power = 1;
    for _ in 0..exponent {
        power = safe_product(power, base)?;
    }
    Ok(power)
}

/// The power of a natural number, where it is safe.
fn natural_power(base: u64, exponent: u64) -> Result<u64, NotSafe>
    ensures ok { IfOk result (IsSafeNatural (base ^ exponent)) }
    ensures err { OnErr result (max_safe < base ^ exponent) }
{
    match (base, exponent) {
        (_, 0) | (1, _) => Ok(1),
        (0, _) => Ok(0),
        _ => growing_power(base, exponent),
    }
}

/// Whether the power is negative.
fn is_negative_power(base: i64, exponent: u64) -> bool
    ensures { result ≡ (is_negative base && (exponent % 2 == 1)) }
{
    base < 0 && exponent % 2 == 1
}

/// The exact power, where it is a safe integer (ECMA-262, Number::exponentiate). At a negative exponent only 1 and -1 have one, and there it is that of the exponent without its sign.
pub fn power(base: i64, exponent: i64) -> Result<i64, NotSafe>
    ensures ok { IfOk result (IsPower base exponent) }
    ensures safe { IfOk result IsSafe }
    ensures err { OnErr result (NoSafe (IsPower base exponent)) }
{
    let magnitude = base.unsigned_abs();
    if exponent < 0 && magnitude != 1 {
        return Err(NotSafe);
    }
    let times = exponent.unsigned_abs();
    let power = natural_power(magnitude, times)?;
    Ok(signed_integer(is_negative_power(base, times), power))
}
