// Safe integers.

ghost use Rattle.std.specs.Prelude.{◌≡◌, ℤ, pos, ◌+ℤ◌, ◌-ℤ◌, ◌*ℤ◌, IfOk, OnOk, OnErr};
ghost use Rattle.std.specs.Fmt.{signed_decimal};
ghost use Rattle.js_num.specs.Arithmetic.{IsQuotient, IsRemainder, IsPower};
ghost use Rattle.js_num.specs.Bits.{bitwise};
ghost use Rattle.lava_base.specs.SafeIntegers.{IsSafe};
ghost use Rattle.js_num.specs.SafeRange.{NoSafe};
ghost use Rattle.js_num.specs.StringToNumber.{IsNumberOf};

use crate::bits::{BitOp, bitwise};
use crate::literal::literal_number;
use crate::power::power;
use crate::white::{without_leading_white, without_trailing_white};
use itoa::Buffer;
use lava_base::limits::MAX_SAFE_INTEGER;
use lava_base::list::List;
use lava_base::memory::OutOfMemory;
use std::alloc::Global;
use std::marker::Model;

/// The exact result is no safe integer, or there is none.
#[derive(Clone, Copy, Debug, PartialEq, Eq)]
pub struct NotSafe;

/// A safe integer: from -(2^53 - 1) to 2^53 - 1 (ECMA-262, Number.isSafeInteger).
#[derive(Clone, Copy, Debug, PartialEq, Eq)]
pub struct Safe {
    integer: i64,
}

impl Model for Safe {
    ghost use Rattle.std.specs.Prelude.{ℤ};
    ghost use Rattle.lava_base.specs.SafeIntegers.{IsSafe};

    ghost Value = { ℤ };

    ghost view = { λ s. s.integer };

    ghost invariant = { λ s. IsSafe s.integer };

    ghost inverse = { λ n. record { integer = n } };
}

impl Safe {
    /// The safe integer `n`; `NotSafe` exactly where it is none.
    pub fn new(n: i64) -> Result<Safe, NotSafe>
        ensures ok { IfOk result (λ s. s ≡ n) }
        ensures safe { OnOk result (IsSafe n) }
        ensures err { OnErr result (¬ IsSafe n) }
    {
        if n.unsigned_abs() > MAX_SAFE_INTEGER {
            return Err(NotSafe);
        }
        Ok(Safe { integer: n })
    }

    /// The integer.
    pub fn get(self) -> i64
        ensures integer { result ≡ self }
        ensures safe { IsSafe self }
    {
        self.integer
    }

    /// The integer that a text stands for, exactly, or `NotSafe` where there is none or it is not safe (ECMA-262, StringToNumber).
    pub fn from_text(units: &[u16]) -> Result<Safe, NotSafe>
        ensures ok { IfOk result (λ s. IsNumberOf units.now s) }
        ensures safe { IfOk result IsSafe }
        ensures err { OnErr result (NoSafe (IsNumberOf units.now)) }
    {
        let literal = without_trailing_white(without_leading_white(units));
        Ok(Safe {
            integer: literal_number(literal)?,
        })
    }

    /// Its decimal digits, after a `-` where it is negative (ECMA-262, Number::toString).
    pub fn to_text(self, alloc: Global) -> Result<List<u16>, OutOfMemory>
        ensures { IfOk result (λ text. text ≡ signed_decimal self) }
    {
        let mut buffer = Buffer::new();
        let digits = buffer.format(self.integer).as_bytes();
        let mut text = Vec::with_capacity(alloc, digits.len())?;
        for digit in digits {
            text.push(u16::from(*digit))?;
        }
        Ok(List::from_vec(text))
    }

    /// The sum (ECMA-262, Number::add); `NotSafe` exactly where it is past a limit.
    pub fn add(self, b: Safe) -> Result<Safe, NotSafe>
        ensures ok { IfOk result (λ r. r ≡ self +ℤ b) }
        ensures safe { OnOk result (IsSafe (self +ℤ b)) }
        ensures err { OnErr result (¬ IsSafe (self +ℤ b)) }
    {
        Safe::new(self.integer + b.integer)
    }

    /// The difference (ECMA-262, Number::subtract); `NotSafe` exactly where it is past a limit.
    pub fn sub(self, b: Safe) -> Result<Safe, NotSafe>
        ensures ok { IfOk result (λ r. r ≡ self -ℤ b) }
        ensures safe { OnOk result (IsSafe (self -ℤ b)) }
        ensures err { OnErr result (¬ IsSafe (self -ℤ b)) }
    {
        Safe::new(self.integer - b.integer)
    }

    /// The product (ECMA-262, Number::multiply); `NotSafe` exactly where it is past a limit.
    pub fn mul(self, b: Safe) -> Result<Safe, NotSafe>
        ensures ok { IfOk result (λ r. r ≡ self *ℤ b) }
        ensures safe { OnOk result (IsSafe (self *ℤ b)) }
        ensures err { OnErr result (¬ IsSafe (self *ℤ b)) }
    {
        match self.integer.checked_mul(b.integer) {
            Some(product) => Safe::new(product),
            None => Err(NotSafe),
        }
    }

    /// The quotient (ECMA-262, Number::divide); `NotSafe` exactly where `b` is 0 or does not divide the integer.
    pub fn div(self, b: Safe) -> Result<Safe, NotSafe>
        ensures ok { IfOk result (IsQuotient self b) }
        ensures safe { IfOk result IsSafe }
        ensures err { OnErr result ((q : ℤ) → IsQuotient self b q → ⊥) }
    {
        if b.integer == 0 || self.integer % b.integer != 0 {
            return Err(NotSafe);
        }
        Safe::new(self.integer / b.integer)
    }

    /// The remainder, with the sign of the dividend (ECMA-262, Number::remainder); `NotSafe` exactly where `b` is 0.
    pub fn rem(self, b: Safe) -> Result<Safe, NotSafe>
        ensures ok { IfOk result (IsRemainder self b) }
        ensures safe { IfOk result IsSafe }
        ensures err { OnErr result (b ≡ pos 0) }
    {
        if b.integer == 0 {
            return Err(NotSafe);
        }
        Safe::new(self.integer % b.integer)
    }

    /// The power with the exponent `b` (ECMA-262, Number::exponentiate); `NotSafe` exactly where it is past a limit or no integer, and where the base is 0 and the exponent negative. `0 ** 0` is 1.
    pub fn pow(self, b: Safe) -> Result<Safe, NotSafe>
        ensures ok { IfOk result (IsPower self b) }
        ensures safe { IfOk result IsSafe }
        ensures err { OnErr result (NoSafe (IsPower self b)) }
    {
        Ok(Safe {
            integer: power(self.integer, b.integer)?,
        })
    }

    /// What an operator on 32 bits gives (ECMA-262, NumberBitwiseOp) (ECMA-262, Number::leftShift) (ECMA-262, Number::signedRightShift) (ECMA-262, Number::unsignedRightShift).
    pub fn bits(self, op: BitOp, b: Safe) -> Safe
        ensures value { result ≡ bitwise op self b }
        ensures safe { IsSafe result }
    {
        Safe {
            integer: bitwise(op, self.integer, b.integer),
        }
    }
}
