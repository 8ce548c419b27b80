// The worked values: what ECMA-262's StringToNumber and its operators on numbers give, where it is a safe integer.

use crate::bits::BitOp;
use crate::safe::{NotSafe, Safe};
use std::test::Fail;

// The units of a text.
fn units(rt: HostRuntime, text: &str) -> Result<Vec<u16>, Fail> {
    let mut units = Vec::new(rt.alloc());
    for character in text.chars() {
        units.push(u16::try_from(character as u32)?)?;
    }
    Ok(units)
}

#[test]
fn texts_stand_for_their_numbers(rt: HostRuntime) -> Result<(), Fail> {
    let max = 9_007_199_254_740_991;
    let table = [
        ("", Some(0)),
        (" \t\n\r\u{b}\u{c}", Some(0)),
        ("\u{feff}\u{a0}42\u{2028}\u{2029}", Some(42)),
        ("\n7", Some(7)),
        ("7\n", Some(7)),
        (
            "\u{1680}\u{2000}\u{2005}\u{200a}\u{202f}\u{205f}\u{3000}8",
            Some(8),
        ),
        ("\u{200b}8", None),
        ("\u{180e}8", None),
        ("1 2", None),
        ("0", Some(0)),
        ("-0", Some(0)),
        ("+0", Some(0)),
        ("007", Some(7)),
        ("+12", Some(12)),
        ("-12", Some(-12)),
        ("--1", None),
        ("+-1", None),
        ("- 1", None),
        ("+", None),
        (".", None),
        ("-.", None),
        (".5", None),
        ("5.", Some(5)),
        ("5.0", Some(5)),
        ("1.5", None),
        ("1.5e1", Some(15)),
        ("1.5e3", Some(1500)),
        ("-1.5E+1", Some(-15)),
        (".5e1", Some(5)),
        ("5.e1", Some(50)),
        (".e1", None),
        ("0.5e0", None),
        ("15e-1", None),
        ("150e-1", Some(15)),
        ("1e", None),
        ("1e+", None),
        ("e1", None),
        ("1e1.0", None),
        ("1e400", None),
        ("1e-400", None),
        ("0e999999999999999999999", Some(0)),
        ("0e-999999999999999999999", Some(0)),
        ("1000000000000000000000e-20", Some(10)),
        ("0.00000000000000000001e20", Some(1)),
        ("0.00000000000000000001e21", Some(10)),
        ("0.000e18446744073709551616", Some(0)),
        ("9007199254740991", Some(max)),
        ("-9007199254740991", Some(-max)),
        ("9007199254740992", None),
        ("-9007199254740992", None),
        ("9007199254740991.0", Some(max)),
        ("9007199254740991.1", None),
        ("900719925474099.1e1", Some(max)),
        ("9e15", Some(9_000_000_000_000_000)),
        ("1e16", None),
        ("0x10", Some(16)),
        ("0XfF", Some(255)),
        ("0x1FFFFFFFFFFFFF", Some(max)),
        ("0x20000000000000", None),
        ("0o17", Some(15)),
        ("0O8", None),
        ("0b101", Some(5)),
        ("0B2", None),
        ("0x", None),
        ("0b", None),
        ("-0x10", None),
        ("+0b1", None),
        ("0x1.0", None),
        ("0xg", None),
        ("00x1", None),
        ("1_000", None),
        ("12n", None),
        ("Infinity", None),
        ("NaN", None),
        ("12px", None),
    ];
    for (text, number) in table {
        let units = units(rt, text)?;
        assert_eq!(rt;
            Safe::from_text(units.as_slice())
                .ok()
                .map(|safe| safe.get()),
            number,
            "{text}"
        );
    }
    for (number, text) in [
        (0, "0"),
        (-1, "-1"),
        (max, "9007199254740991"),
        (-max, "-9007199254740991"),
    ] {
        let safe = Safe::new(number).map_err(|_| "unsafe")?;
        let digits = safe.to_text(rt.alloc())?;
        let expected = units(rt, text)?;
        assert_eq!(rt; digits.as_slice(), expected.as_slice(), "{text}");
    }
    assert!(rt; Safe::new(max + 1).is_err() && Safe::new(-max - 1).is_err());
    Ok(())
}

#[derive(Clone, Copy)]
enum Operation {
    Add,
    Sub,
    Mul,
    Div,
    Rem,
    Pow,
}

impl Operation {
    fn of(self, left: Safe, right: Safe) -> Result<Safe, NotSafe> {
        match self {
            Operation::Add => left.add(right),
            Operation::Sub => left.sub(right),
            Operation::Mul => left.mul(right),
            Operation::Div => left.div(right),
            Operation::Rem => left.rem(right),
            Operation::Pow => left.pow(right),
        }
    }
}

#[test]
fn operators_give_exact_results(rt: HostRuntime) -> Result<(), Fail> {
    let max = 9_007_199_254_740_991;
    let table = [
        (2, Operation::Add, 3, Some(5)),
        (max, Operation::Add, -1, Some(max - 1)),
        (max, Operation::Add, 1, None),
        (-max, Operation::Add, -1, None),
        (2, Operation::Sub, 3, Some(-1)),
        (max, Operation::Sub, max, Some(0)),
        (-max, Operation::Sub, 1, None),
        (max, Operation::Sub, -max, None),
        (-3, Operation::Mul, 4, Some(-12)),
        (max, Operation::Mul, -1, Some(-max)),
        (0, Operation::Mul, -max, Some(0)),
        (
            94_906_265,
            Operation::Mul,
            94_906_265,
            Some(9_007_199_136_250_225),
        ),
        (94_906_267, Operation::Mul, 94_906_267, None),
        (max, Operation::Mul, -max, None),
        (6, Operation::Div, -3, Some(-2)),
        (0, Operation::Div, -5, Some(0)),
        (max, Operation::Div, -1, Some(-max)),
        (7, Operation::Div, 2, None),
        (6, Operation::Div, 0, None),
        (0, Operation::Div, 0, None),
        (-7, Operation::Rem, 3, Some(-1)),
        (7, Operation::Rem, -3, Some(1)),
        (-6, Operation::Rem, 3, Some(0)),
        (2, Operation::Rem, max, Some(2)),
        (5, Operation::Rem, 0, None),
        (0, Operation::Pow, 0, Some(1)),
        (0, Operation::Pow, max, Some(0)),
        (0, Operation::Pow, -1, None),
        (1, Operation::Pow, -max, Some(1)),
        (-1, Operation::Pow, max, Some(-1)),
        (-1, Operation::Pow, -3, Some(-1)),
        (-1, Operation::Pow, -4, Some(1)),
        (2, Operation::Pow, -1, None),
        (2, Operation::Pow, 52, Some(4_503_599_627_370_496)),
        (2, Operation::Pow, 53, None),
        (2, Operation::Pow, max, None),
        (-2, Operation::Pow, 51, Some(-2_251_799_813_685_248)),
        (-2, Operation::Pow, 53, None),
        (3, Operation::Pow, 33, Some(5_559_060_566_555_523)),
        (3, Operation::Pow, 34, None),
        (max, Operation::Pow, 1, Some(max)),
        (max, Operation::Pow, 2, None),
    ];
    for (left, operation, right, expected) in table {
        let first = Safe::new(left).map_err(|_| "unsafe")?;
        let second = Safe::new(right).map_err(|_| "unsafe")?;
        let result = operation.of(first, second).ok().map(|safe| safe.get());
        assert_eq!(rt; result, expected, "{left} and {right}");
    }
    for (left, operator, right, expected) in [
        (6, BitOp::And, 3, 2),
        (4_294_967_296, BitOp::And, -1, 0),
        (4_294_967_295, BitOp::And, 4_294_967_295, -1),
        (5, BitOp::Or, 8_589_934_592, 5),
        (2_147_483_648, BitOp::Or, 0, -2_147_483_648),
        (max, BitOp::Or, 0, -1),
        (6, BitOp::Xor, 3, 5),
        (1, BitOp::Shl, 31, -2_147_483_648),
        (1, BitOp::Shl, 32, 1),
        (1, BitOp::Shl, -1, -2_147_483_648),
        (-5, BitOp::Shr, 1, -3),
        (-1, BitOp::ShrUnsigned, 0, 4_294_967_295),
        (-5, BitOp::ShrUnsigned, 33, 2_147_483_645),
    ] {
        let first = Safe::new(left).map_err(|_| "unsafe")?;
        let second = Safe::new(right).map_err(|_| "unsafe")?;
        assert_eq!(rt;
            first.bits(operator, second).get(),
            expected,
            "{left} and {right}"
        );
    }
    Ok(())
}
