//! The table of operations on constants, and the types of operations, at values that were worked out by
//! hand from ISO/IEC 1539-1:2018, 10.1.5, 10.1.9 and 16.9.

use crate::operations::Value::{Int, Log, Refused, Text};
use lf_base::Rule;
use sqlite_items::Items;
use std::alloc::{AllocError, Global};
use std::test::Fail;
use type_rules::{Const, Elem, Len, Op, TypeFault, assigned_constant, code, fold};

/// An operand, or what is wanted of an operation.
#[derive(Clone, Copy)]
enum Value {
    /// A kind and a number.
    Int(u8, i64),
    Log(bool),
    Text(&'static [u8]),
    Refused(Rule),
}

type Case = (Op, &'static [Value], Value);

const MAX4: i64 = 2147483647;

const MIN4: i64 = -2147483648;

const MAX8: i64 = i64::MAX;

const MIN8: i64 = i64::MIN;

const TRAPS: Value = Refused(Rule::E415);

const NO_RULE: Value = Refused(Rule::E401);

const ADD: Op = Op::Binary(code::ADD);

const SUBTRACT: Op = Op::Binary(code::SUBTRACT);

const MULTIPLY: Op = Op::Binary(code::MULTIPLY);

const DIVIDE: Op = Op::Binary(code::DIVIDE);

const MOD: Op = Op::Intrinsic(code::MOD);

const MODULO: Op = Op::Intrinsic(code::MODULO);

const POWER: Op = Op::Binary(code::POWER);

const NEGATE: Op = Op::Unary(code::SUBTRACT);

const UNARY_PLUS: Op = Op::Unary(code::ADD);

const ABS: Op = Op::Intrinsic(code::ABS);

const SIGN: Op = Op::Intrinsic(code::SIGN);

const MIN: Op = Op::Intrinsic(code::MIN);

const MAX: Op = Op::Intrinsic(code::MAX);

const TO_KIND_4: Op = Op::Convert(4);

const TO_KIND_8: Op = Op::Convert(8);

const TO_KIND_2: Op = Op::Convert(2);

const EQ: Op = Op::Binary(code::EQ);

const NE: Op = Op::Binary(code::NE);

const LT: Op = Op::Binary(code::LT);

const LE: Op = Op::Binary(code::LE);

const GT: Op = Op::Binary(code::GT);

const GE: Op = Op::Binary(code::GE);

const AND: Op = Op::Binary(code::AND);

const OR: Op = Op::Binary(code::OR);

const EQV: Op = Op::Binary(code::EQV);

const NEQV: Op = Op::Binary(code::NEQV);

const NOT: Op = Op::Unary(code::NOT);

const NOT_OF_TWO: Op = Op::Binary(code::NOT);

const CONCATENATE: Op = Op::Binary(code::CONCATENATE);

const LEN: Op = Op::Intrinsic(code::LEN);

const LEN_TRIM: Op = Op::Intrinsic(code::LEN_TRIM);

const TRIM: Op = Op::Intrinsic(code::TRIM);

const INDEX: Op = Op::Intrinsic(code::INDEX);

const IACHAR: Op = Op::Intrinsic(code::IACHAR);

const ACHAR: Op = Op::Intrinsic(code::ACHAR);

const SUM: Op = Op::Intrinsic(code::SUM);

const SUMS: [Case; 29] = [
    (ADD, &[Int(4, 1), Int(4, 2)], Int(4, 3)),
    (ADD, &[Int(4, MAX4), Int(4, 1)], TRAPS),
    (ADD, &[Int(4, MAX4), Int(4, 0)], Int(4, MAX4)),
    (ADD, &[Int(4, MIN4), Int(4, -1)], TRAPS),
    (ADD, &[Int(4, MIN4), Int(4, MAX4)], Int(4, -1)),
    (ADD, &[Int(4, MAX4), Int(8, 1)], Int(8, 2147483648)),
    (ADD, &[Int(8, MAX8), Int(4, 1)], TRAPS),
    (
        ADD,
        &[Int(8, MAX8), Int(8, -1)],
        Int(8, 9223372036854775806),
    ),
    (ADD, &[Int(8, MIN8), Int(8, -1)], TRAPS),
    (ADD, &[Int(8, -5), Int(4, 5)], Int(8, 0)),
    (SUBTRACT, &[Int(4, 1), Int(4, 2)], Int(4, -1)),
    (SUBTRACT, &[Int(4, MIN4), Int(4, 1)], TRAPS),
    (SUBTRACT, &[Int(4, -1), Int(4, MIN4)], Int(4, MAX4)),
    (SUBTRACT, &[Int(4, 0), Int(4, MIN4)], TRAPS),
    (SUBTRACT, &[Int(8, 0), Int(8, MIN8)], TRAPS),
    (SUBTRACT, &[Int(8, -1), Int(8, MIN8)], Int(8, MAX8)),
    (SUBTRACT, &[Int(4, MIN4), Int(8, 1)], Int(8, -2147483649)),
    (SUBTRACT, &[Int(4, 7), Int(4, 7)], Int(4, 0)),
    (MULTIPLY, &[Int(4, 3), Int(4, 4)], Int(4, 12)),
    (MULTIPLY, &[Int(4, -3), Int(4, 4)], Int(4, -12)),
    (MULTIPLY, &[Int(4, 65536), Int(4, 32768)], TRAPS),
    (MULTIPLY, &[Int(4, 65536), Int(4, -32768)], Int(4, MIN4)),
    (
        MULTIPLY,
        &[Int(4, 65536), Int(8, 32768)],
        Int(8, 2147483648),
    ),
    (MULTIPLY, &[Int(8, 3037000500), Int(8, 3037000500)], TRAPS),
    (
        MULTIPLY,
        &[Int(8, 3037000499), Int(8, 3037000499)],
        Int(8, 9223372030926249001),
    ),
    (MULTIPLY, &[Int(8, MIN8), Int(8, -1)], TRAPS),
    (MULTIPLY, &[Int(4, MIN4), Int(4, -1)], TRAPS),
    (MULTIPLY, &[Int(4, MIN4), Int(4, 0)], Int(4, 0)),
    (MULTIPLY, &[Int(8, MIN8), Int(8, 1)], Int(8, MIN8)),
];

const QUOTIENTS: [Case; 41] = [
    (DIVIDE, &[Int(4, 7), Int(4, 2)], Int(4, 3)),
    (DIVIDE, &[Int(4, -7), Int(4, 2)], Int(4, -3)),
    (DIVIDE, &[Int(4, 7), Int(4, -2)], Int(4, -3)),
    (DIVIDE, &[Int(4, -7), Int(4, -2)], Int(4, 3)),
    (DIVIDE, &[Int(4, 1), Int(4, 0)], TRAPS),
    (DIVIDE, &[Int(4, 0), Int(4, 0)], TRAPS),
    (DIVIDE, &[Int(4, 0), Int(4, -5)], Int(4, 0)),
    (DIVIDE, &[Int(4, MIN4), Int(4, -1)], TRAPS),
    (DIVIDE, &[Int(4, MIN4), Int(8, -1)], Int(8, 2147483648)),
    (DIVIDE, &[Int(8, MIN8), Int(8, -1)], TRAPS),
    (DIVIDE, &[Int(4, MIN4), Int(4, 1)], Int(4, MIN4)),
    (
        DIVIDE,
        &[Int(8, MIN8), Int(8, 2)],
        Int(8, -4611686018427387904),
    ),
    (DIVIDE, &[Int(4, 1), Int(4, MIN4)], Int(4, 0)),
    (DIVIDE, &[Int(4, -1), Int(4, 2)], Int(4, 0)),
    (MOD, &[Int(4, 7), Int(4, 3)], Int(4, 1)),
    (MOD, &[Int(4, -7), Int(4, 3)], Int(4, -1)),
    (MOD, &[Int(4, 7), Int(4, -3)], Int(4, 1)),
    (MOD, &[Int(4, -7), Int(4, -3)], Int(4, -1)),
    (MOD, &[Int(4, 6), Int(4, 3)], Int(4, 0)),
    (MOD, &[Int(4, -6), Int(4, 3)], Int(4, 0)),
    (MOD, &[Int(4, 0), Int(4, 5)], Int(4, 0)),
    (MOD, &[Int(4, 1), Int(4, 0)], TRAPS),
    (MOD, &[Int(4, MIN4), Int(4, -1)], Int(4, 0)),
    (MOD, &[Int(8, MIN8), Int(8, -1)], Int(8, 0)),
    (MOD, &[Int(4, 7), Int(8, 4)], Int(8, 3)),
    (MOD, &[Int(8, MIN8), Int(8, 10)], Int(8, -8)),
    (MODULO, &[Int(4, 7), Int(4, 3)], Int(4, 1)),
    (MODULO, &[Int(4, -7), Int(4, 3)], Int(4, 2)),
    (MODULO, &[Int(4, 7), Int(4, -3)], Int(4, -2)),
    (MODULO, &[Int(4, -7), Int(4, -3)], Int(4, -1)),
    (MODULO, &[Int(4, 6), Int(4, 3)], Int(4, 0)),
    (MODULO, &[Int(4, -6), Int(4, 3)], Int(4, 0)),
    (MODULO, &[Int(4, 6), Int(4, -3)], Int(4, 0)),
    (MODULO, &[Int(4, 0), Int(4, -5)], Int(4, 0)),
    (MODULO, &[Int(4, -1), Int(4, MAX4)], Int(4, 2147483646)),
    (MODULO, &[Int(4, 1), Int(4, MIN4)], Int(4, -2147483647)),
    (MODULO, &[Int(4, 1), Int(4, 0)], TRAPS),
    (MODULO, &[Int(4, MIN4), Int(4, -1)], Int(4, 0)),
    (
        MODULO,
        &[Int(8, MIN8), Int(8, MAX8)],
        Int(8, 9223372036854775806),
    ),
    (MODULO, &[Int(4, -7), Int(8, 4)], Int(8, 1)),
    (MODULO, &[Int(8, MAX8), Int(8, MIN8)], Int(8, -1)),
];

const POWERS: [Case; 35] = [
    (POWER, &[Int(4, 2), Int(4, 10)], Int(4, 1024)),
    (POWER, &[Int(4, 2), Int(4, 30)], Int(4, 1073741824)),
    (POWER, &[Int(4, 2), Int(4, 31)], TRAPS),
    (POWER, &[Int(4, -2), Int(4, 31)], Int(4, MIN4)),
    (POWER, &[Int(8, 2), Int(4, 62)], Int(8, 4611686018427387904)),
    (POWER, &[Int(8, 2), Int(8, 63)], TRAPS),
    (POWER, &[Int(8, -2), Int(8, 63)], Int(8, MIN8)),
    (POWER, &[Int(8, -2), Int(8, 64)], TRAPS),
    (POWER, &[Int(4, 2), Int(4, -1)], Int(4, 0)),
    (POWER, &[Int(4, -2), Int(4, -1)], Int(4, 0)),
    (POWER, &[Int(4, 1), Int(4, -5)], Int(4, 1)),
    (POWER, &[Int(4, -1), Int(4, -5)], Int(4, -1)),
    (POWER, &[Int(4, -1), Int(4, -4)], Int(4, 1)),
    (POWER, &[Int(4, 0), Int(4, 0)], Int(4, 1)),
    (POWER, &[Int(4, 5), Int(4, 0)], Int(4, 1)),
    (POWER, &[Int(4, -5), Int(4, 0)], Int(4, 1)),
    (POWER, &[Int(4, 0), Int(4, 3)], Int(4, 0)),
    (POWER, &[Int(4, 0), Int(4, -1)], TRAPS),
    (POWER, &[Int(8, 0), Int(8, MIN8)], TRAPS),
    (POWER, &[Int(4, 1), Int(4, MAX4)], Int(4, 1)),
    (POWER, &[Int(4, -1), Int(4, MAX4)], Int(4, -1)),
    (POWER, &[Int(4, -1), Int(8, MIN8)], Int(8, 1)),
    (POWER, &[Int(8, 1), Int(8, MAX8)], Int(8, 1)),
    (POWER, &[Int(4, 3), Int(4, 19)], Int(4, 1162261467)),
    (POWER, &[Int(4, 3), Int(4, 20)], TRAPS),
    (POWER, &[Int(4, -3), Int(4, 19)], Int(4, -1162261467)),
    (
        POWER,
        &[Int(8, 10), Int(4, 18)],
        Int(8, 1000000000000000000),
    ),
    (POWER, &[Int(8, 10), Int(4, 19)], TRAPS),
    (POWER, &[Int(4, 10), Int(4, MAX4)], TRAPS),
    (POWER, &[Int(8, 7), Int(8, MIN8)], Int(8, 0)),
    (POWER, &[Int(4, 46340), Int(4, 2)], Int(4, 2147395600)),
    (POWER, &[Int(4, 46341), Int(4, 2)], TRAPS),
    (POWER, &[Int(4, MIN4), Int(4, 1)], Int(4, MIN4)),
    (POWER, &[Int(8, MIN8), Int(4, -1)], Int(8, 0)),
    (POWER, &[Int(4, 2), Int(8, 31)], Int(8, 2147483648)),
];

const NUMBERS: [Case; 50] = [
    (NEGATE, &[Int(4, 5)], Int(4, -5)),
    (NEGATE, &[Int(4, MIN4)], TRAPS),
    (NEGATE, &[Int(8, MIN8)], TRAPS),
    (NEGATE, &[Int(8, MAX8)], Int(8, -9223372036854775807)),
    (NEGATE, &[Int(4, 0)], Int(4, 0)),
    (NEGATE, &[Int(8, MIN4)], Int(8, 2147483648)),
    (UNARY_PLUS, &[Int(4, MIN4)], Int(4, MIN4)),
    (UNARY_PLUS, &[Int(8, 7)], Int(8, 7)),
    (ABS, &[Int(4, -5)], Int(4, 5)),
    (ABS, &[Int(4, 5)], Int(4, 5)),
    (ABS, &[Int(4, MIN4)], TRAPS),
    (ABS, &[Int(8, MIN4)], Int(8, 2147483648)),
    (ABS, &[Int(8, MIN8)], TRAPS),
    (ABS, &[Int(4, 0)], Int(4, 0)),
    (SIGN, &[Int(4, 5), Int(4, 3)], Int(4, 5)),
    (SIGN, &[Int(4, 5), Int(4, -3)], Int(4, -5)),
    (SIGN, &[Int(4, -5), Int(4, 3)], Int(4, 5)),
    (SIGN, &[Int(4, -5), Int(4, -3)], Int(4, -5)),
    (SIGN, &[Int(4, -5), Int(4, 0)], Int(4, 5)),
    (SIGN, &[Int(4, 5), Int(4, 0)], Int(4, 5)),
    (SIGN, &[Int(4, 0), Int(4, -1)], Int(4, 0)),
    (SIGN, &[Int(4, MIN4), Int(4, 1)], TRAPS),
    (SIGN, &[Int(4, MIN4), Int(4, 0)], TRAPS),
    (SIGN, &[Int(4, MIN4), Int(4, -1)], Int(4, MIN4)),
    (SIGN, &[Int(8, MIN8), Int(8, -1)], Int(8, MIN8)),
    (SIGN, &[Int(4, MIN4), Int(8, 1)], Int(8, 2147483648)),
    (MIN, &[Int(4, 3), Int(4, -2)], Int(4, -2)),
    (MIN, &[Int(4, 3), Int(4, 3)], Int(4, 3)),
    (MIN, &[Int(4, 5), Int(4, 1), Int(4, 4)], Int(4, 1)),
    (MIN, &[Int(4, 5), Int(8, 7)], Int(8, 5)),
    (MIN, &[Int(8, 5), Int(4, 7), Int(4, 6)], Int(8, 5)),
    (MIN, &[Int(4, 1), Int(4, 2), Int(8, 3)], Int(8, 1)),
    (MIN, &[Int(8, MIN8), Int(4, MIN4)], Int(8, MIN8)),
    (MIN, &[Int(4, 1)], NO_RULE),
    (MAX, &[Int(4, 3), Int(4, -2)], Int(4, 3)),
    (MAX, &[Int(4, -3), Int(4, -2)], Int(4, -2)),
    (MAX, &[Int(4, 5), Int(4, 1), Int(4, 7)], Int(4, 7)),
    (MAX, &[Int(4, 5), Int(8, 4)], Int(8, 5)),
    (MAX, &[Int(4, MIN4), Int(4, MAX4), Int(4, 0)], Int(4, MAX4)),
    (MAX, &[Int(4, 1), Log(true)], NO_RULE),
    (TO_KIND_4, &[Int(8, MAX4)], Int(4, MAX4)),
    (TO_KIND_4, &[Int(8, 2147483648)], TRAPS),
    (TO_KIND_4, &[Int(8, MIN4)], Int(4, MIN4)),
    (TO_KIND_4, &[Int(8, -2147483649)], TRAPS),
    (TO_KIND_8, &[Int(4, MIN4)], Int(8, MIN4)),
    (TO_KIND_4, &[Int(4, 7)], Int(4, 7)),
    (TO_KIND_8, &[Int(8, MAX8)], Int(8, MAX8)),
    (TO_KIND_4, &[Int(8, MAX8)], TRAPS),
    (TO_KIND_2, &[Int(4, 1)], NO_RULE),
    (TO_KIND_4, &[Log(true)], NO_RULE),
];

const RELATIONS: [Case; 48] = [
    (EQ, &[Int(4, -1), Int(4, 1)], Log(false)),
    (EQ, &[Int(8, 2147483648), Int(8, 2147483648)], Log(true)),
    (EQ, &[Int(8, MAX8), Int(4, MIN4)], Log(false)),
    (EQ, &[Text(b"abc"), Text(b"abd")], Log(false)),
    (EQ, &[Text(b"ab"), Text(b"ab  ")], Log(true)),
    (EQ, &[Text(b"b"), Text(b"abc")], Log(false)),
    (NE, &[Int(4, -1), Int(4, 1)], Log(true)),
    (NE, &[Int(8, 2147483648), Int(8, 2147483648)], Log(false)),
    (NE, &[Int(8, MAX8), Int(4, MIN4)], Log(true)),
    (NE, &[Text(b"abc"), Text(b"abd")], Log(true)),
    (NE, &[Text(b"ab"), Text(b"ab  ")], Log(false)),
    (NE, &[Text(b"b"), Text(b"abc")], Log(true)),
    (LT, &[Int(4, -1), Int(4, 1)], Log(true)),
    (LT, &[Int(8, 2147483648), Int(8, 2147483648)], Log(false)),
    (LT, &[Int(8, MAX8), Int(4, MIN4)], Log(false)),
    (LT, &[Text(b"abc"), Text(b"abd")], Log(true)),
    (LT, &[Text(b"ab"), Text(b"ab  ")], Log(false)),
    (LT, &[Text(b"b"), Text(b"abc")], Log(false)),
    (LE, &[Int(4, -1), Int(4, 1)], Log(true)),
    (LE, &[Int(8, 2147483648), Int(8, 2147483648)], Log(true)),
    (LE, &[Int(8, MAX8), Int(4, MIN4)], Log(false)),
    (LE, &[Text(b"abc"), Text(b"abd")], Log(true)),
    (LE, &[Text(b"ab"), Text(b"ab  ")], Log(true)),
    (LE, &[Text(b"b"), Text(b"abc")], Log(false)),
    (GT, &[Int(4, -1), Int(4, 1)], Log(false)),
    (GT, &[Int(8, 2147483648), Int(8, 2147483648)], Log(false)),
    (GT, &[Int(8, MAX8), Int(4, MIN4)], Log(true)),
    (GT, &[Text(b"abc"), Text(b"abd")], Log(false)),
    (GT, &[Text(b"ab"), Text(b"ab  ")], Log(false)),
    (GT, &[Text(b"b"), Text(b"abc")], Log(true)),
    (GE, &[Int(4, -1), Int(4, 1)], Log(false)),
    (GE, &[Int(8, 2147483648), Int(8, 2147483648)], Log(true)),
    (GE, &[Int(8, MAX8), Int(4, MIN4)], Log(true)),
    (GE, &[Text(b"abc"), Text(b"abd")], Log(false)),
    (GE, &[Text(b"ab"), Text(b"ab  ")], Log(true)),
    (GE, &[Text(b"b"), Text(b"abc")], Log(true)),
    (EQ, &[Text(b""), Text(b"   ")], Log(true)),
    (LT, &[Text(b""), Text(b"   ")], Log(false)),
    (GE, &[Text(b""), Text(b"   ")], Log(true)),
    (LT, &[Text(b"a"), Text(b"a!")], Log(true)),
    (GT, &[Text(b"a"), Text(b"a\t")], Log(true)),
    (LT, &[Text(b"a\t"), Text(b"a")], Log(true)),
    (LT, &[Text(b"Z"), Text(b"a")], Log(true)),
    (GT, &[Text(b"\xff"), Text(b"\x7f")], Log(true)),
    (LT, &[Text(b"\x00"), Text(b"")], Log(true)),
    (NE, &[Text(b" a"), Text(b"a")], Log(true)),
    (EQ, &[Log(true), Log(true)], NO_RULE),
    (LT, &[Int(4, 1), Text(b"1")], NO_RULE),
];

const LOGICALS: [Case; 23] = [
    (AND, &[Log(false), Log(false)], Log(false)),
    (AND, &[Log(false), Log(true)], Log(false)),
    (AND, &[Log(true), Log(false)], Log(false)),
    (AND, &[Log(true), Log(true)], Log(true)),
    (OR, &[Log(false), Log(false)], Log(false)),
    (OR, &[Log(false), Log(true)], Log(true)),
    (OR, &[Log(true), Log(false)], Log(true)),
    (OR, &[Log(true), Log(true)], Log(true)),
    (EQV, &[Log(false), Log(false)], Log(true)),
    (EQV, &[Log(false), Log(true)], Log(false)),
    (EQV, &[Log(true), Log(false)], Log(false)),
    (EQV, &[Log(true), Log(true)], Log(true)),
    (NEQV, &[Log(false), Log(false)], Log(false)),
    (NEQV, &[Log(false), Log(true)], Log(true)),
    (NEQV, &[Log(true), Log(false)], Log(true)),
    (NEQV, &[Log(true), Log(true)], Log(false)),
    (NOT, &[Log(true)], Log(false)),
    (NOT, &[Log(false)], Log(true)),
    (NOT, &[Int(4, 1)], NO_RULE),
    (AND, &[Int(4, 1), Log(true)], NO_RULE),
    (UNARY_PLUS, &[Log(true)], NO_RULE),
    (ADD, &[Log(true), Log(true)], NO_RULE),
    (NOT_OF_TWO, &[Log(true), Log(true)], NO_RULE),
];

const TEXTS: [Case; 58] = [
    (CONCATENATE, &[Text(b"ab"), Text(b"cd")], Text(b"abcd")),
    (CONCATENATE, &[Text(b""), Text(b"cd")], Text(b"cd")),
    (CONCATENATE, &[Text(b"ab"), Text(b"")], Text(b"ab")),
    (CONCATENATE, &[Text(b""), Text(b"")], Text(b"")),
    (CONCATENATE, &[Text(b"a "), Text(b"b")], Text(b"a b")),
    (CONCATENATE, &[Int(4, 1), Text(b"a")], NO_RULE),
    (ADD, &[Text(b"a"), Text(b"b")], NO_RULE),
    (LEN, &[Text(b"")], Int(4, 0)),
    (LEN, &[Text(b"a")], Int(4, 1)),
    (LEN, &[Text(b"a  ")], Int(4, 3)),
    (LEN, &[Text(b"\x00")], Int(4, 1)),
    (LEN_TRIM, &[Text(b"")], Int(4, 0)),
    (LEN_TRIM, &[Text(b"a  ")], Int(4, 1)),
    (LEN_TRIM, &[Text(b"   ")], Int(4, 0)),
    (LEN_TRIM, &[Text(b"a b ")], Int(4, 3)),
    (LEN_TRIM, &[Text(b" a")], Int(4, 2)),
    (LEN_TRIM, &[Text(b"a\t ")], Int(4, 2)),
    (LEN_TRIM, &[Text(b"abc")], Int(4, 3)),
    (TRIM, &[Text(b"")], Text(b"")),
    (TRIM, &[Text(b"a  ")], Text(b"a")),
    (TRIM, &[Text(b"   ")], Text(b"")),
    (TRIM, &[Text(b"a b ")], Text(b"a b")),
    (TRIM, &[Text(b" a ")], Text(b" a")),
    (TRIM, &[Text(b"a\t")], Text(b"a\t")),
    (INDEX, &[Text(b"banana"), Text(b"an")], Int(4, 2)),
    (INDEX, &[Text(b"banana"), Text(b"na")], Int(4, 3)),
    (INDEX, &[Text(b"banana"), Text(b"x")], Int(4, 0)),
    (INDEX, &[Text(b"banana"), Text(b"")], Int(4, 1)),
    (INDEX, &[Text(b""), Text(b"")], Int(4, 1)),
    (INDEX, &[Text(b""), Text(b"a")], Int(4, 0)),
    (INDEX, &[Text(b"ab"), Text(b"abc")], Int(4, 0)),
    (INDEX, &[Text(b"abc"), Text(b"abc")], Int(4, 1)),
    (INDEX, &[Text(b"aab"), Text(b"ab")], Int(4, 2)),
    (INDEX, &[Text(b"abab"), Text(b"b")], Int(4, 2)),
    (INDEX, &[Text(b"banana"), Text(b"a")], Int(4, 2)),
    (INDEX, &[Text(b"xyz"), Text(b"z")], Int(4, 3)),
    (INDEX, &[Text(b"aaab"), Text(b"aab")], Int(4, 2)),
    (IACHAR, &[Text(b"\x00")], Int(4, 0)),
    (IACHAR, &[Text(b"\x7f")], Int(4, 127)),
    (IACHAR, &[Text(b"\x80")], Int(4, 128)),
    (IACHAR, &[Text(b"\xff")], Int(4, 255)),
    (IACHAR, &[Text(b"A")], Int(4, 65)),
    (IACHAR, &[Text(b" ")], Int(4, 32)),
    (IACHAR, &[Text(b"")], TRAPS),
    (IACHAR, &[Text(b"ab")], TRAPS),
    (ACHAR, &[Int(4, 0)], Text(b"\x00")),
    (ACHAR, &[Int(4, 127)], Text(b"\x7f")),
    (ACHAR, &[Int(4, 128)], Text(b"\x80")),
    (ACHAR, &[Int(4, 255)], Text(b"\xff")),
    (ACHAR, &[Int(4, 256)], TRAPS),
    (ACHAR, &[Int(4, -1)], TRAPS),
    (ACHAR, &[Int(8, 65)], Text(b"A")),
    (ACHAR, &[Int(8, MAX8)], TRAPS),
    (ACHAR, &[Int(8, MIN8)], TRAPS),
    (ACHAR, &[Int(4, 32)], Text(b" ")),
    (LEN, &[Int(4, 1)], NO_RULE),
    (ABS, &[Text(b"a")], NO_RULE),
    (SUM, &[Int(4, 1)], NO_RULE),
];

/// The constant of an operand. A refusal stands for none.
fn constant(alloc: Global, value: &Value) -> Result<Const, AllocError> {
    match value {
        Int(kind, value) => Ok(Const::IntConst {
            kind: *kind,
            value: *value,
        }),
        Log(truth) => Ok(Const::LogConst {
            value: if *truth { 1 } else { 0 },
        }),
        Text(bytes) => Ok(Const::CharConst {
            bytes: Items::from_slice(alloc, bytes)?,
        }),
        Refused(_) => Ok(Const::LogConst { value: 0 }),
    }
}

fn constants(alloc: Global, values: &[Value]) -> Result<Vec<Const>, AllocError> {
    let mut all = Vec::new(alloc);
    for value in values {
        all.push(constant(alloc, value)?)?;
    }
    Ok(all)
}

fn is_wanted(got: &Result<Const, TypeFault>, want: &Value) -> bool {
    match (got, want) {
        (Ok(Const::IntConst { kind, value }), Int(k, v)) => *kind == *k && *value == *v,
        (Ok(Const::LogConst { value }), Log(truth)) => *value == if *truth { 1 } else { 0 },
        (Ok(Const::CharConst { bytes }), Text(text)) => bytes.as_slice() == *text,
        (Err(TypeFault::Rule(rule)), Refused(r)) => *rule == *r,
        _ => false,
    }
}

/// The place of the first case that answers otherwise, if one does.
fn first_wrong(alloc: Global, cases: &[Case]) -> Result<Option<usize>, AllocError> {
    for (at, case) in cases.iter().enumerate() {
        let args = constants(alloc, case.1)?;
        if !is_wanted(&fold(alloc, case.0, args.as_slice()), &case.2) {
            return Ok(Some(at));
        }
    }
    Ok(None)
}

/// The tables of cases.
const TABLES: [&[Case]; 7] = [
    &SUMS, &QUOTIENTS, &POWERS, &NUMBERS, &RELATIONS, &LOGICALS, &TEXTS,
];

/// The place of the first table with such a case, and the case's place in it, if there is one.
fn first_wrong_of_all(alloc: Global) -> Result<Option<(usize, usize)>, AllocError> {
    for (at, table) in TABLES.iter().enumerate() {
        if let Some(case) = first_wrong(alloc, table)? {
            return Ok(Some((at, case)));
        }
    }
    Ok(None)
}

/// So many numbers 9, and a last one.
fn nines(alloc: Global, count: usize, last: i64) -> Result<Vec<Const>, AllocError> {
    let mut all = Vec::new(alloc);
    for _ in 0..count {
        all.push(constant(alloc, &Int(4, 9))?)?;
    }
    all.push(constant(alloc, &Int(4, last))?)?;
    Ok(all)
}

/// Whether an extreme of numbers 9 and a last one is this.
fn is_extreme(
    alloc: Global,
    op: Op,
    count: usize,
    last: i64,
    want: &Value,
) -> Result<bool, AllocError> {
    let args = nines(alloc, count, last)?;
    Ok(is_wanted(&fold(alloc, op, args.as_slice()), want))
}

/// Whether 31 arguments are taken, and no more.
fn takes_31(alloc: Global) -> Result<bool, AllocError> {
    Ok(
        is_extreme(alloc, MIN, 30, -9, &Int(4, -9))?
            && is_extreme(alloc, MAX, 30, 10, &Int(4, 10))?
            && is_extreme(alloc, MIN, 31, 9, &NO_RULE)?,
    )
}

/// So many bytes.
fn long_text(alloc: Global, count: usize) -> Result<Const, AllocError> {
    let bytes = vec![in alloc; b'a'; count]?;
    Ok(Const::CharConst {
        bytes: Items::from_vec(bytes),
    })
}

/// Whether an operation on a long text gives it whole, and its length is told.
fn stays_whole(alloc: Global) -> Result<bool, AllocError> {
    let mut args = Vec::new(alloc);
    args.push(long_text(alloc, 65_535)?)?;
    let length = fold(alloc, LEN_TRIM, args.as_slice());
    let same = fold(alloc, TRIM, args.as_slice());
    Ok(is_wanted(&length, &Int(4, 65_535)) && matches!(&same, Ok(text) if *text == args[0]))
}

fn is_padded(alloc: Global) -> Result<bool, AllocError> {
    let long = Elem::Character {
        len: Len::Fixed { n: 65_535 },
    };
    let short = constant(alloc, &Text(b"a"))?;
    let padded = assigned_constant(alloc, long, &short);
    Ok(matches!(&padded, Ok(Const::CharConst { bytes }) if bytes.len() == 65_535))
}

/// Two texts of so many bytes, one behind the other.
fn joined(
    alloc: Global,
    first: usize,
    second: usize,
) -> Result<Result<Const, TypeFault>, AllocError> {
    let mut args = Vec::new(alloc);
    args.push(long_text(alloc, first)?)?;
    args.push(long_text(alloc, second)?)?;
    Ok(fold(alloc, Op::Binary(code::CONCATENATE), args.as_slice()))
}

fn joins_up_to_the_limit(alloc: Global) -> Result<bool, AllocError> {
    let most = joined(alloc, 65_000, 535)?;
    let more = joined(alloc, 65_000, 536)?;
    Ok(
        matches!(&most, Ok(Const::CharConst { bytes }) if bytes.len() == 65_535)
            && matches!(&more, Err(TypeFault::Rule(Rule::E416))),
    )
}

#[test]
fn operations_give_their_values(rt: HostRuntime) -> Result<(), Fail> {
    assert_eq!(rt; first_wrong_of_all(rt.alloc())?, None);
    assert!(rt; takes_31(rt.alloc())?);
    assert!(rt; stays_whole(rt.alloc())? && is_padded(rt.alloc())?);
    assert!(rt; joins_up_to_the_limit(rt.alloc())?);
    Ok(())
}
