//! The folding of constants.
ghost use Rattle.std.specs.Prelude.{◌≡◌, map, max, true, IfOk};
ghost use Rattle.std.specs.Int.{int_min, int_max};
ghost use Rattle.type_rules.specs.Values.{scalar_of, is_constant, are_constants};
ghost use Rattle.type_rules.specs.Operations.{operation, unary, binary, intrinsic, of_one, of_integer, of_two, of_many, extreme, extreme_of, convert};
ghost use Rattle.type_rules.specs.Folds.{Folds};

use crate::answer::{Folded, fitted, no_rule};
use crate::code::Intrinsic;
use crate::constant::{Const, Op, TypeFault};
use crate::{character, integer, scalar};
use lf_base::operator::Operator;
use std::alloc::Global;

/// The value of an operation on constants. It answers E416 exactly where the operation traps as
/// `LengthLimit`, E415 exactly where it traps otherwise, and E401 exactly where the table has no rule for
/// these operands, as for those functions that reduce an array. Want of memory comes for characters
/// alone. The table is `operation` of specs/Operations.antt, which restates ISO/IEC 1539-1:2018, 10.1.5
/// and 16.9. It takes time linear in the operands, but `index`, which may take the product of the two
/// lengths; a power takes at most 64 multiplications.
pub fn fold(alloc: Global, op: Op, args: &[Const]) -> Result<Const, TypeFault>
    ensures table { Folds result (operation op (map scalar_of args.now)) }
    // a constant of constants: an integer fits its kind, a logical is 0 or 1, a text is not too long
    ensures value { are_constants args.now ≡ true → IfOk result (λ c. is_constant c ≡ true) }
{
    folded(alloc, op, args)
}

fn folded(alloc: Global, op: Op, args: &[Const]) -> Folded
    ensures { Folds result (operation op (map scalar_of args.now)) }
{
    match op {
        Op::Unary(code) => match (Operator::at(code), args) {
            (Some(op), [a]) => unary(op, a),
            _ => no_rule(),
        },
        Op::Binary(code) => match (Operator::at(code), args) {
            (Some(op), [a, b]) => binary(alloc, op, a, b),
            _ => no_rule(),
        },
        Op::Intrinsic(code) => match Intrinsic::at(code) {
            Some(which) => intrinsic(alloc, which, args),
            None => no_rule(),
        },
        Op::Convert(kind) => match args {
            [a] => convert(kind, a),
            _ => no_rule(),
        },
    }
}

fn unary(op: Operator, a: &Const) -> Folded
    ensures { Folds result (unary op (scalar_of a.now)) }
{
    match a {
        Const::IntConst { kind, value } => scalar::on_integer(op, *kind, *value),
        Const::LogConst { value } => scalar::on_logical(op, *value != 0),
        Const::CharConst { .. } => no_rule(),
    }
}

fn binary(alloc: Global, op: Operator, a: &Const, b: &Const) -> Folded
    ensures { Folds result (binary op (scalar_of a.now) (scalar_of b.now)) }
{
    match (a, b) {
        (Const::IntConst { kind: j, value: a }, Const::IntConst { kind: k, value: b }) =>
            scalar::on_integers(op, greater(*j, *k), *a, *b),
        (Const::LogConst { value: p }, Const::LogConst { value: q }) => scalar::on_logicals(
            op,
            *p != 0,
            *q != 0,
        ),
        (Const::CharConst { bytes: a }, Const::CharConst { bytes: b }) => character::on_texts(
            alloc,
            op,
            a.as_slice(),
            b.as_slice(),
        ),
        _ => no_rule(),
    }
}

/// The kind of the greater range.
fn greater(j: u8, k: u8) -> u8
    ensures { result ≡ max j k }
{
    if j < k { k } else { j }
}

fn intrinsic(alloc: Global, which: Intrinsic, args: &[Const]) -> Folded
    ensures { Folds result (intrinsic which (map scalar_of args.now)) }
{
    match args {
        [] => no_rule(),
        [a] => of_one(alloc, which, a),
        [a, b] => of_two(which, a, b),
        [a, _, _, ..] => of_many(which, a, &args[1..]),
    }
}

fn of_one(alloc: Global, which: Intrinsic, a: &Const) -> Folded
    ensures { Folds result (of_one which (scalar_of a.now)) }
{
    match a {
        Const::IntConst { kind, value } => of_integer(alloc, which, *kind, *value),
        Const::CharConst { bytes } => character::of_text(alloc, which, bytes.as_slice()),
        Const::LogConst { .. } => no_rule(),
    }
}

fn of_integer(alloc: Global, which: Intrinsic, kind: u8, a: i64) -> Folded
    ensures { Folds result (of_integer which kind a) }
{
    match which {
        Intrinsic::Abs => fitted(kind, Ok(integer::magnitude(a))),
        Intrinsic::Achar => character::byte_of_number(alloc, a),
        _ => no_rule(),
    }
}

fn of_two(which: Intrinsic, a: &Const, b: &Const) -> Folded
    ensures { Folds result (of_two which (scalar_of a.now) (scalar_of b.now)) }
{
    match (a, b) {
        (Const::IntConst { kind: j, value: a }, Const::IntConst { kind: k, value: b }) =>
            scalar::of_integers(which, greater(*j, *k), *a, *b),
        (Const::CharConst { bytes: a }, Const::CharConst { bytes: b }) => character::of_texts(
            which,
            a.as_slice(),
            b.as_slice(),
        ),
        _ => no_rule(),
    }
}

/// An intrinsic function of more arguments. There are at most 31.
fn of_many(which: Intrinsic, a: &Const, rest: &[Const]) -> Folded
    ensures { Folds result (of_many which (scalar_of a.now) (map scalar_of rest.now)) }
{
    if rest.len() > 30 {
        return no_rule();
    }
    match (which, a) {
        (Intrinsic::Min, Const::IntConst { kind, value }) => least_of(*kind, *value, rest),
        (Intrinsic::Max, Const::IntConst { kind, value }) => greatest_of(*kind, *value, rest),
        _ => no_rule(),
    }
}

/// The least of an integer and what follows.
fn least_of(kind: u8, value: i64, rest: &[Const]) -> Folded
    ensures { Folds result (extreme int_min kind value (map scalar_of rest.now)) }
{
    let mut kind = kind;
    let mut least = value;
    for constant in rest {
        match constant {
            Const::IntConst { kind: k, value } => {
                kind = greater(kind, *k);
                least = integer::lesser(least, *value);
            }
            Const::LogConst { .. } => return no_rule(),
            Const::CharConst { .. } => return no_rule(),
        }
    }
    fitted(kind, Ok(i128::from(least)))
}

/// The greatest of an integer and what follows.
fn greatest_of(kind: u8, value: i64, rest: &[Const]) -> Folded
    ensures { Folds result (extreme int_max kind value (map scalar_of rest.now)) }
{
    let mut kind = kind;
    let mut greatest = value;
    for constant in rest {
        match constant {
            Const::IntConst { kind: k, value } => {
                kind = greater(kind, *k);
                greatest = integer::greater(greatest, *value);
            }
            Const::LogConst { .. } => return no_rule(),
            Const::CharConst { .. } => return no_rule(),
        }
    }
    fitted(kind, Ok(i128::from(greatest)))
}

fn convert(kind: u8, a: &Const) -> Folded
    ensures { Folds result (convert kind (scalar_of a.now)) }
{
    match a {
        Const::IntConst { value, .. } if kind == 4 || kind == 8 => fitted(
            kind,
            Ok(i128::from(*value)),
        ),
        _ => no_rule(),
    }
}
