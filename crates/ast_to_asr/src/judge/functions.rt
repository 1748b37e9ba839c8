//! Functions of integers, by their arguments.
ghost use Rattle.std.specs.Prelude.{◌≡◌, map};
ghost use Rattle.fortran_semantics.specs.Constants.{intrinsic_named, is_int, is_huge};
ghost use Rattle.ast_to_asr.specs.Expressions.{takes, is_intrinsic};
ghost use Rattle.ast_to_asr.specs.Judged.{map_right};
ghost use Rattle.ast_to_asr.specs.Facts.{no_arguments, argument_of, integer_argument, joined, joined_next, called, int_to, written_kind, int_of_two, huge_of};

use crate::facts::Facts;
use crate::judge::operation::{DEFAULT_KIND, greater, plain};
use crate::judge::rules::both;
use crate::names::ScalarType;
use lf_base::{Rule, SymId};
use type_rules::code::{ABS, MAX, MIN, MOD, MODULO, SIGN};

/// The most arguments that `min` and `max` take.
const MOST_ARGUMENTS: usize = 31;

/// An integer that is an argument.
#[derive(Clone, Copy)]
pub(super) struct Argument {
    kind: u8,
    is_constant: bool,
    variable: Option<SymId>,
}

/// What arguments one after another are: the greatest of their kinds, and whether all are constant.
#[derive(Clone, Copy)]
pub(super) struct Joined {
    kind: u8,
    is_constant: bool,
}

/// Before the first argument.
pub(super) fn no_arguments() -> Joined
    ensures { result ≡ no_arguments }
{
    Joined {
        kind: DEFAULT_KIND,
        is_constant: true,
    }
}

/// The code of a function that is computed by its arguments' values (ISO/IEC 1539-1:2018, 16.9).
pub(crate) fn intrinsic_named(name: &[u8]) -> Option<u8>
    ensures { result ≡ intrinsic_named name.now }
{
    if name == b"abs".as_slice() {
        Some(ABS)
    } else if name == b"mod".as_slice() {
        Some(MOD)
    } else if name == b"modulo".as_slice() {
        Some(MODULO)
    } else if name == b"min".as_slice() {
        Some(MIN)
    } else if name == b"max".as_slice() {
        Some(MAX)
    } else if name == b"sign".as_slice() {
        Some(SIGN)
    } else {
        None
    }
}

/// Whether a name is that of the conversion to a kind (ISO/IEC 1539-1:2018, 16.9.100).
pub(crate) fn is_int(name: &[u8]) -> bool
    ensures { result ≡ is_int name.now }
{
    name == b"int".as_slice()
}

/// Whether a name is that of the greatest integer of a kind (ISO/IEC 1539-1:2018, 16.9.86).
pub(crate) fn is_huge(name: &[u8]) -> bool
    ensures { result ≡ is_huge name.now }
{
    name == b"huge".as_slice()
}

/// Whether a name is that of an intrinsic function (ISO/IEC 1539-1:2018, 16.9).
pub(super) fn is_intrinsic(name: &[u8]) -> bool
    ensures { result ≡ is_intrinsic name.now }
{
    name == b"abs".as_slice()
        || name == b"mod".as_slice()
        || name == b"modulo".as_slice()
        || name == b"min".as_slice()
        || name == b"max".as_slice()
        || name == b"sign".as_slice()
        || name == b"int".as_slice()
        || name == b"huge".as_slice()
        || name == b"iachar".as_slice()
        || name == b"ichar".as_slice()
        || name == b"achar".as_slice()
        || name == b"char".as_slice()
        || name == b"len".as_slice()
        || name == b"len_trim".as_slice()
        || name == b"trim".as_slice()
        || name == b"index".as_slice()
        || name == b"size".as_slice()
        || name == b"sum".as_slice()
        || name == b"product".as_slice()
        || name == b"maxval".as_slice()
        || name == b"minval".as_slice()
        || name == b"count".as_slice()
        || name == b"any".as_slice()
        || name == b"all".as_slice()
}

/// Whether a function takes arguments in this number.
pub(crate) fn takes(code: u8, count: usize) -> bool
    ensures { result ≡ takes code count }
{
    if code == ABS {
        count == 1
    } else if code == MIN || code == MAX {
        2 <= count && count <= MOST_ARGUMENTS
    } else {
        count == 2
    }
}

fn argument_of(facts: Facts) -> Result<Argument, Rule>
    ensures { result ≡ argument_of facts facts.ty }
{
    match facts.ty {
        ScalarType::Integer { kind } => Ok(Argument {
            kind,
            is_constant: facts.is_constant,
            variable: facts.variable,
        }),
        ScalarType::Logical => Err(Rule::E406),
    }
}

/// An argument, which is to be an integer: E406 where it is a logical.
pub(super) fn integer_argument(told: Result<Facts, Rule>) -> Result<Argument, Rule>
    ensures { result ≡ integer_argument told }
{
    match told {
        Ok(facts) => argument_of(facts),
        Err(rule) => Err(rule),
    }
}

/// The arguments so far with the next one.
pub(super) fn joined_next(
    so_far: Result<Joined, Rule>,
    next: Result<Argument, Rule>,
) -> Result<Joined, Rule>
    ensures { result ≡ joined_next so_far next }
{
    match both(so_far, next) {
        Ok((so_far, next)) => Ok(Joined {
            kind: greater(so_far.kind, next.kind),
            is_constant: so_far.is_constant && next.is_constant,
        }),
        Err(rule) => Err(rule),
    }
}

/// A function that is computed by its arguments' values: its kind is the greatest of theirs.
pub(super) fn called(arguments: Result<Joined, Rule>) -> Result<Facts, Rule>
    ensures { result ≡ map_right called arguments }
{
    match arguments {
        Ok(Joined { kind, is_constant }) => Ok(plain(ScalarType::Integer { kind }, is_constant)),
        Err(rule) => Err(rule),
    }
}

fn int_to(kind: u8, argument: Argument) -> Facts
    ensures { result ≡ int_to kind argument }
{
    plain(ScalarType::Integer { kind }, argument.is_constant)
}

/// `int` of one argument: its value in the default kind.
pub(super) fn int_of_one(told: Result<Facts, Rule>) -> Result<Facts, Rule>
    ensures { result ≡ map_right (int_to 4) (integer_argument told) }
{
    match integer_argument(told) {
        Ok(argument) => Ok(int_to(DEFAULT_KIND, argument)),
        Err(rule) => Err(rule),
    }
}

/// The kind that an argument writes: E406 where it is no literal 4 or 8.
fn written_kind(told: Result<Facts, Rule>) -> Result<u8, Rule>
    ensures { result ≡ written_kind told }
{
    match told {
        Ok(facts) => match facts.writes {
            Some(kind) => Ok(kind),
            None => Err(Rule::E406),
        },
        Err(rule) => Err(rule),
    }
}

/// `int` of two arguments: the value of the first in the kind that the second writes.
pub(super) fn int_of_two(
    told: Result<Facts, Rule>,
    kind: Result<Facts, Rule>,
) -> Result<Facts, Rule>
    ensures { result ≡ int_of_two told kind }
{
    match both(integer_argument(told), written_kind(kind)) {
        Ok((argument, kind)) => Ok(int_to(kind, argument)),
        Err(rule) => Err(rule),
    }
}

/// `huge` of its argument, whose kind alone it asks for: of a variable it is constant too.
pub(super) fn huge(told: Result<Facts, Rule>) -> Result<Facts, Rule>
    ensures { result ≡ map_right huge_of (integer_argument told) }
{
    match integer_argument(told) {
        Ok(argument) => Ok(plain(
            ScalarType::Integer {
                kind: argument.kind,
            },
            argument.is_constant || argument.variable.is_some(),
        )),
        Err(rule) => Err(rule),
    }
}
