//! What each operation takes, and what it makes of the element types of its operands.
ghost use Rattle.std.specs.Prelude.{◌≡◌, ℕ, map, length, max};
ghost use Rattle.lf_base.specs.Operators.{operator_of};
ghost use Rattle.type_rules.specs.Codes.{intrinsic_of};
ghost use Rattle.type_rules.specs.Typing.{takes, class_of, may_be_one, is_in_class, are_in_class, ranks_of_intrinsic, kind_of, greatest_kind, result_element, unary_element, element_or_none, unary_judged, binary_judged, intrinsic_judged, conversion_judged, judged, ranks_of_operator, ranks_of_function, ranks_of, elements_of};

use crate::code::Intrinsic;
use crate::constant::Op;
use crate::ty::{Elem, Len, Ty};
use crate::unifying::element_of;
use lf_base::Rule;
use lf_base::operator::Operator;

/// What the element types of the operands make of an operation.
#[derive(Clone, Copy)]
pub enum Judgement {
    /// An element type.
    Element(Elem),
    /// The operator has no type for these operands.
    NoType,
    /// An intrinsic function is called with another number of arguments, or with one of a wrong type.
    Misused(Rule),
}

/// Which ranks the operands of an operation may have.
#[derive(Clone, Copy)]
pub enum Ranks {
    /// Arrays of one rank, and scalars.
    Elementwise,
    Scalars,
    OneArray,
}

/// Which arguments an intrinsic function takes.
#[derive(Clone, Copy)]
pub enum Class {
    Integers,
    Logicals,
    Characters,
    /// Characters of length 1.
    OneCharacter,
}

/// The most arguments that `min` and `max` take.
const MOST_ARGUMENTS: usize = 31;

/// Whether an intrinsic function takes so many arguments.
fn takes(which: Intrinsic, count: usize) -> bool
    ensures { result ≡ takes which count }
{
    match which {
        Intrinsic::Mod | Intrinsic::Modulo | Intrinsic::Sign | Intrinsic::Index => count == 2,
        Intrinsic::Min | Intrinsic::Max => 2 <= count && count <= MOST_ARGUMENTS,
        _ => count == 1,
    }
}

/// The class of the arguments of an intrinsic function.
fn class_of(which: Intrinsic) -> Class
    ensures { result ≡ class_of which }
{
    match which {
        Intrinsic::Iachar => Class::OneCharacter,
        Intrinsic::Len | Intrinsic::LenTrim | Intrinsic::Trim | Intrinsic::Index =>
            Class::Characters,
        Intrinsic::Count | Intrinsic::Any | Intrinsic::All => Class::Logicals,
        _ => Class::Integers,
    }
}

fn may_be_one(len: Len) -> bool
    ensures { result ≡ may_be_one len }
{
    match len {
        Len::Fixed { n } => n == 1,
        Len::Assumed => true,
    }
}

fn is_in_class(class: Class, elem: Elem) -> bool
    ensures { result ≡ is_in_class class elem }
{
    match (class, elem) {
        (Class::Integers, Elem::Integer { .. }) => true,
        (Class::Logicals, Elem::Logical) => true,
        (Class::Characters, Elem::Character { .. }) => true,
        (Class::OneCharacter, Elem::Character { len }) => may_be_one(len),
        _ => false,
    }
}

fn are_in_class(class: Class, args: &[Ty]) -> bool
    ensures { result ≡ are_in_class class (elements_of args.now) }
{
    for ty in args {
        if !is_in_class(class, ty.elem) {
            return false;
        }
    }
    true
}

fn ranks_of_intrinsic(which: Intrinsic) -> Ranks
    ensures { result ≡ ranks_of_intrinsic which }
{
    match which {
        Intrinsic::Abs | Intrinsic::Mod | Intrinsic::Modulo | Intrinsic::Min => Ranks::Elementwise,
        Intrinsic::Max | Intrinsic::Sign | Intrinsic::Iachar => Ranks::Elementwise,
        Intrinsic::Sum | Intrinsic::Product | Intrinsic::Maxval | Intrinsic::Minval =>
            Ranks::OneArray,
        Intrinsic::Count | Intrinsic::Any | Intrinsic::All => Ranks::OneArray,
        _ => Ranks::Scalars,
    }
}

fn kind_of(elem: Elem) -> u8
    ensures { result ≡ kind_of elem }
{
    match elem {
        Elem::Integer { kind } => kind,
        _ => 0,
    }
}

fn greater(j: u8, k: u8) -> u8
    ensures { result ≡ max j k }
{
    if j < k { k } else { j }
}

fn greatest_kind(args: &[Ty]) -> u8
    ensures { result ≡ greatest_kind (elements_of args.now) }
{
    let mut kind = 0;
    for ty in args {
        kind = greater(kind, kind_of(ty.elem));
    }
    kind
}

fn result_element(which: Intrinsic, kind: u8) -> Elem
    ensures { result ≡ result_element which kind }
{
    match which {
        Intrinsic::Iachar | Intrinsic::Len | Intrinsic::LenTrim => Elem::Integer { kind: 4 },
        Intrinsic::Index | Intrinsic::Count => Elem::Integer { kind: 4 },
        Intrinsic::Achar => Elem::Character {
            len: Len::Fixed { n: 1 },
        },
        Intrinsic::Trim => Elem::Character { len: Len::Assumed },
        Intrinsic::Any | Intrinsic::All => Elem::Logical,
        _ => Elem::Integer { kind },
    }
}

fn unary_element(op: Operator, a: Elem) -> Option<Elem>
    ensures { result ≡ unary_element op a }
{
    match (op, a) {
        (Operator::Add, Elem::Integer { kind }) => Some(Elem::Integer { kind }),
        (Operator::Subtract, Elem::Integer { kind }) => Some(Elem::Integer { kind }),
        (Operator::Not, Elem::Logical) => Some(Elem::Logical),
        _ => None,
    }
}

fn element_or_none(elem: Option<Elem>) -> Judgement
    ensures { result ≡ element_or_none elem }
{
    match elem {
        Some(elem) => Judgement::Element(elem),
        None => Judgement::NoType,
    }
}

fn unary_judged(op: Option<Operator>, a: Elem) -> Judgement
    ensures { result ≡ unary_judged op a }
{
    match op {
        Some(op) => element_or_none(unary_element(op, a)),
        None => Judgement::NoType,
    }
}

fn binary_judged(op: Option<Operator>, a: Elem, b: Elem) -> Judgement
    ensures { result ≡ binary_judged op a b }
{
    match op {
        Some(op) => element_or_none(element_of(op, a, b)),
        None => Judgement::NoType,
    }
}

fn intrinsic_judged(which: Intrinsic, args: &[Ty]) -> Judgement
    ensures { result ≡ intrinsic_judged (Some which) (elements_of args.now) }
{
    if !takes(which, args.len()) {
        return Judgement::Misused(Rule::E405);
    }
    if !are_in_class(class_of(which), args) {
        return Judgement::Misused(Rule::E406);
    }
    Judgement::Element(result_element(which, greatest_kind(args)))
}

fn conversion_judged(kind: u8, a: Elem) -> Judgement
    ensures { result ≡ conversion_judged kind a }
{
    if (kind == 4 || kind == 8) && is_in_class(Class::Integers, a) {
        return Judgement::Element(Elem::Integer { kind });
    }
    Judgement::Misused(Rule::E406)
}

/// What the element types of these operands make of an operation.
pub fn judged(op: Op, args: &[Ty]) -> Judgement
    ensures { result ≡ judged op (elements_of args.now) }
{
    match op {
        Op::Unary(code) => match args {
            [a] => unary_judged(Operator::at(code), a.elem),
            _ => Judgement::NoType,
        },
        Op::Binary(code) => match args {
            [a, b] => binary_judged(Operator::at(code), a.elem, b.elem),
            _ => Judgement::NoType,
        },
        Op::Intrinsic(code) => match Intrinsic::at(code) {
            Some(which) => intrinsic_judged(which, args),
            None => Judgement::NoType,
        },
        Op::Convert(kind) => match args {
            [a] => conversion_judged(kind, a.elem),
            _ => Judgement::Misused(Rule::E405),
        },
    }
}

/// Which ranks the operands of an operation may have.
pub fn ranks_of(op: Op) -> Ranks
    ensures { result ≡ ranks_of op }
{
    match op {
        Op::Binary(code) => match Operator::at(code) {
            Some(Operator::Concatenate) => Ranks::Scalars,
            _ => Ranks::Elementwise,
        },
        Op::Intrinsic(code) => match Intrinsic::at(code) {
            Some(which) => ranks_of_intrinsic(which),
            None => Ranks::Elementwise,
        },
        _ => Ranks::Elementwise,
    }
}
