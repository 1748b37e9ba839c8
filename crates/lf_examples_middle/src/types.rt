//! Types of operations, matching and generic resolution, at cases that were worked out by hand from
//! ISO/IEC 1539-1:2018, 10.1.9 and 15.4.3.4.5.

use lf_base::{Rule, SymId};
use sqlite_items::Items;
use std::alloc::{AllocError, Global};
use std::test::Fail;
use type_rules::{
    Dim, Elem, Len, Op, Ty, TypeFault, code, distinguishable, resolve_generic, same_type, type_of,
    unify,
};

/// A type, by its element and its dimensions.
type Shape = (Elem, &'static [Dim]);

const I4: Elem = Elem::Integer { kind: 4 };

const I8: Elem = Elem::Integer { kind: 8 };

const L: Elem = Elem::Logical;

const C3: Elem = Elem::Character {
    len: Len::Fixed { n: 3 },
};

const C5: Elem = Elem::Character {
    len: Len::Fixed { n: 5 },
};

const C8: Elem = Elem::Character {
    len: Len::Fixed { n: 8 },
};

const LONG: Elem = Elem::Character {
    len: Len::Fixed { n: 4_294_967_295 },
};

const CX: Elem = Elem::Character { len: Len::Assumed };

const D1: Elem = Elem::Derived { sym: SymId(1) };

const D2: Elem = Elem::Derived { sym: SymId(2) };

const ONE: Dim = Dim::Fixed {
    lower: 1,
    extent: 2,
};

const LOW: Dim = Dim::Fixed {
    lower: -7,
    extent: 2,
};

const THREE: Dim = Dim::Fixed {
    lower: 1,
    extent: 3,
};

const ANY: Dim = Dim::Assumed;

/// What is wanted of an operation on two types.
#[derive(Clone, Copy)]
enum Want {
    Gives(Shape),
    Breaks(Rule),
}

use Want::{Breaks, Gives};

type Case = (u8, Shape, Shape, Want);

const ARITHMETIC: [Case; 15] = [
    (code::ADD, (I4, &[]), (I4, &[]), Gives((I4, &[]))),
    (code::ADD, (I4, &[]), (I8, &[]), Gives((I8, &[]))),
    (code::SUBTRACT, (I4, &[]), (I4, &[]), Gives((I4, &[]))),
    (code::SUBTRACT, (I4, &[]), (I8, &[]), Gives((I8, &[]))),
    (code::MULTIPLY, (I4, &[]), (I4, &[]), Gives((I4, &[]))),
    (code::MULTIPLY, (I4, &[]), (I8, &[]), Gives((I8, &[]))),
    (code::DIVIDE, (I4, &[]), (I4, &[]), Gives((I4, &[]))),
    (code::DIVIDE, (I4, &[]), (I8, &[]), Gives((I8, &[]))),
    (code::POWER, (I4, &[]), (I4, &[]), Gives((I4, &[]))),
    (code::POWER, (I4, &[]), (I8, &[]), Gives((I8, &[]))),
    (code::ADD, (I8, &[]), (I4, &[]), Gives((I8, &[]))),
    (code::ADD, (L, &[]), (L, &[]), Breaks(Rule::E401)),
    (code::ADD, (I4, &[]), (L, &[]), Breaks(Rule::E401)),
    (code::ADD, (C3, &[]), (C3, &[]), Breaks(Rule::E401)),
    (code::ADD, (D1, &[]), (D1, &[]), Breaks(Rule::E401)),
];

const RELATIONS: [Case; 24] = [
    (code::EQ, (I4, &[]), (I8, &[]), Gives((L, &[]))),
    (code::EQ, (C3, &[]), (CX, &[]), Gives((L, &[]))),
    (code::EQ, (L, &[]), (L, &[]), Breaks(Rule::E401)),
    (code::EQ, (I4, &[]), (C3, &[]), Breaks(Rule::E401)),
    (code::NE, (I4, &[]), (I8, &[]), Gives((L, &[]))),
    (code::NE, (C3, &[]), (CX, &[]), Gives((L, &[]))),
    (code::NE, (L, &[]), (L, &[]), Breaks(Rule::E401)),
    (code::NE, (I4, &[]), (C3, &[]), Breaks(Rule::E401)),
    (code::LT, (I4, &[]), (I8, &[]), Gives((L, &[]))),
    (code::LT, (C3, &[]), (CX, &[]), Gives((L, &[]))),
    (code::LT, (L, &[]), (L, &[]), Breaks(Rule::E401)),
    (code::LT, (I4, &[]), (C3, &[]), Breaks(Rule::E401)),
    (code::LE, (I4, &[]), (I8, &[]), Gives((L, &[]))),
    (code::LE, (C3, &[]), (CX, &[]), Gives((L, &[]))),
    (code::LE, (L, &[]), (L, &[]), Breaks(Rule::E401)),
    (code::LE, (I4, &[]), (C3, &[]), Breaks(Rule::E401)),
    (code::GT, (I4, &[]), (I8, &[]), Gives((L, &[]))),
    (code::GT, (C3, &[]), (CX, &[]), Gives((L, &[]))),
    (code::GT, (L, &[]), (L, &[]), Breaks(Rule::E401)),
    (code::GT, (I4, &[]), (C3, &[]), Breaks(Rule::E401)),
    (code::GE, (I4, &[]), (I8, &[]), Gives((L, &[]))),
    (code::GE, (C3, &[]), (CX, &[]), Gives((L, &[]))),
    (code::GE, (L, &[]), (L, &[]), Breaks(Rule::E401)),
    (code::GE, (I4, &[]), (C3, &[]), Breaks(Rule::E401)),
];

const LOGICALS: [Case; 9] = [
    (code::AND, (L, &[]), (L, &[]), Gives((L, &[]))),
    (code::AND, (I4, &[]), (L, &[]), Breaks(Rule::E401)),
    (code::OR, (L, &[]), (L, &[]), Gives((L, &[]))),
    (code::OR, (I4, &[]), (L, &[]), Breaks(Rule::E401)),
    (code::EQV, (L, &[]), (L, &[]), Gives((L, &[]))),
    (code::EQV, (I4, &[]), (L, &[]), Breaks(Rule::E401)),
    (code::NEQV, (L, &[]), (L, &[]), Gives((L, &[]))),
    (code::NEQV, (I4, &[]), (L, &[]), Breaks(Rule::E401)),
    (code::NOT, (L, &[]), (L, &[]), Breaks(Rule::E401)),
];

const TEXTS: [Case; 9] = [
    (code::CONCATENATE, (C3, &[]), (C5, &[]), Gives((C8, &[]))),
    (code::CONCATENATE, (C3, &[]), (CX, &[]), Gives((CX, &[]))),
    (code::CONCATENATE, (CX, &[]), (C3, &[]), Gives((CX, &[]))),
    (
        code::CONCATENATE,
        (LONG, &[]),
        (C3, &[]),
        Gives((LONG, &[])),
    ),
    (code::CONCATENATE, (I4, &[]), (C3, &[]), Breaks(Rule::E401)),
    (
        code::CONCATENATE,
        (C3, &[ONE]),
        (C3, &[]),
        Breaks(Rule::E404),
    ),
    (
        code::CONCATENATE,
        (C3, &[]),
        (C3, &[ONE]),
        Breaks(Rule::E404),
    ),
    (
        code::CONCATENATE,
        (C3, &[ONE]),
        (C3, &[ONE]),
        Breaks(Rule::E404),
    ),
    (
        code::CONCATENATE,
        (I4, &[ONE]),
        (C3, &[]),
        Breaks(Rule::E401),
    ),
];

const PLANES: [Case; 12] = [
    (
        code::ADD,
        (I4, &[LOW, ANY]),
        (I4, &[]),
        Gives((I4, &[ONE, ANY])),
    ),
    (
        code::POWER,
        (I4, &[]),
        (I8, &[LOW, THREE]),
        Gives((I8, &[ONE, THREE])),
    ),
    (
        code::ADD,
        (I8, &[ANY, ANY]),
        (I4, &[LOW, THREE]),
        Gives((I8, &[ONE, THREE])),
    ),
    (
        code::LT,
        (I4, &[ONE, THREE]),
        (I8, &[]),
        Gives((L, &[ONE, THREE])),
    ),
    (
        code::LT,
        (I4, &[]),
        (I8, &[ONE, THREE]),
        Gives((L, &[ONE, THREE])),
    ),
    (
        code::EQ,
        (C3, &[ONE, ANY]),
        (CX, &[]),
        Gives((L, &[ONE, ANY])),
    ),
    (
        code::EQ,
        (C3, &[]),
        (CX, &[ONE, ANY]),
        Gives((L, &[ONE, ANY])),
    ),
    (
        code::OR,
        (L, &[ONE, THREE]),
        (L, &[]),
        Gives((L, &[ONE, THREE])),
    ),
    (
        code::OR,
        (L, &[]),
        (L, &[ONE, THREE]),
        Gives((L, &[ONE, THREE])),
    ),
    (
        code::OR,
        (L, &[ONE, THREE]),
        (L, &[ONE]),
        Breaks(Rule::E404),
    ),
    (
        code::CONCATENATE,
        (C3, &[ONE, ONE]),
        (C5, &[]),
        Breaks(Rule::E404),
    ),
    (
        code::EQ,
        (C3, &[ONE, THREE]),
        (C5, &[THREE, THREE]),
        Breaks(Rule::E412),
    ),
];

/// Functions on arrays of rank 2 and scalars.
const ON_PLANES: [(u8, &'static [Shape], Want); 9] = [
    (
        code::MOD,
        &[(I4, &[LOW, ANY]), (I8, &[])],
        Gives((I8, &[ONE, ANY])),
    ),
    (
        code::SIGN,
        &[(I4, &[]), (I8, &[ONE, ONE])],
        Gives((I8, &[ONE, ONE])),
    ),
    (
        code::MIN,
        &[(I4, &[]), (I4, &[ANY, THREE]), (I8, &[ONE, ANY])],
        Gives((I8, &[ONE, THREE])),
    ),
    (
        code::MAX,
        &[(I4, &[ONE, ONE]), (I4, &[]), (I4, &[ONE])],
        Breaks(Rule::E404),
    ),
    (
        code::MAX,
        &[(I4, &[ONE, ONE]), (I4, &[]), (I4, &[ONE, THREE])],
        Breaks(Rule::E412),
    ),
    (
        code::INDEX,
        &[(C3, &[ONE, THREE]), (CX, &[])],
        Breaks(Rule::E404),
    ),
    (code::SUM, &[(I8, &[ONE, THREE])], Gives((I8, &[]))),
    (code::COUNT, &[(L, &[ONE, ANY])], Gives((I4, &[]))),
    (code::SUM, &[(I8, &[])], Breaks(Rule::E406)),
];

const SHAPES: [Case; 17] = [
    (code::ADD, (I4, &[ONE]), (I4, &[]), Gives((I4, &[ONE]))),
    (code::ADD, (I4, &[LOW]), (I4, &[]), Gives((I4, &[ONE]))),
    (code::ADD, (I8, &[]), (I4, &[LOW]), Gives((I8, &[ONE]))),
    (code::ADD, (I4, &[LOW]), (I4, &[ONE]), Gives((I4, &[ONE]))),
    (code::ADD, (I4, &[ANY]), (I4, &[LOW]), Gives((I4, &[ONE]))),
    (code::ADD, (I4, &[LOW]), (I4, &[ANY]), Gives((I4, &[ONE]))),
    (code::ADD, (I4, &[ANY]), (I4, &[ANY]), Gives((I4, &[ANY]))),
    (code::ADD, (I4, &[ANY]), (I4, &[]), Gives((I4, &[ANY]))),
    (code::ADD, (I4, &[ONE]), (I4, &[THREE]), Breaks(Rule::E412)),
    (
        code::ADD,
        (I4, &[ONE]),
        (I4, &[ONE, ONE]),
        Breaks(Rule::E404),
    ),
    (
        code::ADD,
        (I4, &[ONE, THREE]),
        (I4, &[ONE, ONE]),
        Breaks(Rule::E412),
    ),
    (
        code::ADD,
        (I4, &[ANY, THREE]),
        (I4, &[ONE, ANY]),
        Gives((I4, &[ONE, THREE])),
    ),
    (
        code::ADD,
        (I4, &[ANY, THREE]),
        (I4, &[ONE, ONE]),
        Breaks(Rule::E412),
    ),
    (
        code::ADD,
        (L, &[ONE]),
        (I4, &[ONE, ONE]),
        Breaks(Rule::E401),
    ),
    (code::EQ, (C3, &[ONE]), (C5, &[THREE]), Breaks(Rule::E412)),
    (code::EQ, (C3, &[ONE]), (C5, &[]), Gives((L, &[ONE]))),
    (code::AND, (L, &[ANY]), (L, &[ONE]), Gives((L, &[ONE]))),
];

fn ty(alloc: Global, shape: &Shape) -> Result<Ty, AllocError> {
    let dims = Items::from_slice(alloc, shape.1)?;
    Ok(Ty {
        elem: shape.0,
        dims,
    })
}

fn is_wanted(got: &Result<Ty, TypeFault>, want: &Want) -> bool {
    match (got, want) {
        (Ok(ty), Gives(shape)) => ty.elem == shape.0 && ty.dims.as_slice() == shape.1,
        (Err(TypeFault::Rule(rule)), Breaks(r)) => *rule == *r,
        _ => false,
    }
}

/// The place of the first case that answers otherwise, if one does.
fn first_wrong(alloc: Global, cases: &[Case]) -> Result<Option<usize>, AllocError> {
    for (at, case) in cases.iter().enumerate() {
        let a = ty(alloc, &case.1)?;
        let b = ty(alloc, &case.2)?;
        if !is_wanted(&unify(alloc, Op::Binary(case.0), &a, &b), &case.3) {
            return Ok(Some(at));
        }
    }
    Ok(None)
}

/// The tables of operations.
const TABLES: [&[Case]; 6] = [&ARITHMETIC, &RELATIONS, &LOGICALS, &TEXTS, &SHAPES, &PLANES];

/// The place of the first table with such a case, and the case's place in it, if there is one.
fn first_wrong_of_all(alloc: Global) -> Result<Option<(usize, usize)>, AllocError> {
    for (at, table) in TABLES.iter().enumerate() {
        if let Some(case) = first_wrong(alloc, table)? {
            return Ok(Some((at, case)));
        }
    }
    Ok(None)
}

/// The place of the first call of a function that answers otherwise, if one does.
fn first_wrong_call(
    alloc: Global,
    cases: &[(u8, &[Shape], Want)],
) -> Result<Option<usize>, AllocError> {
    for (at, case) in cases.iter().enumerate() {
        let args = types(alloc, case.1)?;
        let got = type_of(alloc, Op::Intrinsic(case.0), args.as_slice());
        if !is_wanted(&got, &case.2) {
            return Ok(Some(at));
        }
    }
    Ok(None)
}

/// Two types, and whether they are the same one.
const SAME: [(Shape, Shape, bool); 10] = [
    ((I4, &[]), (I4, &[]), true),
    ((I4, &[]), (I8, &[]), false),
    ((I4, &[]), (L, &[]), false),
    ((C3, &[]), (C5, &[]), true),
    ((C3, &[]), (CX, &[]), true),
    ((D1, &[]), (D1, &[]), true),
    ((D1, &[]), (D2, &[]), false),
    ((I4, &[ONE]), (I4, &[ANY]), true),
    ((I4, &[ONE]), (I4, &[]), false),
    ((I4, &[ONE, ONE]), (I4, &[ONE]), false),
];

fn first_misjudged(
    alloc: Global,
    pairs: &[(Shape, Shape, bool)],
) -> Result<Option<usize>, AllocError> {
    for (at, pair) in pairs.iter().enumerate() {
        let a = ty(alloc, &pair.0)?;
        let b = ty(alloc, &pair.1)?;
        if same_type(&a, &b) != pair.2 {
            return Ok(Some(at));
        }
    }
    Ok(None)
}

fn types(alloc: Global, shapes: &[Shape]) -> Result<Vec<Ty>, AllocError> {
    let mut all = Vec::new(alloc);
    for shape in shapes {
        all.push(ty(alloc, shape)?)?;
    }
    Ok(all)
}

/// A generic with four specifics.
fn four(alloc: Global) -> Result<Vec<Vec<Ty>>, AllocError> {
    let mut specifics = Vec::new(alloc);
    for shapes in &SPECIFICS {
        specifics.push(types(alloc, *shapes)?)?;
    }
    Ok(specifics)
}

const SPECIFICS: [&'static [Shape]; 4] = [
    &[(I4, &[])],
    &[(I8, &[])],
    &[(I4, &[ANY])],
    &[(I4, &[]), (C3, &[])],
];

fn chosen(alloc: Global, args: &[Shape]) -> Result<Option<usize>, AllocError> {
    let specifics = four(alloc)?;
    let args = types(alloc, args)?;
    Ok(resolve_generic(specifics.as_slice(), args.as_slice()))
}

/// Arguments, and the place of the specific that takes them.
const CHOSEN: [(&[Shape], Option<usize>); 5] = [
    (&[(I8, &[])], Some(1)),
    (&[(I4, &[THREE])], Some(2)),
    (&[(I4, &[]), (CX, &[])], Some(3)),
    (&[(L, &[])], None),
    (&[], None),
];

fn first_not_chosen(alloc: Global) -> Result<Option<usize>, AllocError> {
    for (at, case) in CHOSEN.iter().enumerate() {
        if chosen(alloc, case.0)? != case.1 {
            return Ok(Some(at));
        }
    }
    Ok(None)
}

fn apart(alloc: Global, a: &[Shape], b: &[Shape]) -> Result<bool, AllocError> {
    let a = types(alloc, a)?;
    let b = types(alloc, b)?;
    Ok(distinguishable(a.as_slice(), b.as_slice()))
}

/// The dummies of two specifics, and whether they are distinguishable.
const APART: [(&[Shape], &[Shape], bool); 4] = [
    (&[(I4, &[])], &[(I8, &[])], true),
    (&[(I4, &[])], &[(I4, &[ONE])], true),
    (&[(I4, &[])], &[(I4, &[]), (L, &[])], true),
    (
        &[(I4, &[ONE]), (C3, &[])],
        &[(I4, &[ANY]), (CX, &[])],
        false,
    ),
];

fn first_not_apart(alloc: Global) -> Result<Option<usize>, AllocError> {
    for (at, case) in APART.iter().enumerate() {
        if apart(alloc, case.0, case.1)? != case.2 {
            return Ok(Some(at));
        }
    }
    Ok(None)
}

#[test]
fn operations_have_their_types(rt: HostRuntime) -> Result<(), Fail> {
    assert_eq!(rt; first_wrong_of_all(rt.alloc())?, None);
    assert_eq!(rt; first_wrong_call(rt.alloc(), &ON_PLANES)?, None);
    Ok(())
}

#[test]
fn types_are_matched(rt: HostRuntime) -> Result<(), Fail> {
    assert_eq!(rt; first_misjudged(rt.alloc(), &SAME)?, None);
    assert_eq!(rt; first_not_chosen(rt.alloc())?, None);
    assert_eq!(rt; first_not_apart(rt.alloc())?, None);
    Ok(())
}
