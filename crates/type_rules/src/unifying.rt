//! The type of an operation.
ghost use Rattle.std.specs.Prelude.{◌≡◌, ◌+◌, map, max, min};
ghost use Rattle.type_rules.specs.Types.{element_of, of_integers, of_relation, arrays, type_under, of_logicals, of_characters, joined_length, from_one, joined_dim, joined_dims, known_apart, extents_apart, conformed, scalars, dims_under, result_type, GivesDims, Unifies};

use crate::constant::{Op, TypeFault};
use crate::ty::{Dim, Elem, Len, Ty};
use lf_base::Rule;
use lf_base::operator::Operator;
use sqlite_items::Items;
use std::alloc::Global;

pub type Dims = Result<Items<Dim>, TypeFault>;

/// The type of a binary operation. It answers E401 exactly where no type comes of the types of the
/// operands, else E404 exactly where both are arrays of different rank, or where `//` has an array,
/// else E412 exactly where two known extents differ. Other operations than binary ones have no type
/// here: E401. Want of memory comes for arrays alone. It restates ISO/IEC 1539-1:2018, 10.1.9.
pub fn unify(alloc: Global, op: Op, a: &Ty, b: &Ty) -> Result<Ty, TypeFault>
    ensures { Unifies result (result_type op a.now b.now) }
{
    match op {
        Op::Binary(code) => match Operator::at(code) {
            Some(op) => type_under(alloc, op, a, b),
            None => Err(TypeFault::Rule(Rule::E401)),
        },
        _ => Err(TypeFault::Rule(Rule::E401)),
    }
}

fn type_under(alloc: Global, op: Operator, a: &Ty, b: &Ty) -> Result<Ty, TypeFault>
    ensures { Unifies result (type_under (Some op) a.now b.now) }
{
    match element_of(op, a.elem, b.elem) {
        Some(elem) => Ok(Ty {
            elem,
            dims: dims_under(alloc, op, a.dims.as_slice(), b.dims.as_slice())?,
        }),
        None => Err(TypeFault::Rule(Rule::E401)),
    }
}

/// The element type that an operator gives.
pub fn element_of(op: Operator, a: Elem, b: Elem) -> Option<Elem>
    ensures { result ≡ element_of op a b }
{
    match (a, b) {
        (Elem::Integer { kind: j }, Elem::Integer { kind: k }) => of_integers(
            op,
            if j < k { k } else { j },
        ),
        (Elem::Logical, Elem::Logical) => of_logicals(op),
        (Elem::Character { len: m }, Elem::Character { len: n }) => of_characters(op, m, n),
        _ => None,
    }
}

fn of_integers(op: Operator, kind: u8) -> Option<Elem>
    ensures { result ≡ of_integers op kind }
{
    match op {
        Operator::Add => Some(Elem::Integer { kind }),
        Operator::Subtract => Some(Elem::Integer { kind }),
        Operator::Multiply => Some(Elem::Integer { kind }),
        Operator::Divide => Some(Elem::Integer { kind }),
        Operator::Power => Some(Elem::Integer { kind }),
        _ => relation(op),
    }
}

/// The type of a relation.
fn relation(op: Operator) -> Option<Elem>
    ensures { result ≡ of_relation op }
{
    match op {
        Operator::Eq | Operator::Ne => Some(Elem::Logical),
        Operator::Lt | Operator::Le => Some(Elem::Logical),
        Operator::Gt | Operator::Ge => Some(Elem::Logical),
        _ => None,
    }
}

fn of_logicals(op: Operator) -> Option<Elem>
    ensures { result ≡ of_logicals op }
{
    match op {
        Operator::And | Operator::Or => Some(Elem::Logical),
        Operator::Eqv | Operator::Neqv => Some(Elem::Logical),
        _ => None,
    }
}

fn of_characters(op: Operator, m: Len, n: Len) -> Option<Elem>
    ensures { result ≡ of_characters op m n }
{
    match op {
        Operator::Concatenate => Some(Elem::Character {
            len: joined_length(m, n),
        }),
        _ => relation(op),
    }
}

fn joined_length(m: Len, n: Len) -> Len
    ensures { result ≡ joined_length m n }
{
    match (m, n) {
        (Len::Fixed { n: m }, Len::Fixed { n }) => Len::Fixed {
            n: sum_of_lengths(m, n),
        },
        _ => Len::Assumed,
    }
}

/// The sum of two lengths, where one that has no number counts as the greatest.
fn sum_of_lengths(m: u32, n: u32) -> u32
    ensures { result ≡ min (m + n) 4294967295 }
{
    if n <= u32::MAX - m { m + n } else { u32::MAX }
}

fn dims_under(alloc: Global, op: Operator, a: &[Dim], b: &[Dim]) -> Dims
    ensures { GivesDims result (dims_under op a.now b.now) }
{
    match op {
        Operator::Concatenate => scalars(alloc, a, b),
        _ => conformed(alloc, a, b),
    }
}

fn scalars(alloc: Global, a: &[Dim], b: &[Dim]) -> Dims
    ensures { GivesDims result (scalars a.now b.now) }
{
    match (a, b) {
        ([], []) => Ok(Items::new(alloc)),
        _ => Err(TypeFault::Rule(Rule::E404)),
    }
}

fn conformed(alloc: Global, a: &[Dim], b: &[Dim]) -> Dims
    ensures { GivesDims result (conformed a.now b.now) }
{
    match (a, b) {
        ([], _) => from_one_each(alloc, b),
        (_, []) => from_one_each(alloc, a),
        _ => arrays(alloc, a, b),
    }
}

/// The shape of an operation on two arrays.
fn arrays(alloc: Global, a: &[Dim], b: &[Dim]) -> Dims
    ensures { GivesDims result (arrays a.now b.now) }
{
    if a.len() != b.len() {
        return Err(TypeFault::Rule(Rule::E404));
    }
    if extents_apart(a, b) {
        return Err(TypeFault::Rule(Rule::E412));
    }
    joined_dims(alloc, a, b)
}

pub fn from_one_each(alloc: Global, dims: &[Dim]) -> Dims
    ensures { GivesDims result (Ok (map from_one dims.now)) }
{
    let mut all = Items::new(alloc);
    for dim in dims {
        all.push(from_one(*dim))?;
    }
    Ok(all)
}

fn from_one(dim: Dim) -> Dim
    ensures { result ≡ from_one dim }
{
    match dim {
        Dim::Fixed { extent, .. } => Dim::Fixed { lower: 1, extent },
        Dim::Assumed => Dim::Assumed,
    }
}

pub fn joined_dims(alloc: Global, a: &[Dim], b: &[Dim]) -> Dims
    ensures { GivesDims result (Ok (joined_dims a.now b.now)) }
{
    let mut all = Items::new(alloc);
    let mut others = b;
    for dim in a {
        match others {
            [other, more @ ..] => {
                all.push(joined_dim(*dim, *other))?;
                others = more;
            }
            [] => return Ok(all),
        }
    }
    Ok(all)
}

fn joined_dim(a: Dim, b: Dim) -> Dim
    ensures { result ≡ joined_dim a b }
{
    match a {
        Dim::Fixed { extent, .. } => Dim::Fixed { lower: 1, extent },
        Dim::Assumed => from_one(b),
    }
}

/// Whether two extents are known and differ.
pub fn extents_apart(a: &[Dim], b: &[Dim]) -> bool
    ensures { result ≡ extents_apart a.now b.now }
{
    let mut others = b;
    for dim in a {
        match others {
            [other, more @ ..] => {
                if known_apart(*dim, *other) {
                    return true;
                }
                others = more;
            }
            [] => return false,
        }
    }
    false
}

fn known_apart(a: Dim, b: Dim) -> bool
    ensures { result ≡ known_apart a b }
{
    match (a, b) {
        (Dim::Fixed { extent: m, .. }, Dim::Fixed { extent: n, .. }) => m != n,
        _ => false,
    }
}
