//! Equality of types and of constants, and the type of a constant.
ghost use Rattle.std.specs.Prelude.{◌≡◌, IfOk, min, length};
ghost use Rattle.type_rules.specs.Equality.{identical_length, identical_element, identical_dim, identical_dims, identical_type, identical_constant, element_of_constant, type_of_constant};
ghost use Rattle.type_rules.specs.Identities.{type_laws, type_equivalence, constant_laws, constant_equivalence};

use crate::constant::Const;
use crate::ty::{Dim, Elem, Len, Ty};
use lf_base::Memory;
use sqlite_items::Items;
use std::alloc::Global;

impl PartialEq for Ty {
    ghost eq = { identical_type };

    ghost laws = { type_laws };

    fn eq(&self, other: &Ty) -> bool {
        identical_element(self.elem, other.elem)
            && identical_dims(self.dims.as_slice(), other.dims.as_slice())
    }
}

impl Eq for Ty {
    ghost laws = { type_equivalence };
}

impl PartialEq for Const {
    ghost eq = { identical_constant };

    ghost laws = { constant_laws };

    fn eq(&self, other: &Const) -> bool {
        match (self, other) {
            (Const::IntConst { kind: j, value: a }, Const::IntConst { kind: k, value: b }) => *j
                == *k
                && *a == *b,
            (Const::LogConst { value: p }, Const::LogConst { value: q }) => *p == *q,
            (Const::CharConst { bytes: a }, Const::CharConst { bytes: b }) => a.as_slice()
                == b.as_slice(),
            _ => false,
        }
    }
}

impl Eq for Const {
    ghost laws = { constant_equivalence };
}

impl Ty {
    /// A type that is the same.
    pub fn copied(&self, alloc: Global) -> Result<Ty, Memory>
        ensures { IfOk result (λ ty. ty ≡ self.now) }
    {
        Ok(Ty {
            elem: self.elem,
            dims: Items::from_slice(alloc, self.dims.as_slice())?,
        })
    }
}

impl Const {
    /// A constant that is the same.
    pub fn copied(&self, alloc: Global) -> Result<Const, Memory>
        ensures { IfOk result (λ constant. constant ≡ self.now) }
    {
        match self {
            Const::IntConst { kind, value } => Ok(Const::IntConst {
                kind: *kind,
                value: *value,
            }),
            Const::LogConst { value } => Ok(Const::LogConst { value: *value }),
            Const::CharConst { bytes } => Ok(Const::CharConst {
                bytes: Items::from_slice(alloc, bytes.as_slice())?,
            }),
        }
    }
}

/// The type of a constant: a scalar of its kind, or characters of its length. It takes no memory.
pub fn type_of_const(alloc: Global, constant: &Const) -> Ty
    ensures { result ≡ type_of_constant constant.now }
{
    Ty {
        elem: element_of_constant(constant),
        dims: Items::new(alloc),
    }
}

fn element_of_constant(constant: &Const) -> Elem
    ensures { result ≡ element_of_constant constant.now }
{
    match constant {
        Const::IntConst { kind, .. } => Elem::Integer { kind: *kind },
        Const::LogConst { .. } => Elem::Logical,
        Const::CharConst { bytes } => Elem::Character {
            len: Len::Fixed {
                n: length_of(bytes.as_slice()),
            },
        },
    }
}

/// The length of a text, where one that has no number counts as the greatest.
fn length_of(text: &[u8]) -> u32
    ensures { result ≡ min (length text.now) 4294967295 }
{
    if text.len() <= 4_294_967_295 {
        text.len() as u32
    } else {
        u32::MAX
    }
}

fn identical_length(a: Len, b: Len) -> bool
    ensures { result ≡ identical_length a b }
{
    match (a, b) {
        (Len::Fixed { n: m }, Len::Fixed { n }) => m == n,
        (Len::Assumed, Len::Assumed) => true,
        _ => false,
    }
}

fn identical_element(a: Elem, b: Elem) -> bool
    ensures { result ≡ identical_element a b }
{
    match (a, b) {
        (Elem::Integer { kind: j }, Elem::Integer { kind: k }) => j == k,
        (Elem::Logical, Elem::Logical) => true,
        (Elem::Character { len: m }, Elem::Character { len: n }) => identical_length(m, n),
        (Elem::Derived { sym: s }, Elem::Derived { sym: t }) => s.0 == t.0,
        _ => false,
    }
}

fn identical_dim(a: Dim, b: Dim) -> bool
    ensures { result ≡ identical_dim a b }
{
    match (a, b) {
        (
            Dim::Fixed {
                lower: k,
                extent: m,
            },
            Dim::Fixed {
                lower: l,
                extent: n,
            },
        ) => k == l && m == n,
        (Dim::Assumed, Dim::Assumed) => true,
        _ => false,
    }
}

fn identical_dims(a: &[Dim], b: &[Dim]) -> bool
    ensures { result ≡ identical_dims a.now b.now }
{
    let mut others = b;
    for dim in a {
        match others {
            [other, more @ ..] => {
                if !identical_dim(*dim, *other) {
                    return false;
                }
                others = more;
            }
            [] => return false,
        }
    }
    others.is_empty()
}
