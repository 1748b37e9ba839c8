//! Matching by type, kind and rank, and the choice of a specific procedure.
ghost use Rattle.std.specs.Prelude.{◌≡◌, map};
ghost use Rattle.type_rules.specs.Types.{same, same_element};
ghost use Rattle.type_rules.specs.Matching.{matches, are_distinguishable, match_from, ArePairwiseDistinguishable, Resolves};

use crate::ty::{Elem, Ty};

/// Whether two types have the same type, kind and rank, or are the same derived type of one rank.
/// Lengths and extents do not count.
pub fn same_type(a: &Ty, b: &Ty) -> bool
    ensures { result ≡ same a.now b.now }
{
    same_element(a.elem, b.elem) && a.dims.len() == b.dims.len()
}

fn same_element(a: Elem, b: Elem) -> bool
    ensures { result ≡ same_element a b }
{
    match (a, b) {
        (Elem::Integer { kind: j }, Elem::Integer { kind: k }) => j == k,
        (Elem::Logical, Elem::Logical) => true,
        (Elem::Character { .. }, Elem::Character { .. }) => true,
        (Elem::Derived { sym: s }, Elem::Derived { sym: t }) => s.0 == t.0,
        _ => false,
    }
}

/// Whether two lists of dummies are distinguishable: they differ in number, or in type, kind or rank
/// at some position (ISO/IEC 1539-1:2018, 15.4.3.4.5).
pub fn distinguishable(a: &[Ty], b: &[Ty]) -> bool
    ensures { result ≡ are_distinguishable a.now b.now }
{
    let mut others = b;
    for ty in a {
        match others {
            [other, more @ ..] => {
                if !same_type(ty, other) {
                    return true;
                }
                others = more;
            }
            [] => return true,
        }
    }
    !others.is_empty()
}

/// Whether arguments match dummies.
fn matches(dummies: &[Ty], args: &[Ty]) -> bool
    ensures { result ≡ matches dummies.now args.now }
{
    let mut others = args;
    for ty in dummies {
        match others {
            [other, more @ ..] => {
                if !same_type(ty, other) {
                    return false;
                }
                others = more;
            }
            [] => return false,
        }
    }
    others.is_empty()
}

/// The place of the specific procedure whose dummies the arguments match, or `None` exactly where no
/// specific matches (ISO/IEC 1539-1:2018, 15.5.5.2). Where the specifics are pairwise distinguishable
/// there is no other that matches; else it is the first.
pub fn resolve_generic(specifics: &[Vec<Ty>], args: &[Ty]) -> Option<usize>
    ensures first { result ≡ match_from 0 (map (λ s. s.items) specifics.now) args.now }
    // the one that matches, or none
    ensures only { ArePairwiseDistinguishable (map (λ s. s.items) specifics.now) → Resolves (map (λ s. s.items) specifics.now) args.now result }
{
    first_match(specifics, args)
}

fn first_match(specifics: &[Vec<Ty>], args: &[Ty]) -> Option<usize>
    ensures { result ≡ match_from 0 (map (λ s. s.items) specifics.now) args.now }
{
    for i in 0..specifics.len() {
        if matches(specifics[i].as_slice(), args) {
            return Some(i);
        }
    }
    None
}

/// The same as `resolve_generic`, over lists that are borrowed. It takes no memory.
pub fn resolve_borrowed(specifics: &[&[Ty]], args: &[Ty]) -> Option<usize>
    ensures first { result ≡ match_from 0 (map (λ s. s.now) specifics.now) args.now }
    // the one that matches, or none
    ensures only { ArePairwiseDistinguishable (map (λ s. s.now) specifics.now) → Resolves (map (λ s. s.now) specifics.now) args.now result }
{
    first_borrowed(specifics, args)
}

fn first_borrowed(specifics: &[&[Ty]], args: &[Ty]) -> Option<usize>
    ensures { result ≡ match_from 0 (map (λ s. s.now) specifics.now) args.now }
{
    for i in 0..specifics.len() {
        if matches(specifics[i], args) {
            return Some(i);
        }
    }
    None
}
