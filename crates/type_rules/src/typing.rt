//! The type of an operation, by the types of its operands.
ghost use Rattle.std.specs.Prelude.{◌≡◌, map, length, Ok, []};
ghost use Rattle.type_rules.specs.Types.{GivesDims, Unifies, typed};
ghost use Rattle.type_rules.specs.Typing.{ranks_apart, some_ranks_apart, some_array, breaks_ranks, apart_from, some_apart, joined, joined_with, dims_of_result, dims_of, elements_of, least_rule, type_of};

use crate::constant::{Op, TypeFault};
use crate::signature::{Judgement, Ranks, judged, ranks_of};
use crate::ty::{Dim, Elem, Ty};
use crate::unifying::{Dims, extents_apart, from_one_each, joined_dims, unify};
use lf_base::Rule;
use sqlite_items::Items;
use std::alloc::Global;

/// The type of an operation on operands of these types. It answers E401 exactly where an operator has
/// no type for them or the code is none, else E404 exactly where arrays of different rank meet or an
/// array stands where only scalars may, else E405 exactly where an intrinsic function has another
/// number of arguments, else E406 exactly where one of them has a wrong type or length, or is a scalar
/// in place of an array, else E412 exactly where two known extents differ. The conversion to a kind is
/// the function `int`. Want of memory comes for arrays alone. It restates ISO/IEC 1539-1:2018, 10.1.9
/// and 16.9.
pub fn type_of(alloc: Global, op: Op, args: &[Ty]) -> Result<Ty, TypeFault>
    ensures { Unifies result (type_of op args.now) }
{
    match (op, args) {
        (Op::Binary(_), [a, b]) => unify(alloc, op, a, b),
        _ => type_of_any(alloc, op, args),
    }
}

fn type_of_any(alloc: Global, op: Op, args: &[Ty]) -> Result<Ty, TypeFault>
    ensures { Unifies result (type_of op args.now) }
{
    let broken = breaks_ranks(ranks_of(op), args);
    match judged(op, args) {
        Judgement::NoType => Err(TypeFault::Rule(Rule::E401)),
        Judgement::Misused(rule) => Err(TypeFault::Rule(if broken { Rule::E404 } else { rule })),
        Judgement::Element(elem) => {
            if broken {
                return Err(TypeFault::Rule(Rule::E404));
            }
            typed(alloc, elem, ranks_of(op), args)
        }
    }
}

fn typed(alloc: Global, elem: Elem, ranks: Ranks, args: &[Ty]) -> Result<Ty, TypeFault>
    ensures { Unifies result (typed elem (dims_of_result ranks (dims_of args.now))) }
{
    Ok(Ty {
        elem,
        dims: dims_of_result(alloc, ranks, args)?,
    })
}

/// The dimensions of the result.
fn dims_of_result(alloc: Global, ranks: Ranks, args: &[Ty]) -> Dims
    ensures { GivesDims result (dims_of_result ranks (dims_of args.now)) }
{
    match ranks {
        Ranks::Elementwise => {
            if some_apart(args) {
                return Err(TypeFault::Rule(Rule::E412));
            }
            joined_all(alloc, args)
        }
        Ranks::Scalars => Ok(Items::new(alloc)),
        Ranks::OneArray => {
            if some_array(args) {
                return Ok(Items::new(alloc));
            }
            Err(TypeFault::Rule(Rule::E406))
        }
    }
}

/// Whether the ranks of the operands are none that the operation may have.
fn breaks_ranks(ranks: Ranks, args: &[Ty]) -> bool
    ensures { result ≡ breaks_ranks ranks (map length (dims_of args.now)) }
{
    match ranks {
        Ranks::Elementwise => some_ranks_apart(args),
        Ranks::Scalars => some_array(args),
        Ranks::OneArray => false,
    }
}

fn some_ranks_apart(args: &[Ty]) -> bool
    ensures { result ≡ some_ranks_apart 0 (map length (dims_of args.now)) }
{
    let mut rank = 0;
    for ty in args {
        let next = ty.dims.len();
        if rank != 0 && next != 0 && rank != next {
            return true;
        }
        rank = if rank < next { next } else { rank };
    }
    false
}

fn some_array(args: &[Ty]) -> bool
    ensures { result ≡ some_array (map length (dims_of args.now)) }
{
    for ty in args {
        if ty.dims.len() != 0 {
            return true;
        }
    }
    false
}

/// Whether two known extents differ.
fn some_apart(args: &[Ty]) -> bool
    ensures { result ≡ some_apart (dims_of args.now) }
{
    for i in 0..args.len() {
        if apart_from(args[i].dims.as_slice(), &args[i + 1..]) {
            return true;
        }
    }
    false
}

fn apart_from(dims: &[Dim], others: &[Ty]) -> bool
    ensures { result ≡ apart_from dims.now (dims_of others.now) }
{
    for ty in others {
        if extents_apart(dims, ty.dims.as_slice()) {
            return true;
        }
    }
    false
}

/// The dimensions of all operands joined.
fn joined_all(alloc: Global, args: &[Ty]) -> Dims
    ensures { GivesDims result (Ok (joined_with [] (dims_of args.now))) }
{
    let mut all = Items::new(alloc);
    for ty in args {
        all = joined(alloc, all.as_slice(), ty.dims.as_slice())?;
    }
    Ok(all)
}

fn joined(alloc: Global, a: &[Dim], b: &[Dim]) -> Dims
    ensures { GivesDims result (Ok (joined a.now b.now)) }
{
    match (a, b) {
        ([], _) => from_one_each(alloc, b),
        (_, []) => from_one_each(alloc, a),
        _ => joined_dims(alloc, a, b),
    }
}
