//! Assignment of constants.
ghost use Rattle.std.specs.Prelude.{◌≡◌, ◌≤◌, ◌<◌, ◌++◌, ◌-◌, replicate, length, true, IfOk};
ghost use Rattle.type_rules.specs.Values.{scalar_of, is_constant, Gives, Characters};
ghost use Rattle.type_rules.specs.Characters.{in_length};
ghost use Rattle.type_rules.specs.Assignment.{of_length, assigned_scalar};
ghost use Rattle.type_rules.specs.Folds.{Folds};

use crate::answer::{Folded, fitted, no_rule, truth};
use crate::character::{BLANK, LENGTH_LIMIT, text};
use crate::constant::{Const, TypeFault};
use crate::ty::{Elem, Len};
use lf_base::Rule;
use sqlite_items::Items;
use std::alloc::Global;

/// The constant that a scalar of this element type has after the assignment of a constant: an integer
/// in its kind, characters cut or padded with blanks to its length. It answers E401 exactly where the
/// types differ in more than kind and length, E415 exactly where the integer does not fit the kind, and
/// E416 exactly where the length is above 65,535. Want of memory comes for characters alone. It
/// restates ISO/IEC 1539-1:2018, 10.2.1.3.
pub fn assigned_constant(alloc: Global, elem: Elem, constant: &Const) -> Result<Const, TypeFault>
    ensures { Folds result (assigned_scalar elem (scalar_of constant.now)) }
{
    match (elem, constant) {
        (Elem::Integer { kind }, Const::IntConst { value, .. }) => converted(kind, *value),
        (Elem::Logical, Const::LogConst { value }) => truth(*value != 0),
        (Elem::Character { len }, Const::CharConst { bytes }) => of_length(
            alloc,
            len,
            bytes.as_slice(),
        ),
        _ => no_rule(),
    }
}

fn converted(kind: u8, value: i64) -> Folded
    ensures { Folds result (assigned_scalar (Elem.Integer kind) (scalar_of (Const.IntConst 8 value))) }
{
    if kind == 4 || kind == 8 {
        return fitted(kind, Ok(i128::from(value)));
    }
    no_rule()
}

fn of_length(alloc: Global, len: Len, bytes: &[u8]) -> Folded
    ensures { Folds result (of_length len bytes.now) }
{
    match len {
        Len::Fixed { n } => {
            let width = n as usize;
            if width > LENGTH_LIMIT {
                return Err(TypeFault::Rule(Rule::E416));
            }
            if width <= bytes.len() {
                return text(alloc, &bytes[..width]);
            }
            padded(alloc, bytes, width)
        }
        Len::Assumed => text(alloc, bytes),
    }
}

/// The text with blanks at its end.
fn padded(alloc: Global, bytes: &[u8], width: usize) -> Folded
    requires { length bytes.now < width }
    ensures { Folds result (Gives (Characters (bytes.now ++ replicate (width - length bytes.now) 32))) }
{
    let mut all = Vec::from_slice(alloc, bytes)?;
    for i in bytes.len()..width {
        all.push(BLANK)?;
    }
    Ok(Const::CharConst {
        bytes: Items::from_vec(all),
    })
}
