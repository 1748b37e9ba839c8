//! Integer literals.
ghost use Rattle.std.specs.Prelude.{◌≡◌, pos};
ghost use Rattle.type_rules.specs.Values.{greatest, is_in_kind, is_kind};
ghost use Rattle.fortran_semantics.specs.Constants.{number_of, literal_kind, kind_written};
ghost use Rattle.ast_to_asr.specs.Facts.{literal_told};

use crate::facts::Facts;
use crate::judge::operation::{DEFAULT_KIND, LONG_KIND};
use crate::names::ScalarType;
use crate::number::number;
use lf_base::Rule;

/// What stands for no suffix.
const NO_SUFFIX: u8 = 0;

/// The kind of a literal by its suffix (ISO/IEC 1539-1:2018, 7.4.3.1).
pub(crate) fn literal_kind(suffix: u8) -> u8
    ensures { result ≡ literal_kind suffix }
{
    if suffix == NO_SUFFIX {
        DEFAULT_KIND
    } else {
        suffix
    }
}

/// The kind that a literal writes where it stands as the kind of `int`: the literal 4 or 8 without a suffix.
pub(crate) fn kind_written(digits: &[u8], suffix: u8) -> Option<u8>
    ensures { result ≡ kind_written digits.now suffix }
{
    if suffix != NO_SUFFIX {
        None
    } else if digits == b"4".as_slice() {
        Some(DEFAULT_KIND)
    } else if digits == b"8".as_slice() {
        Some(LONG_KIND)
    } else {
        None
    }
}

pub(crate) fn is_kind(kind: u8) -> bool
    ensures { result ≡ is_kind kind }
{
    kind == DEFAULT_KIND || kind == LONG_KIND
}

/// The greatest integer of a kind.
fn greatest(kind: u8) -> u64
    ensures { pos result ≡ greatest kind }
{
    if kind == DEFAULT_KIND {
        i32::MAX as u64
    } else {
        i64::MAX as u64
    }
}

/// Whether the number that digits are is one of a kind.
#[tactic(auto, using(crate::proofs::Numbers::kinds))]
fn fits(kind: u8, digits: &[u8]) -> bool
    ensures { result ≡ is_in_kind kind (pos (number_of digits.now)) }
{
    match number(digits) {
        None => false,
        Some(number) => number <= greatest(kind),
    }
}

/// An integer literal (ISO/IEC 1539-1:2018, 7.4.3.1), by its digits and its suffix: E403 where it does not fit its kind.
pub(super) fn literal(digits: &[u8], suffix: u8) -> Result<Facts, Rule>
    ensures { result ≡ literal_told digits.now suffix }
{
    let kind = literal_kind(suffix);
    if is_kind(kind) && fits(kind, digits) {
        Ok(Facts {
            ty: ScalarType::Integer { kind },
            writes: kind_written(digits, suffix),
            variable: None,
            is_constant: true,
        })
    } else {
        Err(Rule::E403)
    }
}
