ghost use Rattle.std.specs.Prelude.{◌≡◌};
ghost use Rattle.type_rules.specs.declared.constant.TypeFault.TheVariants as fault;

use lf_base::Rule;
use sqlite_items::Items;
use std::alloc::{AllocError, AllocFailed};

/// A constant of a scalar type.
#[derive(Debug, Drop)]
pub enum Const {
    /// An integer of kind 4 or 8.
    IntConst { kind: u8, value: i64 },
    /// A logical: 0 is false and 1 is true.
    LogConst { value: u8 },
    /// A character value, by its bytes.
    CharConst { bytes: Items<u8> },
}

/// An operation, by its code. The module `code` names the codes.
#[derive(Clone, Copy, Debug, PartialEq, Eq)]
pub enum Op {
    Unary(u8),
    Binary(u8),
    Intrinsic(u8),
    /// The conversion of an integer to this kind.
    Convert(u8),
}

/// Why an operation has no result type, or no constant value.
#[derive(Clone, Copy, Debug, PartialEq, Eq)]
pub enum TypeFault {
    Rule(Rule),
    Memory,
}

impl From<AllocError> for TypeFault {
    ghost from_gives = { λ _ given. given ≡ fault.Memory };

    fn from(_refused: AllocError) -> TypeFault {
        TypeFault::Memory
    }
}

impl<T: Drop> From<AllocFailed<T>> for TypeFault {
    ghost from_gives = { λ _ given. given ≡ fault.Memory };

    fn from(_refused: AllocFailed<T>) -> TypeFault {
        TypeFault::Memory
    }
}
