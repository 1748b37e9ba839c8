//! The types of scalars and how operations on them are done in C.

use c_nodes::CBinary;

/// The type of a scalar (ISO/IEC 1539-1:2018, 7.4.3.1 and 7.4.5).
#[derive(Clone, Copy, Debug, PartialEq, Eq)]
pub enum ScalarType {
    /// An integer of kind 4.
    Integer4,
    /// An integer of kind 8.
    Integer8,
    Logical,
}

/// A value that was computed, by its number and its type.
#[derive(Clone, Copy, Debug, PartialEq, Eq)]
pub struct Value {
    pub number: u64,
    pub ty: ScalarType,
}

/// A function of the prelude that computes a value.
#[derive(Clone, Copy, Debug, PartialEq, Eq)]
pub enum Helper {
    Add,
    Subtract,
    Multiply,
    Divide,
    Power,
    /// `mod`
    Remainder,
    Modulo,
    Least,
    Greatest,
    Sign,
    /// Asks that a value fits kind 4.
    Fit,
    /// How many turns a counted loop has.
    Count,
}

/// How an operation of two operands is done in C.
#[derive(Clone, Copy, Debug, PartialEq, Eq)]
pub enum Manner {
    /// By a function of the prelude.
    Helped(Helper),
    /// By an operator of C.
    Plain(CBinary),
    /// By an operator of C, with the right operand in front.
    Swapped(CBinary),
    /// The right operand is computed where the left one is true.
    WhereTrue,
    /// The right operand is computed where the left one is false.
    WhereFalse,
    /// It has no C yet.
    Unbuilt,
}
