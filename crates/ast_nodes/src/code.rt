//! The codes that numbers of the tree stand for. Operators have those of `lf_base::operator`, and a truth
//! value is 0 or 1.

/// `public`, of a type definition.
pub const PUBLIC: u8 = 0;
/// `private`, of a type definition.
pub const PRIVATE: u8 = 1;
/// The access of a type definition that does not say it.
pub const ACCESS_NOT_SAID: u8 = 2;

/// `intent(in)`
pub const INTENT_IN: u8 = 1;
/// `intent(out)`
pub const INTENT_OUT: u8 = 2;
/// `intent(inout)`
pub const INTENT_INOUT: u8 = 3;

/// The format `*`.
pub const FORMAT_LIST: u8 = 0;
/// The format `'(A)'`.
pub const FORMAT_CHARACTER: u8 = 1;
/// The format `'(I0)'`.
pub const FORMAT_INTEGER: u8 = 2;
