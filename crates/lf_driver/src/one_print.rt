//! The one program that is built: a main program whose only statement prints one value.

pub(crate) mod built;
pub(crate) mod lower;
pub(crate) mod unit;
