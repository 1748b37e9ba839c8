//! Where a statement stands in the source.

/// The name of the source and the line that a trap tells.
#[derive(Clone, Copy)]
pub(crate) struct Located<'a> {
    pub source: &'a [u8],
    pub line: u32,
}
