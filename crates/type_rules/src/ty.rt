use lf_base::SymId;
use sqlite_items::Items;

/// The length of characters.
#[derive(Clone, Copy, Debug, PartialEq, Eq)]
pub enum Len {
    /// The length is known: this many bytes.
    Fixed { n: u32 },
    /// The length is known at run alone.
    Assumed,
}

/// The type of one element, with its type parameters (ISO/IEC 1539-1:2018, 7.4 and 7.5).
#[derive(Clone, Copy, Debug, PartialEq, Eq)]
pub enum Elem {
    /// An integer of kind 4 or 8, which is its size in bytes.
    Integer { kind: u8 },
    Logical,
    Character { len: Len },
    /// A derived type, by the symbol of its definition.
    Derived { sym: SymId },
}

/// A dimension of an array (ISO/IEC 1539-1:2018, 8.5.8).
#[derive(Clone, Copy, Debug, PartialEq, Eq)]
pub enum Dim {
    /// The lower bound, and how many elements there are along the dimension.
    Fixed { lower: i64, extent: u32 },
    /// The extent is known at run alone.
    Assumed,
}

/// A type with its rank and shape. A scalar has no dimensions.
#[derive(Debug, Drop)]
pub struct Ty {
    pub elem: Elem,
    pub dims: Items<Dim>,
}
