use crate::queue::Queue;
use ast_nodes::{Designator, Expr};
use lf_base::Name;
use sqlite_items::Items;

/// The greatest depth of an expression's tree.
pub const GREATEST_DEPTH: u32 = 256;

/// A tree and its depth: a node without parts has depth 1, every other node is one deeper than its deepest part. Depth 257 stands
/// for every depth above the limit; the tree is then a stub, which is a designator exactly where the tree that was read is one.
#[derive(Drop)]
pub struct Parsed {
    pub tree: Expr,
    pub depth: u32,
}

/// A designator and its depth as an expression. Depth 257 stands for every depth above the limit; the designator then has no parts.
#[derive(Drop)]
pub struct Reference {
    pub designator: Designator,
    pub depth: u32,
}

/// A mark between words and literals (ISO/IEC 1539-1:2018, 6.2), whichever of its spellings is written.
#[derive(Clone, Copy, Debug, PartialEq, Eq)]
pub enum Mark {
    /// An operator, by its code.
    Operator { code: u8 },
    /// `,`
    Comma,
    /// `:`
    Colon,
    /// `::`
    DoubleColon,
    /// `=`
    Equals,
    /// `=>`
    Arrow,
    /// `%`
    Percent,
}

/// The brackets around a group.
#[derive(Clone, Copy, Debug, PartialEq, Eq)]
pub enum Bracket {
    /// `(` and `)`
    Round,
    /// `[` and `]`, or `(/` and `/)`
    Square,
}

/// What stands behind the upper bound of a triplet.
#[derive(Drop)]
pub enum Stride {
    /// No second colon.
    Absent,
    /// A second colon alone.
    Missing,
    /// A second colon and a stride.
    Given { value: Parsed },
}

/// A part of a group, between its commas.
#[derive(Drop)]
pub enum Part {
    /// `*`
    Star,
    /// An expression.
    Plain {
        value: Parsed,
    },
    /// An implied do.
    Implied {
        value: Parsed,
    },
    /// `lower : upper : step`
    Section {
        lower: Option<Parsed>,
        upper: Option<Parsed>,
        step: Stride,
    },
    /// `name = value`, where no value stands for `*`.
    Keyed {
        name: Name,
        value: Option<Parsed>,
    },
}

/// What a statement is made of. A group has been read to its parts.
#[derive(Drop)]
pub enum Item {
    /// A name or keyword, in lower case.
    Word {
        name: Name,
    },
    /// An integer literal: its digits, and its suffix 4 or 8, or 0 for none.
    Number {
        digits: Items<u8>,
        suffix: u8,
    },
    /// A logical literal: 0 or 1.
    Truth {
        value: u8,
    },
    /// A character literal: its value.
    Text {
        bytes: Items<u8>,
    },
    /// A mark.
    Mark {
        mark: Mark,
    },
    /// A group in brackets.
    Group {
        bracket: Bracket,
        parts: Queue<Part>,
    },
}
