/// What a token is, by the first byte of its spelling.
#[derive(Clone, Copy, Debug, PartialEq, Eq)]
pub enum Kind {
    /// A name (ISO/IEC 1539-1:2018, R603): it begins with a letter.
    Word,
    /// An integer literal (R708), with its kind: it begins with a digit.
    Number,
    /// A character constant (R724), with its delimiters: it begins with one.
    Text,
    /// Every other token.
    Mark,
}

/// A token (ISO/IEC 1539-1:2018, 6.2). It lies at the bytes `from..to` of the source: `from` is its first
/// byte, and `to` the byte behind its last one. The bytes of a continuation may lie between them.
#[derive(Clone, Copy, Debug, PartialEq, Eq)]
pub struct Token {
    pub kind: Kind,
    pub from: u32,
    pub to: u32,
}

/// A statement (ISO/IEC 1539-1:2018, 6.3.2): the line on which it begins, counted from 1, and its tokens in
/// order.
#[derive(Debug, Drop)]
pub struct Stmt {
    pub line: u32,
    pub tokens: Vec<Token>,
}
