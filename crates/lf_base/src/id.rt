/// The number of a table in an arena of symbols.
#[derive(Clone, Copy, Debug, PartialEq, Eq, Hash)]
pub struct TableId(pub u32);

/// The number of a symbol in an arena of symbols.
#[derive(Clone, Copy, Debug, PartialEq, Eq, Hash)]
pub struct SymId(pub u32);

/// The number of an expression. It is wide enough that no count of nodes is a refusal.
#[derive(Clone, Copy, Debug, PartialEq, Eq, Hash)]
pub struct ExprId(pub u64);

/// The number of a statement. It is wide enough that no count of nodes is a refusal.
#[derive(Clone, Copy, Debug, PartialEq, Eq, Hash)]
pub struct StmtId(pub u64);
