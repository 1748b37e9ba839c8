//! The trees that nodes stand for, without numbers: a symbol is named by its path, the names of the entities in which
//! it stands from the unit inwards and its own last. Contracts speak of these trees, and no code makes one.
use crate::node::CaseRange;
use lf_base::Name;
use sqlite_items::{Boxed, Items};
use type_rules::{Dim, Len};

/// The type of one element.
pub enum ElemTree {
    Integer { kind: u8 },
    Logical,
    Character { len: Len },
    Derived { symbol: Items<Name> },
}

/// A type with its rank and shape.
pub struct TypeTree {
    pub elem: ElemTree,
    pub dims: Items<Dim>,
}

/// An expression (ISO/IEC 1539-1:2018, 10.1), as the node of the same name.
#[cycle(tree)]
pub enum ExprTree {
    IntConst {
        kind: u8,
        value: i64,
    },
    LogConst {
        value: u8,
    },
    CharConst {
        bytes: Items<u8>,
    },
    Var {
        symbol: Items<Name>,
    },
    Item {
        base: Boxed<ExprTree>,
        subscripts: Items<ExprTree>,
    },
    Section {
        base: Boxed<ExprTree>,
        parts: Items<SectionPartTree>,
    },
    Field {
        base: Boxed<ExprTree>,
        component: Name,
    },
    Substring {
        base: Boxed<ExprTree>,
        lower: Option<Boxed<ExprTree>>,
        upper: Option<Boxed<ExprTree>>,
    },
    Unary {
        operator: u8,
        operand: Boxed<ExprTree>,
    },
    Binary {
        operator: u8,
        left: Boxed<ExprTree>,
        right: Boxed<ExprTree>,
    },
    Convert {
        kind: u8,
        operand: Boxed<ExprTree>,
    },
    Paren {
        inner: Boxed<ExprTree>,
    },
    Invoke {
        callee: Items<Name>,
        arguments: Items<ExprTree>,
    },
    Intrinsic {
        code: u8,
        arguments: Items<ExprTree>,
    },
    Construct {
        definition: Items<Name>,
        arguments: Items<ExprTree>,
    },
    Array {
        items: Items<ArrayItemTree>,
    },
    Temp {
        number: u64,
    },
    Extent {
        symbol: Items<Name>,
        dimension: u32,
    },
    Seq {
        stmts: Items<StmtTree>,
        value: Boxed<ExprTree>,
    },
    TempAt {
        number: u64,
        place: Boxed<ExprTree>,
    },
    SecLen {
        lower: Boxed<ExprTree>,
        upper: Boxed<ExprTree>,
        step: Boxed<ExprTree>,
        low: Boxed<ExprTree>,
        high: Boxed<ExprTree>,
    },
    Arr {
        number: u64,
        element: ElemTree,
        extents: Items<ExprTree>,
    },
    At {
        source: Items<u8>,
        line: u32,
        value: Boxed<ExprTree>,
    },
}

/// One part of an array section (9.5.3.3).
#[cycle(tree)]
pub enum SectionPartTree {
    At {
        index: Boxed<ExprTree>,
    },
    Triple {
        lower: Option<Boxed<ExprTree>>,
        upper: Option<Boxed<ExprTree>>,
        step: Option<Boxed<ExprTree>>,
    },
}

/// One item of an array constructor (7.8).
#[cycle(tree)]
pub enum ArrayItemTree {
    Value {
        value: Boxed<ExprTree>,
    },
    Loop {
        number: u64,
        lower: i64,
        upper: i64,
        step: i64,
        items: Items<ArrayItemTree>,
    },
}

/// One block of a `select case` with its selector (11.1.9.1), whose values hold no numbers.
#[cycle(tree)]
pub struct CaseTree {
    pub ranges: Items<CaseRange>,
    pub body: Items<StmtTree>,
}

/// One item of an output list (12.6.3).
#[cycle(tree)]
pub enum PrintItemTree {
    Value {
        value: Boxed<ExprTree>,
    },
    Loop {
        variable: Boxed<ExprTree>,
        lower: Boxed<ExprTree>,
        upper: Boxed<ExprTree>,
        step: Boxed<ExprTree>,
        items: Items<PrintItemTree>,
    },
}

/// An executable statement or construct (R514), as the node of the same name.
#[cycle(tree)]
pub enum StmtTree {
    Assign {
        line: u32,
        target: Boxed<ExprTree>,
        value: Boxed<ExprTree>,
    },
    If {
        line: u32,
        condition: Boxed<ExprTree>,
        then_block: Items<StmtTree>,
        else_block: Items<StmtTree>,
    },
    Do {
        line: u32,
        id: u64,
        variable: Boxed<ExprTree>,
        lower: Boxed<ExprTree>,
        upper: Boxed<ExprTree>,
        step: Boxed<ExprTree>,
        body: Items<StmtTree>,
    },
    While {
        line: u32,
        id: u64,
        condition: Boxed<ExprTree>,
        body: Items<StmtTree>,
    },
    Exit {
        line: u32,
        id: u64,
    },
    Cycle {
        line: u32,
        id: u64,
    },
    Select {
        line: u32,
        value: Boxed<ExprTree>,
        cases: Items<CaseTree>,
        default: Items<StmtTree>,
    },
    Call {
        line: u32,
        callee: Items<Name>,
        arguments: Items<ExprTree>,
    },
    Print {
        line: u32,
        form: u8,
        advance: u8,
        items: Items<PrintItemTree>,
    },
    Read {
        line: u32,
        target: Boxed<ExprTree>,
        iostat: Option<Boxed<ExprTree>>,
    },
    Stop {
        line: u32,
        error: u8,
        code: Boxed<ExprTree>,
    },
    Return {
        line: u32,
    },
    Block {
        line: u32,
        stmts: Items<StmtTree>,
    },
    Let {
        line: u32,
        number: u64,
        value: Boxed<ExprTree>,
    },
    Room {
        line: u32,
        number: u64,
        element: ElemTree,
        length: Option<Boxed<ExprTree>>,
        extents: Items<ExprTree>,
    },
    Count {
        line: u32,
        number: u64,
        bound: Boxed<ExprTree>,
        body: Items<StmtTree>,
    },
    Same {
        line: u32,
        left: Boxed<ExprTree>,
        right: Boxed<ExprTree>,
    },
    Probe {
        line: u32,
        designator: Boxed<ExprTree>,
    },
    Begin {
        line: u32,
        number: u64,
    },
    Put {
        line: u32,
        number: u64,
        value: Boxed<ExprTree>,
    },
    End {
        line: u32,
    },
}

/// What a name stands for (19.3), as the node of the same name; a scope of its own is the list of its symbols.
pub enum SymbolTree {
    Function {
        name: Name,
        access: u8,
        dummies: Items<Items<Name>>,
        result: Option<Items<Name>>,
        simple: u8,
        symbols: Items<SymbolTree>,
        body: Items<StmtTree>,
    },
    Variable {
        name: Name,
        access: u8,
        ty: TypeTree,
        storage: u8,
        intent: u8,
        init: Items<ExprTree>,
    },
    Struct {
        name: Name,
        access: u8,
        symbols: Items<SymbolTree>,
    },
    Generic {
        name: Name,
        access: u8,
        specifics: Items<Items<Name>>,
    },
    External {
        name: Name,
        access: u8,
        module: Name,
        original: Name,
    },
}

/// A main program or a module (14.1, 14.2).
pub enum UnitTree {
    Program {
        name: Name,
        source: Items<u8>,
        deps: Items<Name>,
        symbols: Items<SymbolTree>,
        body: Items<StmtTree>,
    },
    Module {
        name: Name,
        source: Items<u8>,
        deps: Items<Name>,
        symbols: Items<SymbolTree>,
    },
}
