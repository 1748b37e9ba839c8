//! The nodes of the typed tree: symbols, expressions and statements, which name their parts by number.
ghost use Rattle.std.specs.Prelude.{◌≡◌, is_some};
ghost use Rattle.asr_nodes.specs.Splices.{line_of};
ghost use Rattle.asr_nodes.specs.Symbols.{is_unit, table_in, with_table};

use crate::ids::ExprIds;
use lf_base::{ExprId, Name, StmtId, SymId, TableId};
use sqlite_items::Items;
use type_rules::{Const, Elem, Ty};

/// What a name stands for (ISO/IEC 1539-1:2018, 19.3). The module `code` names the codes.
#[derive(Drop)]
pub enum Symbol {
    /// A main program (14.1), with the name of its source file, the names of the modules that it uses in the order
    /// of their first use, and its own table.
    Program {
        source: Items<u8>,
        deps: Items<Name>,
        table: TableId,
        body: Items<StmtId>,
    },
    /// A module (14.2).
    Module {
        source: Items<u8>,
        deps: Items<Name>,
        table: TableId,
    },
    /// A function or a subroutine (15.6.2), which has no result. `simple` is 1 where a reference may be replaced by
    /// the value of its one assignment.
    Function {
        access: u8,
        dummies: Items<SymId>,
        result: Option<SymId>,
        simple: u8,
        table: TableId,
        body: Items<StmtId>,
    },
    /// A variable, a named constant or a component (3.154, 8.5.13, 7.5.4). `init` is empty, one constant, which for
    /// an array is that of each element, or the constants of all elements.
    Variable {
        access: u8,
        ty: Ty,
        storage: u8,
        intent: u8,
        init: Items<ExprId>,
    },
    /// A derived type (7.5), whose components stand in its own table.
    Struct {
        access: u8,
        table: TableId,
    },
    /// A generic name with its specific procedures (15.4.3.4).
    Generic {
        access: u8,
        specifics: Items<SymId>,
    },
    /// An entity of a module, by use association (14.2.2): the module's name, and the entity's name there.
    External {
        access: u8,
        module: Name,
        original: Name,
    },
}

/// One part of an array section (9.5.3.3).
#[derive(Drop)]
pub enum SectionPart {
    /// One subscript.
    At {
        index: ExprId,
    },
    /// A triplet, each of whose parts may be missing.
    Triple {
        lower: Option<ExprId>,
        upper: Option<ExprId>,
        step: Option<ExprId>,
    },
}

/// One item of an array constructor (7.8).
#[derive(Drop)]
pub enum ArrayItem {
    Value {
        value: ExprId,
    },
    /// An implied do, whose variable is the temporary of this number, with constant bounds and step.
    Loop {
        number: u64,
        lower: i64,
        upper: i64,
        step: i64,
        items: Items<ArrayItem>,
    },
}

/// One expression (10.1). The last ones are made by passes alone.
#[derive(Drop)]
pub enum Expr {
    IntConst {
        kind: u8,
        value: i64,
    },
    LogConst {
        value: u8,
    },
    CharConst {
        bytes: Items<u8>,
    },
    Var {
        symbol: SymId,
    },
    /// An element of an array (9.5.3.1).
    Item {
        base: ExprId,
        subscripts: ExprIds,
    },
    /// An array section (9.5.3.3).
    Section {
        base: ExprId,
        parts: Items<SectionPart>,
    },
    /// A component (9.4.2).
    Field {
        base: ExprId,
        component: Name,
    },
    /// A substring (9.4.1).
    Substring {
        base: ExprId,
        lower: Option<ExprId>,
        upper: Option<ExprId>,
    },
    Unary {
        operator: u8,
        operand: ExprId,
    },
    Binary {
        operator: u8,
        left: ExprId,
        right: ExprId,
    },
    /// The integer of this kind that has the operand's value.
    Convert {
        kind: u8,
        operand: ExprId,
    },
    /// An expression in parentheses.
    Paren {
        inner: ExprId,
    },
    /// A function reference (15.5.1).
    Invoke {
        callee: SymId,
        arguments: ExprIds,
    },
    /// A reference of an intrinsic function (16.9), by its code.
    Intrinsic {
        code: u8,
        arguments: ExprIds,
    },
    /// A structure constructor (7.5.10).
    Construct {
        definition: SymId,
        arguments: ExprIds,
    },
    /// An array constructor (7.8).
    Array {
        items: Items<ArrayItem>,
    },
    /// A temporary of the procedure.
    Temp {
        number: u64,
    },
    /// The extent of an array along a dimension, of kind 4 (16.9.179).
    Extent {
        symbol: SymId,
        dimension: u32,
    },
    /// A value behind statements that are executed first.
    Seq {
        stmts: Items<StmtId>,
        value: ExprId,
    },
    /// One element of an array temporary, by its place from 1.
    TempAt {
        number: u64,
        place: ExprId,
    },
    /// How many elements a triplet chooses between two bounds.
    SecLen {
        lower: ExprId,
        upper: ExprId,
        step: ExprId,
        low: ExprId,
        high: ExprId,
    },
    /// An array temporary as a whole.
    Arr {
        number: u64,
        element: Elem,
        extents: ExprIds,
    },
    /// A value whose traps have this source and line as their place.
    At {
        source: Items<u8>,
        line: u32,
        value: ExprId,
    },
}

/// The values of one selector of a case (11.1.9.1).
#[derive(Drop)]
pub enum CaseRange {
    One { value: Const },
    From { lower: Const },
    To { upper: Const },
    Between { lower: Const, upper: Const },
}

/// One block of a `select case` with its selector (11.1.9.1).
#[derive(Drop)]
pub struct Case {
    pub ranges: Items<CaseRange>,
    pub body: Items<StmtId>,
}

/// One item of an output list (12.6.3).
#[derive(Drop)]
pub enum PrintItem {
    Value {
        value: ExprId,
    },
    /// An implied do.
    Loop {
        variable: ExprId,
        lower: ExprId,
        upper: ExprId,
        step: ExprId,
        items: Items<PrintItem>,
    },
}

/// One executable statement or construct (R514), with its line. The last ones are made by passes alone.
#[derive(Drop)]
pub enum Stmt {
    Assign {
        line: u32,
        target: ExprId,
        value: ExprId,
    },
    If {
        line: u32,
        condition: ExprId,
        then_block: Items<StmtId>,
        else_block: Items<StmtId>,
    },
    /// A counted loop, by its number in the procedure (11.1.7.4).
    Do {
        line: u32,
        id: u64,
        variable: ExprId,
        lower: ExprId,
        upper: ExprId,
        step: ExprId,
        body: Items<StmtId>,
    },
    While {
        line: u32,
        id: u64,
        condition: ExprId,
        body: Items<StmtId>,
    },
    /// Leaves the loop of this number (11.1.12).
    Exit {
        line: u32,
        id: u64,
    },
    /// Goes on with the loop of this number (11.1.7.4.4).
    Cycle {
        line: u32,
        id: u64,
    },
    Select {
        line: u32,
        value: ExprId,
        cases: Items<Case>,
        default: Items<StmtId>,
    },
    Call {
        line: u32,
        callee: SymId,
        arguments: ExprIds,
    },
    /// Output of a record, or of a part of one where `advance` is 1 (12.6.4).
    Print {
        line: u32,
        form: u8,
        advance: u8,
        items: Items<PrintItem>,
    },
    Read {
        line: u32,
        target: ExprId,
        iostat: Option<ExprId>,
    },
    /// `stop`, or `error stop` where `error` is 1 (11.4).
    Stop {
        line: u32,
        error: u8,
        code: ExprId,
    },
    Return {
        line: u32,
    },
    /// Statements one behind another.
    Block {
        line: u32,
        stmts: Items<StmtId>,
    },
    /// Gives a temporary its value.
    Let {
        line: u32,
        number: u64,
        value: ExprId,
    },
    /// Makes an array temporary.
    Room {
        line: u32,
        number: u64,
        element: Elem,
        length: Option<ExprId>,
        extents: ExprIds,
    },
    /// Counts a temporary from 1 to the bound.
    Count {
        line: u32,
        number: u64,
        bound: ExprId,
        body: Items<StmtId>,
    },
    /// Asks that two extents are the same.
    Same {
        line: u32,
        left: ExprId,
        right: ExprId,
    },
    /// Asks that the subscripts of a designator are within bounds.
    Probe {
        line: u32,
        designator: ExprId,
    },
    /// Begins a list-directed record of so many items.
    Begin {
        line: u32,
        number: u64,
    },
    /// Puts a value into the record.
    Put {
        line: u32,
        number: u64,
        value: ExprId,
    },
    /// Ends the record.
    End {
        line: u32,
    },
}

impl Symbol {
    /// Whether it names a table of its own: a unit, a function or a subroutine and a derived type do.
    pub(crate) fn owns_table(&self) -> bool
        ensures { result ≡ is_some (table_in self.now) }
    {
        match self {
            Symbol::Program { .. }
            | Symbol::Module { .. }
            | Symbol::Function { .. }
            | Symbol::Struct { .. } => true,
            Symbol::Variable { .. } | Symbol::Generic { .. } | Symbol::External { .. } => false,
        }
    }

    /// Whether it is a main program or a module.
    pub(crate) fn is_unit(&self) -> bool
        ensures { result ≡ is_unit self.now }
    {
        matches!(self, Symbol::Program { .. } | Symbol::Module { .. })
    }

    /// The same with another table of its own, where it has one.
    pub(crate) fn with_table(self, table: TableId) -> Symbol
        ensures { result ≡ with_table table self }
    {
        match self {
            Symbol::Program {
                source,
                deps,
                table: _,
                body,
            } => Symbol::Program {
                source,
                deps,
                table,
                body,
            },
            Symbol::Module {
                source,
                deps,
                table: _,
            } => Symbol::Module {
                source,
                deps,
                table,
            },
            Symbol::Function {
                access,
                dummies,
                result,
                simple,
                table: _,
                body,
            } => Symbol::Function {
                access,
                dummies,
                result,
                simple,
                table,
                body,
            },
            Symbol::Struct { access, table: _ } => Symbol::Struct { access, table },
            other => other,
        }
    }
}

impl Stmt {
    /// The line of the statement.
    pub fn line(&self) -> u32
        ensures { result ≡ line_of self.now }
    {
        match self {
            Stmt::Assign { line, .. }
            | Stmt::If { line, .. }
            | Stmt::Do { line, .. }
            | Stmt::While { line, .. }
            | Stmt::Exit { line, .. }
            | Stmt::Cycle { line, .. }
            | Stmt::Select { line, .. }
            | Stmt::Call { line, .. }
            | Stmt::Print { line, .. }
            | Stmt::Read { line, .. }
            | Stmt::Stop { line, .. }
            | Stmt::Return { line }
            | Stmt::Block { line, .. }
            | Stmt::Let { line, .. }
            | Stmt::Room { line, .. }
            | Stmt::Count { line, .. }
            | Stmt::Same { line, .. }
            | Stmt::Probe { line, .. }
            | Stmt::Begin { line, .. }
            | Stmt::Put { line, .. }
            | Stmt::End { line } => *line,
        }
    }
}
