//! The codes of the typed tree: the numbers that fields hold, and the tags of nodes, which module files hold.
//! Operators have the codes of `lf_base::operator`, and intrinsic functions those of `type_rules::code`.
ghost use Rattle.std.specs.Prelude.{◌≡◌};
ghost use Rattle.asr_nodes.specs.Tags.{expr_tag, stmt_tag};

use crate::node::{Expr, Stmt};

/// A truth value that is false.
pub const FALSE: u8 = 0;
/// A truth value that is true.
pub const TRUE: u8 = 1;

/// `public` (ISO/IEC 1539-1:2018, 8.5.2), and every symbol that stands in no module's own table.
pub const PUBLIC: u8 = 0;
/// `private`
pub const PRIVATE: u8 = 1;

/// A variable of one execution of its procedure.
pub const LOCAL: u8 = 0;
/// A variable that keeps its value (8.5.16).
pub const SAVED: u8 = 1;
/// A dummy argument (15.5.2).
pub const DUMMY: u8 = 2;
/// The result of a function (15.6.2.2).
pub const RESULT: u8 = 3;
/// A component of a derived type (7.5.4).
pub const COMPONENT: u8 = 4;
/// A named constant (8.5.13).
pub const PARAMETER: u8 = 5;

/// No intent is said (8.5.10).
pub const INTENT_NOT_SAID: u8 = 0;
/// `intent(in)`
pub const INTENT_IN: u8 = 1;
/// `intent(out)`
pub const INTENT_OUT: u8 = 2;
/// `intent(inout)`
pub const INTENT_INOUT: u8 = 3;

/// The format `*` (13.10).
pub const FORMAT_LIST: u8 = 0;
/// The format `'(A)'`.
pub const FORMAT_CHARACTER: u8 = 1;
/// The format `'(I0)'`.
pub const FORMAT_INTEGER: u8 = 2;

// The tags of symbols. A unit has none.
pub const SYMBOL_FUNCTION: u8 = 1;

pub const SYMBOL_VARIABLE: u8 = 2;

pub const SYMBOL_STRUCT: u8 = 3;

pub const SYMBOL_GENERIC: u8 = 4;

pub const SYMBOL_EXTERNAL: u8 = 5;

// The tags of element types, lengths and dimensions.
pub const ELEM_INTEGER: u8 = 1;

pub const ELEM_LOGICAL: u8 = 2;

pub const ELEM_CHARACTER: u8 = 3;

pub const ELEM_DERIVED: u8 = 4;

pub const LEN_FIXED: u8 = 1;

pub const LEN_ASSUMED: u8 = 2;

pub const DIM_FIXED: u8 = 1;

pub const DIM_ASSUMED: u8 = 2;

// The tags of expressions, of the parts of sections and of the items of constructors.
pub const EXPR_INT_CONST: u8 = 1;

pub const EXPR_LOG_CONST: u8 = 2;

pub const EXPR_CHAR_CONST: u8 = 3;

pub const EXPR_VAR: u8 = 4;

pub const EXPR_ITEM: u8 = 5;

pub const EXPR_SECTION: u8 = 6;

pub const EXPR_FIELD: u8 = 7;

pub const EXPR_SUBSTRING: u8 = 8;

pub const EXPR_UNARY: u8 = 9;

pub const EXPR_BINARY: u8 = 10;

pub const EXPR_CONVERT: u8 = 11;

pub const EXPR_PAREN: u8 = 12;

pub const EXPR_INVOKE: u8 = 13;

pub const EXPR_INTRINSIC: u8 = 14;

pub const EXPR_CONSTRUCT: u8 = 15;

pub const EXPR_ARRAY: u8 = 16;

pub const EXPR_TEMP: u8 = 17;

pub const EXPR_SEQ: u8 = 18;

pub const EXPR_TEMP_AT: u8 = 19;

pub const EXPR_EXTENT: u8 = 20;

pub const EXPR_SEC_LEN: u8 = 21;

pub const EXPR_ARR: u8 = 22;

pub const EXPR_AT: u8 = 23;

pub const PART_AT: u8 = 1;

pub const PART_TRIPLE: u8 = 2;

pub const ITEM_VALUE: u8 = 1;

pub const ITEM_LOOP: u8 = 2;

// The tags of statements and of the values of cases. Items of output lists have those of constructors.
pub const STMT_ASSIGN: u8 = 1;

pub const STMT_IF: u8 = 2;

pub const STMT_DO: u8 = 3;

pub const STMT_WHILE: u8 = 4;

pub const STMT_EXIT: u8 = 5;

pub const STMT_CYCLE: u8 = 6;

pub const STMT_SELECT: u8 = 7;

pub const STMT_CALL: u8 = 8;

pub const STMT_PRINT: u8 = 9;

pub const STMT_READ: u8 = 10;

pub const STMT_STOP: u8 = 11;

pub const STMT_RETURN: u8 = 12;

pub const STMT_BLOCK: u8 = 13;

pub const STMT_LET: u8 = 14;

pub const STMT_ROOM: u8 = 15;

pub const STMT_COUNT: u8 = 16;

pub const STMT_SAME: u8 = 17;

pub const STMT_PROBE: u8 = 18;

pub const STMT_BEGIN: u8 = 19;

pub const STMT_PUT: u8 = 20;

pub const STMT_END: u8 = 21;

pub const RANGE_ONE: u8 = 1;

pub const RANGE_FROM: u8 = 2;

pub const RANGE_TO: u8 = 3;

pub const RANGE_BETWEEN: u8 = 4;

impl Expr {
    /// The tag of the node.
    pub fn tag(&self) -> u8
        ensures { result ≡ expr_tag self.now }
    {
        match self {
            Expr::IntConst { .. } => EXPR_INT_CONST,
            Expr::LogConst { .. } => EXPR_LOG_CONST,
            Expr::CharConst { .. } => EXPR_CHAR_CONST,
            Expr::Var { .. } => EXPR_VAR,
            Expr::Item { .. } => EXPR_ITEM,
            Expr::Section { .. } => EXPR_SECTION,
            Expr::Field { .. } => EXPR_FIELD,
            Expr::Substring { .. } => EXPR_SUBSTRING,
            Expr::Unary { .. } => EXPR_UNARY,
            Expr::Binary { .. } => EXPR_BINARY,
            Expr::Convert { .. } => EXPR_CONVERT,
            Expr::Paren { .. } => EXPR_PAREN,
            Expr::Invoke { .. } => EXPR_INVOKE,
            Expr::Intrinsic { .. } => EXPR_INTRINSIC,
            Expr::Construct { .. } => EXPR_CONSTRUCT,
            Expr::Array { .. } => EXPR_ARRAY,
            Expr::Temp { .. } => EXPR_TEMP,
            Expr::Seq { .. } => EXPR_SEQ,
            Expr::TempAt { .. } => EXPR_TEMP_AT,
            Expr::Extent { .. } => EXPR_EXTENT,
            Expr::SecLen { .. } => EXPR_SEC_LEN,
            Expr::Arr { .. } => EXPR_ARR,
            Expr::At { .. } => EXPR_AT,
        }
    }
}

impl Stmt {
    /// The tag of the node.
    pub fn tag(&self) -> u8
        ensures { result ≡ stmt_tag self.now }
    {
        match self {
            Stmt::Assign { .. } => STMT_ASSIGN,
            Stmt::If { .. } => STMT_IF,
            Stmt::Do { .. } => STMT_DO,
            Stmt::While { .. } => STMT_WHILE,
            Stmt::Exit { .. } => STMT_EXIT,
            Stmt::Cycle { .. } => STMT_CYCLE,
            Stmt::Select { .. } => STMT_SELECT,
            Stmt::Call { .. } => STMT_CALL,
            Stmt::Print { .. } => STMT_PRINT,
            Stmt::Read { .. } => STMT_READ,
            Stmt::Stop { .. } => STMT_STOP,
            Stmt::Return { .. } => STMT_RETURN,
            Stmt::Block { .. } => STMT_BLOCK,
            Stmt::Let { .. } => STMT_LET,
            Stmt::Room { .. } => STMT_ROOM,
            Stmt::Count { .. } => STMT_COUNT,
            Stmt::Same { .. } => STMT_SAME,
            Stmt::Probe { .. } => STMT_PROBE,
            Stmt::Begin { .. } => STMT_BEGIN,
            Stmt::Put { .. } => STMT_PUT,
            Stmt::End { .. } => STMT_END,
        }
    }
}
