//! The operators and their codes, in trees, in texts of trees and in module files.
ghost use Rattle.std.specs.Prelude.{◌≡◌};
ghost use Rattle.lf_base.specs.Operators.{operator_of, code_of};

/// `+`
pub const ADD: u8 = 0;
/// `-`
pub const SUBTRACT: u8 = 1;
/// `*`
pub const MULTIPLY: u8 = 2;
/// `/`
pub const DIVIDE: u8 = 3;
/// `**`
pub const POWER: u8 = 4;
/// `//`
pub const CONCATENATE: u8 = 5;
/// `==`
pub const EQ: u8 = 6;
/// `/=`
pub const NE: u8 = 7;
/// `<`
pub const LT: u8 = 8;
/// `<=`
pub const LE: u8 = 9;
/// `>`
pub const GT: u8 = 10;
/// `>=`
pub const GE: u8 = 11;
/// `.and.`
pub const AND: u8 = 12;
/// `.or.`
pub const OR: u8 = 13;
/// `.eqv.`
pub const EQV: u8 = 14;
/// `.neqv.`
pub const NEQV: u8 = 15;
/// `.not.`
pub const NOT: u8 = 16;

/// An operator (ISO/IEC 1539-1:2018, 10.1.5).
#[derive(Clone, Copy, Debug, PartialEq, Eq)]
pub enum Operator {
    /// `+`
    Add,
    /// `-`
    Subtract,
    /// `*`
    Multiply,
    /// `/`
    Divide,
    /// `**`
    Power,
    /// `//`
    Concatenate,
    /// `==`
    Eq,
    /// `/=`
    Ne,
    /// `<`
    Lt,
    /// `<=`
    Le,
    /// `>`
    Gt,
    /// `>=`
    Ge,
    /// `.and.`
    And,
    /// `.or.`
    Or,
    /// `.eqv.`
    Eqv,
    /// `.neqv.`
    Neqv,
    /// `.not.`
    Not,
}

impl Operator {
    /// The operator of a code, if it is one.
    pub fn at(code: u8) -> Option<Operator>
        ensures { result ≡ operator_of code }
    {
        match code {
            ADD => Some(Operator::Add),
            SUBTRACT => Some(Operator::Subtract),
            MULTIPLY => Some(Operator::Multiply),
            DIVIDE => Some(Operator::Divide),
            POWER => Some(Operator::Power),
            CONCATENATE => Some(Operator::Concatenate),
            EQ => Some(Operator::Eq),
            NE => Some(Operator::Ne),
            LT => Some(Operator::Lt),
            LE => Some(Operator::Le),
            GT => Some(Operator::Gt),
            GE => Some(Operator::Ge),
            AND => Some(Operator::And),
            OR => Some(Operator::Or),
            EQV => Some(Operator::Eqv),
            NEQV => Some(Operator::Neqv),
            NOT => Some(Operator::Not),
            _ => None,
        }
    }

    /// The code of the operator.
    pub fn code(&self) -> u8
        ensures { result ≡ code_of self.now }
    {
        match self {
            Operator::Add => ADD,
            Operator::Subtract => SUBTRACT,
            Operator::Multiply => MULTIPLY,
            Operator::Divide => DIVIDE,
            Operator::Power => POWER,
            Operator::Concatenate => CONCATENATE,
            Operator::Eq => EQ,
            Operator::Ne => NE,
            Operator::Lt => LT,
            Operator::Le => LE,
            Operator::Gt => GT,
            Operator::Ge => GE,
            Operator::And => AND,
            Operator::Or => OR,
            Operator::Eqv => EQV,
            Operator::Neqv => NEQV,
            Operator::Not => NOT,
        }
    }
}
