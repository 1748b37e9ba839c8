//! The codes of the intrinsic functions, and what they stand for.
ghost use Rattle.std.specs.Prelude.{◌≡◌};
ghost use Rattle.type_rules.specs.Codes.{code_of, intrinsic_of};

pub use lf_base::operator::{
    ADD, AND, CONCATENATE, DIVIDE, EQ, EQV, GE, GT, LE, LT, MULTIPLY, NE, NEQV, NOT, OR, Operator,
    POWER, SUBTRACT,
};

/// `abs`
pub const ABS: u8 = 1;
/// `mod`
pub const MOD: u8 = 2;
/// `modulo`
pub const MODULO: u8 = 3;
/// `min`
pub const MIN: u8 = 4;
/// `max`
pub const MAX: u8 = 5;
/// `sign`
pub const SIGN: u8 = 6;
/// `iachar`
pub const IACHAR: u8 = 7;
/// `achar`
pub const ACHAR: u8 = 8;
/// `len`
pub const LEN: u8 = 9;
/// `len_trim`
pub const LEN_TRIM: u8 = 10;
/// `trim`
pub const TRIM: u8 = 11;
/// `index`
pub const INDEX: u8 = 12;
/// `sum`
pub const SUM: u8 = 13;
/// `product`
pub const PRODUCT: u8 = 14;
/// `maxval`
pub const MAXVAL: u8 = 15;
/// `minval`
pub const MINVAL: u8 = 16;
/// `count`
pub const COUNT: u8 = 17;
/// `any`
pub const ANY: u8 = 18;
/// `all`
pub const ALL: u8 = 19;

/// An intrinsic function (ISO/IEC 1539-1:2018, 16.9).
#[derive(Clone, Copy, Debug, PartialEq, Eq)]
pub enum Intrinsic {
    /// `abs`
    Abs,
    /// `mod`
    Mod,
    /// `modulo`
    Modulo,
    /// `min`
    Min,
    /// `max`
    Max,
    /// `sign`
    Sign,
    /// `iachar`
    Iachar,
    /// `achar`
    Achar,
    /// `len`
    Len,
    /// `len_trim`
    LenTrim,
    /// `trim`
    Trim,
    /// `index`
    Index,
    /// `sum`
    Sum,
    /// `product`
    Product,
    /// `maxval`
    Maxval,
    /// `minval`
    Minval,
    /// `count`
    Count,
    /// `any`
    Any,
    /// `all`
    All,
}

impl Intrinsic {
    /// The intrinsic function of a code, if it is one.
    pub fn at(code: u8) -> Option<Intrinsic>
        ensures { result ≡ intrinsic_of code }
    {
        match code {
            ABS => Some(Intrinsic::Abs),
            MOD => Some(Intrinsic::Mod),
            MODULO => Some(Intrinsic::Modulo),
            MIN => Some(Intrinsic::Min),
            MAX => Some(Intrinsic::Max),
            SIGN => Some(Intrinsic::Sign),
            IACHAR => Some(Intrinsic::Iachar),
            ACHAR => Some(Intrinsic::Achar),
            LEN => Some(Intrinsic::Len),
            LEN_TRIM => Some(Intrinsic::LenTrim),
            TRIM => Some(Intrinsic::Trim),
            INDEX => Some(Intrinsic::Index),
            SUM => Some(Intrinsic::Sum),
            PRODUCT => Some(Intrinsic::Product),
            MAXVAL => Some(Intrinsic::Maxval),
            MINVAL => Some(Intrinsic::Minval),
            COUNT => Some(Intrinsic::Count),
            ANY => Some(Intrinsic::Any),
            ALL => Some(Intrinsic::All),
            _ => None,
        }
    }

    /// The code of the intrinsic function.
    pub fn code(&self) -> u8
        ensures { result ≡ code_of self.now }
    {
        match self {
            Intrinsic::Abs => ABS,
            Intrinsic::Mod => MOD,
            Intrinsic::Modulo => MODULO,
            Intrinsic::Min => MIN,
            Intrinsic::Max => MAX,
            Intrinsic::Sign => SIGN,
            Intrinsic::Iachar => IACHAR,
            Intrinsic::Achar => ACHAR,
            Intrinsic::Len => LEN,
            Intrinsic::LenTrim => LEN_TRIM,
            Intrinsic::Trim => TRIM,
            Intrinsic::Index => INDEX,
            Intrinsic::Sum => SUM,
            Intrinsic::Product => PRODUCT,
            Intrinsic::Maxval => MAXVAL,
            Intrinsic::Minval => MINVAL,
            Intrinsic::Count => COUNT,
            Intrinsic::Any => ANY,
            Intrinsic::All => ALL,
        }
    }
}
