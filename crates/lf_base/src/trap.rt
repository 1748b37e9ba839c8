ghost use Rattle.std.specs.Prelude.{◌≡◌};
ghost use Rattle.lf_base.specs.Traps.{trap_number, trap_name};

/// Why a program that is accepted ends early. Traps are this compiler's own: F2018 leaves open what a
/// program does that breaks one of its rules at run time (ISO/IEC 1539-1:2018, 4.2).
#[derive(Clone, Copy, Debug, PartialEq, Eq)]
pub enum Trap {
    /// An integer result or conversion does not fit its kind.
    IntegerOverflow,
    /// A division by zero, or zero to a negative power.
    DivisionByZero,
    /// A subscript lies outside the bounds of its dimension.
    SubscriptOutOfRange,
    /// A substring reaches outside its characters.
    SubstringOutOfRange,
    /// The shapes of two arrays differ.
    ShapeMismatch,
    /// The step of a loop or of a section is zero.
    ZeroStep,
    /// The input has no further record.
    EndOfFile,
    /// A character value has more than 65,535 bytes.
    LengthLimit,
    /// A number is no code of a byte.
    BadCharacterCode,
}

impl Trap {
    /// The number of the trap, 1 to 9. The program ends with 100 and this number.
    pub fn number(&self) -> u8
        ensures { result ≡ trap_number self.now }
    {
        match self {
            Trap::IntegerOverflow => 1,
            Trap::DivisionByZero => 2,
            Trap::SubscriptOutOfRange => 3,
            Trap::SubstringOutOfRange => 4,
            Trap::ShapeMismatch => 5,
            Trap::ZeroStep => 6,
            Trap::EndOfFile => 7,
            Trap::LengthLimit => 8,
            Trap::BadCharacterCode => 9,
        }
    }

    /// The name of the trap, as it is printed.
    pub fn name(&self) -> &'static [u8]
        ensures { result.now ≡ trap_name self.now }
    {
        match self {
            Trap::IntegerOverflow => b"IntegerOverflow",
            Trap::DivisionByZero => b"DivisionByZero",
            Trap::SubscriptOutOfRange => b"SubscriptOutOfRange",
            Trap::SubstringOutOfRange => b"SubstringOutOfRange",
            Trap::ShapeMismatch => b"ShapeMismatch",
            Trap::ZeroStep => b"ZeroStep",
            Trap::EndOfFile => b"EndOfFile",
            Trap::LengthLimit => b"LengthLimit",
            Trap::BadCharacterCode => b"BadCharacterCode",
        }
    }
}
