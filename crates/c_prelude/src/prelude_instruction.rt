//! The instructions of the table from which the prelude is made. An instruction stands behind its parts.

ghost use Rattle.std.specs.Prelude.{◌≡◌};

use c_nodes::CBinary;

/// A variable or a parameter of the prelude's functions, or one of its static objects.
#[derive(Clone, Copy)]
pub enum Word {
    A,
    B,
    Bad,
    C,
    D,
    I,
    J,
    K,
    L,
    Line,
    M,
    N,
    Name,
    P,
    R,
    S,
    Stderr,
    U,
    X,
    Y,
}

/// A function that the prelude defines, or one of the C library that it calls.
#[derive(Clone, Copy)]
pub enum Callee {
    Trap,
    Over,
    Zero,
    Fit,
    Add,
    Sub,
    Mul,
    Div,
    Mod,
    Modulo,
    Pow,
    Sign,
    Min,
    Max,
    Count,
    At,
    Sec,
    Same,
    Need,
    Part,
    Join,
    Code,
    Copy,
    Cmp,
    Trim,
    Index,
    Gap,
    Int,
    Chars,
    Read,
    End,
    Exit,
    PutByte,
    GetCharacter,
    PutCharacter,
}

/// A text of the prelude: the names of the traps, and what stands in front of them.
#[derive(Clone, Copy)]
pub enum Message {
    TrapHead,
    IntegerOverflow,
    DivisionByZero,
    SubscriptOutOfRange,
    SubstringOutOfRange,
    ShapeMismatch,
    ZeroStep,
    EndOfFile,
    LengthLimit,
    BadCharacterCode,
}

/// A step in making the prelude. A value is the newest expression that no other instruction has taken.
#[derive(Clone, Copy)]
pub enum Instruction {
    Number(u64),
    Greatest,
    Least,
    Variable(Word),
    Literal(Message),
    /// An element: the place, then the subscript.
    Index,
    Paren,
    Negate,
    ToInt,
    Binary(CBinary),
    /// The value is the next argument of the next call.
    Argument,
    /// The statements of a block follow.
    Body,
    /// An `int64_t` with a value.
    DeclareValue(Word),
    /// A pointer to bytes with a value.
    DeclarePointer(Word),
    /// An array of bytes of a size.
    DeclareArray(Word),
    /// An `int64_t` with what a call returns.
    DeclareCall(Word, Callee),
    /// The place, then the value.
    Assign,
    AssignCall(Callee),
    Call(Callee),
    ReturnValue,
    ReturnCall(Callee),
    /// The body, then the condition.
    While,
    If,
    /// Both bodies, then the condition.
    IfElse,
    /// An `int64_t` is the next parameter of the next function.
    Value(Word),
    BytePointer(Word),
    NumberPointer(Word),
    /// A static `int64_t`.
    StaticNumber(Word),
    /// A static pointer to bytes.
    StaticPointer(Word),
    /// A function that returns nothing.
    VoidFunction(Callee),
    /// A function that returns an `int64_t`.
    NumberFunction(Callee),
}

impl Word {
    ghost use Rattle.c_prelude.specs.PreludeMachine.{word_text};

    pub fn bytes(self) -> &'static [u8]
        ensures { result.now ≡ word_text self }
    {
        match self {
            Word::A => b"a",
            Word::B => b"b",
            Word::Bad => b"bad",
            Word::C => b"c",
            Word::D => b"d",
            Word::I => b"i",
            Word::J => b"j",
            Word::K => b"k",
            Word::L => b"l",
            Word::Line => b"lf_line",
            Word::M => b"m",
            Word::N => b"n",
            Word::Name => b"lf_name",
            Word::P => b"p",
            Word::R => b"r",
            Word::S => b"s",
            Word::Stderr => b"stderr",
            Word::U => b"u",
            Word::X => b"x",
            Word::Y => b"y",
        }
    }
}

impl Callee {
    ghost use Rattle.c_prelude.specs.PreludeMachine.{callee_text};

    pub fn bytes(self) -> &'static [u8]
        ensures { result.now ≡ callee_text self }
    {
        match self {
            Callee::Trap => b"lf_trap",
            Callee::Over => b"lf_over",
            Callee::Zero => b"lf_zero",
            Callee::Fit => b"lf_fit",
            Callee::Add => b"lf_add",
            Callee::Sub => b"lf_sub",
            Callee::Mul => b"lf_mul",
            Callee::Div => b"lf_div",
            Callee::Mod => b"lf_mod",
            Callee::Modulo => b"lf_modulo",
            Callee::Pow => b"lf_pow",
            Callee::Sign => b"lf_sign",
            Callee::Min => b"lf_min",
            Callee::Max => b"lf_max",
            Callee::Count => b"lf_count",
            Callee::At => b"lf_at",
            Callee::Sec => b"lf_sec",
            Callee::Same => b"lf_same",
            Callee::Need => b"lf_need",
            Callee::Part => b"lf_part",
            Callee::Join => b"lf_join",
            Callee::Code => b"lf_code",
            Callee::Copy => b"lf_copy",
            Callee::Cmp => b"lf_cmp",
            Callee::Trim => b"lf_trim",
            Callee::Index => b"lf_index",
            Callee::Gap => b"lf_gap",
            Callee::Int => b"lf_int",
            Callee::Chars => b"lf_chars",
            Callee::Read => b"lf_read",
            Callee::End => b"lf_end",
            Callee::Exit => b"exit",
            Callee::PutByte => b"fputc",
            Callee::GetCharacter => b"getchar",
            Callee::PutCharacter => b"putchar",
        }
    }
}

impl Message {
    ghost use Rattle.c_prelude.specs.PreludeMachine.{message_text};

    pub fn bytes(self) -> &'static [u8]
        ensures { result.now ≡ message_text self }
    {
        match self {
            Message::TrapHead => b"lf: trap ",
            Message::IntegerOverflow => b"IntegerOverflow",
            Message::DivisionByZero => b"DivisionByZero",
            Message::SubscriptOutOfRange => b"SubscriptOutOfRange",
            Message::SubstringOutOfRange => b"SubstringOutOfRange",
            Message::ShapeMismatch => b"ShapeMismatch",
            Message::ZeroStep => b"ZeroStep",
            Message::EndOfFile => b"EndOfFile",
            Message::LengthLimit => b"LengthLimit",
            Message::BadCharacterCode => b"BadCharacterCode",
        }
    }
}
