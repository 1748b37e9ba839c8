ghost use Rattle.std.specs.Prelude.{◌≡◌};
ghost use Rattle.lf_base.specs.declared.fault.PutFault.TheVariants as putting;
ghost use Rattle.lf_base.specs.declared.fault.GetFault.TheVariants as reading;
ghost use Rattle.lf_base.specs.declared.fault.LexFault.TheVariants as lexical;
ghost use Rattle.lf_base.specs.declared.fault.SyntaxFault.TheVariants as syntax;
ghost use Rattle.lf_base.specs.declared.fault.RuleFault.TheVariants as rules;

use crate::rule::Rule;
use std::alloc::{AllocError, AllocFailed};
use thiserror::Error;

/// Want of memory.
#[derive(Clone, Copy, Debug, PartialEq, Eq)]
pub struct Memory;

/// A source could not be read. Its count of faults rose.
#[derive(Clone, Copy, Debug, PartialEq, Eq)]
pub struct Failed;

/// Why a sink took no more.
#[derive(Clone, Copy, Debug, PartialEq, Eq)]
pub enum PutFault {
    /// It could not be written. The sink's count of faults rose.
    Failed,
    Memory,
}

/// Why a store gave no file.
#[derive(Clone, Copy, Debug, PartialEq, Eq)]
pub enum GetFault {
    /// The store has no file of that name.
    Absent,
    /// The file has more than 67,108,864 bytes.
    TooLong,
    /// It could not be read. The store's count of failed reads rose.
    Failed,
    Memory,
}

/// Why a text has no statements: the first lexical rule that it breaks, with its line.
#[derive(Clone, Copy, Debug, PartialEq, Eq, Error)]
pub enum LexFault {
    #[error("line {line}: E{}", .rule.number())]
    At { line: u32, rule: Rule },
    #[error("out of memory")]
    Memory,
}

/// Why statements are no file: the first rule of syntax that they break, with its line.
#[derive(Clone, Copy, Debug, PartialEq, Eq, Error)]
pub enum SyntaxFault {
    #[error("line {line}: E{}", .rule.number())]
    At { line: u32, rule: Rule },
    #[error("out of memory")]
    Memory,
}

/// Why a file has no meaning: the first rule of names or types that it breaks, with its line.
#[derive(Clone, Copy, Debug, PartialEq, Eq, Error)]
pub enum RuleFault {
    #[error("line {line}: E{}", .rule.number())]
    At { line: u32, rule: Rule },
    #[error("out of memory")]
    Memory,
}

// Want of memory, as the library's own calls answer it, becomes the crate's own answer by `?`.

impl From<AllocError> for Memory {
    fn from(_refused: AllocError) -> Memory {
        Memory
    }
}

impl<T: Drop> From<AllocFailed<T>> for Memory {
    fn from(_refused: AllocFailed<T>) -> Memory {
        Memory
    }
}

impl From<AllocError> for PutFault {
    ghost from_gives = { λ _ fault. fault ≡ putting.Memory };

    fn from(_refused: AllocError) -> PutFault {
        PutFault::Memory
    }
}

impl<T: Drop> From<AllocFailed<T>> for PutFault {
    ghost from_gives = { λ _ fault. fault ≡ putting.Memory };

    fn from(_refused: AllocFailed<T>) -> PutFault {
        PutFault::Memory
    }
}

impl From<Memory> for PutFault {
    ghost from_gives = { λ _ fault. fault ≡ putting.Memory };

    fn from(_refused: Memory) -> PutFault {
        PutFault::Memory
    }
}

impl From<AllocError> for GetFault {
    ghost from_gives = { λ _ fault. fault ≡ reading.Memory };

    fn from(_refused: AllocError) -> GetFault {
        GetFault::Memory
    }
}

impl<T: Drop> From<AllocFailed<T>> for GetFault {
    ghost from_gives = { λ _ fault. fault ≡ reading.Memory };

    fn from(_refused: AllocFailed<T>) -> GetFault {
        GetFault::Memory
    }
}

impl From<Memory> for GetFault {
    ghost from_gives = { λ _ fault. fault ≡ reading.Memory };

    fn from(_refused: Memory) -> GetFault {
        GetFault::Memory
    }
}

impl From<AllocError> for LexFault {
    ghost from_gives = { λ _ fault. fault ≡ lexical.Memory };

    fn from(_refused: AllocError) -> LexFault {
        LexFault::Memory
    }
}

impl<T: Drop> From<AllocFailed<T>> for LexFault {
    ghost from_gives = { λ _ fault. fault ≡ lexical.Memory };

    fn from(_refused: AllocFailed<T>) -> LexFault {
        LexFault::Memory
    }
}

impl From<Memory> for LexFault {
    ghost from_gives = { λ _ fault. fault ≡ lexical.Memory };

    fn from(_refused: Memory) -> LexFault {
        LexFault::Memory
    }
}

impl From<AllocError> for SyntaxFault {
    ghost from_gives = { λ _ fault. fault ≡ syntax.Memory };

    fn from(_refused: AllocError) -> SyntaxFault {
        SyntaxFault::Memory
    }
}

impl<T: Drop> From<AllocFailed<T>> for SyntaxFault {
    ghost from_gives = { λ _ fault. fault ≡ syntax.Memory };

    fn from(_refused: AllocFailed<T>) -> SyntaxFault {
        SyntaxFault::Memory
    }
}

impl From<Memory> for SyntaxFault {
    ghost from_gives = { λ _ fault. fault ≡ syntax.Memory };

    fn from(_refused: Memory) -> SyntaxFault {
        SyntaxFault::Memory
    }
}

impl From<AllocError> for RuleFault {
    ghost from_gives = { λ _ fault. fault ≡ rules.Memory };

    fn from(_refused: AllocError) -> RuleFault {
        RuleFault::Memory
    }
}

impl<T: Drop> From<AllocFailed<T>> for RuleFault {
    ghost from_gives = { λ _ fault. fault ≡ rules.Memory };

    fn from(_refused: AllocFailed<T>) -> RuleFault {
        RuleFault::Memory
    }
}

impl From<Memory> for RuleFault {
    ghost from_gives = { λ _ fault. fault ≡ rules.Memory };

    fn from(_refused: Memory) -> RuleFault {
        RuleFault::Memory
    }
}
