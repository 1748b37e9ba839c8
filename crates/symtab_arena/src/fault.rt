ghost use Rattle.std.specs.Prelude.{◌≡◌};

use lf_base::SymId;

/// Why a symbol was not declared. The first that holds is answered, and the arena stays as it was.
#[derive(Clone, Copy, Debug, PartialEq, Eq)]
pub enum ArenaFault {
    /// The table has the name already, for this symbol.
    Twice(SymId),
    /// All 1,048,576 numbers have been given.
    Full,
    Memory,
}

impl From<lf_base::Memory> for ArenaFault {
    ghost use Rattle.symtab_arena.specs.declared.fault.ArenaFault.TheVariants.{Memory};

    ghost from_gives = { λ _ fault. fault ≡ Memory };

    fn from(_memory: lf_base::Memory) -> ArenaFault {
        ArenaFault::Memory
    }
}
