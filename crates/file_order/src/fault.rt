ghost use Rattle.std.specs.Prelude.{◌≡◌};

/// Why there is no order of files.
#[derive(Debug, Drop)]
pub enum OrderFault {
    /// The files in these places wait for one another: each for the next, and the last for the first.
    Cycle(Vec<usize>),
    /// Want of memory.
    Memory,
}

impl From<lf_base::Memory> for OrderFault {
    ghost use Rattle.file_order.specs.declared.fault.OrderFault.TheVariants.{Memory};

    ghost from_gives = { λ _ fault. fault ≡ Memory };

    fn from(_memory: lf_base::Memory) -> OrderFault {
        OrderFault::Memory
    }
}
