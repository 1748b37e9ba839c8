//! The functions in C with which each printed file begins, and the objects that tell a trap its file and line.

ghost use Rattle.std.specs.Prelude.{◌≡◌, IfOk};
ghost use Rattle.c_prelude.specs.PreludeFile.{Spells};
ghost use Rattle.c_prelude.specs.Prelude.{prelude_file};
ghost use Rattle.c_prelude.specs.PreludeText.{prelude_text};

use crate::prelude_machine::{Fault, made};
use crate::prelude_numbers::NUMBERS;
use crate::prelude_sequences::SEQUENCES;
use c_nodes::CFile;
use lf_base::Memory;
use std::alloc::Global;

/// The prelude: the file that holds nothing but the functions with which each printed file begins, and in front of
/// them two static objects that hold the source and the line of the statement that is executed. In 64 bits the
/// functions do what ISO/IEC 1539-1:2018 asks of integer operations (10.1.5.2), of subscripts and substrings (9.5.3,
/// 9.4.1), of concatenation and comparison (10.1.5.3, 10.1.5.5), of intrinsic procedures (16.9) and of list-directed
/// output (13.10.4), or end the program with a trap. The call fails only for want of memory.
pub fn prelude(alloc: Global) -> Result<CFile, Memory>
    ensures file { IfOk result (λ file. file ≡ prelude_file) }
    ensures text { IfOk result (λ file. Spells prelude_text file) }
{
    match made(alloc, &NUMBERS, &SEQUENCES) {
        Ok(machine) => Ok(CFile {
            items: machine.items,
        }),
        Err(Fault::Memory) => Err(Memory),
        Err(Fault::Broken) => unreachable!(),
    }
}
