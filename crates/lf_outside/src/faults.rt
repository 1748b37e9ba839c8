ghost use Rattle.std.specs.Prelude.{◌≡◌};
ghost use Rattle.lf_outside.specs.Faults.{fault_of, put_fault_of};

use lf_base::{GetFault, PutFault};
use std::io::ErrorKind;

/// What an error means where a file is opened. Only a name that leads to nothing is absent; a file that may not
/// be read is there.
pub fn get_fault(kind: ErrorKind) -> GetFault
    ensures fault { result ≡ fault_of kind }
    ensures short { result ≡ GetFault.TooLong → ⊥ }
{
    match kind {
        ErrorKind::NotFound | ErrorKind::NotADirectory => GetFault::Absent,
        ErrorKind::OutOfMemory => GetFault::Memory,
        _ => GetFault::Failed,
    }
}

/// What an error means where a file is made.
pub fn put_fault(kind: ErrorKind) -> PutFault
    ensures { result ≡ put_fault_of kind }
{
    match kind {
        ErrorKind::OutOfMemory => PutFault::Memory,
        _ => PutFault::Failed,
    }
}
