ghost use Rattle.std.specs.Prelude.{◌≡◌, ℕ, List, Option, IfOk, OnErr};
ghost use Rattle.lf_base.specs.Causes.{HasSourceCause};
ghost use Rattle.lf_base.specs.Contents.{HandsOver};

use crate::fault::Failed;

/// Gives bytes, one front after another.
pub trait Source {
    /// The bytes that are left, where it tells them.
    ghost remaining: { Self → Option (List ℕ) };

    /// How often a call has failed. The count never falls.
    ghost faults: { Self → ℕ };

    /// Hands over a front of the bytes that are left, and answers how many they are. Into a buffer
    /// that is not empty, no bytes are the end of the input, which never comes before the end. A
    /// refused call takes nothing, and comes only where the count rose.
    fn read(&mut self, buf: &mut [u8]) -> Result<usize, Failed>
        ensures ok { IfOk result (λ n. HandsOver (remaining self.old) (remaining self.new) buf.new n) }
        ensures err { OnErr result (remaining self.new ≡ remaining self.old) }
        ensures cause { HasSourceCause (faults self.old) (faults self.new) result };
}
