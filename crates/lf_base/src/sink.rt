ghost use Rattle.std.specs.Prelude.{◌≡◌, ℕ, Bool, List, Option, OnOk, OnErr};
ghost use Rattle.lf_base.specs.Causes.{HasCause};
ghost use Rattle.lf_base.specs.Contents.{Appends, AppendsPart};

use crate::fault::PutFault;

/// Takes bytes, one piece after another.
pub trait Sink {
    /// The bytes that it holds, where it tells them.
    ghost contents: { Self → Option (List ℕ) };

    /// How often a call that writes has failed. The count never falls.
    ghost faults: { Self → ℕ };

    /// Whether a call that writes may fail. Where it may not, none answers `Failed`.
    ghost may_fail: { Bool };

    /// Whether a call that writes takes memory. Where it takes none, none answers `Memory`.
    ghost takes_memory: { Bool };

    /// What a `put` keeps besides the bytes.
    ghost keeps: { Self → Self → Type 0 };

    /// Appends the whole piece. A refused call appends a front of it, and it answers `Failed` only
    /// where the count rose.
    fn put(&mut self, piece: &[u8]) -> Result<(), PutFault>
        ensures ok { OnOk result (Appends (contents self.old) (contents self.new) piece.now) }
        ensures err { OnErr result (AppendsPart (contents self.old) (contents self.new) piece.now) }
        ensures keeps { keeps self.old self.new }
        ensures cause { HasCause may_fail takes_memory (faults self.old) (faults self.new) result };

    /// What is kept is the same at the start.
    ghost keeps_same: { (a : Self) → keeps a a };

    /// What two calls keep, both together keep.
    ghost keeps_further: { (a b c : Self) → keeps a b → keeps b c → keeps a c };
}
