ghost use Rattle.std.specs.Prelude.{◌≡◌, ◌≤◌, ℕ, List, Option, length, IfOk};
ghost use Rattle.std.specs.IoError.{error_kind};
ghost use Rattle.lf_outside.specs.Faults.{fault_of};
ghost use Rattle.lf_outside.specs.Disk.{Step, Opens, Creates, Writes, Syncs, Renames, Removes};

use std::io::{Read, Result};

/// Files as a system has them. Each call is one call of the system.
pub trait Disk: Drop {
    /// The calls that changed it, the latest in front, where it tells them.
    ghost history: { Self → Option (List Step) };

    /// How often a removal was refused. The count never falls.
    ghost stuck: { Self → ℕ };

    /// A file that is open for reading.
    type Opened: Read + Drop;

    /// A file that is open for writing, from its making on.
    type Written: Drop;

    /// Opens a file for reading, from its start.
    fn open(&self, name: &str) -> Result<Self::Opened>
        ensures opens { Opens Self.Opened.remaining (λ e. fault_of (error_kind e)) (history self.now) name.now result };

    /// The permissions of a file, as the system numbers them.
    fn mode(&self, name: &str) -> Result<u32>;

    /// The most bytes that a file may have which this program writes.
    fn limit(&self) -> u64;

    /// Makes an empty file, and opens it for writing. A file of that name is never opened.
    fn create(&mut self, name: &str) -> Result<Self::Written>
        ensures creates { Creates (history self.old) (history self.new) name.now result }
        ensures stuck { stuck self.new ≡ stuck self.old };

    /// Writes a front of the piece to the end of a file, and answers how many bytes.
    fn write(&mut self, file: &mut Self::Written, name: &str, piece: &[u8]) -> Result<usize>
        ensures bound { IfOk result (λ n. n ≤ length piece.now) }
        ensures writes { Writes (history self.old) (history self.new) name.now piece.now result }
        ensures stuck { stuck self.new ≡ stuck self.old };

    /// Gives a file these permissions.
    fn set_mode(&mut self, file: &mut Self::Written, mode: u32) -> Result<()>
        ensures same { history self.new ≡ history self.old }
        ensures stuck { stuck self.new ≡ stuck self.old };

    /// Waits until all bytes of a file are on the device.
    fn sync(&mut self, file: &mut Self::Written, name: &str) -> Result<()>
        ensures syncs { Syncs (history self.old) (history self.new) name.now result }
        ensures stuck { stuck self.new ≡ stuck self.old };

    /// Gives a file another name, in place of an older file of that name.
    fn rename(&mut self, from: &str, to: &str) -> Result<()>
        ensures renames { Renames (history self.old) (history self.new) from.now to.now result }
        ensures stuck { stuck self.new ≡ stuck self.old };

    /// Removes a file.
    fn remove(&mut self, name: &str) -> Result<()>
        ensures removes { Removes (history self.old) (history self.new) (stuck self.old) (stuck self.new) name.now result };
}
