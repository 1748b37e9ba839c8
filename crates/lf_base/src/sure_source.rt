ghost use Rattle.std.specs.Prelude.{◌≡◌, ◌+◌, ◌≤◌, Some, length, drop};
ghost use Rattle.lf_base.specs.Contents.{HandsOver};

use crate::fault::Failed;
use crate::source::Source;
use std::marker::Model;

/// A source in memory that never fails, which contracts see as the bytes that are left.
#[derive(Drop)]
pub struct SureSource {
    bytes: Vec<u8>,
    taken: usize,
}

impl Model for SureSource {
    ghost use Rattle.std.specs.Prelude.{List, ℕ, ◌≤◌, length, drop};

    ghost Value = { List ℕ };

    ghost view = { λ s. drop s.taken s.bytes.items };

    ghost invariant = { λ s. s.taken ≤ length s.bytes.items };
}

impl SureSource {
    /// A source of these bytes.
    pub fn new(bytes: Vec<u8>) -> SureSource
        ensures { result ≡ bytes.items }
    {
        SureSource { bytes, taken: 0 }
    }
}

// Copies as many bytes behind the taken ones as there are and as there is room for.
fn hand_over(bytes: &[u8], taken: usize, buf: &mut [u8]) -> usize
    requires { taken ≤ length bytes.now }
    ensures handed { HandsOver (Some (drop taken bytes.now)) (Some (drop (taken + result) bytes.now)) buf.new result }
    ensures within { taken + result ≤ length bytes.now }
{
    let n = (bytes.len() - taken).min(buf.len());
    buf[..n].copy_from_slice(&bytes[taken..taken + n]);
    n
}

impl Source for SureSource {
    ghost remaining = { λ s. Some s };

    ghost faults = { λ _. 0 };

    fn read(&mut self, buf: &mut [u8]) -> Result<usize, Failed> {
        let n = hand_over(self.bytes.as_slice(), self.taken, buf);
        self.taken += n;
        Ok(n)
    }
}
