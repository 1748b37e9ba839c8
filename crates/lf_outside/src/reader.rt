ghost use Rattle.std.specs.Prelude.{◌≡◌, IfOk, OnErr, IsSome, refl};
ghost use Rattle.lf_base.specs.Contents.{HandsOver};
ghost use Rattle.lf_outside.specs.Streams.{Stays};

use lf_base::{Failed, Source};
use std::io::{Cursor, ErrorKind, Read, Stdin};

/// A stream that either tells what is left all the time, or never.
pub trait Steady: Read + Drop {
    ghost steady: { (a b : Self) → IsSome (Self.remaining a) → IsSome (Self.remaining b) };
}

impl Steady for Stdin {
    ghost steady = { λ a b told. told };
}

impl Steady for Cursor<Vec<u8>> {
    ghost steady = { λ a b told. refl };
}

/// A stream as a source. It tells the bytes that the stream tells to be left.
#[derive(Drop)]
pub struct Reader<R: Steady> {
    stream: R,
    faults: u64,
}

impl<R: Steady> Reader<R> {
    /// A source over the stream, which has not failed yet.
    pub fn new(stream: R) -> Reader<R> {
        Reader { stream, faults: 0 }
    }
}

// One read that no signal interrupts.
#[tactic(auto, using(crate::proofs::Streams::reads))]
pub(crate) fn read_once<R: Read>(stream: &mut R, buf: &mut [u8]) -> Result<usize, ErrorKind>
    ensures ok { IfOk result (λ n. HandsOver (R.remaining stream.old) (R.remaining stream.new) buf.new n) }
    ensures err { OnErr result (Stays (R.remaining stream.old) (R.remaining stream.new)) }
{
    for _ in 0..u64::MAX {
        match stream.read(buf) {
            Ok(count) => return Ok(count),
            Err(error) if error.kind() == ErrorKind::Interrupted => {}
            Err(error) => return Err(error.kind()),
        }
    }
    Err(ErrorKind::Interrupted)
}

impl<R: Steady> Source for Reader<R> {
    ghost remaining = { λ s. R.remaining s.stream };

    ghost faults = { λ s. s.faults };

    fn read(&mut self, buf: &mut [u8]) -> Result<usize, Failed> {
        match read_once(&mut self.stream, buf) {
            Ok(count) => Ok(count),
            Err(_) => {
                self.faults = self.faults.saturating_add(1);
                Err(Failed)
            }
        }
    }
}
