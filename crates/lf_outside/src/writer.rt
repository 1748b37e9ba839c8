ghost use Rattle.std.specs.Prelude.{◌≡◌, ◌≤◌, [], length, take, true, false, IfOk, OnOk, OnErr};
ghost use Rattle.std.specs.Io.KnownBytes.{Keeps};
ghost use Rattle.lf_base.specs.Contents.{Appends, AppendsPart};

use lf_base::{Failed, PutFault, Sink};
use std::io::{ErrorKind, Write};

/// A stream as a sink. It tells the bytes that the stream tells, and keeps none back.
#[derive(Drop)]
pub struct Writer<W: Write + Drop> {
    stream: W,
    faults: u64,
}

impl<W: Write + Drop> Writer<W> {
    /// A sink over the stream, which has not failed yet.
    pub fn new(stream: W) -> Writer<W> {
        Writer { stream, faults: 0 }
    }
}

// One write. It answers how many bytes were taken; none are where a signal came first. A stream that takes
// none of a piece has failed.
#[tactic(auto, using(crate::proofs::Streams::streams))]
pub(crate) fn write_once<W: Write>(stream: &mut W, piece: &[u8]) -> Result<usize, Failed>
    ensures bound { IfOk result (λ n. n ≤ length piece.now) }
    ensures ok { IfOk result (λ n. Appends (W.contents stream.old) (W.contents stream.new) (take n piece.now)) }
    ensures err { OnErr result (Appends (W.contents stream.old) (W.contents stream.new) []) }
{
    match stream.write(piece) {
        Ok(0) => Err(Failed),
        Ok(count) => Ok(count),
        Err(error) if error.kind() == ErrorKind::Interrupted => Ok(0),
        Err(_) => Err(Failed),
    }
}

/// Writes the whole piece. Where the stream fails, a front of it is written.
#[tactic(auto, using(crate::proofs::Streams::streams))]
pub(crate) fn write_whole<W: Write>(stream: &mut W, piece: &[u8]) -> Result<(), Failed>
    ensures ok { OnOk result (Appends (W.contents stream.old) (W.contents stream.new) piece.now) }
    ensures err { OnErr result (AppendsPart (W.contents stream.old) (W.contents stream.new) piece.now) }
{
    let mut done = 0;
    for _ in 0..u64::MAX {
        if done == piece.len() {
            return Ok(());
        }
        done += write_once(stream, &piece[done..])?;
    }
    Err(Failed)
}

impl<W: Write + Drop> Sink for Writer<W> {
    ghost contents = { λ s. W.contents s.stream };

    ghost faults = { λ s. s.faults };

    ghost may_fail = { true };

    ghost takes_memory = { false };

    ghost keeps = { λ _ _. Unit {0} };

    ghost keeps_same = { λ _. tt };

    ghost keeps_further = { λ _ _ _ _ _. tt };

    fn put(&mut self, piece: &[u8]) -> Result<(), PutFault> {
        match write_whole(&mut self.stream, piece) {
            Ok(()) => Ok(()),
            Err(_) => {
                self.faults = self.faults.saturating_add(1);
                Err(PutFault::Failed)
            }
        }
    }
}
