ghost use Rattle.std.specs.Prelude.{◌≡◌, ◌≤◌, [], drop, length, true, false, OnOk, OnErr};
ghost use Rattle.std.specs.Io.KnownBytes.{append_known};
ghost use Rattle.arrayvec.specs.ArrayVec.{array_vec_len};
ghost use Rattle.lf_base.specs.Contents.{Appends, AppendsPart};
ghost use Rattle.lf_outside.specs.Streams.{Stays};

use crate::writer::{write_once, write_whole};
use arrayvec::ArrayVec;
use lf_base::{Failed, PutFault, Sink};
use std::io::Write;

/// How many bytes are kept back: what each system writes to a pipe in one piece.
const KEPT_BACK: usize = 512;

// Bytes that are kept back.
type Held = ArrayVec<u8, KEPT_BACK>;

/// A stream as a sink of lines. It keeps bytes back until a piece ends a line, so that a line which comes in
/// pieces is one write, whoever else writes to the stream. It tells the bytes that the stream tells, and those
/// that it keeps back behind them.
#[derive(Drop)]
pub struct Lines<W: Write + Drop> {
    stream: W,
    held: Held,
    faults: u64,
}

// Drops the first bytes.
fn drop_front(held: &mut Held, count: usize)
    requires { count ≤ array_vec_len held.old }
    ensures { held.new.items ≡ drop count held.old.items }
{
    let mut rest = ArrayVec::new();
    let _fits = rest.try_extend_from_slice(&held.as_slice()[count..]);
    *held = rest;
}

// Writes what is kept back. What the stream does not take is kept on.
#[tactic(auto, using(crate::proofs::KeptBack::lines))]
fn write_held<W: Write>(stream: &mut W, held: &mut Held) -> Result<(), Failed>
    ensures stays { Stays (append_known (W.contents stream.old) held.old.items) (append_known (W.contents stream.new) held.new.items) }
    ensures ok { OnOk result (held.new.items ≡ []) }
{
    for _ in 0..u64::MAX {
        if held.is_empty() {
            return Ok(());
        }
        let count = write_once(stream, held.as_slice())?;
        drop_front(held, count);
    }
    Err(Failed)
}

// Keeps a piece back, and writes what is kept back where the piece ends a line.
#[tactic(auto, using(crate::proofs::KeptBack::lines))]
fn end_line<W: Write>(stream: &mut W, held: &mut Held, piece: &[u8]) -> Result<(), Failed>
    ensures stays { Stays (append_known (W.contents stream.old) held.old.items) (append_known (W.contents stream.new) held.new.items) }
{
    match piece {
        [.., b'\n'] => write_held(stream, held),
        _ => Ok(()),
    }
}

// Writes a piece that is too long to be kept back, behind what is kept back.
#[tactic(auto, using(crate::proofs::KeptBack::lines))]
fn write_long<W: Write>(stream: &mut W, held: &mut Held, piece: &[u8]) -> Result<(), Failed>
    ensures ok { OnOk result (Appends (append_known (W.contents stream.old) held.old.items) (append_known (W.contents stream.new) held.new.items) piece.now) }
    ensures err { OnErr result (AppendsPart (append_known (W.contents stream.old) held.old.items) (append_known (W.contents stream.new) held.new.items) piece.now) }
{
    match write_held(stream, held) {
        Ok(()) => write_whole(stream, piece),
        Err(Failed) => Err(Failed),
    }
}

// Takes a piece: keeps it back where there is room for it.
#[tactic(auto, using(crate::proofs::KeptBack::lines))]
fn add<W: Write>(stream: &mut W, held: &mut Held, piece: &[u8]) -> Result<(), Failed>
    ensures ok { OnOk result (Appends (append_known (W.contents stream.old) held.old.items) (append_known (W.contents stream.new) held.new.items) piece.now) }
    ensures err { OnErr result (AppendsPart (append_known (W.contents stream.old) held.old.items) (append_known (W.contents stream.new) held.new.items) piece.now) }
{
    match held.try_extend_from_slice(piece) {
        Ok(()) => end_line(stream, held, piece),
        Err(_) => write_long(stream, held, piece),
    }
}

impl<W: Write + Drop> Lines<W> {
    /// A sink over the stream, which keeps nothing back and has not failed yet.
    pub fn new(stream: W) -> Lines<W> {
        Lines {
            stream,
            held: ArrayVec::new(),
            faults: 0,
        }
    }
}

impl<W: Write + Drop> Sink for Lines<W> {
    ghost contents = { λ s. append_known (W.contents s.stream) s.held.items };

    ghost faults = { λ s. s.faults };

    ghost may_fail = { true };

    ghost takes_memory = { false };

    ghost keeps = { λ _ _. Unit {0} };

    ghost keeps_same = { λ _. tt };

    ghost keeps_further = { λ _ _ _ _ _. tt };

    fn put(&mut self, piece: &[u8]) -> Result<(), PutFault> {
        match add(&mut self.stream, &mut self.held, piece) {
            Ok(()) => Ok(()),
            Err(Failed) => {
                self.faults = self.faults.saturating_add(1);
                Err(PutFault::Failed)
            }
        }
    }
}
