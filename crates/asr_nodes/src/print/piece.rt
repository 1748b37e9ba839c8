//! The parts of a node that hold no node: tags, words, numbers and bytes.

ghost use Rattle.std.specs.Prelude.{[], ◌∷◌, ◌≡◌, codes};
ghost use Rattle.std.specs.Fmt.{decimal, signed_decimal};
ghost use Rattle.lf_base.specs.Contents.{joined};
ghost use Rattle.lf_base.specs.Puts.{Puts, Causes};
ghost use Rattle.ast_nodes.specs.Prints.{Prints};
ghost use Rattle.ast_nodes.specs.Node.{is_plain, are_plain, byte_text, byte_texts, quoted, behind_blank, opened};

use itoa::Buffer;
use lf_base::{PutFault, Sink};

// How the puts so far ended. After a failure nothing more is put.
pub(crate) type Ended = Result<(), PutFault>;

// What a sink says of the piece, behind the puts before.
fn put_behind<O: Sink>(before: Ended, out: &mut O, piece: &[u8]) -> Ended
    ensures text { Puts before result (O.contents out.old) (O.contents out.new) piece.now }
    ensures cause { Causes O.may_fail O.takes_memory before result (O.faults out.old) (O.faults out.new) }
    ensures keeps { O.keeps out.old out.new }
{
    match before {
        Ok(()) => out.put(piece),
        Err(fault) => Err(fault),
    }
}

pub(crate) fn put<O: Sink>(before: Ended, out: &mut O, piece: &[u8]) -> Ended
    ensures { Prints O.contents O.faults O.may_fail O.takes_memory O.keeps before result out.old out.new piece.now }
{
    put_behind(before, out, piece)
}

// The parenthesis and the tag that a node begins with.
#[tactic(auto, using(ast_nodes::proofs::Chains::chains))]
pub(crate) fn put_tag<O: Sink>(before: Ended, out: &mut O, tag: &[u8]) -> Ended
    ensures { Prints O.contents O.faults O.may_fail O.takes_memory O.keeps before result out.old out.new (opened tag.now) }
{
    let ended = put(before, out, b"(");
    put(ended, out, tag)
}

// A part of a node stands behind a blank.
#[tactic(auto, using(ast_nodes::proofs::Chains::chains))]
pub(crate) fn put_word<O: Sink>(before: Ended, out: &mut O, word: &[u8]) -> Ended
    ensures { Prints O.contents O.faults O.may_fail O.takes_memory O.keeps before result out.old out.new (behind_blank word.now) }
{
    let ended = put(before, out, b" ");
    put(ended, out, word)
}

// What stands for a missing part.
#[tactic(auto, unfolding(lf_base::specs::Contents::joined))]
pub(crate) fn put_missing<O: Sink>(before: Ended, out: &mut O) -> Ended
    ensures { Prints O.contents O.faults O.may_fail O.takes_memory O.keeps before result out.old out.new (behind_blank (codes "-")) }
{
    put(before, out, b" -")
}

pub(crate) fn put_number<O: Sink>(before: Ended, out: &mut O, number: u64) -> Ended
    ensures { Prints O.contents O.faults O.may_fail O.takes_memory O.keeps before result out.old out.new (behind_blank (decimal number)) }
{
    let mut buffer = Buffer::new();
    put_word(before, out, buffer.format(number).as_bytes())
}

pub(crate) fn put_code<O: Sink>(before: Ended, out: &mut O, code: u8) -> Ended
    ensures { Prints O.contents O.faults O.may_fail O.takes_memory O.keeps before result out.old out.new (behind_blank (decimal code)) }
{
    put_number(before, out, u64::from(code))
}

pub(crate) fn put_line<O: Sink>(before: Ended, out: &mut O, line: u32) -> Ended
    ensures { Prints O.contents O.faults O.may_fail O.takes_memory O.keeps before result out.old out.new (behind_blank (decimal line)) }
{
    put_number(before, out, u64::from(line))
}

pub(crate) fn put_signed<O: Sink>(before: Ended, out: &mut O, number: i64) -> Ended
    ensures { Prints O.contents O.faults O.may_fail O.takes_memory O.keeps before result out.old out.new (behind_blank (signed_decimal number)) }
{
    let mut buffer = Buffer::new();
    put_word(before, out, buffer.format(number).as_bytes())
}

fn is_plain(byte: u8) -> bool
    ensures { result ≡ is_plain byte }
{
    match byte {
        b'"' | b'\\' | b'?' => false,
        b' '..=b'~' => true,
        _ => false,
    }
}

fn are_plain(bytes: &[u8]) -> bool
    ensures { result ≡ are_plain bytes.now }
{
    for byte in bytes {
        if !is_plain(*byte) {
            return false;
        }
    }
    true
}

fn put_byte<O: Sink>(before: Ended, out: &mut O, byte: u8) -> Ended
    ensures { Prints O.contents O.faults O.may_fail O.takes_memory O.keeps before result out.old out.new (byte_text byte) }
{
    if is_plain(byte) {
        return put(before, out, &[byte]);
    }
    let escaped = [
        b'\\',
        b'0' + byte / 64,
        b'0' + byte / 8 % 8,
        b'0' + byte % 8,
    ];
    put(before, out, &escaped)
}

#[tactic(auto, using(ast_nodes::proofs::Chains::loops))]
fn put_each_byte<O: Sink>(before: Ended, out: &mut O, bytes: &[u8]) -> Ended
    ensures { Prints O.contents O.faults O.may_fail O.takes_memory O.keeps before result out.old out.new (joined (byte_texts bytes.now)) }
{
    let mut ended = before;
    for byte in bytes {
        ended = put_byte(ended, out, *byte);
    }
    ended
}

// Bytes that all stand for themselves are one piece.
fn put_bytes<O: Sink>(before: Ended, out: &mut O, bytes: &[u8]) -> Ended
    ensures { Prints O.contents O.faults O.may_fail O.takes_memory O.keeps before result out.old out.new (joined (byte_texts bytes.now)) }
{
    if are_plain(bytes) {
        put(before, out, bytes)
    } else {
        put_each_byte(before, out, bytes)
    }
}

#[tactic(auto, using(ast_nodes::proofs::Chains::chains))]
pub(crate) fn put_quoted<O: Sink>(before: Ended, out: &mut O, bytes: &[u8]) -> Ended
    ensures { Prints O.contents O.faults O.may_fail O.takes_memory O.keeps before result out.old out.new (behind_blank (quoted bytes.now)) }
{
    let ended = put(before, out, b" \"");
    let ended = put_bytes(ended, out, bytes);
    put(ended, out, b"\"")
}
