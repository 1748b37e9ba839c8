//! The parts of a node that hold no node: numbers, names and bytes.

ghost use Rattle.std.specs.Prelude.{[], ◌∷◌, ◌≡◌, codes, take, drop};
ghost use Rattle.std.specs.Fmt.{decimal};
ghost use Rattle.lf_base.specs.Contents.{joined};
ghost use Rattle.lf_base.specs.Puts.{Puts, Causes};
ghost use Rattle.ast_nodes.specs.Prints.{Prints};
ghost use Rattle.ast_nodes.specs.Node.{is_plain, are_plain, byte_text, byte_texts, quoted, behind_blank, node, opened, listed, optional};

use itoa::Buffer;
use lf_base::{Name, PutFault, Sink};

// How the puts so far ended. After a failure nothing more is put.
pub(crate) type Ended = Result<(), PutFault>;

// What a sink says of the piece, behind the puts before.
fn put_behind<O: Sink>(before: Ended, out: &mut O, piece: &[u8]) -> Ended
    ensures text { Puts before result (O.contents out.old) (O.contents out.new) piece.now }
    ensures cause { Causes O.may_fail O.takes_memory before result (O.faults out.old) (O.faults out.new) }
    ensures keeps { O.keeps out.old out.new }
{
    match before {
        Ok(()) => out.put(piece),
        Err(fault) => Err(fault),
    }
}

pub(crate) fn put<O: Sink>(before: Ended, out: &mut O, piece: &[u8]) -> Ended
    ensures { Prints O.contents O.faults O.may_fail O.takes_memory O.keeps before result out.old out.new piece.now }
{
    put_behind(before, out, piece)
}

// What varies, between two pieces that do not.
#[tactic(auto, using(crate::proofs::Chains::chains))]
pub(crate) fn put_between<O: Sink>(
    before: Ended,
    out: &mut O,
    front: &[u8],
    middle: &[u8],
    back: &[u8],
) -> Ended
    ensures { Prints O.contents O.faults O.may_fail O.takes_memory O.keeps before result out.old out.new (joined (front.now ∷ middle.now ∷ back.now ∷ [])) }
{
    let ended = put(before, out, front);
    let ended = put(ended, out, middle);
    put(ended, out, back)
}

// The tag of a node and the name behind it.
#[tactic(auto, using(crate::proofs::Chains::chains))]
pub(crate) fn put_named<O: Sink>(before: Ended, out: &mut O, tag: &[u8], name: &Name) -> Ended
    ensures { Prints O.contents O.faults O.may_fail O.takes_memory O.keeps before result out.old out.new (joined (opened tag.now ∷ behind_blank name.now ∷ [])) }
{
    let ended = put_tag(before, out, tag);
    put_name(ended, out, name)
}

// The parenthesis and the tag that a node begins with.
#[tactic(auto, using(crate::proofs::Chains::chains))]
pub(crate) fn put_tag<O: Sink>(before: Ended, out: &mut O, tag: &[u8]) -> Ended
    ensures { Prints O.contents O.faults O.may_fail O.takes_memory O.keeps before result out.old out.new (opened tag.now) }
{
    let ended = put(before, out, b"(");
    put(ended, out, tag)
}

// The same, from the text of both.
pub(crate) fn put_opened<O: Sink>(before: Ended, out: &mut O, opened: &[u8]) -> Ended
    ensures { Prints O.contents O.faults O.may_fail O.takes_memory O.keeps before result out.old out.new (joined (take 1 opened.now ∷ drop 1 opened.now ∷ [])) }
{
    put(before, out, opened)
}

// A part of a node stands behind a blank.
#[tactic(auto, using(crate::proofs::Chains::chains))]
pub(crate) fn put_word<O: Sink>(before: Ended, out: &mut O, word: &[u8]) -> Ended
    ensures { Prints O.contents O.faults O.may_fail O.takes_memory O.keeps before result out.old out.new (behind_blank word.now) }
{
    let ended = put(before, out, b" ");
    put(ended, out, word)
}

// What stands for a missing part.
#[tactic(auto, unfolding(lf_base::specs::Contents::joined))]
pub(crate) fn put_missing<O: Sink>(before: Ended, out: &mut O) -> Ended
    ensures { Prints O.contents O.faults O.may_fail O.takes_memory O.keeps before result out.old out.new (behind_blank (codes "-")) }
{
    put(before, out, b" -")
}

// A number, with no blank in front of it. Most numbers have one digit.
pub(crate) fn put_digits<O: Sink>(before: Ended, out: &mut O, number: u32) -> Ended
    ensures { Prints O.contents O.faults O.may_fail O.takes_memory O.keeps before result out.old out.new (decimal number) }
{
    if number < 10 {
        return put(before, out, &[b'0' + number as u8]);
    }
    let mut buffer = Buffer::new();
    put(before, out, buffer.format(number).as_bytes())
}

pub(crate) fn put_number<O: Sink>(before: Ended, out: &mut O, number: u32) -> Ended
    ensures { Prints O.contents O.faults O.may_fail O.takes_memory O.keeps before result out.old out.new (behind_blank (decimal number)) }
{
    if number < 10 {
        return put(before, out, &[b' ', b'0' + number as u8]);
    }
    let mut buffer = Buffer::new();
    put_word(before, out, buffer.format(number).as_bytes())
}

fn is_plain(byte: u8) -> bool
    ensures { result ≡ is_plain byte }
{
    match byte {
        b'"' | b'\\' | b'?' => false,
        b' '..=b'~' => true,
        _ => false,
    }
}

fn are_plain(bytes: &[u8]) -> bool
    ensures { result ≡ are_plain bytes.now }
{
    for byte in bytes {
        if !is_plain(*byte) {
            return false;
        }
    }
    true
}

fn put_byte<O: Sink>(before: Ended, out: &mut O, byte: u8) -> Ended
    ensures { Prints O.contents O.faults O.may_fail O.takes_memory O.keeps before result out.old out.new (byte_text byte) }
{
    if is_plain(byte) {
        return put(before, out, &[byte]);
    }
    let escaped = [
        b'\\',
        b'0' + byte / 64,
        b'0' + byte / 8 % 8,
        b'0' + byte % 8,
    ];
    put(before, out, &escaped)
}

#[tactic(auto, using(crate::proofs::Chains::loops))]
fn put_each_byte<O: Sink>(before: Ended, out: &mut O, bytes: &[u8]) -> Ended
    ensures { Prints O.contents O.faults O.may_fail O.takes_memory O.keeps before result out.old out.new (joined (byte_texts bytes.now)) }
{
    let mut ended = before;
    for byte in bytes {
        ended = put_byte(ended, out, *byte);
    }
    ended
}

// Bytes that all stand for themselves are one piece.
fn put_bytes<O: Sink>(before: Ended, out: &mut O, bytes: &[u8]) -> Ended
    ensures { Prints O.contents O.faults O.may_fail O.takes_memory O.keeps before result out.old out.new (joined (byte_texts bytes.now)) }
{
    if are_plain(bytes) {
        put(before, out, bytes)
    } else {
        put_each_byte(before, out, bytes)
    }
}

#[tactic(auto, using(crate::proofs::Chains::chains))]
pub(crate) fn put_quoted<O: Sink>(before: Ended, out: &mut O, bytes: &[u8]) -> Ended
    ensures { Prints O.contents O.faults O.may_fail O.takes_memory O.keeps before result out.old out.new (behind_blank (quoted bytes.now)) }
{
    let ended = put(before, out, b" \"");
    let ended = put_bytes(ended, out, bytes);
    put(ended, out, b"\"")
}

// The end of an integer literal. The suffix is 0 nearly always.
#[tactic(auto, using(crate::proofs::Chains::chains))]
fn put_suffix<O: Sink>(before: Ended, out: &mut O, suffix: u8) -> Ended
    ensures { Prints O.contents O.faults O.may_fail O.takes_memory O.keeps before result out.old out.new (joined (codes "\"" ∷ behind_blank (decimal suffix) ∷ codes ")" ∷ [])) }
{
    if suffix == 0 {
        return put(before, out, b"\" 0)");
    }
    let ended = put(before, out, b"\"");
    let ended = put_number(ended, out, u32::from(suffix));
    put(ended, out, b")")
}

// An integer literal, behind a blank.
pub(crate) fn put_literal<O: Sink>(before: Ended, out: &mut O, digits: &[u8], suffix: u8) -> Ended
    ensures { Prints O.contents O.faults O.may_fail O.takes_memory O.keeps before result out.old out.new (behind_blank (node (codes "Int") (quoted digits.now ∷ decimal suffix ∷ []))) }
{
    let ended = put(before, out, b" (Int \"");
    let ended = put_bytes(ended, out, digits);
    put_suffix(ended, out, suffix)
}

pub(crate) fn put_name<O: Sink>(before: Ended, out: &mut O, name: &Name) -> Ended
    ensures { Prints O.contents O.faults O.may_fail O.takes_memory O.keeps before result out.old out.new (behind_blank name.now) }
{
    put_word(before, out, name.bytes())
}

pub(crate) fn put_optional_name<O: Sink>(before: Ended, out: &mut O, name: &Option<Name>) -> Ended
    ensures { Prints O.contents O.faults O.may_fail O.takes_memory O.keeps before result out.old out.new (behind_blank (optional name.now)) }
{
    match name {
        Some(name) => put_name(before, out, name),
        None => put_missing(before, out),
    }
}

// A text of a list, behind what stands in front of it.
#[tactic(auto, using(crate::proofs::Chains::chains))]
fn put_led<O: Sink>(before: Ended, out: &mut O, lead: &[u8], word: &[u8]) -> Ended
    ensures { Prints O.contents O.faults O.may_fail O.takes_memory O.keeps before result out.old out.new (joined (lead.now ∷ word.now ∷ [])) }
{
    let ended = put(before, out, lead);
    put(ended, out, word)
}

#[tactic(auto, using(crate::proofs::Chains::lists))]
pub(crate) fn put_names<O: Sink>(before: Ended, out: &mut O, names: &[Name]) -> Ended
    ensures { Prints O.contents O.faults O.may_fail O.takes_memory O.keeps before result out.old out.new (behind_blank (listed names.now)) }
{
    let mut ended = put(before, out, b" [");
    let mut lead: &[u8] = b"";
    for name in names {
        ended = put_led(ended, out, lead, name.bytes());
        lead = b" ";
    }
    put(ended, out, b"]")
}
