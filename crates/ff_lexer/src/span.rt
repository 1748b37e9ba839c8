ghost use Rattle.std.specs.Prelude.{◌≡◌, ◌-◌, drop, take, OnOk};
ghost use Rattle.ff_lexer.specs.Rest.{spelling_left};
ghost use Rattle.ff_lexer.specs.Spans as meant;
ghost use Rattle.ff_lexer.specs.Statements.{written};

use crate::bytes::Context;
use crate::token::{Kind, Token};
use crate::unbroken::{Reading, Spelled};
use lf_base::Memory;

/// The bytes of a token of this source, one after another: those of its span without the continuations in it, names in
/// lower case. It takes no memory.
pub fn spelled<'a>(source: &'a [u8], token: &Token) -> Spelled<'a>
    ensures { spelling_left result ≡ (meant.spelled source.now token.now).1 }
{
    Spelled {
        bytes: rest_from(source, token.from),
        left: token.to.saturating_sub(token.from),
        reading: Reading::Body(Context::Code),
        kind: token.kind,
    }
}

/// Fills the buffer with the bytes of a token of this source, as `spelled` gives them, in place of what it held.
#[tactic(auto, using(crate::proofs::Copied::unbroken_whole))]
pub fn spell(bytes: &mut Vec<u8>, source: &[u8], token: &Token) -> Result<(), Memory>
    ensures { OnOk result (bytes.new.items ≡ (meant.spelled source.now token.now).1) }
{
    let span = span_of(source, token);
    // A continuation begins with an `&`.
    if span.contains(&b'&') {
        copy_each(bytes, source, token)
    } else {
        copy_span(bytes, span, token.kind)
    }
}

// What the source has from this place on.
fn rest_from(source: &[u8], from: u32) -> &[u8]
    ensures { result.now ≡ drop from source.now }
{
    let from = from as usize;
    if from < source.len() {
        &source[from..]
    } else {
        &[]
    }
}

// The span of a token, as far as the source has it.
fn span_of<'a>(source: &'a [u8], token: &Token) -> &'a [u8]
    ensures { result.now ≡ take (token.now.to - token.now.from) (drop token.now.from source.now) }
{
    let rest = rest_from(source, token.from);
    let length = token.to.saturating_sub(token.from) as usize;
    if length < rest.len() {
        &rest[..length]
    } else {
        rest
    }
}

// Fills the buffer with the bytes of a token, one by one.
fn copy_each(bytes: &mut Vec<u8>, source: &[u8], token: &Token) -> Result<(), Memory>
    ensures { OnOk result (bytes.new.items ≡ (meant.spelled source.now token.now).1) }
{
    bytes.clear();
    for byte in spelled(source, token) {
        if bytes.push(byte).is_err() {
            return Err(Memory);
        }
    }
    Ok(())
}

// Fills the buffer with a span that holds no continuation, all at once.
fn copy_span(bytes: &mut Vec<u8>, span: &[u8], kind: Kind) -> Result<(), Memory>
    ensures { OnOk result (bytes.new.items ≡ written kind span.now) }
{
    bytes.clear();
    if bytes.extend_from_slice(span).is_err() {
        return Err(Memory);
    }
    write_cased(bytes, kind);
    Ok(())
}

// Writes names in lower case.
fn write_cased(bytes: &mut Vec<u8>, kind: Kind)
    ensures { bytes.new.items ≡ written kind bytes.old.items }
{
    match kind {
        Kind::Word => bytes.make_ascii_lowercase(),
        Kind::Number | Kind::Text | Kind::Mark => {}
    }
}
