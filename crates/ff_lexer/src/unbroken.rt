ghost use Rattle.std.specs.Prelude.{◌≡◌};
ghost use Rattle.std.specs.Iterator.{YieldsFirst, item_count};
ghost use Rattle.ff_lexer.specs.Rest.{spelling_left, next_reading, is_told};
ghost use Rattle.ff_lexer.specs.Spans as meant;
ghost use Rattle.ff_lexer.specs.Statements.{cased};

use crate::bytes::{Context, behind, ends, first_of, is_continued, lowered};
use crate::token::Kind;

/// Where the next byte of a span stands.
#[derive(Clone, Copy)]
pub(crate) enum Reading {
    /// In a token.
    Body(Context),
    /// On the rest of a line that is passed.
    Tail(Context),
    /// In front of what stands on a line behind one that ends in `&`.
    Front(Context),
}

/// The bytes of a token as it is spelled, one after another.
#[derive(Clone, Copy)]
pub struct Spelled<'a> {
    pub(crate) bytes: &'a [u8],
    pub(crate) left: u32,
    pub(crate) reading: Reading,
    pub(crate) kind: Kind,
}

// Where the byte behind this one stands, and whether this one belongs to the token.
fn next_reading(reading: Reading, byte: u8, bytes: &[u8]) -> Reading
    ensures { result ≡ next_reading reading byte bytes.now }
{
    match reading {
        Reading::Body(context) => {
            if is_continued(context, byte, bytes) {
                Reading::Tail(context)
            } else {
                Reading::Body(behind(context, byte))
            }
        }
        Reading::Tail(context) => {
            if byte == b'\n' {
                Reading::Front(context)
            } else {
                Reading::Tail(context)
            }
        }
        Reading::Front(context) => at_front(context, byte, bytes),
    }
}

fn at_front(context: Context, byte: u8, bytes: &[u8]) -> Reading
    ensures { result ≡ meant.at_front context byte bytes.now }
{
    match byte {
        b'&' => {
            if ends(context, bytes) {
                Reading::Tail(context)
            } else {
                Reading::Body(context)
            }
        }
        b'!' => Reading::Tail(context),
        _ => Reading::Front(context),
    }
}

fn is_told(reading: Reading, byte: u8, bytes: &[u8]) -> bool
    ensures { result ≡ is_told reading byte bytes.now }
{
    match reading {
        Reading::Body(context) => !is_continued(context, byte, bytes),
        Reading::Tail(_) | Reading::Front(_) => false,
    }
}

fn cased(kind: Kind, byte: u8) -> u8
    ensures { result ≡ cased kind byte }
{
    match kind {
        Kind::Word => lowered(byte),
        Kind::Number | Kind::Text | Kind::Mark => byte,
    }
}

impl<'a> Iterator for Spelled<'a> {
    type Item = u8;

    ghost next_gives = { YieldsFirst spelling_left };

    ghost remaining = { item_count spelling_left };

    #[tactic(auto, using(crate::proofs::Steps::steps))]
    fn next(&mut self) -> Option<u8> {
        while self.left > 0 {
            let Some((byte, bytes)) = first_of(self.bytes) else {
                return None;
            };
            let reading = self.reading;
            self.left -= 1;
            self.bytes = bytes;
            self.reading = next_reading(reading, byte, bytes);
            if is_told(reading, byte, bytes) {
                return Some(cased(self.kind, byte));
            }
        }
        None
    }
}
